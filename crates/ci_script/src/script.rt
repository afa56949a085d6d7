//! The events of a script.
ghost use Rattle.std.specs.Prelude.{◌≡◌, length};
ghost use Rattle.ci_script.specs.Scripts.{IsScript};

use ci_base::Event;
use std::marker::Model;

/// The events of a run, in their order: at most 100,000, of which no tick is negative. Contracts see the list.
#[derive(Debug, Drop)]
pub struct Script {
    kept: Vec<Event>,
}

impl Model for Script {
    ghost use Rattle.std.specs.Prelude.{List};
    ghost use Rattle.ci_base.specs.declared.event.Event.{Event as Row};
    ghost use Rattle.ci_script.specs.Scripts.{IsScript};

    ghost Value = { List Row };

    ghost view = { λ script. script.kept.items };

    ghost invariant = { λ script. IsScript script.kept.items };
}

impl Script {
    /// A script of these events.
    pub(crate) fn of(kept: Vec<Event>) -> Script
        requires { IsScript kept.items }
        ensures { result ≡ kept.items }
    {
        Script { kept }
    }

    /// The events, in their order.
    pub fn events(&self) -> &[Event]
        ensures value { result.now ≡ self.now }
        ensures keeps { IsScript result.now }
    {
        self.kept.as_slice()
    }
}
