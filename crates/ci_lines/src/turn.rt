//! Turning away all who wait at a place.
ghost use Rattle.std.specs.Prelude.{◌≡◌, ◌≤◌, ◌+◌, ◌++◌, length};
ghost use Rattle.ci_base.specs.declared.bounds.TheConstants.{MOST_LIVE_TASKS};
ghost use Rattle.ci_shared.specs.Roster.{lines_after};
ghost use Rattle.ci_shared.specs.Rows.{turned_away};

use crate::Lines;
use ci_base::{Answer, Delivery, Extra, Place, Value, Woken};

impl Lines {
    /// All who wait at the place leave it and are answered 1, in the order of the line. Takes no memory.
    pub fn turn_away(&mut self, place: &Place, woken: &mut Woken)
        requires { length woken.old + length self.old ≤ MOST_LIVE_TASKS }
        ensures lines { self.new ≡ lines_after (turned_away place.now self.old) self.old }
        ensures woken { woken.new ≡ woken.old ++ turned_away place.now self.old }
    {
        while let Some(task) = self.take_first(place) {
            woken.add(Delivery {
                task,
                answer: Answer {
                    value: Value::Int(1),
                    code: 1,
                    extra: Extra::Nothing,
                },
            });
        }
    }
}
