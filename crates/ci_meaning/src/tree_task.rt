//! One task on the tree, step by step.
ghost use Rattle.std.specs.Prelude.{◌≡◌, map, IfOk};
ghost use Rattle.ci_tree.specs.LeftOut.{Heads};
ghost use Rattle.ci_tree.specs.SeenBound.{heads_of, project_of};
ghost use Rattle.ci_meaning.specs.Configuration as configuration;
ghost use Rattle.ci_meaning.specs.Configuration.{with, opening};
ghost use Rattle.ci_meaning.specs.Held.{aim_of, below, configuration_of, task_of, want_of, wants_of};
ghost use Rattle.ci_meaning.specs.Meaning.{answered, resume, resumed};
ghost use Rattle.ci_meaning.specs.Within.{IsOf, Within};

use crate::entering::open_function;
use crate::limits::texts_and_cells_fit;
use crate::parts::{Frame, Hand, Want};
use crate::stack::{drop_top, set_top, top};
use ci_base::{Answer, Args, Extra, OutOfMemory, Request, Text, Value};
use ci_tree::Project;
use sqlite_items::Items;
use std::alloc::Global;

/// A task on the tree of a project, which it lends. It holds what is in hand, the function that runs, the functions that wait
/// for it, the last error, the last element that was read from a queue, and whether it goes on after run errors.
#[derive(Drop)]
pub struct TreeTask<'p> {
    pub(crate) hand: Hand<'p>,
    pub(crate) frame: Frame<'p>,
    pub(crate) callers: Items<Frame<'p>>,
    pub(crate) error: u8,
    pub(crate) sort: i32,
    pub(crate) text: Text,
    pub(crate) goes_on: bool,
}

/// What a step did.
#[derive(Debug, PartialEq, Eq, Drop)]
pub enum TreeMove {
    /// A private step, which is a tick or not.
    Private { tick: bool },
    /// None: the task stands at this request.
    Asks(Request),
}

impl<'p> TreeTask<'p> {
    /// A task that is started from the function of this number, with these values for its parameters.
    pub fn start(
        alloc: Global,
        project: &'p Project,
        function: u32,
        args: &Args,
    ) -> Result<TreeTask<'p>, OutOfMemory>
        ensures opens { IfOk result (λ task. configuration_of (heads_of project.now.functions) task ≡ opening (project_of project.now) function args.now) }
        ensures of { IfOk result (λ task. IsOf project.now task) }
    {
        texts_and_cells_fit(project);
        let frame = open_function(alloc, project, function as usize, args.values())?;
        Ok(TreeTask {
            hand: Hand::Enter,
            frame,
            callers: Items::new(alloc),
            error: 0,
            sort: 0,
            text: Text::empty(),
            goes_on: false,
        })
    }

    /// The task has the answer to its request, and goes on from there. Takes no memory.
    pub fn answer(&mut self, answer: &Answer)
        ensures resumes { (heads : Heads) → configuration_of heads self.new ≡ resume (configuration_of heads self.old) answer.now }
        ensures of { (heads : Heads) → Within (configuration_of heads self.old) → Within (configuration_of heads self.new) }
    {
        self.take_value(&answer.value);
        if answer.code != 0 {
            self.error = answer.code;
        }
        if let Extra::Element { sort, text } = &answer.extra {
            self.sort = *sort;
            self.text = text.copy();
        }
    }

    /// The value of an answer is in hand, or what a write leaves there.
    fn take_value(&mut self, value: &Value)
        ensures { (heads : Heads) → configuration_of heads self.new ≡ with (resumed (configuration_of heads self.old).hand value.now) (task_of heads self.old) }
    {
        match &self.hand {
            Hand::Give { value: _ } => self.take_answer(value),
            Hand::Write {
                cell: _,
                value: _,
                after,
            } => {
                self.hand = match after {
                    Some(after) => Hand::Give {
                        value: after.copy(),
                    },
                    None => Hand::Go,
                };
            }
            Hand::Enter => (),
            Hand::Go => (),
            _ => self.hand = Hand::Give {
                value: value.copy(),
            },
        }
    }

    /// The same where a value was in hand.
    fn take_answer(&mut self, value: &Value)
        ensures { (heads : Heads) → configuration_of heads self.new ≡ with (answered value.now (wants_of heads self.old.frame.wants) (aim_of heads self.old.frame.aim)) (task_of heads self.old) }
    {
        match top(&self.frame.wants) {
            None => self.hand = Hand::Go,
            Some(Want::Mode { queue: _, targets }) => {
                let targets = *targets;
                set_top(&mut self.frame.wants, Want::Answer { targets });
                self.hand = Hand::Give {
                    value: value.copy(),
                };
            }
            Some(Want::Operand { minus: _ }) => self.give(value),
            Some(Want::Front { rest: _ }) => self.give(value),
            Some(
                Want::Right {
                    left: _,
                    operator: _,
                    rest: _,
                },
            ) => self.give(value),
            Some(Want::Index { array: _ }) => self.give(value),
            Some(
                Want::Argument {
                    before: _,
                    behind: _,
                },
            ) => self.give(value),
            Some(
                Want::Queue {
                    mode: _,
                    targets: _,
                },
            ) => self.give(value),
            Some(Want::Answer { targets: _ }) => self.give(value),
            Some(Want::Kept { target: _ }) => self.give(value),
        }
    }

    /// The value is in hand for what stands under the top.
    fn give(&mut self, value: &Value)
        ensures { (heads : Heads) → configuration_of heads self.new ≡ with (configuration.give value.now (map (want_of heads) (below self.old.frame.wants)) (aim_of heads self.old.frame.aim)) (task_of heads self.old) }
    {
        drop_top(&mut self.frame.wants);
        self.hand = Hand::Give {
            value: value.copy(),
        };
    }
}
