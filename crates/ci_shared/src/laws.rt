//! Laws of serving, for those who use the definitions without looking into them. The functions do nothing: what they
//! ensure is the law.
ghost use Rattle.ci_shared.specs.Laws.{OtherAsk, OwnAsk, OtherScript, AskGrows, ScriptGrows, AskKeeps, ScriptKeeps, OpeningKeeps, AskAnswers, ScriptAnswers, RoomToWait, AskClock, ScriptClock, AskOrders, ScriptOrders, AskOwns, ScriptOwns, OpeningOwns, DuesInOrder, AskNumbers, ScriptNumbers, OpeningNumbers, ArgumentsFit};

/// A request leaves a task that doesn't ask as it is, or answers it where it waited, or kills it where it is one of those
/// that it may kill.
pub fn other_ask()
    ensures { OtherAsk }
{}

/// The task that asks is ready with an answer that fits its request, or waits where only such answers come, or is dead.
/// No delivery goes to it.
pub fn own_ask()
    ensures { OwnAsk }
{}

/// An event leaves a task as it is, or answers it where it waited, or kills it where it is one of those that it may kill.
pub fn other_script()
    ensures { OtherScript }
{}

/// A request starts one task or none, and no task is ever removed.
pub fn ask_grows()
    ensures { AskGrows }
{}

/// An event starts one task or none, and no task is ever removed.
pub fn script_grows()
    ensures { ScriptGrows }
{}

/// A request keeps the invariant of serving.
pub fn ask_keeps()
    ensures { AskKeeps }
{}

/// An event keeps the invariant of serving.
pub fn script_keeps()
    ensures { ScriptKeeps }
{}

/// The state at the beginning has the invariant of serving.
pub fn opening_keeps()
    ensures { OpeningKeeps }
{}

/// The deliveries of a request go to tasks that waited, and are at most 64.
pub fn ask_answers()
    ensures { AskAnswers }
{}

/// The deliveries of an event go to tasks that waited, and are at most 64.
pub fn script_answers()
    ensures { ScriptAnswers }
{}

/// A ready task finds room in the lines.
pub fn room_to_wait()
    ensures { RoomToWait }
{}

/// A request doesn't move the clock.
pub fn ask_clock()
    ensures { AskClock }
{}

/// Only a tick moves the clock, by what it says.
pub fn script_clock()
    ensures { ScriptClock }
{}

/// A request keeps the owned sections in the order of their names.
pub fn ask_orders()
    ensures { AskOrders }
{}

/// An event keeps the owned sections in the order of their names.
pub fn script_orders()
    ensures { ScriptOrders }
{}

/// After a request each section that a task waits for is owned, where it was so before.
pub fn ask_owns()
    ensures { AskOwns }
{}

/// After an event each section that a task waits for is owned, where it was so before.
pub fn script_owns()
    ensures { ScriptOwns }
{}

/// At the beginning no task waits for a section.
pub fn opening_owns()
    ensures { OpeningOwns }
{}

/// Those that a tick answers come by their limits, and of one limit by their numbers.
pub fn dues_in_order()
    ensures { DuesInOrder }
{}

/// A request keeps the next number above those of the semaphores and the queues.
pub fn ask_numbers()
    ensures { AskNumbers }
{}

/// An event keeps the next number above those of the semaphores and the queues.
pub fn script_numbers()
    ensures { ScriptNumbers }
{}

/// At the beginning no number has been given.
pub fn opening_numbers()
    ensures { OpeningNumbers }
{}

/// The arguments that a function takes from a list are of the kinds of its parameters.
pub fn arguments_fit()
    ensures { ArgumentsFit }
{}
