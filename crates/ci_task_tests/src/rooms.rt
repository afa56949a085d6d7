//! The room of a machine and of a stack.
ghost use Rattle.std.specs.Prelude.{◌≡◌, ◌≤◌, ◌<◌, length};
ghost use Rattle.ci_base.specs.declared.bounds.TheConstants.{MOST_ROOM};

use ci_base::{Text, Value};
use ci_stack::TaskStack;
use ci_task::TaskMachine;
use std::alloc::Global;
use std::test::Fail;

/// A text of 255 bytes, of which the first two spell the number.
fn long(number: u32) -> Value {
    let mut bytes = [b'x'; 255];
    bytes[0] = (number / 256 % 256) as u8;
    bytes[1] = (number % 256) as u8;
    match Text::of(&bytes) {
        Some(text) => Value::Str(text),
        None => Value::Int(0),
    }
}

/// How many of the numbers from 0 on, up to this one, come onto the stack as texts of 255 bytes.
fn pushed(stack: &mut TaskStack, count: u32) -> u32 {
    let mut right: u32 = 0;
    for number in 0..count {
        if stack.push(long(number)).is_ok() {
            right = right.saturating_add(1);
        }
    }
    right
}

/// How many of the texts from this number down to 0 are taken off in turn.
fn popped(stack: &mut TaskStack, count: u32) -> u32 {
    let mut right: u32 = 0;
    for behind in 0..count {
        if is_popped(stack, long(count - 1 - behind)) {
            right = right.saturating_add(1);
        }
    }
    right
}

fn is_popped(stack: &mut TaskStack, want: Value) -> bool {
    match stack.pop() {
        Some(value) => value == want,
        None => false,
    }
}

/// Whether the value comes back, since the stack is full.
fn comes_back(stack: &mut TaskStack, number: u32) -> bool {
    match stack.push(long(number)) {
        Ok(()) => false,
        Err(value) => value == long(number),
    }
}

/// The stack.
fn stack(alloc: Global) -> Result<TaskStack, Fail> {
    match TaskStack::room(alloc) {
        Ok(stack) => Ok(stack),
        Err(_) => Err(Fail::from("out of memory")),
    }
}

#[test]
fn a_text_of_255_bytes_stands_in_each_place(rt: HostRuntime) -> Result<(), Fail> {
    let mut stack = stack(rt.alloc())?;
    assert_eq!(rt; pushed(&mut stack, 4_096), 4_096);
    assert!(rt; comes_back(&mut stack, 4_096));
    assert_eq!(rt; popped(&mut stack, 4_096), 4_096);
    assert!(rt; stack.pop().is_none());
    assert_eq!(rt; pushed(&mut stack, 4_096), 4_096);
    assert_eq!(rt; popped(&mut stack, 4_096), 4_096);
    Ok(())
}

/// Whether the value is at the place.
fn stands(stack: &TaskStack, place: u32, want: &Value) -> bool {
    (place as usize) < stack.count() && stack.copy_at(place) == *want
}

/// The value comes to the place, where there is one.
fn put(stack: &mut TaskStack, place: u32, value: Value) -> bool {
    if (place as usize) < stack.count() {
        stack.put_at(place, value);
        return true;
    }
    false
}

#[test]
fn a_text_that_comes_to_a_place_leaves_the_others(rt: HostRuntime) -> Result<(), Fail> {
    let mut stack = stack(rt.alloc())?;
    assert!(rt; stack.push(short()).is_ok());
    assert!(rt; stack.push(Value::Int(7)).is_ok());
    assert!(rt; stack.push(long(1)).is_ok());
    assert!(rt; put(&mut stack, 0, long(2)));
    assert!(rt; stands(&stack, 0, &long(2)));
    assert!(rt; put(&mut stack, 0, Value::Str(Text::empty())));
    assert!(rt; stands(&stack, 0, &Value::Str(Text::empty())));
    assert!(rt; stands(&stack, 1, &Value::Int(7)));
    assert!(rt; stands(&stack, 2, &long(1)));
    Ok(())
}

/// A text of one byte.
fn short() -> Value {
    match Text::of(b"a") {
        Some(text) => Value::Str(text),
        None => Value::Int(0),
    }
}

#[test]
fn a_stack_gets_its_room(rt: HostRuntime) -> Result<(), Fail> {
    let mut stack = stack(rt.alloc())?;
    assert!(rt; stack.pop().is_none());
    Ok(())
}

#[test]
fn a_machine_gets_its_room(rt: HostRuntime) -> Result<(), Fail> {
    match TaskMachine::room(rt.alloc()) {
        Ok(machine) => {
            assert_eq!(rt; machine.instructions(), 0);
            Ok(())
        }
        Err(_) => Err(Fail::from("out of memory")),
    }
}
