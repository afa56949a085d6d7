//! The requests of the shared functions, and what ErrSet and IsError change.
use super::given::{string, text};
use ci_base::{PrivateName, Request, SharedName, Value};
use ci_builtin::{error_after, goes_on_after, request_of};
use std::test::Fail;

#[test]
fn requests_have_what_was_given(rt: HostRuntime) -> Result<(), Fail> {
    let waits = request_of(SharedName::SemWait, &[Value::Int(3), Value::Int(-1)]);
    assert_eq!(rt; waits, Request::SemWait { number: 3, n: -1 });
    let reads = request_of(SharedName::QueRead, &[Value::Int(3), Value::Int(1)]);
    assert_eq!(rt; reads, Request::QueRead { number: 3, mode: 1 });
    let put = [Value::Int(3), Value::Int(4), string("x")?];
    let written = Request::QueWrite {
        number: 3,
        sort: 4,
        text: text("x")?,
    };
    assert_eq!(rt; request_of(SharedName::QueWrite, &put), written);
    let start = [string("F")?, string("1")?, Value::Int(0)];
    let started = Request::TaskNew {
        name: text("F")?,
        list: text("1")?,
        mode: 0,
    };
    assert_eq!(rt; request_of(SharedName::TaskNew, &start), started);
    assert_eq!(rt; request_of(SharedName::End, &[]), Request::End { code: 0 });
    let misused = request_of(SharedName::SleepMS, &[string("1")?]);
    assert_eq!(rt; misused, Request::End { code: 10 });
    Ok(())
}

#[test]
fn error_and_mode_change_by_two_functions(rt: HostRuntime) -> Result<(), Fail> {
    assert_eq!(rt; error_after(PrivateName::IsError, 9), 0);
    assert_eq!(rt; error_after(PrivateName::ErrSet, 9), 9);
    assert!(rt; goes_on_after(PrivateName::ErrSet, &[Value::Int(-1)], false));
    assert!(rt; !goes_on_after(PrivateName::ErrSet, &[Value::Int(0)], true));
    assert!(rt; goes_on_after(PrivateName::Assert, &[Value::Int(0)], true));
    Ok(())
}
