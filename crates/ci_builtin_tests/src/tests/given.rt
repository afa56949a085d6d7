//! Values as rows of a table have them.
use ci_base::{Text, Value};
use std::process::Abort;
use std::test::Fail;

/// What a row wants.
#[derive(Clone, Copy, Debug, PartialEq, Eq)]
pub enum Want {
    Int(i32),
    Str(&'static str),
    Fault(u8),
}

/// The text of a row.
pub fn text(bytes: &str) -> Result<Text, Fail> {
    Ok(Text::of(bytes.as_bytes()).ok_or("a long text")?)
}

/// The value that is a text of a row.
pub fn string(bytes: &str) -> Result<Value, Fail> {
    Ok(Value::Str(text(bytes)?))
}

/// What was given is what the row wants.
pub fn compare(rt: &impl Abort, got: Result<Value, u8>, want: Want) -> Result<(), Fail> {
    let wanted = match want {
        Want::Int(n) => Ok(Value::Int(n)),
        Want::Str(bytes) => Ok(string(bytes)?),
        Want::Fault(code) => Err(code),
    };
    assert_eq!(rt; got, wanted);
    Ok(())
}
