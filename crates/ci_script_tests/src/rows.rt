//! Events and faults as rows of a table have them.
use ci_base::{Event, EventKind, Text, Value};
use ci_script::{Script, ScriptFault, read_script};
use std::alloc::Global;
use std::process::Abort;
use std::test::Fail;

/// The event that a row wants.
#[derive(Clone, Copy, Debug, PartialEq, Eq)]
pub enum Want {
    Run(&'static str, &'static str),
    Tick(i32),
    Kill(i32),
    Suspend(i32),
    Resume(i32),
    Put(&'static str, i32, &'static str),
    Signal(&'static str),
    SetInt(&'static str, i32),
    SetText(&'static str, &'static str),
}

/// The text of a row.
fn text(bytes: &str) -> Result<Text, Fail> {
    Ok(Text::of(bytes.as_bytes()).ok_or("a long text")?)
}

/// What happens by the event of a row.
fn kind(want: Want) -> Result<EventKind, Fail> {
    match want {
        Want::Run(name, list) => Ok(EventKind::Run {
            name: text(name)?,
            list: text(list)?,
        }),
        Want::Tick(ms) => Ok(EventKind::Tick { ms }),
        Want::Kill(n) => Ok(EventKind::Kill { n }),
        Want::Suspend(n) => Ok(EventKind::Suspend { n }),
        Want::Resume(n) => Ok(EventKind::Resume { n }),
        Want::Put(name, sort, element) => Ok(EventKind::Put {
            name: text(name)?,
            sort,
            text: text(element)?,
        }),
        Want::Signal(name) => Ok(EventKind::Signal { name: text(name)? }),
        Want::SetInt(name, n) => Ok(EventKind::Set {
            name: text(name)?,
            value: Value::Int(n),
        }),
        Want::SetText(name, value) => Ok(EventKind::Set {
            name: text(name)?,
            value: Value::Str(text(value)?),
        }),
    }
}

/// The script has these events, which are all marked so.
pub fn compare(
    rt: &impl Abort,
    alloc: Global,
    source: &[u8],
    soon: bool,
    wants: &[Want],
) -> Result<(), Fail> {
    let script: Script = read_script(alloc, source)?;
    let events = script.events();
    assert_eq!(rt; events.len(), wants.len());
    for (event, want) in events.iter().zip(wants) {
        let what = kind(*want)?;
        assert_eq!(rt; *event, Event { soon, what });
    }
    Ok(())
}

/// The script is refused with this fault.
pub fn refused(rt: &impl Abort, alloc: Global, source: &[u8], want: ScriptFault) {
    match read_script(alloc, source) {
        Ok(_script) => assert!(rt; false),
        Err(fault) => assert_eq!(rt; fault, want),
    }
}
