//! The projects of sources, and a fault of each step of their reading.
ghost use Rattle.std.specs.Prelude.{◌≤◌, All, IsTrue, length};
ghost use Rattle.ci_base.specs.declared.bounds.TheConstants.{MOST_SOURCE_BYTES};

use ci_base::bounds::{MOST_FILES, MOST_SOURCE_BYTES};
use ci_base::{Bytes, Kind, Text, Value};
use ci_source::{Compiled, Fault, SourceFault, one_meaning, read_sources};
use ci_tree::layout;
use std::alloc::Global;
use std::process::Abort;
use std::test::Fail;

/// Whether each source is short enough to be read.
fn are_short(sources: &[Bytes]) -> bool
    ensures { IsTrue result → All (λ source. length source ≤ MOST_SOURCE_BYTES) sources.now }
{
    sources.iter().all(|source| source.bytes().len() <= MOST_SOURCE_BYTES as usize)
}

/// What sources of these texts come to.
fn read(
    rt: &impl Abort,
    alloc: Global,
    texts: &[&str],
) -> Result<Result<Compiled, SourceFault>, Fail> {
    let mut sources = Vec::new(alloc);
    for text in texts {
        sources.push(Bytes::copy(alloc, text.as_bytes())?)?;
    }
    assert!(rt; sources.len() <= MOST_FILES && are_short(&sources));
    Ok(read_sources(alloc, &sources))
}

#[test]
fn sources_without_a_fault_have_a_project(rt: HostRuntime) -> Result<(), Fail> {
    one_meaning();
    // The numbers of functions, of cells, and of GLOBAL scalars.
    let rows: [(&[&str], (usize, usize, usize)); 3] = [
        (&[], (0, 0, 0)),
        (&["GLOBAL INT a;", "FUNCTION Main() a = 1; END"], (1, 1, 1)),
        (&["INT a;", "FUNCTION F() END", "INT a[3];"], (1, 4, 0)),
    ];
    for (texts, want) in rows {
        let Ok(compiled) = read(&rt, rt.alloc(), texts)? else {
            return Err(Fail::from("a project"));
        };
        assert_eq!(rt; compiled.trees.trees().len(), texts.len());
        let parts = compiled.project.parts();
        assert_eq!(rt; parts.functions.as_slice().len(), want.0);
        assert_eq!(rt; parts.cells.as_slice().len(), want.1);
        assert_eq!(rt; parts.globals.as_slice().len(), want.2);
    }
    Ok(())
}

#[test]
fn a_project_has_its_layout(rt: HostRuntime) -> Result<(), Fail> {
    let source =
        "GLOBAL INT a = 3; FUNCTION F(INT n, STRING s = \"d\") END PRIVATE FUNCTION g() END";
    let Ok(compiled) = read(&rt, rt.alloc(), &[source])? else {
        return Err(Fail::from("a project"));
    };
    let Ok(layout) = layout(rt.alloc(), &compiled.project) else {
        return Err(Fail::from("no memory"));
    };
    let functions = layout.functions.members();
    assert_eq!(rt; functions.len(), 2);
    assert_eq!(rt; functions[0].name.bytes(), b"F".as_slice());
    assert!(rt; functions[0].public && !functions[1].public);
    assert_eq!(rt;
        functions[0].kinds.members(),
        [Kind::Int, Kind::Str].as_slice()
    );
    let default = Text::of(b"d").ok_or("one byte")?;
    assert_eq!(rt;
        functions[0].defaults.members(),
        [Value::Str(default)].as_slice()
    );
    let cells = layout.cells.members();
    assert_eq!(rt; cells.len(), 1);
    assert_eq!(rt; cells[0].first, Value::Int(3));
    let globals = layout.globals.members();
    assert_eq!(rt; globals.len(), 1);
    assert_eq!(rt; globals[0].name.bytes(), b"a".as_slice());
    assert_eq!(rt; globals[0].cell, 0);
    Ok(())
}

#[test]
fn the_first_fault_is_told_at_its_file_and_offset(rt: HostRuntime) -> Result<(), Fail> {
    let rows: [(&[&str], u32, Fault, u32); 4] = [
        (&["FUNCTION F()", "END @"], 1, Fault::StrayByte, 4),
        (
            &["FUNCTION F() x = 1; END", "FUNCTION F()"],
            1,
            Fault::UnexpectedEnd,
            12,
        ),
        (&["", "FUNCTION F() END END"], 1, Fault::UnexpectedToken, 17),
        (
            &["FUNCTION F() x = 1; END", "INT a; INT a;"],
            0,
            Fault::NameUnknown,
            13,
        ),
    ];
    for (texts, file, fault, offset) in rows {
        let Err(found) = read(&rt, rt.alloc(), texts)? else {
            return Err(Fail::from("a fault"));
        };
        let want = SourceFault::Refused {
            file,
            fault,
            offset,
        };
        assert_eq!(rt; found, want, "of {texts:?}");
    }
    Ok(())
}
