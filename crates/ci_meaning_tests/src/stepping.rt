//! Tasks of sources, stepped on the tree.
ghost use Rattle.std.specs.Prelude.{◌≤◌, All, IsTrue, length};
ghost use Rattle.ci_base.specs.declared.bounds.TheConstants.{MOST_SOURCE_BYTES};
ghost use Rattle.ci_meaning.specs.Within.{IsOf};

use crate::printer::Shown;
use ci_base::bounds::{MOST_FILES, MOST_SOURCE_BYTES};
use ci_base::{Answer, Args, Bytes, Extra, Request, Text, Value};
use ci_meaning::{TreeMove, TreeTask};
use ci_source::{Compiled, read_sources};
use ci_tree::Project;
use std::alloc::Global;
use std::process::Abort;
use std::str::from_utf8;
use std::test::Fail;

/// What a task hears.
#[derive(Clone, Copy, Debug, PartialEq, Eq)]
pub enum Heard {
    /// An INT with code 0.
    Int(i32),
    /// A STRING with code 0.
    Str(&'static str),
    /// An INT with this code.
    Coded(i32, u8),
    /// An element of a queue.
    Element(i32, &'static str),
}

/// The text of these bytes.
fn text_of(bytes: &str) -> Result<Text, Fail> {
    Ok(Text::of(bytes.as_bytes()).ok_or("a long text")?)
}

/// The answer that a task hears. Where a test names none, it is the INT 0 with code 0.
fn answer_of(heard: Option<&Heard>) -> Result<Answer, Fail> {
    let mut answer = Answer {
        value: Value::Int(0),
        code: 0,
        extra: Extra::Nothing,
    };
    match heard {
        None => (),
        Some(Heard::Int(n)) => answer.value = Value::Int(*n),
        Some(Heard::Str(text)) => answer.value = Value::Str(text_of(text)?),
        Some(Heard::Coded(n, code)) => {
            answer.value = Value::Int(*n);
            answer.code = *code;
        }
        Some(Heard::Element(sort, text)) => {
            answer.extra = Extra::Element {
                sort: *sort,
                text: text_of(text)?,
            };
        }
    }
    Ok(answer)
}

/// Whether each source is short enough to be read.
fn are_short(sources: &[Bytes]) -> bool
    ensures { IsTrue result → All (λ source. length source ≤ MOST_SOURCE_BYTES) sources.now }
{
    sources.iter().all(|source| source.bytes().len() <= MOST_SOURCE_BYTES as usize)
}

/// What the source compiles to.
fn compile(rt: &impl Abort, alloc: Global, source: &str) -> Result<Compiled, Fail> {
    let mut sources = Vec::new(alloc);
    sources.push(Bytes::copy(alloc, source.as_bytes())?)?;
    assert!(rt; sources.len() <= MOST_FILES && are_short(&sources));
    Ok(read_sources(alloc, &sources)?)
}

/// Private steps up to the next request: their ticks, and the request. There may be 100,000 steps.
fn next_request<'p>(
    alloc: Global,
    task: &mut TreeTask<'p>,
    project: &'p Project,
) -> Result<(u32, Request), Fail>
    requires { IsOf project.now task.old }
    ensures { IsOf project.now task.new }
{
    let mut ticks: u32 = 0;
    for _ in 0..100_000 {
        match task.tree_step(alloc, project) {
            Ok(TreeMove::Private { tick }) => ticks = ticks.saturating_add(u32::from(tick)),
            Ok(TreeMove::Asks(request)) => return Ok((ticks, request)),
            Err(_) => return Err(Fail::from("no memory")),
        }
    }
    Err(Fail::from("no request"))
}

/// The first hundred requests of a task, up to its end.
fn next_requests<'p>(
    alloc: Global,
    task: &mut TreeTask<'p>,
    project: &'p Project,
    heard: &[Heard],
) -> Result<Shown, Fail>
    requires { IsOf project.now task.old }
{
    let mut shown = Shown::empty();
    for place in 0..100 {
        let (ticks, request) = next_request(alloc, task, project)?;
        shown.add(ticks, &request);
        if let Request::End { code: _ } = request {
            return Ok(shown);
        }
        let answer = answer_of(heard.get(place))?;
        task.answer(&answer);
    }
    Ok(shown)
}

/// The requests of a task of the project's first function, which has no parameters.
fn requests_of(alloc: Global, project: &Project, heard: &[Heard]) -> Result<Shown, Fail> {
    let mut task = TreeTask::start(alloc, project, 0, &Args::empty())?;
    next_requests(alloc, &mut task, project, heard)
}

/// A source, what a task of its first function hears in turn, before it hears 0 for ever, and the requests that the task makes
/// up to its end, each behind its ticks since the one before.
pub type Row<'a> = (&'a str, &'a [Heard], &'a str);

/// The requests that a task makes of a source.
fn shown_of(rt: &impl Abort, alloc: Global, source: &str, heard: &[Heard]) -> Result<Shown, Fail> {
    let compiled = compile(rt, alloc, source)?;
    requests_of(alloc, &compiled.project, heard)
}

/// Asserts that a task makes these requests.
pub fn asks(
    rt: &impl Abort,
    alloc: Global,
    source: &str,
    heard: &[Heard],
    want: &str,
) -> Result<(), Fail> {
    let shown = shown_of(rt, alloc, source, heard)?;
    assert_eq!(rt; from_utf8(shown.bytes())?, want, "requests of {source}");
    Ok(())
}

/// Asserts the same of each row.
pub fn compare(rt: &impl Abort, alloc: Global, rows: &[Row]) -> Result<(), Fail> {
    for row in rows {
        let (source, heard, want) = *row;
        asks(rt, alloc, source, heard, want)?;
    }
    Ok(())
}
