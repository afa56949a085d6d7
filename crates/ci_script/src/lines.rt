//! The lines of a script.
ghost use Rattle.std.specs.Prelude.{◌≡◌, ◌<◌, ◌∷◌, length};
ghost use Rattle.ci_script.specs.Lines.{lines, without_return};

use crate::parts::Mark;

/// The first line of what is left, without its LF and a CR before that, and what stands behind it.
pub(crate) fn split_line(rest: &[u8]) -> (&[u8], &[u8])
    requires { 0 < length rest.now }
    ensures value { lines rest.now ≡ result.0.now ∷ lines result.1.now }
    ensures shorter { length result.1.now < length rest.now }
{
    let end = Mark::LineFeed.reach(rest);
    if end < rest.len() {
        (without_return(&rest[..end]), &rest[end + 1..])
    } else {
        (rest, &rest[end..])
    }
}

/// A line without the CR at its end, if there is one.
fn without_return(line: &[u8]) -> &[u8]
    ensures { result.now ≡ without_return line.now }
{
    if line.len() > 0 && line[line.len() - 1] == b'\r' {
        &line[..line.len() - 1]
    } else {
        line
    }
}
