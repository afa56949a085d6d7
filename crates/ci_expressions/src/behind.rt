//! What has to stand behind a value that was read. These functions are generic so that a value is let go by a call
//! where nothing of the kind stands there; a tree that a longer function lets go at each of its faults is costly to prove.
ghost use Rattle.std.specs.Prelude.{◌≡◌, ◌≢◌, IfOk, IfErr};
ghost use Rattle.ci_tree.specs.Refused.{is_keyword, is_sign};
ghost use Rattle.ci_expressions.specs.Gives.{kinds, Gives};
ghost use Rattle.ci_expressions.specs.Reading as reading;

use crate::cursor::{Cursor, expect_keyword, expect_sign};
use crate::fault::ParseFault;
use ci_tree::{Keyword, Sign};

/// The value, and the place behind this sign.
pub fn with_sign<T: Drop>(value: T, here: Cursor, sign: Sign) -> Result<(T, Cursor), ParseFault>
    ensures kept { IfOk result (λ x. x.0 ≡ value) }
    ensures behind { Gives (λ x. (x.1.at, kinds x.1.left.now)) result (reading.expect (is_sign sign) here.entry.at (kinds here.entry.left.now)) }
    ensures no_memory { IfErr result (λ fault. fault ≢ ParseFault.Memory) }
{
    let behind = expect_sign(here, sign)?;
    Ok((value, behind))
}

/// The value, and the place behind this keyword.
pub fn with_keyword<T: Drop>(
    value: T,
    here: Cursor,
    keyword: Keyword,
) -> Result<(T, Cursor), ParseFault>
    ensures kept { IfOk result (λ x. x.0 ≡ value) }
    ensures behind { Gives (λ x. (x.1.at, kinds x.1.left.now)) result (reading.expect (is_keyword keyword) here.entry.at (kinds here.entry.left.now)) }
    ensures no_memory { IfErr result (λ fault. fault ≢ ParseFault.Memory) }
{
    let behind = expect_keyword(here, keyword)?;
    Ok((value, behind))
}
