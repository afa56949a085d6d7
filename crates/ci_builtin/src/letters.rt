//! Letter case, and what stands at the ends of texts.
ghost use Rattle.std.specs.Prelude.{◌≡◌};
ghost use Rattle.ci_base.specs.declared.bounds.TheConstants.{MOST_TEXT_BYTES};
ghost use Rattle.ci_base.specs.declared.value.Value.TheVariants.{Str};
ghost use Rattle.ci_base.specs.TextFunctions as texts;

use arrayvec::ArrayVec;
use ci_base::bounds::MOST_TEXT_BYTES;
use ci_base::{Text, Value};
use ci_literals::Edge;

/// `StrUpper(s)`: each ASCII letter as a capital.
pub fn str_upper(s: &Text) -> Result<Value, u8>
    ensures { result ≡ Ok (Str (texts.upper s.now)) }
{
    let bytes = s.bytes();
    let mut changed = ArrayVec::<u8, MOST_TEXT_BYTES>::new();
    for b in bytes {
        changed.push(b.to_ascii_uppercase());
    }
    Ok(Value::Str(Text::of_few(changed.as_slice())))
}

/// `StrLower(s)`: each ASCII letter as a small one.
pub fn str_lower(s: &Text) -> Result<Value, u8>
    ensures { result ≡ Ok (Str (texts.lower s.now)) }
{
    let bytes = s.bytes();
    let mut changed = ArrayVec::<u8, MOST_TEXT_BYTES>::new();
    for b in bytes {
        changed.push(b.to_ascii_lowercase());
    }
    Ok(Value::Str(Text::of_few(changed.as_slice())))
}

/// `StrTrim(s)`: the text without spaces and tabs at both ends.
pub fn str_trim(s: &Text) -> Result<Value, u8>
    ensures { result ≡ Ok (Str (texts.trimmed texts.is_blank s.now)) }
{
    Ok(Value::Str(Text::of_few(Edge::Blanks.trimmed(s.bytes()))))
}
