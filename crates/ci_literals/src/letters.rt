//! Letters and digits, and names.
ghost use Rattle.std.specs.Prelude.{◌≡◌};
ghost use Rattle.ci_base.specs.Letters.{is_digit, is_hex_digit, is_letter, is_name_byte};
ghost use Rattle.ci_base.specs.Names.{is_name};

/// Whether the byte is a letter or `_`.
#[tactic(auto, unfolding(ci_base::specs::Letters::is_letter, ci_base::specs::Letters::is_capital, ci_base::specs::Letters::is_small))]
pub fn is_letter(b: u8) -> bool
    ensures { result ≡ is_letter b }
{
    (b >= b'A' && b <= b'Z') || (b >= b'a' && b <= b'z') || b == b'_'
}

/// Whether the byte is one of 0 to 9.
#[tactic(auto, unfolding(ci_base::specs::Letters::is_digit))]
pub fn is_digit(b: u8) -> bool
    ensures { result ≡ is_digit b }
{
    b >= b'0' && b <= b'9'
}

/// Whether the byte is one of 0 to 9, A to F and a to f.
#[tactic(auto, unfolding(ci_base::specs::Letters::is_hex_digit))]
pub fn is_hex_digit(b: u8) -> bool
    ensures { result ≡ is_hex_digit b }
{
    is_digit(b) || (b >= b'A' && b <= b'F') || (b >= b'a' && b <= b'f')
}

/// Whether the byte is a letter, a digit or `_`.
#[tactic(auto, unfolding(ci_base::specs::Letters::is_name_byte))]
fn is_name_byte(b: u8) -> bool
    ensures { result ≡ is_name_byte b }
{
    is_letter(b) || is_digit(b)
}

/// Whether the bytes are a letter or `_`, and then letters, digits and `_`: a name of any length, or a keyword.
pub fn is_word(bytes: &[u8]) -> bool
    ensures { result ≡ is_name bytes.now }
{
    if bytes.is_empty() || !is_letter(bytes[0]) {
        return false;
    }
    for b in bytes {
        if !is_name_byte(*b) {
            return false;
        }
    }
    true
}
