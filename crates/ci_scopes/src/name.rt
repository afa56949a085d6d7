//! Names as keys of tables: letter case has no meaning in them.
ghost use Rattle.std.specs.Prelude.{◌≡◌, flat_map, fold};
ghost use Rattle.std.specs.Hash.{u8 as fed};
ghost use Rattle.std.specs.Str.{str_eq_ignore_ascii_case, str_to_ascii_lowercase};

use std::hash::{Hash, Hasher};

/// A name, which equals another where they differ at most in letter case.
#[derive(Clone, Copy)]
pub(crate) struct Name<'a> {
    bytes: &'a [u8],
}

impl<'a> Name<'a> {
    /// The name with these bytes. Takes no memory.
    pub(crate) fn of(bytes: &'a [u8]) -> Name<'a>
        ensures { result.bytes.now ≡ bytes.now }
    {
        Name { bytes }
    }
}

/// Feeds the bytes as small letters.
fn hash_lower<H: Hasher>(bytes: &[u8], state: &mut H)
    ensures { state.new ≡ fold H.write state.old (flat_map fed (str_to_ascii_lowercase bytes.now)) }
{
    for byte in bytes {
        state.write_u8(byte.to_ascii_lowercase());
    }
}

impl<'a> PartialEq for Name<'a> {
    ghost use Rattle.ci_scopes.specs.Names.{names_per};

    ghost eq = { λ x y. str_eq_ignore_ascii_case y.bytes.now x.bytes.now };

    ghost laws = { names_per };

    fn eq(&self, other: &Name<'a>) -> bool {
        other.bytes.eq_ignore_ascii_case(self.bytes)
    }
}

impl<'a> Eq for Name<'a> {
    ghost use Rattle.ci_scopes.specs.Names.{names_equiv};

    ghost laws = { names_equiv };
}

impl<'a> Hash for Name<'a> {
    ghost use Rattle.ci_scopes.specs.Names.{alike};

    ghost hash_input = { λ n. flat_map fed (str_to_ascii_lowercase n.bytes.now) };

    ghost respects_eq = { λ x y. alike x.bytes.now y.bytes.now };

    fn hash<H: Hasher>(&self, state: &mut H) {
        hash_lower(self.bytes, state);
    }
}
