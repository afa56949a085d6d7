//! Lists of one and of two kinds.
ghost use Rattle.std.specs.Prelude.{◌≡◌, [], ◌∷◌};

use ci_base::Kind;

/// The list of this kind alone.
pub fn single(kind: Kind) -> &'static [Kind]
    ensures { result.now ≡ kind ∷ [] }
{
    match kind {
        Kind::Int => &[Kind::Int],
        Kind::Str => &[Kind::Str],
    }
}

/// The list of these two.
pub fn pair(first: Kind, second: Kind) -> &'static [Kind]
    ensures { result.now ≡ first ∷ second ∷ [] }
{
    match (first, second) {
        (Kind::Int, Kind::Int) => &[Kind::Int, Kind::Int],
        (Kind::Int, Kind::Str) => &[Kind::Int, Kind::Str],
        (Kind::Str, Kind::Int) => &[Kind::Str, Kind::Int],
        (Kind::Str, Kind::Str) => &[Kind::Str, Kind::Str],
    }
}
