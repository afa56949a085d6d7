//! The functions that every project has.
ghost use Rattle.std.specs.Prelude.{◌≡◌, ◌++◌, [], ◌∷◌, map, find, option_map, IfOk, OnOk};
ghost use Rattle.std.specs.Str.{str_eq_ignore_ascii_case};
ghost use Rattle.ci_base.specs.declared.value.Kind.TheVariants.{Int, Str};
ghost use Rattle.ci_base.specs.declared.value.Value.TheVariants as values;
ghost use Rattle.ci_names.specs.Given as given;
ghost use Rattle.ci_names.specs.Given.{Given, private_functions, shared_functions, by_value, to_be_set};
ghost use Rattle.ci_scopes.specs.Values.{taken_of, called_of};
ghost use Rattle.ci_scopes.specs.Spelling.{private_given, shared_given};

use crate::called::{Called, Heading, Taken};
use crate::memory::{add, push};
use crate::spelling;
use ci_base::{Kind, OutOfMemory, PrivateName, SharedName, Text, Value};
use ci_tree::bound::Callee;
use sqlite_items::Items;
use std::alloc::Global;

/// A function that every project has.
#[derive(Drop)]
pub(crate) struct GivenAt {
    name: &'static [u8],
    callee: Callee,
    heading: Heading,
}

/// Arguments of these kinds, each taken by its value.
fn by_values(alloc: Global, kinds: &[Kind]) -> Result<Items<Taken>, OutOfMemory>
    ensures { IfOk result (λ takes. map taken_of takes ≡ map by_value kinds.now) }
{
    let mut takes = Items::new(alloc);
    for kind in kinds {
        push(&mut takes, Taken::ByValue { kind: *kind })?;
    }
    Ok(takes)
}

/// What TaskHnd takes: a name that may be left out.
fn task_hnd_takes(alloc: Global) -> Result<Items<Taken>, OutOfMemory>
    ensures { IfOk result (λ takes. map taken_of takes ≡ given.with_default Str (values.Str []) ∷ []) }
{
    let mut takes = Items::new(alloc);
    let name = Taken::WithDefault {
        kind: Kind::Str,
        default: Value::Str(Text::empty()),
    };
    push(&mut takes, name)?;
    Ok(takes)
}

/// What QueRead takes: it sets its second and third argument.
fn que_read_takes(alloc: Global) -> Result<Items<Taken>, OutOfMemory>
    ensures { IfOk result (λ takes. map taken_of takes ≡ by_value Int ∷ to_be_set Int ∷ to_be_set Str ∷ by_value Int ∷ []) }
{
    let takes = [
        Taken::ByValue { kind: Kind::Int },
        Taken::ToBeSet { kind: Kind::Int },
        Taken::ToBeSet { kind: Kind::Str },
        Taken::ByValue { kind: Kind::Int },
    ];
    match Vec::from_array(alloc, takes) {
        Ok(takes) => Ok(Items::from_vec(takes)),
        Err(_) => Err(OutOfMemory),
    }
}

/// What a shared function takes.
fn shared_takes(alloc: Global, of: SharedName) -> Result<Items<Taken>, OutOfMemory>
    ensures { IfOk result (λ takes. map taken_of takes ≡ (shared_given of).called.heading.takes) }
{
    match of {
        SharedName::TaskHnd => task_hnd_takes(alloc),
        SharedName::QueRead => que_read_takes(alloc),
        _ => by_values(alloc, of.takes()),
    }
}

impl GivenAt {
    ghost use Rattle.ci_scopes.specs.GivenRows.{given_row};

    /// The private function.
    fn private(alloc: Global, of: PrivateName) -> Result<GivenAt, OutOfMemory>
        ensures { IfOk result (λ row. given_row row ≡ private_given of) }
    {
        let takes = by_values(alloc, of.takes())?;
        Ok(GivenAt {
            name: of.spelling(),
            callee: Callee::Private(of),
            heading: Heading {
                takes,
                gives: Some(of.gives()),
            },
        })
    }

    /// The shared function.
    fn shared(alloc: Global, of: SharedName) -> Result<GivenAt, OutOfMemory>
        ensures { IfOk result (λ row. given_row row ≡ shared_given of) }
    {
        let takes = shared_takes(alloc, of)?;
        Ok(GivenAt {
            name: spelling::shared_spelling(of),
            callee: Callee::Shared(of),
            heading: Heading {
                takes,
                gives: Some(Kind::Int),
            },
        })
    }

    /// Adds the private functions.
    fn add_privates(
        rows: &mut Vec<GivenAt>,
        alloc: Global,
        names: &[PrivateName],
    ) -> Result<(), OutOfMemory>
        ensures { OnOk result (map given_row rows.new.items ≡ map given_row rows.old.items ++ map private_given names.now) }
    {
        for of in names {
            add(rows, GivenAt::private(alloc, *of)?)?;
        }
        Ok(())
    }

    /// Adds the shared functions.
    fn add_shared(
        rows: &mut Vec<GivenAt>,
        alloc: Global,
        names: &[SharedName],
    ) -> Result<(), OutOfMemory>
        ensures { OnOk result (map given_row rows.new.items ≡ map given_row rows.old.items ++ map shared_given names.now) }
    {
        for of in names {
            add(rows, GivenAt::shared(alloc, *of)?)?;
        }
        Ok(())
    }

    /// Those of all projects: behind the private functions the shared ones.
    pub(crate) fn all(alloc: Global) -> Result<Vec<GivenAt>, OutOfMemory>
        ensures { IfOk result (λ rows. map given_row rows.items ≡ private_functions ++ shared_functions) }
    {
        let mut rows = Vec::new(alloc);
        GivenAt::add_privates(&mut rows, alloc, &spelling::PRIVATE_NAMES)?;
        GivenAt::add_shared(&mut rows, alloc, &spelling::SHARED_NAMES)?;
        Ok(rows)
    }

    /// The first of this name; letter case has no meaning.
    pub(crate) fn find<'a>(rows: &'a [GivenAt], name: &[u8]) -> Option<Called<'a>>
        ensures { option_map called_of result ≡ option_map (λ (g : Given). g.called) (find (λ (g : Given). str_eq_ignore_ascii_case g.name name.now) (map given_row rows.now)) }
    {
        for row in rows {
            if row.name.eq_ignore_ascii_case(name) {
                return Some(Called {
                    callee: row.callee,
                    heading: &row.heading,
                });
            }
        }
        None
    }
}
