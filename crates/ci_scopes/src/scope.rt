//! Where a part of a function stands, and what names mean there.
ghost use Rattle.std.specs.Prelude.{◌≡◌, ◌++◌, [], ◌∷◌, length, map, option_map, OnOk, OnErr};
ghost use Rattle.std.specs.List.{list_any};
ghost use Rattle.std.specs.Str.{str_eq_ignore_ascii_case};
ghost use Rattle.ci_names.specs.Scopes.{Local, local_named, meaning, callee, with_locals};
ghost use Rattle.ci_scopes.specs.Project.{declared_of};
ghost use Rattle.ci_scopes.specs.Values.{meaning_of, called_of};

use crate::called::Called;
use crate::locals::Locals;
use crate::meaning::Meaning;
use crate::project_names::ProjectNames;
use ci_base::{Bytes, Kind, OutOfMemory};
use ci_tree::bound::Scalar;
use sqlite_items::at;
use std::alloc::Global;

/// Where a part of a function stands: the file, the kind that the function gives, and the locals that hold there.
#[derive(Drop)]
pub struct Scope<'a> {
    names: &'a ProjectNames<'a>,
    file: u32,
    gives: Option<Kind>,
    locals: Locals<'a>,
}

#[tactic(auto, unfolding(crate::specs::Seen::scope_of))]
impl<'a> Scope<'a> {
    ghost use Rattle.ci_scopes.specs.Seen.{scope_of};

    /// A place without locals in the file of this number, counted from 0, in a function that gives this kind, if any. Takes no
    /// memory.
    pub fn of(
        alloc: Global,
        names: &'a ProjectNames<'a>,
        file: u32,
        gives: Option<Kind>,
    ) -> Scope<'a>
        ensures { scope_of result ≡ record { declared = declared_of names.now; file = file; gives = gives; locals = [] } }
    {
        Scope {
            names,
            file,
            gives,
            locals: Locals::empty(alloc),
        }
    }

    /// The number of the file, counted from 0.
    pub fn file(&self) -> u32
        ensures { result ≡ (scope_of self.now).file }
    {
        self.file
    }

    /// The kind that the function gives, if any.
    pub fn gives(&self) -> Option<Kind>
        ensures { result ≡ (scope_of self.now).gives }
    {
        self.gives
    }

    /// How many locals hold here.
    pub fn count(&self) -> usize
        ensures { result ≡ length (scope_of self.now).locals }
    {
        self.locals.count()
    }

    /// The kinds of the locals that hold here, by their numbers.
    pub fn kinds(&self) -> &[Kind]
        ensures { result.now ≡ map (λ (l : Local). l.kind) (scope_of self.now).locals }
    {
        self.locals.kinds()
    }

    /// Whether a local of this name holds here; letter case has no meaning.
    pub fn has_local(&self, name: &Bytes) -> bool
        ensures { result ≡ list_any (λ (l : Local). str_eq_ignore_ascii_case l.name name.now) (scope_of self.now).locals }
    {
        self.locals.number(name.bytes()).is_some()
    }

    /// What the name means as a variable.
    pub fn meaning(&self, name: &Bytes) -> Meaning
        ensures { meaning_of result ≡ meaning (scope_of self.now) name.now }
    {
        if let Some(local) = self.local(name) {
            return local;
        }
        if let Some(variable) = self.names.variable(self.file, name) {
            return variable;
        }
        match self.names.function(self.file, name) {
            Some(_) => Meaning::OnlyFunction,
            None => Meaning::Nothing,
        }
    }

    /// The local that the name means.
    fn local(&self, name: &Bytes) -> Option<Meaning>
        ensures { option_map meaning_of result ≡ local_named 0 (scope_of self.now).locals name.now }
    {
        let number = self.locals.number(name.bytes())?;
        let kind = at(self.locals.kinds(), number)?;
        Some(Meaning::Scalar {
            of: Scalar::Local(number),
            kind: *kind,
        })
    }

    /// What the name means that is called, if anything.
    pub fn callee(&self, name: &Bytes) -> Option<Called<'a>>
        ensures { option_map called_of result ≡ callee (scope_of self.now) name.now }
    {
        self.names.function(self.file, name)
    }

    /// From here on this local holds too. Where there is no memory for it, nothing changes.
    pub fn declare(&mut self, name: &'a Bytes, kind: Kind) -> Result<(), OutOfMemory>
        ensures ok { OnOk result (scope_of self.new ≡ with_locals (scope_of self.old) (record { name = name.now; kind = kind } ∷ [])) }
        ensures err { OnErr result (scope_of self.new ≡ scope_of self.old) }
    {
        self.locals.add(name, kind)
    }
}
