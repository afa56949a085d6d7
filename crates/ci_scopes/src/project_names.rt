//! What all files declare, by number, and what a name means in each file, outside all functions.
ghost use Rattle.std.specs.Prelude.{◌≡◌, ◌≤◌, ◌&&◌, length, map, option_map, position, IfOk, OnOk, All};
ghost use Rattle.std.specs.List.{list_any};
ghost use Rattle.ci_base.specs.declared.bounds.TheConstants.{MOST_FILES};
ghost use Rattle.ci_tree.specs.Files.{IsFileTree};
ghost use Rattle.ci_tree.specs.Seen.{items_of};
ghost use Rattle.ci_names.specs.Declarations.{declared_in, is_public, is_of_file, called_function, function_named, function_number, variable_number};
ghost use Rattle.ci_names.specs.Given.{given_named};
ghost use Rattle.ci_names.specs.Scopes as scopes;
ghost use Rattle.ci_names.specs.Scopes.{variable_named};
ghost use Rattle.ci_scopes.specs.Listed.{function_at, variable_at};
ghost use Rattle.ci_scopes.specs.Values.{called_of, meaning_of};
ghost use Rattle.ci_scopes.specs.Stands.{is_global, is_own_variable};

use crate::called::Called;
use crate::functions::{FunctionAt, Functions};
use crate::given::GivenAt;
use crate::meaning::Meaning;
use crate::rows::Rows;
use crate::variables::{VariableAt, Variables};
use ci_base::{Bytes, OutOfMemory};
use ci_tree::FileTree;
use ci_tree::bound::Callee;
use sqlite_items::at;
use std::alloc::Global;
use std::marker::Model;

/// What all files declare: the functions and variables by number, and the first of each name, of those that are seen everywhere
/// and of those of each file. In names letter case has no meaning. Contracts see the items of the files.
#[derive(Drop)]
pub struct ProjectNames<'a> {
    trees: &'a [FileTree],
    functions: Functions<'a>,
    variables: Variables<'a>,
    given: Vec<GivenAt>,
}

impl<'a> Model for ProjectNames<'a> {
    ghost use Rattle.std.specs.Prelude.{List, map};
    ghost use Rattle.std.specs.Coded.{coded_list};
    ghost use Rattle.ci_tree.specs.declared.tree.Item.{Item};
    ghost use Rattle.ci_tree.specs.contracts.tree.Item.{the_row};
    ghost use Rattle.ci_tree.specs.Seen.{items_of};
    ghost use Rattle.ci_names.specs.Declarations.{declared_in};
    ghost use Rattle.ci_scopes.specs.Stands.{AreTables};

    ghost Value = { List (List Item) };

    ghost coded = { coded_list (coded_list the_row.coded) };

    ghost view = { λ names. names.trees.now };

    ghost invariant = { λ names. AreTables names.functions names.variables names.given.items (declared_in (map items_of names.trees.now)) };
}

#[tactic(auto, unfolding(crate::specs::Project::declared_of))]
impl<'a> ProjectNames<'a> {
    ghost use Rattle.ci_scopes.specs.Project.{declared_of};

    /// What the files declare.
    pub fn of(alloc: Global, trees: &'a [FileTree]) -> Result<ProjectNames<'a>, OutOfMemory>
        requires { length trees.now ≤ MOST_FILES }
        ensures declared { IfOk result (λ names. declared_of names ≡ declared_in (map items_of trees.now)) }
        ensures kept { OnOk result (All IsFileTree (map items_of trees.now)) }
    {
        let Rows {
            functions,
            variables,
        } = Rows::of(alloc, trees)?;
        let given = GivenAt::all(alloc)?;
        Ok(ProjectNames {
            trees,
            functions,
            variables,
            given,
        })
    }

    /// The functions by number: in the order of files and places.
    pub fn functions(&self) -> &[FunctionAt<'a>]
        ensures { map function_at result.now ≡ (declared_of self.now).functions }
    {
        self.functions.rows.as_slice()
    }

    /// The variables by number: in the order of files and places.
    pub fn variables(&self) -> &[VariableAt<'a>]
        ensures { map variable_at result.now ≡ (declared_of self.now).variables }
    {
        self.variables.rows.as_slice()
    }

    /// The number of the first function of this name that is seen everywhere.
    pub fn first_public(&self, name: &Bytes) -> Option<usize>
        ensures { result ≡ position (is_public name.now) (declared_of self.now).functions }
    {
        self.functions.publics.get(None, name.bytes())
    }

    /// The number of the first function of this name in the file.
    pub fn first_function(&self, file: u32, name: &Bytes) -> Option<usize>
        ensures { result ≡ position (is_of_file file name.now) (declared_of self.now).functions }
    {
        self.functions.own.get(Some(file), name.bytes())
    }

    /// Whether the file has a PRIVATE function of this name.
    fn has_private(&self, file: u32, name: &Bytes) -> bool
        ensures { result ≡ list_any (λ f. is_of_file file name.now f && f.private) (declared_of self.now).functions }
    {
        self.functions
            .privates
            .get(Some(file), name.bytes())
            .is_some()
    }

    /// The number of the first GLOBAL variable of this name.
    pub fn first_global(&self, name: &Bytes) -> Option<usize>
        ensures { result ≡ position (is_global name.now) (declared_of self.now).variables }
    {
        self.variables.globals.get(None, name.bytes())
    }

    /// The number of the first variable of this name in the file.
    pub fn first_variable(&self, file: u32, name: &Bytes) -> Option<usize>
        ensures { result ≡ position (is_own_variable file name.now) (declared_of self.now).variables }
    {
        self.variables.own.get(Some(file), name.bytes())
    }

    /// The number of the function that the name means in the file.
    fn function_number(&self, file: u32, name: &Bytes) -> Option<usize>
        ensures { result ≡ function_number (declared_of self.now).functions file name.now }
    {
        if self.has_private(file, name) {
            self.first_function(file, name)
        } else {
            self.first_public(name)
        }
    }

    /// The number of the variable that the name means in the file.
    fn variable_number(&self, file: u32, name: &Bytes) -> Option<usize>
        ensures { result ≡ variable_number (declared_of self.now).variables file name.now }
    {
        match self.first_variable(file, name) {
            Some(number) => Some(number),
            None => self.first_global(name),
        }
    }

    /// What the function of this number is called for.
    fn called(&self, number: usize) -> Option<Called<'_>>
        ensures { option_map called_of result ≡ called_function (declared_of self.now).functions number }
    {
        let heading = at(self.functions.headings.as_slice(), number)?;
        Some(Called {
            callee: Callee::Function(number),
            heading,
        })
    }

    /// What the variable of this number means.
    fn variable_of(&self, number: usize) -> Option<Meaning>
        ensures { option_map meaning_of result ≡ scopes.variable_at (declared_of self.now).variables number }
    {
        let meaning = at(self.variables.meanings.as_slice(), number)?;
        Some(*meaning)
    }

    /// What the name means of the functions that every project has.
    pub fn given(&self, name: &Bytes) -> Option<Called<'_>>
        ensures { option_map called_of result ≡ given_named name.now }
    {
        GivenAt::find(self.given.as_slice(), name.bytes())
    }

    /// What the name means in the file that is called.
    pub fn function(&self, file: u32, name: &Bytes) -> Option<Called<'_>>
        ensures { option_map called_of result ≡ function_named (declared_of self.now) file name.now }
    {
        match self.function_number(file, name) {
            Some(number) => self.called(number),
            None => self.given(name),
        }
    }

    /// The variable that the name means in the file.
    pub fn variable(&self, file: u32, name: &Bytes) -> Option<Meaning>
        ensures { option_map meaning_of result ≡ variable_named (declared_of self.now) file name.now }
    {
        let number = self.variable_number(file, name)?;
        self.variable_of(number)
    }
}
