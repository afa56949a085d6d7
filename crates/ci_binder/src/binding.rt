//! From the trees of all files to their project.
ghost use Rattle.std.specs.Prelude.{◌≡◌, ◌≤◌, map, length, IfOk, IfErr, All};
ghost use Rattle.ci_base.specs.declared.bounds.TheConstants.{MOST_FILES};
ghost use Rattle.ci_tree.specs.Seen.{items_of};
ghost use Rattle.ci_tree.specs.Projects.{IsProject};
ghost use Rattle.ci_tree.specs.SeenBound.{heads_of, function_of, project_of};
ghost use Rattle.ci_names.specs.Binding.{binds};
ghost use Rattle.ci_scopes.specs.Listed.{variable_at};
ghost use Rattle.ci_scopes.specs.Short.{IsShortVariable};
ghost use Rattle.ci_binder.specs.Parts.{project_with};
ghost use Rattle.ci_binder.specs.Refusals.{IsRefusal};

use crate::functions::bound_functions;
use crate::shared::Shared;
use crate::variables::note_variables;
use ci_base::OutOfMemory;
use ci_names::{BindFault, Fault};
use ci_scopes::{ProjectNames, VariableAt};
use ci_tree::bound::{Function, ProjectParts};
use ci_tree::{FileTree, FileTrees, Project};
use sqlite_items::Items;
use std::alloc::Global;

/// The project that the files bind to, or their first fault. `Memory` may come for all files; every other answer comes exactly
/// where its clause says.
pub fn bind(alloc: Global, files: &FileTrees) -> Result<Project, BindFault>
    ensures ok { IfOk result (λ project. binds (map items_of files.now) (project_of project)) }
    ensures err { IfErr result (λ fault. IsRefusal (map items_of files.now) fault) }
{
    match bound(alloc, files.trees()) {
        Ok(answer) => answer,
        Err(OutOfMemory) => Err(BindFault::Memory),
    }
}

/// The project of these trees, or their first fault.
fn bound(alloc: Global, trees: &[FileTree]) -> Result<Result<Project, BindFault>, OutOfMemory>
    requires { length trees.now ≤ MOST_FILES }
    ensures ok { IfOk result (λ answer. IfOk answer (λ project. binds (map items_of trees.now) (project_of project))) }
    ensures err { IfOk result (λ answer. IfErr answer (λ fault. IsRefusal (map items_of trees.now) fault)) }
{
    let names = ProjectNames::of(alloc, trees)?;
    let mut found = None;
    let functions = bound_functions(alloc, &names, &mut found)?;
    note_variables(alloc, &names, &mut found);
    match found {
        Some(Fault { file, token, kind }) => Ok(Err(BindFault::Fault { file, token, kind })),
        None => Ok(Ok(made(alloc, functions, names.variables())?)),
    }
}

/// The project of these functions, and of the cells, arrays and GLOBAL scalars of these variables.
fn made(
    alloc: Global,
    functions: Items<Function>,
    variables: &[VariableAt],
) -> Result<Project, OutOfMemory>
    requires short { All IsShortVariable (map variable_at variables.now) }
    requires whole { IsProject (project_with (map (function_of (heads_of functions)) functions) (map variable_at variables.now)) }
    ensures { IfOk result (λ project. project_of project ≡ project_with (map (function_of (heads_of functions)) functions) (map variable_at variables.now)) }
{
    let Shared {
        cells,
        arrays,
        globals,
    } = Shared::of(alloc, variables)?;
    Ok(Project::of(ProjectParts {
        functions,
        cells,
        arrays,
        globals,
    }))
}
