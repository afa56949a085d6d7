//! Bound projects that keep what holds of all of them.
ghost use Rattle.std.specs.Prelude.{◌≡◌};
ghost use Rattle.ci_tree.specs.Projects.{IsProject};
ghost use Rattle.ci_tree.specs.SeenBound.{project_of};

use crate::bound::ProjectParts;
use std::marker::Model;

/// A bound project whose numbers name what there is, whose kinds and numbers of arguments are right, and which keeps the
/// limits: at most 1,000 functions of at most 16 parameters and 64 locals, 100,000 cells, 32 levels open at once, a room of
/// 4,096, and 16,777,216 nodes. Its names are names of the language, its texts have at most 255 bytes, its arrays share no
/// cells, and neither do its GLOBAL scalars. Contracts see its parts.
#[derive(Debug, Drop)]
pub struct Project {
    kept: ProjectParts,
}

impl Model for Project {
    ghost use Rattle.ci_tree.specs.declared.bound.ProjectParts.{ProjectParts};
    ghost use Rattle.ci_tree.specs.contracts.bound.ProjectParts.{the_row};
    ghost use Rattle.ci_tree.specs.Projects.{IsProject};
    ghost use Rattle.ci_tree.specs.SeenBound.{project_of};

    ghost Value = { ProjectParts };

    ghost coded = { the_row.coded };

    ghost view = { λ project. project.kept };

    ghost invariant = { λ project. IsProject (project_of project.kept) };
}

impl Project {
    /// The project of these parts. Takes no memory.
    pub fn of(parts: ProjectParts) -> Project
        requires { IsProject (project_of parts) }
        ensures { result ≡ parts }
    {
        Project { kept: parts }
    }

    /// Its functions, cells, arrays and GLOBAL scalars.
    pub fn parts(&self) -> &ProjectParts
        ensures value { result.now ≡ self.now }
        ensures kept { IsProject (project_of result.now) }
    {
        &self.kept
    }
}
