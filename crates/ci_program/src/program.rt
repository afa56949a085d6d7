//! A bound project with its code.
ghost use Rattle.std.specs.Prelude.{◌≡◌};
ghost use Rattle.ci_translation.specs.Translation.{translation};
ghost use Rattle.ci_program.specs.Programs.{IsProgram};
ghost use Rattle.ci_tree.specs.SeenBound.{project_of};

use ci_code::RawCode;
use ci_rules::laws::translation_keeps_rules;
use ci_translation::laws::translation_simulates;
use ci_tree::Project;
use ci_verify::Verified;
use std::marker::Model;

/// A bound project with its code, which is its translation, breaks no rule, and does what the project says: a task on it makes the
/// requests that the task on the tree makes, after the same ticks. Contracts see the parts of the project.
#[derive(Debug, Drop)]
pub struct Program {
    project: Project,
    code: Verified,
}

impl Model for Program {
    ghost use Rattle.ci_program.specs.Programs.{IsProgram};
    ghost use Rattle.ci_tree.specs.SeenBound.{project_of};
    ghost use Rattle.ci_tree.specs.contracts.bound.ProjectParts.{the_row};
    ghost use Rattle.ci_tree.specs.declared.bound.ProjectParts.{ProjectParts};

    ghost Value = { ProjectParts };

    ghost coded = { the_row.coded };

    ghost view = { λ program. program.project };

    ghost invariant = { λ program. IsProgram (project_of program.project) program.code };
}

impl Program {
    /// The program of a project, of which this is the translation. Takes no memory. The code isn't verified anew, since a translation
    /// is known to break no rule.
    pub fn of(project: Project, code: RawCode) -> Program
        requires { code ≡ translation (project_of project) }
        ensures { result ≡ project }
    {
        let _parts = project.parts();
        translation_simulates();
        translation_keeps_rules();
        let code = Verified::of(code);
        Program { project, code }
    }

    /// Its project.
    pub fn project(&self) -> &Project
        ensures { result.now ≡ self.now }
    {
        &self.project
    }

    /// Its code.
    pub fn code(&self) -> &Verified
        ensures { IsProgram (project_of self.now) result.now }
    {
        &self.code
    }
}
