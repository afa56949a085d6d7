//! What every project keeps to.
ghost use Rattle.ci_tree.specs.SeenBound.{project_of};
ghost use Rattle.ci_meaning.specs.Within.{ProjectWithin};

use ci_tree::Project;

/// Each text of a project is one that a STRING holds, and each cell one that a request names.
pub fn texts_and_cells_fit(project: &Project)
    ensures { ProjectWithin (project_of project.now) }
{
    let _ = project.parts();
}
