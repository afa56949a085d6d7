//! What joins the code and the tree.
ghost use Rattle.ci_runtime.specs.Laws.{CodeLeadsTree};

/// In every run, what the code does for a task that can make a step, the task does on the tree.
pub fn code_leads_tree()
    ensures { CodeLeadsTree }
{}
