//! What sources come to.

use ci_tree::{FileTrees, Project};

/// The project that several sources bind to, and their trees.
#[derive(Debug, Drop)]
pub struct Compiled {
    // Dropped first: freeing its long list of functions makes the C library's allocator go over all small pieces that were freed
    // before.
    pub project: Project,
    pub trees: FileTrees,
}
