//! Laws over the definitions.
ghost use Rattle.ci_tree.specs.Laws.{FilesAreWritten};

/// Each name in the tree of a file is a name of at most 64 bytes and no keyword, each text has at most 255 bytes, and each
/// format has 1 to 255 hashes.
pub fn files_are_written()
    ensures { FilesAreWritten }
{}
