//! The trees of several files.
ghost use Rattle.std.specs.Prelude.{◌≡◌, ◌≤◌, ◌<◌, ◌++◌, [], ◌∷◌, length, OnOk, OnErr};
ghost use Rattle.ci_base.specs.declared.bounds.TheConstants.{MOST_FILES};

use crate::file_tree::FileTree;
use ci_base::OutOfMemory;
use std::alloc::Global;
use std::marker::Model;

/// The trees of at most 64 files, in their order. Contracts see the list of their items.
#[derive(Debug, Drop)]
pub struct FileTrees {
    kept: Vec<FileTree>,
}

impl Model for FileTrees {
    ghost use Rattle.std.specs.Prelude.{List, ◌≤◌, length};
    ghost use Rattle.ci_base.specs.declared.bounds.TheConstants.{MOST_FILES};
    ghost use Rattle.std.specs.Coded.{coded_list};
    ghost use Rattle.ci_tree.specs.declared.tree.Item.{Item};
    ghost use Rattle.ci_tree.specs.contracts.tree.Item.{the_row};

    ghost Value = { List (List Item) };

    ghost coded = { coded_list (coded_list the_row.coded) };

    ghost view = { λ trees. trees.kept.items };

    ghost invariant = { λ trees. length trees.kept.items ≤ MOST_FILES };
}

impl FileTrees {
    /// No tree. Takes no memory.
    pub fn empty(alloc: Global) -> FileTrees
        ensures { result ≡ [] }
    {
        FileTrees {
            kept: Vec::new(alloc),
        }
    }

    /// Adds the tree at the end, for which there is room. Where there is no memory for it, nothing changes.
    pub fn add(&mut self, tree: FileTree) -> Result<(), OutOfMemory>
        requires { length self.old < MOST_FILES }
        ensures ok { OnOk result (self.new ≡ self.old ++ tree ∷ []) }
        ensures err { OnErr result (self.new ≡ self.old) }
    {
        match self.kept.push(tree) {
            Ok(()) => Ok(()),
            Err(_) => Err(OutOfMemory),
        }
    }

    /// The trees, in order.
    pub fn trees(&self) -> &[FileTree]
        ensures value { result.now ≡ self.now }
        ensures within { length result.now ≤ MOST_FILES }
    {
        self.kept.as_slice()
    }
}
