//! The tree of a file.
ghost use Rattle.std.specs.Prelude.{◌≡◌};
ghost use Rattle.ci_tree.specs.Files.{IsFileTree};
ghost use Rattle.ci_tree.specs.Seen.{items_of};

use crate::tree::Item;
use sqlite_items::Items;
use std::marker::Model;

/// The items of a file, as the grammar derives them from some tokens: so at most 32 levels are open at once, a name has at most
/// 64 bytes and a text at most 255. It has at most 262,144 nodes. Contracts see the list of the items.
#[derive(Debug, Drop)]
pub struct FileTree {
    kept: Items<Item>,
}

impl Model for FileTree {
    ghost use Rattle.std.specs.Prelude.{List};
    ghost use Rattle.std.specs.Coded.{coded_list};
    ghost use Rattle.ci_tree.specs.declared.tree.Item.{Item};
    ghost use Rattle.ci_tree.specs.contracts.tree.Item.{the_row};
    ghost use Rattle.ci_tree.specs.Files.{IsFileTree};
    ghost use Rattle.ci_tree.specs.Seen.{items_of};

    ghost Value = { List Item };

    ghost coded = { coded_list the_row.coded };

    ghost view = { λ tree. tree.kept };

    ghost invariant = { λ tree. IsFileTree (items_of tree.kept) };
}

impl FileTree {
    /// The tree of these items. Takes no memory.
    pub fn of(items: Items<Item>) -> FileTree
        requires { IsFileTree (items_of items) }
        ensures { result ≡ items }
    {
        FileTree { kept: items }
    }

    /// The items, in order.
    pub fn items(&self) -> &[Item]
        ensures value { result.now ≡ self.now }
        ensures kept { IsFileTree (items_of result.now) }
    {
        self.kept.as_slice()
    }
}
