//! Laws of the tree of a text that begins with the text of the lock.

ghost use Rattle.fk_locks_tree.specs.Items.{LockItemsFirst};

/// The tree of tokens that begin with those of the lock begins with the items of the lock.
pub fn lock_items_first()
    ensures { LockItemsFirst }
{}
