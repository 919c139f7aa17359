//! What every table promises.
ghost use Rattle.std.specs.Prelude.{List};
ghost use Rattle.co_message.specs.declared.item.Item.{Item};
ghost use Rattle.co_table.specs.Laws.{IsToldOnce, AreWellFormed};

/// Each item stands in the rows of the table once, in the order of the items, and in one cell of its row: that of its node, or that of the event where it has
/// no column. Only the answer `open` has no cell.
pub fn each_item_is_told_once()
    ensures { (items : List Item) → IsToldOnce items }
{}

/// A bar in the words of an item has a backslash before it, so no item ends its cell.
pub fn cells_are_well_formed()
    ensures { (items : List Item) → AreWellFormed items }
{}
