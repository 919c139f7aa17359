//! What every item promises.
ghost use Rattle.std.specs.Prelude.{◌≡◌};
ghost use Rattle.co_message.specs.declared.item.Item.{Item};
ghost use Rattle.co_transcript.specs.Spelling.{item_text};
ghost use Rattle.co_transcript.specs.Items.{IsItem};

/// Each item has a text of its own: no two have the same one.
pub fn one_text()
    ensures { (this that : Item) → IsItem this → IsItem that → item_text this ≡ item_text that → this ≡ that }
{}
