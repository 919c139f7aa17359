//! What every picture promises.
ghost use Rattle.std.specs.Prelude.{◌≡◌, ℕ, List, Option};
ghost use Rattle.co_message.specs.declared.item.Item.{Item};
ghost use Rattle.co_message.specs.declared.message.Message.{Message};
ghost use Rattle.co_picture.specs.Entry.{latest};
ghost use Rattle.co_picture.specs.Laws.{IsDrawnInOrder, IsWithinPage, IsLatest};
ghost use Rattle.co_picture.specs.Picture.{picture_of};

/// Each item has one text in the picture, in its own row and with its words, in the order of the items: behind the titles of the lanes and the
/// numbers of the lines there is nothing else.
pub fn each_item_is_drawn_once()
    ensures { (items : List Item) → IsDrawnInOrder items (picture_of items) }
{}

/// Each line of a picture ends, and each text begins, within its page.
pub fn pictures_lie_within_the_page()
    ensures { (items : List Item) → IsWithinPage (picture_of items) }
{}

/// The row from which the arrow of a message comes is that of its latest sending; where there is no row, it was not sent before.
pub fn arrows_come_from_the_latest_sending()
    ensures { (before : List Item) (message : Message) → IsLatest before message (latest before message) }
{}
