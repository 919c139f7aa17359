//! The text of items.
ghost use Rattle.std.specs.Prelude.{◌≡◌, ◌++◌, ◌∷◌, [], IfOk, OnOk, OnErr};
ghost use Rattle.co_base.specs.Lent.{Begins};
ghost use Rattle.co_message.specs.declared.event.Event.{Event};
ghost use Rattle.co_message.specs.declared.item.ItemKind.TheVariants as item;
ghost use Rattle.co_plain.specs.Runs.{numbered};
ghost use Rattle.co_replay.specs.Transcript.{items_text};

use co_message::{Event, Item, ItemKind};
use co_transcript::put_item;
use std::alloc::AllocError;

/// Appends the text of items. After want of memory the list begins with what it held.
pub fn put_items(items: &[Item], into: &mut Vec<u8>) -> Result<(), AllocError>
    ensures ok { OnOk result (into.new.items ≡ into.old.items ++ items_text items.now) }
    ensures err { OnErr result (Begins into.old.items into.new.items) }
{
    for item in items {
        put_item(item, into)?;
    }
    Ok(())
}

/// The event of an item that tells one.
fn event_in(told: Item) -> Event
    requires { (event : Event) × (told.what ≡ item.Event event) }
    ensures { told.what ≡ item.Event result }
{
    let Item { number: _, what } = told;
    match what {
        ItemKind::Event(event) => event,
        _ => unreachable!(),
    }
}

/// Appends the text of the event of the line of this number, and gives the event back. After want of memory nothing is appended.
pub fn put_event(number: u32, event: Event, into: &mut Vec<u8>) -> Result<Event, AllocError>
    ensures text { OnOk result (into.new.items ≡ into.old.items ++ items_text (numbered number (item.Event event ∷ []))) }
    ensures event { IfOk result (λ same. same ≡ event) }
    ensures err { OnErr result (into.new.items ≡ into.old.items) }
{
    let told = Item {
        number,
        what: ItemKind::Event(event),
    };
    put_item(&told, into)?;
    Ok(event_in(told))
}
