//! What an event tells: what became stable, what was sent, and the answer.
ghost use Rattle.std.specs.Prelude.{◌≡◌, ◌++◌, ◌∷◌, [], map, IfOk, OnOk};
ghost use Rattle.co_message.specs.declared.item.ItemKind.TheVariants as item;
ghost use Rattle.co_plain.specs.Federation.{items_of};
ghost use Rattle.co_plain.specs.Runs.{numbered};

use co_base::Mark;
use co_message::{Answer, Item, ItemKind, Items, Message};
use std::alloc::{AllocError, Global};

/// Adds what became stable.
fn tell_marks(items: &mut Items, number: u32, marks: &[Mark]) -> Result<(), AllocError>
    ensures { OnOk result (items.new ≡ items.old ++ numbered number (map item.Log marks.now)) }
{
    for mark in marks {
        items.push(Item {
            number,
            what: ItemKind::Log(*mark),
        })?;
    }
    Ok(())
}

/// Adds what was sent.
fn tell_sent(items: &mut Items, number: u32, messages: &[Message]) -> Result<(), AllocError>
    ensures { OnOk result (items.new ≡ items.old ++ numbered number (map item.Sent messages.now)) }
{
    for message in messages {
        items.push(Item {
            number,
            what: ItemKind::Sent(*message),
        })?;
    }
    Ok(())
}

/// What became stable, what was sent, and the answer, in this order.
pub(crate) fn items_of(
    alloc: Global,
    number: u32,
    marks: &[Mark],
    messages: &[Message],
    answer: Answer,
) -> Result<Items, AllocError>
    ensures { IfOk result (λ items. items ≡ numbered number (items_of marks.now messages.now answer)) }
{
    let mut items = Items::new(alloc);
    tell_marks(&mut items, number, marks)?;
    tell_sent(&mut items, number, messages)?;
    items.push(Item {
        number,
        what: ItemKind::Answered(answer),
    })?;
    Ok(items)
}
