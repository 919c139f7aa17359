//! What the items of a trial come to, item by item: the digest of their text.
ghost use Rattle.std.specs.Prelude.{◌≡◌, ◌++◌, ◌∷◌, [], List, ℕ, string_bytes, IfOk, OnOk};
ghost use Rattle.hex.specs.Hex.{encode_lower};
ghost use Rattle.sha2.specs.Hashers.{Holds256};
ghost use Rattle.sha2.specs.Sha256.{sha256};
ghost use Rattle.co_message.specs.declared.item.ItemKind.TheVariants as item;
ghost use Rattle.co_plain.specs.Runs.{numbered};
ghost use Rattle.co_replay.specs.Transcript.{items_text};

use co_base::Head;
use co_message::{Event, Item, ItemKind};
use co_transcript::put_item;
use sha2::{Digest, Sha256};
use std::alloc::{AllocError, Global};

/// The digest of the items that were told so far.
#[derive(Drop)]
pub(crate) struct Told {
    pub(crate) hasher: Sha256,
    /// The line of one item.
    line: Vec<u8>,
}

impl Told {
    /// Nothing was told. Takes no memory.
    pub(crate) fn new(alloc: Global) -> Told
        ensures { Holds256 result.hasher [] }
    {
        Told {
            hasher: Sha256::new(),
            line: Vec::new(alloc),
        }
    }

    /// Tells one more item.
    fn tell(&mut self, item: &Item) -> Result<(), AllocError>
        ensures { (text : List ℕ) → Holds256 self.old.hasher text → OnOk result (Holds256 self.new.hasher (text ++ items_text (item.now ∷ []))) }
    {
        self.line.clear();
        put_item(item, &mut self.line)?;
        self.hasher.update(self.line.as_slice());
        Ok(())
    }

    /// Tells more items.
    pub(crate) fn tell_all(&mut self, items: &[Item]) -> Result<(), AllocError>
        ensures { (text : List ℕ) → Holds256 self.old.hasher text → OnOk result (Holds256 self.new.hasher (text ++ items_text items.now)) }
    {
        for item in items {
            self.tell(item)?;
        }
        Ok(())
    }

    /// Tells the event of the line of this number.
    pub(crate) fn tell_event(&mut self, number: u32, event: Event) -> Result<(), AllocError>
        ensures { (text : List ℕ) → Holds256 self.old.hasher text → OnOk result (Holds256 self.new.hasher (text ++ items_text (numbered number (item.Event event ∷ [])))) }
    {
        let told = Item {
            number,
            what: ItemKind::Event(event),
        };
        self.tell(&told)
    }

    /// Tells the head.
    fn tell_head(&mut self, head: Head) -> Result<(), AllocError>
        ensures { (text : List ℕ) → Holds256 self.old.hasher text → OnOk result (Holds256 self.new.hasher (text ++ items_text (numbered 1 (item.Head head ∷ [])))) }
    {
        let told = Item {
            number: 1,
            what: ItemKind::Head(head),
        };
        self.tell(&told)
    }

    /// Tells the head, and what opening told behind it.
    pub(crate) fn tell_opening(&mut self, head: Head, items: &[Item]) -> Result<(), AllocError>
        ensures { (text : List ℕ) → Holds256 self.old.hasher text → OnOk result (Holds256 self.new.hasher ((text ++ items_text (numbered 1 (item.Head head ∷ []))) ++ items_text items.now)) }
    {
        self.tell_head(head)?;
        self.tell_all(items)
    }

    /// The digest, in hexadecimal digits.
    pub(crate) fn digest(self, alloc: Global) -> Result<String, AllocError>
        ensures { (text : List ℕ) → Holds256 self.hasher text → IfOk result (λ digits. string_bytes digits ≡ encode_lower (sha256 text)) }
    {
        let Told { hasher, line: _ } = self;
        let digest = hasher.finalize();
        hex::encode(alloc, digest.as_slice())
    }
}
