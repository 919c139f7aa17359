//! The store.
ghost use Rattle.std.specs.Prelude.{◌≡◌, filter, IfOk, OnOk, option_copied};
ghost use Rattle.std.specs.FinMap as map;
ghost use Rattle.std.specs.FinMap.{entries, get};
ghost use Rattle.co_base.specs.Span.{span_has};
ghost use Rattle.co_serial.specs.Records.{all_rows, rows_within};
ghost use Rattle.co_store.specs.Images.{or_nothing, with_image, value_in, restored_all, settled_all, slots_from};
ghost use Rattle.co_store.specs.StoreState.{StoreState, state_of_rows, with_put, with_undone, with_kept, noted, all_noted, laid_back, all_laid_back, clean_records, IsFree};
ghost use Rattle.co_store.specs.Shown.{Shows};
ghost use Rattle.co_state.specs.Table.{look, put, without};

use crate::slots::{Slot, Slots};
use co_base::{Key, Range, Row, Rows, Txn, Value};
use co_state::{RowList, Table};
use std::alloc::{AllocError, Global};

/// Records in place, and for each unfinished transaction what the keys that it wrote held before.
///
/// `Shows` says for which plain states a store stands, and each clause holds for every such state. After want
/// of memory a store is only dropped.
#[derive(Drop)]
pub struct Store {
    alloc: Global,
    slots: Slots,
    undos: Table<Slots>,
}

/// Lays back what keys held.
fn lay_back(slots: &mut Slots, images: Slots)
    ensures { slots.new ≡ restored_all slots.old (entries images) }
{
    let mut images = images;
    while let Some((key, before)) = images.take_first() {
        slots.restore(&key, before.value);
    }
}

/// Takes those of the keys away that have no value.
fn settle_all(slots: &mut Slots, images: &Slots)
    ensures { slots.new ≡ settled_all slots.old (entries images.now) }
{
    for (key, _) in images.iter() {
        slots.settle(key);
    }
}

/// What a key holds, as it is kept by a transaction that writes there for the first time.
fn keep_image(images: &mut Slots, slots: &Slots, key: &Key) -> Result<(), AllocError>
    ensures { OnOk result (images.new ≡ with_image images.old key.now (value_in (get slots.now key.now))) }
{
    if images.contains(key) {
        return Ok(());
    }
    let before = match slots.value(key) {
        Some(value) => Some(value.copy()?),
        None => None,
    };
    images.lay(key.copy()?, before)
}

/// Takes what a transaction keeps out of the table; nothing where it keeps nothing.
fn take_images(alloc: Global, undos: &mut Table<Slots>, t: Txn) -> Slots
    ensures value { result ≡ or_nothing (look undos.old t) }
    ensures rest { undos.new ≡ without undos.old t }
{
    match undos.remove(t) {
        Some(images) => images,
        None => Slots::new(alloc),
    }
}

/// A slot for each row. Of two rows of one key the first counts.
fn slots_of(alloc: Global, mut rows: Vec<Row>) -> Result<Slots, AllocError>
    ensures { IfOk result (λ slots. slots ≡ slots_from rows.items) }
{
    let mut slots = Slots::new(alloc);
    while let Some(row) = rows.pop() {
        slots.lay(row.key, Some(row.value))?;
    }
    Ok(slots)
}

/// An equal value, if there is one.
fn copy_value(value: &Option<Value>) -> Result<Option<Value>, AllocError>
    ensures { IfOk result (λ copy. copy ≡ value.now) }
{
    match value {
        Some(value) => Ok(Some(value.copy()?)),
        None => Ok(None),
    }
}

/// Notes the record of a slot, if it has a value.
fn note(records: &mut RowList, key: &Key, slot: &Slot) -> Result<(), AllocError>
    ensures { OnOk result (records.new ≡ noted records.old key.now slot.now.value) }
{
    match &slot.value {
        Some(value) => records.set(key.copy()?, value.copy()?),
        None => Ok(()),
    }
}

/// The records of slots.
fn all_records(alloc: Global, slots: &Slots) -> Result<RowList, AllocError>
    ensures { IfOk result (λ records. records ≡ all_noted map.empty (entries slots.now)) }
{
    let mut records = RowList::new(alloc);
    for (key, slot) in slots.iter() {
        note(&mut records, key, slot)?;
    }
    Ok(records)
}

/// The records of those slots that stand in a range.
fn records_within(alloc: Global, slots: &Slots, range: &Range) -> Result<RowList, AllocError>
    ensures { IfOk result (λ records. records ≡ all_noted map.empty (filter (λ e. span_has range.now e.0) (entries slots.now))) }
{
    let mut records = RowList::new(alloc);
    for (key, slot) in slots.within(range) {
        note(&mut records, key, slot)?;
    }
    Ok(records)
}

/// Lays images back over records.
fn lay(records: &mut RowList, images: &Slots) -> Result<(), AllocError>
    ensures { OnOk result (records.new ≡ laid_back records.old (entries images.now)) }
{
    for (key, slot) in images.iter() {
        records.change(key.copy()?, copy_value(&slot.value)?)?;
    }
    Ok(())
}

/// Lays the images of all transactions back over records.
fn lay_all(records: &mut RowList, undos: &Table<Slots>) -> Result<(), AllocError>
    ensures { OnOk result (records.new ≡ all_laid_back records.old (entries undos.now)) }
{
    for (_, images) in undos.iter() {
        lay(records, images)?;
    }
    Ok(())
}

impl Store {
    /// A store of these records, with no transaction.
    pub fn of_rows(alloc: Global, rows: Rows) -> Result<Store, AllocError>
        ensures { IfOk result (λ store. Shows store (state_of_rows rows)) }
    {
        Ok(Store {
            alloc,
            slots: slots_of(alloc, rows.into_vec())?,
            undos: Table::new(alloc),
        })
    }

    /// The value of a record, or none where there is no such record. Takes no memory.
    pub fn get(&self, key: &Key) -> Option<&Value>
        ensures { (s : StoreState) → Shows self.now s → option_copied result ≡ get s.now key.now }
    {
        self.slots.value(key)
    }

    /// Writes a record in place, or takes it away where there is no value. No other transaction keeps what the
    /// key held.
    pub fn put(&mut self, t: Txn, key: Key, value: Option<Value>) -> Result<(), AllocError>
        ensures { (s : StoreState) → Shows self.old s → IsFree s t key → OnOk result (Shows self.new (with_put s t key value)) }
    {
        let mut images = take_images(self.alloc, &mut self.undos, t);
        keep_image(&mut images, &self.slots, &key)?;
        self.undos.insert(t, images)?;
        self.slots.lay(key, value)
    }

    /// Lays back what a transaction wrote. Takes no memory.
    pub fn undo(&mut self, t: Txn)
        ensures { (s : StoreState) → Shows self.old s → Shows self.new (with_undone s t) }
    {
        let images = take_images(self.alloc, &mut self.undos, t);
        lay_back(&mut self.slots, images);
    }

    /// Keeps what a transaction wrote and forgets what was there before. Takes no memory.
    pub fn keep(&mut self, t: Txn)
        ensures { (s : StoreState) → Shows self.old s → Shows self.new (with_kept s t) }
    {
        let images = take_images(self.alloc, &mut self.undos, t);
        settle_all(&mut self.slots, &images);
    }

    /// The records of a range, in the order of the keys.
    pub fn range(&self, range: &Range) -> Result<Rows, AllocError>
        ensures { (s : StoreState) → Shows self.now s → IfOk result (λ rows. rows ≡ rows_within s.now range.now) }
    {
        let records = records_within(self.alloc, &self.slots, range)?;
        Ok(records.into_rows())
    }

    /// The records as they are.
    fn records(&self) -> Result<RowList, AllocError>
        ensures { (s : StoreState) → Shows self.now s → IfOk result (λ records. records ≡ s.now) }
    {
        all_records(self.alloc, &self.slots)
    }

    /// The records with everything laid back that unfinished transactions wrote.
    pub fn clean(&self) -> Result<Rows, AllocError>
        ensures { (s : StoreState) → Shows self.now s → IfOk result (λ rows. rows ≡ all_rows (clean_records s)) }
    {
        let mut records = self.records()?;
        lay_all(&mut records, &self.undos)?;
        Ok(records.into_rows())
    }
}
