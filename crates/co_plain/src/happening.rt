//! What may happen in a federation.
use co_base::Txn;
use co_message::Event;

/// One step of a run.
#[derive(Drop)]
pub enum Happening {
    /// The event of a schedule line.
    Line(Event),
    /// A member in doubt is told the verdict by another one.
    Hand { txn: Txn, member: u8, commit: bool },
    /// Every armed stop is taken away.
    Disarm,
}
