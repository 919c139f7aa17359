//! Records that are forced.
ghost use Rattle.std.specs.Prelude.{◌≡◌, ◌++◌, ◌∷◌, [], List, reverse};
ghost use Rattle.co_base.specs.declared.node.Node.{Node};
ghost use Rattle.co_record.specs.Spelling.{IsWritable};
ghost use Rattle.co_record.specs.declared.record.Record.{Record};
ghost use Rattle.co_log.specs.Appending.{IsTooLong};
ghost use Rattle.co_log.specs.Batches.{IsBatchOf};
ghost use Rattle.co_log.specs.LogView.{IsForcible, IsHeld};
ghost use Rattle.co_log.specs.Others.{OtherNodesStay};
ghost use Rattle.co_plain.specs.LogWrite.{with_batch};
ghost use Rattle.co_plain.specs.declared.log_state.LogState.{LogState};
ghost use Rattle.co_node.specs.Answers.{IsAnswered};
ghost use Rattle.co_node.specs.Batches.{AreSpelledOut};
ghost use Rattle.co_node.specs.NodeLog.{RepresentsLog};
ghost use Rattle.co_node.specs.Writes.{forcing, HasWritten};

use crate::written::{Written, stopped};
use co_log::{Log, LogFault, NodeFault, SpelledBatch};
use co_outside::Home;
use co_record::{LentPrepare, Record};

/// Forces one record, and the waiting ones in front of it, in one log write.
///
/// It is done, or stopped in the armed device call; then the log stands for what that leaves of the plain log. `Full` comes where the
/// file would have more than 268,435,456 bytes, and changes nothing; `Device` where the directory failed, and only there; `Memory` leaves
/// the old records.
pub fn force<H: Home>(log: &mut Log, home: &mut H, item: Record) -> Result<Written, NodeFault>
    requires held { IsHeld (H.seen home.old) log.old }
    requires stands { (owner : Node) × (l : LogState) × RepresentsLog owner log.old l }
    requires item { IsWritable item × IsForcible item }
    ensures written { (owner : Node) (l : LogState) → RepresentsLog owner log.old l → HasWritten (forcing owner l (item ∷ [])) owner l log.new result }
    ensures answered { (owner : Node) (l : LogState) → RepresentsLog owner log.old l →
        IsAnswered owner log.old.current.spot (IsTooLong log.old.gate (log.old.waiting ++ item ∷ [])) l.stable (with_batch l (item ∷ [])).stable log.new
        (H.seen home.old) (H.seen home.new) result }
    ensures rest { OtherNodesStay log.old.node (H.seen home.old) (H.seen home.new) }
{
    match log.force(home, item) {
        Ok(marks) => Ok(Written::Done { marks }),
        Err(fault) => stopped(fault),
    }
}

/// As `force`, of a prepare record whose sets are lent.
pub fn force_prepare<H: Home>(
    log: &mut Log,
    home: &mut H,
    item: LentPrepare<'_>,
) -> Result<Written, NodeFault>
    requires held { IsHeld (H.seen home.old) log.old }
    requires stands { (owner : Node) × (l : LogState) × RepresentsLog owner log.old l }
    requires item { IsWritable item }
    ensures written { (owner : Node) (l : LogState) → RepresentsLog owner log.old l → HasWritten (forcing owner l (item.entry ∷ [])) owner l log.new result }
    ensures answered { (owner : Node) (l : LogState) → RepresentsLog owner log.old l →
        IsAnswered owner log.old.current.spot (IsTooLong log.old.gate (log.old.waiting ++ item.entry ∷ [])) l.stable (with_batch l (item.entry ∷ [])).stable log.new
        (H.seen home.old) (H.seen home.new) result }
    ensures rest { OtherNodesStay log.old.node (H.seen home.old) (H.seen home.new) }
{
    match log.force_prepare(home, item) {
        Ok(marks) => Ok(Written::Done { marks }),
        Err(fault) => stopped(fault),
    }
}

/// Spells out the waiting records, then a prepare record whose sets are lent, and then this one, for one log write of all of them. Nothing
/// changes, and nothing of the sets is kept but what is spelled.
///
/// `Full` comes where the file would have more than 268,435,456 bytes, and `Memory` where there was none.
pub fn spell_both(
    log: &Log,
    prepare: LentPrepare<'_>,
    item: Record,
) -> Result<SpelledBatch, NodeFault>
    requires prepare { IsWritable prepare }
    requires item { IsWritable item × IsForcible item }
    ensures { AreSpelledOut log.now (prepare.entry ∷ item ∷ []) result }
{
    match log.spell_both(prepare, item) {
        Ok(batch) => Ok(batch),
        Err(LogFault::Full { spot }) => Err(NodeFault::Full { spot }),
        Err(LogFault::Memory) => Err(NodeFault::Memory),
        Err(
            LogFault::Device { .. }
            | LogFault::Stopped { .. }
            | LogFault::Bad { .. }
            | LogFault::Differs { .. }
            | LogFault::InUse { .. },
        ) => unreachable!(),
    }
}

/// Forces the records that were spelled out for the log as it stands, in one log write.
///
/// It is done, or stopped in the armed device call, as in `force`. `Device` comes where the directory failed, and only there; `Memory` leaves
/// the old records; no other fault comes.
pub fn force_batch<H: Home>(
    log: &mut Log,
    home: &mut H,
    batch: SpelledBatch,
) -> Result<Written, NodeFault>
    requires held { IsHeld (H.seen home.old) log.old }
    requires stands { (owner : Node) × (l : LogState) × RepresentsLog owner log.old l }
    requires batch { (more : List Record) × IsBatchOf log.old more batch }
    ensures written { (owner : Node) (l : LogState) (more : List Record) → RepresentsLog owner log.old l → IsBatchOf log.old more batch → HasWritten (forcing owner l (reverse more)) owner l log.new result }
    ensures answered { (owner : Node) (l : LogState) (more : List Record) → RepresentsLog owner log.old l → IsBatchOf log.old more batch →
        IsAnswered owner log.old.current.spot (IsTooLong log.old.gate (log.old.waiting ++ more)) l.stable (with_batch l (reverse more)).stable log.new
        (H.seen home.old) (H.seen home.new) result }
    ensures rest { OtherNodesStay log.old.node (H.seen home.old) (H.seen home.new) }
{
    match log.force_batch(home, batch) {
        Ok(marks) => Ok(Written::Done { marks }),
        Err(fault) => stopped(fault),
    }
}
