//! What holds of the logs of nodes.
ghost use Rattle.std.specs.Prelude.{◌≡◌, ◌⊎◌, ℕ, Bool, [], None, Option};
ghost use Rattle.co_base.specs.Nodes.{IsValidNode};
ghost use Rattle.co_base.specs.declared.node.Node.{Node};
ghost use Rattle.co_disk.specs.DiskView.{DiskView};
ghost use Rattle.co_outside.specs.Home.{HomeView, File};
ghost use Rattle.co_outside.specs.declared.spot.Spot.{Spot};
ghost use Rattle.co_record.specs.Format.{newest};
ghost use Rattle.co_frame.specs.Gate.{begins_closed};
ghost use Rattle.co_log.specs.Attaching.{IsAttached};
ghost use Rattle.co_log.specs.Fresh.{IsFresh, IsMade};
ghost use Rattle.co_log.specs.LogView.{LogView, IsHeld};
ghost use Rattle.co_log.specs.NodeFiles.{Items, newest_first, HasRecordsIn};
ghost use Rattle.co_plain.specs.Opening.{fresh, opened_log};
ghost use Rattle.co_plain.specs.declared.log_state.LogState.{LogState};
ghost use Rattle.co_node.specs.Answers.{AreTold, AreWithin};
ghost use Rattle.co_node.specs.NodeLog.{RepresentsLog};

/// A log of version 2 that was attached is fresh, or stands for the plain log that is opened over the records that were found; and a fresh one stands, once it
/// was made, for the plain log that is opened over none.
pub fn opened_logs_stand()
    ensures attached { (owner : Node) (a b : DiskView) (log : LogView) → IsValidNode owner → a.state.pending ≡ [] → b.state.pending ≡ [] → IsAttached owner a b log → log.version ≡ newest →
        IsFresh log ⊎ ((items : Items) × RepresentsLog owner log (opened_log owner (record { records = newest_first items; spare_closed = begins_closed log.spare.state.stable }))) }
    ensures made { (owner : Node) (a b : DiskView) (log after : LogView) → IsValidNode owner → IsAttached owner a b log → IsFresh log → IsMade log after →
        RepresentsLog owner after (opened_log owner (record { records = []; spare_closed = begins_closed log.spare.state.stable })) }
{}

/// The files of a node have exactly the stable records of the plain log that its log stands for, where the directory tells both.
pub fn standing_logs_are_told()
    ensures { (owner : Node) (home : HomeView) (log : LogView) (l : LogState) → RepresentsLog owner log l → IsHeld home log → AreWithin home.file owner →
        AreTold home.file owner → (items : Items) × HasRecordsIn home.file owner items × (newest_first items ≡ l.stable) }
{}
