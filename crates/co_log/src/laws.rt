//! What holds of every log write.
ghost use Rattle.std.specs.Prelude.{ℕ, List, Option, Some, None, Bool, ◌≡◌, ◌≢◌, ◌<◌, ◌≤◌, true, false, [], ◌∷◌, ◌++◌, ◌⊎◌, Result, length, if◌then◌else◌};
ghost use Rattle.co_outside.specs.Home.{HomeView, File};
ghost use Rattle.co_outside.specs.declared.spot.Spot.{Spot};
ghost use Rattle.std.specs.List.{AllByRecursion};
ghost use Rattle.co_base.specs.declared.leaves.Leaves.{Leaves};
ghost use Rattle.co_disk.specs.DiskModel.{IsImage, IsChosen, stable_disk, after_write};
ghost use Rattle.co_frame.specs.LogText.{IsBatch, IsLogText, closed_gate};
ghost use Rattle.co_record.specs.declared.record.Record.{Record};
ghost use Rattle.co_record.specs.Format.{IsVersion, newest};
ghost use Rattle.co_record.specs.Spelling.{IsSpelled};
ghost use Rattle.co_record.specs.Stored.{HasRecords};
ghost use Rattle.co_base.specs.declared.node.Node.{Node};
ghost use Rattle.co_disk.specs.DiskView.{DiskView};
ghost use Rattle.co_log.specs.Attaching.{built, IsAttached, IsBadPair};
ghost use Rattle.co_base.specs.Nodes.{IsValidNode};
ghost use Rattle.co_base.specs.declared.mark.Mark.{Mark};
ghost use Rattle.co_log.specs.declared.fault.LogFault.{LogFault};
ghost use Rattle.co_log.specs.Current.{BeginsWith, IsCurrentOf, IsOrdered};
ghost use Rattle.co_log.specs.Forcing.{IsForced, IsDone, IsOfForce, counts};
ghost use Rattle.co_log.specs.Fresh.{IsFresh, IsMade, IsOfDevice, header_alone};
ghost use Rattle.co_log.specs.NodeFaults.{IsOfNode};
ghost use Rattle.co_log.specs.Spare.{IsClosing, IsFilling, IsOfClosing, filling, filled_items};
ghost use Rattle.co_log.specs.LogView.{LogView, IsLive, IsHeld, HasSpots, spot_of};
ghost use Rattle.co_log.specs.Others.{OtherFilesStay};
ghost use Rattle.co_log.specs.BatchWrite.{closed_batch, batch_pending, gate_pending, disk_at, disk_after};
ghost use Rattle.co_frame.specs.Gate.{batch_is_stable, begins_closed};
ghost use Rattle.co_log.specs.LogFile.{spelled, records_of, next_items, EndsIn, EndsAt, EndsAfter, OldOrBoth};
ghost use Rattle.co_log.specs.Scanning.{IsLogFile, IsBadAt};

/// A file of either version that begins with a header and ends at a gate that is not open has the records in front of
/// it; and it has no batch where that gate is its first byte.
pub fn gates_end_files()
    ensures records { (version : ℕ) (node : Node) (generation : ℕ) (bytes : List ℕ) (gate : ℕ) (items : List (ℕ × Record)) → IsVersion version → BeginsWith node generation items →
        EndsIn version bytes gate items → HasRecords bytes items }
    ensures front { (bytes : List ℕ) (items : List (ℕ × Record)) → EndsAt bytes 0 items → IsLogText bytes [] }
{}

/// While the first gate of a file of at most one byte is closed, every image has at most one byte.
///
/// At each device call of a log write, which is of version 2, every image of the disk has the old records, or with them the new
/// ones, and before the third call the old ones alone; a chosen image has the new ones exactly where it is
/// that of a call from the third on and has the gate open; and after the last call the file has them.
pub fn images_are_old_or_new()
    ensures closing { (bytes image : List ℕ) → length bytes ≤ 1 → IsImage (after_write (stable_disk bytes) 0 (closed_gate ∷ [])) image → length image ≤ 1 }
    ensures early { (bytes image batch : List ℕ) (gate : ℕ) (items : List (ℕ × Record)) → EndsAt bytes gate items →
        IsImage (batch_pending bytes gate batch) image → EndsAt image gate items }
    ensures late { (bytes image : List ℕ) (gate : ℕ) (items : List (ℕ × Record)) (more : List Record) → EndsAt bytes gate items →
        AllByRecursion IsSpelled more → IsBatch (spelled more) → IsImage (gate_pending bytes gate (closed_batch more)) image → OldOrBoth image gate items more }
    ensures chosen { (call : ℕ) (bytes image : List ℕ) (gate : ℕ) (items : List (ℕ × Record)) (more : List Record) (leaves : Leaves) → EndsAt bytes gate items →
        AllByRecursion IsSpelled more → IsBatch (spelled more) → IsChosen (disk_at call bytes gate (closed_batch more)) leaves image →
        EndsAfter (batch_is_stable call leaves) image gate items more }
    ensures after { (bytes : List ℕ) (gate : ℕ) (items : List (ℕ × Record)) (more : List Record) → EndsAt bytes gate items →
        AllByRecursion IsSpelled more → IsBatch (spelled more) → EndsAfter true (disk_after bytes gate (closed_batch more)).stable gate items more }
{}

/// An attached log is fresh, or it stands for the records of its current file.
pub fn attached_logs_stand()
    ensures { (node : Node) (a b : DiskView) (log : LogView) → a.state.pending ≡ [] → b.state.pending ≡ [] → IsAttached node a b log →
        IsFresh log ⊎ ((items : List (ℕ × Record)) × IsLive log items) }
{}

/// The two files of a log stay in order: the current one begins with a header of its generation, and the
/// spare has no batch or a smaller generation. A log that is attached or made has its files so, and after
/// each call that did its work or was stopped they are so again, with exactly these records. An attached log
/// has nothing waiting, and no stop is armed.
pub fn files_stay_in_order()
    ensures attached { (node : Node) (a b : DiskView) (log : LogView) → IsValidNode node → a.state.pending ≡ [] → b.state.pending ≡ [] → IsAttached node a b log →
        (IsFresh log × IsValidNode log.node) ⊎ ((items : List (ℕ × Record)) × IsOrdered log items) }
    ensures made { (log after : LogView) → IsFresh log → IsValidNode log.node → IsMade log after → IsOrdered after (header_alone log.node) }
    ensures forced { (log after : LogView) (items : List (ℕ × Record)) (more : List Record) (result : Result (List Mark) LogFault) → IsOrdered log items →
        IsForced log items more after result → IsDone result → IsOrdered after (next_items (counts result) log.gate items more) }
    ensures closed { (log after : LogView) (items : List (ℕ × Record)) (result : Result (Unit {0}) LogFault) → IsOrdered log items →
        IsClosing log after result → IsDone result → IsOrdered after items }
    ensures filled { (log after : LogView) (items : List (ℕ × Record)) (more : List Record) (result : Result Mark LogFault) → IsOrdered log items →
        IsFilling log more after result → IsDone result → IsOrdered after (filled_items (counts result) log items more) }
    ensures unarmed { (node : Node) (a b : DiskView) (log : LogView) → IsAttached node a b log → (log.node ≡ node) × (log.waiting ≡ []) × (log.stop ≡ None) }
{}

/// A log write leaves the version of the current file, as the closing of a spare does, and a filling that counts makes it
/// version 2.
pub fn versions_stay()
    ensures forced { (log after : LogView) (items : List (ℕ × Record)) (more : List Record) (result : Result (List Mark) LogFault) →
        IsForced log items more after result → IsDone result → after.version ≡ log.version }
    ensures closed { (log after : LogView) (result : Result (Unit {0}) LogFault) → IsClosing log after result → IsDone result → after.version ≡ log.version }
    ensures filled { (log after : LogView) (more : List Record) (result : Result Mark LogFault) → IsFilling log more after result → IsDone result →
        after.version ≡ (if counts result then newest else log.version) }
{}

/// The records after a log write, oldest first: where it counts, those before it and the new ones, or after a
/// filling a header and the new ones; and else those before it.
pub fn records_are_added()
    ensures forced { (stable : Bool) (gate : ℕ) (items : List (ℕ × Record)) (more : List Record) →
        records_of (next_items stable gate items more) ≡ (if stable then records_of items ++ more else records_of items) }
    ensures filled { (stable : Bool) (log : LogView) (items : List (ℕ × Record)) (more : List Record) →
        records_of (filled_items stable log items more) ≡ (if stable then filling log more else records_of items) }
{}

/// The told files of a log that is in order are current as the log has them, and the current one begins with an
/// open gate.
pub fn held_files_are_current()
    ensures current { (home : HomeView) (log : LogView) (items : List (ℕ × Record)) (c s : File) → IsHeld home log → IsOrdered log items →
        home.file log.current.spot ≡ Some c → home.file log.spare.spot ≡ Some s → IsCurrentOf log.node log.version log.generation c.bytes s.bytes items }
    ensures opens { (log : LogView) (items : List (ℕ × Record)) → IsLive log items → begins_closed log.current.state.stable ≡ false }
{}

/// A call on one log leaves the log of every other node held: the files of a log are two, and those of its node, and
/// no file is of two nodes.
pub fn logs_leave_each_other()
    ensures two { (log : LogView) → HasSpots log → log.current.spot ≢ log.spare.spot }
    ensures own { (log : LogView) (s : Spot) → HasSpots log → s ≢ spot_of log.node 0 → s ≢ spot_of log.node 1 → (s ≢ log.current.spot) × (s ≢ log.spare.spot) }
    ensures held { (node : Node) (old new : HomeView) (log : LogView) → IsValidNode node → IsValidNode log.node → log.node ≢ node →
        OtherFilesStay node old new → IsHeld old log → IsHeld new log }
{}

/// A start over two files of which one is current attaches that one as the current file, with its version, its
/// generation and its records.
pub fn starts_find_the_current_file()
    ensures part_a { (node : Node) (a b : DiskView) (log : LogView) (version generation : ℕ) (items : List (ℕ × Record)) (current : IsCurrentOf node version generation a.state.stable b.state.stable items) →
        IsAttached node a b log → log ≡ built node version a b current.gate generation }
    ensures part_b { (node : Node) (a b : DiskView) (log : LogView) (version generation : ℕ) (items : List (ℕ × Record)) (current : IsCurrentOf node version generation b.state.stable a.state.stable items) →
        IsAttached node a b log → log ≡ built node version b a current.gate generation }
{}

/// A file is a log of its node, with one gate and one generation, or bad at one place, and not both.
pub fn files_are_judged_once()
    ensures log { (node : Node) (bytes : List ℕ) (this that : ℕ) (g h : Option ℕ) → IsLogFile node bytes this g → IsLogFile node bytes that h → (this ≡ that) × (g ≡ h) }
    ensures place { (node : Node) (bytes : List ℕ) (this that : ℕ) → IsBadAt node bytes this → IsBadAt node bytes that → this ≡ that }
    ensures either { (node : Node) (bytes : List ℕ) (gate at : ℕ) (g : Option ℕ) → IsLogFile node bytes gate g → IsBadAt node bytes at → ⊥ }
{}

/// Over the two files of a node a log is attached, or one of them is bad at one place, and not both. At most one of the two is
/// current, with one version and one list of records; a file without a batch is not.
pub fn nodes_are_judged_once()
    ensures pair { (node : Node) (a b : DiskView) (this that : LogFault) → IsBadPair node a b this → IsBadPair node a b that → this ≡ that }
    ensures attached { (node : Node) (a b : DiskView) (log : LogView) (fault : LogFault) → IsAttached node a b log → IsBadPair node a b fault → ⊥ }
    ensures records { (node : Node) (v w g h : ℕ) (a b : List ℕ) (items more : List (ℕ × Record)) → IsCurrentOf node v g a b items → IsCurrentOf node w h a b more → (v ≡ w) × (items ≡ more) }
    ensures current { (node : Node) (v w g h : ℕ) (a b : List ℕ) (items more : List (ℕ × Record)) → IsCurrentOf node v g a b items → IsCurrentOf node w h b a more → ⊥ }
    ensures none { (node : Node) (v g : ℕ) (a b : List ℕ) (items : List (ℕ × Record)) → IsLogText a [] → IsCurrentOf node v g a b items → ⊥ }
{}

/// The faults of a log write, of closing and of making are those that a call of a node splits.
pub fn faults_are_split()
    ensures written { (spot : Spot) (fault : LogFault) → IsOfForce spot fault → IsOfNode fault }
    ensures closed { (spot : Spot) (fault : LogFault) → IsOfClosing spot fault → IsOfNode fault }
    ensures made { (spot : Spot) (fault : LogFault) → IsOfDevice spot fault → IsOfNode fault }
{}
