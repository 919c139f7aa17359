//! What may be said of every item of a run.
ghost use Rattle.std.specs.Prelude.{ℕ, List, [], ◌≡◌, ◌+◌, ◌*◌, ◌≤◌, length};
ghost use Rattle.std.specs.List.{AllByRecursion};
ghost use Rattle.co_base.specs.declared.head.Head.{Head};
ghost use Rattle.co_message.specs.declared.event.Event.{Event};
ghost use Rattle.co_message.specs.declared.item.Item.{Item};
ghost use Rattle.co_record.specs.Spelling.{IsSpelled};
ghost use Rattle.co_plain.specs.Opening.{Found};
ghost use Rattle.co_replay.specs.Schedule.{HasLine};
ghost use Rattle.co_replay.specs.Transcript.{run_items};
ghost use Rattle.co_transcript.specs.Items.{IsItem};
ghost use Rattle.co_transcript.specs.Spelling.{item_text};
ghost use Rattle.co_law_items.specs.Scans.{IsItemOfFewRows, HasShortScan, keys_written, most_numbered};

/// Each item of a run over logs without records has a line in a transcript: every number, key and value that it tells is in its
/// set, whatever is lost, repeated, delayed or stopped. The events are such as have a line in a schedule, and so few that their numbers
/// stand in 32 bits.
pub fn items_have_lines()
    ensures { (head : Head) (found_member found_coord : ℕ → Found) (events : List Event) →
        ((m : ℕ) → (found_member m).records ≡ []) →
        ((c : ℕ) → (found_coord c).records ≡ []) →
        AllByRecursion (HasLine head) events → length events ≤ most_numbered →
        AllByRecursion IsItem (run_items head found_member found_coord events) }
{}

/// So has each item of a run over any logs whose records are of their format, but for the reply to a scan that has more records than a
/// count of 32 bits tells.
pub fn opened_items_have_lines()
    ensures { (head : Head) (found_member found_coord : ℕ → Found) (events : List Event) →
        ((m : ℕ) → AllByRecursion IsSpelled (found_member m).records) →
        ((c : ℕ) → AllByRecursion IsSpelled (found_coord c).records) →
        AllByRecursion (HasLine head) events → length events ≤ most_numbered →
        AllByRecursion IsItemOfFewRows (run_items head found_member found_coord events) }
{}

/// A run over such logs has at most 19 items for each event, and 26 more: the head, a header for each node and the first answer. Of an event
/// at a coordinator there are itself, its answer, at most 16 messages, and one record, which a later event may tell of; at a member, at most one message
/// and two records.
pub fn items_are_few()
    ensures { (head : Head) (found_member found_coord : ℕ → Found) (events : List Event) →
        ((m : ℕ) → AllByRecursion IsSpelled (found_member m).records) →
        ((c : ℕ) → AllByRecursion IsSpelled (found_coord c).records) →
        AllByRecursion (HasLine head) events →
        length (run_items head found_member found_coord events) ≤ 26 + 19 * length events }
{}

/// No item but the reply to a scan has a line of more than 8,209 bytes.
pub fn scans_alone_are_long()
    ensures { (most : ℕ) (item : Item) → 8209 ≤ most → IsItem item → HasShortScan most item → length (item_text item) ≤ most }
{}

/// And over logs without records the reply to a scan has a line of at most 4,130 bytes for each event that writes or erases, and 32 more.
pub fn scans_are_as_long_as_what_was_written()
    ensures { (head : Head) (found_member found_coord : ℕ → Found) (events : List Event) →
        ((m : ℕ) → (found_member m).records ≡ []) →
        ((c : ℕ) → (found_coord c).records ≡ []) →
        AllByRecursion (HasLine head) events → length events ≤ most_numbered →
        AllByRecursion (HasShortScan (32 + 4130 * length (keys_written events))) (run_items head found_member found_coord events) }
{}
