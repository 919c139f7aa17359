//! What holds of every log that is migrated.
ghost use Rattle.std.specs.Prelude.{ℕ, List, ◌≡◌, ◌≤◌, reverse, None};
ghost use Rattle.std.specs.List.{AllByRecursion};
ghost use Rattle.co_base.specs.Limits.{most_coordinators, most_members};
ghost use Rattle.co_base.specs.declared.node.Node.TheVariants as node;
ghost use Rattle.co_record.specs.declared.record.Record.{Record};
ghost use Rattle.co_record.specs.Spelling.{IsWritable};
ghost use Rattle.co_plain.specs.CoordView.{first_refused_at_coord};
ghost use Rattle.co_plain.specs.DurableRecords.{durable_records};
ghost use Rattle.co_plain.specs.MemberView.{recovered_view, first_refused_at_member};
ghost use Rattle.co_plain.specs.Numbers.{IsAmong};
ghost use Rattle.co_plain.specs.SoundLogs.{AreSound, unended_in};
ghost use Rattle.co_law_node.specs.Writable.{IsWithinBounds};
ghost use Rattle.co_law_migrate.specs.Migrated.{migrated, MayGiveWay};

/// A migrated log of a member tells the same view, and one of a coordinator the same commits without end.
pub fn migrated_logs_tell_the_same()
    ensures view { (m : ℕ) (records : List Record) → recovered_view (migrated (node.Member m) records) ≡ recovered_view records }
    ensures unended { (c t : ℕ) (records : List Record) → unended_in (migrated (node.Coord c) records) t ≡ unended_in records t }
{}

/// Where each record of a log is allowed at its place, each record of the migrated one is. Where they are within their bounds, as those of
/// a log of version 1 are, so are those of the migrated one, which is of version 2: but for how many rows and numbers its checkpoint has, each of
/// them can be written.
pub fn migrated_logs_are_allowed()
    ensures member { (coords m : ℕ) (records : List Record) → first_refused_at_member coords (reverse records) ≡ None →
        first_refused_at_member coords (reverse (migrated (node.Member m) records)) ≡ None }
    ensures coord { (members c : ℕ) (records : List Record) → first_refused_at_coord members (reverse records) ≡ None →
        first_refused_at_coord members (reverse (migrated (node.Coord c) records)) ≡ None }
    ensures member_within { (coords m : ℕ) (records : List Record) → coords ≤ most_coordinators → IsAmong m most_members →
        first_refused_at_member coords (reverse records) ≡ None → AllByRecursion IsWithinBounds records → AllByRecursion IsWithinBounds (migrated (node.Member m) records) }
    ensures coord_within { (members c : ℕ) (records : List Record) → members ≤ most_members → IsAmong c most_coordinators →
        first_refused_at_coord members (reverse records) ≡ None → AllByRecursion IsWritable records → AllByRecursion IsWritable (migrated (node.Coord c) records) }
{}

/// Where logs are sound, and any of them give way to the migrated ones, they stay sound and leave the durable records of every member.
pub fn migrated_logs_stay_sound()
    ensures sound { (member_log coord_log new_member_log new_coord_log : ℕ → List Record) → MayGiveWay node.Member member_log new_member_log → MayGiveWay node.Coord coord_log new_coord_log →
        AreSound member_log coord_log → AreSound new_member_log new_coord_log }
    ensures durable { (member_log coord_log new_member_log new_coord_log : ℕ → List Record) → MayGiveWay node.Member member_log new_member_log → MayGiveWay node.Coord coord_log new_coord_log →
        AreSound member_log coord_log → (m : ℕ) → durable_records new_member_log new_coord_log m ≡ durable_records member_log coord_log m }
{}
