//! Members are whole.
ghost use Rattle.std.specs.Prelude.{ℕ, List, ◌≡◌, ◌≤◌, reverse, None};
ghost use Rattle.std.specs.List.{AllByRecursion};
ghost use Rattle.co_base.specs.declared.head.Kind.{Kind};
ghost use Rattle.co_base.specs.Limits.{most_coordinators, most_members};
ghost use Rattle.co_plain.specs.declared.member_state.MemberState.{MemberState};
ghost use Rattle.co_plain.specs.MemberView.{first_refused_at_member};
ghost use Rattle.co_plain.specs.Opening.{Found, opened_member};
ghost use Rattle.co_law_node.specs.WholeMembers.{IsWholeMember, MemberStaysWhole};
ghost use Rattle.co_plain.specs.Numbers.{IsAmong};
ghost use Rattle.co_law_node.specs.Writable.{IsWithinBounds, IsWritableMember, MemberStaysWritable};

/// Each event of a whole member leaves it whole, however its log write ends, and a crash at any moment too: votes do not
/// conflict, active transactions are neither voted nor committed and have 1 to 1,024 operations, the log tells what
/// memory has, and every record is allowed where it stands.
pub fn members_stay_whole()
    ensures { (coords m : ℕ) (x : MemberState) → IsWholeMember coords x → MemberStaysWhole coords m x }
{}

/// A member that is opened over a log which its grammar allows, sound or not, is whole.
pub fn opened_members_are_whole()
    ensures { (coords : ℕ) (kinds : List Kind) (m : ℕ) (found : Found) →
        first_refused_at_member coords (reverse found.records) ≡ None → IsWholeMember coords (opened_member kinds m found) }
{}

/// What a whole member writes can be written, and stays so with each event: its records are within their bounds and in
/// order, and so is the record of each vote that the rule grants, whatever its count was asked to be; the two records of
/// a local commit; and a filled spare, where its lists are as short as a count of 32 bits tells. Whatever they count, the undos of its
/// checkpoint are in order, and the votes that it tells again can be written.
pub fn members_stay_writable()
    ensures { (coords m : ℕ) (x : MemberState) → coords ≤ most_coordinators → IsAmong m most_members →
        IsWholeMember coords x → IsWritableMember coords m x → MemberStaysWritable coords m x }
{}

/// So is a member that is opened over an allowed log whose records are within their bounds.
pub fn opened_members_are_writable()
    ensures { (coords : ℕ) (kinds : List Kind) (m : ℕ) (found : Found) → coords ≤ most_coordinators → IsAmong m most_members →
        first_refused_at_member coords (reverse found.records) ≡ None → AllByRecursion IsWithinBounds found.records →
        IsWritableMember coords m (opened_member kinds m found) }
{}
