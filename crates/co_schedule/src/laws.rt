//! What every line promises.
ghost use Rattle.std.specs.Prelude.{◌≡◌, ◌≤◌, ℕ};
ghost use Rattle.co_base.specs.declared.head.Head.{Head};
ghost use Rattle.co_base.specs.Limits.{most_coordinators, most_members};
ghost use Rattle.co_message.specs.declared.event.Event.{Event};
ghost use Rattle.co_schedule.specs.Spelling.{line_text, head_text};
ghost use Rattle.co_schedule.specs.View.{IsEventFor};

/// Each event of a federation has a line of its own, and each head too: no two have the same one.
pub fn one_line()
    ensures events { (members coords : ℕ) (this that : Event) → members ≤ most_members → coords ≤ most_coordinators → IsEventFor members coords this → IsEventFor members coords that → line_text this ≡ line_text that → this ≡ that }
    ensures heads { (this that : Head) → head_text this ≡ head_text that → this ≡ that }
{}
