//! Lines as events.
ghost use Rattle.std.specs.Prelude.{◌≡◌, ◌<◌, ◌≤◌, ◌↔◌, length, Some, Err, IfOk, IfErr, IsOkAnd};
ghost use Rattle.co_base.specs.Limits.{most_coordinators, most_members};
ghost use Rattle.co_schedule.specs.Limits.{longest_line};
ghost use Rattle.co_schedule.specs.Words.{words_of};
ghost use Rattle.co_schedule.specs.Spelling.{event_words, line_text};
ghost use Rattle.co_schedule.specs.Faults.{fault_of_kind, fault_in};
ghost use Rattle.co_message.specs.declared.event.Event.{Event};
ghost use Rattle.co_schedule.specs.Places.{first_fault};
ghost use Rattle.co_schedule.specs.Grammar.{event_places};
ghost use Rattle.co_schedule.specs.View.{event_of, IsLent, IsEventFor};

use crate::counts::NodeCounts;
use crate::events::read_event;
use crate::fault::{LineFault, LineKind, Mistake};
use crate::view::LineView;
use crate::words::Words;
use crate::writing::LONGEST_LINE;
use co_base::Head;

fn fault_of(kind: LineKind) -> LineFault
    ensures { result ≡ fault_of_kind kind }
{
    match kind {
        LineKind::Word => LineFault::Word,
        LineKind::Number => LineFault::Number,
        LineKind::Name => LineFault::Name,
        LineKind::Extra => LineFault::Extra,
        LineKind::Head => LineFault::Head,
    }
}

fn event_in(line: &[u8], nodes: NodeCounts) -> Result<LineView<'_>, Mistake>
    ensures found { IfOk result (λ view. IsEventFor nodes.members nodes.coords (event_of view) × (words_of line.now ≡ event_words (event_of view))) }
    ensures lent { IfOk result IsLent }
    ensures fault { IfErr result (λ mistake. first_fault (event_places nodes.members nodes.coords) (words_of line.now) ≡ Some mistake) }
{
    let mut words = Words::of(line);
    read_event(&mut words, nodes)
}

fn read_for(line: &[u8], nodes: NodeCounts) -> Result<LineView<'_>, LineFault>
    requires { (nodes.members ≤ most_members) × (nodes.coords ≤ most_coordinators) }
    ensures found { IfOk result (λ view. IsEventFor nodes.members nodes.coords (event_of view) × (line.now ≡ line_text (event_of view))) }
    ensures only { (event : Event) → IsEventFor nodes.members nodes.coords event → line.now ≡ line_text event → length line.now ≤ longest_line → IsOkAnd result (λ view. event_of view ≡ event) }
    ensures lent { IfOk result IsLent }
    ensures long { (result ≡ Err LineFault.Long) ↔ (longest_line < length line.now) }
    ensures fault { length line.now ≤ longest_line → IfErr result (λ fault. fault_in (event_places nodes.members nodes.coords) line.now ≡ Some fault) }
{
    if line.len() > LONGEST_LINE {
        return Err(LineFault::Long);
    }
    match event_in(line, nodes) {
        Ok(view) => Ok(view),
        Err(mistake) => Err(fault_of(mistake.kind)),
    }
}

/// Reads a line, without its newline, as an event of a federation with this head. The view lends
/// keys, values and digits out of the line.
///
/// `Long` comes exactly where the line has more than 8,192 bytes. Otherwise the fault is the first
/// one from the left. No memory is taken.
pub fn read_line<'a>(line: &'a [u8], head: &Head) -> Result<LineView<'a>, LineFault>
    ensures found { IfOk result (λ view. IsEventFor (length head.now.kinds) head.now.coords (event_of view) × (line.now ≡ line_text (event_of view))) }
    ensures only { (event : Event) → IsEventFor (length head.now.kinds) head.now.coords event → line.now ≡ line_text event → length line.now ≤ longest_line → IsOkAnd result (λ view. event_of view ≡ event) }
    ensures lent { IfOk result IsLent }
    ensures long { (result ≡ Err LineFault.Long) ↔ (longest_line < length line.now) }
    ensures fault { length line.now ≤ longest_line → IfErr result (λ fault. fault_in (event_places (length head.now.kinds) head.now.coords) line.now ≡ Some fault) }
{
    read_for(line, NodeCounts::of(head))
}
