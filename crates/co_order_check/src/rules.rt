//! What follows from reads, and from what is known.
ghost use Rattle.std.specs.Prelude.{◌≡◌, ◌<◌, IfSome, Some, true, List, [], length, slice_get};
ghost use Rattle.co_check.specs.declared.client.Committed.{Committed};
ghost use Rattle.co_order_check.specs.Facts.{Follows, IsKnownBehind};
ghost use Rattle.co_order_check.specs.Ranks.{Leaves};

use crate::fact::Fact;
use crate::path::Path;
use crate::reads::leaves;
use crate::record_id::RecordId;
use co_check::Committed;

/// A step of a refutation.
#[derive(Drop)]
pub enum Step {
    /// Who left a version stands before the last reader of a path from it.
    Along(Path),
    /// A transaction that changes the record, and is not on the path, stands behind the last reader; for it stands behind the beginning.
    Behind {
        /// The path.
        path: Path,
        /// The place of the transaction.
        place: usize,
        /// Which of the known facts says that it stands behind the beginning; any number where that is the start.
        known: usize,
    },
    /// Who left the first version of one path stands before who left that of another; for its end stands before the other's.
    Apart {
        /// The one path.
        one: Path,
        /// The other.
        other: Path,
        /// Which of the known facts says so of their ends.
        known: usize,
    },
    /// What stands before something stands before what is behind that.
    Through {
        /// Which of the known facts is the first.
        first: usize,
        /// Which is the second.
        second: usize,
    },
    /// The one stands before the other, or the other before the one: two cases.
    Either(Fact),
    /// A transaction stands before itself, so the case cannot be.
    Shut {
        /// Which of the known facts says so.
        known: usize,
    },
}

/// The fact of this number, where it is known.
pub(crate) fn fact_at(known: &[Fact], number: usize) -> Option<Fact>
    ensures { result ≡ slice_get known.now number }
{
    known.get(number).copied()
}

/// Whether the fact of this number says that the one stands before the other.
fn is_known(known: &[Fact], number: usize, before: usize, behind: usize) -> bool
    ensures { result ≡ true → slice_get known.now number ≡ Some (record { before = before; behind = behind }) }
{
    match fact_at(known, number) {
        Some(fact) => fact.before == before && fact.behind == behind,
        None => false,
    }
}

/// Whether the fact of this number says that the one stands behind the other; all stand behind the start.
fn is_known_behind(known: &[Fact], number: usize, before: Option<usize>, behind: usize) -> bool
    ensures { result ≡ true → IsKnownBehind known.now before behind }
{
    match before {
        Some(before) => is_known(known, number, before, behind),
        None => true,
    }
}

/// Whether a transaction changes the record.
fn changes(history: &[Committed], place: usize, id: &RecordId) -> bool
    ensures { result ≡ true → (place < length history.now) × Leaves history.now place id.now }
{
    place < history.len() && leaves(id, history[place].told.oldest_first())
}

/// What `Along` concludes.
fn along(history: &[Committed], path: &Path) -> Option<Fact>
    ensures { IfSome result (λ f. Follows history.now [] f) }
{
    let before = path.from?;
    let behind = path.end()?;
    if before == behind || !path.holds(history) {
        return None;
    }
    Some(Fact { before, behind })
}

/// What `Behind` concludes.
fn behind(
    history: &[Committed],
    known: &[Fact],
    path: &Path,
    place: usize,
    number: usize,
) -> Option<Fact>
    ensures { IfSome result (λ f. Follows history.now known.now f) }
{
    let before = path.end()?;
    if !is_known_behind(known, number, path.from, place)
        || !path.lacks(place)
        || !changes(history, place, &path.record)
        || !path.holds(history)
    {
        return None;
    }
    Some(Fact {
        before,
        behind: place,
    })
}

/// What `Apart` concludes.
fn apart(
    history: &[Committed],
    known: &[Fact],
    one: &Path,
    other: &Path,
    number: usize,
) -> Option<Fact>
    ensures { IfSome result (λ f. Follows history.now known.now f) }
{
    let before = one.from?;
    let behind = other.from?;
    let first = one.end()?;
    let second = other.end()?;
    if before == behind
        || behind >= history.len()
        || !is_known(known, number, first, second)
        || !one.record.is_same(&other.record)
        || !other.lacks(before)
        || !changes(history, before, &other.record)
        || !one.holds(history)
        || !other.holds(history)
    {
        return None;
    }
    Some(Fact { before, behind })
}

/// What `Through` concludes.
fn through(known: &[Fact], first: usize, second: usize) -> Option<Fact>
    ensures { (history : List Committed) → IfSome result (λ f. Follows history known.now f) }
{
    let Fact {
        before,
        behind: middle,
    } = fact_at(known, first)?;
    let Fact {
        before: other,
        behind,
    } = fact_at(known, second)?;
    if middle != other {
        return None;
    }
    Some(Fact { before, behind })
}

/// What a step concludes from what is known. A step that opens or shuts a case concludes nothing.
pub(crate) fn conclusion(history: &[Committed], known: &[Fact], step: &Step) -> Option<Fact>
    ensures { IfSome result (λ f. Follows history.now known.now f) }
{
    match step {
        Step::Along(path) => along(history, path),
        Step::Behind {
            path,
            place,
            known: number,
        } => behind(history, known, path, *place, *number),
        Step::Apart {
            one,
            other,
            known: number,
        } => apart(history, known, one, other, *number),
        Step::Through { first, second } => through(known, *first, *second),
        Step::Either(_) | Step::Shut { .. } => None,
    }
}
