//! What a log write tells.
ghost use Rattle.std.specs.Prelude.{◌≡◌, ◌++◌, ◌∷◌, [], IfOk, OnOk, if◌then◌else◌};
ghost use Rattle.co_log.specs.Marks.{marks_of};
ghost use Rattle.co_record.specs.Marks.{mark_of};

use co_base::{Mark, Marks, Node};
use co_record::{LentPrepare, Record, mark_of};
use std::alloc::{AllocError, Global};

/// Adds what a transcript tells of records.
fn put_marks(node: Node, items: &[Record], told: &mut Marks) -> Result<(), AllocError>
    ensures { OnOk result (told.new ≡ told.old ++ marks_of node items.now) }
{
    for item in items {
        told.push(mark_of(node, item))?;
    }
    Ok(())
}

/// Adds what a transcript tells of prepare records whose sets are lent.
fn put_lent_marks(node: Node, items: &[LentPrepare<'_>], told: &mut Marks) -> Result<(), AllocError>
    ensures { OnOk result (told.new ≡ told.old ++ marks_of node items.now) }
{
    for item in items {
        told.push(item.mark(node))?;
    }
    Ok(())
}

/// What a transcript tells of these records, then of the lent ones, and then of those.
pub(crate) fn marks(
    alloc: Global,
    node: Node,
    front: &[Record],
    lent: &[LentPrepare<'_>],
    back: &[Record],
) -> Result<Marks, AllocError>
    ensures { IfOk result (λ m. m ≡ marks_of node (front.now ++ (lent.now ++ back.now))) }
{
    let mut told = Marks::new(alloc);
    put_marks(node, front, &mut told)?;
    put_lent_marks(node, lent, &mut told)?;
    put_marks(node, back, &mut told)?;
    Ok(told)
}

/// One mark alone.
pub(crate) fn one_mark(alloc: Global, mark: Mark) -> Result<Marks, AllocError>
    ensures { IfOk result (λ m. m ≡ mark ∷ []) }
{
    let mut told = Marks::new(alloc);
    told.push(mark)?;
    Ok(told)
}

/// The marks of a stopped log write: those of its records where the batch counts, and else none.
pub(crate) fn marks_if(alloc: Global, stable: bool, told: Marks) -> Marks
    ensures { result ≡ (if stable then told else []) }
{
    if stable { told } else { Marks::new(alloc) }
}
