//! Lists of member numbers.
ghost use Rattle.std.specs.Prelude.{◌≡◌, ◌∷◌, IfOk, map};
ghost use Rattle.co_plain.specs.CoordStep.{has_part, members_of};
ghost use Rattle.co_plain.specs.Numbers.{has_number, numbers_lacking, first_lacking};

use co_base::{Bytes, Part};
use std::alloc::{AllocError, Global};

/// Whether the number is among these.
pub fn has_number(numbers: &[u8], number: u8) -> bool
    ensures { result ≡ has_number numbers.now number }
{
    numbers.iter().any(|k| *k == number)
}

/// Whether the member takes part.
pub fn has_part(parts: &[Part], member: u8) -> bool
    ensures { result ≡ has_part parts.now member }
{
    parts.iter().any(|part| part.member == member)
}

/// The first of the numbers that is not among the given ones.
pub fn first_lacking(numbers: &[u8], given: &[u8]) -> Option<u8>
    ensures { result ≡ first_lacking numbers.now given.now }
{
    numbers.iter().copied().find(|n| !has_number(given, *n))
}

/// Those of the numbers that are not among the given ones.
pub fn numbers_lacking(alloc: Global, numbers: &[u8], given: &[u8]) -> Result<Vec<u8>, AllocError>
    ensures { IfOk result (λ lacking. lacking.items ≡ numbers_lacking numbers.now given.now) }
{
    numbers
        .iter()
        .copied()
        .filter(|n| !has_number(given, *n))
        .collect(alloc)
}

/// The members that take part.
pub fn members_of(alloc: Global, parts: &[Part]) -> Result<Vec<u8>, AllocError>
    ensures { IfOk result (λ members. members.items ≡ members_of parts.now) }
{
    parts.iter().map(|part| part.member).collect(alloc)
}

/// One more number before the others.
pub fn with_number(numbers: Bytes, number: u8) -> Result<Bytes, AllocError>
    ensures { IfOk result (λ more. more ≡ number ∷ numbers) }
{
    let mut items = numbers.into_vec();
    items.insert(0, number)?;
    Ok(Bytes::of(items))
}
