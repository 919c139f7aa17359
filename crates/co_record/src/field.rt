//! Fields that stand alone: numbers, letters, keys and values.
ghost use Rattle.std.specs.Prelude.{◌≡◌, length};
ghost use Rattle.std.specs.Int.{w16, w32};
ghost use Rattle.co_record.specs.Reading.{Gives, byte_at, number_at, byte_within, number_within, past_letter, steps, letters_at, key_at, value_at};

use crate::format::{MOST_KEY, most_value};
use crate::miss::Miss;

/// The byte at the front, and the bytes behind it.
pub fn read_byte(bytes: &[u8]) -> Result<(u8, &[u8]), Miss>
    ensures { Gives (λ x. (x.0, x.1.now)) result (byte_at bytes.now) }
{
    match bytes {
        [] => Err(Miss::Short),
        [byte, rest @ ..] => Ok((*byte, rest)),
    }
}

/// The two bytes at the front as a number.
pub fn read_u16(bytes: &[u8]) -> Result<(u16, &[u8]), Miss>
    ensures { Gives (λ x. (x.0, x.1.now)) result (number_at w16 bytes.now) }
{
    if bytes.len() < 2 {
        return Err(Miss::Short);
    }
    let (front, rest) = bytes.split_at(2);
    let number = u16::from_be_bytes([front[0], front[1]]);
    Ok((number, rest))
}

/// The four bytes at the front as a number.
pub fn read_u32(bytes: &[u8]) -> Result<(u32, &[u8]), Miss>
    ensures { Gives (λ x. (x.0, x.1.now)) result (number_at w32 bytes.now) }
{
    if bytes.len() < 4 {
        return Err(Miss::Short);
    }
    let (front, rest) = bytes.split_at(4);
    let number = u32::from_be_bytes([front[0], front[1], front[2], front[3]]);
    Ok((number, rest))
}

/// A byte from `low` to `most`.
pub fn read_byte_within(low: u8, most: u8, bytes: &[u8]) -> Result<(u8, &[u8]), Miss>
    ensures { Gives (λ x. (x.0, x.1.now)) result (byte_within low most bytes.now) }
{
    let (byte, rest) = read_byte(bytes)?;
    if byte < low || most < byte {
        return Err(Miss::Outside { left: bytes.len() });
    }
    Ok((byte, rest))
}

/// A number of two bytes from `low` to `most`.
pub fn read_u16_within(low: u16, most: u16, bytes: &[u8]) -> Result<(u16, &[u8]), Miss>
    ensures { Gives (λ x. (x.0, x.1.now)) result (number_within w16 low most bytes.now) }
{
    let (number, rest) = read_u16(bytes)?;
    if number < low || most < number {
        return Err(Miss::Outside { left: bytes.len() });
    }
    Ok((number, rest))
}

/// What stands behind a letter.
fn skip_letter(bytes: &[u8]) -> Result<&[u8], Miss>
    ensures { Gives (λ rest. rest.now) result (past_letter bytes.now) }
{
    Ok(read_byte_within(0x21, 0x7e, bytes)?.1)
}

/// What stands behind so many letters.
fn skip_letters(count: usize, bytes: &[u8]) -> Result<&[u8], Miss>
    ensures { Gives (λ rest. rest.now) result (steps past_letter count bytes.now) }
{
    let mut rest = bytes;
    for _ in 0..count {
        rest = skip_letter(rest)?;
    }
    Ok(rest)
}

/// So many letters, and what stands behind them.
fn read_letters(count: usize, bytes: &[u8]) -> Result<(&[u8], &[u8]), Miss>
    ensures { Gives (λ x. (x.0.now, x.1.now)) result (letters_at count bytes.now) }
{
    let rest = skip_letters(count, bytes)?;
    Ok((&bytes[..count], rest))
}

/// A key.
#[tactic(auto, unfolding(crate::specs::Reading::key_at))]
pub fn read_key(bytes: &[u8]) -> Result<(&[u8], &[u8]), Miss>
    ensures { Gives (λ x. (x.0.now, x.1.now)) result (key_at bytes.now) }
{
    let (count, rest) = read_byte_within(1, MOST_KEY, bytes)?;
    read_letters(count as usize, rest)
}

/// A value of a version.
#[tactic(auto, unfolding(crate::specs::Reading::value_at))]
pub fn read_value(version: u8, bytes: &[u8]) -> Result<(&[u8], &[u8]), Miss>
    ensures { Gives (λ x. (x.0.now, x.1.now)) result (value_at version bytes.now) }
{
    let (count, rest) = read_u16_within(1, most_value(version), bytes)?;
    read_letters(count as usize, rest)
}
