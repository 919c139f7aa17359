//! The letters of keys and values.
ghost use Rattle.std.specs.Prelude.{◌≡◌, ◌↔◌, ◌≤◌, length, All, IsOk, IsTrue, IsErrOf};
ghost use Rattle.co_base.specs.Letters.{IsLetter, IsText, HasLength};

use crate::fault::BaseFault;

/// Whether the byte is a letter.
pub fn is_letter(byte: u8) -> bool
    ensures { IsTrue result ↔ IsLetter byte }
{
    (0x21..=0x7e).contains(&byte)
}

/// Tells whether the bytes are 1 to `most` letters. The count is tested before the letters.
pub fn test_text(bytes: &[u8], most: usize) -> Result<(), BaseFault>
    ensures ok { IsOk result ↔ IsText most bytes.now }
    ensures length { IsErrOf result BaseFault.Length ↔ ¬ (HasLength most bytes.now) }
    ensures letter { IsErrOf result BaseFault.Letter ↔ (HasLength most bytes.now × ¬ (All IsLetter bytes.now)) }
{
    if bytes.is_empty() || bytes.len() > most {
        return Err(BaseFault::Length);
    }
    if bytes.iter().all(|byte| is_letter(*byte)) {
        Ok(())
    } else {
        Err(BaseFault::Letter)
    }
}
