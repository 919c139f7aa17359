//! A piece laid into bytes.
ghost use Rattle.std.specs.Prelude.{◌≡◌, ◌+◌, ◌≤◌, length, vec_len, OnOk, OnErr, IsOk};
ghost use Rattle.co_outside.specs.Overlay.{overlaid};

use std::alloc::AllocError;

/// Lays the piece into the bytes at a place, which is at most their length. It takes memory only
/// where the bytes grow; want of memory leaves them as they were. It costs the piece alone.
pub fn lay(bytes: &mut Vec<u8>, at: usize, piece: &[u8]) -> Result<(), AllocError>
    requires { at ≤ vec_len bytes.old }
    ensures laid { OnOk result (bytes.new.items ≡ overlaid bytes.old.items at piece.now) }
    ensures stays { OnErr result (bytes.new.items ≡ bytes.old.items) }
    ensures memory { at + length piece.now ≤ vec_len bytes.old → IsOk result }
{
    let inside = piece.len().min(bytes.len() - at);
    if inside < piece.len() {
        bytes.extend_from_slice(&piece[inside..])?;
    }
    bytes[at..at + inside].copy_from_slice(&piece[..inside]);
    Ok(())
}
