//! Changes of a file's bytes in place.
ghost use Rattle.std.specs.Prelude.{◌≡◌, ◌+◌, ◌-◌, ◌++◌, min, take, drop, ◌<◌, ◌^◌, length, IsTrue, ◌↔◌, is_ok, if◌then◌else◌, OnOk, OnErr};
ghost use Rattle.std.specs.List.{All};
ghost use Rattle.raft_log_fs.specs.Disk.{grown, overwritten};

use std::alloc::AllocError;

// Extends the bytes with zeros to a size. If memory runs out, nothing changes.
pub(crate) fn grow_to(bytes: &mut Vec<u8>, size: usize) -> Result<(), AllocError>
    ensures { bytes.new.items ≡ (if is_ok result then grown size bytes.old.items else bytes.old.items) }
{
    if bytes.len() < size {
        bytes.resize(size, 0)
    } else {
        Ok(())
    }
}

// Overwrites bytes from `at` on, with zeros in a gap. If memory runs out, nothing changes.
pub(crate) fn overwrite(bytes: &mut Vec<u8>, at: usize, over: &[u8]) -> Result<(), AllocError>
    requires { at + length over.now < 2 ^ 64 }
    ensures ok { OnOk result (bytes.new.items ≡ overwritten at over.now bytes.old.items) }
    ensures err { OnErr result (bytes.new.items ≡ bytes.old.items) }
{
    if over.is_empty() {
        return Ok(());
    }
    if at == bytes.len() {
        return bytes.extend_from_slice(over);
    }
    let end = at + over.len();
    grow_to(bytes, end)?;
    bytes[at..end].copy_from_slice(over);
    Ok(())
}

// If this returns true, there are bytes, and all of them are zeros.
pub(crate) fn are_zeros(bytes: &[u8]) -> bool
    ensures some { IsTrue result → 0 < length bytes.now }
    ensures zeros { IsTrue result → All (λ byte. byte ≡ 0) bytes.now }
{
    let (chunks, rest) = bytes.as_chunks::<16>();
    !bytes.is_empty() && are_zero_chunks(chunks) && rest.iter().all(|byte| *byte == 0)
}

// If this returns true, all bytes of these chunks are zeros: compares each chunk as one number.
fn are_zero_chunks(chunks: &[[u8; 16]]) -> bool
    ensures { IsTrue result → All (All (λ byte. byte ≡ 0)) chunks.now }
{
    chunks.iter().all(|chunk| u128::from_le_bytes(*chunk) == 0)
}

// Copies the bytes from `offset` on until the room is full or they end. Returns how many.
pub(crate) fn copy_out(content: &[u8], offset: usize, room: &mut [u8]) -> usize
    ensures number { result ≡ min (length room.old) (length content.now - offset) }
    ensures bytes { room.new ≡ take result (drop offset content.now) ++ drop result room.old }
{
    if content.len() <= offset {
        return 0;
    }
    let count = room.len().min(content.len() - offset);
    room[..count].copy_from_slice(&content[offset..offset + count]);
    count
}
