//! Books to test with.
ghost use Rattle.std.specs.Prelude.{◌≡◌, IfOk, slice_set};

use std::alloc::{AllocError, Global};

/// The worked book: rows 3 4; 3 4; 0 1; 0 1; 2.
#[cfg(test)]
pub const P: [u8; 29] =
    *b"\x00\x05\x00\x09\x00\x08\x00\x14\x00\x00\x00\x02\x00\x04\x00\x06\x00\x08\x00\x09\x03\x04\x03\x04\x00\x01\x00\x01\x02";

/// The bytes with another byte at one place, if there is such a place.
pub fn changed(alloc: Global, bytes: &[u8], at: usize, byte: u8) -> Result<Vec<u8>, AllocError>
    ensures { IfOk result (λ v. v.items ≡ slice_set bytes.now at byte) }
{
    let mut changed = bytes.to_vec(alloc)?;
    if let Some(place) = changed.get_mut(at) {
        *place = byte;
    }
    Ok(changed)
}

/// A book of 256 boats, in which each wishes for the 64 that follow it.
#[cfg(test)]
pub fn complete(alloc: Global) -> Result<Vec<u8>, AllocError> {
    let mut book = [1, 0, 64, 0, 0, 8, 2, 10].to_vec(alloc)?;
    for u in 0..=256u16 {
        book.extend_from_slice(&(u * 64).to_be_bytes())?;
    }
    for u in 0..=255u8 {
        for i in 1..=64 {
            book.push(u.wrapping_add(i))?;
        }
    }
    Ok(book)
}
