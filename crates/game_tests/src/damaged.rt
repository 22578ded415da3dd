//! Texts with one line changed.

use std::alloc::{AllocError, Global};

/// The file with another line in that place, counted from 1.
pub fn with_line(
    alloc: Global,
    file: &str,
    number: u64,
    text: &str,
) -> Result<Vec<u8>, AllocError> {
    let mut out = Vec::new(alloc);
    let mut line = 1u64;
    for b in file.as_bytes() {
        if line != number {
            out.push(*b)?;
        } else if *b == b'\n' {
            out.extend_from_slice(text.as_bytes())?;
            out.push(b'\n')?;
        }
        if *b == b'\n' {
            line = line.wrapping_add(1);
        }
    }
    Ok(out)
}
