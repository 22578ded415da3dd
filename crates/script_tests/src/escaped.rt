//! Bytes written as text.

ghost use Rattle.std.specs.Prelude.{◌<◌};

use std::alloc::Global;
use std::test::Fail;

fn hex(digit: u8) -> u8
    ensures { result < 16 }
{
    match digit {
        b'0'..=b'9' => digit - b'0',
        b'A'..=b'F' => digit - b'A' + 10,
        _ => 0,
    }
}

// The bytes of a text in which `%` and two hexadecimal digits stand for a byte.
pub fn decoded(alloc: Global, text: &str) -> Result<Vec<u8>, Fail> {
    let mut bytes = Vec::new(alloc);
    let mut is_first = true;
    for part in text.as_bytes().split(|b| *b == b'%') {
        match part {
            [high, low, plain @ ..] if !is_first => {
                bytes.push(hex(*high) * 16 + hex(*low))?;
                bytes.extend_from_slice(plain)?;
            }
            _ => bytes.extend_from_slice(part)?,
        }
        is_first = false;
    }
    Ok(bytes)
}
