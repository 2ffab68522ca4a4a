//! Arrays of bytes.
ghost use Rattle.std.specs.Prelude.{◌≡◌, ◌+◌, ℕ, IfOk};
ghost use Rattle.std.specs.Option.{option_map};
ghost use Rattle.json_bytes.specs.Arrays.{bytes_of};
ghost use Rattle.json_bytes.specs.Values.{found, value};

use crate::marks::{begins, past_mark};
use crate::numbers::read_byte;
use std::alloc::{AllocError, Global};

/// The bytes that the array at the front tells as a value: numbers of digits alone from 0 to 255.
pub fn bytes_in(alloc: Global, text: &[u8]) -> Result<Option<Vec<u8>>, AllocError>
    ensures { IfOk result (λ bytes. (depth : ℕ)
        → option_map (λ b. b.items) bytes ≡ bytes_of (found (value (depth + 1) text.now))) }
{
    let mut bytes = Vec::new(alloc);
    if !begins(b'[', text) {
        return Ok(None);
    }
    let Some(inner) = past_mark(b'[', text) else {
        return Ok(None);
    };
    if let Some(_end) = past_mark(b']', inner) {
        return Ok(Some(bytes));
    }
    let mut at = inner;
    for _ in 0..inner.len() {
        let Some((byte, rest)) = read_byte(at) else {
            return Ok(None);
        };
        bytes.push(byte)?;
        if let Some(_end) = past_mark(b']', rest) {
            return Ok(Some(bytes));
        }
        let Some(next) = past_mark(b',', rest) else {
            return Ok(None);
        };
        at = next;
    }
    Ok(None)
}
