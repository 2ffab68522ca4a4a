//! The entries of an asciicast of version 1. asciinema's asciicast v1.
ghost use Rattle.std.specs.Prelude.{◌≡◌, IfOk};
ghost use Rattle.std.specs.Option.{option_map};
ghost use Rattle.json_bytes.specs.Strings.{meant};
ghost use Rattle.tape_import.specs.AsciicastOne.{delay_at, entry_at, string_then};

use json_bytes::{StringBytes, past_mark, read_number, read_string};
use std::alloc::{AllocError, Global};
use tape_core::Bytes;

/// An entry: the microseconds since the entry before, and the bytes of an output.
#[derive(Debug, Drop)]
pub struct Entry {
    pub delay: u64,
    pub bytes: Bytes,
}

/// The string at the front that has a mark behind it, by the bytes that it means, and what stands behind the mark.
pub fn string_then(
    alloc: Global,
    mark: u8,
    text: &[u8],
) -> Result<Option<(StringBytes<'_>, &[u8])>, AllocError>
    ensures { IfOk result (λ read. option_map (λ r. (meant r.0, r.1.now)) read
        ≡ string_then mark text.now) }
{
    let Some((bytes, rest)) = read_string(alloc, text)? else {
        return Ok(None);
    };
    match past_mark(mark, rest) {
        Some(behind) => Ok(Some((bytes, behind))),
        None => Ok(None),
    }
}

/// The delay of the entry at the front, and what stands behind its comma.
fn delay_at(text: &[u8]) -> Option<(u64, &[u8])>
    ensures { option_map (λ r. (r.0, r.1.now)) result ≡ delay_at text.now }
{
    let inner = past_mark(b'[', text)?;
    let (delay, rest) = read_number(inner, 6)?;
    let behind = past_mark(b',', rest)?;
    Some((delay, behind))
}

/// The entry at the front, and what stands behind it.
pub fn read_entry(alloc: Global, text: &[u8]) -> Result<Option<(Entry, &[u8])>, AllocError>
    ensures { IfOk result (λ read. option_map (λ r. (r.0, r.1.now)) read ≡ entry_at text.now) }
{
    let Some((delay, rest)) = delay_at(text) else {
        return Ok(None);
    };
    let Some((bytes, behind)) = string_then(alloc, b']', rest)? else {
        return Ok(None);
    };
    let bytes = Bytes::from_vec(bytes.into_vec(alloc)?);
    Ok(Some((Entry { delay, bytes }, behind)))
}
