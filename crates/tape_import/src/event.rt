//! The events of an asciicast of version 2 or 3. asciinema's asciicast v2 and v3.
ghost use Rattle.std.specs.Prelude.{◌≡◌, IfOk, IfSome, Some, codes};
ghost use Rattle.json_bytes.specs.Listed.{valued};
ghost use Rattle.tape_import.specs.Asciicast.{event_of, is_word, resized, what_of};
ghost use Rattle.tape_import.specs.Kept.{IsSize};

use crate::facts::{Size, parted, side, size_of};
use json_bytes::{ReadValue, scaled_number, whole_triple};
use std::alloc::{AllocError, Global};
use tape_core::Bytes;

/// What an event is: an output's bytes, an input, a marker, a change of size, none where it is badly formed, or
/// anything else.
#[derive(Debug, Drop)]
pub enum What {
    Output(Bytes),
    Resize(Option<Size>),
    Input,
    Marker,
    Other,
}

/// An event: its time in microseconds, and what it is.
#[derive(Debug, Drop)]
pub struct Event {
    pub time: u64,
    pub what: What,
}

/// The size that a text tells as `80x24`.
fn resized(text: &[u8]) -> Option<Size>
    ensures size { result ≡ resized (Some text.now) }
    ensures small { IfSome result IsSize }
{
    let (columns, lines) = parted(text, b'x')?;
    size_of(side(columns), side(lines))
}

/// What an event of this code and this value is; none where an output's is no string.
fn read_what(alloc: Global, code: &[u8], value: ReadValue) -> Result<Option<What>, AllocError>
    ensures { IfOk result (λ what. what ≡ what_of code.now (Some (valued 63 value.entry))) }
{
    if code == b"o".as_slice() {
        return match value.into_text(alloc)? {
            Some(bytes) => Ok(Some(What::Output(Bytes::from_vec(bytes)))),
            None => Ok(None),
        };
    }
    if code == b"r".as_slice() {
        return match value.text(alloc)? {
            Some(text) => Ok(Some(What::Resize(resized(text.as_slice())))),
            None => Ok(Some(What::Resize(None))),
        };
    }
    if code == b"i".as_slice() {
        Ok(Some(What::Input))
    } else if code == b"m".as_slice() {
        Ok(Some(What::Marker))
    } else {
        Ok(Some(What::Other))
    }
}

/// The event that a line is.
pub fn read_event(alloc: Global, line: &[u8]) -> Result<Option<Event>, AllocError>
    ensures { IfOk result (λ event. event ≡ event_of line.now) }
{
    let Some((time, code, value)) = whole_triple(alloc, line)? else {
        return Ok(None);
    };
    let Some(time) = scaled_number(time, 6) else {
        return Ok(None);
    };
    let Some(name) = code.text(alloc)? else {
        return Ok(None);
    };
    match read_what(alloc, name.as_slice(), value)? {
        Some(what) => Ok(Some(Event { time, what })),
        None => Ok(None),
    }
}
