//! What the tests of refused growths share: calls that are made once more where memory is refused.
use std::alloc::Global;
use std::rt::Runtime;
use std::test::Fail;
use tape_core::{Bytes, Recording, read_recording};

/// Reads a recording.
pub fn read(
    rt: &impl Runtime<A = Global>,
    script: &[u8],
    timing: &[u8],
) -> Result<Recording, Fail> {
    match read_recording(rt.alloc(), script, timing) {
        Ok(recording) => Ok(recording),
        Err(_) => {
            println!(rt; "refused: a recording")?;
            Ok(read_recording(rt.alloc(), script, timing)?)
        }
    }
}

/// Copies bytes.
pub fn bytes(rt: &impl Runtime<A = Global>, text: &[u8]) -> Result<Bytes, Fail> {
    match Bytes::copy_of(rt.alloc(), text) {
        Ok(bytes) => Ok(bytes),
        Err(_) => {
            println!(rt; "refused: bytes")?;
            Ok(Bytes::copy_of(rt.alloc(), text)?)
        }
    }
}
