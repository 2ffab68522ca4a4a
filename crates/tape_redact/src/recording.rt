//! Takes a text out of a recording.

ghost use Rattle.std.specs.Prelude.{◌≡◌, ◌+◌, ◌≤◌, IfOk, drop, if◌then◌else◌, length};
ghost use Rattle.std.specs.List.{list_all};
ghost use Rattle.tape_core.specs.Tape.{body_len};
ghost use Rattle.tape_core.specs.Written.{script_text};
ghost use Rattle.tape_redact.specs.Law.{SameLines};
ghost use Rattle.tape_redact.specs.Recording.{can_be_hidden, cut, is_hidable, recut, taken_out, without};
ghost use Rattle.tape_redact.specs.Redacted.{occurrences, redacted};

use crate::hiding::redact;
use std::alloc::{AllocError, Global};
use std::rc::Rc;
use tape_core::{Bytes, Chunk, Recording};

/// A recording out of which a text was taken, and how many occurrences it had.
#[derive(Debug, Drop)]
pub struct Redaction {
    pub recording: Recording,
    pub count: usize,
}

/// Whether a text can be taken out of a recording: it has a byte, no LF, which ends the header, and no `*`, which is
/// written over it.
#[tactic(auto, unfolding(crate::specs::Recording::can_be_hidden))]
pub fn can_be_hidden(text: &[u8]) -> bool
    ensures { result ≡ can_be_hidden text.now }
{
    !text.is_empty() && is_hidable(text)
}

/// Whether none of the bytes is LF or `*`.
fn is_hidable(text: &[u8]) -> bool
    ensures { result ≡ list_all is_hidable text.now }
{
    text.iter().all(|byte| *byte != b'\n' && *byte != b'*')
}

/// Takes a text out of the typescript of a recording as a whole, so out of header and trailer too, and over the borders
/// of chunks. Delays and counts stay. Where the text can't be taken out, all stays. It takes memory for another
/// typescript.
pub fn redact_recording(
    alloc: Global,
    recording: &Recording,
    text: &[u8],
) -> Result<Redaction, AllocError>
    ensures recording { IfOk result (λ redaction. redaction.recording
        ≡ without text.now recording.now) }
    ensures count { IfOk result (λ redaction. redaction.count
        ≡ taken_out text.now recording.now) }
{
    let mut script = script_of(alloc, recording)?;
    let count = take_out(&mut script, text);
    let recording = recut(alloc, recording, script)?;
    Ok(Redaction { recording, count })
}

/// Takes a text that can be taken out out of a script, and says how many occurrences there were.
#[tactic(auto, using(crate::proofs::TextLemmas::has_a_byte))]
fn take_out(script: &mut [u8], text: &[u8]) -> usize
    ensures script { script.new
        ≡ (if can_be_hidden text.now then redacted text.now script.old else script.old) }
    ensures count { result ≡ (if can_be_hidden text.now then occurrences text.now script.old else 0) }
{
    if can_be_hidden(text) {
        redact(script, text)
    } else {
        0
    }
}

/// The typescript of a recording.
fn script_of(alloc: Global, recording: &Recording) -> Result<Vec<u8>, AllocError>
    ensures { IfOk result (λ script. script.items ≡ script_text recording.now) }
{
    let mut script = recording.header().to_vec(alloc)?;
    for chunk in recording.chunks() {
        script.extend_from_slice(chunk.bytes.as_slice())?;
    }
    script.extend_from_slice(recording.trailer())?;
    Ok(script)
}

/// A recording with the bytes of another script, which its parts share.
fn recut(alloc: Global, recording: &Recording, script: Vec<u8>) -> Result<Recording, AllocError>
    requires { SameLines (script_text recording.now) script.items }
    ensures { IfOk result (λ made. made ≡ recut recording.now script.items) }
{
    let script = shared(alloc, script)?;
    let start = recording.header().len();
    let end = start + recording.body_len() as usize;
    let header = Bytes::part_of(&script, 0, start)?;
    let chunks = cut(alloc, recording.chunks(), &script, start)?;
    let trailer = Bytes::part_of(&script, end, script.len() - end)?;
    Recording::from_parts(alloc, header, chunks, trailer)
}

/// A script, to be shared.
fn shared(alloc: Global, script: Vec<u8>) -> Result<Rc<Vec<u8>>, AllocError>
    ensures { IfOk result (λ shared. shared.value ≡ script) }
{
    Ok(Rc::new(alloc, script)?)
}

/// The chunks with the bytes that stand in a script from a place on, each with as many as before.
fn cut(
    alloc: Global,
    chunks: &[Chunk],
    script: &Rc<Vec<u8>>,
    start: usize,
) -> Result<Vec<Chunk>, AllocError>
    requires { start + body_len chunks.now ≤ length script.now.value.items }
    ensures { IfOk result (λ made. made.items
        ≡ cut chunks.now (drop start script.now.value.items)) }
{
    let mut made = Vec::with_capacity(alloc, chunks.len())?;
    let mut at = start;
    for chunk in chunks {
        let len = chunk.bytes.len();
        let bytes = Bytes::part_of(script, at, len)?;
        made.push(Chunk {
            delay: chunk.delay,
            bytes,
        })?;
        at += len;
    }
    Ok(made)
}
