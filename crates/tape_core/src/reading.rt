//! Both files together: the script is cut into the chunks that the timing counts.
ghost use Rattle.std.specs.Prelude.{◌≡◌, ◌≢◌, ◌+◌, ◌≤◌, ◌++◌, ◌∷◌, [], false, Some, IfErr, IfOk, OnOk, drop, length, take};
ghost use Rattle.tape_core.specs.Faults.{is_stop};
ghost use Rattle.tape_core.specs.Reading.{fault_of, reads};
ghost use Rattle.tape_core.specs.Steps.{IsCut};
ghost use Rattle.tape_core.specs.Timing.{timing_fault};
ghost use Rattle.tape_core.specs.declared.fault.Fault.TheVariants as fault;

use crate::bytes::Bytes;
use crate::chunk::Chunk;
use crate::fault::Fault;
use crate::recording::Recording;
use crate::text::position_of;
use crate::timing::{Entry, first_entry, judged};
use std::alloc::{AllocError, Global};
use std::rc::Rc;

/// Adds the chunk of an entry, a part of the script.
fn add_chunk(
    chunks: &mut Vec<Chunk>,
    script: &Rc<Vec<u8>>,
    start: usize,
    entry: Entry,
) -> Result<(), AllocError>
    requires { start + entry.count ≤ length script.now.value.items }
    ensures { OnOk result (chunks.new.items ≡ chunks.old.items ++ (record {
      delay = entry.delay;
      bytes = take entry.count (drop start script.now.value.items);
    }) ∷ []) }
{
    let bytes = Bytes::part_of(script, start, entry.count as usize)?;
    let delay = entry.delay;
    Ok(chunks.push(Chunk { delay, bytes })?)
}

/// Cuts what stands in the script from a place on into the chunks that the timing counts, and tells how many bytes it
/// counts. Where fewer stand there, the chunks are those before the first that is short.
fn cut_chunks(
    alloc: Global,
    script: &Rc<Vec<u8>>,
    start: usize,
    timing: &[u8],
) -> Result<(Vec<Chunk>, u64), Fault>
    requires { start ≤ length script.now.value.items }
    ensures ok { IfOk result
        (λ cut. IsCut script.now.value.items start timing.now cut.0.items cut.1) }
    ensures fault { IfErr result (λ f. f ≢ fault.OutOfMemory → timing_fault timing.now ≡ Some f) }
    ensures kinds { IfErr result (λ f. f ≢ fault.OutOfMemory → is_stop f ≡ false) }
{
    let room = (script.len() - start) as u64;
    let mut chunks = Vec::new(alloc);
    let mut entries: usize = 0;
    let mut bytes: u64 = 0;
    let mut line: u64 = 0;
    let mut rest = timing;
    while !rest.is_empty() {
        let (said, after) = first_entry(rest);
        rest = after;
        line += 1;
        if let Some(entry) = judged(said, line, entries, bytes)? {
            let at = bytes;
            bytes += entry.count;
            entries += 1;
            if bytes <= room {
                add_chunk(&mut chunks, script, start + at as usize, entry)?;
            }
        }
    }
    Ok((chunks, bytes))
}

/// Reads a typescript, which the chunks then share, and its timing file. The timing is judged first, line by line; then
/// the header; then whether each chunk ends within the script. script(1).
#[tactic(auto, unfolding(crate::specs::Reading::fault_of))]
pub fn read_recording_of(alloc: Global, script: Vec<u8>, timing: &[u8]) -> Result<Recording, Fault>
    ensures ok { IfOk result (λ recording. reads script.items timing.now recording) }
    ensures fault { IfErr result
        (λ f. f ≢ fault.OutOfMemory → fault_of script.items timing.now ≡ Some f) }
    ensures kinds { IfErr result (λ f. f ≢ fault.OutOfMemory → is_stop f ≡ false) }
{
    let end = position_of(&script, b'\n');
    let start = script.len().min(end + 1);
    let behind = script.len() - start;
    let Ok(script) = Rc::new(alloc, script) else {
        return Err(Fault::OutOfMemory);
    };
    let (chunks, bytes) = cut_chunks(alloc, &script, start, timing)?;
    if end == script.len() {
        return Err(Fault::NoHeader);
    }
    if (behind as u64) < bytes {
        return Err(Fault::ScriptShort(chunks.len() as u64));
    }
    let count = bytes as usize;
    let header = Bytes::part_of(&script, 0, start)?;
    let trailer = Bytes::part_of(&script, start + count, behind - count)?;
    Ok(Recording::from_parts(alloc, header, chunks, trailer)?)
}

/// Reads a typescript, of which it takes a copy, and its timing file, as `read_recording_of` does.
pub fn read_recording(alloc: Global, script: &[u8], timing: &[u8]) -> Result<Recording, Fault>
    ensures ok { IfOk result (λ recording. reads script.now timing.now recording) }
    ensures fault { IfErr result
        (λ f. f ≢ fault.OutOfMemory → fault_of script.now timing.now ≡ Some f) }
    ensures kinds { IfErr result (λ f. f ≢ fault.OutOfMemory → is_stop f ≡ false) }
{
    read_recording_of(alloc, script.to_vec(alloc)?, timing)
}
