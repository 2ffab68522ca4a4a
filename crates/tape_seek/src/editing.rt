//! Judging an edit of a recording, and making it.
ghost use Rattle.std.specs.Prelude.{◌≡◌, None, OnOk, OnErr};
ghost use Rattle.hex.specs.Hex.{IsBytes};
ghost use Rattle.tape_core.specs.Tape.{Tape, fits};
ghost use Rattle.tape_seek.specs.Edits.{bytes_in, edit_fault, edited, first_touched};

use crate::edits::{Edit, EditFault};
use std::alloc::{AllocError, Global};
use tape_core::limits::{LONGEST_BODY, LONGEST_CHUNK, LONGEST_DELAY, MOST_CHUNKS};
use tape_core::{Bytes, Chunk, Recording};

/// Why the edit is refused, memory aside.
pub(crate) fn edit_fault(recording: &Recording, edit: &Edit) -> Option<EditFault>
    ensures { result ≡ edit_fault recording.now edit.now }
{
    match edit {
        Edit::Insert { at, delay, bytes } => insert_fault(recording, *at, *delay, bytes),
        Edit::Delete { from, to } => delete_fault(recording, *from, *to),
        Edit::Replace { at, bytes } => replace_fault(recording, *at, bytes),
        Edit::Retime { at, delay } => retime_fault(recording, *at, *delay),
        Edit::Cap { max } => cap_fault(*max),
    }
}

fn insert_fault(recording: &Recording, at: usize, delay: u64, bytes: &Bytes) -> Option<EditFault>
    ensures { result ≡ edit_fault recording.now (Edit.Insert at delay bytes.now) }
{
    if at > recording.chunks().len() {
        return Some(EditFault::NoSuchChunk);
    }
    if delay > LONGEST_DELAY {
        return Some(EditFault::DelayTooLarge);
    }
    if bytes.len() > LONGEST_CHUNK {
        return Some(EditFault::ChunkTooLong);
    }
    if recording.chunks().len() >= MOST_CHUNKS {
        return Some(EditFault::TooManyChunks);
    }
    if recording.body_len() > LONGEST_BODY - bytes.len() as u64 {
        return Some(EditFault::TooManyBytes);
    }
    None
}

fn delete_fault(recording: &Recording, from: usize, to: usize) -> Option<EditFault>
    ensures { result ≡ edit_fault recording.now (Edit.Delete from to) }
{
    if from >= to || to > recording.chunks().len() {
        return Some(EditFault::BadRange);
    }
    None
}

fn replace_fault(recording: &Recording, at: usize, bytes: &Bytes) -> Option<EditFault>
    ensures { result ≡ edit_fault recording.now (Edit.Replace at bytes.now) }
{
    if at >= recording.chunks().len() {
        return Some(EditFault::NoSuchChunk);
    }
    if bytes.len() > LONGEST_CHUNK {
        return Some(EditFault::ChunkTooLong);
    }
    let others = recording.body_len() - recording.chunks()[at].bytes.len() as u64;
    if others > LONGEST_BODY - bytes.len() as u64 {
        return Some(EditFault::TooManyBytes);
    }
    None
}

fn retime_fault(recording: &Recording, at: usize, delay: u64) -> Option<EditFault>
    ensures { result ≡ edit_fault recording.now (Edit.Retime at delay) }
{
    if at >= recording.chunks().len() {
        return Some(EditFault::NoSuchChunk);
    }
    if delay > LONGEST_DELAY {
        return Some(EditFault::DelayTooLarge);
    }
    None
}

fn cap_fault(max: u64) -> Option<EditFault>
    ensures { (tape : Tape) → result ≡ edit_fault tape (Edit.Cap max) }
{
    if max > LONGEST_DELAY {
        return Some(EditFault::DelayTooLarge);
    }
    None
}

/// Makes the edit, which has no fault. The recording takes a copy of its bytes. For want of memory nothing has changed.
pub(crate) fn make(alloc: Global, recording: &mut Recording, edit: &Edit) -> Result<(), AllocError>
    requires { edit_fault recording.old edit.now ≡ None }
    ensures fitting { fits recording.old → fits recording.new }
    ensures ok { OnOk result (recording.new ≡ edited recording.old edit.now) }
    ensures err { OnErr result (recording.new ≡ recording.old) }
{
    match edit {
        Edit::Insert { at, delay, bytes } => insert(alloc, recording, *at, *delay, bytes),
        Edit::Delete { from, to } => {
            recording.remove(*from, *to);
            Ok(())
        }
        Edit::Replace { at, bytes } => {
            let bytes = Bytes::copy_of(alloc, bytes.as_slice())?;
            recording.replace(*at, bytes);
            Ok(())
        }
        Edit::Retime { at, delay } => {
            recording.retime(*at, *delay);
            Ok(())
        }
        Edit::Cap { max } => {
            recording.cap(*max);
            Ok(())
        }
    }
}

/// Puts a chunk with a copy of these bytes before chunk `at`.
fn insert(
    alloc: Global,
    recording: &mut Recording,
    at: usize,
    delay: u64,
    bytes: &Bytes,
) -> Result<(), AllocError>
    requires { edit_fault recording.old (Edit.Insert at delay bytes.now) ≡ None }
    ensures fitting { fits recording.old → fits recording.new }
    ensures ok { OnOk result
        (recording.new ≡ edited recording.old (Edit.Insert at delay bytes.now)) }
    ensures err { OnErr result (recording.new ≡ recording.old) }
{
    let bytes = Bytes::copy_of(alloc, bytes.as_slice())?;
    match recording.insert(at, Chunk { delay, bytes }) {
        Ok(()) => Ok(()),
        Err(_) => Err(AllocError),
    }
}

/// The first chunk that an edit touches, if it touches the bytes of any.
pub(crate) fn first_touched(edit: &Edit) -> Option<usize>
    ensures { result ≡ first_touched edit.now }
{
    match edit {
        Edit::Insert { at, .. } | Edit::Replace { at, .. } => Some(*at),
        Edit::Delete { from, .. } => Some(*from),
        Edit::Retime { .. } | Edit::Cap { .. } => None,
    }
}

/// What an edit brings are bytes, each below 256: their type says so, and nothing is done.
pub(crate) fn brings_bytes(edit: &Edit)
    ensures { IsBytes (bytes_in edit.now) }
{
    match edit {
        Edit::Insert { bytes, .. } | Edit::Replace { bytes, .. } => are_bytes(bytes.as_slice()),
        Edit::Delete { .. } | Edit::Retime { .. } | Edit::Cap { .. } => {}
    }
}

fn are_bytes(bytes: &[u8])
    ensures { IsBytes bytes.now }
{}
