//! A ttyrec: records one behind another, each of a head and bytes. ttyrec(1).
ghost use Rattle.std.specs.Prelude.{◌≡◌, ◌+◌, ◌<◌, ◌≤◌, ◌^◌, IfOk, IfSome, IsNone, OnOk, None, drop, length};
ghost use Rattle.tape_import.specs.Dates.{dated, last_second};
ghost use Rattle.tape_import.specs.Facts.{reported_size};
ghost use Rattle.tape_import.specs.Kept.{IsSize};
ghost use Rattle.tape_import.specs.Ttyrec.{at_first, clock_of, cut_of, data_of, fault_at, head_len, moved, number_at, record_fault, seconds_of, told_of, ttyrec_of, with_record};

use crate::date::dated;
use crate::facts::{Size, reported_size};
use crate::fault::EventFault;
use crate::losses::Cut;
use crate::timeline::Timeline;
use std::alloc::{AllocError, Global};
use std::rc::Rc;
use tape_core::Bytes;
use tape_core::limits::LONGEST_CHUNK;

/// How many bytes a head has.
pub const HEAD_LEN: usize = 12;

/// What was read so far: the outputs, the clock of the last record in microseconds, how many records there were, and the
/// chunk whose data ended early.
#[derive(Drop)]
pub struct Reading {
    pub outputs: Timeline,
    pub clock: Option<u64>,
    pub count: u64,
    pub cut: Option<Cut>,
}

/// What was read of a whole file, the fault of the record before which reading ended, and how many bytes are left out
/// from that record on.
#[derive(Drop)]
pub struct Front {
    pub read: Reading,
    pub fault: Option<EventFault>,
    pub left: u64,
}

/// The number of four bytes at a place, the least byte first.
pub fn number_at(text: &[u8], at: usize) -> u64
    requires { at + 4 ≤ length text.now }
    ensures value { result ≡ number_at at text.now }
    ensures small { result < 2 ^ 32 }
{
    let four = &text[at..at + 4];
    u64::from(u32::from_le_bytes([four[0], four[1], four[2], four[3]]))
}

/// The clock of the record at the front of a text.
fn clock_of(text: &[u8]) -> u64
    requires { head_len ≤ length text.now }
    ensures { result ≡ clock_of text.now }
{
    number_at(text, 0) * 1_000_000 + number_at(text, 4)
}

/// How many bytes it tells.
fn told_of(text: &[u8]) -> u64
    requires { head_len ≤ length text.now }
    ensures value { result ≡ told_of text.now }
    ensures small { result < 2 ^ 32 }
{
    number_at(text, 8)
}

/// How many bytes it has.
fn data_len(text: &[u8]) -> usize
    requires { head_len ≤ length text.now }
    ensures len { result ≡ length (data_of text.now) }
    ensures within { head_len + result ≤ length text.now }
{
    (told_of(text) as usize).min(text.len() - HEAD_LEN)
}

/// The fault of the record at the front of a text.
fn record_fault(text: &[u8]) -> Option<EventFault>
    ensures fault { result ≡ record_fault text.now }
    ensures whole { IsNone result → head_len ≤ length text.now }
{
    if text.len() < HEAD_LEN {
        return Some(EventFault::BadEvent);
    }
    let told = told_of(text);
    if told > LONGEST_CHUNK as u64 {
        return Some(EventFault::ChunkTooLong);
    }
    if told > 0 && text.len() == HEAD_LEN {
        return Some(EventFault::BadEvent);
    }
    None
}

/// The second of the first clock, where it is one that a header tells.
pub fn first_date(file: &[u8]) -> Option<u64>
    requires { head_len ≤ length file.now }
    ensures second { result ≡ dated (seconds_of file.now) }
    ensures last { IfSome result (λ s. s ≤ last_second) }
{
    dated(number_at(file, 0))
}

/// The size that the bytes of the first record ask for.
pub fn first_size(file: &[u8]) -> Option<Size>
    requires { head_len ≤ length file.now }
    ensures size { result ≡ reported_size (data_of file.now) }
    ensures small { IfSome result IsSize }
{
    reported_size(&file[HEAD_LEN..HEAD_LEN + data_len(file)])
}

/// How far the clock has moved since the record before, in microseconds.
fn moved(before: Option<u64>, clock: u64) -> u64
    ensures { result ≡ moved before clock }
{
    match before {
        Some(before) => clock.saturating_sub(before),
        None => 0,
    }
}

/// Tells of a chunk at a place that has kept fewer bytes than were told.
fn cut_of(chunk: u64, kept: u64, told: u64) -> Option<Cut>
    ensures { result ≡ cut_of chunk kept told }
{
    if kept < told {
        Some(Cut {
            chunk,
            kept,
            counted: told,
        })
    } else {
        None
    }
}

impl Reading {
    /// Nothing was read yet. Takes no memory.
    fn at_first(alloc: Global) -> Reading
        ensures { result ≡ at_first }
    {
        Reading {
            outputs: Timeline::new(alloc),
            clock: None,
            count: 0,
            cut: None,
        }
    }

    /// The fault of the record at the front of a text, behind what was read.
    fn fault_at(&self, text: &[u8]) -> Option<EventFault>
        ensures fault { result ≡ fault_at self.now text.now }
        ensures whole { IsNone result → head_len ≤ length text.now }
    {
        if let Some(fault) = record_fault(text) {
            return Some(fault);
        }
        self.outputs.fault_of(data_len(text))
    }

    /// Reads the record at a place of the file, whose bytes the chunk then shares.
    fn take(&mut self, file: &Rc<Vec<u8>>, at: usize) -> Result<(), AllocError>
        requires within { at + head_len ≤ length file.now.value.items }
        requires sound { fault_at self.old (drop at file.now.value.items) ≡ None }
        requires few { self.old.count + 1 < 2 ^ 64 }
        ensures { OnOk result (self.new ≡ with_record self.old (drop at file.now.value.items)) }
    {
        let text = &file[at..];
        let kept = data_len(text);
        let clock = clock_of(text);
        let cut = cut_of(self.outputs.count(), kept as u64, told_of(text));
        let bytes = Bytes::part_of(file, at + HEAD_LEN, kept)?;
        self.outputs.pass(moved(self.clock, clock));
        self.outputs.take(self.count, bytes)?;
        self.clock = Some(clock);
        self.count += 1;
        self.cut = cut;
        Ok(())
    }
}

/// Reads the records of a file, from a place on, up to the first that has a fault.
pub fn read_records(alloc: Global, file: &Rc<Vec<u8>>, start: usize) -> Result<Front, AllocError>
    requires { start ≤ length file.now.value.items }
    ensures { IfOk result (λ front. ttyrec_of (drop start file.now.value.items) ≡ front) }
{
    let mut read = Reading::at_first(alloc);
    let mut at = start;
    while at < file.len() {
        let text = &file[at..];
        if let Some(fault) = read.fault_at(text) {
            let left = text.len() as u64;
            return Ok(Front {
                read,
                fault: Some(fault),
                left,
            });
        }
        let len = HEAD_LEN + data_len(text);
        read.take(file, at)?;
        at += len;
    }
    Ok(Front {
        read,
        fault: None,
        left: 0,
    })
}
