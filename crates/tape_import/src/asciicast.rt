//! An asciicast of version 2 or 3: a header and events, a JSON text in each line. asciinema's asciicast v2 and v3.
ghost use Rattle.std.specs.Prelude.{◌≡◌, ◌+◌, ◌<◌, ◌^◌, IfNone, IfOk, IfSome, None, OnOk, Some, length};
ghost use Rattle.tape_core.specs.Text.{lines_of};
ghost use Rattle.tape_import.specs.Asciicast.{asciicast_of, at_header, is_in_force, is_skipped, in_time, left_from, line_fault, what_fault, with_event, with_line, with_size, with_what};
ghost use Rattle.tape_import.specs.KeptCast.{HasSizes, IsCounted};

use crate::cast_header::{split_header, told_size};
use crate::event::{Event, What, read_event};
use crate::facts::Size;
use crate::fault::EventFault;
use crate::lines::{count_lines, is_blank_line, next_line};
use crate::losses::{Left, Others, Place};
use crate::timeline::Timeline;
use crate::version::Version;
use std::alloc::{AllocError, Global};

/// What was read so far: the number of the line that is read, the outputs, the size in force, the size that the header
/// tells, and the events that are left out.
#[derive(Drop)]
pub struct Cast {
    pub line: u64,
    pub outputs: Timeline,
    pub in_force: Option<Size>,
    pub told: Option<Size>,
    pub others: Others,
}

/// What was read of a whole file, and what was left out from the line on before which reading ended.
#[derive(Drop)]
pub struct CastFront {
    pub cast: Cast,
    pub left: Option<Left>,
}

/// Whether a line tells nothing.
fn is_skipped(version: Version, line: &[u8]) -> bool
    ensures { result ≡ is_skipped version line.now }
{
    match version {
        Version::Two => is_blank_line(line),
        Version::Three => is_blank_line(line) || line.starts_with(b"#"),
    }
}

/// Whether this size is in force.
fn is_in_force(size: Size, now: Option<Size>) -> bool
    ensures { result ≡ is_in_force size now }
{
    match now {
        Some(now) => now.columns == size.columns && now.lines == size.lines,
        None => false,
    }
}

impl Cast {
    /// Behind the header nothing was read yet. Takes no memory.
    pub fn at_header(alloc: Global, size: Option<Size>) -> Cast
        ensures { result ≡ at_header size }
    {
        Cast {
            line: 0,
            outputs: Timeline::new(alloc),
            in_force: size,
            told: size,
            others: Others::none(),
        }
    }

    /// The fault of an event, if it has one.
    pub fn fault_of(&self, what: &What) -> Option<EventFault>
        ensures { result ≡ what_fault what.now self.now.outputs }
    {
        match what {
            What::Output(bytes) => self.outputs.fault_of(bytes.len()),
            _ => None,
        }
    }

    /// Takes a change of size.
    fn resize(&mut self, size: Option<Size>)
        requires { self.old.others.resizes + 1 < 2 ^ 64 }
        ensures { self.new ≡ with_size size self.old }
    {
        let Some(size) = size else {
            self.others.resizes += 1;
            return;
        };
        if self.outputs.count() == 0 {
            self.in_force = Some(size);
            self.told = Some(size);
        } else if !is_in_force(size, self.in_force) {
            self.in_force = Some(size);
            self.others.resizes += 1;
        }
    }

    /// Lets the time of an event come.
    fn come(&mut self, version: Version, event: &Event)
        ensures { self.new
            ≡ record self.old { outputs = in_time version event.now self.old.outputs } }
    {
        match (version, &event.what) {
            (Version::Three, _) => self.outputs.pass(event.time),
            (Version::Two, What::Output(_)) => self.outputs.reach(event.time),
            (Version::Two, _) => {}
        }
    }

    /// Takes what an event is, or counts it.
    fn take_what(&mut self, what: What) -> Result<(), AllocError>
        requires sound { what_fault what self.old.outputs ≡ None }
        requires few { IsCounted (2 ^ 63) self.old }
        ensures { OnOk result (self.new ≡ with_what what self.old) }
    {
        match what {
            What::Output(bytes) => self.outputs.take(self.line, bytes)?,
            What::Resize(size) => self.resize(size),
            What::Input => self.others.inputs += 1,
            What::Marker => self.others.markers += 1,
            What::Other => self.others.others += 1,
        }
        Ok(())
    }

    /// Takes an event that has no fault.
    pub fn take(&mut self, version: Version, event: Event) -> Result<(), AllocError>
        requires sound { what_fault event.what self.old.outputs ≡ None }
        requires few { IsCounted (2 ^ 63) self.old }
        ensures { OnOk result (self.new ≡ with_event version event self.old) }
    {
        self.come(version, &event);
        self.take_what(event.what)
    }

    /// Reads a line, or tells its fault, and then nothing changes.
    fn take_line(
        &mut self,
        alloc: Global,
        version: Version,
        line: &[u8],
    ) -> Result<Option<EventFault>, AllocError>
        requires { IsCounted (2 ^ 63) self.old }
        ensures fault { IfOk result (λ fault. fault ≡ line_fault version self.old line.now) }
        ensures same { IfOk result (λ fault. IfSome fault (λ _. self.new ≡ self.old)) }
        ensures taken { IfOk result (λ fault.
            IfNone fault (self.new ≡ with_line version self.old line.now)) }
    {
        if is_skipped(version, line) {
            return Ok(None);
        }
        let Some(event) = read_event(alloc, line)? else {
            return Ok(Some(EventFault::BadEvent));
        };
        if let Some(fault) = self.fault_of(&event.what) {
            return Ok(Some(fault));
        }
        self.take(version, event)?;
        Ok(None)
    }
}

/// What is left out from the line of this number on, which has a fault and begins this text.
pub fn left_from(number: u64, text: &[u8], fault: EventFault) -> Option<Left>
    ensures { result ≡ Some (left_from number (length (lines_of text.now)) fault) }
{
    Some(Left {
        place: Place::Line,
        number,
        fault,
        count: count_lines(text),
    })
}

/// Reads the lines of an asciicast, up to the first that has a fault.
pub fn read_cast(alloc: Global, version: Version, text: &[u8]) -> Result<CastFront, AllocError>
    ensures front { IfOk result (λ front. asciicast_of version text.now ≡ front) }
    ensures sizes { IfOk result (λ front. HasSizes front.cast) }
{
    let (header, mut rest, mut number) = split_header(text);
    let mut cast = Cast::at_header(alloc, told_size(alloc, version, header)?);
    while !rest.is_empty() {
        let (line, after) = next_line(rest);
        number += 1;
        cast.line = number;
        if let Some(fault) = cast.take_line(alloc, version, line)? {
            let left = left_from(number, rest, fault);
            return Ok(CastFront { cast, left });
        }
        rest = after;
    }
    Ok(CastFront { cast, left: None })
}
