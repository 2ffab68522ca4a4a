//! A recording of tlog: messages, one behind another.
ghost use Rattle.std.specs.Prelude.{◌≡◌, ◌^◌, [], All, IfOk, IsTrue, None, OnOk, Some};
ghost use Rattle.std.specs.Option.{option_map};
ghost use Rattle.json_bytes.specs.Strings.{meant};
ghost use Rattle.tape_import.specs.KeptCast.{HasSizes, IsCounted, IsSized};
ghost use Rattle.tape_import.specs.KeptTlog.{CanLog, event_taken, shown_head};
ghost use Rattle.tape_import.specs.Tlog.{at_start, first_by, is_same_name, log_of, order_fault, with_events, with_line, with_taken};

use crate::asciicast::{Cast, left_from};
use crate::event::Event;
use crate::fault::EventFault;
use crate::lines::{is_blank_line, next_line};
use crate::losses::Left;
use crate::tlog_message::{Head, HeadRead, read_message};
use crate::version::Version;
use json_bytes::StringBytes;
use std::alloc::{AllocError, Global};
use std::collections::VecDeque;
use tape_core::Bytes;

/// What was read so far: the outputs and what is left out, as of an asciicast; what the first message tells of the
/// recording; and the number of the last one.
#[derive(Drop)]
pub struct Log {
    pub cast: Cast,
    pub first: Option<Head>,
    pub last: u64,
}

/// What was read of a whole file, and what was left out from the line on in which reading ended.
#[derive(Drop)]
pub struct LogFront {
    pub log: Log,
    pub left: Option<Left>,
}

/// How many events of a kind are counted at most: more than any file has.
const MOST_COUNTED: u64 = 1 << 63;

/// Whether one more can be counted of each kind.
fn can_count(cast: &Cast) -> bool
    ensures { IsTrue result → IsCounted (2 ^ 63) cast.now }
{
    cast.others.inputs <= MOST_COUNTED
        && cast.others.markers <= MOST_COUNTED
        && cast.others.resizes <= MOST_COUNTED
        && cast.others.others <= MOST_COUNTED
}

/// Takes an event, or tells its fault, and then nothing changes. Refused also where there is no counting it.
fn take_event(cast: &mut Cast, event: Event) -> Result<Option<EventFault>, AllocError>
    requires sizes { HasSizes cast.old }
    requires sized { IsSized event.what }
    ensures taken { IfOk result (λ fault.
        event_taken event cast.old ≡ record { cast = cast.new; fault = fault }) }
    ensures sizes { OnOk result (HasSizes cast.new) }
{
    if let Some(fault) = cast.fault_of(&event.what) {
        return Ok(Some(fault));
    }
    if !can_count(cast) {
        return Err(AllocError);
    }
    cast.take(Version::Two, event)?;
    Ok(None)
}

/// Takes what a message tells, up to the first output that has a fault, which is told.
fn take_events(
    cast: &mut Cast,
    events: &mut VecDeque<Event>,
) -> Result<Option<EventFault>, AllocError>
    requires sizes { HasSizes cast.old }
    requires sized { All (λ e. IsSized e.what) events.old.items }
    ensures taken { IfOk result (λ fault. with_events events.old.items cast.old
        ≡ record { cast = cast.new; fault = fault }) }
    ensures none { IfOk result (λ fault. fault ≡ None → events.new.items ≡ []) }
    ensures sizes { OnOk result (HasSizes cast.new) }
{
    while let Some(event) = events.pop_front() {
        if let Some(fault) = take_event(cast, event)? {
            return Ok(Some(fault));
        }
    }
    Ok(None)
}

/// Whether two messages name the same recording, or none.
fn is_same_name(one: &Option<Bytes>, other: &Option<StringBytes>) -> bool
    ensures { result ≡ is_same_name one.now (option_map meant other.now) }
{
    match (one, other) {
        (None, None) => true,
        (Some(one), Some(other)) => one.as_slice() == other.as_slice(),
        _ => false,
    }
}

impl Log {
    /// Nothing was read yet. Takes no memory.
    fn at_start(alloc: Global) -> Log
        ensures { result ≡ at_start }
    {
        Log {
            cast: Cast::at_header(alloc, None),
            first: None,
            last: 0,
        }
    }

    /// That a message isn't the one behind the last one, if so.
    fn order_fault(&self, head: &HeadRead) -> Option<EventFault>
        ensures { result ≡ order_fault self.now.first self.now.last (shown_head head.now) }
    {
        let Some(first) = &self.first else {
            return None;
        };
        let next = head.number > self.last && head.number - self.last == 1;
        if next && is_same_name(&first.recording, &head.recording) {
            None
        } else {
            Some(EventFault::OutOfOrder)
        }
    }

    /// Keeps what a message tells of the recording.
    fn pass_head(&mut self, alloc: Global, head: &HeadRead) -> Result<(), AllocError>
        requires { CanLog self.old }
        ensures log { OnOk result (self.new ≡ record self.old
            { first = Some (first_by self.old.first (shown_head head.now)); last = head.now.number }) }
        ensures can { OnOk result (CanLog self.new) }
    {
        self.last = head.number;
        if self.first.is_none() {
            self.first = Some(head.worked_out(alloc)?);
        }
        Ok(())
    }

    /// Takes what a message in order tells, up to the first output that has a fault, which is told.
    fn take_message(
        &mut self,
        alloc: Global,
        head: &HeadRead,
        events: &mut VecDeque<Event>,
    ) -> Result<Option<EventFault>, AllocError>
        requires log { CanLog self.old }
        requires sized { All (λ e. IsSized e.what) events.old.items }
        ensures taken { IfOk result (λ fault.
            with_taken self.old (shown_head head.now) (with_events events.old.items self.old.cast)
            ≡ record { log = self.new; fault = fault }) }
        ensures none { IfOk result (λ fault. fault ≡ None → events.new.items ≡ []) }
        ensures can { OnOk result (CanLog self.new) }
    {
        let fault = take_events(&mut self.cast, events)?;
        self.pass_head(alloc, head)?;
        Ok(fault)
    }

    /// Reads a line, up to its fault, which is told. The list is a place for its events: it has none before the line, and
    /// none behind one without a fault.
    fn take_line(
        &mut self,
        alloc: Global,
        line: &[u8],
        events: &mut VecDeque<Event>,
    ) -> Result<Option<EventFault>, AllocError>
        requires log { CanLog self.old }
        requires none { events.old.items ≡ [] }
        ensures taken { IfOk result (λ fault. with_line self.old line.now
            ≡ record { log = self.new; fault = fault }) }
        ensures none { IfOk result (λ fault. fault ≡ None → events.new.items ≡ []) }
        ensures can { OnOk result (CanLog self.new) }
    {
        if is_blank_line(line) {
            return Ok(None);
        }
        let Some(head) = read_message(alloc, line, events)? else {
            return Ok(Some(EventFault::BadEvent));
        };
        if let Some(fault) = self.order_fault(&head) {
            return Ok(Some(fault));
        }
        self.take_message(alloc, &head, events)
    }
}

/// Reads the messages of a recording, up to the first fault.
pub fn read_log(alloc: Global, text: &[u8]) -> Result<LogFront, AllocError>
    ensures front { IfOk result (λ front. log_of text.now ≡ front) }
    ensures can { IfOk result (λ front. CanLog front.log) }
{
    let mut log = Log::at_start(alloc);
    let mut events = VecDeque::new(alloc);
    let mut rest = text;
    let mut number = 0;
    while !rest.is_empty() {
        let (line, after) = next_line(rest);
        number += 1;
        log.cast.line = number;
        if let Some(fault) = log.take_line(alloc, line, &mut events)? {
            let left = left_from(number, rest, fault);
            return Ok(LogFront { log, left });
        }
        rest = after;
    }
    Ok(LogFront { log, left: None })
}
