//! The messages of tlog, a JSON text in each line.
ghost use Rattle.std.specs.Prelude.{◌≡◌, ◌≤◌, ◌++◌, All, ℕ, IfOk, IfSome, List, MatchOption, None, OnOk, Option, Some};
ghost use Rattle.std.specs.List.{AllPass};
ghost use Rattle.std.specs.Option.{option_map};
ghost use Rattle.json_bytes.specs.Arrays.{bytes_of};
ghost use Rattle.json_bytes.specs.Listed.{valued};
ghost use Rattle.json_bytes.specs.Strings.{meant};
ghost use Rattle.json_bytes.specs.Values.{Json, string_of};
ghost use Rattle.tape_import.specs.Asciicast.{date_of, term_of};
ghost use Rattle.tape_import.specs.Dates.{last_second};
ghost use Rattle.tape_import.specs.Facts.{is_term_byte};
ghost use Rattle.tape_import.specs.KeptCast.{IsSized};
ghost use Rattle.tape_import.specs.KeptTlog.{CanHead, IsRead, Tells, shown_head, shown_stream};
ghost use Rattle.tape_import.specs.TlogMessage.{Message, count_of, is_minor, is_version, is_versioned, message_of, message_told, story_of, stream_by};

use crate::cast_header::{date_at, term_by};
use crate::event::Event;
use crate::tlog_fields::{Fields, Given};
use crate::tlog_stream::Rest;
use crate::tlog_timing::Progress;
use json_bytes::{ReadValue, StringBytes, bytes_in};
use std::alloc::{AllocError, Global};
use std::collections::VecDeque;
use tape_core::Bytes;
use tape_core::text::read_number;

/// What a message tells of its recording: the message's number, the names of the recording and of the terminal, and the
/// second, where these are told.
#[derive(Debug, Drop)]
pub struct Head {
    pub number: u64,
    pub recording: Option<Bytes>,
    pub term: Option<Bytes>,
    pub date: Option<u64>,
}

/// What a message tells of its recording, as it stands in its line: it is worked out of the first one alone.
#[derive(Drop)]
pub struct HeadRead<'a> {
    pub number: u64,
    pub recording: Option<StringBytes<'a>>,
    pub term: Option<ReadValue<'a>>,
    pub time: Option<ReadValue<'a>>,
}

/// A message, as it stands in its line: of its timing nothing has come yet.
#[derive(Drop)]
pub struct MessageRead<'a> {
    pub head: HeadRead<'a>,
    pub timing: StringBytes<'a>,
    pub so_far: Progress<'a>,
}

/// Whether this is a version of the format that is read.
fn is_version(text: &[u8]) -> bool
    ensures { result ≡ is_version text.now }
{
    match text {
        [b'1' | b'2', minor @ ..] => is_minor(minor),
        _ => false,
    }
}

/// Whether this stands behind the 1 or the 2.
fn is_minor(text: &[u8]) -> bool
    ensures { result ≡ is_minor text.now }
{
    match text {
        [] => true,
        [b'.', digits @ ..] => read_number(digits).is_some(),
        _ => false,
    }
}

/// Whether a value is such a version.
#[inline]
pub fn is_versioned(alloc: Global, value: &ReadValue) -> Result<bool, AllocError>
    ensures { IfOk result (λ is. is ≡ is_versioned (string_of (Some (valued 63 value.now)))) }
{
    match value.text(alloc)? {
        Some(text) => Ok(is_version(text.as_slice())),
        None => Ok(false),
    }
}

/// The number of at most 18 digits alone that a value is.
#[inline(always)]
pub fn count_of(value: &ReadValue) -> Option<u64>
    ensures { result ≡ count_of (Some (valued 63 value.now)) }
{
    let (count, len) = value.plain_count()?;
    if len <= 18 { Some(count) } else { None }
}

/// The bytes that a value tells as an array of numbers.
pub fn bytes_of(alloc: Global, value: &ReadValue) -> Result<Option<Vec<u8>>, AllocError>
    ensures { IfOk result (λ bytes.
        option_map (λ b. b.items) bytes ≡ bytes_of (Some (valued 63 value.now))) }
{
    match value {
        ReadValue::Text(_) => Ok(None),
        ReadValue::Plain(_) => Ok(None),
        ReadValue::Other(place) => {
            let bytes = bytes_in(alloc, place)?;
            Ok(bytes)
        }
    }
}

impl HeadRead<'_> {
    /// The terminal's name.
    fn term(&self, alloc: Global) -> Result<Option<Bytes>, AllocError>
        ensures term { IfOk result (λ term.
            term ≡ term_of (option_map (valued 63) self.now.term)) }
        ensures bytes { IfOk result (λ term. IfSome term (AllPass is_term_byte)) }
    {
        let Some(value) = &self.term else {
            return Ok(None);
        };
        match value.text(alloc)? {
            Some(text) => term_by(alloc, text.as_slice()),
            None => Ok(None),
        }
    }

    /// The second at which the recording began.
    fn date(&self) -> Option<u64>
        ensures second { result ≡ date_of (option_map (valued 63) self.now.time) }
        ensures last { IfSome result (λ s. s ≤ last_second) }
    {
        match &self.time {
            Some(ReadValue::Plain(number)) => date_at(number.place),
            Some(ReadValue::Other(place)) => date_at(place),
            _ => None,
        }
    }

    /// The recording's name.
    fn recording(&self, alloc: Global) -> Result<Option<Bytes>, AllocError>
        ensures { IfOk result (λ name. name ≡ (shown_head self.now).recording) }
    {
        match &self.recording {
            Some(name) => Ok(Some(Bytes::copy_of(alloc, name.as_slice())?)),
            None => Ok(None),
        }
    }

    /// All of it.
    pub fn worked_out(&self, alloc: Global) -> Result<Head, AllocError>
        ensures head { IfOk result (λ head. head ≡ shown_head self.now) }
        ensures can { IfOk result CanHead }
    {
        Ok(Head {
            number: self.number,
            recording: self.recording(alloc)?,
            term: self.term(alloc)?,
            date: self.date(),
        })
    }
}

/// All of a stream, where both of its parts are what they have to be.
#[inline(always)]
fn all_of(given: Given<'_>) -> Option<Rest<'_>>
    ensures { option_map shown_stream result
        ≡ stream_by (option_map meant given.entry.text) (option_map (λ b. b.items) given.entry.bytes) }
{
    Some(Rest::all(given.text?, given.bytes?))
}

/// The message that members tell, whatever its timing is.
fn message_told(fields: Fields<'_>) -> Option<MessageRead<'_>>
    ensures { (told : List ℕ → Option Json) → Tells told fields.entry
        → MatchOption result (message_told told ≡ None)
        (λ read. (message : Message) × (message_told told ≡ Some message) × IsRead message read) }
{
    if !fields.is_versioned {
        return None;
    }
    let number = fields.number?;
    let pos = fields.pos?;
    let timing = fields.timing?;
    let typed = all_of(fields.typed)?;
    let Some(shown) = all_of(fields.shown) else {
        return None;
    };
    let head = HeadRead {
        number,
        recording: fields.recording,
        term: fields.term,
        time: fields.time,
    };
    Some(MessageRead {
        head,
        timing,
        so_far: Progress::at_front(pos, typed, shown),
    })
}

/// What the message that a line is tells of its recording; what its timing tells is added.
pub fn read_message<'a>(
    alloc: Global,
    line: &'a [u8],
    events: &mut VecDeque<Event>,
) -> Result<Option<HeadRead<'a>>, AllocError>
    requires { All (λ e. IsSized e.what) events.old.items }
    ensures message { IfOk result (λ read. MatchOption read (message_of line.now ≡ None)
        (λ head. (message : Message) × (message_of line.now ≡ Some message)
        × (shown_head head ≡ message.head)
        × (events.new.items ≡ events.old.items ++ (story_of message).events))) }
    ensures sized { OnOk result (All (λ e. IsSized e.what) events.new.items) }
{
    let mut fields = Fields::none(alloc);
    if !fields.read(alloc, line)? {
        return Ok(None);
    }
    let Some(message) = message_told(fields) else {
        return Ok(None);
    };
    let MessageRead {
        head,
        timing,
        mut so_far,
    } = message;
    if so_far.read_story(alloc, timing.as_slice(), events)? {
        Ok(Some(head))
    } else {
        Ok(None)
    }
}
