//! An asciicast of version 1: one object, in whose `stdout` the outputs stand. asciinema's asciicast v1.
ghost use Rattle.std.specs.Prelude.{◌≡◌, ◌+◌, ◌<◌, ◌≤◌, ◌^◌, IfOk, None, OnOk, length};
ghost use Rattle.json_bytes.specs.Marks.{past_mark};
ghost use Rattle.json_bytes.specs.Values.{value};
ghost use Rattle.tape_import.specs.Outputs.{output_fault};
ghost use Rattle.tape_import.specs.AsciicastOne.{Reader, SoFar, a_member, an_entry, asciicast_one_of, at_brace, behind_entry, behind_member, behind_object, ends, entries_begin, object_by, one_inside, stdout_by, those_inside, value_by, with_entry};
ghost use Rattle.tape_import.specs.ShownOne.{goes, shown, shown_front};

use crate::entry::{Entry, read_entry, string_then};
use crate::fault::EventFault;
use crate::places::Places;
use crate::timeline::Timeline;
use json_bytes::{DEEPEST, past_mark, past_space, value_end};
use std::alloc::{AllocError, Global};

/// What was read so far: the outputs, how many entries there were, and where other members tell something.
#[derive(Drop)]
pub struct CastOne<'a> {
    pub outputs: Timeline,
    pub count: u64,
    pub places: Places<'a>,
}

/// What was read of a whole file, the fault before which reading ended, and how many bytes are left out from there on.
#[derive(Drop)]
pub struct FrontOne<'a> {
    pub read: CastOne<'a>,
    pub fault: Option<EventFault>,
    pub left: u64,
}

/// What is read next: a member of the object, or an entry of its `stdout`.
#[derive(Clone, Copy, Debug)]
pub enum Inside {
    Object,
    Stdout,
}

/// How it goes on: the next one stands here; all was read; or reading ends, and so many bytes are left out.
#[derive(Clone, Copy, Debug)]
pub enum Step<'a> {
    Next(Inside, &'a [u8]),
    Whole,
    Ends(EventFault, u64),
}

/// Reading ends before what stands at the front, behind space.
fn ends<'a>(fault: EventFault, text: &'a [u8]) -> Step<'a>
    ensures { (more : Reader) → (read : SoFar) → ends fault read text.now ≡ goes more read result }
{
    Step::Ends(fault, past_space(text).len() as u64)
}

/// What stands behind the object.
fn behind_object(text: &[u8]) -> Step<'_>
    ensures { (more : Reader) → (read : SoFar)
        → behind_object read text.now ≡ goes more read result }
{
    if past_space(text).is_empty() {
        Step::Whole
    } else {
        ends(EventFault::BadEvent, text)
    }
}

/// What stands behind a member.
fn behind_member(text: &[u8]) -> Step<'_>
    ensures { (more : Reader) → (read : SoFar)
        → behind_member more read text.now ≡ goes more read result }
{
    if let Some(next) = past_mark(b',', text) {
        return Step::Next(Inside::Object, next);
    }
    match past_mark(b'}', text) {
        Some(behind) => behind_object(behind),
        None => ends(EventFault::BadEvent, text),
    }
}

/// What stands behind an entry.
fn behind_entry(text: &[u8]) -> Step<'_>
    ensures { (more : Reader) → (read : SoFar)
        → behind_entry more read text.now ≡ goes more read result }
{
    if let Some(next) = past_mark(b',', text) {
        return Step::Next(Inside::Stdout, next);
    }
    match past_mark(b']', text) {
        Some(behind) => behind_member(behind),
        None => ends(EventFault::BadEvent, text),
    }
}

/// What stands behind the bracket that opens `stdout`.
fn behind_bracket(inner: &[u8]) -> Step<'_>
    ensures { (more : Reader) → (read : SoFar)
        → entries_begin more read inner.now (past_mark 93 inner.now) ≡ goes more read result }
{
    match past_mark(b']', inner) {
        Some(behind) => behind_member(behind),
        None => Step::Next(Inside::Stdout, inner),
    }
}

/// What stands behind the name of a member at the front that is `stdout`.
fn stdout_begins<'a>(member: &'a [u8], place: &'a [u8]) -> Step<'a>
    ensures { (more : Reader) → (read : SoFar)
        → stdout_by more read member.now (past_mark 91 place.now) ≡ goes more read result }
{
    match past_mark(b'[', place) {
        Some(inner) => behind_bracket(inner),
        None => ends(EventFault::BadEvent, member),
    }
}

/// What stands at the front of a file.
fn first_step(text: &[u8]) -> Step<'_>
    ensures { (more : Reader) → object_by more text.now (past_mark 123 text.now)
        ≡ goes more at_brace result }
{
    let Some(inner) = past_mark(b'{', text) else {
        return ends(EventFault::BadEvent, text);
    };
    match past_mark(b'}', inner) {
        Some(behind) => behind_object(behind),
        None => Step::Next(Inside::Object, inner),
    }
}

impl<'a> CastOne<'a> {
    /// Nothing was read yet. Takes no memory.
    fn at_brace(alloc: Global) -> CastOne<'a>
        ensures { shown result ≡ at_brace }
    {
        CastOne {
            outputs: Timeline::new(alloc),
            count: 0,
            places: Places::none(),
        }
    }

    /// Takes an entry whose output has no fault.
    fn take(&mut self, entry: Entry) -> Result<(), AllocError>
        requires sound { output_fault self.old.outputs (length entry.bytes) ≡ None }
        requires few { self.old.count + 1 < 2 ^ 64 }
        ensures { OnOk result (shown self.new ≡ with_entry entry (shown self.old)) }
    {
        self.outputs.pass(entry.delay);
        self.outputs.take(self.count, entry.bytes)?;
        self.count += 1;
        Ok(())
    }

    /// Reads the entry at the front.
    fn entry(&mut self, alloc: Global, text: &'a [u8]) -> Result<Step<'a>, AllocError>
        requires { self.old.count + 1 < 2 ^ 64 }
        ensures count { OnOk result (self.new.count ≤ self.old.count + 1) }
        ensures step { IfOk result (λ step. (more : Reader)
            → an_entry more (shown self.old) text.now ≡ goes more (shown self.new) step) }
    {
        let Some((entry, behind)) = read_entry(alloc, text)? else {
            return Ok(ends(EventFault::BadEvent, text));
        };
        if let Some(fault) = self.outputs.fault_of(entry.bytes.len()) {
            return Ok(ends(fault, text));
        }
        self.take(entry)?;
        Ok(behind_entry(behind))
    }

    /// Reads the value of a member at the front that isn't `stdout`.
    fn value(&mut self, member: &'a [u8], name: &[u8], place: &'a [u8]) -> Step<'a>
        ensures count { self.new.count ≡ self.old.count }
        ensures step { (more : Reader)
            → value_by more (shown self.old) member.now name.now (value 63 place.now)
            ≡ goes more (shown self.new) result }
    {
        let Some(behind) = value_end(place, DEEPEST - 1) else {
            return ends(EventFault::BadEvent, member);
        };
        self.places.put(name, place);
        behind_member(behind)
    }

    /// Reads the member at the front, of `stdout` what stands before its entries.
    fn member(&mut self, alloc: Global, text: &'a [u8]) -> Result<Step<'a>, AllocError>
        ensures count { OnOk result (self.new.count ≡ self.old.count) }
        ensures step { IfOk result (λ step. (more : Reader)
            → a_member more (shown self.old) text.now ≡ goes more (shown self.new) step) }
    {
        let Some((name, place)) = string_then(alloc, b':', text)? else {
            return Ok(ends(EventFault::BadEvent, text));
        };
        if name.as_slice() == b"stdout".as_slice() {
            Ok(stdout_begins(text, place))
        } else {
            Ok(self.value(text, name.as_slice(), place))
        }
    }

    /// Reads the member or entry at the front.
    fn one(&mut self, alloc: Global, inside: Inside, text: &'a [u8]) -> Result<Step<'a>, AllocError>
        requires { self.old.count + 1 < 2 ^ 64 }
        ensures count { OnOk result (self.new.count ≤ self.old.count + 1) }
        ensures step { IfOk result (λ step. (more : Reader)
            → one_inside inside more (shown self.old) text.now ≡ goes more (shown self.new) step) }
    {
        match inside {
            Inside::Object => self.member(alloc, text),
            Inside::Stdout => self.entry(alloc, text),
        }
    }
}

/// What was read, where it ends so; before a next one nothing more is read.
fn front_of<'a>(read: CastOne<'a>, step: Step<'a>) -> FrontOne<'a>
    ensures { shown_front result ≡ goes (those_inside 0) (shown read.entry) step.entry }
{
    match step {
        Step::Next(_, at) => FrontOne {
            read,
            fault: Some(EventFault::BadEvent),
            left: past_space(at).len() as u64,
        },
        Step::Whole => FrontOne {
            read,
            fault: None,
            left: 0,
        },
        Step::Ends(fault, left) => FrontOne {
            read,
            fault: Some(fault),
            left,
        },
    }
}

/// Reads an asciicast of version 1, up to the first member or entry that isn't whole.
pub fn read_cast_one(alloc: Global, text: &[u8]) -> Result<FrontOne<'_>, AllocError>
    ensures { IfOk result (λ front. asciicast_one_of text.now ≡ shown_front front) }
{
    let mut read = CastOne::at_brace(alloc);
    let mut step = first_step(text);
    for _ in 0..text.len() {
        let Step::Next(inside, at) = step else {
            break;
        };
        step = read.one(alloc, inside, at)?;
    }
    Ok(front_of(read, step))
}
