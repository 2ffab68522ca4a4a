//! What was lost of a recording, and how it is told.
ghost use Rattle.std.specs.Prelude.{◌≡◌, false};
ghost use Rattle.tape_core.specs.Devices.{Gave, Puts, has_failed};
ghost use Rattle.tape_import.specs.Imported.{no_others};
ghost use Rattle.tape_import.specs.Told.{counted_text, cut_text, fault_text, first_text, is_damaged, is_nothing, left_text, losses_text, others_line, others_text, place_text, slow_line, slow_text};

use crate::fault::EventFault;
use itoa::Buffer;
use std::io::Write;
use tape_core::laws::gives_join;
use tape_core::{Fault, Watched};

/// What is counted up to the first fault.
#[derive(Clone, Copy, Debug, PartialEq, Eq)]
pub enum Place {
    /// Lines of the file, from 1.
    Line,
    /// Entries or records, from 0.
    Event,
}

/// A line, an entry or a record, by its number.
#[derive(Clone, Copy, Debug, PartialEq, Eq)]
pub struct At {
    pub place: Place,
    pub number: u64,
}

/// Messages that begin late: the number of the first one, and its line.
#[derive(Clone, Copy, Debug)]
pub struct Late {
    pub number: u64,
    pub line: u64,
}

/// What was left out: the line, the entry or the record with a fault, and how many lines, or how many bytes, are left
/// out from it on, up to the file's end.
#[derive(Clone, Copy, Debug)]
pub struct Left {
    pub place: Place,
    pub number: u64,
    pub fault: EventFault,
    pub count: u64,
}

/// A chunk that was cut: its place, counted from 0, how many bytes it has kept, and how many the recording tells.
#[derive(Clone, Copy, Debug)]
pub struct Cut {
    pub chunk: u64,
    pub kept: u64,
    pub counted: u64,
}

/// Events for which a pair has no place.
#[derive(Clone, Copy, Debug)]
pub struct Others {
    pub inputs: u64,
    pub markers: u64,
    pub resizes: u64,
    pub others: u64,
}

/// What was lost: the first message, where it isn't number 1; what was left out; the chunk that was cut; how many delays
/// were cut to the longest one, and where the first of these stands; and events that were left out.
#[derive(Clone, Copy, Debug)]
pub struct Losses {
    pub first: Option<Late>,
    pub left: Option<Left>,
    pub cut: Option<Cut>,
    pub slow: u64,
    pub first_slow: Option<At>,
    pub others: Others,
}

impl Others {
    /// None was left out.
    pub fn none() -> Others
        ensures { result ≡ no_others }
    {
        Others {
            inputs: 0,
            markers: 0,
            resizes: 0,
            others: 0,
        }
    }

    /// Whether none was.
    fn is_nothing(self) -> bool
        ensures { result ≡ is_nothing self }
    {
        self.inputs == 0 && self.markers == 0 && self.resizes == 0 && self.others == 0
    }
}

impl Losses {
    /// Whether something was left out or cut, resizes too, and not just other events.
    pub fn is_damaged(&self) -> bool
        ensures { result ≡ is_damaged self.now }
    {
        self.first.is_some()
            || self.left.is_some()
            || self.cut.is_some()
            || self.slow != 0
            || self.others.resizes != 0
    }
}

impl EventFault {
    /// What is told of it.
    pub fn text(self) -> &'static str
        ensures { result.now ≡ fault_text self }
    {
        match self {
            EventFault::BadEvent => "bad event",
            EventFault::OutOfOrder => "out of order",
            EventFault::ChunkTooLong => "chunk too long",
            EventFault::TooManyChunks => "too many chunks",
            EventFault::TooManyBytes => "too many bytes",
            EventFault::DelayTooLarge => "delay too large",
        }
    }
}

impl Place {
    /// What is told before its number.
    pub fn text(self) -> &'static str
        ensures { result.now ≡ place_text self }
    {
        match self {
            Place::Line => "recording line ",
            Place::Event => "recording event ",
        }
    }

    /// What is told behind the number of lines or bytes.
    fn counted_text(self) -> &'static [u8]
        ensures { result.now ≡ counted_text self }
    {
        match self {
            Place::Line => b" lines left out\n",
            Place::Event => b" bytes left out\n",
        }
    }
}

/// Writes what was lost, a line for each kind of loss, and doesn't flush. Takes no memory. After a write fault a
/// beginning of it has gone out (ours).
#[tactic(auto, unfolding(crate::specs::Told::losses_text))]
pub fn put_losses<W: Write>(losses: &Losses, writer: &mut Watched<W>) -> Result<(), Fault>
    requires { has_failed writer.old ≡ false }
    ensures { Puts W.contents writer.old writer.new (losses_text losses.now) result }
{
    gives_join::<W>();
    put_first(losses.first, writer);
    put_left(losses.left, writer);
    put_cut(losses.cut, writer);
    put_slow(losses.slow, writer);
    put_others(losses.others, writer);
    writer.ask()
}

/// Writes that the messages begin late.
fn put_first<W: Write>(first: Option<Late>, writer: &mut Watched<W>)
    ensures { Gave W.contents writer.old writer.new (first_text first) }
{
    gives_join::<W>();
    let Some(late) = first else {
        return;
    };
    writer.give_all(&[
        b"first message is number ",
        Buffer::new().format(late.number).as_bytes(),
        b"\n",
    ]);
}

/// Writes what was left out from the first fault on.
fn put_left<W: Write>(left: Option<Left>, writer: &mut Watched<W>)
    ensures { Gave W.contents writer.old writer.new (left_text left) }
{
    gives_join::<W>();
    let Some(left) = left else {
        return;
    };
    writer.give_all(&[
        left.place.text().as_bytes(),
        Buffer::new().format(left.number).as_bytes(),
        b": ",
        left.fault.text().as_bytes(),
        b", ",
        Buffer::new().format(left.count).as_bytes(),
        left.place.counted_text(),
    ]);
}

/// Writes which chunk was cut.
fn put_cut<W: Write>(cut: Option<Cut>, writer: &mut Watched<W>)
    ensures { Gave W.contents writer.old writer.new (cut_text cut) }
{
    gives_join::<W>();
    let Some(cut) = cut else {
        return;
    };
    writer.give_all(&[
        b"chunk ",
        Buffer::new().format(cut.chunk).as_bytes(),
        b" cut to ",
        Buffer::new().format(cut.kept).as_bytes(),
        b" of ",
        Buffer::new().format(cut.counted).as_bytes(),
        b" bytes\n",
    ]);
}

/// Writes how many delays were cut, where any were.
fn put_slow<W: Write>(count: u64, writer: &mut Watched<W>)
    ensures { Gave W.contents writer.old writer.new (slow_text count) }
{
    gives_join::<W>();
    if count != 0 {
        put_slow_line(count, writer);
    }
}

/// Writes how many delays were cut.
fn put_slow_line<W: Write>(count: u64, writer: &mut Watched<W>)
    ensures { Gave W.contents writer.old writer.new (slow_line count) }
{
    writer.give_all(&[
        Buffer::new().format(count).as_bytes(),
        b" delays cut to 1000000 seconds\n",
    ]);
}

/// Writes how many other events were left out, where any were.
fn put_others<W: Write>(others: Others, writer: &mut Watched<W>)
    ensures { Gave W.contents writer.old writer.new (others_text others) }
{
    gives_join::<W>();
    if !others.is_nothing() {
        put_others_line(others, writer);
    }
}

/// Writes how many other events were left out.
fn put_others_line<W: Write>(others: Others, writer: &mut Watched<W>)
    ensures { Gave W.contents writer.old writer.new (others_line others) }
{
    writer.give_all(&[
        Buffer::new().format(others.inputs).as_bytes(),
        b" inputs, ",
        Buffer::new().format(others.markers).as_bytes(),
        b" markers, ",
        Buffer::new().format(others.resizes).as_bytes(),
        b" resizes and ",
        Buffer::new().format(others.others).as_bytes(),
        b" others left out\n",
    ]);
}
