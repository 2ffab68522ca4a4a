//! The list of reports, and the place in it where replies are sent.
ghost use Rattle.std.specs.Prelude.{◌≡◌, ◌≤◌, ◌++◌, [], length, replicate, take, min, OnOk, OnErr, IsOk};
ghost use Rattle.plays.specs.Sent.{AreSent, sent_bytes};

use std::alloc::{AllocError, Global};
use std::marker::Model;

/// A growth was refused.
#[derive(Clone, Copy, Debug, PartialEq, Eq)]
pub struct OutOfMemory;

impl From<AllocError> for OutOfMemory {
    fn from(_: AllocError) -> Self {
        OutOfMemory
    }
}

/// All bytes that a terminal sent, and a place in them, at most their length. A reply is sent at the place: its bytes
/// that lie before the list's end only move the place on, and those past it join the list.
#[derive(Debug, Drop)]
pub struct Reports {
    list: Sent,
    place: usize,
}

/// The list: one of its own, or so many zeros of a constant, in whose place it takes memory only where it grows.
#[derive(Debug, Drop)]
enum Sent {
    Own(Vec<u8>),
    Zeros(Global, usize),
}

/// How many zeros a constant has.
const ZEROS: usize = 20;

impl Sent {
    fn as_slice(&self) -> &[u8]
        requires { AreSent self.now }
        ensures { result.now ≡ sent_bytes self.now }
    {
        match self {
            Sent::Own(list) => list.as_slice(),
            Sent::Zeros(_, len) => &[0; ZEROS][..*len],
        }
    }

    fn truncate(&mut self, len: usize)
        requires sent { AreSent self.old }
        ensures value { sent_bytes self.new ≡ take len (sent_bytes self.old) }
        ensures sent { AreSent self.new }
    {
        match self {
            Sent::Own(list) => list.truncate(len),
            Sent::Zeros(_, count) => *count = (*count).min(len),
        }
    }

    // A refused growth changes nothing.
    fn extend(&mut self, bytes: &[u8]) -> Result<(), OutOfMemory>
        requires sent { AreSent self.old }
        ensures ok { OnOk result (sent_bytes self.new ≡ sent_bytes self.old ++ bytes.now) }
        ensures err { OnErr result (sent_bytes self.new ≡ sent_bytes self.old) }
        ensures sent { AreSent self.new }
    {
        match self {
            Sent::Own(list) => list.extend_from_slice(bytes)?,
            Sent::Zeros(alloc, len) => {
                let mut list = vec![in *alloc; 0; *len]?;
                list.extend_from_slice(bytes)?;
                *self = Sent::Own(list);
            }
        }
        Ok(())
    }
}

impl Model for Reports {
    ghost use Rattle.std.specs.Prelude.{◌≤◌, length};
    ghost use Rattle.plays.specs.Sink.{Sink};
    ghost use Rattle.plays.specs.Sent.{IsPlaced, sink_of};

    ghost Value = { Sink };

    ghost view = { λ r. sink_of r.list r.place };

    ghost invariant = { λ r. IsPlaced r.list r.place };
}

impl Reports {
    ghost use Rattle.plays.specs.Sink.{Sink, after_sending, HasRoom};

    /// An empty list. It takes no memory.
    pub fn new(alloc: Global) -> Self
        ensures { result ≡ record { bytes = []; place = 0 } }
    {
        Reports {
            list: Sent::Own(Vec::new(alloc)),
            place: 0,
        }
    }

    /// A list of 20 zeros, over which replies may be sent, one over the other: no VT100's reply to a byte is longer. It
    /// takes memory only where it grows.
    pub fn of_zeros(alloc: Global) -> Self
        ensures { result ≡ record { bytes = replicate 20 0; place = 0 } }
    {
        Reports {
            list: Sent::Zeros(alloc, ZEROS),
            place: 0,
        }
    }

    /// All that was sent.
    pub fn bytes(&self) -> &[u8]
        ensures { result.now ≡ self.now.bytes }
    {
        self.list.as_slice()
    }

    /// Where the next reply is sent.
    pub fn place(&self) -> usize
        ensures value { result ≡ self.now.place }
        ensures within { result ≤ length self.now.bytes }
    {
        self.place
    }

    /// Sends from this place on. It leaves the list.
    pub fn set_place(&mut self, place: usize)
        requires { place ≤ length self.old.bytes }
        ensures { self.new ≡ record { bytes = self.old.bytes; place = place } }
    {
        self.place = place;
    }

    /// Keeps the first bytes, and lowers the place where it must.
    pub fn cut(&mut self, len: usize)
        requires { len ≤ length self.old.bytes }
        ensures { self.new
            ≡ record { bytes = take len self.old.bytes; place = min self.old.place len } }
    {
        self.place = self.place.min(len);
        self.list.truncate(len);
    }

    /// Sends a reply at the place. A refused growth changes nothing.
    pub fn send(&mut self, reply: &[u8]) -> Result<(), OutOfMemory>
        ensures ok { OnOk result (self.new ≡ after_sending self.old reply.now) }
        ensures err { OnErr result (self.new ≡ self.old) }
        ensures room { HasRoom self.old reply.now → IsOk result }
    {
        let held = self.bytes().len() - self.place;
        if reply.len() <= held {
            self.place += reply.len();
            return Ok(());
        }
        self.list.extend(&reply[held..])?;
        self.place += reply.len();
        Ok(())
    }
}
