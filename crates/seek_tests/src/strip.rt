//! A strip of cells, as small a terminal as a session can play (ours). Its setup says how many cells there are.
//!
//! | Byte | What it does |
//! |---|---|
//! | `?` | the strip answers with its cells |
//! | `\` | the next byte stands in a cell, whatever it is |
//! | any other | stands in the next cell; where the strip is full, all its cells become blank before |
ghost use Rattle.std.specs.Prelude.{◌≡◌, length, IfOk, OnOk, IsOk};
ghost use Rattle.plays.specs.Sink.{after_sending, HasRoom, KeepsFront};

use plays::laws::{sending_adds_up, the_front_stays};
use plays::{OutOfMemory, Plays, Reports};
use std::alloc::{AllocError, Global};
use std::marker::Model;

/// A cell in which no byte stands.
pub const BLANK: u8 = b'.';

/// How a strip is set up: how many cells it has.
#[derive(Clone, Copy, Debug)]
pub struct Setup {
    pub size: usize,
}

/// What a byte is to a strip.
#[derive(Clone, Copy, Debug)]
enum Meaning {
    Asks,
    Quotes,
    Stands,
}

/// A strip of cells. Contracts see its cells, which of them is the next, and whether the next byte is quoted.
#[derive(Debug, Drop)]
pub struct Strip {
    cells: Vec<u8>,
    next: usize,
    quoting: bool,
}

impl Model for Strip {
    ghost use Rattle.seek_tests.specs.Strip.{Seen};

    ghost Value = { Seen };

    ghost view = { λ s. record { cells = s.cells.items; next = s.next; quoting = s.quoting } };
}

impl Strip {
    ghost use Rattle.seek_tests.specs.Strip.{answer, answers, begun, blank, meaning, play, standing, step};

    /// The bytes that stand in its cells.
    pub fn cells(&self) -> &[u8]
        ensures { result.now ≡ self.now.cells }
    {
        self.cells.as_slice()
    }

    /// Whether the next byte is quoted.
    pub fn is_quoting(&self) -> bool
        ensures { result ≡ self.now.quoting }
    {
        self.quoting
    }

    /// Makes all cells blank.
    fn blank(&mut self)
        ensures { self.new ≡ blank (length self.old.cells) }
    {
        self.cells.fill(BLANK);
        self.next = 0;
        self.quoting = false;
    }

    /// Begins anew where it is full.
    fn begin(&mut self)
        ensures { self.new ≡ begun self.old }
    {
        if self.next >= self.cells.len() {
            self.blank();
        }
    }

    /// Has the byte stand in the next cell.
    fn stand(&mut self, byte: u8)
        ensures { self.new ≡ standing byte (begun self.old) }
    {
        self.begin();
        if let Some(cell) = self.cells.get_mut(self.next) {
            *cell = byte;
        }
        self.next += 1;
        self.quoting = false;
    }

    /// Becomes what the other is, if it has as many cells.
    fn copy_from(&mut self, other: &Strip)
        ensures { length self.old.cells ≡ length other.now.cells → self.new ≡ other.now }
    {
        if self.cells.len() != other.cells.len() {
            return;
        }
        self.cells.copy_from_slice(other.cells.as_slice());
        self.next = other.next;
        self.quoting = other.quoting;
    }

    /// What the byte is to it.
    fn meaning(&self, byte: u8) -> Meaning
        ensures { result ≡ meaning self.now.quoting byte }
    {
        match byte {
            _ if self.quoting => Meaning::Stands,
            b'?' => Meaning::Asks,
            b'\\' => Meaning::Quotes,
            _ => Meaning::Stands,
        }
    }

    /// Takes one byte, and answers it.
    fn take(&mut self, byte: u8, sink: &mut Reports) -> Result<(), OutOfMemory>
        ensures step { OnOk result (self.new ≡ step self.old byte) }
        ensures sent { OnOk result (sink.new ≡ after_sending sink.old (answer self.old byte)) }
        ensures size { length self.new.cells ≡ length self.old.cells }
        ensures front { KeepsFront sink.old sink.new }
        ensures room { HasRoom sink.old (answer self.old byte) → IsOk result }
    {
        sending_adds_up();
        the_front_stays();
        match self.meaning(byte) {
            Meaning::Asks => sink.send(self.cells.as_slice())?,
            Meaning::Quotes => self.quoting = true,
            Meaning::Stands => self.stand(byte),
        }
        Ok(())
    }

    /// Takes bytes, and answers them.
    fn take_all(&mut self, bytes: &[u8], sink: &mut Reports) -> Result<(), OutOfMemory>
        ensures play { OnOk result (self.new ≡ play self.old bytes.now) }
        ensures sent { OnOk result (sink.new ≡ after_sending sink.old (answers self.old bytes.now)) }
        ensures size { length self.new.cells ≡ length self.old.cells }
        ensures front { KeepsFront sink.old sink.new }
        ensures room { HasRoom sink.old (answers self.old bytes.now) → IsOk result }
    {
        sending_adds_up();
        the_front_stays();
        for byte in bytes {
            self.take(*byte, sink)?;
        }
        Ok(())
    }
}

impl Plays for Strip {
    type Profile = Setup;

    type Packed = Strip;

    ghost use Rattle.seek_tests.specs.Strip.{answers, blank, play};

    ghost shows = { λ setup strip bytes. strip ≡ play (blank setup.size) bytes };

    ghost keeps = { λ setup packed bytes. packed ≡ play (blank setup.size) bytes };

    // A strip marks nothing, and tells nothing by its marks.
    ghost told = { λ _ _ _. Unit {0} };

    ghost fits = { λ setup strip. length strip.cells ≡ setup.size };

    ghost sent = { λ setup bytes. answers (blank setup.size) bytes };

    ghost replies = { λ setup before bytes. answers (play (blank setup.size) before) bytes };

    fn reset(alloc: Global, setup: Setup) -> Result<Self, AllocError> {
        let cells = vec![in alloc; BLANK; setup.size]?;
        Ok(Strip {
            cells,
            next: 0,
            quoting: false,
        })
    }

    fn clear(&mut self, setup: Setup) {
        let _setup = setup;
        self.blank();
    }

    fn feed(&mut self, bytes: &[u8], sink: &mut Reports) -> Result<(), OutOfMemory> {
        self.take_all(bytes, sink)
    }

    fn pack(&self, alloc: Global) -> Result<Strip, AllocError> {
        let cells = Vec::from_slice(alloc, self.cells.as_slice())?;
        Ok(Strip {
            cells,
            next: self.next,
            quoting: self.quoting,
        })
    }

    fn unpack(&mut self, packed: &Strip) {
        self.copy_from(packed);
    }

    fn laws() {}
}
