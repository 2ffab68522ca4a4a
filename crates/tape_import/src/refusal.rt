//! A recording of another form in place of a pair: read as a whole, or refused.
ghost use Rattle.std.specs.Prelude.{◌≡◌, ◌≢◌, IfErr, IfOk, Some};
ghost use Rattle.tape_import.specs.ImportedFile.{import_of};
ghost use Rattle.tape_import.specs.Refusal.{IsWhole, cut_fault, first_fault, late_fault, left_fault, refusal_of, slow_fault};
ghost use Rattle.tape_import.specs.declared.fault.ImportFault.TheVariants as fault;
ghost use Rattle.tape_import.specs.declared.refusal.Refusal.TheVariants as refusal;

use crate::fault::{EventFault, ImportFault};
use crate::imported::Imported;
use crate::imported_file::import;
use crate::losses::{At, Cut, Late, Left, Losses, Place};
use std::alloc::Global;
use std::fmt;
use std::rc::Rc;
use tape_core::Recording;

/// Why a recording of another form doesn't stand for a pair.
#[derive(Clone, Copy, Debug, Drop, PartialEq, Eq)]
pub enum Refusal {
    /// Nothing can be read of it.
    Form(ImportFault),
    /// This line, entry or record is the first one with a fault.
    Event(At, EventFault),
    /// It ends inside this chunk, counted from 0.
    Ends(u64),
}

/// A recording of which all was read, and how many changes of size were left out of it.
#[derive(Debug, Drop)]
pub struct Whole {
    pub recording: Recording,
    pub resizes: u64,
}

impl fmt::Display for Refusal {
    ghost use Rattle.std.specs.Prelude.{Some};
    ghost use Rattle.tape_import.specs.Refusal.{refusal_message};

    ghost output = { λ refusal. Some (refusal_message refusal) };

    fn fmt<W: fmt::Write>(&self, f: &mut fmt::Formatter<W>) -> fmt::Result {
        match *self {
            Refusal::Form(fault) => write!(f, "{fault}"),
            Refusal::Event(at, fault) => {
                write!(f, "{}{}: {}", at.place.text(), at.number, fault.text())
            }
            Refusal::Ends(chunk) => write!(f, "recording ends inside chunk {chunk}"),
        }
    }
}

impl std::error::Error for Refusal {}

/// Messages that begin late are out of order in the line of the first one.
fn late_fault(late: Late) -> Refusal
    ensures { result ≡ late_fault late }
{
    let at = At {
        place: Place::Line,
        number: late.line,
    };
    Refusal::Event(at, EventFault::OutOfOrder)
}

/// Reading ended before this line, entry or record.
fn left_fault(left: Left) -> Refusal
    ensures { result ≡ left_fault left }
{
    let at = At {
        place: left.place,
        number: left.number,
    };
    Refusal::Event(at, left.fault)
}

/// The first fault in the file's order.
fn first_fault(losses: &Losses) -> Option<Refusal>
    ensures { result ≡ first_fault losses.now }
{
    if let Some(late) = losses.first {
        return Some(late_fault(late));
    }
    if let Some(at) = losses.first_slow {
        return Some(Refusal::Event(at, EventFault::DelayTooLarge));
    }
    if let Some(left) = losses.left {
        return Some(left_fault(left));
    }
    losses.cut.map(|cut| Refusal::Ends(cut.chunk))
}

/// Reads a recording in any form that is known, for a command that takes it in place of a pair: all of it, as `import`
/// does; or tells the first fault in the file's order, `out of order` where the messages of tlog begin late, `delay too
/// large` where `import` cuts one. Changes of size that have no place in a pair are counted, and refuse nothing, as other
/// events. Refused also for want of memory.
pub fn import_whole(alloc: Global, file: &Rc<Vec<u8>>) -> Result<Whole, Refusal>
    ensures whole { IfOk result (λ whole. IsWhole (import_of file.now.value.items)
        whole.recording whole.resizes) }
    ensures refusal { IfErr result (λ r. r ≢ refusal.Form fault.OutOfMemory
        → refusal_of (import_of file.now.value.items) ≡ Some r) }
{
    let Imported { recording, losses } = match import(alloc, file) {
        Ok(imported) => imported,
        Err(fault) => return Err(Refusal::Form(fault)),
    };
    match first_fault(&losses) {
        Some(refusal) => Err(refusal),
        None => Ok(Whole {
            recording,
            resizes: losses.others.resizes,
        }),
    }
}
