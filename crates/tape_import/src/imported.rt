//! A recording of another form, imported.
ghost use Rattle.std.specs.Prelude.{◌≡◌, ◌≤◌, IfOk, drop, length, true};
ghost use Rattle.tape_import.specs.Form.{is_ttyrec};
ghost use Rattle.tape_import.specs.Imported.{Import, Imports, bytes_left, import_of_ttyrec, slow_at, ttyrec_facts, ttyrec_losses};
ghost use Rattle.tape_import.specs.Kept.{CanBeTold};
ghost use Rattle.tape_import.specs.Ttyrec.{head_len};

use crate::facts::Facts;
use crate::fault::EventFault;
use crate::header::header_of;
use crate::losses::{At, Left, Losses, Others, Place};
use crate::timeline::Timeline;
use crate::ttyrec::{Front, first_date, first_size, read_records};
use std::alloc::{AllocError, Global};
use std::rc::Rc;
use tape_core::{Bytes, Recording};

/// A recording of all that could be read of a file, and what was lost.
#[derive(Debug, Drop)]
pub struct Imported {
    pub recording: Recording,
    pub losses: Losses,
}

/// What is left out from an entry or a record on, behind so many others.
pub fn bytes_left(number: u64, fault: Option<EventFault>, count: u64) -> Option<Left>
    ensures { result ≡ bytes_left number fault count }
{
    fault.map(|fault| Left {
        place: Place::Event,
        number,
        fault,
        count,
    })
}

/// Where the first delay stands that was cut, of outputs that stand at such places.
pub fn slow_at(place: Place, outputs: &Timeline) -> Option<At>
    ensures { result ≡ slow_at place outputs.now }
{
    outputs.first_slow().map(|number| At { place, number })
}

/// What a ttyrec tells of itself, of which this was read.
fn facts_of(text: &[u8], front: &Front) -> Facts
    requires { head_len ≤ length text.now }
    ensures facts { result ≡ ttyrec_facts text.now front.now }
    ensures told { CanBeTold result }
{
    let date = first_date(text);
    if front.read.count == 0 {
        return Facts {
            date,
            term: None,
            size: None,
        };
    }
    Facts {
        date,
        term: None,
        size: first_size(text),
    }
}

/// What was lost of it.
fn losses_of(front: &Front) -> Losses
    ensures { result ≡ ttyrec_losses front.now }
{
    Losses {
        first: None,
        left: bytes_left(front.read.count, front.fault, front.left),
        cut: front.read.cut,
        slow: front.read.outputs.slow(),
        first_slow: slow_at(Place::Event, &front.read.outputs),
        others: Others::none(),
    }
}

/// A recording of outputs, under a header that tells these facts. Refused for want of memory alone.
pub fn imported_of(
    alloc: Global,
    facts: &Facts,
    outputs: Timeline,
    losses: Losses,
) -> Result<Imported, AllocError>
    requires { CanBeTold facts.now }
    ensures { IfOk result (λ imported.
        let what : Import = record { facts = facts.now; chunks = outputs.chunks; losses = losses } in
        Imports what imported.recording imported.losses) }
{
    let header = header_of(alloc, facts)?;
    let chunks = outputs.into_chunks();
    let trailer = Bytes::from_vec(Vec::new(alloc));
    let recording = Recording::from_parts(alloc, header, chunks, trailer)?;
    Ok(Imported { recording, losses })
}

/// Reads what can be read of a ttyrec that begins at a place of the file, which the chunks then share. Refused for want
/// of memory alone.
pub fn import_ttyrec(
    alloc: Global,
    file: &Rc<Vec<u8>>,
    start: usize,
) -> Result<Imported, AllocError>
    requires within { start ≤ length file.now.value.items }
    requires form { is_ttyrec (drop start file.now.value.items) ≡ true }
    ensures { IfOk result (λ imported. Imports (import_of_ttyrec (drop start file.now.value.items))
        imported.recording imported.losses) }
{
    let front = read_records(alloc, file, start)?;
    let facts = facts_of(&file[start..], &front);
    let losses = losses_of(&front);
    imported_of(alloc, &facts, front.read.outputs, losses)
}
