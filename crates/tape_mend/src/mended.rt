//! A pair of files, mended.
ghost use Rattle.std.specs.Prelude.{◌≡◌, ◌≢◌, IfErr, IfOk, OnOk, false, true};
ghost use Rattle.tape_core.specs.Reading.{has_header};
ghost use Rattle.tape_core.specs.declared.fault.Fault.TheVariants as fault;
ghost use Rattle.tape_mend.specs.Front.{is_sudos};
ghost use Rattle.tape_mend.specs.Mended.{lines_left, mended, seen};

use crate::front::{is_sudos, read_front};
use crate::line::LineFault;
use crate::lines::has_cr_lf;
use crate::losses::{LinesLeft, Losses};
use crate::opening::{Header, open_at};
use crate::taken::take_pieces;
use std::alloc::{AllocError, Global};
use std::rc::Rc;
use tape_core::{Bytes, Fault, Recording};

/// A recording of all that could be read of a pair of files, what was lost, and whether the timing file was in sudo's
/// format.
#[derive(Debug, Drop)]
pub struct Mended {
    pub recording: Recording,
    pub losses: Losses,
    pub sudo: bool,
}

/// The text, to be shared.
fn shared(alloc: Global, text: Vec<u8>) -> Result<Rc<Vec<u8>>, AllocError>
    ensures { IfOk result (λ shared. shared.value ≡ text) }
{
    Ok(Rc::new(alloc, text)?)
}

/// The lines that were left out, from the first one on.
fn lines_left(line: u64, fault: Option<LineFault>, count: u64) -> Option<LinesLeft>
    ensures { result ≡ lines_left line fault count }
{
    fault.map(|fault| LinesLeft { line, fault, count })
}

/// Reads what can be read of a typescript, which the chunks then share, and of its timing file in any of its formats: the
/// lines before the first that has a fault, and as much of what they count as stands in the typescript. Written, the
/// recording is read again without a fault. Refused where the typescript has no header line, and for want of memory.
pub fn mend(alloc: Global, script: Vec<u8>, timing: &[u8], how: Header) -> Result<Mended, Fault>
    ensures ok { IfOk result (λ m.
        mended how script.items timing.now ≡ record { tape = m.recording; losses = m.losses }) }
    ensures sudo { IfOk result (λ m. m.sudo ≡ is_sudos timing.now) }
    ensures header { OnOk result (has_header (seen how script.items) ≡ true) }
    ensures fault { IfErr result (λ f. f ≢ fault.OutOfMemory
        → (f ≡ fault.NoHeader) × (has_header (seen how script.items) ≡ false)) }
{
    let script = shared(alloc, script)?;
    let opening = open_at(alloc, &script, how)?;
    let front = read_front(alloc, timing)?;
    let taken = take_pieces(alloc, &script, opening.start, &front.pieces)?;
    let trailer = Bytes::part_of(&script, taken.rest, script.len() - taken.rest)?;
    let recording = Recording::from_parts(alloc, opening.header, taken.chunks, trailer)?;
    let losses = Losses {
        lines: lines_left(front.behind.lines + 1, front.fault, front.left),
        inputs: front.behind.inputs,
        signals: front.behind.signals,
        pipes: front.behind.pipes,
        resizes: front.behind.resizes,
        cut: taken.cut,
        chunks: taken.left,
        cr_lf: has_cr_lf(timing),
    };
    Ok(Mended {
        recording,
        losses,
        sudo: is_sudos(timing),
    })
}
