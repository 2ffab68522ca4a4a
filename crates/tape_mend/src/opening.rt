//! Where a recording begins in a typescript.
ghost use Rattle.std.specs.Prelude.{◌≡◌, ◌≢◌, ◌≤◌, IfErr, IfOk, drop, false, length};
ghost use Rattle.tape_core.specs.Reading.{has_header};
ghost use Rattle.tape_core.specs.declared.fault.Fault.TheVariants as fault;
ghost use Rattle.tape_mend.specs.Mended.{begins_session, last_session, seen};
ghost use Rattle.tape_mend.specs.Steps.{IsOpening};

use std::alloc::Global;
use std::rc::Rc;
use tape_core::text::position_of;
use tape_core::{Bytes, Fault};

/// Which line is taken as the header. script(1).
#[derive(Clone, Copy, Debug, PartialEq, Eq)]
pub enum Header {
    /// The first line, whatever it says.
    Kept,
    /// The last line, not the first, with which a session begins: for a typescript that was appended to, whose timing
    /// is that of the last session.
    Last,
    /// A line that is put before the typescript, which has none.
    Made,
}

/// A line with which `script` begins a session, behind the LF before it.
const SESSION: &[u8] = b"\nScript started on ";

/// The header that is made for a typescript that has none.
const MADE: &[u8] = b"Script started\n";

/// A header, and where in the typescript the bytes behind it begin.
#[derive(Drop)]
pub struct Opening {
    pub header: Bytes,
    pub start: usize,
}

/// Whether a line with which a session begins stands behind an LF at this place.
fn begins_session_at(script: &[u8], at: usize) -> bool
    requires { at ≤ length script.now }
    ensures { result ≡ begins_session script.now at }
{
    script[at..].starts_with(SESSION)
}

/// Where the last session begins, or 0 where only one does.
fn last_session_of(script: &[u8]) -> usize
    ensures last { result ≡ last_session script.now }
    ensures within { result ≤ length script.now }
{
    let mut last = 0;
    for at in 0..script.len() {
        if begins_session_at(script, at) {
            last = at + 1;
        }
    }
    last
}

/// The header that begins at a place.
fn header_at(script: &Rc<Vec<u8>>, from: usize) -> Result<Opening, Fault>
    requires { from ≤ length script.now.value.items }
    ensures ok { IfOk result (λ o. IsOpening (drop from script.now.value.items)
        script.now.value.items o.header o.start) }
    ensures fault { IfErr result (λ f. f ≢ fault.OutOfMemory
        → (f ≡ fault.NoHeader) × (has_header (drop from script.now.value.items) ≡ false)) }
{
    let end = from + position_of(&script[from..], b'\n');
    if end == script.len() {
        return Err(Fault::NoHeader);
    }
    let start = end + 1;
    let header = Bytes::part_of(script, from, start - from)?;
    Ok(Opening { header, start })
}

/// The header, and where the bytes behind it begin.
pub fn open_at(alloc: Global, script: &Rc<Vec<u8>>, how: Header) -> Result<Opening, Fault>
    ensures ok { IfOk result (λ o. IsOpening (seen how script.now.value.items)
        script.now.value.items o.header o.start) }
    ensures fault { IfErr result (λ f. f ≢ fault.OutOfMemory
        → (f ≡ fault.NoHeader) × (has_header (seen how script.now.value.items) ≡ false)) }
{
    match how {
        Header::Kept => header_at(script, 0),
        Header::Last => header_at(script, last_session_of(script)),
        Header::Made => Ok(Opening {
            header: Bytes::copy_of(alloc, MADE)?,
            start: 0,
        }),
    }
}
