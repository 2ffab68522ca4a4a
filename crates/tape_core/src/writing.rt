//! A recording written as its two files.
ghost use Rattle.std.specs.Prelude.{◌≡◌, ◌≤◌, ◌++◌, [], ◌∷◌, true, false, drop, length, OnOk};
ghost use Rattle.std.specs.Fmt.{decimal};
ghost use Rattle.tape_core.specs.Devices.{Gave, Puts, has_failed, is_flushed};
ghost use Rattle.tape_core.specs.Tape.{body};
ghost use Rattle.tape_core.specs.Written.{script_text, seconds_form, timing_line_of, timing_text};

use crate::chunk::Chunk;
use crate::devices::Watched;
use crate::fault::Fault;
use crate::laws::gives_join;
use crate::recording::Recording;
use crate::seconds_form::write_seconds;
use itoa::write_digits;
use std::io::Write;

/// The most bytes that a timing line takes: seconds, a space, 20 digits and LF.
const LONGEST_LINE: usize = 43;

/// Writes the typescript: header, chunk bytes and trailer. Takes no memory. After a write fault a
/// beginning of it has gone out. script(1).
#[tactic(auto, unfolding(crate::specs::Written::script_text))]
pub fn write_script<W: Write>(recording: &Recording, writer: &mut Watched<W>) -> Result<(), Fault>
    requires { has_failed writer.old ≡ false }
    ensures puts { Puts W.contents writer.old writer.new (script_text recording.now) result }
    ensures flushed { OnOk result (is_flushed writer.new ≡ true) }
{
    gives_join::<W>();
    writer.give(recording.header());
    give_chunks(recording.chunks(), writer);
    writer.give(recording.trailer());
    writer.settle()
}

/// Writes the timing file: a line for each chunk. Takes no memory. After a write fault a beginning of
/// it has gone out. script(1).
#[tactic(auto, unfolding(crate::specs::Written::timing_text))]
pub fn write_timing<W: Write>(recording: &Recording, writer: &mut Watched<W>) -> Result<(), Fault>
    requires { has_failed writer.old ≡ false }
    ensures puts { Puts W.contents writer.old writer.new (timing_text recording.now) result }
    ensures flushed { OnOk result (is_flushed writer.new ≡ true) }
{
    gives_join::<W>();
    for chunk in recording.chunks() {
        give_line(chunk, writer);
    }
    writer.settle()
}

/// Writes the bytes of the chunks, one after another, and doesn't flush. Takes no memory.
pub fn give_chunks<W: Write>(chunks: &[Chunk], writer: &mut Watched<W>)
    ensures { Gave W.contents writer.old writer.new (body chunks.now) }
{
    gives_join::<W>();
    for chunk in chunks {
        writer.give(chunk.bytes.as_slice());
    }
}

/// Writes one timing line.
fn give_line<W: Write>(chunk: &Chunk, writer: &mut Watched<W>)
    ensures { Gave W.contents writer.old writer.new (timing_line_of chunk.now) }
{
    let mut line = [0; LONGEST_LINE];
    let start = write_line(chunk.delay, chunk.bytes.len() as u64, &mut line);
    writer.give(&line[start..]);
}

/// Writes a timing line so that it ends with the buffer, and returns where it starts.
fn write_line(delay: u64, count: u64, buf: &mut [u8]) -> usize
    requires { length buf.old ≡ LONGEST_LINE }
    ensures start { result ≤ length buf.new }
    ensures written { drop result buf.new ≡ seconds_form delay ++ 32 ∷ decimal count ++ 10 ∷ [] }
{
    let end = buf.len() - 1;
    buf[end] = b'\n';
    let space = write_digits(count, buf, end) - 1;
    buf[space] = b' ';
    write_seconds(delay, buf, space)
}
