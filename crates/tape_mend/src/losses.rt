//! What was lost of a recording, and how it is told.
ghost use Rattle.std.specs.Prelude.{◌≡◌, false};
ghost use Rattle.tape_core.specs.Devices.{Gave, Puts, has_failed};
ghost use Rattle.tape_mend.specs.Steps.{what_is_wrong};
ghost use Rattle.tape_mend.specs.Told.{body_losses, chunks_line, chunks_text, cr_lf_text, cut_text, is_damaged, lines_text, losses_text, pipes_line, pipes_text, streams_line, streams_text, timing_losses};

use crate::line::LineFault;
use itoa::Buffer;
use std::io::Write;
use tape_core::laws::gives_join;
use tape_core::{Fault, Watched};

/// The lines of a timing file that were left out: the number of the first one, counted from 1, its fault, and how many
/// they are, up to the file's end.
#[derive(Clone, Copy, Debug)]
pub struct LinesLeft {
    pub line: u64,
    pub fault: LineFault,
    pub count: u64,
}

/// A chunk that was cut: its place, counted from 0, how many bytes it has kept, and how many the timing counts.
#[derive(Clone, Copy, Debug)]
pub struct Cut {
    pub chunk: u64,
    pub kept: u64,
    pub counted: u64,
}

/// What was lost: lines of the timing; inputs and signals, for which the classic format has no place; outputs to pipes and
/// changes of the size, which sudo logs; bytes of the last chunk; chunks; and whether lines of the timing end in CR LF,
/// which loses nothing.
#[derive(Clone, Copy, Debug)]
pub struct Losses {
    pub lines: Option<LinesLeft>,
    pub inputs: u64,
    pub signals: u64,
    pub pipes: u64,
    pub resizes: u64,
    pub cut: Option<Cut>,
    pub chunks: u64,
    pub cr_lf: bool,
}

impl Losses {
    /// Whether a line, a chunk, an output to a pipe or a change of the size was left out, or a chunk was cut, and not just
    /// inputs and signals, or a CR.
    pub fn is_damaged(&self) -> bool
        ensures { result ≡ is_damaged self.now }
    {
        self.lines.is_some()
            || self.cut.is_some()
            || self.chunks != 0
            || !(self.pipes == 0 && self.resizes == 0)
    }
}

impl LineFault {
    /// What is told of it behind the line's number.
    fn text(self) -> &'static [u8]
        ensures { result.now ≡ what_is_wrong self }
    {
        match self {
            LineFault::BadStream => b": bad stream",
            LineFault::BadDelay => b": bad delay",
            LineFault::BadCount => b": bad count",
            LineFault::MultiStream => b": multi-stream format",
            LineFault::DelayTooLarge => b": delay too large",
            LineFault::ChunkTooLong => b": chunk too long",
            LineFault::TooManyChunks => b": too many chunks",
            LineFault::TooManyBytes => b": too many bytes",
        }
    }
}

/// Writes what was lost, a line for each kind of loss, and doesn't flush. Takes no memory. After a write fault a
/// beginning of it has gone out (ours).
#[tactic(auto, unfolding(crate::specs::Told::losses_text))]
pub fn put_losses<W: Write>(losses: &Losses, writer: &mut Watched<W>) -> Result<(), Fault>
    requires { has_failed writer.old ≡ false }
    ensures { Puts W.contents writer.old writer.new (losses_text losses.now) result }
{
    gives_join::<W>();
    put_timing_losses(losses, writer);
    put_body_losses(losses, writer);
    put_cr_lf(losses.cr_lf, writer);
    writer.ask()
}

/// Writes what the timing has lost.
fn put_timing_losses<W: Write>(losses: &Losses, writer: &mut Watched<W>)
    ensures { Gave W.contents writer.old writer.new (timing_losses losses.now) }
{
    gives_join::<W>();
    put_lines(losses.lines, writer);
    put_streams(losses.inputs, losses.signals, writer);
    put_pipes(losses.pipes, losses.resizes, writer);
}

/// Writes what the body has lost.
fn put_body_losses<W: Write>(losses: &Losses, writer: &mut Watched<W>)
    ensures { Gave W.contents writer.old writer.new (body_losses losses.now) }
{
    gives_join::<W>();
    put_cut(losses.cut, writer);
    put_chunks(losses.chunks, writer);
}

/// Writes which lines were left out.
fn put_lines<W: Write>(left: Option<LinesLeft>, writer: &mut Watched<W>)
    ensures { Gave W.contents writer.old writer.new (lines_text left) }
{
    gives_join::<W>();
    let Some(left) = left else {
        return;
    };
    writer.give_all(&[
        b"timing line ",
        Buffer::new().format(left.line).as_bytes(),
        left.fault.text(),
        b", ",
        Buffer::new().format(left.count).as_bytes(),
        b" lines left out\n",
    ]);
}

/// Writes how many inputs and signals were left out, where any were.
fn put_streams<W: Write>(inputs: u64, signals: u64, writer: &mut Watched<W>)
    ensures { Gave W.contents writer.old writer.new (streams_text inputs signals) }
{
    gives_join::<W>();
    if inputs == 0 && signals == 0 {
        return;
    }
    put_streams_line(inputs, signals, writer);
}

/// Writes how many inputs and signals were left out.
fn put_streams_line<W: Write>(inputs: u64, signals: u64, writer: &mut Watched<W>)
    ensures { Gave W.contents writer.old writer.new (streams_line inputs signals) }
{
    writer.give_all(&[
        Buffer::new().format(inputs).as_bytes(),
        b" inputs and ",
        Buffer::new().format(signals).as_bytes(),
        b" signals left out\n",
    ]);
}

/// Writes how many outputs to pipes and changes of the size were left out, where any were.
fn put_pipes<W: Write>(pipes: u64, resizes: u64, writer: &mut Watched<W>)
    ensures { Gave W.contents writer.old writer.new (pipes_text pipes resizes) }
{
    gives_join::<W>();
    if pipes == 0 && resizes == 0 {
        return;
    }
    put_pipes_line(pipes, resizes, writer);
}

/// Writes how many outputs to pipes and changes of the size were left out.
fn put_pipes_line<W: Write>(pipes: u64, resizes: u64, writer: &mut Watched<W>)
    ensures { Gave W.contents writer.old writer.new (pipes_line pipes resizes) }
{
    writer.give_all(&[
        Buffer::new().format(pipes).as_bytes(),
        b" outputs to pipes and ",
        Buffer::new().format(resizes).as_bytes(),
        b" resizes left out\n",
    ]);
}

/// Writes which chunk was cut.
fn put_cut<W: Write>(cut: Option<Cut>, writer: &mut Watched<W>)
    ensures { Gave W.contents writer.old writer.new (cut_text cut) }
{
    gives_join::<W>();
    let Some(cut) = cut else {
        return;
    };
    writer.give_all(&[
        b"chunk ",
        Buffer::new().format(cut.chunk).as_bytes(),
        b" cut to ",
        Buffer::new().format(cut.kept).as_bytes(),
        b" of ",
        Buffer::new().format(cut.counted).as_bytes(),
        b" bytes\n",
    ]);
}

/// Writes how many chunks were left out, where any were.
fn put_chunks<W: Write>(count: u64, writer: &mut Watched<W>)
    ensures { Gave W.contents writer.old writer.new (chunks_text count) }
{
    gives_join::<W>();
    if count == 0 {
        return;
    }
    put_chunks_line(count, writer);
}

/// Writes how many chunks were left out.
fn put_chunks_line<W: Write>(count: u64, writer: &mut Watched<W>)
    ensures { Gave W.contents writer.old writer.new (chunks_line count) }
{
    writer.give_all(&[
        Buffer::new().format(count).as_bytes(),
        b" chunks left out\n",
    ]);
}

/// Writes that lines of the timing end in CR LF, where some do.
fn put_cr_lf<W: Write>(cr_lf: bool, writer: &mut Watched<W>)
    ensures { Gave W.contents writer.old writer.new (cr_lf_text cr_lf) }
{
    gives_join::<W>();
    if cr_lf {
        writer.give(b"timing has CR LF\n");
    }
}
