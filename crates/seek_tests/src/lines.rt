//! What visits the chunks of a strip, and writes a line of each: its place, when it is due, and the cells before it and
//! after it.
ghost use Rattle.std.specs.Prelude.{◌≡◌, ◌∷◌, ◌++◌};
ghost use Rattle.std.specs.Fmt.{decimal};
ghost use Rattle.tape_core.specs.Devices.{Gave};
ghost use Rattle.tape_core.specs.Written.{seconds_form};
ghost use Rattle.seek_tests.specs.Lines.{chunk_line};

use crate::strip::Strip;
use chunk_walk::Visitor;
use itoa::Buffer;
use plays::OutOfMemory;
use std::alloc::Global;
use std::io::Write;
use tape_core::laws::gives_join;
use tape_core::{Watched, seconds_text};
use tape_seek::Session;

/// Writes a line of each chunk. What it keeps is a copy of the cells.
#[derive(Drop)]
pub struct Lines {
    pub alloc: Global,
}

impl Visitor<Strip> for Lines {
    ghost use Rattle.std.specs.Prelude.{◌≡◌};
    ghost use Rattle.seek_tests.specs.Lines.{cells_by, line_by};

    type Kept = Vec<u8>;

    ghost text = { λ _. line_by };

    ghost keeps = { λ setup kept bytes. kept.items ≡ cells_by setup bytes };

    ghost takes_none = { ⊥ };

    fn go_to(session: &mut Session<Strip>, count: usize) -> Result<(), OutOfMemory> {
        session.play_to_count(count)?;
        Ok(())
    }

    fn keep(&self, strip: &Strip) -> Result<Vec<u8>, OutOfMemory> {
        Ok(Vec::from_slice(self.alloc, strip.cells())?)
    }

    fn visit<W: Write>(
        &self,
        index: usize,
        due: u64,
        kept: &mut Vec<u8>,
        strip: &Strip,
        writer: &mut Watched<W>,
    ) -> Result<(), OutOfMemory> {
        let cells = self.keep(strip)?;
        put_line(index, due, kept.as_slice(), cells.as_slice(), writer);
        *kept = cells;
        Ok(())
    }
}

/// Writes the line of a chunk.
fn put_line<W: Write>(index: usize, due: u64, before: &[u8], after: &[u8], writer: &mut Watched<W>)
    ensures { Gave W.contents writer.old writer.new (chunk_line index due before.now after.now) }
{
    gives_join::<W>();
    put_place(index, due, writer);
    writer.give_all(&[b" ", before, b" "]);
    writer.give_all(&[after, b"\n"]);
}

/// Writes a chunk's place and when it is due.
fn put_place<W: Write>(index: usize, due: u64, writer: &mut Watched<W>)
    ensures { Gave W.contents writer.old writer.new
        (decimal index ++ 32 ∷ seconds_form due) }
{
    let mut digits = Buffer::new();
    let index = digits.format(index).as_bytes();
    writer.give_all(&[index, b" ", seconds_text(due).as_bytes()]);
}
