//! What is printed of a row.

ghost use Rattle.std.specs.Prelude.{◌≡◌, encode_utf8};
ghost use Rattle.std.specs.List.{flat_map};
ghost use Rattle.sheet.specs.Grid.{IsUsed};
ghost use Rattle.tape_core.specs.Devices.{Gave};
ghost use Rattle.xterm_rows.specs.RowText.{printed, printed_line};

use sheet::Cell;
use std::io::Write;
use tape_core::Watched;
use tape_core::laws::gives_join;
use xterm_rows::{is_letter, trimmed};

/// Prints a row in UTF-8 without the spaces at its end, and LF. Behind so many cells all are blank, so they are spaces.
#[tactic(auto, using(xterm_rows::proofs::TrimmedLemmas::trimmed_used), unfolding(xterm_rows::specs::RowText::printed_line))]
pub fn put_row<W: Write>(cells: &[Cell], used: usize, writer: &mut Watched<W>)
    requires { IsUsed cells.now used }
    ensures { Gave W.contents writer.old writer.new (printed_line cells.now) }
{
    gives_join::<W>();
    put_cells(trimmed(&cells[..used]), writer);
    writer.give(b"\n");
}

/// Prints cells, each character by itself: what a writer that fails has taken depends on what it is given at once.
fn put_cells<W: Write>(cells: &[Cell], writer: &mut Watched<W>)
    ensures { Gave W.contents writer.old writer.new (flat_map printed cells.now) }
{
    gives_join::<W>();
    for cell in cells {
        put_cell(*cell, writer);
    }
}

/// Prints a cell in UTF-8: its character and its marks, or nothing of a right half.
pub fn put_cell<W: Write>(cell: Cell, writer: &mut Watched<W>)
    ensures { Gave W.contents writer.old writer.new (printed cell) }
{
    gives_join::<W>();
    if is_letter(cell) {
        writer.give(&[cell.ascii()]);
        return;
    }
    if cell.is_covered() {
        return;
    }
    put_character(cell.character(), writer);
    for n in 0..cell.mark_count() {
        put_character(cell.mark(n), writer);
    }
}

/// Prints a character.
fn put_character<W: Write>(character: char, writer: &mut Watched<W>)
    ensures { Gave W.contents writer.old writer.new (encode_utf8 character) }
{
    writer.give(character.encode_utf8(&mut [0; 4]).as_bytes());
}
