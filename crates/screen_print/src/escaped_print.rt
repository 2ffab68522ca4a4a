//! The escaped print: what stands on the screen, as a text that draws it again on a reset terminal.

ghost use Rattle.std.specs.Prelude.{◌≡◌, ◌≤◌, ◌++◌, ◌+◌, ◌*◌, length, OnOk, true, false, decimal};
ghost use Rattle.tape_core.specs.Devices.{Gave, Puts, has_failed, is_flushed};
ghost use Rattle.screen_print.specs.EscapedText.{first_pen, opening_text, closing_text, lines_text, line_text, pen_after_line, placed_text, size_text, cells_text, pen_after, is_left_out, cell_text, pen_of, rendition_set_text, slot_text, slot_for, byte_for, escaped_text};
ghost use Rattle.screen_rows.specs.Ink.{inked};

use arrayvec::ArrayVec;
use itoa::Buffer;
use screen_rows::{inked, push_bytes, push_bytes_where};
use std::io::Write;
use tape_core::laws::gives_join;
use tape_core::{Fault, Watched};
use vt_screen::laws::screens_are_sound;
use vt_screen::limits::{LINES, WIDE_COLUMNS};
use vt_screen::{Cell, Rendition, Row, Screen, Size};
use vt_term::{Slot, Terminal};

/// How many bytes a line has at most: 10 for its place, 3 for its size, and 14 for each of 132 cells.
pub const LINE_BYTES: usize = 1861;

/// What is in force as the text goes on: the rendition that was written last, and the slot that is invoked.
#[derive(Clone, Copy, PartialEq, Eq)]
struct Pen {
    rendition: Rendition,
    invoked: Slot,
}

impl Pen {
    /// No rendition, and G0.
    fn first() -> Self
        ensures { result ≡ first_pen }
    {
        Pen {
            rendition: Rendition::plain(),
            invoked: Slot::G0,
        }
    }
}

/// Writes a text that draws on a reset terminal the columns, sizes, cells, reversed flag and cursor
/// that this one shows. It takes no memory, and ends without an LF. After a write fault a beginning of
/// the text has gone out.
#[tactic(auto, unfolding(crate::specs::EscapedText::escaped_text))]
pub fn escaped<W: Write>(terminal: &Terminal, writer: &mut Watched<W>) -> Result<(), Fault>
    requires { has_failed writer.old ≡ false }
    ensures puts { Puts W.contents writer.old writer.new
        (escaped_text terminal.now.console) result }
    ensures flushed { OnOk result (is_flushed writer.new ≡ true) }
{
    gives_join::<W>();
    writer.give(opening_text(terminal).as_slice());
    put_lines(terminal.screen(), writer);
    writer.give(closing_text(terminal.screen()).as_slice());
    writer.settle()
}

/// Writes the lines.
pub fn put_lines<W: Write>(screen: &Screen, writer: &mut Watched<W>)
    ensures { Gave W.contents writer.old writer.new
        (lines_text first_pen 1 screen.now.picture.rows) }
{
    gives_join::<W>();
    screens_are_sound(screen);
    let mut pen = Pen::first();
    for line in 1..LINES + 1 {
        writer.give(line_text(line, screen.row(line), &mut pen).as_slice());
    }
}

/// Modes and sets, before the lines.
fn opening_text(terminal: &Terminal) -> ArrayVec<u8, LINE_BYTES>
    ensures { result.items ≡ opening_text terminal.now.console }
{
    let mut text = ArrayVec::new();
    push_bytes_where(
        &mut text,
        terminal.screen().columns() == WIDE_COLUMNS,
        b"\x1b[?3h",
    );
    push_bytes_where(&mut text, terminal.modes().reverse_screen, b"\x1b[?5h");
    push_bytes(&mut text, b"\x1b[?7l\x1b)0");
    text
}

/// What is set back, and the cursor's place.
fn closing_text(screen: &Screen) -> ArrayVec<u8, LINE_BYTES>
    ensures { result.items ≡ closing_text screen.now.picture.line screen.now.picture.column }
{
    let (line, column) = screen.cursor();
    let mut text = ArrayVec::new();
    push_bytes(&mut text, b"\x1b[0m\x0f\x1b[?7h");
    push_place(&mut text, line, column);
    text
}

/// A line, and what is in force after it.
fn line_text(line: u8, row: &Row, pen: &mut Pen) -> ArrayVec<u8, LINE_BYTES>
    requires high { line ≤ LINES }
    requires whole { length row.now.cells ≡ WIDE_COLUMNS }
    ensures text { result.items ≡ line_text pen.old line row.now }
    ensures pen { pen.new ≡ pen_after_line pen.old row.now }
{
    let cells = inked(&row.cells);
    let mut text = ArrayVec::new();
    if !is_left_out(row.size, cells) {
        push_place(&mut text, line, 1);
        push_size(&mut text, row.size);
        push_cells(&mut text, cells, pen);
    }
    text
}

/// Whether nothing is written of a line.
fn is_left_out(size: Size, cells: &[Cell]) -> bool
    ensures { result ≡ is_left_out size cells.now }
{
    size.is_single() && cells.is_empty()
}

/// CUP.
pub fn push_place(text: &mut ArrayVec<u8, LINE_BYTES>, line: u8, column: u8)
    requires room { length text.old.items + 10 ≤ LINE_BYTES }
    ensures text { text.new.items ≡ text.old.items ++ placed_text line column }
    ensures short { length text.new.items ≤ length text.old.items + 10 }
{
    push_bytes(text, b"\x1b[");
    push_number(text, line);
    text.push(b';');
    push_number(text, column);
    text.push(b'H');
}

/// A number in decimal.
fn push_number(text: &mut ArrayVec<u8, LINE_BYTES>, number: u8)
    requires room { length text.old.items + 3 ≤ LINE_BYTES }
    ensures text { text.new.items ≡ text.old.items ++ decimal number }
    ensures short { length text.new.items ≤ length text.old.items + 3 }
{
    push_bytes(text, Buffer::new().format(number).as_bytes());
}

/// DECDHL and DECDWL.
fn push_size(text: &mut ArrayVec<u8, LINE_BYTES>, size: Size)
    requires room { length text.old.items + 3 ≤ LINE_BYTES }
    ensures text { text.new.items ≡ text.old.items ++ size_text size }
    ensures short { length text.new.items ≤ length text.old.items + 3 }
{
    match size {
        Size::Single => {}
        Size::Top => push_bytes(text, b"\x1b#3"),
        Size::Bottom => push_bytes(text, b"\x1b#4"),
        Size::Double => push_bytes(text, b"\x1b#6"),
    }
}

/// Cells in turn.
fn push_cells(text: &mut ArrayVec<u8, LINE_BYTES>, cells: &[Cell], pen: &mut Pen)
    requires { length text.old.items + 14 * length cells.now ≤ LINE_BYTES }
    ensures text { text.new.items ≡ text.old.items ++ cells_text pen.old cells.now }
    ensures pen { pen.new ≡ pen_after pen.old cells.now }
{
    for cell in cells {
        push_cell(text, *cell, pen);
    }
}

/// The text of a cell is pushed, and its pen is in force then.
fn push_cell(text: &mut ArrayVec<u8, LINE_BYTES>, cell: Cell, pen: &mut Pen)
    requires room { length text.old.items + 14 ≤ LINE_BYTES }
    ensures text { text.new.items ≡ text.old.items ++ cell_text pen.old cell }
    ensures short { length text.new.items ≤ length text.old.items + 14 }
    ensures pen { pen.new ≡ pen_of cell }
{
    if pen.rendition != cell.rendition {
        push_rendition(text, cell.rendition);
    }
    push_slot(text, pen.invoked, slot_for(cell.glyph));
    text.push(byte_for(cell.glyph));
    *pen = Pen {
        rendition: cell.rendition,
        invoked: slot_for(cell.glyph),
    };
}

/// SGR of a rendition, after none.
pub fn push_rendition(text: &mut ArrayVec<u8, LINE_BYTES>, rendition: Rendition)
    requires { length text.old.items + 12 ≤ LINE_BYTES }
    ensures { text.new.items ≡ text.old.items ++ rendition_set_text rendition }
{
    push_bytes(text, b"\x1b[0");
    push_bytes_where(text, rendition.bold(), b";1");
    push_bytes_where(text, rendition.underscore(), b";4");
    push_bytes_where(text, rendition.blink(), b";5");
    push_bytes_where(text, rendition.reverse(), b";7");
    text.push(b'm');
}

/// SO or SI, where the slot isn't the one invoked.
fn push_slot(text: &mut ArrayVec<u8, LINE_BYTES>, last: Slot, next: Slot)
    requires { length text.old.items + 1 ≤ LINE_BYTES }
    ensures { text.new.items ≡ text.old.items ++ slot_text last next }
{
    match (last, next) {
        (Slot::G0, Slot::G1) => text.push(14),
        (Slot::G1, Slot::G0) => text.push(15),
        _ => {}
    }
}

/// The slot whose set has a glyph.
pub fn slot_for(glyph: u8) -> Slot
    ensures { result ≡ slot_for glyph }
{
    if glyph < 32 { Slot::G1 } else { Slot::G0 }
}

/// The byte of a glyph in the set of its slot.
pub fn byte_for(glyph: u8) -> u8
    ensures { result ≡ byte_for glyph }
{
    if glyph < 32 { 95 + glyph } else { glyph }
}
