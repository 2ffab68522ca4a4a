//! What the state text begins with: the terminal anew, its tab stops, and its sheets with what is saved of them.

ghost use Rattle.std.specs.Prelude.{◌≡◌, ◌≤◌};
ghost use Rattle.tape_core.specs.Devices.{Gave};
ghost use Rattle.sheet.specs.Grid.{row_at};
ghost use Rattle.xterm_escaped.specs.EscapedText.{lines_text, no_rendition};
ghost use Rattle.xterm_state.specs.StateText.{
  anew_text,
  canvas_text,
  in_force_text,
  kept_text,
  saved_text,
  set_byte,
  sets_text,
  sheet_rows,
  sheet_text,
  sheets_text,
  slot_byte,
  stop_text,
  stops_text,
};

use sheet::{Cell, Colour, Rendition};
use std::io::Write;
use tape_core::Watched;
use tape_core::laws::gives_join;
use xterm_escaped::{put_line, put_place, put_rendition, put_where};
use xterm_screen::Screen;
use xterm_term::{CharacterSet, Saved, Sets, Slot, Terminal};

/// Writes RIS.
pub(crate) fn put_anew<W: Write>(writer: &mut Watched<W>)
    ensures { Gave W.contents writer.old writer.new anew_text }
{
    writer.give(b"\x1bc");
}

/// Writes the tab stops.
pub(crate) fn put_stops<W: Write>(screen: &Screen, writer: &mut Watched<W>)
    ensures { Gave W.contents writer.old writer.new
        (stops_text screen.now.picture.columns screen.now.picture.tabs) }
{
    gives_join::<W>();
    writer.give(b"\x1b[3g");
    for column in 1..screen.columns() + 1 {
        if screen.tab(column) {
            put_stop(column, writer);
        }
    }
}

/// Writes a tab stop.
fn put_stop<W: Write>(column: u16, writer: &mut Watched<W>)
    ensures { Gave W.contents writer.old writer.new (stop_text column) }
{
    gives_join::<W>();
    put_place(1, column, writer);
    writer.give(b"\x1bH");
}

/// Writes the main sheet, the alternate one, and which of them is shown.
pub(crate) fn put_sheets<W: Write>(terminal: &Terminal, writer: &mut Watched<W>)
    ensures { Gave W.contents writer.old writer.new (sheets_text terminal.now.console) }
{
    gives_join::<W>();
    let screen = terminal.screen();
    put_sheet(screen, false, terminal.main_saved(), writer);
    put_rendition(Rendition::plain_on(Colour::Default), writer);
    writer.give(b"\x1b[?1047h");
    put_sheet(screen, true, terminal.alternate_saved(), writer);
    put_where(!screen.is_alternate(), b"\x1b[?1047l", writer);
}

/// Writes what was saved of a sheet, and its lines.
fn put_sheet<W: Write>(
    screen: &Screen,
    alternate: bool,
    saved: Option<Saved>,
    writer: &mut Watched<W>,
)
    ensures { Gave W.contents writer.old writer.new
        (sheet_text saved (sheet_rows alternate screen.now.picture)) }
{
    gives_join::<W>();
    if let Some(saved) = saved {
        put_kept(saved, writer);
    }
    put_canvas(writer);
    put_lines(screen, alternate, writer);
}

/// Writes what is saved.
fn put_kept<W: Write>(saved: Saved, writer: &mut Watched<W>)
    ensures { Gave W.contents writer.old writer.new (kept_text saved) }
{
    gives_join::<W>();
    put_where(saved.origin, b"\x1b[?6h", writer);
    put_place(saved.line, saved.column, writer);
    put_where(saved.wrap, b" ", writer);
    let Saved {
        rendition,
        g0,
        g1,
        invoked,
        ..
    } = saved;
    put_in_force(rendition, Sets { g0, g1, invoked }, writer);
    writer.give(b"\x1b7");
}

/// Writes what takes all of that back.
fn put_canvas<W: Write>(writer: &mut Watched<W>)
    ensures { Gave W.contents writer.old writer.new canvas_text }
{
    gives_join::<W>();
    let sets = Sets {
        g0: CharacterSet::Ascii,
        g1: CharacterSet::Ascii,
        invoked: Slot::G0,
    };
    writer.give(b"\x1b[?6l");
    put_in_force(Rendition::plain_on(Colour::Default), sets, writer);
}

/// Writes the lines of a sheet.
fn put_lines<W: Write>(screen: &Screen, alternate: bool, writer: &mut Watched<W>)
    ensures { Gave W.contents writer.old writer.new
        (lines_text no_rendition 1 (sheet_rows alternate screen.now.picture)) }
{
    gives_join::<W>();
    let _cursor = screen.cursor();
    let mut last = Rendition::plain_on(Colour::Default);
    for line in 1..screen.lines() + 1 {
        last = put_line(line, sheet_row(screen, alternate, line), last, writer);
    }
}

/// The cells of a line of the main or the alternate sheet.
fn sheet_row(screen: &Screen, alternate: bool, line: u16) -> &[Cell]
    requires low { 1 ≤ line }
    requires high { line ≤ screen.now.picture.lines }
    ensures { result.now ≡ row_at (sheet_rows alternate screen.now.picture) line }
{
    if alternate {
        screen.alternate_row(line)
    } else {
        screen.main_row(line)
    }
}

/// Writes a rendition and the sets, whatever is in force.
pub(crate) fn put_in_force<W: Write>(rendition: Rendition, sets: Sets, writer: &mut Watched<W>)
    ensures { Gave W.contents writer.old writer.new (in_force_text rendition sets) }
{
    gives_join::<W>();
    put_rendition(rendition, writer);
    put_sets(sets, writer);
}

/// Writes SCS of both slots, and SI or SO.
fn put_sets<W: Write>(sets: Sets, writer: &mut Watched<W>)
    ensures { Gave W.contents writer.old writer.new (sets_text sets) }
{
    writer.give(&[
        0x1b,
        b'(',
        set_byte(sets.g0),
        0x1b,
        b')',
        set_byte(sets.g1),
        slot_byte(sets.invoked),
    ]);
}

/// The final byte of SCS.
fn set_byte(set: CharacterSet) -> u8
    ensures { result ≡ set_byte set }
{
    match set {
        CharacterSet::Ascii => b'B',
        CharacterSet::Uk => b'A',
        CharacterSet::SpecialGraphics => b'0',
    }
}

/// SI and SO.
fn slot_byte(slot: Slot) -> u8
    ensures { result ≡ slot_byte slot }
{
    match slot {
        Slot::G0 => 15,
        Slot::G1 => 14,
    }
}
