//! What the state text has behind the sheets: the margins, the cursor, what is in force, the modes, the last character
//! and a title.

ghost use Rattle.std.specs.Prelude.{◌≡◌, ◌==◌, ◌&&◌, ◌||◌, length};
ghost use Rattle.sheet.specs.Cells.{is_wide};
ghost use Rattle.tape_core.specs.Devices.{Gave};
ghost use Rattle.xterm_escaped.specs.EscapedText.{same_rendition, text_where};
ghost use Rattle.xterm_state.specs.StateText.{
  again_text,
  closing_text,
  column_text,
  cursor_text,
  is_at_cursor,
  keypad_text,
  last_column,
  last_text,
  margins_text,
  modes_text,
  taken_out_text,
  wrapped_text,
};

use crate::cells::{begin_of, cell_of};
use crate::opening::put_in_force;
use sheet::{Cell, Rendition};
use std::io::Write;
use tape_core::Watched;
use tape_core::laws::gives_join;
use xterm_escaped::{put_number, put_place, put_rendition, put_where, same_rendition};
use xterm_print::put_cell;
use xterm_screen::Screen;
use xterm_term::{Modes, Terminal};

/// Writes all behind the sheets but what is pending.
pub(crate) fn put_closing<W: Write>(terminal: &Terminal, writer: &mut Watched<W>)
    ensures { Gave W.contents writer.old writer.new (closing_text terminal.now.console) }
{
    gives_join::<W>();
    let modes = terminal.modes();
    put_margins(terminal.screen(), writer);
    put_cursor(modes.origin, terminal.screen(), writer);
    put_in_force(terminal.rendition(), terminal.sets(), writer);
    put_modes(modes, writer);
    put_last(terminal, terminal.last_character(), writer);
    put_where(terminal.in_title(), b"\x1bk", writer);
}

/// Writes DECSTBM.
fn put_margins<W: Write>(screen: &Screen, writer: &mut Watched<W>)
    ensures { Gave W.contents writer.old writer.new
        (margins_text screen.now.picture.top screen.now.picture.bottom) }
{
    gives_join::<W>();
    let (top, bottom) = screen.margins();
    writer.give(b"\x1b[");
    put_number(top, writer);
    writer.give(b";");
    put_number(bottom, writer);
    writer.give(b"r");
}

/// Writes DECOM, the cursor, and the character at the last column where a wrap is pending.
fn put_cursor<W: Write>(origin: bool, screen: &Screen, writer: &mut Watched<W>)
    ensures { Gave W.contents writer.old writer.new (cursor_text origin screen.now.picture) }
{
    gives_join::<W>();
    let (_, column) = screen.cursor();
    put_where(origin, b"\x1b[?6h", writer);
    put_column(origin, screen, column, writer);
    if screen.wrap() {
        put_wrapped(origin, screen, writer);
    }
}

/// Writes the character at the last column once more.
fn put_wrapped<W: Write>(origin: bool, screen: &Screen, writer: &mut Watched<W>)
    ensures { Gave W.contents writer.old writer.new (wrapped_text origin screen.now.picture) }
{
    gives_join::<W>();
    let cell = cell_of(screen, screen.columns());
    put_rendition(cell.rendition(), writer);
    put_column(origin, screen, begin_of(screen, screen.columns()), writer);
    put_cell(cell, writer);
}

/// Writes CUP to a column of the cursor's line, which is counted from the top margin where DECOM is set.
fn put_column<W: Write>(origin: bool, screen: &Screen, column: u16, writer: &mut Watched<W>)
    ensures { Gave W.contents writer.old writer.new (column_text origin screen.now.picture column) }
{
    let (line, _) = screen.cursor();
    let (top, _) = screen.margins();
    let counted = if origin {
        line.saturating_sub(top - 1)
    } else {
        line
    };
    put_place(counted, column, writer);
}

/// Writes the modes that aren't as they are at first, and the keypad.
fn put_modes<W: Write>(modes: Modes, writer: &mut Watched<W>)
    ensures { Gave W.contents writer.old writer.new (modes_text modes) }
{
    gives_join::<W>();
    put_where(modes.cursor_keys, b"\x1b[?1h", writer);
    put_where(modes.reverse_screen, b"\x1b[?5h", writer);
    put_where(!modes.autowrap, b"\x1b[?7l", writer);
    put_where(!modes.cursor_shown, b"\x1b[?25l", writer);
    put_where(modes.newline, b"\x1b[20h", writer);
    put_where(modes.insert, b"\x1b[4h", writer);
    put_keypad(modes.application_keypad, writer);
}

/// Writes DECKPAM or DECKPNM.
fn put_keypad<W: Write>(application: bool, writer: &mut Watched<W>)
    ensures { Gave W.contents writer.old writer.new (keypad_text application) }
{
    if application {
        writer.give(b"\x1b=");
    } else {
        writer.give(b"\x1b>");
    }
}

/// Writes the last character over itself, where there is one.
fn put_last<W: Write>(terminal: &Terminal, last: Option<char>, writer: &mut Watched<W>)
    ensures { Gave W.contents writer.old writer.new (last_text terminal.now.console last) }
{
    gives_join::<W>();
    if let Some(character) = last {
        put_again(terminal, last_column(terminal, character), writer);
    }
}

/// Writes the character that lies at a column over itself with its marks; in insert mode it is taken out before.
fn put_again<W: Write>(terminal: &Terminal, column: u16, writer: &mut Watched<W>)
    ensures { Gave W.contents writer.old writer.new (again_text terminal.now.console column) }
{
    gives_join::<W>();
    let modes = terminal.modes();
    let screen = terminal.screen();
    let cell = cell_of(screen, column);
    put_column(modes.origin, screen, begin_of(screen, column), writer);
    put_taken_out(modes.insert, cell.is_wide(), writer);
    put_cell(cell, writer);
}

/// Writes DCH of a character's width, or nothing.
fn put_taken_out<W: Write>(inserting: bool, wide: bool, writer: &mut Watched<W>)
    ensures { Gave W.contents writer.old writer.new (text_where inserting (taken_out_text wide)) }
{
    gives_join::<W>();
    if inserting {
        put_delete(wide, writer);
    }
}

/// Writes DCH of a character's width.
fn put_delete<W: Write>(wide: bool, writer: &mut Watched<W>)
    ensures { Gave W.contents writer.old writer.new (taken_out_text wide) }
{
    if wide {
        writer.give(b"\x1b[2P");
    } else {
        writer.give(b"\x1b[1P");
    }
}

/// The column at which the last character lies.
fn last_column(terminal: &Terminal, character: char) -> u16
    ensures { result ≡ last_column terminal.now.console character }
{
    let (_, column) = terminal.screen().cursor();
    if is_at_cursor(terminal, character) {
        column
    } else {
        column - 1
    }
}

/// Whether the last character lies at the cursor, and not left of it.
fn is_at_cursor(terminal: &Terminal, character: char) -> bool
    ensures { result ≡ is_at_cursor terminal.now.console character }
{
    let screen = terminal.screen();
    let cell = cell_of(screen, screen.columns());
    let stays = !terminal.modes().autowrap && is_at_end(screen);
    screen.wrap() || is_last(stays, cell, character, terminal.rendition())
}

/// Whether the cursor is in the last column.
fn is_at_end(screen: &Screen) -> bool
    ensures { let p = screen.now.picture in result ≡ (p.column == p.columns) }
{
    screen.cursor().1 == screen.columns()
}

/// Whether a cell is the last character, put where no wrap becomes pending.
fn is_last(stays: bool, cell: Cell, character: char, rendition: Rendition) -> bool
    ensures { result ≡ (stays && cell.character == character
        && same_rendition cell.rendition rendition && (is_wide cell || length cell.marks == 0)) }
{
    stays
        && cell.character() == character
        && same_rendition(cell.rendition(), rendition)
        && (cell.is_wide() || cell.mark_count() == 0)
}
