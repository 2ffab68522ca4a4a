//! What the state text has behind the lines: the margins, the cursor, what is in force, and the modes.

ghost use Rattle.std.specs.Prelude.{◌≡◌, ◌≤◌, ◌++◌, ◌+◌, length, decimal};
ghost use Rattle.vt_term.specs.Replies.{reported_line};
ghost use Rattle.vt_screen.specs.Cells.{cell_at};
ghost use Rattle.screen_state.specs.StateText.{margins_text, cell_again_text, cursor_text, modes_text, leds_text, vt52_text, closing_text};

use crate::opening::{push_in_force, slot_byte};
use arrayvec::ArrayVec;
use screen_print::{LINE_BYTES, byte_for, push_place, push_rendition, slot_for};
use screen_rows::{push_bytes, push_bytes_where, push_number};
use vt_parser::Mode;
use vt_screen::{Cell, Screen};
use vt_term::{Modes, Terminal};

/// All behind the lines but what is pending: at most 128 bytes.
pub(crate) fn closing_text(terminal: &Terminal) -> ArrayVec<u8, LINE_BYTES>
    ensures { result.items ≡ closing_text terminal.now.console }
{
    let modes = terminal.modes();
    let sets = terminal.sets();
    let mut text = ArrayVec::new();
    push_margins(&mut text, terminal.screen());
    push_cursor(&mut text, terminal.screen(), modes);
    push_in_force(
        &mut text,
        terminal.rendition(),
        sets.g0,
        sets.g1,
        sets.invoked,
    );
    push_modes(&mut text, modes);
    push_leds(&mut text, &terminal.leds());
    push_vt52(&mut text, modes.mode, sets.vt52_graphics);
    text
}

/// DECSTBM.
fn push_margins(text: &mut ArrayVec<u8, LINE_BYTES>, screen: &Screen)
    requires { length text.old.items + 14 ≤ LINE_BYTES }
    ensures text { text.new.items
        ≡ text.old.items ++ margins_text screen.now.picture.top screen.now.picture.bottom }
    ensures short { length text.new.items ≤ length text.old.items + 14 }
{
    let (top, bottom) = screen.margins();
    push_bytes(text, b"\x1b[");
    push_number(text, u16::from(top));
    text.push(b';');
    push_number(text, u16::from(bottom));
    text.push(b'r');
}

/// DECOM, DECAWM, the cursor and the pending wrap.
fn push_cursor(text: &mut ArrayVec<u8, LINE_BYTES>, screen: &Screen, modes: Modes)
    requires { length text.old.items + 34 ≤ LINE_BYTES }
    ensures text { text.new.items ≡ text.old.items ++ cursor_text screen.now.picture modes }
    ensures short { length text.new.items ≤ length text.old.items + 34 }
{
    let (line, column) = screen.cursor();
    push_bytes_where(text, modes.origin, b"\x1b[?6h");
    push_bytes_where(text, modes.autowrap, b"\x1b[?7h");
    push_place(text, counted_line(screen, modes.origin), column);
    if screen.wrap() {
        push_cell(text, screen.cell(line, column));
    }
}

/// The cursor's line, counted from the top margin where DECOM is set.
fn counted_line(screen: &Screen, origin: bool) -> u8
    ensures { let p = screen.now.picture in result ≡ reported_line origin p.line p.top }
{
    let (line, _) = screen.cursor();
    if origin {
        line.saturating_sub(screen.margins().0 - 1)
    } else {
        line
    }
}

/// A cell, whatever is in force.
fn push_cell(text: &mut ArrayVec<u8, LINE_BYTES>, cell: Cell)
    requires room { length text.old.items + 14 ≤ LINE_BYTES }
    requires glyph { cell.glyph ≤ 126 }
    ensures text { text.new.items ≡ text.old.items ++ cell_again_text cell }
    ensures short { length text.new.items ≤ length text.old.items + 14 }
{
    push_rendition(text, cell.rendition);
    text.push(slot_byte(slot_for(cell.glyph)));
    text.push(byte_for(cell.glyph));
}

/// The other modes that are set, and the keypad.
fn push_modes(text: &mut ArrayVec<u8, LINE_BYTES>, modes: Modes)
    requires { length text.old.items + 36 ≤ LINE_BYTES }
    ensures text { text.new.items ≡ text.old.items ++ modes_text modes }
    ensures short { length text.new.items ≤ length text.old.items + 36 }
{
    push_bytes_where(text, modes.cursor_keys, b"\x1b[?1h");
    push_bytes_where(text, modes.smooth_scroll, b"\x1b[?4h");
    push_bytes_where(text, modes.reverse_screen, b"\x1b[?5h");
    push_bytes_where(text, modes.auto_repeat, b"\x1b[?8h");
    push_bytes_where(text, modes.interlace, b"\x1b[?9h");
    push_bytes_where(text, modes.newline, b"\x1b[20h");
    push_bytes_where(text, modes.insert, b"\x1b[4h");
    push_bytes_where(text, modes.application_keypad, b"\x1b=");
}

/// The LEDs that are on.
fn push_leds(text: &mut ArrayVec<u8, LINE_BYTES>, leds: &[bool; 4])
    requires { length text.old.items + 16 ≤ LINE_BYTES }
    ensures text { text.new.items ≡ text.old.items ++ leds_text leds.now }
    ensures short { length text.new.items ≤ length text.old.items + 16 }
{
    push_bytes_where(text, leds[0], b"\x1b[1q");
    push_bytes_where(text, leds[1], b"\x1b[2q");
    push_bytes_where(text, leds[2], b"\x1b[3q");
    push_bytes_where(text, leds[3], b"\x1b[4q");
}

/// VT52 mode and its graphics.
fn push_vt52(text: &mut ArrayVec<u8, LINE_BYTES>, mode: Mode, graphics: bool)
    requires { length text.old.items + 9 ≤ LINE_BYTES }
    ensures text { text.new.items ≡ text.old.items ++ vt52_text mode graphics }
    ensures short { length text.new.items ≤ length text.old.items + 9 }
{
    match (mode, graphics) {
        (Mode::Ansi, false) => {}
        (Mode::Ansi, true) => push_bytes(text, b"\x1b[?2l\x1bF\x1b<"),
        (Mode::Vt52, false) => push_bytes(text, b"\x1b[?2l"),
        (Mode::Vt52, true) => push_bytes(text, b"\x1b[?2l\x1bF"),
    }
}
