//! What the state text has before the lines: the terminal anew, its tab stops, what is saved, and a blank screen.

ghost use Rattle.std.specs.Prelude.{◌≡◌, ◌≤◌, ◌++◌, ◌+◌, ◌==◌, ◌&&◌, ◌||◌, length};
ghost use Rattle.screen_state.specs.StateText.{opening_text, stop_text, stops_text, in_force_text, set_byte, slot_byte, sets_text, kept_text, saved_text, columns_text, canvas_text};

use arrayvec::ArrayVec;
use screen_print::{LINE_BYTES, push_place, push_rendition};
use screen_rows::{push_bytes, push_bytes_where};
use vt_screen::limits::WIDE_COLUMNS;
use vt_screen::{Rendition, Screen};
use vt_term::{CharacterSet, Saved, Slot, Terminal};

/// All before the lines: at most 1,676 bytes.
pub(crate) fn opening_text(terminal: &Terminal) -> ArrayVec<u8, LINE_BYTES>
    ensures { result.items ≡ opening_text terminal.now.console }
{
    let mut text = ArrayVec::new();
    push_bytes(&mut text, b"\x1b<\x1bc");
    push_stops(&mut text, terminal.screen());
    if let Some(saved) = terminal.saved() {
        push_saved(&mut text, saved);
    }
    push_canvas(&mut text, terminal.screen().is_wide());
    text
}

/// The tab stops.
fn push_stops(text: &mut ArrayVec<u8, LINE_BYTES>, screen: &Screen)
    requires { length text.old.items ≤ 4 }
    ensures text { text.new.items ≡ text.old.items ++ stops_text screen.now.picture.tabs }
    ensures short { length text.new.items ≤ length text.old.items + 1593 }
{
    push_bytes(text, b"\x1b[?3h\x1b[3g");
    for column in 1..WIDE_COLUMNS + 1 {
        if screen.tab(column) {
            push_stop(text, column);
        }
    }
}

/// A tab stop.
fn push_stop(text: &mut ArrayVec<u8, LINE_BYTES>, column: u8)
    requires { length text.old.items + 12 ≤ LINE_BYTES }
    ensures text { text.new.items ≡ text.old.items ++ stop_text column }
    ensures short { length text.new.items ≤ length text.old.items + 12 }
{
    push_place(text, 1, column);
    push_bytes(text, b"\x1bH");
}

/// What is saved.
fn push_saved(text: &mut ArrayVec<u8, LINE_BYTES>, saved: Saved)
    requires { length text.old.items + 45 ≤ LINE_BYTES }
    ensures text { text.new.items ≡ text.old.items ++ kept_text saved }
    ensures short { length text.new.items ≤ length text.old.items + 45 }
{
    push_bytes_where(
        text,
        is_wrap_at(saved.wrap, saved.column, 40, 80),
        b"\x1b[?3l",
    );
    push_bytes_where(text, saved.origin, b"\x1b[?6h");
    push_place(text, saved.line, saved.column);
    push_bytes_where(
        text,
        is_wrap_at(saved.wrap, saved.column, 40, 66),
        b"\x1b#6",
    );
    push_bytes_where(text, saved.wrap, b" ");
    let Saved {
        rendition,
        g0,
        g1,
        invoked,
        ..
    } = saved;
    push_in_force(text, rendition, g0, g1, invoked);
    push_bytes(text, b"\x1b7");
}

/// Whether a wrap is pending, and that at one of two columns.
fn is_wrap_at(wrap: bool, column: u8, one: u8, other: u8) -> bool
    ensures { result ≡ (wrap && (column == one || column == other)) }
{
    wrap && (column == one || column == other)
}

/// A blank screen on which the lines are drawn.
fn push_canvas(text: &mut ArrayVec<u8, LINE_BYTES>, wide: bool)
    requires { length text.old.items + 34 ≤ LINE_BYTES }
    ensures { text.new.items ≡ text.old.items ++ canvas_text wide }
{
    push_bytes(text, b"\x1b[?6l");
    push_columns(text, wide);
    push_bytes(text, b"\x1b[?7l");
    push_in_force(
        text,
        Rendition::plain(),
        CharacterSet::Ascii,
        CharacterSet::SpecialGraphics,
        Slot::G0,
    );
}

/// DECCOLM.
fn push_columns(text: &mut ArrayVec<u8, LINE_BYTES>, wide: bool)
    requires { length text.old.items + 5 ≤ LINE_BYTES }
    ensures text { text.new.items ≡ text.old.items ++ columns_text wide }
    ensures short { length text.new.items ≤ length text.old.items + 5 }
{
    if wide {
        push_bytes(text, b"\x1b[?3h");
    } else {
        push_bytes(text, b"\x1b[?3l");
    }
}

/// A rendition and the sets, whatever is in force.
pub(crate) fn push_in_force(
    text: &mut ArrayVec<u8, LINE_BYTES>,
    rendition: Rendition,
    g0: CharacterSet,
    g1: CharacterSet,
    invoked: Slot,
)
    requires { length text.old.items + 19 ≤ LINE_BYTES }
    ensures text { text.new.items ≡ text.old.items ++ in_force_text rendition g0 g1 invoked }
    ensures short { length text.new.items ≤ length text.old.items + 19 }
{
    push_rendition(text, rendition);
    push_sets(text, g0, g1, invoked);
}

/// SCS of both slots, and SI or SO.
fn push_sets(text: &mut ArrayVec<u8, LINE_BYTES>, g0: CharacterSet, g1: CharacterSet, invoked: Slot)
    requires { length text.old.items + 7 ≤ LINE_BYTES }
    ensures text { text.new.items ≡ text.old.items ++ sets_text g0 g1 invoked }
    ensures short { length text.new.items ≤ length text.old.items + 7 }
{
    push_bytes(
        text,
        &[
            0x1b,
            b'(',
            set_byte(g0),
            0x1b,
            b')',
            set_byte(g1),
            slot_byte(invoked),
        ],
    );
}

/// The final byte of SCS.
fn set_byte(set: CharacterSet) -> u8
    ensures { result ≡ set_byte set }
{
    match set {
        CharacterSet::Ascii => b'B',
        CharacterSet::Uk => b'A',
        CharacterSet::SpecialGraphics => b'0',
    }
}

/// SI and SO.
pub(crate) fn slot_byte(slot: Slot) -> u8
    ensures { result ≡ slot_byte slot }
{
    match slot {
        Slot::G0 => 15,
        Slot::G1 => 14,
    }
}
