//! The events of a chunk.

ghost use Rattle.std.specs.Prelude.{◌≡◌, ◌≤◌, ◌++◌, All};
ghost use Rattle.std.specs.List.{flat_map};
ghost use Rattle.tape_core.specs.Devices.{Gave};
ghost use Rattle.held.specs.Held.{Wrote};
ghost use Rattle.screen_rows.specs.SameRows.{changed_lines};
ghost use Rattle.screen_print.specs.Stills.{still_of};
ghost use Rattle.screen_cast.specs.Cast.{event_closing, event_line, event_opening};
ghost use Rattle.screen_cast.specs.Drawn.{drawn_text};
ghost use Rattle.screen_cast.specs.Events.{
  Output,
  drawn_lines,
  is_all_drawn,
  output,
  outputs,
  resize,
  resizes,
  size_text,
};
ghost use Rattle.screen_cast.specs.Texts.{AreTexts};

use crate::drawn::put_drawn;
use crate::shown::Shown;
use crate::texts::RunsText;
use arrayvec::ArrayVec;
use held::{HELD, let_out, put, put_byte};
use std::io::Write;
use tape_core::laws::gives_join;
use tape_core::{Watched, seconds_text};
use vt_screen::Screen;
use vt_screen::limits::LINES;
use vt_term::Terminal;

/// Every line.
const EVERY_LINE: [u8; LINES as usize] = [
    1, 2, 3, 4, 5, 6, 7, 8, 9, 10, 11, 12, 13, 14, 15, 16, 17, 18, 19, 20, 21, 22, 23, 24,
];

/// Writes the events of a chunk by what stands before and after it, which differ in these lines.
pub(crate) fn put_events<W: Write>(
    due: u64,
    before: &Shown,
    after: &Terminal,
    screen: &Screen,
    lines: &[u8],
    texts: &mut [RunsText],
    writer: &mut Watched<W>,
)
    requires shown { screen.now.picture ≡ after.now.console.picture }
    requires changed { lines.now
        ≡ changed_lines before.now.still.rows after.now.console.picture.rows }
    requires texts { AreTexts after.now.console.modes.reverse_screen screen.now.order
        screen.now.picture.rows texts.old }
    ensures texts { AreTexts after.now.console.modes.reverse_screen screen.now.order
        screen.now.picture.rows texts.new }
    ensures gave { let after = still_of after.now.console in Gave W.contents writer.old writer.new
        (flat_map event_line (resizes due before.now.still after)
        ++ flat_map event_line (outputs due before.now.still after)) }
{
    gives_join::<W>();
    put_resize(due, before, after, writer);
    put_output(due, before, after, screen, lines, texts, writer);
}

/// Writes the screen's new size, where the columns differ.
fn put_resize<W: Write>(due: u64, before: &Shown, after: &Terminal, writer: &mut Watched<W>)
    ensures { Gave W.contents writer.old writer.new
        (flat_map event_line (resizes due before.now.still (still_of after.now.console))) }
{
    gives_join::<W>();
    let wide = after.screen().is_wide();
    if wide == before.is_wide() {
        return;
    }
    put_size(due, wide, writer);
}

/// Writes the event that tells the screen's size.
fn put_size<W: Write>(due: u64, wide: bool, writer: &mut Watched<W>)
    ensures { Gave W.contents writer.old writer.new
        (event_line (resize due (size_text wide))) }
{
    writer.give_all(&[
        b"[",
        seconds_text(due).as_bytes(),
        b", \"r\", \"",
        size_text(wide),
        b"\"]\n",
    ]);
}

/// Columns and lines of a screen.
#[tactic(auto, unfolding(crate::specs::Events::size_text))]
fn size_text(wide: bool) -> &'static [u8]
    ensures { result.now ≡ size_text wide }
{
    if wide { b"132x24" } else { b"80x24" }
}

/// Writes what is drawn, where there is something to draw.
fn put_output<W: Write>(
    due: u64,
    before: &Shown,
    after: &Terminal,
    screen: &Screen,
    lines: &[u8],
    texts: &mut [RunsText],
    writer: &mut Watched<W>,
)
    requires shown { screen.now.picture ≡ after.now.console.picture }
    requires changed { lines.now
        ≡ changed_lines before.now.still.rows after.now.console.picture.rows }
    requires texts { AreTexts after.now.console.modes.reverse_screen screen.now.order
        screen.now.picture.rows texts.old }
    ensures texts { AreTexts after.now.console.modes.reverse_screen screen.now.order
        screen.now.picture.rows texts.new }
    ensures gave { Gave W.contents writer.old writer.new
        (flat_map event_line (outputs due before.now.still (still_of after.now.console))) }
{
    gives_join::<W>();
    let drawn = drawn_lines(before, after, lines);
    if drawn.is_empty() && before.cursor() == after.screen().cursor() {
        return;
    }
    put_drawing(due, after, screen, drawn, texts, writer);
}

/// The lines that are drawn: all, or those that differ.
fn drawn_lines<'a>(before: &Shown, after: &Terminal, lines: &'a [u8]) -> &'a [u8]
    requires { lines.now ≡ changed_lines before.now.still.rows after.now.console.picture.rows }
    ensures drawn { result.now ≡ drawn_lines before.now.still (still_of after.now.console) }
    ensures lines { All (λ line. (1 ≤ line) × (line ≤ LINES)) result.now }
{
    if is_all_drawn(before, after) {
        &EVERY_LINE
    } else {
        lines
    }
}

/// Whether every row is drawn: the columns or the reversed flag differ.
fn is_all_drawn(before: &Shown, after: &Terminal) -> bool
    ensures { result ≡ is_all_drawn before.now.still (still_of after.now.console) }
{
    before.is_wide() != after.screen().is_wide()
        || before.is_reversed() != after.modes().reverse_screen
}

/// Writes the event that draws these lines and the cursor.
fn put_drawing<W: Write>(
    due: u64,
    after: &Terminal,
    screen: &Screen,
    lines: &[u8],
    texts: &mut [RunsText],
    writer: &mut Watched<W>,
)
    requires shown { screen.now.picture ≡ after.now.console.picture }
    requires lines { All (λ line. (1 ≤ line) × (line ≤ LINES)) lines.now }
    requires texts { AreTexts after.now.console.modes.reverse_screen screen.now.order
        screen.now.picture.rows texts.old }
    ensures texts { AreTexts after.now.console.modes.reverse_screen screen.now.order
        screen.now.picture.rows texts.new }
    ensures gave { Gave W.contents writer.old writer.new
        (event_line (output due (drawn_text (still_of after.now.console) lines.now))) }
{
    gives_join::<W>();
    let mut held = ArrayVec::new();
    put_opening(due, &mut held, writer);
    put_drawn(after, screen, lines, texts, &mut held, writer);
    put_closing(&mut held, writer);
    let_out(&mut held, writer);
}

/// Writes how an event that draws begins.
#[tactic(auto, unfolding(crate::specs::Cast::event_opening))]
fn put_opening<W: Write>(due: u64, held: &mut ArrayVec<u8, HELD>, writer: &mut Watched<W>)
    ensures { Wrote W.contents writer.old held.old.items writer.new held.new.items
        (event_opening due Output) }
{
    put_byte(b'[', held, writer);
    put(seconds_text(due).as_bytes(), held, writer);
    put(b", \"o\", \"", held, writer);
}

/// Writes how an event ends.
#[tactic(auto, unfolding(crate::specs::Cast::event_closing))]
fn put_closing<W: Write>(held: &mut ArrayVec<u8, HELD>, writer: &mut Watched<W>)
    ensures { Wrote W.contents writer.old held.old.items writer.new held.new.items event_closing }
{
    put(b"\"]\n", held, writer);
}
