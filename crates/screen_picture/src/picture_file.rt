//! The picture.

ghost use Rattle.std.specs.Prelude.{◌≡◌, ◌≤◌, ◌++◌, OnOk, codes, length, true, false};
ghost use Rattle.vt_screen.specs.Cells.{row_at};
ghost use Rattle.tape_core.specs.Devices.{Gave, Puts, has_failed, is_flushed};
ghost use Rattle.screen_print.specs.Stills.{still_of};
ghost use Rattle.screen_rows.specs.RowText.{printed_line};
ghost use Rattle.screen_picture.specs.Cursor.{cursor_text};
ghost use Rattle.screen_picture.specs.Framed.{rows_text};
ghost use Rattle.screen_picture.specs.Grounds.{grounds_text};
ghost use Rattle.screen_picture.specs.Letters.{escaped};
ghost use Rattle.screen_picture.specs.Picture.{
  first_line,
  opening_text,
  picture_text,
  printed_text,
  sheet_text,
  style,
  style_text,
  title_text,
  width_text,
};

use crate::cursor::put_cursor;
use crate::frames::put_rows;
use crate::grounds::put_grounds;
use crate::letters::{back_of, ink_of, letters_of};
use arrayvec::ArrayVec;
use screen_rows::{push_bytes, trimmed};
use std::io::Write;
use tape_core::laws::gives_join;
use tape_core::{Fault, Watched, seconds_text};
use vt_screen::Screen;
use vt_screen::laws::screens_are_sound;
use vt_screen::limits::LINES;
use vt_term::Terminal;

/// The file's own style (ours).
const STYLE: &[u8] =
    b"text{font:16.67px 'DejaVu Sans Mono',Menlo,Consolas,'Liberation Mono',monospace;white-space:pre}\
path{shape-rendering:crispEdges}.i{fill:#ddd}.p{fill:#111}.b{font-weight:bold}.n{fill:none}\
.k{animation:k 1s step-end infinite}@keyframes k{50%{opacity:.2}}\
@media print{.i{fill:#111}.p{fill:#fff}}@media print,(prefers-reduced-motion:reduce){.k{animation:none}}";

/// How many bytes the longest text in an array takes here.
const TEXT_BYTES: usize = 240;

/// Draws the screen as one SVG file, with the moment in its title, in microseconds (ours). The file is told by the
/// moment and the terminal's columns, rows, reversed flag and cursor alone. It takes no memory. After a write fault a
/// beginning of the file has gone out.
#[tactic(auto, unfolding(crate::specs::Picture::picture_text))]
pub fn picture<W: Write>(terminal: &Terminal, at: u64, writer: &mut Watched<W>) -> Result<(), Fault>
    requires { has_failed writer.old ≡ false }
    ensures puts { Puts W.contents writer.old writer.new
        (picture_text at (still_of terminal.now.console)) result }
    ensures flushed { OnOk result (is_flushed writer.new ≡ true) }
{
    gives_join::<W>();
    put_front(terminal, at, writer);
    put_drawing(terminal, writer);
    put_end(terminal, writer);
    writer.settle()
}

/// Writes the first line, and the ground of the whole.
fn put_front<W: Write>(terminal: &Terminal, at: u64, writer: &mut Watched<W>)
    ensures { let still = still_of terminal.now.console in
        Gave W.contents writer.old writer.new
        (first_line at still ++ sheet_text still.wide still.reversed) }
{
    gives_join::<W>();
    put_first_line(terminal, at, writer);
    let wide = terminal.screen().is_wide();
    writer.give(sheet_text(wide, terminal.modes().reverse_screen).as_slice());
}

/// Writes the grounds of reversed runs, and the rows.
fn put_drawing<W: Write>(terminal: &Terminal, writer: &mut Watched<W>)
    ensures { let still = still_of terminal.now.console in
        Gave W.contents writer.old writer.new
        (grounds_text still.rows ++ rows_text still.reversed still.rows) }
{
    gives_join::<W>();
    put_grounds(terminal.screen(), writer);
    put_rows(terminal.screen(), terminal.modes().reverse_screen, writer);
}

/// Writes the cursor, and the file's end.
fn put_end<W: Write>(terminal: &Terminal, writer: &mut Watched<W>)
    ensures { let still = still_of terminal.now.console in
        Gave W.contents writer.old writer.new
        (cursor_text still.reversed still.rows still.line still.column ++ codes "</svg>\n") }
{
    gives_join::<W>();
    put_cursor(terminal.screen(), terminal.modes().reverse_screen, writer);
    writer.give(b"</svg>\n");
}

/// Writes the first line.
#[tactic(auto, unfolding(crate::specs::Picture::first_line))]
fn put_first_line<W: Write>(terminal: &Terminal, at: u64, writer: &mut Watched<W>)
    ensures { Gave W.contents writer.old writer.new
        (first_line at (still_of terminal.now.console)) }
{
    gives_join::<W>();
    put_title(terminal, at, writer);
    put_plain(terminal.screen(), writer);
    put_style(writer);
}

/// Writes the first line to its title's end.
fn put_title<W: Write>(terminal: &Terminal, at: u64, writer: &mut Watched<W>)
    ensures { Gave W.contents writer.old writer.new
        (title_text at (still_of terminal.now.console)) }
{
    let wide = terminal.screen().is_wide();
    let opening = opening_text(wide, terminal.modes().reverse_screen);
    writer.give_all(&[
        opening.as_slice(),
        seconds_text(at).as_bytes(),
        b" s</title><desc>",
    ]);
}

/// Writes the plain print as it stands in XML.
fn put_plain<W: Write>(screen: &Screen, writer: &mut Watched<W>)
    ensures { Gave W.contents writer.old writer.new
        (escaped (printed_text screen.now.picture.wide screen.now.picture.rows)) }
{
    gives_join::<W>();
    screens_are_sound(screen);
    for line in 1..LINES + 1 {
        put_plain_line(screen, line, writer);
    }
}

/// Writes a line of the plain print as it stands in XML.
fn put_plain_line<W: Write>(screen: &Screen, line: u8, writer: &mut Watched<W>)
    requires low { 1 ≤ line }
    requires high { line ≤ LINES }
    ensures { let p = screen.now.picture in Gave W.contents writer.old writer.new
        (escaped (printed_line p.wide (row_at p.rows line))) }
{
    let margin = screen.right_margin(line) as usize;
    let letters = letters_of(trimmed(&screen.row(line).cells[..margin]));
    writer.give_all(&[letters.as_slice(), b"\n"]);
}

/// Writes the style, and the first line's end.
fn put_style<W: Write>(writer: &mut Watched<W>)
    ensures { Gave W.contents writer.old writer.new style_text }
{
    writer.give_all(&[b"</desc><style>", style(), b"</style>\n"]);
}

#[tactic(auto, unfolding(crate::specs::Picture::style))]
fn style() -> &'static [u8]
    ensures { result.now ≡ style }
{
    STYLE
}

/// How the file begins, to the moment in its title.
#[tactic(auto, unfolding(crate::specs::Picture::opening_text))]
fn opening_text(wide: bool, reversed: bool) -> ArrayVec<u8, TEXT_BYTES>
    ensures { result.items ≡ opening_text wide reversed }
{
    let mut text = ArrayVec::new();
    push_bytes(
        &mut text,
        b"<svg xmlns=\"http://www.w3.org/2000/svg\" class=\"",
    );
    text.push(ink_of(reversed));
    push_bytes(&mut text, b"\" viewBox=\"-10 -10 ");
    push_bytes(&mut text, width_text(wide));
    push_bytes(&mut text, b" 500\" width=\"");
    push_bytes(&mut text, width_text(wide));
    push_bytes(
        &mut text,
        b"\" height=\"500\" role=\"group\" aria-label=\"Screen\"",
    );
    push_bytes(&mut text, b" xml:space=\"preserve\"><title>Screen at ");
    text
}

/// The ground of the whole.
#[tactic(auto, unfolding(crate::specs::Picture::sheet_text))]
fn sheet_text(wide: bool, reversed: bool) -> ArrayVec<u8, TEXT_BYTES>
    ensures { result.items ≡ sheet_text wide reversed }
{
    let mut text = ArrayVec::new();
    push_bytes(&mut text, b"<path class=\"");
    text.push(back_of(reversed));
    push_bytes(&mut text, b"\" d=\"M-10 -10h");
    push_bytes(&mut text, width_text(wide));
    push_bytes(&mut text, b"v500h-");
    push_bytes(&mut text, width_text(wide));
    push_bytes(&mut text, b"z\"/>\n");
    text
}

/// How many units wide the picture is.
fn width_text(wide: bool) -> &'static [u8]
    ensures value { result.now ≡ width_text wide }
    ensures short { length result.now ≤ 4 }
{
    if wide { b"1340" } else { b"820" }
}
