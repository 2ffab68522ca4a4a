//! The picture.

ghost use Rattle.std.specs.Prelude.{◌≡◌, ◌≤◌, ◌++◌, OnOk, codes, length, true, false};
ghost use Rattle.std.specs.List.{flat_map};
ghost use Rattle.tape_core.specs.Devices.{Gave, Puts, has_failed, is_flushed};
ghost use Rattle.tape_core.specs.Written.{seconds_form};
ghost use Rattle.xterm_picture.specs.Cursor.{cursor_text};
ghost use Rattle.xterm_picture.specs.Framed.{rows_text};
ghost use Rattle.xterm_picture.specs.Grounds.{grounds_text};
ghost use Rattle.xterm_picture.specs.Still.{still_of};
ghost use Rattle.xterm_picture.specs.Picture.{
  first_line,
  height_of,
  opening_text,
  picture_text,
  plain_line,
  sheet_text,
  style,
  width_of,
};

use crate::attributes::{put_back, put_ink};
use crate::cursor::put_cursor;
use crate::grounds::put_grounds;
use crate::rows::put_rows;
use crate::texts::{put_letters_of, put_number};
use sheet::Cell;
use sheet::limits::{MOST_COLUMNS, MOST_LINES};
use std::io::Write;
use tape_core::laws::gives_join;
use tape_core::{Fault, Watched, seconds_text};
use xterm_rows::trimmed;
use xterm_screen::Screen;
use xterm_term::Terminal;

/// The file's own style (ours).
const STYLE: &[u8] =
    b"text{font:16.67px 'DejaVu Sans Mono',Menlo,Consolas,'Liberation Mono',monospace;white-space:pre}\
path{shape-rendering:crispEdges}g:last-child path{shape-rendering:auto}\
tspan{unicode-bidi:isolate-override}.i{fill:#ddd}.p{fill:#111}.b{font-weight:bold}\
.t{font-style:italic}.n{fill:none}.k{animation:k 1s step-end infinite}@keyframes k{50%{opacity:.2}}\
@media print,(prefers-reduced-motion:reduce){.k{animation:none}}";

/// Draws the screen as one SVG file, with the moment in its title, in microseconds (ours). The file is told by the
/// moment, the cells of the sheet that is shown, the reversed flag, the cursor and whether it is shown alone. It takes
/// no memory. After a write fault a beginning of the file has gone out.
#[tactic(auto, unfolding(crate::specs::Picture::picture_text))]
pub fn picture<W: Write>(terminal: &Terminal, at: u64, writer: &mut Watched<W>) -> Result<(), Fault>
    requires { has_failed writer.old ≡ false }
    ensures puts { Puts W.contents writer.old writer.new
        (picture_text at (still_of terminal.now.console)) result }
    ensures flushed { OnOk result (is_flushed writer.new ≡ true) }
{
    gives_join::<W>();
    put_front(terminal, at, writer);
    put_drawing(terminal, writer);
    put_end(terminal, writer);
    writer.settle()
}

/// Writes the first line, and the ground of the whole.
fn put_front<W: Write>(terminal: &Terminal, at: u64, writer: &mut Watched<W>)
    ensures { let still = still_of terminal.now.console in
        Gave W.contents writer.old writer.new (first_line at still
        ++ sheet_text still.reversed (width_of still.columns) (height_of (length still.rows))) }
{
    gives_join::<W>();
    put_first_line(terminal, at, writer);
    put_paper(terminal, writer);
}

/// Writes the grounds, and the rows.
fn put_drawing<W: Write>(terminal: &Terminal, writer: &mut Watched<W>)
    ensures { let still = still_of terminal.now.console in
        Gave W.contents writer.old writer.new
        (grounds_text still.rows ++ rows_text still.reversed still.rows) }
{
    gives_join::<W>();
    put_grounds(terminal.screen(), writer);
    put_rows(terminal.screen(), terminal.modes().reverse_screen, writer);
}

/// Writes the cursor, and the file's end.
fn put_end<W: Write>(terminal: &Terminal, writer: &mut Watched<W>)
    ensures { let still = still_of terminal.now.console in
        Gave W.contents writer.old writer.new
        (cursor_text still.reversed still.shown still.rows still.line still.column
        ++ codes "</svg>\n") }
{
    gives_join::<W>();
    let modes = terminal.modes();
    put_cursor(
        terminal.screen(),
        modes.reverse_screen,
        modes.cursor_shown,
        writer,
    );
    writer.give(b"</svg>\n");
}

/// Writes the first line.
fn put_first_line<W: Write>(terminal: &Terminal, at: u64, writer: &mut Watched<W>)
    ensures { Gave W.contents writer.old writer.new
        (first_line at (still_of terminal.now.console)) }
{
    gives_join::<W>();
    put_head(terminal, writer);
    put_moment(at, writer);
    writer.give(b" s</title><desc>");
    put_print(terminal, writer);
    put_style(writer);
}

/// Writes how the file of a terminal begins, to the moment in its title.
fn put_head<W: Write>(terminal: &Terminal, writer: &mut Watched<W>)
    ensures { let still = still_of terminal.now.console in Gave W.contents writer.old writer.new
        (opening_text still.reversed (width_of still.columns) (height_of (length still.rows))) }
{
    let screen = terminal.screen();
    let reversed = terminal.modes().reverse_screen;
    put_opening(reversed, width_of(screen), height_of(screen), writer);
}

/// Writes the ground of the whole of a terminal.
fn put_paper<W: Write>(terminal: &Terminal, writer: &mut Watched<W>)
    ensures { let still = still_of terminal.now.console in Gave W.contents writer.old writer.new
        (sheet_text still.reversed (width_of still.columns) (height_of (length still.rows))) }
{
    let screen = terminal.screen();
    let reversed = terminal.modes().reverse_screen;
    put_sheet(reversed, width_of(screen), height_of(screen), writer);
}

/// Writes a moment in seconds.
fn put_moment<W: Write>(at: u64, writer: &mut Watched<W>)
    ensures { Gave W.contents writer.old writer.new (seconds_form at) }
{
    writer.give(seconds_text(at).as_bytes());
}

/// Writes the plain print of a terminal as it stands in XML.
fn put_print<W: Write>(terminal: &Terminal, writer: &mut Watched<W>)
    ensures { Gave W.contents writer.old writer.new
        (flat_map plain_line terminal.now.console.picture.rows) }
{
    put_plain(terminal.screen(), writer);
}

/// Writes the plain print as it stands in XML.
fn put_plain<W: Write>(screen: &Screen, writer: &mut Watched<W>)
    ensures { Gave W.contents writer.old writer.new (flat_map plain_line screen.now.picture.rows) }
{
    gives_join::<W>();
    let _cursor = screen.cursor();
    for line in 1..screen.lines() + 1 {
        put_plain_line(screen.row(line), writer);
    }
}

/// Writes a line of the plain print as it stands in XML.
#[tactic(auto, unfolding(crate::specs::Picture::plain_line))]
fn put_plain_line<W: Write>(row: &[Cell], writer: &mut Watched<W>)
    ensures { Gave W.contents writer.old writer.new (plain_line row.now) }
{
    gives_join::<W>();
    put_letters_of(trimmed(row), writer);
    writer.give(b"\n");
}

/// Writes the style, and the first line's end.
fn put_style<W: Write>(writer: &mut Watched<W>)
    ensures { Gave W.contents writer.old writer.new
        (codes "</desc><style>" ++ style ++ codes "</style>\n") }
{
    gives_join::<W>();
    writer.give(b"</desc><style>");
    put_rules(writer);
    writer.give(b"</style>\n");
}

/// Writes the rules of the style.
fn put_rules<W: Write>(writer: &mut Watched<W>)
    ensures { Gave W.contents writer.old writer.new style }
{
    writer.give(style());
}

#[tactic(auto, unfolding(crate::specs::Picture::style))]
fn style() -> &'static [u8]
    ensures { result.now ≡ style }
{
    STYLE
}

/// Writes how the file begins, to the moment in its title.
fn put_opening<W: Write>(reversed: bool, width: usize, height: usize, writer: &mut Watched<W>)
    ensures { Gave W.contents writer.old writer.new (opening_text reversed width height) }
{
    gives_join::<W>();
    writer.give(b"<svg xmlns=\"http://www.w3.org/2000/svg\" class=\"");
    put_ink(reversed, writer);
    writer.give(b"\" viewBox=\"-10 -10 ");
    put_number(width, writer);
    writer.give(b" ");
    put_number(height, writer);
    writer.give(b"\" width=\"");
    put_number(width, writer);
    writer.give(b"\" height=\"");
    put_number(height, writer);
    writer.give(
        b"\" role=\"group\" aria-label=\"Screen\" xml:space=\"preserve\"><title>Screen at ",
    );
}

/// Writes the ground of the whole.
fn put_sheet<W: Write>(reversed: bool, width: usize, height: usize, writer: &mut Watched<W>)
    ensures { Gave W.contents writer.old writer.new (sheet_text reversed width height) }
{
    gives_join::<W>();
    writer.give(b"<path class=\"");
    put_back(reversed, writer);
    writer.give(b"\" d=\"M-10 -10h");
    put_number(width, writer);
    writer.give(b"v");
    put_number(height, writer);
    writer.give(b"h-");
    put_number(width, writer);
    writer.give(b"z\"/>\n");
}

/// How many units wide the picture is.
fn width_of(screen: &Screen) -> usize
    ensures { result ≡ width_of screen.now.picture.columns }
{
    10 * usize::from(screen.columns()) + 20
}

/// How many units high the picture is.
fn height_of(screen: &Screen) -> usize
    ensures { result ≡ height_of (length screen.now.picture.rows) }
{
    let _cursor = screen.cursor();
    20 * usize::from(screen.lines()) + 20
}
