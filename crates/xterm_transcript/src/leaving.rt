//! Which rows leave a screen at its top.
ghost use Rattle.std.specs.Prelude.{◌≡◌, ℕ, false};
ghost use Rattle.vt_parser.specs.Law.{IsProper};
ghost use Rattle.vt_parser.specs.Token.{command_of_token};
ghost use Rattle.xterm_term.specs.Controls.{controls};
ghost use Rattle.xterm_term.specs.Escapes.{escape_named};
ghost use Rattle.xterm_term.specs.Rows.{named};
ghost use Rattle.xterm_term.specs.Sequences.{param_or, sequences};
ghost use Rattle.xterm_transcript.specs.Leaving.{at_control, at_erasure, at_escape, at_scroll, at_sequence, feed_leaves, leaving, leaving_first, put_leaves, show_wraps, wraps_by_width};

use characters::width;
use vt_parser::Token;
use xterm_screen::Screen;
use xterm_term::Terminal;

/// Which rows leave.
#[derive(Clone, Copy)]
pub enum Leaving {
    NoRow,
    /// So many, from row 1 on.
    FirstRows(u16),
    /// From row 1 to the last that isn't blank.
    InkedRows,
    /// Those that leave at the last character so many times again.
    Repeated(u16),
}

use Leaving::{FirstRows, InkedRows, NoRow, Repeated};

/// Which rows leave at a command, by whether it comes directly behind home.
#[tactic(auto, unfolding(crate::specs::Leaving::leaving))]
pub(crate) fn leaving_at(token: &Token, home: bool, terminal: &Terminal) -> Leaving
    requires { IsProper (command_of_token token.now) }
    ensures { result ≡ leaving (command_of_token token.now) home terminal.now.console }
{
    match token {
        Token::Show(run) => at_put(terminal.character_for(run[0]), terminal),
        Token::Control(byte) => at_control(*byte, terminal.screen()),
        Token::Esc { inter, last } => at_escape(*inter, *last, terminal.screen()),
        Token::Csi {
            private: false,
            params,
            last,
        } => at_sequence(home, *last, params, terminal.screen()),
        _ => NoRow,
    }
}

/// Row 1, or none.
fn leaving_first(leaves: bool) -> Leaving
    ensures { result ≡ leaving_first leaves }
{
    if leaves { FirstRows(1) } else { NoRow }
}

/// A character that is put.
pub(crate) fn at_put(character: char, terminal: &Terminal) -> Leaving
    ensures { result ≡ leaving_first (put_leaves character terminal.now.console) }
{
    leaving_first(put_leaves(character, terminal))
}

/// Whether row 1 leaves at a character that is put.
#[tactic(auto, unfolding(crate::specs::Leaving::put_leaves))]
pub(crate) fn put_leaves(character: char, terminal: &Terminal) -> bool
    ensures { result ≡ put_leaves character terminal.now.console }
{
    is_at_edge(terminal)
        && !matches!(character, '\u{80}'..='\u{9F}')
        && wraps(width(character), terminal)
        && feed_leaves(terminal.screen())
}

// Whether a wrap is pending, or the cursor is in the last column: elsewhere no character wraps.
fn is_at_edge(terminal: &Terminal) -> bool
    ensures { result ≡ false → (width : ℕ) → wraps_by_width width terminal.now.console ≡ false }
{
    let screen = terminal.screen();
    screen.wrap() || screen.cursor().1 == screen.columns()
}

// Whether a character of so many columns wraps.
fn wraps(width: u8, terminal: &Terminal) -> bool
    ensures { result ≡ wraps_by_width width terminal.now.console }
{
    width > 0 && show_wraps(width == 2, terminal)
}

// Whether a character of one or two columns does.
fn show_wraps(wide: bool, terminal: &Terminal) -> bool
    ensures { result ≡ show_wraps wide terminal.now.console }
{
    let screen = terminal.screen();
    screen.wrap() || (terminal.modes().autowrap && wide && screen.cursor().1 == screen.columns())
}

// Whether row 1 leaves at a line feed.
fn feed_leaves(screen: &Screen) -> bool
    ensures { result ≡ feed_leaves screen.now.picture }
{
    let (top, bottom) = screen.margins();
    screen.cursor().0 == bottom && top == 1 && !screen.is_alternate()
}

// ED, by its part.
fn at_erasure(home: bool, part: u16, screen: &Screen) -> Leaving
    ensures { result ≡ at_erasure home part screen.now.picture }
{
    if (part == 2 || (part == 0 && home)) && !screen.is_alternate() {
        InkedRows
    } else {
        NoRow
    }
}

// SU, by its lines.
fn at_scroll(lines: u16, screen: &Screen) -> Leaving
    ensures { result ≡ at_scroll lines screen.now.picture }
{
    let (top, bottom) = screen.margins();
    if top == 1 && !screen.is_alternate() {
        FirstRows(lines.min(bottom))
    } else {
        NoRow
    }
}

// A control.
fn at_control(byte: u8, screen: &Screen) -> Leaving
    ensures { result ≡ at_control (named controls byte) screen.now.picture }
{
    leaving_first(control_leaves(byte, screen))
}

/// Whether row 1 leaves at a control.
pub(crate) fn control_leaves(byte: u8, screen: &Screen) -> bool
    ensures { leaving_first result ≡ at_control (named controls byte) screen.now.picture }
{
    matches!(byte, 10..=12) && feed_leaves(screen) // LF, VT, FF
}

// An escape sequence.
fn at_escape(inter: Option<u8>, last: u8, screen: &Screen) -> Leaving
    ensures { result ≡ at_escape (escape_named inter last) screen.now.picture }
{
    match inter {
        None if last == b'D' || last == b'E' => leaving_first(feed_leaves(screen)), // IND, NEL
        None if last == b'c' => InkedRows, // RIS
        _ => NoRow,
    }
}

// A control sequence.
fn at_sequence(home: bool, last: u8, params: &[u16], screen: &Screen) -> Leaving
    ensures { result ≡ at_sequence home (named sequences last) params.now screen.now.picture }
{
    match last {
        b'J' => at_erasure(home, param_or(params, 0), screen), // ED
        b'S' => at_scroll(param_or(params, 1), screen), // SU
        b'b' => Repeated(param_or(params, 1)), // REP
        _ => NoRow,
    }
}

// The first parameter, or a default where it is missing or 0.
fn param_or(params: &[u16], default: u16) -> u16
    ensures { result ≡ param_or params.now 0 default }
{
    let param = params.first().copied().unwrap_or(0);
    if param == 0 { default } else { param }
}
