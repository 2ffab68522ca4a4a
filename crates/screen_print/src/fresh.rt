//! Bytes that take nothing of a text away: those of a sequence without its last one, at which nothing changes, and characters
//! that go over the blank rest of a row, where the text doesn't end in a space.

ghost use Rattle.std.specs.Prelude.{◌≡◌, ◌+◌, ◌<◌, ◌≤◌, All, ℕ, length, take, true};
ghost use Rattle.vt_parser.specs.declared.commands.Mode.TheVariants.{Ansi};
ghost use Rattle.vt_parser.specs.Syntax.{is_graphic};
ghost use Rattle.vt_term.specs.Seen.{Shows};
ghost use Rattle.vt_term.specs.Term.{Term, play};
ghost use Rattle.screen_print.specs.EachByte.{still_within};
ghost use Rattle.screen_print.specs.Fresh.{EndsInInk, IsBlankFor, IsFresh, IsWaiting, Keeps};
ghost use Rattle.screen_print.specs.Stills.{still_of};

use crate::free::{CELLS, rounded_up};
use crate::skim::{is_ground, run};
use crate::start::are_spaces;
use crate::still::Still;
use screen_rows::cells_to_margin;
use vt_parser::laws::ground_is_empty;
use vt_parser::{Mode, printable_run, waiting_run};
use vt_screen::Screen;
use vt_screen::laws::right_margins;
use vt_term::laws::{
    characters_bring, controls_bring, glyphs_are_written, parts_bring, plays_in_parts, stays_safe,
};
use vt_term::{Reports, Terminal};

const ESC: u8 = 27;

/// Plays as many of the bytes as are such ones, and tells how many. Both stills become what stands then.
pub(crate) fn play_quietly(
    text: &[char],
    bytes: &[u8],
    before: &mut Still,
    after: &mut Still,
    terminal: &mut Terminal,
    scratch: &mut Reports,
) -> usize
    requires before { before.old ≡ still_of terminal.old.console }
    requires after { after.old ≡ still_of terminal.old.console }
    requires scratch { 20 ≤ length scratch.old.bytes }
    ensures within { result ≤ length bytes.now }
    ensures keeps { (x : Term) → Shows terminal.old x → (count : ℕ) → count < result
        → Keeps text.now (still_within x bytes.now count) (still_within x bytes.now (count + 1)) }
    ensures shows { (x : Term) → Shows terminal.old x
        → Shows terminal.new (play x (take result bytes.now)) }
    ensures before { before.new ≡ still_of terminal.new.console }
    ensures after { after.new ≡ still_of terminal.new.console }
    ensures scratch { 20 ≤ length scratch.new.bytes }
{
    if is_ground(terminal.parser_state()) && bytes.first() != Some(&ESC) {
        return play_fresh(text, bytes, before, after, terminal, scratch);
    }
    play_waiting(text, bytes, terminal, scratch)
}

/// Plays as many as come before the end of a sequence.
fn play_waiting(
    text: &[char],
    bytes: &[u8],
    terminal: &mut Terminal,
    scratch: &mut Reports,
) -> usize
    requires { 20 ≤ length scratch.old.bytes }
    ensures within { result ≤ length bytes.now }
    ensures keeps { (x : Term) → Shows terminal.old x → (count : ℕ) → count < result
        → Keeps text.now (still_within x bytes.now count) (still_within x bytes.now (count + 1)) }
    ensures shows { (x : Term) → Shows terminal.old x
        → Shows terminal.new (play x (take result bytes.now)) }
    ensures same { terminal.new.console ≡ terminal.old.console }
    ensures scratch { 20 ≤ length scratch.new.bytes }
{
    // Whatever the text is, nothing of it goes.
    let _text = text;
    let _screen = terminal.screen();
    let len = waiting_len(bytes, terminal);
    if len == 0 {
        return 0;
    }
    run(&bytes[..len], terminal, scratch);
    len
}

/// How many of the bytes come before the end of a sequence.
pub(crate) fn waiting_len(bytes: &[u8], terminal: &Terminal) -> usize
    ensures within { result ≤ length bytes.now }
    ensures waiting { 0 < result → (x : Term) → Shows terminal.now x
        → IsWaiting x (take result bytes.now) }
{
    if !is_ansi(terminal.modes().mode) {
        return 0;
    }
    waiting_run(terminal.parser_state(), bytes)
}

fn is_ansi(mode: Mode) -> bool
    ensures { result ≡ true → mode ≡ Ansi }
{
    matches!(mode, Mode::Ansi)
}

/// Plays as many as are such characters.
fn play_fresh(
    text: &[char],
    bytes: &[u8],
    before: &mut Still,
    after: &mut Still,
    terminal: &mut Terminal,
    scratch: &mut Reports,
) -> usize
    requires before { before.old ≡ still_of terminal.old.console }
    requires after { after.old ≡ still_of terminal.old.console }
    requires scratch { 20 ≤ length scratch.old.bytes }
    ensures within { result ≤ length bytes.now }
    ensures keeps { (x : Term) → Shows terminal.old x → (count : ℕ) → count < result
        → Keeps text.now (still_within x bytes.now count) (still_within x bytes.now (count + 1)) }
    ensures shows { (x : Term) → Shows terminal.old x
        → Shows terminal.new (play x (take result bytes.now)) }
    ensures before { before.new ≡ still_of terminal.new.console }
    ensures after { after.new ≡ still_of terminal.new.console }
    ensures scratch { 20 ≤ length scratch.new.bytes }
{
    plays_in_parts();
    stays_safe();
    right_margins();
    characters_bring();
    glyphs_are_written();
    parts_bring();
    controls_bring();
    let _screen = terminal.screen();
    let len = fresh_len(text, bytes, terminal);
    if len == 0 {
        return 0;
    }
    run(&bytes[..len], terminal, scratch);
    let changed = before.lines_told(terminal);
    before.catch_up(terminal, changed.as_slice());
    after.catch_up(terminal, changed.as_slice());
    len
}

/// How many of the bytes are such characters, where nothing is pending.
fn fresh_len(text: &[char], bytes: &[u8], terminal: &Terminal) -> usize
    ensures within { result ≤ length bytes.now }
    ensures inked { 0 < result → EndsInInk text.now }
    ensures graphic { All (λ byte. is_graphic byte ≡ true) (take result bytes.now) }
    ensures fresh { 0 < result → (x : Term) → Shows terminal.now x → IsFresh x result }
{
    ground_is_empty();
    if !is_ground(terminal.parser_state()) || terminal.modes().insert {
        return 0;
    }
    if !ends_in_ink(text) {
        return 0;
    }
    blank_len(bytes, terminal.screen())
}

/// Whether a text has a last character that isn't a space.
fn ends_in_ink(text: &[char]) -> bool
    ensures { result ≡ true → EndsInInk text.now }
{
    if text.is_empty() {
        return false;
    }
    text[text.len() - 1] != ' '
}

/// How many of the bytes are graphic characters that come before the right margin, where the row is blank from the cursor
/// on.
fn blank_len(bytes: &[u8], screen: &Screen) -> usize
    ensures within { result ≤ length bytes.now }
    ensures graphic { All (λ byte. is_graphic byte ≡ true) (take result bytes.now) }
    ensures blank { 0 < result → IsBlankFor screen.now.picture result }
{
    right_margins();
    let (line, column) = screen.cursor();
    let cells = cells_to_margin(screen.is_wide(), screen.row(line));
    let at = column as usize - 1;
    if screen.wrap() || cells[at].glyph != b' ' {
        return 0;
    }
    let room = cells.len() - 1 - at;
    let run = printable_run(&bytes[..bytes.len().min(rounded_up(room, CELLS))]);
    let len = run.min(room);
    if len == 0 {
        return 0;
    }
    if !are_spaces(&cells[at..]) {
        return 0;
    }
    len
}
