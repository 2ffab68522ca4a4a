//! Whether all that stands on a screen stood at an end of a chunk, so that nothing of it is told inside the chunk.

ghost use Rattle.std.specs.Prelude.{◌≡◌, ◌≤◌, ℕ, true};
ghost use Rattle.screen_print.specs.ByLine.{NonePasses, row_on, stands_at_no_end, stands_on_neither};
ghost use Rattle.screen_print.specs.FindLines.{ends_line};
ghost use Rattle.screen_print.specs.Start.{IsStart};
ghost use Rattle.vt_screen.specs.Cells.{row_at};

use crate::by_line::{Ends, FEW, Pair, Sought, is_bare};
use crate::standing::ends_line;
use crate::still::Still;
use screen_rows::laws::same_rows_are_equal;
use screen_rows::same_row;
use vt_screen::limits::LINES;

/// So many lines above its own a row is looked for at the end of a chunk.
const FAR: u8 = 2;

/// Whether all that stands on a screen surely stands so at an end of the chunk. It's asked where rows moved, and the first
/// one stood there when the chunk began: then the others mostly did.
pub(crate) fn all_stood(sought: &Sought<'_>, pair: &Pair<'_>, ends: Option<&Ends<'_>>) -> bool
    requires { IsStart sought.now.text.now sought.now.start.now }
    ensures { result ≡ true → (line : ℕ) → 1 ≤ line → line ≤ LINES
        → NonePasses sought.now.text.now pair.now.one.now
        (stands_at_no_end sought.now.text.now ends.entry) line }
{
    let Some(ends) = ends else {
        return false;
    };
    if pair.lines.len() <= FEW || !has_row(pair.one, 1, ends.first, 1) {
        return false;
    }
    for line in 1..LINES + 1 {
        if !has_stood(sought, pair.one, line, ends) {
            return false;
        }
    }
    true
}

/// Whether all that stands in a line of a screen surely stands so at an end of the chunk: where it's the same line when the
/// chunk began, or one not far above it when it ended.
fn has_stood(sought: &Sought<'_>, one: &Still, line: u8, ends: &Ends<'_>) -> bool
    requires start { IsStart sought.now.text.now sought.now.start.now }
    requires low { 1 ≤ line }
    requires high { line ≤ LINES }
    ensures { result ≡ true → NonePasses sought.now.text.now one.now
        (stands_on_neither sought.now.text.now ends.now.first.now ends.now.last.now) line }
{
    one.sound();
    ends.first.sound();
    ends.last.sound();
    if has_row(one, line, ends.first, line) {
        return true;
    }
    if is_bare(sought, one, line) {
        return true;
    }
    for there in line.max(FAR + 1) - FAR..line + 1 {
        if has_row(one, line, ends.last, there) {
            return true;
        }
    }
    false
}

/// Whether a row surely ends its line, and a line of another screen has the same.
fn has_row(one: &Still, line: u8, other: &Still, there: u8) -> bool
    requires low { 1 ≤ line }
    requires high { line ≤ LINES }
    requires there_low { 1 ≤ there }
    requires there_high { there ≤ LINES }
    ensures wide { result ≡ true → one.now.wide ≡ other.now.wide }
    ensures same { result ≡ true → row_at one.now.rows line ≡ row_at other.now.rows there }
    ensures ends { result ≡ true → ends_line (row_on one.now line) ≡ true }
{
    same_rows_are_equal();
    if one.is_wide() != other.is_wide() {
        return false;
    }
    if !same_row(one.row(line), other.row(there), !one.is_wide()) {
        return false;
    }
    ends_line(one.cells(line))
}
