//! Chunks that leave a text where it stands, told by the rows that they change.

ghost use Rattle.std.specs.Prelude.{
  ◌≡◌,
  ◌≤◌,
  ◌<◌,
  ◌+◌,
  ◌-◌,
  ◌++◌,
  All,
  ℕ,
  List,
  [],
  false,
  length,
  nat_eq,
  take,
  true,
};
ghost use Rattle.std.specs.List.{starts_with};
ghost use Rattle.screen_print.specs.FindLines.{begins, find_text};
ghost use Rattle.screen_rows.specs.RowText.{row_text, characters};
ghost use Rattle.screen_print.specs.Quiet.{AllPlacesStay, BeginsUpTo, LineStays, LinesStay, RowStays, SamePlacesStay};
ghost use Rattle.screen_print.specs.Cover.{Cover};
ghost use Rattle.screen_print.specs.Start.{IsStart, starts_at};
ghost use Rattle.screen_print.specs.Stills.{still_of};

use crate::by_line::FEW;
use crate::start::{Start, may_start, may_start_at_end};
use crate::still::Still;
use screen_rows::{cells_to_margin, character};
use vt_screen::laws::screens_are_sound;
use vt_screen::limits::{LINES, NARROW_COLUMNS, WIDE_COLUMNS};
use vt_screen::{Cell, Row};
use vt_term::Terminal;

/// In how many cells of a row of at most 80 columns the first of three side by side is looked for.
const NARROW_STARTS: usize = NARROW_COLUMNS as usize;

/// In how many of one of 132: all that have two more behind them.
const WIDE_STARTS: usize = WIDE_COLUMNS as usize - 2;

/// A text of no more characters that begins in a row ends in the next one at the latest: no row has under 40.
const SHORT: usize = NARROW_COLUMNS as usize / 2 + 1;

/// Whether a chunk that changes these lines at most surely leaves a text where it stands: in what it changes the
/// text begins nowhere. It answers in a fraction of the time in which lines are compared. Where the line moved in which the
/// text was seen it isn't asked.
pub(crate) fn stays(
    text: &[char],
    start: &Start,
    seen: u8,
    before: &Still,
    after: &Terminal,
    lines: &[u8],
) -> bool
    requires start { IsStart text.now start.now }
    requires changed { Cover lines.now before.now.rows after.now.console.picture.rows }
    ensures { result ≡ true → (index due : ℕ)
        → find_text text.now index due before.now (still_of after.now.console) ≡ [] }
{
    let screen = after.screen();
    screens_are_sound(screen);
    before.sound();
    if text.is_empty() || has_moved(seen, lines) {
        return false;
    }
    if before.is_wide() != screen.is_wide() {
        return all_lines_stay(text, start, before, after);
    }
    if !same_rows_stay(text, before, after, lines) {
        return false;
    }
    lines_stay(text, start, before, after, lines)
}

/// Whether so many lines changed that rows moved, and among them is the one in which a text was seen: it hardly stays then.
fn has_moved(seen: u8, lines: &[u8]) -> bool {
    lines.len() > FEW && lines.contains(&seen)
}

/// Whether what each line shows of a text surely stays, whatever rows stand behind it.
fn all_lines_stay(text: &[char], start: &Start, before: &Still, after: &Terminal) -> bool
    requires text { 1 ≤ length text.now }
    requires start { IsStart text.now start.now }
    ensures { result ≡ true → LinesStay text.now before.now (still_of after.now.console) }
{
    for line in 1..LINES + 1 {
        if !line_stays(text, start, before, after, line) {
            return false;
        }
    }
    true
}

/// Whether what the lines that a chunk doesn't change show of a text surely stays. From them a short text runs on
/// into a line that it changes only where that is the next one.
fn same_rows_stay(text: &[char], before: &Still, after: &Terminal, lines: &[u8]) -> bool
    requires text { 1 ≤ length text.now }
    requires wide { before.now.wide ≡ after.now.console.picture.wide }
    requires changed { Cover lines.now before.now.rows after.now.console.picture.rows }
    ensures { result ≡ true → SamePlacesStay text.now before.now (still_of after.now.console) }
{
    screens_are_sound(after.screen());
    before.sound();
    if text.len() <= SHORT {
        return rows_above_stand_alone(text, after, lines);
    }
    rows_stand_alone(text, after)
}

/// Whether from no row right above one of these lines a text may run on into it.
fn rows_above_stand_alone(text: &[char], after: &Terminal, lines: &[u8]) -> bool
    requires text { 1 ≤ length text.now }
    requires lines { All (λ line. line ≤ LINES) lines.now }
    ensures { result ≡ true → All (λ line. 1 < line → LineStays text.now
        (still_of after.now.console) (still_of after.now.console) (line - 1)) lines.now }
{
    for line in lines {
        if !row_above_stands_alone(text, after, *line) {
            return false;
        }
    }
    true
}

/// Whether from the row right above a line no text may run on into it.
fn row_above_stands_alone(text: &[char], after: &Terminal, line: u8) -> bool
    requires text { 1 ≤ length text.now }
    requires high { line ≤ LINES }
    ensures { result ≡ true → 1 < line → LineStays text.now
        (still_of after.now.console) (still_of after.now.console) (line - 1) }
{
    if line <= 1 {
        return true;
    }
    let screen = after.screen();
    stands_alone(
        text,
        cells_to_margin(screen.is_wide(), screen.row(line - 1)),
    )
}

/// Whether from no row of a screen a text may run on into the next one.
fn rows_stand_alone(text: &[char], after: &Terminal) -> bool
    requires { 1 ≤ length text.now }
    ensures { result ≡ true
        → LinesStay text.now (still_of after.now.console) (still_of after.now.console) }
{
    let screen = after.screen();
    let wide = screen.is_wide();
    for line in 1..LINES + 1 {
        if !stands_alone(text, cells_to_margin(wide, screen.row(line))) {
            return false;
        }
    }
    true
}

/// Whether a text surely begins at the same columns of a row whatever rows stand behind it.
fn stands_alone(text: &[char], cells: &[Cell]) -> bool
    requires text { 1 ≤ length text.now }
    requires cells { 1 ≤ length cells.now }
    ensures { result ≡ true → RowStays text.now (characters cells.now) (characters cells.now) }
{
    if character(cells[cells.len() - 1].glyph) == ' ' {
        return true;
    }
    let behind = (cells.len() + 1).saturating_sub(text.len());
    !may_begin_behind(text, cells, behind)
}

/// Whether what these lines show of a text surely stays, and with them all lines, which differ in these.
fn lines_stay(text: &[char], start: &Start, before: &Still, after: &Terminal, lines: &[u8]) -> bool
    requires text { 1 ≤ length text.now }
    requires start { IsStart text.now start.now }
    requires changed { Cover lines.now before.now.rows after.now.console.picture.rows }
    requires others { SamePlacesStay text.now before.now (still_of after.now.console) }
    ensures { result ≡ true → AllPlacesStay text.now before.now (still_of after.now.console) }
{
    for line in lines {
        if !line_stays(text, start, before, after, *line) {
            return false;
        }
    }
    true
}

/// Whether what a line shows of a text surely stays: it begins in neither of its rows, or nowhere where they differ.
fn line_stays(text: &[char], start: &Start, before: &Still, after: &Terminal, line: u8) -> bool
    requires text { 1 ≤ length text.now }
    requires start { IsStart text.now start.now }
    requires low { 1 ≤ line }
    requires high { line ≤ LINES }
    ensures { result ≡ true → LineStays text.now before.now (still_of after.now.console) line }
{
    let screen = after.screen();
    let (wide, row) = (before.is_wide(), before.row(line));
    let (wide_after, row_after) = (screen.is_wide(), screen.row(line));
    if may_begin(start, wide, row) || may_begin(start, wide_after, row_after) {
        return cells_stay(
            text,
            cells_to_margin(wide, row),
            cells_to_margin(wide_after, row_after),
        );
    }
    true
}

/// Whether a text surely begins at the same columns of two rows, with the same to the left: where they
/// differ it begins nowhere.
fn cells_stay(text: &[char], one: &[Cell], other: &[Cell]) -> bool
    requires { 1 ≤ length text.now }
    ensures { result ≡ true → RowStays text.now (characters one.now) (characters other.now) }
{
    let same = same_len(one, other);
    let behind = (same + 1).saturating_sub(text.len());
    if may_begin_behind(text, one, behind) {
        return false;
    }
    !may_begin_behind(text, other, behind)
}

/// How many cells are read alike from the first on.
pub(crate) fn same_len(one: &[Cell], other: &[Cell]) -> usize
    ensures same { take result (characters one.now) ≡ take result (characters other.now) }
    ensures here { result ≤ length one.now }
    ensures there { result ≤ length other.now }
{
    let least = one.len().min(other.len());
    for at in 0..least {
        if one[at].glyph != other[at].glyph {
            return at;
        }
    }
    least
}

/// Whether a text that begins so may begin in a row: its first characters may stand in it, or at its end.
pub(crate) fn may_begin(start: &Start, wide: bool, row: &Row) -> bool
    requires { length row.now.cells ≡ WIDE_COLUMNS }
    ensures { result ≡ false → (text : List ℕ) → IsStart text start.now
        → BeginsUpTo text 0 (row_text wide row.now) }
{
    if may_start_in(start, wide, row) {
        return true;
    }
    may_start_at_end(start, cells_to_margin(wide, row))
}

/// Whether the first characters of a text may stand in a row.
pub(crate) fn may_start_in(start: &Start, wide: bool, row: &Row) -> bool
    requires { length row.now.cells ≡ WIDE_COLUMNS }
    ensures { result ≡ false → (k : ℕ) → k + 2 < length (row_text wide row.now)
        → starts_at start.now row.now.cells k ≡ false }
{
    if wide {
        may_start::<WIDE_STARTS>(start, &row.cells)
    } else {
        may_start::<NARROW_STARTS>(start, &row.cells)
    }
}

/// Whether a text may begin in a row behind so many cells: as far as both go they are alike.
pub(crate) fn may_begin_behind(text: &[char], cells: &[Cell], behind: usize) -> bool
    ensures { result ≡ false → BeginsUpTo text.now behind (characters cells.now) }
{
    may_begin_between(text, cells, behind, cells.len())
}

/// The same in the columns behind so many cells, up to another.
pub(crate) fn may_begin_between(text: &[char], cells: &[Cell], behind: usize, end: usize) -> bool
    requires { end ≤ length cells.now }
    ensures { result ≡ false → (rest : List ℕ) (column : ℕ) → behind < column → column ≤ end
        → begins text.now (characters cells.now ++ rest) column ≡ false }
{
    for at in behind..end {
        if agrees(text, &cells[at..]) {
            return true;
        }
    }
    false
}

/// Whether cells are read as a text begins, as far as both go.
#[inline(always)]
pub(crate) fn agrees(text: &[char], cells: &[Cell]) -> bool
    ensures no { result ≡ false → (rest : List ℕ)
        → starts_with nat_eq (characters cells.now ++ rest) text.now ≡ false }
    ensures yes { result ≡ true → length text.now ≤ length cells.now → (rest : List ℕ)
        → starts_with nat_eq (characters cells.now ++ rest) text.now ≡ true }
    ensures front { result ≡ true → length cells.now ≤ length text.now
        → characters cells.now ≡ take (length cells.now) text.now }
{
    for at in 0..text.len().min(cells.len()) {
        if character(cells[at].glyph) != text[at] {
            return false;
        }
    }
    true
}
