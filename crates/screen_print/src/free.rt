//! Characters that go over the blank rest of a row: a key comes to stand there only by its last two side by side.

ghost use Rattle.std.specs.Prelude.{◌≡◌, ◌+◌, ◌-◌, ◌<◌, ◌≤◌, ℕ, false, length, slice_index_or, take, true};
ghost use Rattle.vt_screen.specs.Cells.{blank};
ghost use Rattle.screen_print.specs.Skim.{IsFree, is_pair};

use crate::key::Ending;
use crate::start::are_spaces;
use screen_rows::cells_to_margin;
use vt_parser::printable_run;
use vt_screen::laws::right_margins;
use vt_screen::limits::WIDE_COLUMNS;
use vt_screen::{Row, Screen};

/// How many cells are looked at together, and how many pairs of bytes.
pub(crate) const CELLS: usize = 16;

const PAIRS: usize = 32;

/// The cells of a row.
const ROW: usize = WIDE_COLUMNS as usize;

/// How many bytes from the first on are such characters.
pub(crate) fn free_len(ending: Ending, bytes: &[u8], screen: &Screen) -> usize
    ensures within { result ≤ length bytes.now }
    ensures free { 0 < result → IsFree ending screen.now.picture (take result bytes.now) }
{
    right_margins();
    let (line, column) = screen.cursor();
    let row = screen.row(line);
    let at = column as usize;
    let room = cells_to_margin(screen.is_wide(), row).len() - at;
    let run = printable_run(&bytes[..bytes.len().min(rounded_up(room, CELLS))]);
    let len = run.min(room);
    if len == 0 || screen.wrap() || !is_blank(row, at, len) {
        return 0;
    }
    if is_begun(ending, row, at, bytes[0]) {
        return 0;
    }
    apart_len(ending, bytes, len)
}

/// More than so many, by whole groups.
pub(crate) fn rounded_up(len: usize, group: usize) -> usize
    requires few { len ≤ ROW }
    requires some { 0 < group }
    requires small { group ≤ PAIRS }
    ensures { len ≤ result }
{
    len - len % group + group
}

/// Whether so many cells of a row from a place on show a space, and some more behind them.
fn is_blank(row: &Row, at: usize, len: usize) -> bool
    requires whole { length row.now.cells ≡ WIDE_COLUMNS }
    requires within { at + len ≤ ROW }
    ensures { result ≡ true → (k : ℕ) → k < len
        → (slice_index_or row.now.cells (at + k) blank).glyph ≡ 32 }
{
    let cells = &row.cells[..];
    let end = at + rounded_up(len, CELLS).min(ROW - at);
    are_spaces(&cells[at..end])
}

/// Whether the cell left of a column and a byte that comes there show an ending.
fn is_begun(ending: Ending, row: &Row, column: usize, byte: u8) -> bool
    requires whole { length row.now.cells ≡ WIDE_COLUMNS }
    requires within { column ≤ ROW }
    ensures { result ≡ false → 1 < column
        → is_pair ending (slice_index_or row.now.cells (column - 2) blank).glyph byte ≡ false }
{
    if column <= 1 || byte != ending.last {
        return false;
    }
    row.cells[column - 2].glyph == ending.near
}

/// How many of so many bytes from the first on show no ending.
fn apart_len(ending: Ending, bytes: &[u8], len: usize) -> usize
    requires some { 0 < len }
    requires few { len ≤ ROW }
    requires here { len ≤ length bytes.now }
    ensures some { 0 < result }
    ensures within { result ≤ len }
    ensures apart { (k : ℕ) → k + 1 < result
        → is_pair ending (slice_index_or bytes.now k 0) (slice_index_or bytes.now (k + 1) 0) ≡ false }
{
    let most = rounded_up(len, PAIRS).min(bytes.len() - 1);
    if has_pair(ending, &bytes[..most], &bytes[1..most + 1]) {
        return pair_at(ending, bytes, len);
    }
    len
}

/// Whether at one place the bytes of two slices show an ending. All are looked at, so that many are at once.
#[inline(never)]
fn has_pair(ending: Ending, one: &[u8], two: &[u8]) -> bool
    requires { length one.now ≡ length two.now }
    ensures { result ≡ false → (k : ℕ) → k < length one.now
        → is_pair ending (slice_index_or one.now k 0) (slice_index_or two.now k 0) ≡ false }
{
    let mut any = false;
    for at in 0..one.len() {
        any |= (one[at] == ending.near) & (two[at] == ending.last);
    }
    any
}

/// Up to where no two of so many bytes show one side by side.
#[cold]
fn pair_at(ending: Ending, bytes: &[u8], len: usize) -> usize
    requires some { 0 < len }
    requires here { len ≤ length bytes.now }
    ensures some { 0 < result }
    ensures within { result ≤ len }
    ensures apart { (k : ℕ) → k + 1 < result
        → is_pair ending (slice_index_or bytes.now k 0) (slice_index_or bytes.now (k + 1) 0) ≡ false }
{
    for at in 1..len {
        if bytes[at - 1] == ending.near && bytes[at] == ending.last {
            return at;
        }
    }
    len
}
