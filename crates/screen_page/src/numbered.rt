//! Rows that are kept of a screen while the next chunk is played, and a number of each, by which the first line that was
//! a row is found.

ghost use Rattle.std.specs.Prelude.{◌≡◌, ℕ, ◌<◌, ◌≤◌, false, length};
ghost use Rattle.vt_screen.specs.Cells.{row_at};
ghost use Rattle.vt_screen.specs.Touched.{Told};
ghost use Rattle.screen_rows.specs.KeptRows.{AreSources, IsFrom};
ghost use Rattle.screen_rows.specs.SameRows.{changed_lines, same_row};
ghost use Rattle.screen_page.specs.Entries.{line_of};
ghost use Rattle.screen_page.specs.Numbered.{AreCarried, AreFirsts, AreNumbers, bucket_of, IsCarried, row_number};

use screen_rows::{Compared, KeptRows, ROWS, same_row};
use std::marker::Model;
use vt_screen::limits::{LINES, NARROW_COLUMNS, WIDE_COLUMNS};
use vt_screen::{Row, Screen};

/// How many buckets there are for numbers.
const BUCKETS: usize = 256;

/// What spreads numbers over them.
const SPREAD: u16 = 40_503;

/// Rows that are kept, a number of each, which most others don't share, and for each bucket of numbers the first line
/// that has one of it, or 0.
#[derive(Drop)]
pub(crate) struct NumberedRows {
    kept: KeptRows,
    numbers: [u16; ROWS],
    firsts: [u8; BUCKETS],
}

impl Model for NumberedRows {
    ghost use Rattle.screen_rows.specs.KeptRows.{Kept};
    ghost use Rattle.screen_page.specs.NumberedView.{AreNumbered, kept_of};

    ghost Value = { Kept };

    ghost view = { kept_of };

    ghost invariant = { AreNumbered };
}

impl NumberedRows {
    /// A copy of the rows of a screen.
    pub(crate) fn of(screen: &Screen) -> Self
        ensures { result.rows ≡ screen.now.picture.rows }
    {
        let kept = KeptRows::of(screen);
        let numbers = numbers_of(screen, &[0; ROWS], &[0; ROWS]);
        let firsts = firsts_of(&numbers);
        NumberedRows {
            kept,
            numbers,
            firsts,
        }
    }

    /// What the screen shows beside them, which marks all lines that it may have touched since.
    pub(crate) fn compare(&self, screen: &Screen) -> Compared
        requires { Told self.now.rows screen.now }
        ensures lines { result.lines.items
            ≡ changed_lines self.now.rows screen.now.picture.rows }
        ensures sources { AreSources self.now screen.now result.sources }
    {
        self.kept.compare(screen)
    }

    /// The first line that was the row of a line of a screen, of which the line is known that had it in its slot, or 0.
    pub(crate) fn line_of(&self, screen: &Screen, line: u8, source: u8) -> Option<u8>
        requires low { 1 ≤ line }
        requires high { line ≤ LINES }
        requires source { IsFrom self.now screen.now line source }
        ensures { result ≡ line_of self.now.rows (row_at screen.now.picture.rows line) }
    {
        let number = number_of(screen, line, source, &self.numbers);
        let first = self.firsts[bucket_of(number)];
        if first == 0 {
            return None;
        }
        if first == source {
            return Some(source);
        }
        self.line_from(first, screen.row(line), number)
    }

    /// The first line that was a row, from one on, before which none was.
    fn line_from(&self, first: u8, row: &Row, number: u16) -> Option<u8>
        requires low { 1 ≤ first }
        requires before { (k : ℕ) → 1 ≤ k → k ≤ LINES → k < first
            → same_row (row_at self.now.rows k) row.now ≡ false }
        requires number { number ≡ row_number row.now }
        ensures { result ≡ line_of self.now.rows row.now }
    {
        for line in first..LINES + 1 {
            if self.is_row(line, row, number) {
                return Some(line);
            }
        }
        None
    }

    /// Whether a line was a row: where their numbers differ, it wasn't.
    fn is_row(&self, line: u8, row: &Row, number: u16) -> bool
        requires low { 1 ≤ line }
        requires high { line ≤ LINES }
        requires number { number ≡ row_number row.now }
        ensures { result ≡ same_row (row_at self.now.rows line) row.now }
    {
        self.numbers[line as usize - 1] == number && same_row(self.kept.row(line), row, false)
    }

    /// They become the rows of a screen, of which it is known what it shows beside them.
    pub(crate) fn catch_up(&mut self, screen: &Screen, sources: &[u8; ROWS])
        requires { AreSources self.old screen.now sources.now }
        ensures { self.new.rows ≡ screen.now.picture.rows }
    {
        self.numbers = numbers_of(screen, &self.numbers, sources);
        self.firsts = firsts_of(&self.numbers);
        self.kept.catch_up(screen, sources);
    }
}

/// The number of a row: of its cells, the further right the heavier.
fn row_number(row: &Row) -> u16
    requires { length row.now.cells ≡ WIDE_COLUMNS }
    ensures { result ≡ row_number row.now }
{
    let mut number: u16 = 0;
    for at in 0..NARROW_COLUMNS as usize {
        let weight = 2 * at as u16 + 1;
        number = number.wrapping_add(row.cells[at].number().wrapping_mul(weight));
    }
    number
}

/// The number of the row of a line: that of the line that had it, or else it is reckoned.
fn number_of(screen: &Screen, line: u8, source: u8, numbers: &[u16; ROWS]) -> u16
    requires low { 1 ≤ line }
    requires high { line ≤ LINES }
    requires carried { IsCarried numbers.now source (row_at screen.now.picture.rows line) }
    ensures { result ≡ row_number (row_at screen.now.picture.rows line) }
{
    if source > 0 {
        numbers[source as usize - 1]
    } else {
        row_number(screen.row(line))
    }
}

/// The numbers of the rows of a screen. Most lines have theirs still.
fn numbers_of(screen: &Screen, numbers: &[u16; ROWS], sources: &[u8; ROWS]) -> [u16; ROWS]
    requires { AreCarried numbers.now sources.now screen.now.picture.rows }
    ensures { AreNumbers screen.now.picture.rows result }
{
    let mut these = *numbers;
    for line in 1..LINES + 1 {
        let source = sources[line as usize - 1];
        if source != line {
            these[line as usize - 1] = number_of(screen, line, source, numbers);
        }
    }
    these
}

/// The bucket of a number.
fn bucket_of(number: u16) -> usize
    ensures value { result ≡ bucket_of number }
    ensures below { result < BUCKETS }
{
    (number.wrapping_mul(SPREAD) / 256) as usize
}

/// For each bucket the first line whose number is of it, or 0: the lines are gone through from the last one up.
fn firsts_of(numbers: &[u16; ROWS]) -> [u8; BUCKETS]
    ensures { AreFirsts numbers.now result }
{
    let mut firsts = [0; BUCKETS];
    for passed in 0..LINES {
        let line = LINES - passed;
        firsts[bucket_of(numbers[line as usize - 1])] = line;
    }
    firsts
}
