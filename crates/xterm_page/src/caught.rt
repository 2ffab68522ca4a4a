//! Rows that are kept of a sheet become those that it shows.

ghost use Rattle.std.specs.Prelude.{◌≡◌, ◌≢◌, ℕ, ◌+◌, ◌-◌, ◌<◌, ◌≤◌, ◌++◌, IfSome, drop, length, take};
ghost use Rattle.std.specs.List.{flat_map};
ghost use Rattle.sheet.specs.Grid.{AreMarked as MarksTell, IsUsed, row_at};
ghost use Rattle.xterm_page.specs.Parts.{AreLines, AreNumbered, AreWide, InSheet, KeptAll, renewed, told};
ghost use Rattle.xterm_page.specs.Same.{row_number};

use crate::kept::{Block, KeptRow, Renewal};
use crate::same::row_number;
use sheet::Cell;
use xterm_screen::Screen;
use xterm_screen::laws::screens_are_sound;

/// The rows become those of the sheet that is shown, of the same size, where it is known which lines differ. Rows that
/// came up together change places, so that few cells are copied.
pub(crate) fn catch_up(rows: &mut [KeptRow], changed: &[Renewal], screen: &Screen)
    requires rows { length rows.old ≡ screen.now.picture.lines }
    requires lines { AreLines screen.now.picture.lines changed.now }
    requires numbers { AreNumbered screen.now.picture.rows changed.now }
    ensures { AreWide screen.now.picture.lines screen.now.picture.columns rows.old
        → MarksTell rows.old screen.now.origins screen.now.picture.rows
        → flat_map told changed.now ≡ renewed screen.now.origins screen.now.picture.lines rows.old
        screen.now.picture.rows
        → KeptAll screen.now.picture.lines screen.now.picture.columns rows.new
        screen.now.picture.rows }
{
    screens_are_sound(screen);
    for at in 0..changed.len() {
        match changed[at] {
            Renewal::Line(line, renewed) => copy_line(rows, screen, line, renewed.number),
            Renewal::Moved(block) => move_block(rows, block),
        }
    }
}

/// The row of a line becomes a copy of the one that is shown, whose number may be known.
fn copy_line(rows: &mut [KeptRow], screen: &Screen, line: u16, number: Option<u64>)
    requires rows { length rows.old ≡ screen.now.picture.lines }
    requires low { 1 ≤ line }
    requires high { line ≤ screen.now.picture.lines }
    requires number { IfSome number (λ n. n ≡ row_number (row_at screen.now.picture.rows line)) }
    ensures whole { length rows.new ≡ length rows.old }
    ensures copied { length (row_at rows.old line) ≡ screen.now.picture.columns
        → row_at rows.new line ≡ row_at screen.now.picture.rows line }
    ensures others { (k : ℕ) → 1 ≤ k → k ≢ line → row_at rows.new k ≡ row_at rows.old k }
    ensures wide { length (row_at screen.now.picture.rows line) ≡ screen.now.picture.columns }
{
    let (cells, used) = (screen.row(line), screen.used(line));
    let number = number_of(number, cells, used);
    let row = &mut rows[line as usize - 1];
    row.copy_from(cells, used, number);
}

/// The number of a row, which may be known.
fn number_of(number: Option<u64>, cells: &[Cell], used: usize) -> u64
    requires used { IsUsed cells.now used }
    requires number { IfSome number (λ n. n ≡ row_number cells.now) }
    ensures { result ≡ row_number cells.now }
{
    match number {
        Some(number) => number,
        None => row_number(cells, used),
    }
}

/// The rows of a block become those that lie so many lines further down. As far as they are in the block these move up
/// themselves, and the others are copied.
fn move_block(rows: &mut [KeptRow], block: Block)
    requires { InSheet (length rows.old) block }
    ensures whole { length rows.new ≡ length rows.old }
    ensures before { (k : ℕ) → 1 ≤ k → k < block.from → row_at rows.new k ≡ row_at rows.old k }
    ensures moved { (columns : ℕ) → AreWide (length rows.old) columns rows.old → (k : ℕ)
        → block.from ≤ k → k < block.end → row_at rows.new k ≡ row_at rows.old (k + block.shift) }
    ensures behind { (k : ℕ) → block.end ≤ k → row_at rows.new k ≡ row_at rows.old k }
{
    let (from, end) = (block.from as usize, block.end as usize);
    let shift = block.shift as usize;
    let next = from.max(end.saturating_sub(shift));
    turn_rows(rows, from, next, shift);
    copy_rows(rows, next, end, shift);
}

/// Rows move up by so many lines; those that they go over come behind them.
fn turn_rows(rows: &mut [KeptRow], from: usize, to: usize, shift: usize)
    requires low { 1 ≤ from }
    requires apart { from ≤ to }
    requires high { to + shift ≤ length rows.old + 1 }
    ensures whole { length rows.new ≡ length rows.old }
    ensures before { (k : ℕ) → 1 ≤ k → k < from → row_at rows.new k ≡ row_at rows.old k }
    ensures moved { (k : ℕ) → from ≤ k → k < to → row_at rows.new k ≡ row_at rows.old (k + shift) }
    ensures turned { (k : ℕ) → to ≤ k → k < to + shift → row_at rows.new k
        ≡ row_at rows.old (k + from - to) }
    ensures behind { (k : ℕ) → to + shift ≤ k → row_at rows.new k ≡ row_at rows.old k }
{
    let (first, last) = (from - 1, to - 1);
    turn_about(&mut rows[first..last + shift], shift);
}

/// The first so many rows come last. Where they are several three turns about do it: `rotate_left` fills 4 KB of the stack
/// with zeros first.
fn turn_about(rows: &mut [KeptRow], count: usize)
    requires { count ≤ length rows.old }
    ensures { rows.new ≡ drop count rows.old ++ take count rows.old }
{
    if count == 1 {
        rows.rotate_left(count);
        return;
    }
    let (front, behind) = rows.split_at_mut(count);
    front.reverse();
    behind.reverse();
    rows.reverse();
}

/// The rows from one line to before another become copies of those so many lines further down.
fn copy_rows(rows: &mut [KeptRow], from: usize, end: usize, shift: usize)
    requires low { 1 ≤ from }
    requires apart { from ≤ end }
    requires some { 1 ≤ shift }
    requires high { end + shift ≤ length rows.old + 1 }
    ensures whole { length rows.new ≡ length rows.old }
    ensures before { (k : ℕ) → 1 ≤ k → k < from → row_at rows.new k ≡ row_at rows.old k }
    ensures copied { (columns : ℕ) → ((k : ℕ) → from ≤ k → k < end + shift
        → length (row_at rows.old k) ≡ columns) → (k : ℕ) → from ≤ k → k < end
        → row_at rows.new k ≡ row_at rows.old (k + shift) }
    ensures behind { (k : ℕ) → end ≤ k → row_at rows.new k ≡ row_at rows.old k }
{
    for line in from..end {
        copy_row(rows, line, line + shift);
    }
}

/// The row of a line becomes a copy of one further down.
fn copy_row(rows: &mut [KeptRow], line: usize, other: usize)
    requires low { 1 ≤ line }
    requires below { line < other }
    requires high { other ≤ length rows.old }
    ensures whole { length rows.new ≡ length rows.old }
    ensures copied { length (row_at rows.old line) ≡ length (row_at rows.old other)
        → row_at rows.new line ≡ row_at rows.old other }
    ensures others { (k : ℕ) → 1 ≤ k → k ≢ line → row_at rows.new k ≡ row_at rows.old k }
{
    let (front, back) = rows.split_at_mut(other - 1);
    front[line - 1].copy_row(&back[0]);
}
