//! The places of one screen that may have gone from another one, found line by line.

ghost use Rattle.std.specs.Prelude.{
  ◌≡◌,
  ◌≤◌,
  ◌<◌,
  ◌+◌,
  ◌-◌,
  IfSome,
  [],
  ℕ,
  false,
  length,
  take,
  true,
};
ghost use Rattle.std.specs.Cmp.Lexicographic.{pointwise};
ghost use Rattle.screen_print.specs.ByLine.{
  AreKept,
  AreLost,
  DifferIn,
  IsKept,
  begins_on,
  row_on,
};
ghost use Rattle.screen_print.specs.FindLines.{ends_line};
ghost use Rattle.screen_print.specs.Moved.{IsMoved, LeadsOn};
ghost use Rattle.screen_print.specs.Start.{IsStart};
ghost use Rattle.screen_rows.specs.SameRows.{same_cell};
ghost use Rattle.vt_screen.specs.Cells.{row_at};

use crate::alike::BLOCK;
use crate::by_line::{FEW, Pair, Sought, is_bare, stands};
use crate::moved::{Moved, is_same};
use crate::quiet::same_len;
use crate::standing::{Place, ends_line};
use crate::still::{ROWS, Still};
use arrayvec::ArrayVec;
use screen_rows::same_first;
use vt_screen::limits::LINES;

/// Places of one screen, each the first of its line that may have gone from the other. They are those of the lines above
/// the one that is next, and so far no row of the other screen was taken for one of these lines from another line on.
#[derive(Drop)]
pub(crate) struct Lost {
    pub(crate) places: ArrayVec<Place, ROWS>,
    next: u8,
    pub(crate) ready: u8,
}

impl Lost {
    /// No places, before the first line.
    pub(crate) fn none() -> Self
        ensures places { result.places.items ≡ [] }
        ensures next { result.next ≡ 1 }
        ensures ready { result.ready ≡ 1 }
    {
        Lost {
            places: ArrayVec::new(),
            next: 1,
            ready: 1,
        }
    }
}

/// Takes lines until a place may have gone, and tells the first of those that were taken last: what stands above it
/// stands on the other screen too.
pub(crate) fn pass_kept(sought: &Sought<'_>, pair: &Pair<'_>, lost: &mut Lost) -> u8
    requires start { IsStart sought.now.text.now sought.now.start.now }
    requires lines { DifferIn pair.now.lines.now pair.now.one.now pair.now.other.now }
    requires moved { IsMoved pair.now.moved pair.now.one.now pair.now.other.now }
    requires none { lost.old.places.items ≡ [] }
    requires next { lost.old.next ≡ 1 }
    requires ready { lost.old.ready ≡ 1 }
    ensures low { 1 ≤ result }
    ensures high { result ≤ lost.new.ready }
    ensures within { lost.new.ready ≤ LINES + 1 }
    ensures few { length lost.new.places.items ≤ result }
    ensures above { (there : ℕ) × AreLost sought.now.text.now pair.now.one.now result
        pair.now.other.now there [] }
    ensures lost { AreLost sought.now.text.now pair.now.one.now lost.new.ready
        pair.now.other.now lost.new.next lost.new.places.items }
    ensures all { length lost.new.places.items ≡ 0 → result ≡ LINES + 1 }
{
    let mut line = lost.ready;
    while line <= LINES {
        push_block(sought, pair, lost);
        if !lost.places.is_empty() {
            return line;
        }
        line = lost.ready;
    }
    line
}

/// Takes more lines, if this one wasn't taken yet.
pub(crate) fn push_at(sought: &Sought<'_>, pair: &Pair<'_>, line: u8, lost: &mut Lost)
    requires start { IsStart sought.now.text.now sought.now.start.now }
    requires lines { DifferIn pair.now.lines.now pair.now.one.now pair.now.other.now }
    requires moved { IsMoved pair.now.moved pair.now.one.now pair.now.other.now }
    requires low { 1 ≤ line }
    requires high { line ≤ LINES }
    requires ready { line ≤ lost.old.ready }
    requires few { length lost.old.places.items ≤ line }
    requires before { AreLost sought.now.text.now pair.now.one.now lost.old.ready
        pair.now.other.now lost.old.next lost.old.places.items }
    ensures ready { line < lost.new.ready }
    ensures few { length lost.new.places.items ≤ line }
    ensures after { AreLost sought.now.text.now pair.now.one.now lost.new.ready
        pair.now.other.now lost.new.next lost.new.places.items }
{
    if line < lost.ready {
        return;
    }
    push_block(sought, pair, lost);
}

/// Takes a block of lines whose rows moved together, or stand where they stood, up to one that ends its line: all that
/// stands in them stands on the other screen too. Where the next line is in none it's taken alone.
fn push_block(sought: &Sought<'_>, pair: &Pair<'_>, lost: &mut Lost)
    requires start { IsStart sought.now.text.now sought.now.start.now }
    requires lines { DifferIn pair.now.lines.now pair.now.one.now pair.now.other.now }
    requires moved { IsMoved pair.now.moved pair.now.one.now pair.now.other.now }
    requires low { 1 ≤ lost.old.ready }
    requires high { lost.old.ready ≤ LINES }
    requires before { AreLost sought.now.text.now pair.now.one.now lost.old.ready
        pair.now.other.now lost.old.next lost.old.places.items }
    ensures further { lost.old.ready < lost.new.ready }
    ensures within { lost.new.ready ≤ LINES + 1 }
    ensures few { length lost.new.places.items ≤ lost.old.ready }
    ensures after { AreLost sought.now.text.now pair.now.one.now lost.new.ready
        pair.now.other.now lost.new.next lost.new.places.items }
{
    pair.one.sound();
    pair.other.sound();
    let line = lost.ready;
    let block = block_at(pair, line, lost.next);
    let end = ended_end(pair, line, block.end);
    if line < end {
        lost.next = end + block.down - block.up;
        lost.ready = end;
        return;
    }
    push_lost(sought, pair, line, lost);
    lost.ready = line + 1;
}

/// Lines, this one among them, that the other screen has from another line on in the same order: those that moved
/// together, or those before the first that differs.
fn block_at(pair: &Pair<'_>, line: u8, next: u8) -> Moved
    requires lines { DifferIn pair.now.lines.now pair.now.one.now pair.now.other.now }
    requires moved { IsMoved pair.now.moved pair.now.one.now pair.now.other.now }
    requires low { 1 ≤ line }
    requires high { line ≤ LINES }
    requires next { next ≤ LINES + 1 }
    ensures moved { IsMoved result pair.now.one.now pair.now.other.now }
    ensures leads { LeadsOn result line next }
{
    let moved = pair.moved;
    if moved.from <= line && line < moved.end {
        if next <= line + moved.down - moved.up {
            return moved;
        }
    }
    if line < next || pair.lines.len() > FEW {
        return Moved::none();
    }
    Moved {
        from: line,
        end: first_differing(pair, line),
        down: 0,
        up: 0,
    }
}

/// The first line from one on that may differ, or the one behind all lines.
fn first_differing(pair: &Pair<'_>, line: u8) -> u8
    requires lines { DifferIn pair.now.lines.now pair.now.one.now pair.now.other.now }
    requires low { 1 ≤ line }
    ensures within { result ≤ LINES + 1 }
    ensures same { (k : ℕ) → line ≤ k → k < result
        → row_at pair.now.one.now.rows k ≡ row_at pair.now.other.now.rows k }
{
    let mut end = LINES + 1;
    for changed in pair.lines {
        if line <= *changed {
            end = end.min(*changed);
        }
    }
    end
}

/// The line behind the last of these lines that ends its line, where it goes to the same margin on both screens. Where
/// there is none it's the first of them.
fn ended_end(pair: &Pair<'_>, line: u8, end: u8) -> u8
    requires low { 1 ≤ line }
    requires high { end ≤ LINES + 1 }
    ensures from { line ≤ result }
    ensures within { line < result → result ≤ end }
    ensures wide { line < result → pair.now.one.now.wide ≡ pair.now.other.now.wide }
    ensures ends { line < result → ends_line (row_on pair.now.one.now (result - 1)) ≡ true }
{
    let mut at = end;
    while at > line {
        if ends_its_line(pair, at - 1) {
            return at;
        }
        at -= 1;
    }
    line
}

/// Puts the first place of a line that may have gone behind those of the lines above it, if there is one: it is looked
/// for in the line of the other screen where the row came to stand.
fn push_lost(sought: &Sought<'_>, pair: &Pair<'_>, line: u8, lost: &mut Lost)
    requires start { IsStart sought.now.text.now sought.now.start.now }
    requires lines { DifferIn pair.now.lines.now pair.now.one.now pair.now.other.now }
    requires moved { IsMoved pair.now.moved pair.now.one.now pair.now.other.now }
    requires low { 1 ≤ line }
    requires high { line ≤ LINES }
    requires before { AreLost sought.now.text.now pair.now.one.now line
        pair.now.other.now lost.old.next lost.old.places.items }
    ensures { AreLost sought.now.text.now pair.now.one.now (line + 1)
        pair.now.other.now lost.new.next lost.new.places.items }
{
    if let Some(there) = same_line(pair, line, lost.next) {
        push_same(sought, pair, line, there, lost);
        return;
    }
    if is_bare(sought, pair.one, line) {
        return;
    }
    match partner(pair, line, lost.next) {
        Some(found) => push_changed(sought, pair, line, found.there, found.same, lost),
        None => push_alone(sought, pair, line, lost),
    }
}

/// The same by a line of the other screen that has the same row: where it ends its line, its places stand there.
fn push_same(sought: &Sought<'_>, pair: &Pair<'_>, line: u8, there: u8, lost: &mut Lost)
    requires start { IsStart sought.now.text.now sought.now.start.now }
    requires low { 1 ≤ line }
    requires high { line ≤ LINES }
    requires next { lost.old.next ≤ there }
    requires there { there ≤ LINES }
    requires same { row_at pair.now.one.now.rows line ≡ row_at pair.now.other.now.rows there }
    requires before { AreLost sought.now.text.now pair.now.one.now line
        pair.now.other.now lost.old.next lost.old.places.items }
    ensures { AreLost sought.now.text.now pair.now.one.now (line + 1)
        pair.now.other.now lost.new.next lost.new.places.items }
{
    pair.one.sound();
    pair.other.sound();
    if ends_its_line(pair, line) {
        lost.next = there + 1;
        return;
    }
    push_changed(sought, pair, line, there, true, lost);
}

/// Puts the first place of a line that no line of the other screen is taken for.
fn push_alone(sought: &Sought<'_>, pair: &Pair<'_>, line: u8, lost: &mut Lost)
    requires start { IsStart sought.now.text.now sought.now.start.now }
    requires low { 1 ≤ line }
    requires high { line ≤ LINES }
    requires before { AreLost sought.now.text.now pair.now.one.now line
        pair.now.other.now lost.old.next lost.old.places.items }
    ensures { AreLost sought.now.text.now pair.now.one.now (line + 1)
        pair.now.other.now lost.new.next lost.new.places.items }
{
    let columns = pair.one.cells(line).len() as u8;
    let column = first_standing(sought, pair.one, line, 1, columns);
    if column <= columns {
        lost.places.push(Place { line, column });
    }
}

/// A line of the other screen with the same row, where one is in sight: where it's known to have moved, the first of those
/// from one on, since rows mostly move together, or the line itself, where it doesn't differ.
fn same_line(pair: &Pair<'_>, line: u8, next: u8) -> Option<u8>
    requires lines { DifferIn pair.now.lines.now pair.now.one.now pair.now.other.now }
    requires moved { IsMoved pair.now.moved pair.now.one.now pair.now.other.now }
    requires low { 1 ≤ line }
    requires high { line ≤ LINES }
    requires next { 1 ≤ next }
    ensures low { IfSome result (λ there. next ≤ there) }
    ensures high { IfSome result (λ there. there ≤ LINES) }
    ensures same { IfSome result (λ there.
        row_at pair.now.one.now.rows line ≡ row_at pair.now.other.now.rows there) }
{
    if let Some(there) = moved_line(pair, line, next) {
        return Some(there);
    }
    if pair.lines.len() > FEW && next <= LINES && is_same(pair.one, line, pair.other, next) {
        return Some(next);
    }
    if line >= next && !pair.lines.contains(&line) {
        return Some(line);
    }
    None
}

/// The line of the other screen, from one on, to which the row of a line is known to have moved.
fn moved_line(pair: &Pair<'_>, line: u8, next: u8) -> Option<u8>
    requires moved { IsMoved pair.now.moved pair.now.one.now pair.now.other.now }
    requires high { line ≤ LINES }
    ensures low { IfSome result (λ there. next ≤ there) }
    ensures high { IfSome result (λ there. there ≤ LINES) }
    ensures same { IfSome result (λ there.
        row_at pair.now.one.now.rows line ≡ row_at pair.now.other.now.rows there) }
{
    let moved = pair.moved;
    if line < moved.from || line >= moved.end {
        return None;
    }
    let there = line + moved.down - moved.up;
    if there < next {
        return None;
    }
    Some(there)
}

/// A line of the other screen, and whether it surely has the same row.
#[derive(Clone, Copy)]
struct Counterpart {
    there: u8,
    same: bool,
}

/// The line of the other screen, from one on, where the row of a line that differs came to stand, or else the line itself.
/// It has none where that line is taken by a row from below.
fn partner(pair: &Pair<'_>, line: u8, next: u8) -> Option<Counterpart>
    requires low { 1 ≤ line }
    requires high { line ≤ LINES }
    requires next { 1 ≤ next }
    ensures low { IfSome result (λ found. next ≤ found.there) }
    ensures high { IfSome result (λ found. found.there ≤ LINES) }
    ensures same { IfSome result (λ found. found.same ≡ true
        → row_at pair.now.one.now.rows line ≡ row_at pair.now.other.now.rows found.there) }
{
    if pair.lines.len() < 2 {
        return at_least(line, next);
    }
    if let Some(there) = same_from(pair, line, next) {
        return Some(Counterpart { there, same: true });
    }
    if is_taken(pair, line) {
        return None;
    }
    at_least(line, next)
}

/// A line whose row may be another one, if it isn't above a line.
fn at_least(line: u8, next: u8) -> Option<Counterpart>
    ensures { IfSome result (λ found.
        (found.there ≡ line) × (next ≤ found.there) × (found.same ≡ false)) }
{
    if line < next {
        return None;
    }
    Some(Counterpart {
        there: line,
        same: false,
    })
}

/// The first line of the other screen, from one on, that has the row of a line.
fn same_from(pair: &Pair<'_>, line: u8, next: u8) -> Option<u8>
    requires low { 1 ≤ line }
    requires high { line ≤ LINES }
    requires next { 1 ≤ next }
    ensures low { IfSome result (λ there. next ≤ there) }
    ensures high { IfSome result (λ there. there ≤ LINES) }
    ensures same { IfSome result (λ there.
        row_at pair.now.one.now.rows line ≡ row_at pair.now.other.now.rows there) }
{
    for there in next..LINES + 1 {
        if begins_same(pair, line, there) && is_same(pair.one, line, pair.other, there) {
            return Some(there);
        }
    }
    None
}

/// Whether a line of the other screen has the row of a line below that one.
fn is_taken(pair: &Pair<'_>, line: u8) -> bool
    requires low { 1 ≤ line }
    requires high { line ≤ LINES }
    ensures { result ≡ true → (below : ℕ) × (line < below)
        × (row_at pair.now.one.now.rows below ≡ row_at pair.now.other.now.rows line) }
{
    for below in line + 1..LINES + 1 {
        if begins_same(pair, below, line) && is_same(pair.one, below, pair.other, line) {
            return true;
        }
    }
    false
}

/// Whether a line of one screen begins as a line of the other does.
fn begins_same(pair: &Pair<'_>, line: u8, there: u8) -> bool
    requires low { 1 ≤ line }
    requires high { line ≤ LINES }
    requires there_low { 1 ≤ there }
    requires there_high { there ≤ LINES }
    ensures { result ≡ pointwise same_cell
        (take BLOCK (row_at pair.now.one.now.rows line).cells)
        (take BLOCK (row_at pair.now.other.now.rows there).cells) }
{
    same_first::<BLOCK>(&pair.one.row(line).cells, &pair.other.row(there).cells)
}

/// The same by the line of the other screen.
fn push_changed(
    sought: &Sought<'_>,
    pair: &Pair<'_>,
    line: u8,
    there: u8,
    same: bool,
    lost: &mut Lost,
)
    requires start { IsStart sought.now.text.now sought.now.start.now }
    requires low { 1 ≤ line }
    requires high { line ≤ LINES }
    requires next { lost.old.next ≤ there }
    requires there { there ≤ LINES }
    requires same { same ≡ true
        → row_at pair.now.one.now.rows line ≡ row_at pair.now.other.now.rows there }
    requires before { AreLost sought.now.text.now pair.now.one.now line
        pair.now.other.now lost.old.next lost.old.places.items }
    ensures { AreLost sought.now.text.now pair.now.one.now (line + 1)
        pair.now.other.now lost.new.next lost.new.places.items }
{
    let columns = pair.one.cells(line).len();
    let column = first_lost(sought, pair, line, there, same);
    lost.next = there + 1;
    if column as usize <= columns {
        lost.places.push(Place { line, column });
    }
}

/// The first column of a line at which the text stands but maybe not in a line of the other screen, with the same to
/// the left. Where there is none it's the one behind the last.
fn first_lost(sought: &Sought<'_>, pair: &Pair<'_>, line: u8, there: u8, same: bool) -> u8
    requires start { IsStart sought.now.text.now sought.now.start.now }
    requires low { 1 ≤ line }
    requires high { line ≤ LINES }
    requires there_low { 1 ≤ there }
    requires there_high { there ≤ LINES }
    requires same { same ≡ true
        → row_at pair.now.one.now.rows line ≡ row_at pair.now.other.now.rows there }
    ensures kept { AreKept sought.now.text.now pair.now.one.now line pair.now.other.now there result }
    ensures some { 1 ≤ result }
{
    pair.one.sound();
    pair.other.sound();
    let cells = pair.one.cells(line);
    let shared = shared_len(pair, line, there, same);
    let behind = (shared + 1).saturating_sub(sought.text.len().max(1));
    for at in behind..cells.len() {
        let column = at as u8 + 1;
        if !is_kept(sought, pair, line, there, shared, column) {
            return column;
        }
    }
    cells.len() as u8 + 1
}

/// Whether a row surely ends its line, and goes to the same margin on both screens.
fn ends_its_line(pair: &Pair<'_>, line: u8) -> bool
    requires low { 1 ≤ line }
    requires high { line ≤ LINES }
    ensures wide { result ≡ true → pair.now.one.now.wide ≡ pair.now.other.now.wide }
    ensures ends { result ≡ true → ends_line (row_on pair.now.one.now line) ≡ true }
{
    if pair.one.is_wide() != pair.other.is_wide() {
        return false;
    }
    ends_line(pair.one.cells(line))
}

/// So many characters of a line are surely the same as those of a line of the other screen.
fn shared_len(pair: &Pair<'_>, line: u8, there: u8, same: bool) -> usize
    requires low { 1 ≤ line }
    requires high { line ≤ LINES }
    requires there_low { 1 ≤ there }
    requires there_high { there ≤ LINES }
    requires same { same ≡ true
        → row_at pair.now.one.now.rows line ≡ row_at pair.now.other.now.rows there }
    ensures same { take result (row_on pair.now.one.now line) ≡ take result (row_on pair.now.other.now there) }
    ensures here { result ≤ length (row_on pair.now.one.now line) }
    ensures there { result ≤ length (row_on pair.now.other.now there) }
{
    let cells = pair.one.cells(line);
    if same && pair.one.is_wide() == pair.other.is_wide() {
        return cells.len();
    }
    same_len(cells, pair.other.cells(there))
}

/// Whether the text stands at a column of a line of the other screen too, with the same to the left, if it stands in a
/// line of one. So many of their characters are the same.
fn is_kept(
    sought: &Sought<'_>,
    pair: &Pair<'_>,
    line: u8,
    there: u8,
    same: usize,
    column: u8,
) -> bool
    requires start { IsStart sought.now.text.now sought.now.start.now }
    requires low { 1 ≤ line }
    requires high { line ≤ LINES }
    requires there_low { 1 ≤ there }
    requires there_high { there ≤ LINES }
    requires left { 1 ≤ column }
    requires right { column ≤ length (row_on pair.now.one.now line) }
    requires same { take same (row_on pair.now.one.now line) ≡ take same (row_on pair.now.other.now there) }
    ensures { result ≡ true → begins_on sought.now.text.now pair.now.one.now line column ≡ true
        → IsKept sought.now.text.now pair.now.one.now line pair.now.other.now there column }
{
    if !stands(sought, pair.one, line, column) {
        return true;
    }
    let other = pair.other.cells(there);
    let at = column as usize - 1;
    if at > same.min(other.len() - 1) {
        return false;
    }
    stands(sought, pair.other, there, column)
}

/// The first of these columns of a line at which the text stands. Where there is none it's one behind them.
fn first_standing(sought: &Sought<'_>, still: &Still, line: u8, near: u8, last: u8) -> u8
    requires start { IsStart sought.now.text.now sought.now.start.now }
    requires low { 1 ≤ line }
    requires high { line ≤ LINES }
    requires left { 1 ≤ near }
    requires near { near ≤ length (row_on still.now line) + 1 }
    requires right { last ≤ length (row_on still.now line) }
    ensures from { near ≤ result }
    ensures within { result ≤ length (row_on still.now line) + 1 }
    ensures before { (column : ℕ) → near ≤ column → column < result
        → begins_on sought.now.text.now still.now line column ≡ false }
{
    let _cells = still.cells(line);
    for column in near..last + 1 {
        if stands(sought, still, line, column) {
            return column;
        }
    }
    near.max(last + 1)
}
