//! Rows that are kept of a sheet while the next chunk is played.

ghost use Rattle.std.specs.Prelude.{◌≡◌, ℕ, ◌+◌, ◌-◌, ◌%◌, ◌<◌, ◌≤◌, ◌∷◌, ◌++◌, IfOk, IfSome, List, None, OnOk, Some, drop, false, if◌then◌else◌, length, true};
ghost use Rattle.std.specs.List.{flat_map};
ghost use Rattle.sheet.specs.Cells.{Cell};
ghost use Rattle.sheet.specs.Grid.{AreMarked as MarksTell, AreTold, IsUsed, is_touched, row_at};
ghost use Rattle.xterm_page.specs.Entries.{line_of};
ghost use Rattle.xterm_page.specs.Parts.{AreDistinct, AreLines, AreMarked, AreNumbered, CameUp, KeptAll, come_told, is_renewed, renewed, told, told_of};
ghost use Rattle.xterm_page.specs.Same.{row_number, same_row};

use crate::distinct::distinct_end;
use crate::same::row_number;
use sheet::Cell;
use std::alloc::{AllocError, Global};
use std::marker::Model;
use xterm_print::same_row;
use xterm_screen::Screen;
use xterm_screen::laws::screens_are_sound;

/// A copy of the cells of a row, behind so many of which all are blank, with a number that most other rows don't share.
#[derive(Drop)]
pub(crate) struct KeptRow {
    number: u64,
    used: usize,
    cells: Vec<Cell>,
}

impl Model for KeptRow {
    ghost use Rattle.std.specs.Prelude.{◌≡◌, List};
    ghost use Rattle.sheet.specs.Cells.{Cell};
    ghost use Rattle.sheet.specs.Grid.{IsUsed};
    ghost use Rattle.xterm_page.specs.Same.{row_number};

    ghost Value = { List Cell };

    ghost view = { λ row. row.cells.items };

    ghost invariant = { λ row. record {
      number : row.number ≡ row_number row.cells.items;
      used : IsUsed row.cells.items row.used;
    } };
}

/// How many cells are compared where behind so many of a row all are blank: they are compared eight at a time.
fn compared(used: usize, columns: usize) -> usize
    requires { used ≤ columns }
    ensures low { used ≤ result }
    ensures high { result ≤ columns }
{
    used + (columns - used) % 8
}

/// Makes cells the same as others, from which they differ before a place alone.
fn copy_front(cells: &mut [Cell], others: &[Cell], end: usize)
    requires long { length cells.old ≡ length others.now }
    requires within { end ≤ length cells.old }
    requires behind { drop end cells.old ≡ drop end others.now }
    ensures { cells.new ≡ others.now }
{
    cells[..end].copy_from_slice(&others[..end]);
}

impl KeptRow {
    /// A copy of these cells.
    fn of(alloc: Global, cells: &[Cell], used: usize) -> Result<Self, AllocError>
        requires { IsUsed cells.now used }
        ensures { IfOk result (λ row. row ≡ cells.now) }
    {
        let number = row_number(cells, used);
        let cells = cells.to_vec(alloc)?;
        Ok(KeptRow {
            number,
            used,
            cells,
        })
    }

    /// Whether its cells are these.
    fn is_same(&self, cells: &[Cell], used: usize) -> bool
        requires { IsUsed cells.now used }
        ensures { result ≡ same_row self.now cells.now }
    {
        if self.cells.len() != cells.len() {
            return false;
        }
        let end = compared(self.used.max(used), cells.len());
        let own = self.cells.as_slice();
        same_row(&own[..end], &cells[..end])
    }

    /// The same of cells whose number is known: rows with another number aren't compared.
    #[tactic(auto, using(crate::proofs::EqualLemmas::other_numbers))]
    fn is_same_by(&self, number: u64, cells: &[Cell], used: usize) -> bool
        requires number { number ≡ row_number cells.now }
        requires used { IsUsed cells.now used }
        ensures { result ≡ same_row self.now cells.now }
    {
        self.number == number && self.is_same(cells, used)
    }

    /// Becomes a copy of another row, if it has as many cells.
    pub(crate) fn copy_row(&mut self, other: &KeptRow)
        ensures { length self.old ≡ length other.now → self.new ≡ other.now }
    {
        self.copy_from(other.cells.as_slice(), other.used, other.number);
    }

    /// Becomes a copy of these cells, whose number is known, if they are as many as its own.
    pub(crate) fn copy_from(&mut self, cells: &[Cell], used: usize, number: u64)
        requires number { number ≡ row_number cells.now }
        requires used { IsUsed cells.now used }
        ensures { length self.old ≡ length cells.now → self.new ≡ cells.now }
    {
        if self.cells.len() == cells.len() {
            let end = self.used.max(used);
            copy_front(self.cells.as_mut_slice(), cells, end);
            self.used = used;
            self.number = number;
        }
    }
}

/// A copy of the rows of a sheet, and of how many of the first ones it is known that no two are the same.
#[derive(Drop)]
pub(crate) struct KeptSheet {
    pub(crate) rows: Vec<KeptRow>,
    pub(crate) distinct: usize,
}

/// A copy of the rows of the sheet that is shown.
pub(crate) fn kept_rows(alloc: Global, screen: &Screen) -> Result<Vec<KeptRow>, AllocError>
    ensures { IfOk result (λ rows. KeptAll screen.now.picture.lines screen.now.picture.columns
        rows.items screen.now.picture.rows) }
{
    screens_are_sound(screen);
    let mut rows = Vec::with_capacity(alloc, screen.lines() as usize)?;
    for line in 1..screen.lines() + 1 {
        rows.push(KeptRow::of(alloc, screen.row(line), screen.used(line))?)?;
    }
    Ok(rows)
}

/// What is known of a row that differs from the one that was kept of its line: the first line that was this row, and its
/// number, unless the sheet alone tells which row it was.
#[derive(Clone, Copy)]
pub(crate) struct Renewed {
    pub(crate) number: Option<u64>,
    pub(crate) was: Option<usize>,
}

/// Lines from one to before another that came up by as many lines. Each differs from the row that was kept of it, and the
/// one from which it came is the first line that was its row.
#[derive(Clone, Copy)]
pub(crate) struct Block {
    pub(crate) from: u16,
    pub(crate) end: u16,
    pub(crate) shift: u16,
}

/// A line that differs from the row that was kept of it, with what is known of its row, or lines that came up together.
#[derive(Clone, Copy)]
pub(crate) enum Renewal {
    Line(u16, Renewed),
    Moved(Block),
}

/// The first of so many lines that was a row, by its number.
fn line_of(
    rows: &[KeptRow],
    lines: usize,
    cells: &[Cell],
    used: usize,
    number: u64,
) -> Option<usize>
    requires lines { lines ≤ length rows.now }
    requires number { number ≡ row_number cells.now }
    requires used { IsUsed cells.now used }
    ensures { result ≡ line_of lines rows.now cells.now }
{
    for at in 0..lines {
        if rows[at].is_same_by(number, cells, used) {
            return Some(at + 1);
        }
    }
    None
}

/// How many marks there are for the numbers of rows.
const MARKS: usize = 2048;

/// The mark of a number.
fn mark_of(number: u64) -> usize
    ensures value { result ≡ number % 2048 }
    ensures below { result < 2048 }
{
    (number % MARKS as u64) as usize
}

/// Marks the numbers of the rows before a place, where those of so many first rows are marked.
fn mark_to(rows: &[KeptRow], place: usize, marked: &mut usize, marks: &mut [bool; MARKS])
    requires { AreMarked rows.now marked.old marks.old }
    ensures { AreMarked rows.now marked.new marks.new }
{
    if rows.len() < place || place < *marked {
        return;
    }
    for at in *marked..place {
        let row = &rows[at];
        marks[mark_of(row.number)] = true;
    }
    *marked = place;
}

/// What is known of a line that was touched if it differs from the row that was kept of it, by a guess behind how many
/// lines its row was. The numbers of the first rows are marked, and it may be known that some row is another one: then the
/// sheet tells which rows moved.
fn renewed_line(
    rows: &[KeptRow],
    screen: &Screen,
    line: u16,
    guess: usize,
    some: bool,
    marked: &mut usize,
    marks: &mut [bool; MARKS],
) -> Option<Renewed>
    requires low { 1 ≤ line }
    requires high { line ≤ screen.now.picture.lines }
    requires touched { is_touched screen.now.origins line ≡ true }
    requires rows { length rows.now ≡ screen.now.picture.lines }
    requires marked { AreMarked rows.now marked.old marks.old }
    ensures marked { AreMarked rows.now marked.new marks.new }
    ensures told { MarksTell rows.now screen.now.origins screen.now.picture.rows
        → (some ≡ true → screen.now.picture.rows ≡ rows.now → ⊥) → told_of result ≡ (if is_renewed screen.now.origins (row_at rows.now line)
        (row_at screen.now.picture.rows line) line
        then Some (line_of screen.now.picture.lines rows.now (row_at screen.now.picture.rows line))
        else None) }
    ensures number { IfSome result (λ renewed. IfSome renewed.number (λ number. number
        ≡ row_number (row_at screen.now.picture.rows line))) }
{
    if !some_differs(&rows[line as usize - 1], screen, line, some) {
        return None;
    }
    if has_come(rows, screen, line, guess) {
        return Some(Renewed {
            number: None,
            was: line_at(rows, guess, marked, marks),
        });
    }
    if has_moved(rows, screen, line, guess) {
        let row = &rows[guess];
        return Some(Renewed {
            number: Some(row.number),
            was: line_at(rows, guess, marked, marks),
        });
    }
    if still_differs(&rows[line as usize - 1], screen, line, some) {
        return Some(renewed_of(rows, screen.row(line), screen.used(line)));
    }
    None
}

/// Whether some row is another one, as may be known, or the one of this line is.
fn some_differs(row: &KeptRow, screen: &Screen, line: u16, some: bool) -> bool
    requires low { 1 ≤ line }
    requires high { line ≤ screen.now.picture.lines }
    requires touched { is_touched screen.now.origins line ≡ true }
    ensures none { result ≡ false → is_renewed screen.now.origins row.now
        (row_at screen.now.picture.rows line) line ≡ false }
    ensures some { result ≡ true → some ≡ false → is_renewed screen.now.origins row.now
        (row_at screen.now.picture.rows line) line ≡ true }
{
    some || is_renewed(row, screen, line)
}

/// Whether the row of this line is another one. Where that isn't known of some row, it was found of this one.
fn still_differs(row: &KeptRow, screen: &Screen, line: u16, some: bool) -> bool
    requires low { 1 ≤ line }
    requires high { line ≤ screen.now.picture.lines }
    requires touched { is_touched screen.now.origins line ≡ true }
    requires found { some ≡ false → is_renewed screen.now.origins row.now
        (row_at screen.now.picture.rows line) line ≡ true }
    ensures { result ≡ is_renewed screen.now.origins row.now
        (row_at screen.now.picture.rows line) line }
{
    !some || is_renewed(row, screen, line)
}

/// Whether the sheet tells that the row of a line came up from behind so many lines, while the one that was kept of the
/// line has another number: then it differs, without a look at its cells.
fn has_come(rows: &[KeptRow], screen: &Screen, line: u16, guess: usize) -> bool
    requires low { 1 ≤ line }
    requires high { line ≤ screen.now.picture.lines }
    requires touched { is_touched screen.now.origins line ≡ true }
    requires rows { length rows.now ≡ screen.now.picture.lines }
    ensures within { result ≡ true → guess < length rows.now }
    ensures same { AreTold rows.now screen.now.origins screen.now.picture.rows → result ≡ true
        → row_at screen.now.picture.rows line ≡ row_at rows.now (guess + 1) }
    ensures renewed { AreTold rows.now screen.now.origins screen.now.picture.rows → result ≡ true
        → is_renewed screen.now.origins (row_at rows.now line)
        (row_at screen.now.picture.rows line) line ≡ true }
{
    if rows.len() <= guess || guess < line as usize {
        return false;
    }
    if screen.origin(line) as usize != guess + 1 {
        return false;
    }
    let (was, own) = (&rows[guess], &rows[line as usize - 1]);
    was.number != own.number
}

/// Whether the row of a line that was touched was behind so many lines, while the one that was kept of it has another
/// number: then it differs, without a look at its cells.
fn has_moved(rows: &[KeptRow], screen: &Screen, line: u16, guess: usize) -> bool
    requires low { 1 ≤ line }
    requires high { line ≤ screen.now.picture.lines }
    requires touched { is_touched screen.now.origins line ≡ true }
    requires rows { length rows.now ≡ screen.now.picture.lines }
    ensures within { result ≡ true → guess < length rows.now }
    ensures same { result ≡ true → same_row (row_at rows.now (guess + 1))
        (row_at screen.now.picture.rows line) ≡ true }
    ensures renewed { result ≡ true → is_renewed screen.now.origins (row_at rows.now line)
        (row_at screen.now.picture.rows line) line ≡ true }
{
    if rows.len() <= guess {
        return false;
    }
    let (was, own) = (&rows[guess], &rows[line as usize - 1]);
    was.number != own.number && was.is_same(screen.row(line), screen.used(line))
}

/// What is known of a row.
fn renewed_of(rows: &[KeptRow], cells: &[Cell], used: usize) -> Renewed
    requires { IsUsed cells.now used }
    ensures number { result.number ≡ Some (row_number cells.now) }
    ensures was { result.was ≡ line_of (length rows.now) rows.now cells.now }
{
    let number = row_number(cells, used);
    let was = line_of(rows, rows.len(), cells, used, number);
    Renewed {
        number: Some(number),
        was,
    }
}

/// The first line that was the row behind so many lines. Where its number has no mark, none of the first rows is the
/// same.
fn line_at(
    rows: &[KeptRow],
    place: usize,
    marked: &mut usize,
    marks: &mut [bool; MARKS],
) -> Option<usize>
    requires within { place < length rows.now }
    requires marked { AreMarked rows.now marked.old marks.old }
    ensures line { result ≡ line_of (length rows.now) rows.now (row_at rows.now (place + 1)) }
    ensures marked { AreMarked rows.now marked.new marks.new }
{
    mark_to(rows, place, marked, marks);
    let row = &rows[place];
    if place <= *marked && !marks[mark_of(row.number)] {
        return Some(place + 1);
    }
    match line_of(rows, place, row.cells.as_slice(), row.used, row.number) {
        Some(line) => Some(line),
        None => Some(place + 1),
    }
}

/// The lines of the sheet that is shown that were touched and differ from the rows that were kept of them, and what is
/// known of each. Most rows that move move by as many lines as the one before.
pub(crate) fn changed_rows(
    alloc: Global,
    rows: &[KeptRow],
    distinct: usize,
    screen: &Screen,
) -> Result<Vec<Renewal>, AllocError>
    requires { length rows.now ≡ screen.now.picture.lines }
    ensures changed { IfOk result (λ changed. MarksTell rows.now screen.now.origins screen.now.picture.rows
        → AreDistinct rows.now distinct
        → flat_map told changed.items ≡ renewed screen.now.origins screen.now.picture.lines rows.now
        screen.now.picture.rows) }
    ensures lines { IfOk result (λ changed. AreLines screen.now.picture.lines changed.items) }
    ensures numbers { IfOk result (λ changed. AreNumbered screen.now.picture.rows changed.items) }
{
    let mut changed = Vec::with_capacity(alloc, screen.lines() as usize)?;
    // No row has moved yet: the guess lies outside the sheet.
    let mut shift = rows.len();
    let (mut marked, mut marks) = (0, [false; MARKS]);
    let mut line = touched_from(screen, 1);
    while line <= screen.lines() {
        let guess = guess_of(screen, line, shift);
        let some = !changed.is_empty();
        let mut next = line + 1;
        let renewed = renewed_line(rows, screen, line, guess, some, &mut marked, &mut marks);
        if let Some(renewed) = renewed {
            // Behind as many lines the next row is looked for.
            shift = shift_by(rows, renewed, line, guess, shift);
            next = come_end(rows, distinct, screen, next, shift, &mut marked, &mut marks);
            push_renewed(line, next, shift, renewed, screen.lines(), &mut changed)?;
        }
        line = touched_from(screen, next);
    }
    Ok(changed)
}

/// The first line from one on that was touched, or one behind the last: mostly the line itself, at which it looks first.
fn touched_from(screen: &Screen, line: u16) -> u16
    requires low { 1 ≤ line }
    requires high { line ≤ screen.now.picture.lines + 1 }
    ensures low { line ≤ result }
    ensures high { result ≤ screen.now.picture.lines + 1 }
    ensures between { (k : ℕ) → line ≤ k → k < result → is_touched screen.now.origins k ≡ false }
    ensures touched { result ≤ screen.now.picture.lines → is_touched screen.now.origins result ≡ true }
{
    if line <= screen.lines() && screen.is_touched(line) {
        return line;
    }
    screen.next_touched(line)
}

/// Adds a line, and the lines behind it, to before another, that came up by so many: as one block where it did so, too.
fn push_renewed(
    line: u16,
    end: u16,
    shift: usize,
    renewed: Renewed,
    lines: u16,
    changed: &mut Vec<Renewal>,
) -> Result<(), AllocError>
    requires low { 1 ≤ line }
    requires high { line ≤ lines }
    requires apart { line < end }
    requires come { line + 1 < end → (1 ≤ shift) × (end + shift ≤ lines + 1) }
    ensures told { OnOk result (flat_map told changed.new.items ≡ flat_map told changed.old.items
        ++ ((line, renewed.was) ∷ come_told (line + 1) end shift)) }
    ensures lines { OnOk result (AreLines lines changed.old.items → AreLines lines changed.new.items) }
    ensures numbers { OnOk result ((rows : List (List Cell)) → IfSome renewed.number (λ number. number
        ≡ row_number (row_at rows line)) → AreNumbered rows changed.old.items
        → AreNumbered rows changed.new.items) }
{
    if has_come_by(renewed, line, shift, lines) {
        push_block(line, end, shift, lines, changed)?;
        return Ok(());
    }
    changed.push(Renewal::Line(line, renewed))?;
    push_block(line + 1, end, shift, lines, changed)?;
    Ok(())
}

/// Adds the lines from one to before another, which came up by so many, if there are any.
fn push_block(
    from: u16,
    end: u16,
    shift: usize,
    lines: u16,
    changed: &mut Vec<Renewal>,
) -> Result<(), AllocError>
    requires low { 1 ≤ from }
    requires come { from < end → (1 ≤ shift) × (end + shift ≤ lines + 1) }
    ensures told { OnOk result (flat_map told changed.new.items ≡ flat_map told changed.old.items
        ++ come_told from end shift) }
    ensures lines { OnOk result (AreLines lines changed.old.items → AreLines lines changed.new.items) }
    ensures numbers { OnOk result ((rows : List (List Cell)) → AreNumbered rows changed.old.items
        → AreNumbered rows changed.new.items) }
{
    if end <= from {
        return Ok(());
    }
    let shift = shift as u16;
    changed.push(Renewal::Moved(Block { from, end, shift }))?;
    Ok(())
}

/// Whether the row of a line was so many lines further down, and still on the sheet.
fn has_come_by(renewed: Renewed, line: u16, shift: usize, lines: u16) -> bool
    ensures was { result ≡ true → renewed.was ≡ Some (line + shift) }
    ensures some { result ≡ true → 1 ≤ shift }
    ensures within { result ≡ true → line + shift ≤ lines }
{
    let line = line as usize;
    match renewed.was {
        Some(other) => line < other && other <= lines as usize && other - line == shift,
        None => false,
    }
}

/// Where the lines end, from one on, whose rows came up by as many lines, if the sheet tells so, as long as they differ and
/// no row above was the same: so it is among rows that are known to be distinct, and marks tell it of those behind them.
/// Some row is another one.
fn come_end(
    rows: &[KeptRow],
    distinct: usize,
    screen: &Screen,
    from: u16,
    shift: usize,
    marked: &mut usize,
    marks: &mut [bool; MARKS],
) -> u16
    requires low { 1 ≤ from }
    requires high { from ≤ screen.now.picture.lines + 1 }
    requires rows { length rows.now ≡ screen.now.picture.lines }
    requires marked { AreMarked rows.now marked.old marks.old }
    ensures low { from ≤ result }
    ensures high { result ≤ screen.now.picture.lines + 1 }
    ensures within { from < result → (1 ≤ shift)
        × (result + shift ≤ screen.now.picture.lines + 1) }
    ensures marked { AreMarked rows.now marked.new marks.new }
    ensures come { AreTold rows.now screen.now.origins screen.now.picture.rows
        → AreDistinct rows.now distinct
        → CameUp screen.now.origins screen.now.picture.lines rows.now screen.now.picture.rows
        from result shift }
{
    if shift == 0 || rows.len() < shift {
        return from;
    }
    let end = distinct_end(screen, from, shift, distinct);
    marked_end(rows, screen, end, shift, marked, marks)
}

/// The same by marks alone. They are made where the first of the lines came up by as many.
fn marked_end(
    rows: &[KeptRow],
    screen: &Screen,
    from: u16,
    shift: usize,
    marked: &mut usize,
    marks: &mut [bool; MARKS],
) -> u16
    requires low { 1 ≤ from }
    requires high { from ≤ screen.now.picture.lines + 1 }
    requires some { 1 ≤ shift }
    requires within { shift ≤ length rows.now }
    requires rows { length rows.now ≡ screen.now.picture.lines }
    requires marked { AreMarked rows.now marked.old marks.old }
    ensures low { from ≤ result }
    ensures high { result ≤ screen.now.picture.lines + 1 }
    ensures within { from < result → result + shift ≤ screen.now.picture.lines + 1 }
    ensures marked { AreMarked rows.now marked.new marks.new }
    ensures come { AreTold rows.now screen.now.origins screen.now.picture.rows
        → CameUp screen.now.origins screen.now.picture.lines rows.now screen.now.picture.rows
        from result shift }
{
    // Behind this line no row can have come up by as many.
    let last = screen.lines() as usize - shift;
    let place = from as usize - 1 + shift;
    if from as usize > last || screen.origin(from) as usize != place + 1 {
        return from;
    }
    mark_to(rows, place, marked, marks);
    if *marked != place {
        return from;
    }
    let mut end = from;
    while end as usize <= last && comes_first(rows, screen, end, shift, marks) {
        let came = &rows[end as usize - 1 + shift];
        marks[mark_of(came.number)] = true;
        end += 1;
    }
    *marked = end as usize - 1 + shift;
    end
}

/// Whether the sheet tells that the row of a line came up by so many lines, while the one that was kept of the line has
/// another number, and no row above has its number: all these are marked.
fn comes_first(
    rows: &[KeptRow],
    screen: &Screen,
    line: u16,
    shift: usize,
    marks: &[bool; MARKS],
) -> bool
    requires low { 1 ≤ line }
    requires high { line + shift ≤ screen.now.picture.lines }
    requires small { line + shift ≤ u16.MAX }
    requires rows { length rows.now ≡ screen.now.picture.lines }
    requires some { 1 ≤ shift }
    requires marked { AreMarked rows.now (line - 1 + shift) marks.now }
    ensures renewed { AreTold rows.now screen.now.origins screen.now.picture.rows → result ≡ true
        → is_renewed screen.now.origins (row_at rows.now line)
        (row_at screen.now.picture.rows line) line ≡ true }
    ensures was { AreTold rows.now screen.now.origins screen.now.picture.rows → result ≡ true
        → line_of screen.now.picture.lines rows.now (row_at screen.now.picture.rows line)
        ≡ Some (line + shift) }
{
    let place = line as usize - 1;
    if screen.origin(line) as usize != place + 1 + shift {
        return false;
    }
    let (was, own) = (&rows[place + shift], &rows[place]);
    was.number != own.number && !marks[mark_of(was.number)]
}

/// Behind how many lines the row of a line is looked for: where the sheet tells that it was, else as far away as the row
/// above it.
fn guess_of(screen: &Screen, line: u16, shift: usize) -> usize
    requires low { 1 ≤ line }
    requires high { line ≤ screen.now.picture.lines }
{
    let origin = screen.origin(line) as usize;
    if origin > 0 {
        return origin - 1;
    }
    (line as usize - 1).wrapping_add(shift)
}

/// By how many lines the rows from a line on have moved: as many as that line's row, where it is known which line had it,
/// as it is where the row was found by the guess; else as many as the row above.
fn shift_by(rows: &[KeptRow], renewed: Renewed, line: u16, guess: usize, shift: usize) -> usize {
    if guess < rows.len() {
        let row = &rows[guess];
        if is_number(renewed.number, row.number) {
            return guess.wrapping_sub(line as usize).wrapping_add(1);
        }
    }
    match renewed.was {
        Some(other) => other.wrapping_sub(line as usize),
        None => shift,
    }
}

/// Whether a number that may be unknown is another one, as far as is known.
fn is_number(number: Option<u64>, other: u64) -> bool {
    match number {
        Some(number) => number == other,
        None => true,
    }
}

/// Whether a line that was touched differs from the row that was kept of it.
fn is_renewed(row: &KeptRow, screen: &Screen, line: u16) -> bool
    requires low { 1 ≤ line }
    requires high { line ≤ screen.now.picture.lines }
    requires touched { is_touched screen.now.origins line ≡ true }
    ensures { result ≡ is_renewed screen.now.origins row.now
        (row_at screen.now.picture.rows line) line }
{
    !row.is_same(screen.row(line), screen.used(line))
}
