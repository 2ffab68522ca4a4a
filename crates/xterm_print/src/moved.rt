//! Rows that are kept of a sheet whose own rows moved up.

ghost use Rattle.std.specs.Prelude.{◌≡◌, ◌≢◌, ◌+◌, ◌-◌, ◌<◌, ◌≤◌, ◌++◌, ℕ, Bool, List, false, filter, length, not, true};
ghost use Rattle.std.specs.List.{range_with_len};
ghost use Rattle.sheet.specs.Cells.{Cell};
ghost use Rattle.sheet.specs.Grid.{origin_of, row_at};
ghost use Rattle.xterm_screen.specs.Picture.{Tells};
ghost use Rattle.xterm_print.specs.ChangeLines.{is_changed, same_row};
ghost use Rattle.xterm_print.specs.Kept.{AreApart, FollowLines, Follows};

use crate::kept::{KeptRow, ROWS, seen_apart};
use arrayvec::ArrayVec;
use xterm_screen::Screen;

/// How many lines are asked, or added, at a time.
const BLOCK: u16 = 16;

/// The same as a length.
const BLOCK_LINES: usize = BLOCK as usize;

/// Lines that follow each other, of which two rows so many lines apart are known to differ. As rows move up by as many
/// lines, what is known moves with them.
#[derive(Clone, Copy)]
pub struct Apart {
    from: u16,
    end: u16,
    shift: u16,
}

impl Apart {
    /// No line.
    pub(crate) fn none() -> Self
        ensures { (rows : List (List Cell)) → AreApart result rows }
    {
        Apart {
            from: 1,
            end: 1,
            shift: 1,
        }
    }

    /// What is known once the lines from one to before another moved up by so many, where the rows of those from the first
    /// on differed from the ones so many further down.
    fn moved(line: u16, first: u16, end: u16, shift: u16) -> Self
        requires low { 1 ≤ line }
        ensures { (rows others : List (List Cell))
            → ((k : ℕ) → first ≤ k → line ≤ k → k < end
            → same_row (row_at rows k) (row_at rows (k + shift)) ≡ false)
            → ((k : ℕ) → line ≤ k → k < end → row_at others k ≡ row_at rows (k + shift))
            → AreApart result others }
    {
        Apart {
            from: first.saturating_sub(shift).max(line),
            end,
            shift,
        }
    }

    /// Of some lines, from where to where it is known that the row of each differs from the one so many further down.
    fn known(&self, from: u16, to: u16, shift: u16) -> (u16, u16)
        requires { from ≤ to }
        ensures low { from ≤ result.0 }
        ensures apart { result.0 ≤ result.1 }
        ensures high { result.1 ≤ to }
        ensures differ { (rows : List (List Cell)) → AreApart self.now rows
            → (k : ℕ) → result.0 ≤ k → k < result.1 → same_row (row_at rows k) (row_at rows (k + shift)) ≡ false }
    {
        if self.shift != shift {
            return (from, from);
        }
        let start = self.from.max(from).min(to);
        (start, self.end.saturating_sub(shift).min(to).max(start))
    }

    /// The row of a line may become another one: less is known then.
    pub(crate) fn forget(&mut self, line: u16)
        ensures { (rows others : List (List Cell)) → AreApart self.old rows
            → ((k : ℕ) → 1 ≤ k → k ≢ line → row_at others k ≡ row_at rows k) → AreApart self.new others }
    {
        if line < self.end && self.from <= line {
            self.end = line;
        }
    }
}

/// By how many lines the row of a line moved up; 0 where it didn't, or where that isn't known.
pub(crate) fn moved_up(screen: &Screen, line: u16) -> u16
    requires low { 1 ≤ line }
    requires high { line ≤ screen.now.picture.lines }
    ensures within { line + result ≤ screen.now.picture.lines }
    ensures origin { 0 < result → origin_of screen.now.origins line ≡ line + result }
{
    let origin = screen.origin(line);
    if line < origin && origin <= screen.lines() {
        origin - line
    } else {
        0
    }
}

/// Where the lines end, from one on, whose rows moved up by as many lines as its own.
fn moved_end(screen: &Screen, line: u16, shift: u16) -> u16
    requires low { 1 ≤ line }
    requires high { line + shift ≤ screen.now.picture.lines }
    requires some { 0 < shift }
    requires origin { origin_of screen.now.origins line ≡ line + shift }
    ensures some { line < result }
    ensures within { result + shift ≤ screen.now.picture.lines + 1 }
    ensures moved { (k : ℕ) → line ≤ k → k < result → origin_of screen.now.origins k ≡ k + shift }
{
    let last = screen.lines() - shift;
    let mut end = past_moved(screen, line, shift);
    while end <= last && screen.origin(end) == end + shift {
        end += 1;
    }
    end
}

/// The same by whole blocks: all lines before it are such.
#[inline(always)]
fn past_moved(screen: &Screen, line: u16, shift: u16) -> u16
    requires low { 1 ≤ line }
    requires high { line + shift ≤ screen.now.picture.lines }
    requires some { 0 < shift }
    requires origin { origin_of screen.now.origins line ≡ line + shift }
    ensures some { line < result }
    ensures within { result + shift ≤ screen.now.picture.lines + 1 }
    ensures moved { (k : ℕ) → line ≤ k → k < result → origin_of screen.now.origins k ≡ k + shift }
{
    let behind = screen.lines() - shift + 1;
    let mut end = line + 1;
    while behind - end >= BLOCK && have_moved(screen, end, shift) {
        end += BLOCK;
    }
    end
}

/// Whether the rows of a block of lines, from one on, moved up by so many lines. It asks all of them with no way out, since
/// that is done many at a time.
#[inline(always)]
fn have_moved(screen: &Screen, from: u16, shift: u16) -> bool
    requires low { 1 ≤ from }
    requires high { from + BLOCK + shift ≤ screen.now.picture.lines + 1 }
    ensures { result ≡ true → (k : ℕ) → from ≤ k → k < from + BLOCK
        → origin_of screen.now.origins k ≡ k + shift }
{
    let _lines = screen.lines();
    let mut stayed = false;
    for i in 0..BLOCK {
        stayed |= screen.origin(from + i) != from + i + shift;
    }
    !stayed
}

/// Adds those of some lines whose rows differ from the ones so many lines further down, and tells a line from which on all
/// do. Those of which that is known aren't looked at.
fn push_moved(
    rows: &mut [KeptRow],
    from: u16,
    to: u16,
    shift: u16,
    apart: &Apart,
    changed: &mut ArrayVec<u16, ROWS>,
) -> u16
    requires low { 1 ≤ from }
    requires apart { from ≤ to }
    requires high { to + shift ≤ length rows.old + 1 }
    requires most { length rows.old ≤ ROWS }
    requires few { length changed.old.items + 1 ≤ from }
    requires known { AreApart apart.now rows.old }
    ensures stay { rows.new ≡ rows.old }
    ensures few { length changed.new.items + 1 ≤ to }
    ensures changed { (p : ℕ → Bool) → ((k : ℕ) → from ≤ k → k < to → p k
        ≡ not (same_row (row_at rows.old k) (row_at rows.old (k + shift))))
        → changed.old.items ≡ filter p (range_with_len 1 (from - 1))
        → changed.new.items ≡ filter p (range_with_len 1 (to - 1)) }
    ensures differ { (k : ℕ) → result ≤ k → k < to
        → same_row (row_at rows.old k) (row_at rows.old (k + shift)) ≡ false }
{
    let (start, end) = apart.known(from, to, shift);
    let first = push_compared(rows, from, start, shift, from, changed);
    push_all(start, end, changed);
    push_compared(rows, end, to, shift, first, changed)
}

/// Adds all lines from one to before another.
fn push_all(from: u16, to: u16, changed: &mut ArrayVec<u16, ROWS>)
    requires low { 1 ≤ from }
    requires apart { from ≤ to }
    requires high { to ≤ ROWS + 1 }
    requires few { length changed.old.items + 1 ≤ from }
    ensures few { length changed.new.items + 1 ≤ to }
    ensures changed { (p : ℕ → Bool) → ((k : ℕ) → from ≤ k → k < to → p k ≡ true)
        → changed.old.items ≡ filter p (range_with_len 1 (from - 1))
        → changed.new.items ≡ filter p (range_with_len 1 (to - 1)) }
{
    let start = push_blocks(from, to, changed);
    for line in start..to {
        changed.push(line);
    }
}

/// Adds lines from one on, none from another on, by whole blocks, and tells where they end.
#[inline(always)]
fn push_blocks(from: u16, to: u16, changed: &mut ArrayVec<u16, ROWS>) -> u16
    requires low { 1 ≤ from }
    requires apart { from ≤ to }
    requires high { to ≤ ROWS + 1 }
    requires few { length changed.old.items + 1 ≤ from }
    ensures low { from ≤ result }
    ensures high { result ≤ to }
    ensures few { length changed.new.items + 1 ≤ result }
    ensures changed { (p : ℕ → Bool) → ((k : ℕ) → from ≤ k → k < result → p k ≡ true)
        → changed.old.items ≡ filter p (range_with_len 1 (from - 1))
        → changed.new.items ≡ filter p (range_with_len 1 (result - 1)) }
{
    let mut line = from;
    while to - line >= BLOCK {
        push_block(line, changed);
        line += BLOCK;
    }
    line
}

/// Adds the lines of a block, from one on.
#[inline(always)]
fn push_block(from: u16, changed: &mut ArrayVec<u16, ROWS>)
    requires high { from + BLOCK ≤ ROWS + 1 }
    requires few { length changed.old.items + 1 ≤ from }
    ensures items { changed.new.items ≡ changed.old.items ++ range_with_len from BLOCK }
    ensures len { length changed.new.items ≡ length changed.old.items + BLOCK }
{
    let lines = block_from(from);
    let _fits = changed.try_extend_from_slice(&lines);
}

/// The lines of a block, from one on.
#[inline(always)]
fn block_from(from: u16) -> [u16; BLOCK_LINES]
    requires { from + BLOCK ≤ ROWS + 1 }
    ensures lines { result ≡ range_with_len from BLOCK }
    ensures len { length result ≡ BLOCK }
{
    let mut lines = [0; BLOCK_LINES];
    for i in 0..BLOCK {
        lines[i as usize] = from + i;
    }
    lines
}

/// Adds those of some lines whose rows differ from the ones so many lines further down, by a look at each, and tells a line
/// from which on all do. Of those before them it is known that all do from the first on.
#[inline(always)]
fn push_compared(
    rows: &mut [KeptRow],
    from: u16,
    to: u16,
    shift: u16,
    mut first: u16,
    changed: &mut ArrayVec<u16, ROWS>,
) -> u16
    requires before { (k : ℕ) → first ≤ k → k < from
        → same_row (row_at rows.old k) (row_at rows.old (k + shift)) ≡ false }
    requires low { 1 ≤ from }
    requires apart { from ≤ to }
    requires high { to + shift ≤ length rows.old + 1 }
    requires most { length rows.old ≤ ROWS }
    requires few { length changed.old.items + 1 ≤ from }
    ensures stay { rows.new ≡ rows.old }
    ensures few { length changed.new.items + 1 ≤ to }
    ensures changed { (p : ℕ → Bool) → ((k : ℕ) → from ≤ k → k < to → p k
        ≡ not (same_row (row_at rows.old k) (row_at rows.old (k + shift))))
        → changed.old.items ≡ filter p (range_with_len 1 (from - 1))
        → changed.new.items ≡ filter p (range_with_len 1 (to - 1)) }
    ensures differ { (k : ℕ) → result ≤ k → k < to
        → same_row (row_at rows.old k) (row_at rows.old (k + shift)) ≡ false }
{
    for line in from..to {
        let place = line as usize - 1;
        if differ(rows, place, place + shift as usize) {
            changed.push(line);
        } else {
            first = line + 1;
        }
    }
    first
}

/// Whether the rows at two places differ.
fn differ(rows: &mut [KeptRow], place: usize, other: usize) -> bool
    requires place { place < length rows.old }
    requires other { other < length rows.old }
    ensures stay { rows.new ≡ rows.old }
    ensures differ { result ≡ not (same_row (row_at rows.old (place + 1)) (row_at rows.old (other + 1))) }
{
    let (row, moved) = (&rows[place], &rows[other]);
    let Some(same) = row.place_apart_from(moved) else {
        return false;
    };
    let row = &mut rows[place];
    row.apart = seen_apart(same, row.apart);
    true
}

/// Whether some row is known to differ from the one that is shown: one of a line that was added, or that of this line.
pub(crate) fn some_differs(
    rows: &[KeptRow],
    screen: &Screen,
    line: u16,
    changed: &ArrayVec<u16, ROWS>,
) -> bool
    requires rows { length rows.now ≡ screen.now.picture.lines }
    requires low { 1 ≤ line }
    requires high { line ≤ screen.now.picture.lines }
    ensures { result ≡ true → (before : List (List Cell))
        → Follows screen.now.picture.columns (row_at rows.now line) (row_at before line)
        → changed.now.items ≡ filter (is_changed before screen.now.picture.rows) (range_with_len 1 (line - 1))
        → screen.now.picture.rows ≢ before }
{
    if !changed.is_empty() {
        return true;
    }
    is_renewed(rows, screen, line)
}

/// Whether the row of a line differs from the one that is shown.
fn is_renewed(rows: &[KeptRow], screen: &Screen, line: u16) -> bool
    requires rows { length rows.now ≡ screen.now.picture.lines }
    requires low { 1 ≤ line }
    requires high { line ≤ screen.now.picture.lines }
    ensures { result ≡ not (same_row (row_at rows.now line) (row_at screen.now.picture.rows line)) }
{
    !rows[line as usize - 1].is_same(screen.row(line), screen.used(line))
}

/// Adds those of some lines whose rows differ from the ones that are shown.
fn push_renewed(
    rows: &[KeptRow],
    screen: &Screen,
    from: u16,
    to: u16,
    changed: &mut ArrayVec<u16, ROWS>,
)
    requires rows { length rows.now ≡ screen.now.picture.lines }
    requires low { 1 ≤ from }
    requires apart { from ≤ to }
    requires high { to ≤ screen.now.picture.lines + 1 }
    requires few { length changed.old.items + 1 ≤ from }
    ensures few { length changed.new.items + 1 ≤ to }
    ensures changed { (p : ℕ → Bool) → ((k : ℕ) → from ≤ k → k < to → p k
        ≡ not (same_row (row_at rows.now k) (row_at screen.now.picture.rows k)))
        → changed.old.items ≡ filter p (range_with_len 1 (from - 1))
        → changed.new.items ≡ filter p (range_with_len 1 (to - 1)) }
{
    let _cursor = screen.cursor();
    for line in from..to {
        if is_renewed(rows, screen, line) {
            changed.push(line);
        }
    }
}

/// Rows move up by so many lines; those that they go over come behind them.
fn move_rows(rows: &mut [KeptRow], from: u16, to: u16, shift: u16)
    requires low { 1 ≤ from }
    requires apart { from ≤ to }
    requires high { to + shift ≤ length rows.old + 1 }
    ensures whole { length rows.new ≡ length rows.old }
    ensures before { (k : ℕ) → 1 ≤ k → k < from → row_at rows.new k ≡ row_at rows.old k }
    ensures moved { (k : ℕ) → from ≤ k → k < to → row_at rows.new k ≡ row_at rows.old (k + shift) }
    ensures turned { (k : ℕ) → to ≤ k → k < to + shift → row_at rows.new k
        ≡ row_at rows.old (k + from - to) }
    ensures behind { (k : ℕ) → to + shift ≤ k → row_at rows.new k ≡ row_at rows.old k }
{
    let (from, to, shift) = (from as usize - 1, to as usize - 1, shift as usize);
    rows[from..to + shift].rotate_left(shift);
}

/// Some rows become those that are shown.
fn catch_up_lines(rows: &mut [KeptRow], screen: &Screen, from: u16, to: u16)
    requires rows { length rows.old ≡ screen.now.picture.lines }
    requires low { 1 ≤ from }
    requires apart { from ≤ to }
    requires high { to ≤ screen.now.picture.lines + 1 }
    ensures whole { length rows.new ≡ length rows.old }
    ensures before { (k : ℕ) → 1 ≤ k → k < from → row_at rows.new k ≡ row_at rows.old k }
    ensures caught { (k : ℕ) → from ≤ k → k < to
        → length (row_at rows.old k) ≡ screen.now.picture.columns
        → Follows screen.now.picture.columns (row_at rows.new k) (row_at screen.now.picture.rows k) }
    ensures behind { (k : ℕ) → to ≤ k → row_at rows.new k ≡ row_at rows.old k }
{
    let _cursor = screen.cursor();
    for line in from..to {
        let row = &mut rows[line as usize - 1];
        row.become_same(screen.row(line), screen.used(line));
    }
}

/// The lines from one on whose rows moved up by so many lines, and as many lines behind them, follow those that are
/// shown then; adds those that differ, and tells where they end. Some row differs, so that the marks tell what moved.
pub(crate) fn catch_up_moved(
    rows: &mut [KeptRow],
    screen: &Screen,
    line: u16,
    shift: u16,
    apart: &mut Apart,
    changed: &mut ArrayVec<u16, ROWS>,
) -> u16
    requires rows { length rows.old ≡ screen.now.picture.lines }
    requires known { AreApart apart.old rows.old }
    requires low { 1 ≤ line }
    requires high { line + shift ≤ screen.now.picture.lines }
    requires some { 0 < shift }
    requires origin { origin_of screen.now.origins line ≡ line + shift }
    requires few { length changed.old.items + 1 ≤ line }
    requires differ { (before : List (List Cell))
        → Follows screen.now.picture.columns (row_at rows.old line) (row_at before line)
        → changed.old.items ≡ filter (is_changed before screen.now.picture.rows) (range_with_len 1 (line - 1))
        → screen.now.picture.rows ≢ before }
    ensures low { line < result }
    ensures high { result ≤ screen.now.picture.lines + 1 }
    ensures known { AreApart apart.new rows.new }
    ensures whole { length rows.new ≡ length rows.old }
    ensures few { length changed.new.items + 1 ≤ result }
    ensures before { (k : ℕ) → 1 ≤ k → k < line → row_at rows.new k ≡ row_at rows.old k }
    ensures behind { (k : ℕ) → result ≤ k → row_at rows.new k ≡ row_at rows.old k }
    ensures changed { (before : List (List Cell)) → Tells before screen.now
        → FollowLines line result screen.now.picture.columns rows.old before
        → changed.old.items ≡ filter (is_changed before screen.now.picture.rows) (range_with_len 1 (line - 1))
        → changed.new.items ≡ filter (is_changed before screen.now.picture.rows) (range_with_len 1 (result - 1)) }
    ensures caught { (before : List (List Cell)) → Tells before screen.now
        → FollowLines line result screen.now.picture.columns rows.old before
        → changed.old.items ≡ filter (is_changed before screen.now.picture.rows) (range_with_len 1 (line - 1))
        → FollowLines line result screen.now.picture.columns rows.new screen.now.picture.rows }
{
    let _cursor = screen.cursor();
    let end = moved_end(screen, line, shift);
    let first = push_moved(rows, line, end, shift, apart, changed);
    push_renewed(rows, screen, end, end + shift, changed);
    move_rows(rows, line, end, shift);
    catch_up_lines(rows, screen, end, end + shift);
    *apart = Apart::moved(line, first, end, shift);
    end + shift
}
