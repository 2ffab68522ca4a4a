//! Rows that are kept of a screen while it goes on, each in the slot of its line: where rows moved, they lie where they
//! lay.

ghost use Rattle.std.specs.Prelude.{◌≡◌, ℕ, ◌≤◌, ◌<◌, false, length, true};
ghost use Rattle.vt_screen.specs.Cells.{row_at};
ghost use Rattle.vt_screen.specs.Picture.{SoundRow};
ghost use Rattle.vt_screen.specs.Slots.{row_in, slot_at};
ghost use Rattle.vt_screen.specs.Touched.{Told};
ghost use Rattle.screen_rows.specs.KeptRows.{AreSources, HasOrder, HasSources, IsFrom};
ghost use Rattle.screen_rows.specs.SameRows.{changed_lines, is_changed, same_row};

use crate::same::{same_by_front, same_row};
use arrayvec::ArrayVec;
use std::marker::Model;
use vt_screen::laws::screens_are_sound;
use vt_screen::limits::LINES;
use vt_screen::{Row, Screen};

/// How many rows a screen has.
pub const ROWS: usize = LINES as usize;

/// A copy of the rows of a screen, each in the slot of its line.
#[derive(Drop)]
pub struct KeptRows {
    slots: [Row; ROWS],
    order: [u8; ROWS],
    // The line of each slot, where it has one.
    lines: [u8; ROWS],
    wide: bool,
}

impl Model for KeptRows {
    ghost use Rattle.screen_rows.specs.KeptRows.{Kept};

    ghost Value = { Kept };

    ghost use Rattle.screen_rows.specs.View.{AreKept, kept_in};

    ghost view = { kept_in };

    ghost invariant = { AreKept };
}

/// What a screen shows beside the rows that are kept of it.
#[derive(Drop)]
pub struct Compared {
    /// The lines that differ.
    pub lines: ArrayVec<u8, ROWS>,
    /// For each line the one that had its row in its slot, or 0 where none is known.
    pub sources: [u8; ROWS],
}

impl KeptRows {
    /// A copy of the rows of a screen.
    pub fn of(screen: &Screen) -> Self
        ensures rows { result.rows ≡ screen.now.picture.rows }
        ensures order { HasOrder result screen.now }
    {
        let mut kept = KeptRows {
            slots: [Row::blank(); ROWS],
            order: [0; ROWS],
            lines: [0; ROWS],
            wide: false,
        };
        kept.catch_up(screen, &[0; ROWS]);
        kept
    }

    /// The row of a line.
    pub fn row(&self, line: u8) -> &Row
        requires low { 1 ≤ line }
        requires high { line ≤ LINES }
        ensures value { result.now ≡ row_at self.now.rows line }
        ensures sound { SoundRow self.now.wide result.now }
    {
        &self.slots[self.order[line as usize - 1] as usize]
    }

    /// What the screen shows beside them, which marks all lines that it may have touched since.
    pub fn compare(&self, screen: &Screen) -> Compared
        requires { Told self.now.rows screen.now }
        ensures lines { result.lines.items
            ≡ changed_lines self.now.rows screen.now.picture.rows }
        ensures sources { AreSources self.now screen.now result.sources }
    {
        let narrow = !(self.wide || screen.is_wide());
        let mut lines = ArrayVec::new();
        let mut sources = [0; ROWS];
        for line in 1..LINES + 1 {
            let (differs, source) = self.compare_line(screen, line, narrow);
            sources[line as usize - 1] = source;
            if differs {
                lines.push(line);
            }
        }
        Compared { lines, sources }
    }

    /// Whether a line differs, and the one that had its row in its slot, or 0.
    fn compare_line(&self, screen: &Screen, line: u8, narrow: bool) -> (bool, u8)
        requires low { 1 ≤ line }
        requires high { line ≤ LINES }
        requires told { Told self.now.rows screen.now }
        requires here { narrow ≡ true → screen.now.picture.wide ≡ false }
        requires there { narrow ≡ true → self.now.wide ≡ false }
        ensures differs { result.0 ≡ is_changed self.now.rows screen.now.picture.rows line }
        ensures source { IsFrom self.now screen.now line result.1 }
    {
        let slot = screen.place_of(line);
        if self.has_slot(line, slot) {
            return self.compare_in_place(screen, line, narrow);
        }
        let differs = !same_by_front(self.row(line), screen.row(line), narrow);
        (differs, self.source_of(screen, line, slot, narrow))
    }

    /// The same of a line whose row lies where it lay.
    fn compare_in_place(&self, screen: &Screen, line: u8, narrow: bool) -> (bool, u8)
        requires low { 1 ≤ line }
        requires high { line ≤ LINES }
        requires slot { slot_at self.now.order line ≡ slot_at screen.now.order line }
        requires told { Told self.now.rows screen.now }
        requires here { narrow ≡ true → screen.now.picture.wide ≡ false }
        requires there { narrow ≡ true → self.now.wide ≡ false }
        ensures differs { result.0 ≡ is_changed self.now.rows screen.now.picture.rows line }
        ensures source { IsFrom self.now screen.now line result.1 }
    {
        if self.has_row(screen, line, narrow) {
            (false, line)
        } else {
            (true, 0)
        }
    }

    /// Whether a line has its row still.
    fn has_row(&self, screen: &Screen, line: u8, narrow: bool) -> bool
        requires low { 1 ≤ line }
        requires high { line ≤ LINES }
        requires told { Told self.now.rows screen.now }
        requires here { narrow ≡ true → screen.now.picture.wide ≡ false }
        requires there { narrow ≡ true → self.now.wide ≡ false }
        ensures { result ≡ same_row (row_at self.now.rows line)
            (row_at screen.now.picture.rows line) }
    {
        if screen.is_touched(line) {
            same_row(self.row(line), screen.row(line), narrow)
        } else {
            true
        }
    }

    /// The line that had the row of a line, which lies in this slot, or 0 where none is known.
    fn source_of(&self, screen: &Screen, line: u8, slot: u8, narrow: bool) -> u8
        requires low { 1 ≤ line }
        requires high { line ≤ LINES }
        requires slot { slot ≡ slot_at screen.now.order line }
        requires within { slot < LINES }
        requires here { narrow ≡ true → screen.now.picture.wide ≡ false }
        requires there { narrow ≡ true → self.now.wide ≡ false }
        ensures { IsFrom self.now screen.now line result }
    {
        let source = self.lines[slot as usize];
        if self.has_slot(source, slot) && same_row(self.row(source), screen.row(line), narrow) {
            source
        } else {
            0
        }
    }

    /// Whether a number is that of a line, whose row lies in this slot.
    fn has_slot(&self, line: u8, slot: u8) -> bool
        ensures low { result ≡ true → 1 ≤ line }
        ensures high { result ≡ true → line ≤ LINES }
        ensures slot { result ≡ true → slot_at self.now.order line ≡ slot }
    {
        1 <= line && line <= LINES && self.order[line as usize - 1] == slot
    }

    /// They become the rows of a screen, of which it is known what it shows beside them.
    pub fn catch_up(&mut self, screen: &Screen, sources: &[u8; ROWS])
        requires { AreSources self.old screen.now sources.now }
        ensures rows { self.new.rows ≡ screen.now.picture.rows }
        ensures order { HasOrder self.new screen.now }
    {
        screens_are_sound(screen);
        copy_rows(&mut self.slots, screen, sources);
        take_order(&mut self.order, &mut self.lines, screen);
        self.wide = screen.is_wide();
    }
}

/// Copies the rows that lie in no slot yet.
fn copy_rows(slots: &mut [Row; ROWS], screen: &Screen, sources: &[u8; ROWS])
    requires { HasSources slots.old screen.now sources.now }
    ensures whole { length slots.new ≡ LINES }
    ensures copied { (line : ℕ) → 1 ≤ line → line ≤ LINES
        → row_in slots.new (slot_at screen.now.order line) ≡ row_at screen.now.picture.rows line }
{
    for line in 1..LINES + 1 {
        if sources[line as usize - 1] == 0 {
            let slot = screen.place_of(line);
            slots[slot as usize] = *screen.row(line);
        }
    }
}

/// Takes the slots of the lines.
fn take_order(order: &mut [u8; ROWS], lines: &mut [u8; ROWS], screen: &Screen)
    ensures named { (line : ℕ) → 1 ≤ line → line ≤ LINES
        → slot_at order.new line ≡ slot_at screen.now.order line }
    ensures within { (line : ℕ) → 1 ≤ line → line ≤ LINES → slot_at order.new line < LINES }
{
    for line in 1..LINES + 1 {
        let slot = screen.place_of(line);
        order[line as usize - 1] = slot;
        lines[slot as usize] = line;
    }
}
