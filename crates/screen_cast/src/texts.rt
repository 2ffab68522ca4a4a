//! The runs of the rows of a screen as they are drawn, which are laid out once for as long as a row is kept.

ghost use Rattle.std.specs.Prelude.{◌≡◌, ◌≤◌, Bool, List, None, Some, false, length, slice_set, ℕ};
ghost use Rattle.vt_screen.specs.declared.cell.Row.{Row};
ghost use Rattle.vt_screen.specs.Cells.{row_at};
ghost use Rattle.held.specs.Held.{Wrote};
ghost use Rattle.screen_rows.specs.KeptRows.{AreSources};
ghost use Rattle.screen_cast.specs.Parts.{runs_part};
ghost use Rattle.screen_cast.specs.Texts.{AreTexts, IsText};

use crate::runs::{RUNS_BYTES, push_runs};
use crate::shown::Shown;
use arrayvec::ArrayVec;
use held::{HELD, put};
use screen_rows::ROWS;
use std::alloc::Global;
use std::io::Write;
use std::marker::Model;
use tape_core::Watched;
use vt_screen::limits::{LINES, WIDE_COLUMNS};
use vt_screen::{Row, Screen};

/// The runs of a row as they stand in a string of JSON, where they were laid out.
#[derive(Drop)]
pub(crate) struct RunsText {
    bytes: ArrayVec<u8, RUNS_BYTES>,
    laid: bool,
}

impl Model for RunsText {
    ghost use Rattle.std.specs.Prelude.{List, Option, ℕ};
    ghost use Rattle.screen_cast.specs.TextView.{text_in};

    ghost Value = { Option (List ℕ) };

    ghost view = { text_in };
}

impl Default for RunsText {
    ghost use Rattle.std.specs.Prelude.{◌≡◌, None};

    ghost is_default = { λ text. text ≡ None };

    fn default() -> Self {
        RunsText {
            bytes: ArrayVec::new(),
            laid: false,
        }
    }
}

impl RunsText {
    /// They are no longer those of a row.
    fn forget(&mut self)
        ensures { self.new ≡ None }
    {
        self.laid = false;
    }

    /// They become those of a row, of which nothing else was laid out.
    fn lay(&mut self, reversed: bool, row: &Row)
        requires whole { length row.now.cells ≡ WIDE_COLUMNS }
        requires text { IsText reversed row.now self.old }
        ensures { self.new ≡ Some (runs_part reversed row.now) }
    {
        if !self.laid {
            self.bytes.clear();
            push_runs(&mut self.bytes, reversed, row);
            self.laid = true;
        }
    }

    /// Lends them.
    fn as_bytes(&self) -> &[u8]
        ensures { (text : List ℕ) → self.now ≡ Some text → result.now ≡ text }
    {
        self.bytes.as_slice()
    }
}

/// A text for each slot, of which none was laid out. They are asked for at once; where memory is refused there is none,
/// and a row is laid out each time that it is drawn. A text is large, so this stands apart.
#[inline(never)]
pub(crate) fn texts_of_rows(alloc: Global) -> Vec<RunsText>
    ensures { (reversed : Bool) (order : List ℕ) (rows : List Row)
        → AreTexts reversed order rows result.items }
{
    let Ok(mut texts) = Vec::with_capacity(alloc, ROWS) else {
        return Vec::new(alloc);
    };
    for _slot in 0..ROWS {
        texts.push_reserved(RunsText::default());
    }
    texts
}

/// Writes the runs of a line.
pub(crate) fn put_runs<W: Write>(
    texts: &mut [RunsText],
    screen: &Screen,
    line: u8,
    reversed: bool,
    held: &mut ArrayVec<u8, HELD>,
    writer: &mut Watched<W>,
)
    requires low { 1 ≤ line }
    requires high { line ≤ LINES }
    requires texts { AreTexts reversed screen.now.order screen.now.picture.rows texts.old }
    ensures texts { AreTexts reversed screen.now.order screen.now.picture.rows texts.new }
    ensures wrote { Wrote W.contents writer.old held.old.items writer.new held.new.items
        (runs_part reversed (row_at screen.now.picture.rows line)) }
{
    let slot = screen.place_of(line) as usize;
    if slot < texts.len() {
        put_text(&mut texts[slot], reversed, screen.row(line), held, writer);
    } else {
        put_unkept(reversed, screen.row(line), held, writer);
    }
}

/// Writes the runs of a row for which there is no text. One is large, so this stands apart.
#[inline(never)]
fn put_unkept<W: Write>(
    reversed: bool,
    row: &Row,
    held: &mut ArrayVec<u8, HELD>,
    writer: &mut Watched<W>,
)
    requires whole { length row.now.cells ≡ WIDE_COLUMNS }
    ensures { Wrote W.contents writer.old held.old.items writer.new held.new.items
        (runs_part reversed row.now) }
{
    put_text(&mut RunsText::default(), reversed, row, held, writer);
}

/// Writes the runs of a row by their text, which is laid out where it wasn't.
fn put_text<W: Write>(
    text: &mut RunsText,
    reversed: bool,
    row: &Row,
    held: &mut ArrayVec<u8, HELD>,
    writer: &mut Watched<W>,
)
    requires whole { length row.now.cells ≡ WIDE_COLUMNS }
    requires text { IsText reversed row.now text.old }
    ensures text { text.new ≡ Some (runs_part reversed row.now) }
    ensures wrote { Wrote W.contents writer.old held.old.items writer.new held.new.items
        (runs_part reversed row.now) }
{
    text.lay(reversed, row);
    put(text.as_bytes(), held, writer);
}

/// The texts become those of the rows of a screen, of which it is known what it shows beside the rows that are kept:
/// those that aren't known to be a row's are forgotten, and all where the screen was reversed.
pub(crate) fn forget_others(
    texts: &mut [RunsText],
    shown: &Shown,
    screen: &Screen,
    sources: &[u8; ROWS],
    reversed: bool,
)
    requires texts { AreTexts shown.now.still.reversed shown.now.kept.order shown.now.kept.rows texts.old }
    requires sources { AreSources shown.now.kept screen.now sources.now }
    ensures { AreTexts reversed screen.now.order screen.now.picture.rows texts.new }
{
    for line in 1..LINES + 1 {
        if is_other(shown, sources[line as usize - 1], reversed) {
            forget_at(texts, screen.place_of(line) as usize);
        }
    }
}

/// What was laid out in a slot is no longer that of a row.
fn forget_at(texts: &mut [RunsText], slot: usize)
    ensures { texts.new ≡ slice_set texts.old slot None }
{
    if slot < texts.len() {
        texts[slot].forget();
    }
}

/// Whether what was laid out of a line that had the row, or of none, isn't what is drawn of the row.
fn is_other(shown: &Shown, source: u8, reversed: bool) -> bool
    ensures source { result ≡ false → 1 ≤ source }
    ensures reversed { result ≡ false → shown.now.still.reversed ≡ reversed }
{
    source == 0 || shown.is_reversed() != reversed
}
