//! The runs of a row.

ghost use Rattle.std.specs.Prelude.{◌≡◌, ℕ, ◌+◌, ◌*◌, ◌≤◌, ◌<◌, All, drop, false, length, slice_index_or, true};
ghost use Rattle.std.specs.List.{prefix_len};
ghost use Rattle.vt_screen.specs.Attributes.{byte_of};
ghost use Rattle.vt_screen.specs.Cells.{blank};
ghost use Rattle.screen_rows.specs.Outlines.{is_drawn};
ghost use Rattle.screen_rows.specs.Runs.{cells_of, is_like, IsLetter, IsRun, kind_number, kind_of, run_at, runs_of};

use crate::cells::{BLOCK, inked};
use crate::outlines::is_drawn;
use arrayvec::ArrayVec;
use vt_screen::limits::WIDE_COLUMNS;
use vt_screen::{Cell, Rendition, Row};

/// How many cells a row has, and so how many runs at most.
pub const CELLS: usize = WIDE_COLUMNS as usize;

/// The least glyph that is a character of ASCII.
const FIRST_LETTER: u8 = 32;

/// How many others are.
const LETTERS_MORE: u16 = 94;

/// What the cells of a run have in common: the attributes of their rendition, and whether their glyphs are drawn as
/// outlines (ours).
#[derive(Clone, Copy, Default, Debug, PartialEq, Eq)]
pub struct Kind {
    pub bold: bool,
    pub underscore: bool,
    pub blink: bool,
    pub reverse: bool,
    pub drawn: bool,
}

/// A group of neighbours of one kind in a row: how many cells stand before it, how many it has, and their kind.
#[derive(Clone, Copy, Default, Debug, PartialEq, Eq)]
pub struct Run {
    pub before: u8,
    pub len: u8,
    pub kind: Kind,
}

impl Kind {
    /// The kind as a number: 1 bold, 2 underscore, 4 blink, 8 reverse, 16 drawn, added (ours).
    pub fn number(self) -> u8
        ensures { result ≡ kind_number self }
    {
        let low = u8::from(self.bold) + 2 * u8::from(self.underscore);
        let high = 4 * u8::from(self.blink) + 8 * u8::from(self.reverse);
        low + high + 16 * u8::from(self.drawn)
    }
}

/// The runs of a row, from its left on: the maximal groups of neighbours of one kind among the cells to the last one
/// that isn't blank (ours).
#[tactic(auto, unfolding(crate::specs::Runs::runs_of))]
pub fn runs_of(row: &Row) -> ArrayVec<Run, CELLS>
    requires { length row.now.cells ≡ WIDE_COLUMNS }
    ensures runs { result.items ≡ runs_of row.now }
    ensures within { All IsRun result.items }
{
    let cells = inked(&row.cells);
    let mut runs = ArrayVec::new();
    let mut before = 0;
    while before < cells.len() {
        let run = run_at(cells, before);
        runs.push(run);
        before += usize::from(run.len);
    }
    runs
}

/// The run that begins behind so many cells.
pub fn run_at(cells: &[Cell], before: usize) -> Run
    requires within { before < length cells.now }
    requires few { length cells.now ≤ CELLS }
    ensures run { result ≡ run_at cells.now before }
    ensures sound { IsRun result }
{
    Run {
        before: before as u8,
        len: like_len(&cells[before], &cells[before..]) as u8,
        kind: kind_of(cells[before]),
    }
}

/// How many of the first cells are of the kind of a cell.
fn like_len(one: &Cell, cells: &[Cell]) -> usize
    ensures { result ≡ prefix_len (is_like one.now) cells.now }
{
    let mut len = like_blocks(one, cells);
    while len < cells.len() && is_like(*one, cells[len]) {
        len += 1;
    }
    len
}

/// How many of the first cells are seen to be so block by block, where the cell's glyph isn't drawn.
fn like_blocks(one: &Cell, cells: &[Cell]) -> usize
    ensures within { result ≤ length cells.now }
    ensures passed { prefix_len (is_like one.now) cells.now
        ≡ result + prefix_len (is_like one.now) (drop result cells.now) }
{
    let mut len = 0;
    if is_drawn(one.glyph) {
        return 0;
    }
    while cells.len() - len >= BLOCK && are_letters(one.rendition, cells, len) {
        len += BLOCK;
    }
    len
}

/// Whether the cells of the block that begins here have characters of ASCII in a rendition. Each is looked at, so that many
/// are at once.
fn are_letters(rendition: Rendition, cells: &[Cell], from: usize) -> bool
    requires { from + BLOCK ≤ length cells.now }
    ensures { result ≡ true → (k : ℕ) → from ≤ k → k < from + BLOCK
        → IsLetter rendition (slice_index_or cells.now k blank) }
{
    let least = numbered(rendition, FIRST_LETTER);
    let mut letters = true;
    for at in from..from + BLOCK {
        letters &= cells[at].number().wrapping_sub(least) <= LETTERS_MORE;
    }
    letters
}

/// The number of a cell.
fn numbered(rendition: Rendition, glyph: u8) -> u16
    ensures { result ≡ 256 * byte_of rendition + glyph }
{
    Cell { glyph, rendition }.number()
}

/// Whether two cells are of one kind.
fn is_like(one: Cell, other: Cell) -> bool
    ensures { result ≡ is_like one other }
{
    one.rendition == other.rendition && is_drawn(one.glyph) == is_drawn(other.glyph)
}

fn kind_of(cell: Cell) -> Kind
    ensures { result ≡ kind_of cell }
{
    Kind {
        bold: cell.rendition.bold(),
        underscore: cell.rendition.underscore(),
        blink: cell.rendition.blink(),
        reverse: cell.rendition.reverse(),
        drawn: is_drawn(cell.glyph),
    }
}

/// The cells of a run of a row.
pub fn cells_of(row: &Row, run: Run) -> &[Cell]
    requires whole { length row.now.cells ≡ WIDE_COLUMNS }
    requires run { IsRun run }
    ensures cells { result.now ≡ cells_of row.now run }
    ensures few { length result.now ≤ CELLS }
{
    let cells = &row.cells[..];
    &cells[run.before as usize..(run.before + run.len) as usize]
}
