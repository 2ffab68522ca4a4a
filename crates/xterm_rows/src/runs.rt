//! The runs of a row.

ghost use Rattle.std.specs.Prelude.{◌≡◌, ◌≤◌, ◌<◌, ℕ, false, IsTrue, length};
ghost use Rattle.xterm_rows.specs.Groups.{group_end};
ghost use Rattle.xterm_rows.specs.Ink.{colour_number};
ghost use Rattle.xterm_rows.specs.Letters.{AreJoined, AreParted, AreUnlike, IsLetter};
ghost use Rattle.xterm_rows.specs.Runs.{begins, goes_on, kind_number, kind_of, run_at};

use crate::cells::{cell_behind, owner};
use crate::outlines::is_outlined;
use crate::renditions::{attribute_number, bit_of, colour_number};
use sheet::{Cell, Rendition};

/// What the characters of a run have in common: their rendition, whether they are drawn, whether they are of width 2,
/// and whether it is one with marks, which is a run by itself (ours).
#[derive(Clone, Copy, Debug, PartialEq, Eq)]
pub struct Kind {
    pub rendition: Rendition,
    pub drawn: bool,
    pub wide: bool,
    pub marked: bool,
}

/// A group of neighbours of one kind in a row: how many cells stand before it, how many to its end, and their kind.
#[derive(Clone, Copy, Debug, PartialEq, Eq)]
pub struct Run {
    pub before: usize,
    pub end: usize,
    pub kind: Kind,
}

impl Kind {
    /// The kind of a cell's character.
    #[inline(always)]
    #[tactic(auto, unfolding(crate::specs::Runs::kind_of))]
    fn of(cell: Cell) -> Self
        ensures { result ≡ kind_of cell }
    {
        let marked = cell.mark_count() > 0;
        Kind {
            rendition: cell.rendition(),
            drawn: is_outlined(cell.character()) && !marked,
            wide: cell.is_wide(),
            marked,
        }
    }

    /// The kind but for its colours as a number: that of the attributes, 16 drawn, 512 of width 2, 1024 with marks
    /// (ours).
    #[tactic(auto, unfolding(crate::specs::Runs::kind_number))]
    pub fn number(self) -> u16
        ensures { result ≡ kind_number self }
    {
        let shape = 16 * bit_of(self.drawn) + 512 * bit_of(self.wide);
        attribute_number(self.rendition) + shape + 1024 * bit_of(self.marked)
    }

    /// Whether a character of another kind goes on with the run of the one before it, which is of this kind.
    fn goes_on(self, other: Kind) -> bool
        ensures { result ≡ goes_on self other }
    {
        self.number() == other.number()
            && colour_number(self.rendition.ink) == colour_number(other.rendition.ink)
            && colour_number(self.rendition.paper) == colour_number(other.rendition.paper)
            && !self.marked
    }
}

/// The run that begins at a place, counted from 0 (ours).
#[tactic(auto, unfolding(crate::specs::Runs::run_at))]
pub fn run_at(cells: &[Cell], at: usize) -> Run
    requires { at < length cells.now }
    ensures run { result ≡ run_at cells.now at }
    ensures before { result.before ≡ at }
    ensures end { result.end ≡ group_end (begins cells.now) at (length cells.now) }
    ensures some { at < result.end }
    ensures within { result.end ≤ length cells.now }
{
    Run {
        before: at,
        end: run_end(cells, at),
        kind: Kind::of(cell_behind(cells, at)),
    }
}

/// Where the run ends that begins at a place.
fn run_end(cells: &[Cell], at: usize) -> usize
    requires { at < length cells.now }
    ensures end { result ≡ group_end (begins cells.now) at (length cells.now) }
    ensures some { at < result }
    ensures within { result ≤ length cells.now }
{
    let mut end = letters_end(cells, at);
    while end < cells.len() && !begins(cells, end) {
        end = letters_end(cells, end);
    }
    end
}

/// Where the letters end that follow a letter in its rendition; most cells are letters, and among these no run begins.
fn letters_end(cells: &[Cell], at: usize) -> usize
    requires { at < length cells.now }
    ensures none { (k : ℕ) → at < k → k < result → begins cells.now k ≡ false }
    ensures some { at < result }
    ensures within { result ≤ length cells.now }
{
    let first = cells[at];
    let mut end = at + 1;
    if is_letter(first) {
        while end < cells.len() && is_letter_like(first, cells[end]) {
            end += 1;
        }
    }
    end
}

/// The number of a character's kind but for its colours, and those of its ink and its paper. Of most letters all are 0.
#[tactic(auto, using(crate::proofs::LetterLemmas::plain_kind, crate::proofs::LetterLemmas::plain_ink, crate::proofs::LetterLemmas::plain_paper))]
pub fn kind_numbers(cell: Cell) -> (u16, u32, u32)
    ensures kind { result.0 ≡ kind_number (kind_of cell) }
    ensures ink { result.1 ≡ colour_number cell.rendition.ink }
    ensures paper { result.2 ≡ colour_number cell.rendition.paper }
{
    if is_letter_like(Cell::empty(), cell) {
        return (0, 0, 0);
    }
    let kind = Kind::of(cell);
    let (ink, paper) = (kind.rendition.ink, kind.rendition.paper);
    (kind.number(), colour_number(ink), colour_number(paper))
}

/// Whether a cell is a letter: a character of ASCII alone.
pub fn is_letter(cell: Cell) -> bool
    ensures { IsTrue result → IsLetter cell.rendition cell }
{
    cell.is_narrow() && cell.is_ascii()
}

/// Whether another cell is a letter in the rendition of one that is a letter.
pub fn is_letter_like(letter: Cell, cell: Cell) -> bool
    requires { IsLetter letter.rendition letter }
    ensures { IsTrue result → IsLetter letter.rendition cell }
{
    letter.same_style(cell) && cell.is_ascii()
}

/// Whether a run begins at a place.
pub fn begins(cells: &[Cell], at: usize) -> bool
    ensures { result ≡ begins cells.now at }
{
    if at > 0 && are_joined(cell_behind(cells, at - 1), cell_behind(cells, at)) {
        return false;
    }
    if at > 0 && are_parted(cell_behind(cells, at - 1), cell_behind(cells, at)) {
        return true;
    }
    if at > 0 && is_one_drawn(cell_behind(cells, at - 1), cell_behind(cells, at)) {
        return true;
    }
    begins_by_kind(cells, at)
}

/// Whether two neighbours are letters of two renditions.
fn are_parted(one: Cell, other: Cell) -> bool
    ensures { IsTrue result → AreParted one other }
{
    if is_letter(one) && is_letter(other) {
        return !one.same_style(other);
    }
    false
}

/// Whether of two neighbours without marks one is drawn, and the other isn't.
fn is_one_drawn(one: Cell, other: Cell) -> bool
    ensures { IsTrue result → AreUnlike one other }
{
    if one.is_covered() || other.is_covered() || one.mark_count() + other.mark_count() > 0 {
        return false;
    }
    is_outlined(one.character()) != is_outlined(other.character())
}

/// Whether two neighbours are in one run, as far as that is told without a look at each part.
fn are_joined(one: Cell, other: Cell) -> bool
    ensures { IsTrue result → AreJoined one other }
{
    if !one.same_style(other) || one.is_covered() || one.mark_count() + other.mark_count() > 0 {
        return false;
    }
    if one == other {
        return true;
    }
    is_outlined(one.character()) == is_outlined(other.character())
}

/// Whether a run begins at a place, by the kinds of both cells.
#[tactic(auto, unfolding(crate::specs::Runs::begins))]
fn begins_by_kind(cells: &[Cell], at: usize) -> bool
    ensures { result ≡ begins cells.now at }
{
    if at == 0 {
        return true;
    }
    let cell = cell_behind(cells, at);
    !cell.is_covered() && !Kind::of(owner(cells, at - 1)).goes_on(Kind::of(cell))
}
