//! How a text begins, told by the glyphs of three cells side by side.

ghost use Rattle.std.specs.Prelude.{◌≡◌, ◌+◌, ◌<◌, ◌≤◌, ℕ, false, length, slice_index_or, true};
ghost use Rattle.vt_screen.specs.Cells.{blank};
ghost use Rattle.screen_print.specs.Start.{IsStart, Wants, fits, starts_at, starts_at_end, three_fit};

use vt_screen::Cell;
use vt_screen::limits::WIDE_COLUMNS;

/// How many cells a row has.
const ROW: usize = WIDE_COLUMNS as usize;

/// What the number of a cell has that shows a character of a text: its bits under a mask. A character of ASCII
/// behind the space is shown by one glyph alone, so the bits are that glyph. Where the text has no such
/// character the mask is empty, and any cell has it.
#[derive(Clone, Copy)]
struct Wanted {
    mask: u16,
    bits: u16,
}

/// What the first three characters of a text want.
#[derive(Drop)]
pub(crate) struct Start {
    first: Wanted,
    second: Wanted,
    third: Wanted,
}

impl Start {
    /// How a text begins.
    pub(crate) fn of(text: &[char]) -> Self
        ensures { IsStart text.now result }
    {
        Start {
            first: wanted_at(text, 0),
            second: wanted_at(text, 1),
            third: wanted_at(text, 2),
        }
    }

    /// Whether a cell may show the first character.
    pub(crate) fn may_begin_at(&self, cell: Cell) -> bool
        ensures { result ≡ fits self.now.first cell }
    {
        fits(self.first, cell)
    }
}

/// What the character of a text at a place wants.
fn wanted_at(text: &[char], place: usize) -> Wanted
    ensures { Wants text.now place result }
{
    if place < text.len() {
        let character = text[place];
        if '!' <= character && character <= '~' {
            return Wanted {
                mask: 255,
                bits: character as u16,
            };
        }
    }
    Wanted { mask: 0, bits: 0 }
}

/// Whether a cell has what is wanted.
fn fits(wanted: Wanted, cell: Cell) -> bool
    ensures { result ≡ fits wanted cell }
{
    cell.number() & wanted.mask == wanted.bits
}

/// Whether a text may begin in one of the first N cells of a row, told by that and two more.
pub(crate) fn may_start<const N: usize>(start: &Start, cells: &[Cell; ROW]) -> bool
    requires { N + 2 ≤ ROW }
    ensures { result ≡ false → (k : ℕ) → k < N → starts_at start.now cells.now k ≡ false }
{
    let cells = &cells[..];
    any_three::<N>(start, &cells[..N], &cells[1..N + 1], &cells[2..N + 2])
}

/// Whether at one of N places the cells of three slices have what is wanted. All are looked at, so that many are at
/// once: their numbers stand side by side in memory, their glyphs don't. The compiler isn't told that the slices
/// overlap: it would load each cell once, and shift it into place at more cost.
#[inline(never)]
fn any_three<const N: usize>(start: &Start, one: &[Cell], two: &[Cell], three: &[Cell]) -> bool
    requires one { length one.now ≡ N }
    requires two { length two.now ≡ N }
    requires three { length three.now ≡ N }
    ensures { result ≡ false → (k : ℕ) → k < N
        → three_fit start.now (slice_index_or one.now k blank) (slice_index_or two.now k blank)
        (slice_index_or three.now k blank) ≡ false }
{
    let mut any = false;
    for at in 0..N {
        any |= fits(start.first, one[at])
            & fits(start.second, two[at])
            & fits(start.third, three[at]);
    }
    any
}

/// Whether a text may begin in the last two cells of a row, told by its characters there.
pub(crate) fn may_start_at_end(start: &Start, cells: &[Cell]) -> bool
    requires { 2 ≤ length cells.now }
    ensures { result ≡ starts_at_end start.now cells.now }
{
    let last = cells.len() - 1;
    fits(start.first, cells[last])
        | fits(start.first, cells[last - 1]) & fits(start.second, cells[last])
}

/// Whether all cells are blank. All are looked at, so that many are at once.
#[inline(never)]
pub(crate) fn are_spaces(cells: &[Cell]) -> bool
    ensures { result ≡ true → (k : ℕ) → k < length cells.now
        → (slice_index_or cells.now k blank).glyph ≡ 32 }
{
    let mut any = false;
    for at in 0..cells.len() {
        any |= is_other(cells[at]);
    }
    !any
}

/// Whether a cell isn't blank, told by its number.
fn is_other(cell: Cell) -> bool
    ensures { result ≡ false → cell.glyph ≡ 32 }
{
    cell.number() != u16::from(b' ')
}
