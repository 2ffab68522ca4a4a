//! What the two numbers of a cell tell without a look at its parts.

ghost use Rattle.std.specs.Prelude.{◌≡◌, ◌<◌, ◌≤◌, [], false, length, map, slice_index_or, IsTrue, ℕ};
ghost use Rattle.sheet.specs.Cells.{Cell, blank};
ghost use Rattle.sheet.specs.declared.rendition.Colour.{Colour};
ghost use Rattle.sheet.specs.Mixed.{AreAlike, mixed};

use super::{CHARACTERS, COLOURS, Cell, Kind, STYLES};

impl Cell {
    /// Whether both are of one kind and one rendition.
    pub fn same_style(self, other: Cell) -> bool
        ensures kind { IsTrue result → self.kind ≡ other.kind }
        ensures rendition { IsTrue result → self.rendition ≡ other.rendition }
        ensures apart { result ≡ false → self.kind ≡ other.kind
            → AreAlike self.rendition other.rendition → ⊥ }
    {
        self.style == other.style
    }

    /// Whether it has one column of its own.
    #[tactic(auto, unfolding(crate::specs::Numbers::cell_of, crate::specs::Numbers::kind_of))]
    pub fn is_narrow(self) -> bool
        ensures { IsTrue result → self.kind ≡ Kind.Narrow }
    {
        self.style / COLOURS / COLOURS / 256 == 0
    }

    /// Whether it is a character of one column without marks.
    #[inline]
    #[tactic(auto, unfolding(crate::specs::Numbers::cell_of, crate::specs::Numbers::kind_of))]
    pub fn is_plain(self) -> bool
        ensures kind { IsTrue result → self.kind ≡ Kind.Narrow }
        ensures alone { IsTrue result → self.marks ≡ [] }
    {
        self.text < CHARACTERS && self.style < STYLES
    }

    /// Two numbers with those of this cell taken in: where they stay small, they were so before, and it is a character of one
    /// column without marks.
    #[inline]
    #[tactic(auto, using(std::proofs::lemmas::Nat::le_or_l, std::proofs::lemmas::Nat::le_or_r), unfolding(crate::specs::Numbers::cell_of, crate::specs::Numbers::kind_of))]
    fn taken_in(self, text: u64, style: u64) -> (u64, u64)
        ensures text { text ≤ result.0 }
        ensures style { style ≤ result.1 }
        ensures kind { result.1 < STYLES → self.kind ≡ Kind.Narrow }
        ensures alone { result.0 < CHARACTERS → self.marks ≡ [] }
    {
        (text | self.text, style | self.style)
    }

    /// Whether its text is a character of ASCII alone. Right halves hold a space.
    pub fn is_ascii(self) -> bool
        ensures low { IsTrue result → self.character < 128 }
        ensures alone { IsTrue result → self.marks ≡ [] }
    {
        self.text < 128
    }

    /// The character, if it is one of ASCII.
    pub fn ascii(self) -> u8
        ensures { self.character < 128 → result ≡ self.character }
    {
        (self.text % CHARACTERS % 128) as u8
    }

    /// A number that takes in all of the cell besides another one: other cells mostly give other numbers.
    pub fn mixed(self, sum: u64) -> u64
        ensures { result ≡ mixed sum self }
    {
        sum.wrapping_add(self.style)
            .wrapping_mul(6_364_136_223_846_793_005)
            .wrapping_add(self.text)
    }
}

/// Puts the characters of cells into a list, and says whether each cell is one of one column without marks. It goes over
/// all of them with no way out, since that is done many at a time.
pub fn put_letters(cells: &[Cell], letters: &mut [char]) -> bool
    requires { length letters.old ≡ length cells.now }
    ensures letters { letters.new ≡ map (λ (cell : Cell). cell.character) cells.now }
    ensures kinds { IsTrue result → (k : ℕ) → k < length cells.now
        → (slice_index_or cells.now k (blank Colour.Default)).kind ≡ Kind.Narrow }
    ensures alone { IsTrue result → (k : ℕ) → k < length cells.now
        → (slice_index_or cells.now k (blank Colour.Default)).marks ≡ [] }
{
    let mut numbers = (0, 0);
    for at in 0..cells.len() {
        letters[at] = cells[at].character();
        numbers = cells[at].taken_in(numbers.0, numbers.1);
    }
    numbers.0 < CHARACTERS && numbers.1 < STYLES
}
