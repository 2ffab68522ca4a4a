//! Cells: a character with its marks, or the right half of a wide one.

ghost use Rattle.std.specs.Prelude.{◌≡◌, ◌≤◌, ◌<◌, IsTrue, length, slice_index_or};
ghost use Rattle.sheet.specs.Numbers.{AreNumbers, kind_number, kind_of, marks_of};
ghost use Rattle.sheet.specs.Cells.{alignment, blank, covering, is_covered, is_wide, lettered, plain_on, with_mark};

mod alike;

use crate::pen::{COLOURS, Paper, Pen, STYLES};
use crate::rendition::{Colour, Rendition};
pub use alike::put_letters;
use std::marker::Model;

/// What a cell holds: a character of width 1, one of width 2, or the right half of the one at its left.
#[derive(Clone, Copy, Debug, PartialEq, Eq)]
pub enum Kind {
    Narrow,
    Wide,
    Covered,
}

impl Kind {
    /// The kind as a number.
    fn number(self) -> u64
        ensures value { result ≡ kind_number self }
        ensures below { result < 3 }
        ensures again { kind_of result ≡ self }
    {
        match self {
            Kind::Narrow => 0,
            Kind::Wide => 1,
            Kind::Covered => 2,
        }
    }

    /// The kind of a number.
    #[tactic(auto, unfolding(crate::specs::Numbers::kind_of))]
    fn of(number: u64) -> Self
        ensures { result ≡ kind_of number }
    {
        if number == 0 {
            Kind::Narrow
        } else if number == 1 {
            Kind::Wide
        } else {
            Kind::Covered
        }
    }
}

// A character takes 21 bits.
const CHARACTERS: u64 = 2_097_152;

/// A character with at most two marks, and its rendition, in 16 bytes. A covered cell holds a space.
#[derive(Clone, Copy, Debug, PartialEq, Eq)]
pub struct Cell {
    text: u64,
    style: u64,
}

const _: () = prove!(size_of::<Cell>() == 16);

impl Model for Cell {
    ghost use Rattle.sheet.specs.Cells.{Cell};
    ghost use Rattle.sheet.specs.Numbers.{AreCell, cell_of, first_number, second_number};
    ghost use Rattle.sheet.specs.Numbers.{style_again, style_number, text_again, text_number};

    ghost Value = { Cell };

    ghost view = { λ c. cell_of c.text c.style };

    ghost invariant = { λ c. AreCell c.text c.style };

    ghost inverse = { λ c. record {
      text = text_number c.character (first_number c.marks) (second_number c.marks);
      style = style_number c.kind c.rendition;
    } };

    // The two numbers and what they stand for give each other.
    ghost inverse_ok = { λ c are i. record {
      text = text_again c.text c.style are i;
      style = style_again c.text c.style are i;
    } };
}

impl Cell {
    /// A cell of its parts, with marks by their numbers.
    fn of(kind: Kind, character: char, first: u32, second: u32, rendition: Pen) -> Self
        requires numbers { AreNumbers first second }
        requires first { first < 2097152 }
        requires second { second < 2097152 }
        ensures { result
            ≡ record { kind = kind; character = character; marks = marks_of first second; rendition = rendition } }
    {
        let sort = kind.number();
        Cell {
            text: (second as u64 * CHARACTERS + first as u64) * CHARACTERS + character as u64,
            style: sort * STYLES + rendition.style,
        }
    }

    /// A character without marks, in one column or two.
    #[tactic(auto, unfolding(crate::specs::Cells::lettered))]
    pub fn lettered(character: char, wide: bool, rendition: Pen) -> Self
        ensures { result ≡ lettered character wide rendition }
    {
        let kind = if wide { Kind::Wide } else { Kind::Narrow };
        Cell::of(kind, character, 0, 0, rendition)
    }

    /// A space, erased in colour.
    #[tactic(auto, unfolding(crate::specs::Cells::blank))]
    pub fn blank(paper: Paper) -> Self
        ensures { result ≡ blank paper }
    {
        Cell::of(Kind::Narrow, ' ', 0, 0, Pen::plain_on(paper))
    }

    /// A space without rendition.
    pub fn empty() -> Self
        ensures { result ≡ blank Colour.Default }
    {
        Cell::blank(Paper::of(Colour::Default))
    }

    /// The right half of a character of this rendition.
    #[tactic(auto, unfolding(crate::specs::Cells::covering))]
    pub fn covering(rendition: Pen) -> Self
        ensures { result ≡ covering rendition }
    {
        Cell::of(Kind::Covered, ' ', 0, 0, rendition)
    }

    /// The cell that a screen is aligned by.
    pub fn alignment() -> Self
        ensures { result ≡ alignment }
    {
        Cell::lettered('E', false, Pen::plain())
    }

    /// The same cell with one mark more, where there is room for it.
    #[tactic(auto, unfolding(crate::specs::Cells::with_mark))]
    pub fn with_mark(self, mark: char) -> Self
        ensures { result ≡ with_mark mark self }
    {
        let (first, second) = self.numbers();
        if first == 0 {
            Cell::of(
                self.kind(),
                self.character(),
                mark as u32 + 1,
                0,
                self.pen(),
            )
        } else if second == 0 {
            Cell::of(
                self.kind(),
                self.character(),
                first,
                mark as u32 + 1,
                self.pen(),
            )
        } else {
            self
        }
    }

    /// What the cell holds.
    #[tactic(auto, unfolding(crate::specs::Numbers::cell_of))]
    pub fn kind(self) -> Kind
        ensures { result ≡ self.kind }
    {
        Kind::of(self.style / COLOURS / COLOURS / 256)
    }

    /// The character; a space where the cell is covered.
    #[tactic(auto, unfolding(crate::specs::Numbers::cell_of))]
    pub fn character(self) -> char
        ensures { result ≡ self.character }
    {
        let code = (self.text % CHARACTERS) as u32;
        // The invariant says that it is a character.
        unsafe { char::from_u32_unchecked(code) }
    }

    /// How it is written.
    pub fn rendition(self) -> Rendition
        ensures { result ≡ self.rendition }
    {
        self.pen().rendition()
    }

    /// The same, as cells hold it.
    pub fn pen(self) -> Pen
        ensures { result ≡ self.rendition }
    {
        Pen {
            style: self.style % STYLES,
        }
    }

    /// The numbers of the two marks.
    #[tactic(auto, unfolding(crate::specs::Numbers::cell_of))]
    fn numbers(self) -> (u32, u32)
        ensures marks { marks_of result.0 result.1 ≡ self.marks }
        ensures numbers { AreNumbers result.0 result.1 }
        ensures first { result.0 < 2097152 }
    {
        let first = (self.text / CHARACTERS % CHARACTERS) as u32;
        let second = (self.text / CHARACTERS / CHARACTERS) as u32;
        (first, second)
    }

    /// How many marks there are.
    pub fn mark_count(self) -> u8
        ensures value { result ≡ length self.marks }
        ensures few { result ≤ 2 }
    {
        let (first, second) = self.numbers();
        u8::from(first > 0) + u8::from(second > 0)
    }

    /// A mark by its number, from 0.
    pub fn mark(self, n: u8) -> char
        requires { n < length self.marks }
        ensures { result ≡ slice_index_or self.marks n 0 }
    {
        let (first, second) = self.numbers();
        let number = if n == 0 { first } else { second };
        char::from_u32(number - 1).unwrap_or(' ')
    }

    /// Whether it is a space alone without rendition.
    #[tactic(auto, unfolding(crate::specs::Cells::blank, crate::specs::Numbers::cell_of))]
    pub fn is_blank(self) -> bool
        ensures { IsTrue result → self ≡ blank Colour.Default }
    {
        self.text == 32 && self.style == 0
    }

    /// Whether a character of width 2 begins here.
    #[tactic(auto, unfolding(crate::specs::Cells::is_wide))]
    pub fn is_wide(self) -> bool
        ensures { result ≡ is_wide self }
    {
        match self.kind() {
            Kind::Wide => true,
            Kind::Narrow | Kind::Covered => false,
        }
    }

    /// Whether it is the right half of the character at its left.
    #[tactic(auto, unfolding(crate::specs::Cells::is_covered))]
    pub fn is_covered(self) -> bool
        ensures { result ≡ is_covered self }
    {
        match self.kind() {
            Kind::Covered => true,
            Kind::Narrow | Kind::Wide => false,
        }
    }
}
