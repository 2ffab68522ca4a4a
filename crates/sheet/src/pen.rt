//! Renditions and colours as cells hold them, so that cells are written without being told anew.

ghost use Rattle.std.specs.Prelude.{◌≡◌};
ghost use Rattle.sheet.specs.Cells.{plain_on};
ghost use Rattle.sheet.specs.declared.rendition.Colour.{Colour};

use crate::rendition::{Colour, Rendition};
use std::marker::Model;

// A colour takes 25 bits.
pub(crate) const COLOURS: u64 = 33_554_432;

// The attributes and two colours take 58.
pub(crate) const STYLES: u64 = 288_230_376_151_711_744;

/// A rendition, in 8 bytes. Contracts see the rendition.
#[derive(Clone, Copy, Debug)]
pub struct Pen {
    pub(crate) style: u64,
}

impl Model for Pen {
    ghost use Rattle.sheet.specs.declared.rendition.Rendition.{Rendition};
    ghost use Rattle.sheet.specs.Numbers.{IsPen, pen_again, pen_number, pen_of};

    ghost Value = { Rendition };

    ghost view = { λ p. pen_of p.style };

    ghost invariant = { λ p. IsPen p.style };

    ghost inverse = { λ r. record { style = pen_number r } };

    ghost inverse_ok = { λ p is i. record { style = pen_again p.style is i } };
}

/// A colour of the ground, in 8 bytes. Contracts see the colour.
#[derive(Clone, Copy, Debug)]
pub struct Paper {
    pub(crate) style: u64,
}

impl Model for Paper {
    ghost use Rattle.sheet.specs.declared.rendition.Colour.{Colour};
    ghost use Rattle.sheet.specs.Numbers.{IsPaper, paper_again, paper_number, paper_of};

    ghost Value = { Colour };

    ghost view = { λ p. paper_of p.style };

    ghost invariant = { λ p. IsPaper p.style };

    ghost inverse = { λ c. record { style = paper_number c } };

    ghost inverse_ok = { λ p is i. record { style = paper_again p.style is i } };
}

impl Paper {
    /// A colour to be held.
    pub fn of(colour: Colour) -> Self
        ensures { result ≡ colour }
    {
        Paper {
            style: colour.number() as u64 * COLOURS,
        }
    }
}

impl Pen {
    /// A rendition to be held.
    pub fn of(rendition: Rendition) -> Self
        ensures { result ≡ rendition }
    {
        let bits = rendition.attributes();
        let paper = rendition.paper.number();
        let ink = rendition.ink.number();
        Pen {
            style: (bits as u64 * COLOURS + paper as u64) * COLOURS + ink as u64,
        }
    }

    /// The rendition that it holds.
    #[tactic(auto, unfolding(crate::specs::Numbers::pen_of))]
    pub fn rendition(self) -> Rendition
        ensures { result ≡ self }
    {
        let bits = (self.style / COLOURS / COLOURS % 256) as u8;
        let ink = (self.style % COLOURS) as u32;
        let paper = (self.style / COLOURS % COLOURS) as u32;
        Rendition::of(bits, ink, paper)
    }

    /// Its ground.
    #[tactic(auto, unfolding(crate::specs::Numbers::pen_of, crate::specs::Numbers::paper_of, crate::specs::Numbers::rendition_of))]
    pub fn paper(self) -> Paper
        ensures { result ≡ self.paper }
    {
        Paper {
            style: self.style / COLOURS % COLOURS * COLOURS,
        }
    }

    /// No rendition.
    pub fn plain() -> Self
        ensures { result ≡ plain_on Colour.Default }
    {
        Pen::plain_on(Paper::of(Colour::Default))
    }

    /// No attribute and the default ink.
    pub fn plain_on(paper: Paper) -> Self
        ensures { result ≡ plain_on paper }
    {
        Pen { style: paper.style }
    }
}
