//! The rendition of a character.

ghost use Rattle.std.specs.Prelude.{◌≡◌};
ghost use Rattle.vt_screen.specs.Attributes.{byte_of, plain};

use std::marker::Model;

/// Bold, underscore, blink and reverse, held in one byte.
#[derive(Clone, Copy, Debug, PartialEq, Eq)]
pub struct Rendition {
    bits: u8,
}

impl Model for Rendition {
    ghost use Rattle.std.specs.Prelude.{◌≡◌, ◌<◌};
    ghost use Rattle.vt_screen.specs.Attributes.{Attributes, attributes_of, byte_of};

    ghost Value = { Attributes };

    ghost view = { λ r. attributes_of r.bits };

    ghost invariant = { λ r. r.bits < 16 };

    ghost inverse = { λ a. record { bits = byte_of a } };

    ghost use Rattle.std.proofs.Common.{arith};
    ghost use Rattle.std.proofs.lemmas.Bool.Decides.{nat_tests};

    // The byte and its four truth values give each other.
    ghost inverse_ok = { λ r below i. record {
      bits = (let again : byte_of (attributes_of r.bits) ≡ r.bits = Prim.grind (arith, nat_tests) in again i);
    } };
}

impl Rendition {
    /// No attribute at all.
    pub fn plain() -> Self
        ensures { result ≡ plain }
    {
        Rendition { bits: 0 }
    }

    pub fn new(bold: bool, underscore: bool, blink: bool, reverse: bool) -> Self
        ensures { result
            ≡ record { bold = bold; underscore = underscore; blink = blink; reverse = reverse } }
    {
        let low = u8::from(bold) + 2 * u8::from(underscore);
        let high = 4 * u8::from(blink) + 8 * u8::from(reverse);
        Rendition { bits: low + high }
    }

    /// The four attributes in one byte: bit 0 is bold, bit 1 underscore, bit 2 blink, bit 3 reverse.
    pub(crate) fn byte(self) -> u8
        ensures { result ≡ byte_of self }
    {
        self.bits
    }

    pub fn bold(self) -> bool
        ensures { result ≡ self.bold }
    {
        self.bits % 2 == 1
    }

    pub fn underscore(self) -> bool
        ensures { result ≡ self.underscore }
    {
        self.bits / 2 % 2 == 1
    }

    pub fn blink(self) -> bool
        ensures { result ≡ self.blink }
    {
        self.bits / 4 % 2 == 1
    }

    pub fn reverse(self) -> bool
        ensures { result ≡ self.reverse }
    {
        self.bits / 8 % 2 == 1
    }
}
