//! UTF-8, a byte at a time (Unicode core specification 3.9, table 3-7).
ghost use Rattle.std.specs.Prelude.{◌≡◌, ◌<◌, ◌≤◌, [], ◌∷◌, IfSome, length, take, true, false};
ghost use Rattle.characters.specs.Utf8.{row_of, begins, Spells, is_trailing, may_follow, code_point, reading, left_by, left_of, bytes_of, IsFront};

use std::marker::Model;

/// What the next byte makes of the bytes of a character that isn't finished.
#[derive(Clone, Copy, Debug, PartialEq, Eq)]
pub enum Reading {
    /// A whole character.
    Character(char),
    /// More of them are pending.
    More,
    /// They are no character, and stand for one U+FFFD. The byte itself is to be read anew.
    Broken,
}

/// The bytes of a character that isn't finished.
#[derive(Clone, Copy, Debug, PartialEq, Eq)]
pub enum Begun {
    Nothing,
    One(u8),
    Two(u8, u8),
    Three(u8, u8, u8),
}

// What a first byte says of the bytes behind it: the second is from low to high, and they are so many in all.
#[derive(Clone, Copy)]
struct Form {
    low: u8,
    high: u8,
    length: u8,
}

#[inline]
#[tactic(auto, unfolding(crate::specs::Utf8::row_of))]
fn form_of(lead: u8) -> Form
    requires { begins lead ≡ true }
    ensures low { result.low ≡ (row_of lead).low }
    ensures high { result.high ≡ (row_of lead).high }
    ensures length { result.length ≡ (row_of lead).length }
{
    let (low, high, length) = match lead {
        0xC2..=0xDF => (0x80, 0xBF, 2),
        0xE0 => (0xA0, 0xBF, 3),
        0xE1..=0xEC => (0x80, 0xBF, 3),
        0xED => (0x80, 0x9F, 3),
        0xEE..=0xEF => (0x80, 0xBF, 3),
        0xF0 => (0x90, 0xBF, 4),
        0xF1..=0xF3 => (0x80, 0xBF, 4),
        _ => (0x80, 0x8F, 4),
    };
    Form { low, high, length }
}

/// Whether a byte begins a character of more than one byte.
#[inline]
pub fn begins(byte: u8) -> bool
    ensures { result ≡ begins byte }
{
    matches!(byte, 0xC2..=0xF4)
}

// A third or fourth byte.
#[inline]
fn is_trailing(byte: u8) -> bool
    ensures { result ≡ is_trailing byte }
{
    matches!(byte, 0x80..=0xBF)
}

// The characters of two, three and four bytes.
#[inline]
fn of_two(a: u8, b: u8) -> char
    requires front { IsFront (a ∷ []) }
    requires follows { may_follow (a ∷ []) b ≡ true }
    requires whole { (row_of a).length ≡ 2 }
    ensures { result ≡ code_point (a ∷ b ∷ []) }
{
    let code = 64 * (a as u32 - 0xC0) + (b as u32 - 0x80);
    char::from_u32(code).unwrap()
}

#[inline]
fn of_three(a: u8, b: u8, c: u8) -> char
    requires front { IsFront (a ∷ b ∷ []) }
    requires follows { may_follow (a ∷ b ∷ []) c ≡ true }
    requires whole { (row_of a).length ≡ 3 }
    ensures { result ≡ code_point (a ∷ b ∷ c ∷ []) }
{
    let code = 4096 * (a as u32 - 0xE0) + 64 * (b as u32 - 0x80) + (c as u32 - 0x80);
    char::from_u32(code).unwrap()
}

#[inline]
fn of_four(a: u8, b: u8, c: u8, d: u8) -> char
    requires front { IsFront (a ∷ b ∷ c ∷ []) }
    requires follows { may_follow (a ∷ b ∷ c ∷ []) d ≡ true }
    requires whole { (row_of a).length ≡ 4 }
    ensures { result ≡ code_point (a ∷ b ∷ c ∷ d ∷ []) }
{
    let code = 262144 * (a as u32 - 0xF0)
        + 4096 * (b as u32 - 0x80)
        + 64 * (c as u32 - 0x80)
        + (d as u32 - 0x80);
    char::from_u32(code).unwrap()
}

// What a byte makes of one, two or three that are pending.
#[inline]
fn read_second(a: u8, byte: u8) -> Reading
    requires { IsFront (a ∷ []) }
    ensures { result ≡ reading (a ∷ []) byte }
{
    let form = form_of(a);
    if byte < form.low || form.high < byte {
        Reading::Broken
    } else if form.length == 2 {
        Reading::Character(of_two(a, byte))
    } else {
        Reading::More
    }
}

#[inline]
fn read_third(a: u8, b: u8, byte: u8) -> Reading
    requires { IsFront (a ∷ b ∷ []) }
    ensures { result ≡ reading (a ∷ b ∷ []) byte }
{
    if !is_trailing(byte) {
        Reading::Broken
    } else if form_of(a).length == 3 {
        Reading::Character(of_three(a, b, byte))
    } else {
        Reading::More
    }
}

#[inline]
#[tactic(auto, using(crate::proofs::Fronts::four_long))]
fn read_fourth(a: u8, b: u8, c: u8, byte: u8) -> Reading
    requires { IsFront (a ∷ b ∷ c ∷ []) }
    ensures { result ≡ reading (a ∷ b ∷ c ∷ []) byte }
{
    if !is_trailing(byte) {
        return Reading::Broken;
    }
    Reading::Character(of_four(a, b, c, byte))
}

// A reading, and what is pending after it, where that is this one if more bytes are.
#[inline]
fn with_left(reading: Reading, more: Begun) -> (Reading, Begun)
    ensures reading { result.0 ≡ reading }
    ensures left { result.1 ≡ left_of reading more }
{
    match reading {
        Reading::More => (reading, more),
        _ => (reading, Begun::Nothing),
    }
}

// What a byte makes of those that are pending, and what is pending then.
#[inline]
#[tactic(auto, using(crate::proofs::Fronts::left_two, crate::proofs::Fronts::left_three, crate::proofs::Fronts::left_none))]
fn read_on(begun: Begun, byte: u8) -> (Reading, Begun)
    requires front { IsFront (bytes_of begun) }
    requires some { 0 < length (bytes_of begun) }
    ensures reading { result.0 ≡ reading (bytes_of begun) byte }
    ensures left { bytes_of result.1
        ≡ left_by (reading (bytes_of begun) byte) (bytes_of begun) byte }
{
    match begun {
        Begun::Nothing => unreachable!(),
        Begun::One(a) => with_left(read_second(a, byte), Begun::Two(a, byte)),
        Begun::Two(a, b) => with_left(read_third(a, b, byte), Begun::Three(a, b, byte)),
        Begun::Three(a, b, c) => (read_fourth(a, b, c, byte), Begun::Nothing),
    }
}

/// The character of several bytes that these begin with, and how many it takes; none where they begin with none, or where
/// it goes on past them.
#[inline]
pub fn character_at(bytes: &[u8]) -> Option<(char, usize)>
    ensures within { IfSome result (λ found. found.1 ≤ length bytes.now) }
    ensures some { IfSome result (λ found. 0 < found.1) }
    ensures spelled { IfSome result (λ found. Spells (take found.1 bytes.now) found.0) }
{
    if bytes.len() < 2 || !begins(bytes[0]) {
        return None;
    }
    match read_second(bytes[0], bytes[1]) {
        Reading::Character(character) => return Some((character, 2)),
        Reading::Broken => return None,
        Reading::More => {}
    }
    if bytes.len() < 3 {
        return None;
    }
    match read_third(bytes[0], bytes[1], bytes[2]) {
        Reading::Character(character) => return Some((character, 3)),
        Reading::Broken => return None,
        Reading::More => {}
    }
    if bytes.len() < 4 {
        return None;
    }
    match read_fourth(bytes[0], bytes[1], bytes[2], bytes[3]) {
        Reading::Character(character) => Some((character, 4)),
        _ => None,
    }
}

/// A decoder. Contracts see the bytes of the character that isn't finished.
#[derive(Debug, Drop)]
pub struct Decoder {
    begun: Begun,
}

impl Model for Decoder {
    ghost use Rattle.std.specs.Prelude.{List, ℕ};

    ghost Value = { List ℕ };

    ghost use Rattle.characters.specs.Utf8.{bytes_of, IsFront};

    ghost view = { λ u. bytes_of u.begun };

    ghost invariant = { λ u. IsFront (bytes_of u.begun) };
}

impl Decoder {
    /// Nothing is pending.
    pub fn new() -> Self
        ensures { result ≡ [] }
    {
        Decoder {
            begun: Begun::Nothing,
        }
    }

    /// The bytes that are pending.
    pub fn begun(&self) -> Begun
        ensures { bytes_of result ≡ self.now }
    {
        self.begun
    }

    /// Whether bytes are pending.
    #[inline]
    pub fn is_pending(&self) -> bool
        ensures some { result ≡ true → 0 < length self.now }
        ensures none { result ≡ false → self.now ≡ [] }
    {
        match self.begun {
            Begun::Nothing => false,
            _ => true,
        }
    }

    /// Begins a character. What was pending is dropped.
    pub fn begin(&mut self, byte: u8)
        requires { begins byte ≡ true }
        ensures { self.new ≡ byte ∷ [] }
    {
        self.begun = Begun::One(byte);
    }

    /// Takes the next byte of a character that is begun. Where it can't go on nothing is pending then.
    #[tactic(auto, using(crate::proofs::Fronts::front_left))]
    pub fn take(&mut self, byte: u8) -> Reading
        requires { 0 < length self.old }
        ensures value { result ≡ reading self.old byte }
        ensures left { self.new ≡ left_by (reading self.old byte) self.old byte }
    {
        let (reading, left) = read_on(self.begun, byte);
        self.begun = left;
        reading
    }

    /// Becomes what the other one is.
    pub fn copy_from(&mut self, other: &Decoder)
        ensures { self.new ≡ other.now }
    {
        self.begun = other.begun;
    }
}
