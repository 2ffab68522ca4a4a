//! Strings: their text between quotes, and the bytes that it means.
ghost use Rattle.std.specs.Prelude.{◌≡◌, ℕ, [], ◌∷◌, ◌+◌, ◌<◌, ◌≤◌, ◌++◌, IfOk, IfSome, OnOk, Some, length, nat_eq, true};
ghost use Rattle.std.specs.List.{starts_with};
ghost use Rattle.std.specs.Option.{option_map};
ghost use Rattle.json_bytes.specs.Strings.{alone, bytes_of, character_at, escaped, hex_at, hex_digit, is_high, is_low, item_at, items, joined, meant, paired, string_at, unit_at, with_front};
ghost use Rattle.json_bytes.specs.Shown.{added};
ghost use Rattle.json_bytes.specs.Values.{behind, found, string_of, value};
ghost use Rattle.json_bytes.specs.declared.strings.Meaning.{Meaning};
ghost use Rattle.json_bytes.specs.declared.strings.Meaning.TheVariants as meaning;

use crate::marks::begins;
use crate::pieces::{LANES, Pieces};
use crate::plain::{is_plain, plain_lanes, plain_len};
use std::alloc::{AllocError, Global};
use std::simd::prelude::*;

/// The bytes that a string means: those of its text, where each stands by itself, or others that were written.
#[derive(Drop)]
pub enum StringBytes<'a> {
    Standing(&'a [u8]),
    Written(Vec<u8>),
}

impl StringBytes<'_> {
    /// Lends them.
    pub fn as_slice(&self) -> &[u8]
        ensures { result.now ≡ meant self.now }
    {
        match self {
            StringBytes::Standing(bytes) => bytes,
            StringBytes::Written(bytes) => bytes.as_slice(),
        }
    }

    /// Hands them over, copied where they stand in the text.
    pub fn into_vec(self, alloc: Global) -> Result<Vec<u8>, AllocError>
        ensures { IfOk result (λ bytes. bytes.items ≡ meant self.entry) }
    {
        match self {
            StringBytes::Standing(bytes) => bytes.to_vec(alloc),
            StringBytes::Written(bytes) => Ok(bytes),
        }
    }
}

/// What stands in a string's text: a byte by itself, or a character by its units of UTF-16.
#[derive(Clone, Copy)]
pub enum Meaning {
    Byte(u8),
    Character(char),
}

/// The value of a hexadecimal digit.
#[inline]
fn hex_digit(b: u8) -> Option<u32>
    ensures value { result ≡ hex_digit b }
    ensures small { IfSome result (λ n. n < 16) }
{
    if b.is_ascii_digit() {
        Some(u32::from(b - b'0'))
    } else if (b'a'..=b'f').contains(&b) {
        Some(u32::from(b - b'a') + 10)
    } else if (b'A'..=b'F').contains(&b) {
        Some(u32::from(b - b'A') + 10)
    } else {
        None
    }
}

/// The number that four hexadecimal digits write.
#[inline]
fn hex_at(at: usize, text: &[u8]) -> Option<u32>
    requires { at + 4 ≤ length text.now }
    ensures value { result ≡ hex_at at text.now }
    ensures small { IfSome result (λ n. n < 65536) }
{
    let a = hex_digit(text[at])?;
    let b = hex_digit(text[at + 1])?;
    let c = hex_digit(text[at + 2])?;
    let d = hex_digit(text[at + 3])?;
    Some(4096 * a + 256 * b + 16 * c + d)
}

/// The unit of UTF-16 that the front of a text writes.
fn unit_at(text: &[u8]) -> Option<u32>
    ensures value { result ≡ unit_at text.now }
    ensures small { IfSome result (λ n. n < 65536) }
    ensures within { IfSome result (λ n. 6 ≤ length text.now) }
{
    if text.len() >= 6 && text.starts_with(b"\\u") {
        hex_at(2, text)
    } else {
        None
    }
}

/// The first half of a pair of surrogates.
fn is_high(unit: u32) -> bool
    ensures { result ≡ is_high unit }
{
    (0xD800..=0xDBFF).contains(&unit)
}

/// The second half.
fn is_low(unit: u32) -> bool
    ensures { result ≡ is_low unit }
{
    (0xDC00..=0xDFFF).contains(&unit)
}

/// The character of a unit alone.
fn alone(unit: u32) -> char
    requires { unit < 65536 }
    ensures { result ≡ alone unit }
{
    match char::from_u32(unit) {
        Some(character) => character,
        None => '\u{fffd}',
    }
}

/// The character of a pair.
fn paired(high: u32, low: u32) -> char
    requires high { 55296 ≤ high }
    requires high_end { high ≤ 56319 }
    requires low { 56320 ≤ low }
    requires low_end { low ≤ 57343 }
    ensures { result ≡ paired high low }
{
    match char::from_u32(0x1_0000 + 1024 * (high - 0xD800) + (low - 0xDC00)) {
        Some(character) => character,
        None => unreachable!(),
    }
}

/// The character of the first half of a pair, by what stands behind it, and how many bytes it has.
fn after_high(high: u32, text: &[u8]) -> (Meaning, usize)
    requires { is_high high ≡ true }
    ensures value { result ≡ joined high (unit_at text.now) }
    ensures within { result.1 ≤ 6 + length text.now }
    ensures some { 0 < result.1 }
{
    match unit_at(text) {
        Some(low) if is_low(low) => (Meaning::Character(paired(high, low)), 12),
        _ => (Meaning::Character(alone(high)), 6),
    }
}

/// The character at the front that is written by its units, and how many bytes it has.
#[tactic(auto, using(crate::proofs::StringLemmas::alone_at))]
fn character_at(text: &[u8]) -> Option<(Meaning, usize)>
    ensures value { result ≡ character_at text.now }
    ensures within { IfSome result (λ found. found.1 ≤ length text.now) }
    ensures some { IfSome result (λ found. 0 < found.1) }
{
    let first = unit_at(text)?;
    if is_high(first) {
        return Some(after_high(first, &text[6..]));
    }
    Some((Meaning::Character(alone(first)), 6))
}

/// The byte that is meant by one behind a backslash.
fn escaped(b: u8) -> Option<u8>
    ensures { result ≡ escaped b }
{
    match b {
        b'"' | b'\\' | b'/' => Some(b),
        b'b' => Some(8),
        b'f' => Some(12),
        b'n' => Some(b'\n'),
        b'r' => Some(b'\r'),
        b't' => Some(b'\t'),
        _ => None,
    }
}

/// What the front of a string's text means, and how many bytes say so.
fn item_at(text: &[u8]) -> Option<(Meaning, usize)>
    requires { 0 < length text.now }
    ensures value { result ≡ item_at text.now }
    ensures within { IfSome result (λ found. found.1 ≤ length text.now) }
    ensures some { IfSome result (λ found. 0 < found.1) }
{
    if text.starts_with(b"\\u") {
        return character_at(text);
    }
    match text[0] {
        b'\\' if text.len() > 1 => Some((Meaning::Byte(escaped(text[1])?), 2)),
        b'\\' => None,
        first if first < 32 => None,
        first => Some((Meaning::Byte(first), 1)),
    }
}

/// Adds bytes.
fn push_all(pieces: &mut Pieces, bytes: &[u8]) -> Result<(), AllocError>
    ensures { OnOk result (added pieces.new ≡ added pieces.old ++ bytes.now) }
{
    for byte in bytes {
        pieces.push(*byte)?;
    }
    Ok(())
}

/// Adds the bytes that are meant.
fn push_meaning(pieces: &mut Pieces, meaning: Meaning) -> Result<(), AllocError>
    ensures { OnOk result (added pieces.new ≡ added pieces.old ++ bytes_of meaning) }
{
    match meaning {
        Meaning::Byte(byte) => pieces.push(byte),
        Meaning::Character(character) => {
            push_all(pieces, character.encode_utf8(&mut [0; 4]).as_bytes())
        }
    }
}

/// Whether a unit below 256 stands at the front, as far as its first four bytes tell.
#[inline]
#[tactic(auto, using(crate::proofs::StringLemmas::first_four))]
fn begins_low_unit(text: &[u8]) -> bool
    requires { 4 ≤ length text.now }
    ensures { result ≡ starts_with nat_eq text.now (92 ∷ 117 ∷ 48 ∷ 48 ∷ []) }
{
    (text[0] == b'\\') & (text[1] == b'u') & (text[2] == b'0') & (text[3] == b'0')
}

/// The character below 128 that is written by its unit at the front, as controls are.
#[inline]
fn ascii_at(text: &[u8]) -> Option<u8>
    ensures value { IfSome result (λ b. item_at text.now ≡ Some (meaning.Character b, 6)) }
    ensures small { IfSome result (λ b. b < 128) }
    ensures within { IfSome result (λ b. 6 ≤ length text.now) }
{
    if text.len() < 6 || !begins_low_unit(text) {
        return None;
    }
    let high = text[4];
    if high < b'0' || high > b'7' {
        return None;
    }
    let low = hex_digit(text[5])?;
    Some((16 * u32::from(high - b'0') + low) as u8)
}

/// The byte that an escape of two bytes at the front means.
#[inline]
fn escaped_at(text: &[u8]) -> Option<u8>
    ensures value { IfSome result (λ b. item_at text.now ≡ Some (meaning.Byte b, 2)) }
    ensures within { IfSome result (λ b. 2 ≤ length text.now) }
{
    if text.len() < 2 || text[0] != b'\\' {
        return None;
    }
    escaped(text[1])
}

/// The byte that an escape at the front means, where it means one, and how many bytes say so.
#[inline]
fn byte_at(text: &[u8]) -> Option<(u8, usize)>
    ensures value { IfSome result (λ r. (meaning : Meaning)
        × (item_at text.now ≡ Some (meaning, r.1)) × (bytes_of meaning ≡ r.0 ∷ [])) }
    ensures within { IfSome result (λ r. r.1 ≤ length text.now) }
    ensures some { IfSome result (λ r. 0 < r.1) }
{
    if let Some(byte) = ascii_at(text) {
        return Some((byte, 6));
    }
    Some((escaped_at(text)?, 2))
}

/// How many bytes the item at the front has.
#[inline]
fn item_len(text: &[u8]) -> Option<usize>
    requires { 0 < length text.now }
    ensures value { result ≡ option_map (λ found. found.1) (item_at text.now) }
    ensures within { IfSome result (λ len. len ≤ length text.now) }
    ensures some { IfSome result (λ len. 0 < len) }
{
    if let Some((_byte, len)) = byte_at(text) {
        return Some(len);
    }
    Some(item_at(text)?.1)
}

/// A string's text without those at its front.
fn past_plain(text: &[u8]) -> &[u8]
    ensures end { behind (items 0 text.now) ≡ behind (items 0 result.now) }
    ensures shorter { length result.now ≤ length text.now }
{
    text.split_at(plain_len(text)).1
}

/// Adds the bytes at the front of a string's text that stand by themselves, at least up to the first other one, and
/// gives what stands behind them.
#[inline(always)]
fn push_plain<'a>(pieces: &mut Pieces, text: &'a [u8]) -> Result<&'a [u8], AllocError>
    ensures pushed { IfOk result (λ rest. with_front (added pieces.old) (items 0 text.now)
        ≡ with_front (added pieces.new) (items 0 rest.now)) }
    ensures shorter { IfOk result (λ rest. length rest.now ≤ length text.now) }
{
    if begins(b'\\', text) {
        return Ok(text);
    }
    let mut rest = text;
    loop {
        if rest.len() >= LANES {
            pieces.make_room()?;
            let lanes = u8x16::from_slice(rest);
            let run = plain_lanes(lanes);
            pieces.push_lanes(lanes, run);
            rest = rest.split_at(run).1;
            if run < LANES {
                return Ok(rest);
            }
        } else {
            match rest {
                [first, behind @ ..] if is_plain(*first) => {
                    pieces.push(*first)?;
                    rest = behind;
                }
                _ => return Ok(rest),
            }
        }
    }
}

/// Adds the bytes that a string's text means up to its quote, and gives what stands behind that.
#[inline]
fn push_items<'a>(pieces: &mut Pieces, text: &'a [u8]) -> Result<Option<&'a [u8]>, AllocError>
    ensures { IfOk result (λ rest. option_map (λ r. (added pieces.new, r.now)) rest
        ≡ with_front (added pieces.old) (items 0 text.now)) }
{
    let mut at = text;
    loop {
        let rest = push_plain(pieces, at)?;
        let [first, behind @ ..] = rest else {
            return Ok(None);
        };
        if *first == b'"' {
            return Ok(Some(behind));
        }
        if let Some((byte, len)) = byte_at(rest) {
            pieces.push(byte)?;
            at = rest.split_at(len).1;
        } else {
            let Some((meaning, len)) = item_at(rest) else {
                return Ok(None);
            };
            push_meaning(pieces, meaning)?;
            at = rest.split_at(len).1;
        }
    }
}

/// The bytes that a string's text means up to its quote, and what stands behind that.
#[inline(never)]
#[tactic(auto, using(crate::proofs::StringLemmas::no_front))]
fn write_items(alloc: Global, text: &[u8]) -> Result<Option<(Vec<u8>, &[u8])>, AllocError>
    ensures { IfOk result (λ read. option_map (λ r. (r.0.items, r.1.now)) read
        ≡ items 0 text.now) }
{
    let mut pieces = Pieces::new(alloc);
    let Some(rest) = push_items(&mut pieces, text)? else {
        return Ok(None);
    };
    pieces.let_in()?;
    Ok(Some((pieces.bytes, rest)))
}

/// What stands behind the string at the front.
pub fn string_end(text: &[u8]) -> Option<&[u8]>
    ensures { option_map (λ r. r.now) result ≡ behind (string_at text.now) }
{
    if !begins(b'"', text) {
        return None;
    }
    let mut rest = past_plain(&text[1..]);
    while !rest.is_empty() {
        if rest[0] == b'"' {
            return Some(&rest[1..]);
        }
        let Some(len) = item_len(rest) else {
            return None;
        };
        rest = past_plain(rest.split_at(len).1);
    }
    None
}

/// The string at the front, by the bytes that it means, and what stands behind it. Takes no memory where each of its bytes
/// stands by itself.
#[inline(always)]
pub fn read_string(
    alloc: Global,
    text: &[u8],
) -> Result<Option<(StringBytes<'_>, &[u8])>, AllocError>
    ensures { IfOk result (λ read. option_map (λ r. (meant r.0, r.1.now)) read
        ≡ string_at text.now) }
{
    if !begins(b'"', text) {
        return Ok(None);
    }
    let inner = &text[1..];
    let (plain, rest) = inner.split_at(plain_len(inner));
    if begins(b'"', rest) {
        return Ok(Some((StringBytes::Standing(plain), &rest[1..])));
    }
    match write_items(alloc, inner)? {
        Some((bytes, behind)) => Ok(Some((StringBytes::Written(bytes), behind))),
        None => Ok(None),
    }
}

/// The string that stands at the front as a value, by the bytes that it means.
pub fn string_in(alloc: Global, text: &[u8]) -> Result<Option<StringBytes<'_>>, AllocError>
    ensures { IfOk result (λ bytes. (depth : ℕ)
        → option_map meant bytes ≡ string_of (found (value depth text.now))) }
{
    match read_string(alloc, text)? {
        Some((bytes, _rest)) => Ok(Some(bytes)),
        None => Ok(None),
    }
}
