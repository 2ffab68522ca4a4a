//! Values: where they end, and what stands in them.
ghost use Rattle.std.specs.Prelude.{◌≡◌, ◌+◌, ℕ, List, None, Some, IfOk, IfSome, MatchOption, is_some, true};
ghost use Rattle.std.specs.Char.{is_ascii_digit};
ghost use Rattle.std.specs.List.{AllPass};
ghost use Rattle.std.specs.Option.{option_and_then, option_map};
ghost use Rattle.json_bytes.specs.Listed.{valued};
ghost use Rattle.json_bytes.specs.Numbers.{IsCounted, plain_digits};
ghost use Rattle.json_bytes.specs.Strings.{meant};
ghost use Rattle.json_bytes.specs.Values.{array_at, behind, found, json_of, member_of, nested_at, number_of, object_at, string_of, triple_of, tripled, value, word_at};

use crate::marks::{begins, past_mark, past_space};
use crate::numbers::{PlainNumber, number_end, plain_at, plain_count, plain_digits};
use crate::strings::{StringBytes, read_string, string_end, string_in};
use std::alloc::{AllocError, Global};

/// How deep arrays and objects may be, the outermost one counted.
pub const DEEPEST: u32 = 64;

/// What stands behind `true`, `false` or `null` at the front.
fn word_end(text: &[u8]) -> Option<&[u8]>
    ensures { option_map (λ r. r.now) result ≡ behind (word_at text.now) }
{
    if text.starts_with(b"true") || text.starts_with(b"null") {
        Some(&text[4..])
    } else if text.starts_with(b"false") {
        Some(&text[5..])
    } else {
        None
    }
}

/// What stands behind the value at the front, which has arrays and objects at most so deep.
#[cycle(values)]
pub fn value_end(text: &[u8], depth: u32) -> Option<&[u8]>
    ensures { option_map (λ r. r.now) result ≡ behind (value depth text.now) }
{
    if begins(b'"', text) {
        return string_end(text);
    }
    if let Some(rest) = number_end(text) {
        return Some(rest);
    }
    if depth == 0 {
        return word_end(text);
    }
    nested_end(text, depth - 1)
}

/// What stands behind the array or the object at the front, whose values have such at most so deep, or behind a word.
#[cycle(values)]
fn nested_end(text: &[u8], depth: u32) -> Option<&[u8]>
    ensures { option_map (λ r. r.now) result ≡ behind (nested_at (value depth) text.now) }
{
    if begins(b'[', text) {
        array_end(text, depth)
    } else if begins(b'{', text) {
        object_end(text, depth)
    } else {
        word_end(text)
    }
}

/// What stands behind the array at the front, whose values have arrays and objects at most so deep.
#[cycle(values)]
fn array_end(text: &[u8], depth: u32) -> Option<&[u8]>
    ensures { option_map (λ r. r.now) result ≡ behind (array_at (value depth) text.now) }
{
    let inner = past_mark(b'[', text)?;
    if let Some(rest) = past_mark(b']', inner) {
        return Some(rest);
    }
    let mut at = inner;
    for _ in 0..inner.len() {
        let rest = value_end(at, depth)?;
        if let Some(rest) = past_mark(b']', rest) {
            return Some(rest);
        }
        at = past_mark(b',', rest)?;
    }
    None
}

/// What stands behind the object at the front, whose values have arrays and objects at most so deep.
#[cycle(values)]
fn object_end(text: &[u8], depth: u32) -> Option<&[u8]>
    ensures { option_map (λ r. r.now) result ≡ behind (object_at (value depth) text.now) }
{
    let inner = past_mark(b'{', text)?;
    if let Some(rest) = past_mark(b'}', inner) {
        return Some(rest);
    }
    let mut at = inner;
    for _ in 0..inner.len() {
        let value = past_mark(b':', string_end(at)?)?;
        let rest = value_end(value, depth)?;
        if let Some(rest) = past_mark(b'}', rest) {
            return Some(rest);
        }
        at = past_mark(b',', rest)?;
    }
    None
}

/// A value that was read: a string's bytes, a number of digits alone, or where any other stands in the text.
#[derive(Drop)]
pub enum ReadValue<'a> {
    Text(StringBytes<'a>),
    Plain(PlainNumber<'a>),
    Other(&'a [u8]),
}

impl<'a> ReadValue<'a> {
    /// The bytes that it means as a string, which stand in the text or were written.
    #[inline]
    pub fn into_string(self, alloc: Global) -> Result<Option<StringBytes<'a>>, AllocError>
        ensures { IfOk result (λ bytes. (depth : ℕ)
            → option_map meant bytes ≡ string_of (Some (valued depth self.entry))) }
    {
        match self {
            ReadValue::Text(bytes) => Ok(Some(bytes)),
            ReadValue::Plain(_) => Ok(None),
            ReadValue::Other(place) => string_in(alloc, place),
        }
    }
}

impl ReadValue<'_> {
    /// The bytes that it means as a string, which it lends.
    pub fn text(&self, alloc: Global) -> Result<Option<StringBytes<'_>>, AllocError>
        ensures { IfOk result (λ bytes. (depth : ℕ)
            → option_map meant bytes ≡ string_of (Some (valued depth self.now))) }
    {
        match self {
            ReadValue::Text(bytes) => Ok(Some(StringBytes::Standing(bytes.as_slice()))),
            ReadValue::Plain(_) => Ok(None),
            ReadValue::Other(place) => string_in(alloc, place),
        }
    }

    /// The bytes that it means as a string, which it hands over.
    pub fn into_text(self, alloc: Global) -> Result<Option<Vec<u8>>, AllocError>
        ensures { IfOk result (λ bytes. (depth : ℕ)
            → option_map (λ b. b.items) bytes ≡ string_of (Some (valued depth self.entry))) }
    {
        match self {
            ReadValue::Text(bytes) => Ok(Some(bytes.into_vec(alloc)?)),
            ReadValue::Plain(_) => Ok(None),
            ReadValue::Other(place) => match string_in(alloc, place)? {
                Some(bytes) => Ok(Some(bytes.into_vec(alloc)?)),
                None => Ok(None),
            },
        }
    }

    /// The digits of the number that it is, where its text is digits alone.
    pub fn plain_digits(&self) -> Option<&[u8]>
        ensures digits { (depth : ℕ) → option_map (λ r. r.now) result
            ≡ option_and_then plain_digits (number_of (Some (valued depth self.now))) }
        ensures all { IfSome result (λ digits. AllPass is_ascii_digit digits.now) }
    {
        match self {
            ReadValue::Text(_) => None,
            ReadValue::Plain(number) => Some(number.digits()),
            ReadValue::Other(place) => plain_digits(place),
        }
    }

    /// What these digits write, and how many they are; a number above 10^18 counts as 10^18.
    #[inline(always)]
    pub fn plain_count(&self) -> Option<(u64, usize)>
        ensures { MatchOption result
            ((depth : ℕ) → option_and_then plain_digits (number_of (Some (valued depth self.now))) ≡ None)
            (λ r. (digits : List ℕ) × IsCounted digits r.0 r.1 × ((depth : ℕ)
            → option_and_then plain_digits (number_of (Some (valued depth self.now))) ≡ Some digits)) }
    {
        match self {
            ReadValue::Text(_) => None,
            ReadValue::Plain(number) => Some((number.count, number.len)),
            ReadValue::Other(place) => plain_count(place),
        }
    }
}

/// The value at the front, which has arrays and objects at most so deep, and what stands behind it.
#[inline(always)]
pub fn read_value(
    alloc: Global,
    text: &[u8],
    depth: u32,
) -> Result<Option<(ReadValue<'_>, &[u8])>, AllocError>
    ensures { IfOk result (λ read. option_map (λ r. (valued depth r.0, r.1.now)) read
        ≡ value depth text.now) }
{
    if begins(b'"', text) {
        return match read_string(alloc, text)? {
            Some((bytes, rest)) => Ok(Some((ReadValue::Text(bytes), rest))),
            None => Ok(None),
        };
    }
    if let Some(number) = plain_at(text) {
        return Ok(Some((ReadValue::Plain(number), number.behind())));
    }
    match value_end(text, depth) {
        Some(rest) => Ok(Some((ReadValue::Other(text), rest))),
        None => Ok(None),
    }
}

/// The value that a whole text is: where it stands in the text.
pub fn whole_value(text: &[u8]) -> Option<&[u8]>
    ensures { json_of text.now ≡ option_and_then (λ at. found (value 64 at.now)) result }
{
    let value = past_space(text);
    let rest = value_end(value, DEEPEST)?;
    if past_space(rest).is_empty() {
        Some(value)
    } else {
        None
    }
}

/// The value of the last member of this name in the object at the front, whose values have arrays and objects at most
/// so deep: where it stands in the text. None where no such object stands there.
pub fn member<'a>(
    alloc: Global,
    text: &'a [u8],
    name: &[u8],
    depth: u32,
) -> Result<Option<&'a [u8]>, AllocError>
    ensures { IfOk result (λ place. member_of name.now (found (value (depth + 1) text.now))
        ≡ option_and_then (λ at. found (value depth at.now)) place) }
{
    if !begins(b'{', text) {
        return Ok(None);
    }
    let Some(inner) = past_mark(b'{', text) else {
        return Ok(None);
    };
    if let Some(_end) = past_mark(b'}', inner) {
        return Ok(None);
    }
    let mut place = None;
    let mut at = inner;
    for _ in 0..inner.len() {
        let Some((other, rest)) = read_string(alloc, at)? else {
            return Ok(None);
        };
        let Some(value) = past_mark(b':', rest) else {
            return Ok(None);
        };
        let Some(rest) = value_end(value, depth) else {
            return Ok(None);
        };
        if other.as_slice() == name {
            place = Some(value);
        }
        if let Some(_end) = past_mark(b'}', rest) {
            return Ok(place);
        }
        let Some(next) = past_mark(b',', rest) else {
            return Ok(None);
        };
        at = next;
    }
    Ok(None)
}

/// The three values of a text that is an array of exactly three: where the first stands in the text, and the others.
pub fn whole_triple(
    alloc: Global,
    text: &[u8],
) -> Result<Option<(&[u8], ReadValue<'_>, ReadValue<'_>)>, AllocError>
    ensures { IfOk result (λ read. MatchOption read (triple_of (json_of text.now) ≡ None)
        (λ at. (triple_of (json_of text.now) ≡ tripled (found (value 63 at.0.now))
        (Some (valued 63 at.1)) (Some (valued 63 at.2)))
        × (is_some (triple_of (json_of text.now)) ≡ true))) }
{
    let array = past_space(text);
    if !begins(b'[', array) {
        return Ok(None);
    }
    let Some(first) = past_mark(b'[', array) else {
        return Ok(None);
    };
    if let Some(_end) = past_mark(b']', first) {
        return Ok(None);
    }
    if first.len() < 3 {
        return Ok(None);
    }
    let Some(behind_first) = value_end(first, DEEPEST - 1) else {
        return Ok(None);
    };
    let Some(second) = past_mark(b',', behind_first) else {
        return Ok(None);
    };
    let Some((middle, behind_second)) = read_value(alloc, second, DEEPEST - 1)? else {
        return Ok(None);
    };
    let Some(third) = past_mark(b',', behind_second) else {
        return Ok(None);
    };
    let Some((last, behind_third)) = read_value(alloc, third, DEEPEST - 1)? else {
        return Ok(None);
    };
    let Some(rest) = past_mark(b']', behind_third) else {
        return Ok(None);
    };
    if past_space(rest).is_empty() {
        Ok(Some((first, middle, last)))
    } else {
        Ok(None)
    }
}
