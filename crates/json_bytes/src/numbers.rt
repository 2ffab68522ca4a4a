//! Numbers: their text, and what they are worth.
ghost use Rattle.std.specs.Prelude.{◌≡◌, ℕ, ◌+◌, ◌*◌, ◌^◌, ◌<◌, ◌≤◌, ◌++◌, IfSome, List, MatchOption, None, Some, drop, false, length, min, take, true};
ghost use Rattle.std.specs.Char.{is_ascii_digit};
ghost use Rattle.std.specs.List.{AllPass, prefix_len};
ghost use Rattle.std.specs.Option.{option_and_then, option_map};
ghost use Rattle.std.specs.Str.Parse.{digits_value, digits_value_after};
ghost use Rattle.json_bytes.specs.Arrays.{byte_at, byte_of};
ghost use Rattle.json_bytes.specs.Marks.{begins};
ghost use Rattle.json_bytes.specs.Numbers.{IsCounted, decimal_at, digits_len, digits_of, exponent_of, fraction_of, greatest, lowers, number_at, past_digits, past_exponent, past_fraction, past_minus, past_sign, plain_digits, raises, scaled, whole_len};
ghost use Rattle.json_bytes.specs.Shown.{IsOfDigits, IsPlain, kept_digits, kept_zeros, shown};
ghost use Rattle.json_bytes.specs.Values.{as_part, behind, found, number_of, value};

use crate::marks::begins;

/// The greatest value that is told.
const GREATEST: u64 = 1_000_000_000_000_000_000;

/// A number by its text: the sign, the digits before and behind the point, the sign of the exponent and its digits.
#[derive(Clone, Copy)]
struct Parts<'a> {
    negative: bool,
    whole: &'a [u8],
    fraction: &'a [u8],
    falls: bool,
    exponent: &'a [u8],
}

/// A number of digits alone: where it stands in a text, what its digits write, and how many they are; one above 10^18
/// counts as 10^18.
#[derive(Clone, Copy)]
pub struct PlainNumber<'a> {
    pub place: &'a [u8],
    pub count: u64,
    pub len: usize,
    ghost plain: { IsPlain place.now count len },
}

/// The number that the digits at the front write, and how many they are; one above 10^18 counts as 10^18.
#[inline]
pub fn count_digits(text: &[u8]) -> (u64, usize)
    ensures count { result.0 ≡ min greatest (digits_value 10 (digits_of text.now)) }
    ensures len { result.1 ≡ digits_len text.now }
    ensures within { result.1 ≤ length text.now }
{
    let mut count: u64 = 0;
    let mut len = 0;
    for b in text {
        if !b.is_ascii_digit() {
            return (count, len);
        }
        count = (count * 10 + u64::from(*b - b'0')).min(GREATEST);
        len += 1;
    }
    (count, len)
}

/// The digits at the front, and what stands behind them.
fn split_digits(text: &[u8]) -> (&[u8], &[u8])
    ensures digits { result.0.now ≡ digits_of text.now }
    ensures rest { result.1.now ≡ past_digits text.now }
    ensures all { AllPass is_ascii_digit result.0.now }
{
    text.split_at(count_digits(text).1)
}

/// A text without the minus at its front.
fn past_minus(text: &[u8]) -> &[u8]
    ensures { result.now ≡ past_minus text.now }
{
    if begins(b'-', text) { &text[1..] } else { text }
}

/// A text without the sign at its front.
fn past_sign(text: &[u8]) -> &[u8]
    ensures { result.now ≡ past_sign text.now }
{
    if begins(b'-', text) || begins(b'+', text) {
        &text[1..]
    } else {
        text
    }
}

/// The number that the whole digits at the front write, and how many they are; one above 10^18 counts as 10^18.
#[inline]
fn count_whole(text: &[u8]) -> (u64, usize)
    ensures count { result.0 ≡ min greatest (digits_value 10 (take (whole_len text.now) text.now)) }
    ensures len { result.1 ≡ whole_len text.now }
    ensures all { AllPass is_ascii_digit (take result.1 text.now) }
    ensures within { result.1 ≤ length text.now }
{
    if begins(b'0', text) {
        (0, 1)
    } else {
        count_digits(text)
    }
}

/// The whole digits at the front, and what stands behind them.
fn split_whole(text: &[u8]) -> (&[u8], &[u8])
    ensures digits { result.0.now ≡ take (whole_len text.now) text.now }
    ensures rest { result.1.now ≡ drop (whole_len text.now) text.now }
    ensures all { AllPass is_ascii_digit result.0.now }
{
    text.split_at(count_whole(text).1)
}

/// The digits of a fraction at the front, and what stands behind it.
fn split_fraction(text: &[u8]) -> (&[u8], &[u8])
    ensures digits { result.0.now ≡ fraction_of text.now }
    ensures rest { result.1.now ≡ past_fraction text.now }
    ensures all { AllPass is_ascii_digit result.0.now }
{
    if !begins(b'.', text) {
        return (&text[..0], text);
    }
    let (digits, rest) = split_digits(&text[1..]);
    if digits.is_empty() {
        (digits, text)
    } else {
        (digits, rest)
    }
}

/// The digits of an exponent at the front, and what stands behind it.
fn split_exponent(text: &[u8]) -> (&[u8], &[u8])
    ensures digits { result.0.now ≡ exponent_of text.now }
    ensures rest { result.1.now ≡ past_exponent text.now }
    ensures all { AllPass is_ascii_digit result.0.now }
{
    if !begins(b'e', text) && !begins(b'E', text) {
        return (&text[..0], text);
    }
    let (digits, rest) = split_digits(past_sign(&text[1..]));
    if digits.is_empty() {
        (digits, text)
    } else {
        (digits, rest)
    }
}

/// The number at the front, and what stands behind it.
fn number_at(text: &[u8]) -> Option<(Parts<'_>, &[u8])>
    ensures parts { option_map (λ r. (shown r.0, r.1.now)) result ≡ number_at text.now }
    ensures digits { IfSome result (λ r. IsOfDigits r.0) }
    ensures some { IfSome result (λ r. 0 < length r.0.whole.now) }
{
    let (whole, rest) = split_whole(past_minus(text));
    if whole.is_empty() {
        return None;
    }
    let (fraction, at) = split_fraction(rest);
    let (exponent, rest) = split_exponent(at);
    let number = Parts {
        negative: begins(b'-', text),
        whole,
        fraction,
        falls: !at.is_empty() && begins(b'-', &at[1..]),
        exponent,
    };
    Some((number, rest))
}

/// The number that digits write behind one, or the greatest one where it is greater.
fn capped(before: u64, digits: &[u8]) -> u64
    requires digits { AllPass is_ascii_digit digits.now }
    requires small { before ≤ greatest }
    ensures { result ≡ min greatest (digits_value_after 10 before digits.now) }
{
    let mut n = before;
    for digit in digits {
        n = (n * 10 + u64::from(*digit - b'0')).min(GREATEST);
    }
    n
}

/// Ten times a number, so many times over, or the greatest one where that is greater.
fn shifted(before: u64, zeros: u32) -> u64
    requires { before ≤ greatest }
    ensures { result ≡ min greatest (before * 10 ^ zeros) }
{
    let mut n = before;
    for _ in 0..zeros {
        n = (n * 10).min(GREATEST);
    }
    n
}

/// The digits of an exponent, as a number; one from 2^100 on counts as that, which is more than a text has bytes.
fn exponent(digits: &[u8]) -> u128
    requires { AllPass is_ascii_digit digits.now }
    ensures { result ≡ min (2 ^ 100) (digits_value 10 digits.now) }
{
    let mut n: u128 = 0;
    for digit in digits {
        n = (n * 10 + u128::from(*digit - b'0')).min(1 << 100);
    }
    n
}

/// The exponent where it raises, or 2^100 where that is less.
fn raises(number: &Parts) -> u128
    requires { IsOfDigits number.now }
    ensures { result ≡ min (2 ^ 100) (raises (shown number.now)) }
{
    if number.falls {
        0
    } else {
        exponent(number.exponent)
    }
}

/// The exponent where it lowers, or 2^100 where that is less.
fn lowers(number: &Parts) -> u128
    requires { IsOfDigits number.now }
    ensures { result ≡ min (2 ^ 100) (lowers (shown number.now)) }
{
    if number.falls {
        exponent(number.exponent)
    } else {
        0
    }
}

/// How many of the digits before and behind the point count, and how many zeros stand behind them, at most 18.
fn kept(number: &Parts, decimals: u32) -> (usize, u32)
    requires { IsOfDigits number.now }
    ensures digits { result.0 ≡ kept_digits decimals (shown number.now) }
    ensures zeros { result.1 ≡ min 18 (kept_zeros decimals (shown number.now)) }
{
    let up = u128::from(decimals) + raises(number);
    let down = number.fraction.len() as u128 + lowers(number);
    let digits = number.whole.len() as u128 + number.fraction.len() as u128;
    let kept = (digits + up).saturating_sub(down).min(digits);
    (kept as usize, up.saturating_sub(down).min(18) as u32)
}

/// What the number is worth, times a power of ten, cut to a whole number.
fn scaled(number: &Parts, decimals: u32) -> u64
    requires { IsOfDigits number.now }
    ensures { result ≡ scaled decimals (shown number.now) }
{
    if number.negative {
        return 0;
    }
    let (kept, zeros) = kept(number, decimals);
    let first = kept.min(number.whole.len());
    let before = capped(0, &number.whole[..first]);
    shifted(capped(before, &number.fraction[..kept - first]), zeros)
}

/// The number at the front, times a power of ten, cut to a whole number: at least 0, at most 10^18; and what stands
/// behind it.
pub fn read_number(text: &[u8], decimals: u32) -> Option<(u64, &[u8])>
    ensures { option_map (λ r. (r.0, r.1.now)) result
        ≡ as_part (scaled decimals) (number_at text.now) }
{
    let (number, rest) = number_at(text)?;
    Some((scaled(&number, decimals), rest))
}

/// The digits of a number whose text is digits alone.
fn whole_digits<'a>(number: &Parts<'a>) -> Option<&'a [u8]>
    requires { IsOfDigits number.now }
    ensures digits { option_map (λ r. r.now) result ≡ plain_digits (shown number.now) }
    ensures all { IfSome result (λ digits. AllPass is_ascii_digit digits.now) }
    ensures whole { IfSome result (λ digits. digits.now ≡ number.now.whole.now) }
{
    if !number.negative && number.fraction.is_empty() && number.exponent.is_empty() {
        Some(number.whole)
    } else {
        None
    }
}

/// The byte that a number of digits alone is.
fn byte_of(number: &Parts) -> Option<u8>
    requires { IsOfDigits number.now }
    ensures { result ≡ byte_of (Some (shown number.now)) }
{
    let value = capped(0, whole_digits(number)?);
    if value <= 255 {
        Some(value as u8)
    } else {
        None
    }
}

/// Whether a number whose whole digits this stands behind ends with them.
#[inline]
fn is_end(rest: &[u8]) -> bool
    ensures { result ≡ true → (begins 46 rest.now ≡ false) × (begins 101 rest.now ≡ false)
        × (begins 69 rest.now ≡ false) }
{
    !(begins(b'.', rest) || begins(b'e', rest) || begins(b'E', rest))
}

impl<'a> PlainNumber<'a> {
    /// Its digits.
    #[inline]
    pub fn digits(self) -> &'a [u8]
        ensures { result.now ≡ take self.entry.len self.entry.place.now }
    {
        self.place.split_at(self.len).0
    }

    /// What stands behind it.
    #[inline]
    pub fn behind(self) -> &'a [u8]
        ensures { result.now ≡ drop self.entry.len self.entry.place.now }
    {
        self.place.split_at(self.len).1
    }
}

/// The number at the front, where its text is digits alone.
#[inline]
pub fn plain_at(text: &[u8]) -> Option<PlainNumber<'_>>
    ensures { IfSome result (λ number. number.place.now ≡ text.now) }
{
    let (count, len) = count_whole(text);
    if len > 0 && is_end(text.split_at(len).1) {
        Some(PlainNumber {
            place: text,
            count,
            len,
        })
    } else {
        None
    }
}

/// What stands behind the number at the front.
#[inline]
pub fn number_end(text: &[u8]) -> Option<&[u8]>
    ensures { option_map (λ r. r.now) result ≡ behind (number_at text.now) }
{
    if let Some(number) = plain_at(text) {
        return Some(number.behind());
    }
    Some(number_at(text)?.1)
}

/// The digits of the number that stands at the front as a value, where its text is digits alone.
#[tactic(auto, using(crate::proofs::ScalarLemmas::value_read))]
pub fn plain_digits(text: &[u8]) -> Option<&[u8]>
    ensures digits { (depth : ℕ) → option_map (λ r. r.now) result
        ≡ option_and_then plain_digits (number_of (found (value depth text.now))) }
    ensures all { IfSome result (λ digits. AllPass is_ascii_digit digits.now) }
    ensures some { IfSome result (λ digits. 0 < length digits.now) }
{
    if let Some(number) = plain_at(text) {
        return Some(number.digits());
    }
    let (number, _rest) = number_at(text)?;
    whole_digits(&number)
}

/// What the digits write of the number that stands at the front as a value, where its text is digits alone, and how many
/// they are; a number above 10^18 counts as 10^18.
pub fn plain_count(text: &[u8]) -> Option<(u64, usize)>
    ensures { MatchOption result
        ((depth : ℕ) → option_and_then plain_digits (number_of (found (value depth text.now))) ≡ None)
        (λ r. (digits : List ℕ) × IsCounted digits r.0 r.1 × ((depth : ℕ)
        → option_and_then plain_digits (number_of (found (value depth text.now))) ≡ Some digits)) }
{
    if let Some(number) = plain_at(text) {
        return Some((number.count, number.len));
    }
    let digits = plain_digits(text)?;
    Some((capped(0, digits), digits.len()))
}

/// The byte at the front, as a number of digits alone, and what stands behind it.
pub fn read_byte(text: &[u8]) -> Option<(u8, &[u8])>
    ensures { option_map (λ r. (r.0, r.1.now)) result ≡ byte_at text.now }
{
    let (number, rest) = number_at(text)?;
    Some((byte_of(&number)?, rest))
}

/// What the number at the front is worth, times a power of ten, cut to a whole number: at least 0, at most 10^18.
#[tactic(auto, using(crate::proofs::ScalarLemmas::value_read))]
pub fn scaled_number(text: &[u8], decimals: u32) -> Option<u64>
    ensures { (depth : ℕ) → result
        ≡ option_map (scaled decimals) (number_of (found (value depth text.now))) }
{
    let (number, _) = number_at(text)?;
    Some(scaled(&number, decimals))
}
