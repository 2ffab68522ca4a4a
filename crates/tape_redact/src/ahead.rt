//! Looks ahead for the places where a text may begin, many at a time.

ghost use Rattle.std.specs.Prelude.{◌≡◌, ◌==◌, ℕ, ◌+◌, ◌-◌, ◌/◌, ◌<◌, ◌≤◌, Bool, false, length, slice_index, take, if◌then◌else◌};
ghost use Rattle.std.specs.Int.{bit_at};
ghost use Rattle.tape_redact.specs.Ahead.{HasLanes, Tells, places_from};
ghost use Rattle.tape_redact.specs.Redacted.{begins_at};

use std::simd::prelude::*;

/// How many places are looked at together.
pub(crate) const PLACES: usize = 64;

/// How many bytes of a text are compared there at most.
pub(crate) const FRONT: usize = 64;

/// At which places from one on, and before another, the front of a text stands: a bit for each.
#[derive(Clone, Copy)]
pub(crate) struct Ahead {
    pub(crate) end: usize,
    pub(crate) bits: u64,
}

impl Ahead {
    /// Of no place.
    pub(crate) fn none() -> Ahead
        ensures { result ≡ record { end = 0; bits = 0 } }
    {
        Ahead { end: 0, bits: 0 }
    }

    /// Looks further ahead, where no place is left from this one on.
    #[inline(always)]
    pub(crate) fn look(&mut self, bytes: &[u8], at: usize, text: &[u8])
        requires here { at < length bytes.now }
        requires high { at ≤ self.old.end }
        requires few { self.old.end ≤ at + PLACES }
        requires within { self.old.end ≤ length bytes.now }
        ensures some { at < self.new.end }
        ensures few { self.new.end ≤ at + PLACES }
        ensures within { self.new.end ≤ length bytes.now }
        ensures tells { (stands : ℕ → Bool) → Tells self.old.bits at self.old.end stands
            → ((k : ℕ) → at ≤ k → begins_at (take FRONT text.now) bytes.now k ≡ stands k)
            → Tells self.new.bits at self.new.end stands }
    {
        if at == self.end {
            self.end = at + places_from(bytes.len() - at, text.len());
            self.bits = look_from(bytes, at, text);
        }
    }

    /// Whether it stands at the first place, which is left then.
    #[inline(always)]
    pub(crate) fn take(&mut self) -> bool
        ensures stands { result ≡ (bit_at self.old.bits 0 == 1) }
        ensures bits { self.new.bits ≡ self.old.bits / 2 }
        ensures end { self.new.end ≡ self.old.end }
    {
        let stands = self.bits % 2 == 1;
        self.bits /= 2;
        stands
    }

    /// Leaves the places from this one on at which it doesn't stand, and says how many.
    #[inline(always)]
    pub(crate) fn pass(&mut self, at: usize) -> usize
        requires high { at ≤ self.old.end }
        requires few { self.old.end < at + PLACES }
        ensures within { at + result ≤ self.old.end }
        ensures none { (stands : ℕ → Bool) → Tells self.old.bits at self.old.end stands
            → (k : ℕ) → at ≤ k → k < at + result → stands k ≡ false }
        ensures tells { (stands : ℕ → Bool) → Tells self.old.bits at self.old.end stands
            → Tells self.new.bits (at + result) self.new.end stands }
        ensures end { self.new.end ≡ self.old.end }
    {
        let gap = (self.bits.trailing_zeros() as usize).min(self.end - at);
        self.bits >>= gap;
        gap
    }
}

/// How many places are looked at, where so many bytes are left.
#[inline(always)]
fn places_from(left: usize, text_len: usize) -> usize
    ensures { result ≡ places_from left text_len }
{
    if left < PLACES + text_len.min(FRONT) {
        1
    } else {
        PLACES
    }
}

/// At which places from one on the front of the text stands.
#[inline(never)]
fn look_from(bytes: &[u8], at: usize, text: &[u8]) -> u64
    requires { at < length bytes.now }
    ensures { Tells result at (at + places_from (length bytes.now - at) (length text.now))
        (begins_at (take FRONT text.now) bytes.now) }
{
    let front = &text[..text.len().min(FRONT)];
    let rest = &bytes[at..];
    if rest.len() < PLACES + front.len() {
        return u64::from(rest.starts_with(front));
    }
    begun_together(rest, front)
}

/// At which of the first 64 places the text begins, a bit for each. All its bytes are compared at each, with no way out
/// before.
fn begun_together(bytes: &[u8], text: &[u8]) -> u64
    requires { PLACES + length text.now ≤ length bytes.now }
    ensures { (k : ℕ) → k < PLACES
        → bit_at result k ≡ (if begins_at text.now bytes.now k then 1 else 0) }
{
    let mut begun = u8x64::splat(1);
    for at in 0..text.len() {
        begun = kept(begun, &bytes[at..], text[at]);
    }
    bits_of(begun)
}

/// What is left of the lanes at which a byte stands; the others are 0.
#[inline(always)]
fn kept(lanes: u8x64, bytes: &[u8], byte: u8) -> u8x64
    requires { PLACES ≤ length bytes.now }
    ensures { HasLanes result
        (λ k. if slice_index bytes.now k == byte then slice_index lanes k else 0) }
{
    u8x64::from_slice(bytes)
        .simd_eq(u8x64::splat(byte))
        .select(lanes, u8x64::splat(0))
}

/// A bit for each lane, set where that is 1.
#[inline(always)]
fn bits_of(lanes: u8x64) -> u64
    ensures { (k : ℕ) → k < PLACES
        → bit_at result k ≡ (if slice_index lanes k == 1 then 1 else 0) }
{
    lanes.simd_eq(u8x64::splat(1)).to_bitmask()
}
