//! Runs of bytes that stand by themselves in a string, 16 bytes at a time.
ghost use Rattle.std.specs.Prelude.{◌≡◌, ◌+◌, ◌≤◌, length, drop, map};
ghost use Rattle.std.specs.List.{prefix_len};
ghost use Rattle.std.specs.Simd.Lanes.{mask_l};
ghost use Rattle.json_bytes.specs.Strings.{is_other, is_plain};

use std::simd::prelude::*;

const LANES: usize = 16;

/// Whether a byte stands by itself, wherever it comes in a string's text.
#[inline]
pub fn is_plain(b: u8) -> bool
    ensures { result ≡ is_plain b }
{
    b >= b' ' && b != b'"' && b != b'\\'
}

// A bit for each lane that is no such byte.
#[inline]
#[tactic(auto, using(crate::proofs::PlainLemmas::others_mask))]
fn others(lanes: u8x16) -> u64
    ensures { result ≡ mask_l (map is_other lanes) }
{
    let controls = lanes.simd_lt(u8x16::splat(b' '));
    let quotes = lanes.simd_eq(u8x16::splat(b'"'));
    let backslashes = lanes.simd_eq(u8x16::splat(b'\\'));
    (controls | quotes | backslashes).to_bitmask()
}

/// How many lanes come before the first that is no such byte: all of them where there is none.
#[inline]
#[tactic(auto, using(crate::proofs::PlainLemmas::lanes_through, crate::proofs::PlainLemmas::lanes_stop, crate::proofs::PlainLemmas::lanes_bound))]
pub fn plain_lanes(lanes: u8x16) -> usize
    ensures plain { result ≡ prefix_len is_plain lanes }
    ensures within { result ≤ 16 }
{
    let found = others(lanes);
    if found == 0 {
        return LANES;
    }
    found.trailing_zeros() as usize
}

// The run from `from` on, a byte at a time.
#[inline]
fn run_end_slowly(bytes: &[u8], from: usize) -> usize
    requires { from ≤ length bytes.now }
    ensures { result ≡ from + prefix_len is_plain (drop from bytes.now) }
{
    let mut end = from;
    while end < bytes.len() && is_plain(bytes[end]) {
        end += 1;
    }
    end
}

/// How many of them a text begins with.
#[inline]
#[tactic(auto, using(crate::proofs::PlainLemmas::run_bound, crate::proofs::PlainLemmas::run_through))]
pub fn plain_len(text: &[u8]) -> usize
    ensures plain { result ≡ prefix_len is_plain text.now }
    ensures within { result ≤ length text.now }
{
    let mut end = 0;
    while text.len() - end >= LANES {
        let found = others(u8x16::from_slice(&text[end..]));
        if found != 0 {
            return end + found.trailing_zeros() as usize;
        }
        end += LANES;
    }
    run_end_slowly(text, end)
}
