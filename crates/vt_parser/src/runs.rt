//! Runs of graphic characters, 16 bytes at a time.
ghost use Rattle.std.specs.Prelude.{◌≡◌, ◌+◌, ◌≤◌, length, drop, map};
ghost use Rattle.std.specs.List.{prefix_len};
ghost use Rattle.std.specs.Simd.Lanes.{mask_l};
ghost use Rattle.vt_parser.specs.Syntax.{is_graphic};
ghost use Rattle.vt_parser.specs.Ahead.{is_other};

use crate::syntax::{GRAPHICS, SPACE, is_graphic};
use std::simd::prelude::*;

const LANES: usize = 16;

// A bit for each lane that is no graphic character. Less a space, the bytes below it wrap round to the top.
#[inline]
#[tactic(auto, using(crate::proofs::Lanes::others_mask))]
fn others(lanes: u8x16) -> u64
    ensures { result ≡ mask_l (map is_other lanes) }
{
    (lanes - u8x16::splat(SPACE))
        .simd_ge(u8x16::splat(GRAPHICS))
        .to_bitmask()
}

// The run from `from` on, a byte at a time.
#[inline]
fn run_end_slowly(bytes: &[u8], from: usize) -> usize
    requires { from ≤ length bytes.now }
    ensures { result ≡ from + prefix_len is_graphic (drop from bytes.now) }
{
    let mut end = from;
    while end < bytes.len() && is_graphic(bytes[end]) {
        end += 1;
    }
    end
}

/// The length of the longest front of graphic characters, 32 to 126.
#[tactic(auto, using(crate::proofs::Lanes::run_bound, crate::proofs::Lanes::run_through))]
pub fn printable_run(bytes: &[u8]) -> usize
    ensures value { result ≡ prefix_len is_graphic bytes.now }
    ensures within { result ≤ length bytes.now }
{
    let mut end = 0;
    while bytes.len() - end >= LANES {
        let found = others(u8x16::from_slice(&bytes[end..]));
        if found != 0 {
            return end + found.trailing_zeros() as usize;
        }
        end += LANES;
    }
    run_end_slowly(bytes, end)
}
