//! The next line that was touched, looked for in blocks.

ghost use Rattle.std.specs.Prelude.{◌≡◌, ◌+◌, ◌<◌, ◌≤◌, length, map};
ghost use Rattle.std.specs.Simd.Lanes.{mask_l};
ghost use Rattle.sheet.specs.Marked.{IsNext, marks_from, marks_of};
ghost use Rattle.sheet.specs.Numbers.{bit};

use crate::limits::MOST_LINES;
use std::simd::prelude::*;

// How many marks are looked at at once.
const BLOCK: usize = 16;

/// For each line of a block, the first of this number, whether it was touched.
#[inline(always)]
fn block_marks(origins: &[u16], first: u16) -> [bool; BLOCK]
    requires block { length origins.now ≡ BLOCK }
    requires high { first ≤ MOST_LINES }
    ensures { result ≡ marks_from first origins.now }
{
    let mut marks = [false; BLOCK];
    for i in 0..BLOCK {
        marks[i] = origins[i] != first + i as u16;
    }
    marks
}

/// 1 for each true mark of a block, and 0 for the others.
#[inline(always)]
fn numbers_of(marks: &[bool]) -> [u8; BLOCK]
    requires { length marks.now ≡ BLOCK }
    ensures { result ≡ map bit marks.now }
{
    let mut numbers = [0; BLOCK];
    for i in 0..BLOCK {
        numbers[i] = marks[i] as u8;
    }
    numbers
}

/// A bit for each mark of a block, the lowest for the first.
#[inline(always)]
fn bits_of(marks: &[bool]) -> u64
    requires { length marks.now ≡ BLOCK }
    ensures { result ≡ mask_l marks.now }
{
    u8x16::from_array(numbers_of(marks))
        .simd_ne(u8x16::splat(0))
        .to_bitmask()
}

/// The next true one of a block.
#[inline(always)]
fn next_of_block(marks: &[bool], from: usize) -> usize
    requires block { length marks.now ≡ BLOCK }
    requires within { from ≤ BLOCK }
    ensures { IsNext marks.now from result }
{
    let bits = bits_of(marks) >> from;
    if bits == 0 {
        BLOCK
    } else {
        from + bits.trailing_zeros() as usize
    }
}

/// The next line that was touched, a line at a time.
fn next_slowly(origins: &[u16], from: usize) -> usize
    requires few { length origins.now ≤ MOST_LINES }
    requires within { from ≤ length origins.now }
    ensures { IsNext (marks_of origins.now) from result }
{
    for at in from..origins.len() {
        if origins[at] != at as u16 + 1 {
            return at;
        }
    }
    origins.len()
}

/// The next line of less than a block that was touched, as one of the block that ends with it.
#[inline(always)]
fn next_of_rest(origins: &[u16], from: usize) -> usize
    requires few { length origins.now ≤ MOST_LINES }
    requires within { from ≤ length origins.now }
    requires rest { length origins.now < from + BLOCK }
    ensures { IsNext (marks_of origins.now) from result }
{
    if origins.len() < BLOCK {
        next_slowly(origins, from)
    } else {
        let start = origins.len() - BLOCK;
        let marks = block_marks(&origins[start..start + BLOCK], start as u16 + 1);
        start + next_of_block(&marks, from - start)
    }
}

/// The first line from one on that was touched, from 0, or how many there are where none was.
pub(crate) fn next_touched(origins: &[u16], from: usize) -> usize
    requires few { length origins.now ≤ MOST_LINES }
    requires within { from ≤ length origins.now }
    ensures { IsNext (marks_of origins.now) from result }
{
    let mut at = from;
    while origins.len() - at >= BLOCK {
        let marks = block_marks(&origins[at..at + BLOCK], at as u16 + 1);
        let bits = bits_of(&marks);
        if bits != 0 {
            return at + bits.trailing_zeros() as usize;
        }
        at += BLOCK;
    }
    next_of_rest(origins, at)
}
