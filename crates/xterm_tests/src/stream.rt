//! The same bytes in pieces of several lengths, a copy that goes on, and long inputs.
ghost use Rattle.std.specs.Prelude.{◌<◌};

use crate::starts::{SET, WRAPPING};
use crate::told::{Left, are_same, feed_reset, reset_as, told};
use std::alloc::Global;
use std::process::Abort;
use std::test::Fail;

// The number after another of a linear congruence.
fn next_number(x: u64) -> u64
    ensures { result < 2_147_483_648 }
{
    (1_103_515_245 * (x % 2_147_483_648) + 12_345) % 2_147_483_648
}

// Pseudo-random bytes.
fn noise(alloc: Global, len: usize) -> Result<Vec<u8>, Fail> {
    let mut bytes = Vec::with_capacity(alloc, len)?;
    let mut x: u64 = 1;
    for _ in 0..len {
        x = next_number(x);
        bytes.push((x / 65_536 % 256) as u8)?;
    }
    Ok(bytes)
}

// What sequences and characters are made of, whole and in parts, with what may come inside them.
const FRAGMENTS: [&[u8]; 64] = [
    b"\x1b",
    b"\x1b[",
    b"\x1b[",
    b"\x1b[",
    b"\x1b[",
    b"\x1b[?",
    b"\x1b[?",
    b"\x1b#",
    b"\x1b(",
    b"\x1b)",
    b"\x1b]",
    b"\x1bP",
    b"\x1bk",
    b"\x1b\\",
    b"\x1b7",
    b"\x1b8",
    b"\x1bZ",
    b"\x1bM",
    b"0",
    b"1",
    b"2",
    b"3",
    b"4",
    b"5",
    b"6",
    b"7",
    b"12",
    b"20",
    b"38",
    b"48",
    b"1047",
    b"1049",
    b"99999",
    b";",
    b";",
    b";5;",
    b";2;",
    b":",
    b"1;1;1;1;1;1;1;1;1;1;1;1;1;1;1;1;1;7",
    b"A",
    b"B",
    b"H",
    b"J",
    b"K",
    b"L",
    b"P",
    b"@",
    b"S",
    b"b",
    b"h",
    b"l",
    b"m",
    b"n",
    b"r",
    b"\x08",
    b"\t",
    b"\r\n",
    b"\xe6\x97\xa5",
    b"\xe6\x97",
    b"\xcc\x81",
    b"\xf0\x9f\x98\x80",
    b"\xff\x80\xc3",
    b"\x00\x07\x05\x7f\x18\x1a\x19\x0e\x0f",
    b"The quick brown fox jumps over the lazy dog.",
];

// So many of the fragments, as a congruence picks them.
fn sequences(alloc: Global, seed: u64, count: usize) -> Result<Vec<u8>, Fail> {
    let mut bytes = Vec::new(alloc);
    let mut x = next_number(seed);
    for _ in 0..count {
        x = next_number(x);
        bytes.extend_from_slice(FRAGMENTS[(x / 65_536 % 64) as usize])?;
    }
    Ok(bytes)
}

fn feed_pieces(alloc: Global, bytes: &[u8], len: usize) -> Result<Left, Fail>
    requires { 0 < len }
{
    let mut left = feed_reset(alloc, &[])?;
    for piece in bytes.chunks(len) {
        left.feed(&[piece])?;
    }
    Ok(left)
}

fn see_same(rt: &(impl Abort + AllocGlobal), left: &Left, want: &Left) -> Result<(), Fail> {
    let text = told(rt.alloc(), left)?;
    let want_text = told(rt.alloc(), want)?;
    assert_eq!(rt; text.as_str(), want_text.as_str());
    assert!(rt; are_same(left, want), "told the same: {text}");
    Ok(())
}

// In pieces of any length the bytes leave the same terminal and reports as at once.
fn assert_equal_in_pieces(rt: &(impl Abort + AllocGlobal), bytes: &[u8]) -> Result<(), Fail> {
    let whole = feed_reset(rt.alloc(), &[bytes])?;
    for len in [1, 2, 7, 64, 1_000usize] {
        let parts = feed_pieces(rt.alloc(), bytes, len.max(1))?;
        see_same(rt, &parts, &whole)?;
    }
    Ok(())
}

#[test]
fn noise_in_pieces(rt: HostRuntime) -> Result<(), Fail> {
    let bytes = noise(rt.alloc(), 20_000)?;
    assert_equal_in_pieces(&rt, bytes.as_slice())
}

#[test]
fn sequences_in_pieces(rt: HostRuntime) -> Result<(), Fail> {
    for seed in 0..4 {
        let bytes = sequences(rt.alloc(), seed, 4_000)?;
        assert_equal_in_pieces(&rt, bytes.as_slice())?;
    }
    Ok(())
}

#[test]
fn starts_in_pieces(rt: HostRuntime) -> Result<(), Fail> {
    assert_equal_in_pieces(&rt, SET.as_bytes())?;
    assert_equal_in_pieces(&rt, WRAPPING.as_bytes())
}

// What comes after the start to a terminal, and to one elsewhere that became its copy.
fn copy_goes_on(rt: &(impl Abort + AllocGlobal), start: &[u8], more: &[u8]) -> Result<(), Fail> {
    let mut one = feed_reset(rt.alloc(), &[start])?;
    let mut other = feed_reset(rt.alloc(), &[b"x\x1b[?1049h\x1b7\x1b[1;44my\x1b[3;4"])?;
    other.copy_from(&one.terminal)?;
    one.feed(&[more])?;
    one.reports.cut(0);
    other.feed(&[more])?;
    other.reports.cut(0);
    see_same(rt, &other, &one)
}

// A copy has what is pending, both sheets, both saves and all else, so it goes on as the terminal that it is of.
#[test]
fn a_copy_goes_on_alike(rt: HostRuntime) -> Result<(), Fail> {
    const MORE: &[u8] = b"1mc\xa5d\x1b[?47h\x1b8e\x1b[?47l\x1b8f\x1b[b";
    copy_goes_on(&rt, SET.as_bytes(), MORE)?;
    copy_goes_on(&rt, WRAPPING.as_bytes(), MORE)?;
    copy_goes_on(&rt, b"ab\x1b[7;", MORE)?;
    copy_goes_on(&rt, b"ab\xe6\x97", MORE)?;
    copy_goes_on(&rt, b"ab\x1bktitle", MORE)
}

// Sizes at their ends, and what a full sheet leaves.
const SIZES: &[((u16, u16), &str, &str)] = &[
    (
        (2, 1),
        "日x日日\x1b[9;9r\x1b[6n",
        "1:日 at 1 2 wrap sent E[1;2R",
    ),
    ((2, 2), "ab日\x1b[9;9H\x1b[9@", "1:ab at 2 2"),
    (
        (1000, 500),
        "\x1b[999;1000Hx\x1b[6n",
        "500: {999}x at 500 1000 wrap sent E[500;1000R",
    ),
    ((1000, 1), "\x1b[9999Ix\x1b[9999Z", "1: {999}x at 1 1"),
];

#[test]
fn sizes(rt: HostRuntime) -> Result<(), Fail> {
    for (size, bytes, want) in SIZES {
        let mut left = reset_as(rt.alloc(), *size)?;
        left.feed(&[bytes.as_bytes()])?;
        let text = told(rt.alloc(), &left)?;
        assert_eq!(rt; text.as_str(), *want, "at {size:?}");
    }
    Ok(())
}

#[test]
fn long_inputs(rt: HostRuntime) -> Result<(), Fail> {
    let line = "0123456789日\r\n".as_bytes();
    let mut left = feed_reset(rt.alloc(), &[])?;
    for _ in 0..5_000 {
        left.feed(&[line])?;
    }
    let text = told(rt.alloc(), &left)?;
    assert_eq!(rt;
        text.as_str(),
        "1:0123456789日 2:0123456789日 3:0123456789日 4:0123456789日 5:0123456789日 at 6 1"
    );
    Ok(())
}
