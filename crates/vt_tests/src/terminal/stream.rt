//! The same bytes in pieces of several lengths.
ghost use Rattle.std.specs.Prelude.{◌<◌};

use super::changes::told_screen;
use super::recordings::{MC, NANO, TOUR};
use super::{Left, are_same, feed_reset, feed_reset_as, told};
use std::alloc::Global;
use std::process::Abort;
use std::test::Fail;
use vt_term::{Profile, Reports, Terminal};

fn feed_pieces(alloc: Global, profile: Profile, bytes: &[u8], len: usize) -> Result<Left, Fail>
    requires { 0 < len }
{
    let mut terminal = Terminal::reset_as(profile);
    let mut reports = Reports::new(alloc);
    for piece in bytes.chunks(len) {
        terminal.feed(piece, &mut reports)?;
    }
    Ok(Left { terminal, reports })
}

// The same in pieces of 0 to 199 bytes, as a congruence picks them.
fn feed_random_pieces(
    alloc: Global,
    profile: Profile,
    bytes: &[u8],
    seed: u64,
) -> Result<Left, Fail> {
    let mut terminal = Terminal::reset_as(profile);
    let mut reports = Reports::new(alloc);
    let mut x = next_number(seed);
    let mut rest = bytes;
    for _ in 0..bytes.len() {
        x = next_number(x);
        let len = (x / 65_536 % 200) as usize;
        let (piece, more) = rest.split_at(len.min(rest.len()));
        terminal.feed(piece, &mut reports)?;
        rest = more;
        if rest.is_empty() {
            break;
        }
    }
    Ok(Left { terminal, reports })
}

// The number after another of a linear congruence.
fn next_number(x: u64) -> u64
    ensures { result < 2_147_483_648 }
{
    (1_103_515_245 * (x % 2_147_483_648) + 12_345) % 2_147_483_648
}

// Pseudo-random bytes.
fn noise(alloc: Global, len: usize) -> Result<Vec<u8>, Fail> {
    let mut bytes = Vec::with_capacity(alloc, len)?;
    let mut x: u64 = 1;
    for _ in 0..len {
        x = next_number(x);
        bytes.push((x / 65_536 % 256) as u8)?;
    }
    Ok(bytes)
}

// What sequences of both modes are made of, whole and in parts, with what may come inside them.
const FRAGMENTS: [&[u8]; 64] = [
    b"\x1b",
    b"\x1b[",
    b"\x1b[",
    b"\x1b[",
    b"\x1b[?",
    b"\x1b[?",
    b"\x1b#",
    b"\x1b(",
    b"\x1b)",
    b"\x1bY",
    b"\x1bY",
    b"\x1b]",
    b"\x1bP",
    b"\x1b^",
    b"\x1b\\",
    b"\x1b<",
    b"\x1b[?2l",
    b"\x1b7",
    b"\x1b8",
    b"\x1bZ",
    b"0",
    b"1",
    b"2",
    b"3",
    b"4",
    b"5",
    b"6",
    b"7",
    b"8",
    b"12",
    b"20",
    b"99999",
    b";",
    b";",
    b";;",
    b"?",
    b":",
    b"1;1;1;1;1;1;1;1;1;1;1;1;1;1;1;1;1;7",
    b"A",
    b"B",
    b"C",
    b"D",
    b"H",
    b"J",
    b"K",
    b"L",
    b"M",
    b"P",
    b"c",
    b"g",
    b"h",
    b"l",
    b"m",
    b"n",
    b"q",
    b"r",
    b"x",
    b"\x08",
    b"\t",
    b"\r\n",
    b"\x0e",
    b"\x0f",
    b"\x00\x00\x00\x07\x05\x7f\x80\x18\x1a\x19",
    b"The quick brown fox jumps over the lazy dog, and then over one more line than there is on a screen.",
];

// So many of the fragments, as a congruence picks them.
fn sequences(alloc: Global, seed: u64, count: usize) -> Result<Vec<u8>, Fail> {
    let mut bytes = Vec::new(alloc);
    let mut x = next_number(seed);
    for _ in 0..count {
        x = next_number(x);
        bytes.extend_from_slice(FRAGMENTS[(x / 65_536 % 64) as usize])?;
    }
    Ok(bytes)
}

// Both are told the same, and are the same also in what isn't told.
fn see_same(rt: &(impl Abort + AllocGlobal), left: &Left, want: &Left) -> Result<(), Fail> {
    let text = told(rt.alloc(), left)?;
    let want_text = told(rt.alloc(), want)?;
    assert_eq!(rt; text.as_str(), want_text.as_str());
    assert!(rt; are_same(left, want), "told the same: {text}");
    Ok(())
}

fn all_are_same(
    rt: &(impl Abort + AllocGlobal),
    profile: Profile,
    bytes: &[u8],
    lengths: &[usize],
    whole: &Left,
) -> Result<(), Fail> {
    for len in lengths {
        let parts = feed_pieces(rt.alloc(), profile, bytes, (*len).max(1))?;
        see_same(rt, &parts, whole)?;
    }
    Ok(())
}

// In pieces of any length the bytes leave the same terminal and reports as at once.
fn assert_equal_in_pieces(
    rt: &(impl Abort + AllocGlobal),
    profile: Profile,
    bytes: &[u8],
) -> Result<(), Fail> {
    let whole = feed_reset_as(rt.alloc(), profile, &[bytes])?;
    all_are_same(rt, profile, bytes, &[1, 7, 64, 1_000], &whole)?;
    for seed in 0..3 {
        let parts = feed_random_pieces(rt.alloc(), profile, bytes, seed)?;
        see_same(rt, &parts, &whole)?;
    }
    Ok(())
}

#[test]
fn noise_in_pieces(rt: HostRuntime) -> Result<(), Fail> {
    let bytes = noise(rt.alloc(), 100_000)?;
    assert_equal_in_pieces(&rt, Profile::Vt100, bytes.as_slice())
}

#[test]
fn sequences_in_pieces(rt: HostRuntime) -> Result<(), Fail> {
    for profile in [Profile::Vt100, Profile::Vt102] {
        for seed in 0..4 {
            let bytes = sequences(rt.alloc(), seed, 20_000)?;
            assert_equal_in_pieces(&rt, profile, bytes.as_slice())?;
        }
    }
    Ok(())
}

#[test]
fn recordings_in_pieces(rt: HostRuntime) -> Result<(), Fail> {
    for body in [NANO, MC, TOUR] {
        assert_equal_in_pieces(&rt, Profile::Vt100, body)?;
    }
    Ok(())
}

fn run_is_same(rt: &(impl Abort + AllocGlobal), run: &[u8]) -> Result<(), Fail> {
    let whole = feed_reset(rt.alloc(), run)?;
    let text = told_screen(rt.alloc(), whole.terminal.screen())?;
    assert_eq!(rt; text.as_str(), "1-24:A{80} at 24 80 wrap");
    all_are_same(rt, Profile::Vt100, run, &[1, 31, 32, 33], &whole)
}

#[test]
fn runs_in_pieces(rt: HostRuntime) -> Result<(), Fail> {
    let run = vec![in rt.alloc(); b'A'; 2_000]?;
    run_is_same(&rt, run.as_slice())
}

// A copy over a terminal that was elsewhere, with an empty list.
fn copied(alloc: Global, one: &Terminal) -> Result<Left, Fail> {
    let mut other = feed_reset(alloc, b"x\x1b[6n")?;
    other.terminal.copy_from(one);
    other.reports.cut(0);
    Ok(other)
}

fn go_on(left: &mut Left) -> Result<(), Fail> {
    left.terminal
        .feed_in_place(b"1mc\x1b[6n", &mut left.reports)?;
    Ok(())
}

// A copy has the parser's state and all else, so it goes on as the terminal that it is of.
#[test]
fn a_copy_goes_on_alike(rt: HostRuntime) -> Result<(), Fail> {
    let mut one = feed_reset(rt.alloc(), b"\x1b[2;5r\x1b[?6hab\x1b[7;")?;
    let mut other = copied(rt.alloc(), &one.terminal)?;
    go_on(&mut one)?;
    go_on(&mut other)?;
    let text = told(rt.alloc(), &one)?;
    assert_eq!(rt;
        text.as_str(),
        "2:ab[BR]c at 2 4 margins 2 5 DECOM [BR] sent E[1;4R"
    );
    see_same(&rt, &other, &one)
}
