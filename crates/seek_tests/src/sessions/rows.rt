//! Worked rows: those of `session_tests` for a VT100, as a strip shows them.
use super::{TEN, Timed, compare, opened};
use std::test::Fail;

const ONE_REPORT: &[&str] = &[
    "reports 0 | count 2 fed 2 sent ... shows x.. | 2 2 1",
    "delete 0 1 | ok | 0 0 1",
    "reports 0 | count 1 fed 1 shows x.. | 1 1 1",
    "screen 0 | count 1 fed 0 shows x.. | 1 1 1",
];

#[test]
fn a_report_goes_with_its_chunk(rt: HostRuntime) -> Result<(), Fail> {
    let mut session = opened(rt.alloc(), &[("0", b"?"), ("0", b"x")], 100, 3)?;
    compare(&rt, rt.alloc(), &mut session, ONE_REPORT)
}

/// What shows differs by the size, and so does what is sent.
const SIZED: &[Timed<'static>] = &[("1", b"ab"), ("1", b"?c"), ("1", b"d?")];

const OF_TWO_CELLS: &[&str] = &[
    "seek 3 | count 3 fed 3 sent abcd shows cd | 3 3 2",
    "seek 2 | count 2 fed 0 sent ab shows c. | 3 2 2",
    "seek 0 | count 0 fed 0 shows .. | 3 0 2",
    "seek 1 | count 1 fed 1 shows ab | 3 1 2",
];

const OF_THREE_CELLS: &[&str] = &[
    "seek 3 | count 3 fed 3 sent ab.d.. shows d.. | 3 3 2",
    "seek 2 | count 2 fed 0 sent ab. shows abc | 3 2 2",
    "seek 0 | count 0 fed 0 shows ... | 3 0 2",
    "seek 1 | count 1 fed 1 shows ab. | 3 1 2",
];

const OF_NO_CELLS: &[&str] = &[
    "seek 3 | count 3 fed 3 shows  | 3 3 2",
    "seek 0 | count 0 fed 0 shows  | 3 0 2",
];

/// A strip has the size of its setup when it is reset, from stored strips and from the start.
#[test]
fn sessions_of_three_sizes(rt: HostRuntime) -> Result<(), Fail> {
    for (size, rows) in [(2, OF_TWO_CELLS), (3, OF_THREE_CELLS), (0, OF_NO_CELLS)] {
        let mut session = opened(rt.alloc(), SIZED, 2, size)?;
        compare(&rt, rt.alloc(), &mut session, rows)?;
    }
    Ok(())
}

const STORED: &[&str] = &[
    "screen 10 | count 10 fed 10 shows 0123456789 | 10 10 3",
    "screen 5 | count 5 fed 1 shows 01234..... | 10 5 3",
    "replace 6 2d | ok | 6 5 2",
    "screen 10 | count 10 fed 5 shows 012345-789 | 10 10 3",
    "retime 0 2 | ok | 10 10 3",
    "screen 11 | count 10 fed 0 shows 012345-789 | 10 10 3",
    "screen 10.999999 | count 9 fed 1 shows 012345-78. | 10 9 3",
    // Each delay becomes half a second at most.
    "cap 0.5 | ok | 10 9 3",
    "screen 5 | count 10 fed 1 shows 012345-789 | 10 10 3",
    "screen 4.75 | count 9 fed 1 shows 012345-78. | 10 9 3",
];

#[test]
fn stored_strips_through_edits(rt: HostRuntime) -> Result<(), Fail> {
    let mut session = opened(rt.alloc(), TEN, 4, 10)?;
    compare(&rt, rt.alloc(), &mut session, STORED)
}

const NO_CHUNKS: &[&str] = &[
    "seek 0 | count 0 fed 0 shows .. | 0 0 1",
    "delete 0 1 | BadRange | 0 0 1",
    "replace 0 - | NoSuchChunk | 0 0 1",
    "retime 0 0 | NoSuchChunk | 0 0 1",
    "cap 0 | ok | 0 0 1",
    "insert 0 1000000 61 | ok | 0 0 1",
    "screen 1000000 | count 1 fed 1 shows a. | 1 1 2",
];

#[test]
fn edits_of_no_chunks(rt: HostRuntime) -> Result<(), Fail> {
    let mut session = opened(rt.alloc(), &[], 1, 2)?;
    compare(&rt, rt.alloc(), &mut session, NO_CHUNKS)
}

const REFUSED: &[&str] = &[
    "seek 7 | count 7 fed 7 shows 0123456... | 7 7 3",
    "delete 3 3 | BadRange | 7 7 3",
    "delete 0 11 | BadRange | 7 7 3",
    "insert 11 0 - | NoSuchChunk | 7 7 3",
    "insert 0 1000000.000001 - | DelayTooLarge | 7 7 3",
    "replace 10 - | NoSuchChunk | 7 7 3",
    "retime 10 0 | NoSuchChunk | 7 7 3",
    "cap 1000000.000001 | DelayTooLarge | 7 7 3",
    "seek 7 | count 7 fed 0 shows 0123456... | 7 7 3",
    "seek 2 | count 2 fed 2 shows 01........ | 7 2 3",
];

#[test]
fn refused_edits_change_nothing(rt: HostRuntime) -> Result<(), Fail> {
    let mut session = opened(rt.alloc(), TEN, 3, 10)?;
    compare(&rt, rt.alloc(), &mut session, REFUSED)
}

/// A byte that quotes, the `?` that it quotes, a `?` that asks, and one behind a byte.
const QUOTED: &[Timed<'static>] = &[("0", b"\\"), ("0", b"?"), ("0", b"?"), ("0", b"a?")];

const CUT: &[&str] = &[
    "seek 4 | count 4 fed 4 sent ?...?a.. shows ?a.. | 4 4 5",
    "seek 1 | count 1 fed 0 shows .... quoting | 4 1 5",
    "seek 2 | count 2 fed 0 shows ?... | 4 2 5",
    "seek 3 | count 3 fed 0 sent ?... shows ?... | 4 3 5",
    "replace 2 63 | ok | 2 2 3",
    "seek 4 | count 4 fed 2 sent ?ca. shows ?ca. | 4 4 5",
    "seek 3 | count 3 fed 0 shows ?c.. | 4 3 5",
    "delete 0 1 | ok | 0 0 1",
    "seek 3 | count 3 fed 3 sent ....ca.. shows ca.. | 3 3 4",
    "seek 0 | count 0 fed 0 shows .... | 3 0 4",
];

#[test]
fn a_quote_cut_by_chunks(rt: HostRuntime) -> Result<(), Fail> {
    let mut session = opened(rt.alloc(), QUOTED, 1, 4)?;
    compare(&rt, rt.alloc(), &mut session, CUT)
}

const FULL: &[&str] = &[
    "seek 2 | count 2 fed 2 shows B... | 2 2 3",
    "seek 1 | count 1 fed 0 shows AAAA | 2 1 3",
    "seek 2 | count 2 fed 0 shows B... | 2 2 3",
    "seek 0 | count 0 fed 0 shows .... | 2 0 3",
];

#[test]
fn a_full_strip_is_stored(rt: HostRuntime) -> Result<(), Fail> {
    let mut session = opened(rt.alloc(), &[("0", b"AAAA"), ("0", b"B")], 1, 4)?;
    compare(&rt, rt.alloc(), &mut session, FULL)
}

const BEHIND: &[&str] = &[
    "seek 10 | count 10 fed 10 shows 0123456789 | 10 10 3",
    "replace 6 2d | ok | 6 4 2",
    "seek 6 | count 6 fed 2 shows 012345.... | 6 6 2",
    "seek 10 | count 10 fed 4 shows 012345-789 | 10 10 3",
    // An edit exactly at a stored strip's count keeps it.
    "delete 8 9 | ok | 8 8 3",
    "seek 4 | count 4 fed 0 shows 0123...... | 8 4 3",
    "insert 4 0 2a | ok | 4 4 2",
    "seek 5 | count 5 fed 1 shows 0123*..... | 5 5 2",
    // At the frontier and past it nothing is given up.
    "insert 5 0 2b | ok | 5 5 2",
    "replace 10 - | ok | 5 5 2",
    "seek 8 | count 8 fed 3 shows 0123*+45.. | 8 8 3",
    "insert 3 0 3f | ok | 3 0 1",
    "seek 3 | count 3 fed 3 shows 012....... | 3 3 1",
    "seek 5 | count 5 fed 2 sent 012....... shows 0123...... | 5 5 2",
    "delete 0 12 | ok | 0 0 1",
    "seek 0 | count 0 fed 0 shows .......... | 0 0 1",
];

#[test]
fn the_head_goes_back_behind_an_edit(rt: HostRuntime) -> Result<(), Fail> {
    let mut session = opened(rt.alloc(), TEN, 4, 10)?;
    compare(&rt, rt.alloc(), &mut session, BEHIND)
}
