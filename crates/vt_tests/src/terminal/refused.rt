//! Refused growths. `tests/refused.py` runs these with the first, second, .. growth of memory refused, until none is, and
//! counts the lines `refused: WHAT`. After a refusal all is as it was, and the same call then answers.

use super::{Left, are_same, are_same_terminals, reset_as};
use std::alloc::Global;
use std::process::Abort;
use std::rt::Runtime;
use std::test::Fail;
use vt_term::{Profile, Reports, Terminal};

/// Feeds the bytes; where memory is refused, terminal, list and place are as before, and so once more.
fn feed(
    rt: &(impl Runtime<A = Global> + Abort),
    left: &mut Left,
    bytes: &[u8],
) -> Result<(), Fail> {
    let mut before = Terminal::reset();
    before.copy_from(&left.terminal);
    let held = (left.reports.bytes().len(), left.reports.place());
    if left.terminal.feed(bytes, &mut left.reports).is_err() {
        println!(rt; "refused: feed")?;
        let holds = (left.reports.bytes().len(), left.reports.place());
        assert_eq!(rt;
            (are_same_terminals(&left.terminal, &before), holds),
            (true, held)
        );
        left.terminal.feed(bytes, &mut left.reports)?;
    }
    Ok(())
}

fn fed(rt: &(impl Runtime<A = Global> + Abort), pieces: &[&[u8]]) -> Result<Left, Fail> {
    let mut left = reset_as(rt.alloc(), Profile::Vt100);
    for piece in pieces {
        feed(rt, &mut left, piece)?;
    }
    Ok(left)
}

#[test]
fn a_first_report(rt: HostRuntime) -> Result<(), Fail> {
    let left = fed(&rt, &[b"x\x1b[5n"])?;
    let held = (left.reports.bytes().len(), left.reports.place());
    assert_eq!(rt;
        (left.terminal.screen().cell(1, 1).glyph, held),
        (b'x', (4, 4))
    );
    assert_eq!(rt; left.reports.bytes(), b"\x1b[0n".as_slice());
    Ok(())
}

/// Pieces that set modes, leave sequences pending and send more and more.
#[test]
fn many_reports(rt: HostRuntime) -> Result<(), Fail> {
    const PIECES: &[&[u8]] = &[
        b"\x1b[6",
        b"n\x1b[2;20r\x1b[?6h\x1b7\x1b[1;4mab\x1b[c",
        b"\x1b[x\x1b[1x\x1b[1;3q",
        b"\x1b(0\x0e\x1b[?3hwide\x1b[6n\x1b[",
        b"5n\x1b[?2l\x1bZ\x1bY%",
        b"*\x1b<\x1b[x\x1b[x\x1b[x\x1b[x\x1b[x",
    ];
    let one = fed(&rt, PIECES)?;
    let other = fed(&rt, PIECES)?;
    // 6 of the cursor, 7 of the device, 7 times 20 of parameters, 6 of the cursor, 4 of the status and 3 of a VT52.
    let len = 6 + 7 + 140 + 6 + 4 + 3;
    assert_eq!(rt;
        (are_same(&one, &other), one.reports.bytes().len()),
        (true, len)
    );
    Ok(())
}

// A terminal from its reset sends what the list holds, with no memory.
fn send_the_same(rt: &impl Abort, reports: &mut Reports) {
    reports.set_place(0);
    let is_sent = Terminal::reset().feed(b"\x1b[5n\x1b[c", reports).is_ok();
    assert_eq!(rt; is_sent, true, "with a list that holds it");
    assert_eq!(rt; reports.bytes(), b"\x1b[0n\x1b[?1;2c".as_slice());
}

/// Fed again from the list's start, a terminal sends nothing new and takes no memory.
#[test]
fn no_growth_within_the_list(rt: HostRuntime) -> Result<(), Fail> {
    let mut left = fed(&rt, &[b"\x1b[5n\x1b[c"])?;
    for _ in 0..3 {
        send_the_same(&rt, &mut left.reports);
    }
    Ok(())
}

/// Packs a terminal; where memory is refused, once more.
#[test]
fn a_packed_terminal(rt: HostRuntime) -> Result<(), Fail> {
    let left = fed(&rt, &[b"ab\x1b[1;4mc\x1b7\x1b[5;5Hd\x1b["])?;
    let packed = match left.terminal.pack(rt.alloc()) {
        Ok(packed) => packed,
        Err(_) => {
            println!(rt; "refused: pack")?;
            left.terminal.pack(rt.alloc())?
        }
    };
    let mut again = Terminal::reset();
    again.unpack(&packed);
    let is_same = are_same_terminals(&again, &left.terminal);
    assert!(rt; is_same, "a terminal that was packed");
    Ok(())
}
