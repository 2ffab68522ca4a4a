//! Refused growths. `tests/refused.py` runs these with the first, second, .. growth of memory refused, until none is,
//! and counts the lines `refused: WHAT`. After a refusal all is as it was, and the same call then answers.

use crate::packed::unpack;
use crate::told::{Left, SIZE, are_same_terminals};
use std::alloc::Global;
use std::process::Abort;
use std::rt::Runtime;
use std::test::Fail;
use xterm_term::{Reports, Size, Terminal};

// A terminal from its reset; where memory is refused, once more.
fn reset(rt: &(impl Runtime<A = Global> + Abort)) -> Result<Left, Fail> {
    let size = Size::new(SIZE.0, SIZE.1).ok_or_else(|| Fail::new("no size"))?;
    let terminal = match Terminal::reset(rt.alloc(), size) {
        Ok(terminal) => terminal,
        Err(_) => {
            println!(rt; "refused: reset")?;
            Terminal::reset(rt.alloc(), size)?
        }
    };
    Ok(Left {
        terminal,
        reports: Reports::new(rt.alloc()),
    })
}

#[test]
fn a_reset_terminal(rt: HostRuntime) -> Result<(), Fail> {
    let left = reset(&rt)?;
    let screen = left.terminal.screen();
    assert_eq!(rt;
        (screen.columns(), screen.lines(), screen.cursor()),
        (12, 6, (1, 1))
    );
    Ok(())
}

// Feeds the bytes; where memory is refused, terminal, list and place are as before, and so once more.
fn feed(
    rt: &(impl Runtime<A = Global> + Abort),
    left: &mut Left,
    bytes: &[u8],
) -> Result<(), Fail> {
    let mut before = reset(rt)?;
    before.copy_from(&left.terminal)?;
    let held = (left.reports.bytes().len(), left.reports.place());
    if left.terminal.feed(bytes, &mut left.reports).is_err() {
        println!(rt; "refused: feed")?;
        let holds = (left.reports.bytes().len(), left.reports.place());
        let is_same = are_same_terminals(&left.terminal, &before.terminal);
        assert_eq!(rt; (is_same, holds), (true, held));
        left.terminal.feed(bytes, &mut left.reports)?;
    }
    Ok(())
}

/// Pieces that leave a sequence, a character and a title pending, change sheets and send more and more.
#[test]
fn many_reports(rt: HostRuntime) -> Result<(), Fail> {
    const PIECES: &[&[u8]] = &[
        b"\x1b[6",
        b"n\x1b[2;5r\x1b[?6h\x1b7\x1b[1;44mab\xe6\x97",
        b"\xa5\x1b[c\x1bktitle",
        b"\x07\x1b[?1049h\x1b[x\x1b[1x",
        b"\x1b[x\x1b[x\x1b[x\x1b[x\x1b[x\x1b[?1049l\x1b[6n",
    ];
    let mut left = reset(&rt)?;
    for piece in PIECES {
        feed(&rt, &mut left, piece)?;
    }
    // 6 of the cursor, 7 of the device, 7 times 20 of parameters, 6 of the cursor.
    assert_eq!(rt; left.reports.bytes().len(), 6 + 7 + 140 + 6);
    Ok(())
}

/// Packs a terminal; where memory is refused, once more.
#[test]
fn a_packed_terminal(rt: HostRuntime) -> Result<(), Fail> {
    let mut left = reset(&rt)?;
    feed(
        &rt,
        &mut left,
        "a日\x1b[1;44mc\x1b7\x1b[?47h\x1b[5;5Hd\x1b[".as_bytes(),
    )?;
    let packed = match left.terminal.pack(rt.alloc()) {
        Ok(packed) => packed,
        Err(_) => {
            println!(rt; "refused: pack")?;
            left.terminal.pack(rt.alloc())?
        }
    };
    let mut again = reset(&rt)?;
    unpack(&mut again, &packed)?;
    let is_same = are_same_terminals(&again.terminal, &left.terminal);
    assert!(rt; is_same, "a terminal that was packed");
    Ok(())
}
