use crate::fed::{fed, fed_as};
use screen_state::state;
use std::alloc::Global;
use std::test::Fail;
use tape_core::Watched;
use vt_term::{Profile, Reports, Terminal};

/// The text of a reset terminal.
const RESET: &[u8] =
    b"\x1b<\x1bc\x1b[?3h\x1b[3g\x1b[1;9H\x1bH\x1b[1;17H\x1bH\x1b[1;25H\x1bH\x1b[1;33H\x1bH\x1b[1;41H\x1bH\x1b[1;49H\x1bH\x1b[1;57H\x1bH\x1b[1;65H\x1bH\x1b[1;73H\x1bH\x1b[1;81H\x1bH\x1b[1;89H\x1bH\x1b[1;97H\x1bH\x1b[1;105H\x1bH\x1b[1;113H\x1bH\x1b[1;121H\x1bH\x1b[1;129H\x1bH\x1b[?6l\x1b[?3l\x1b[?7l\x1b[0m\x1b(B\x1b)0\x0f\x1b[1;24r\x1b[?7h\x1b[1;1H\x1b[0m\x1b(B\x1b)B\x0f";

/// What is fed to a reset VT102 without tab stops, and the text of what it is then.
const TEXTS: &[(&[u8], &[u8])] = &[
    // A wrap that is pending behind a special graphic in bold, and a sequence that isn't finished.
    (
        b"\x1b)0\x0e\x1b[1m\x1b[2;80Hq\x1b[;7",
        b"\x1b<\x1bc\x1b[?3h\x1b[3g\x1b[?6l\x1b[?3l\x1b[?7l\x1b[0m\x1b(B\x1b)0\x0f\x1b[2;1H                                                                               \x1b[0;1m\x0eq\x1b[1;24r\x1b[?7h\x1b[2;80H\x1b[0;1m\x0eq\x1b[0;1m\x1b(B\x1b)0\x0e\x1b[0;7",
    ),
    // A wrap that was saved in the middle of a double line, and VT52 mode with its graphics.
    (
        b"\x1b#6\x1b[1;40H \x1b7\x1b[1;1H\x1b#5\x1b[?2l\x1bF\x1bY",
        b"\x1b<\x1bc\x1b[?3h\x1b[3g\x1b[?3l\x1b[1;40H\x1b#6 \x1b[0m\x1b(B\x1b)B\x0f\x1b7\x1b[?6l\x1b[?3l\x1b[?7l\x1b[0m\x1b(B\x1b)0\x0f\x1b[1;24r\x1b[?7h\x1b[1;1H\x1b[0m\x1b(B\x1b)B\x0f\x1b[?2l\x1bF\x1bY",
    ),
    // Lines that are counted from the top margin, modes, and an LED.
    (
        b"\x1b[3;9r\x1b[?6h\x1b[2;7H\x1b[?1;5h\x1b[20h\x1b=\x1b[3q\x1b[?7l",
        b"\x1b<\x1bc\x1b[?3h\x1b[3g\x1b[?6l\x1b[?3l\x1b[?7l\x1b[0m\x1b(B\x1b)0\x0f\x1b[3;9r\x1b[?6h\x1b[2;7H\x1b[0m\x1b(B\x1b)B\x0f\x1b[?1h\x1b[?5h\x1b[20h\x1b=\x1b[3q",
    ),
];

/// The state text of a terminal.
fn told(alloc: Global, terminal: &Terminal) -> Result<Vec<u8>, Fail> {
    let mut writer = Watched::new(Vec::new(alloc));
    state(terminal, &mut writer)?;
    Ok(writer.into_inner())
}

#[test]
fn tells_all_that_a_terminal_is(rt: HostRuntime) -> Result<(), Fail> {
    let reset = told(rt.alloc(), &fed(rt.alloc(), b"")?)?;
    assert_eq!(rt; reset.as_slice(), RESET);
    for (bytes, wanted) in TEXTS {
        let mut terminal = fed_as(rt.alloc(), Profile::Vt102, b"\x1b[3g")?;
        terminal.feed(bytes, &mut Reports::new(rt.alloc()))?;
        let text = told(rt.alloc(), &terminal)?;
        assert_eq!(rt; text.as_slice(), *wanted, "after {bytes:?}");
    }
    Ok(())
}
