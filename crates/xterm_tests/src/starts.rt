//! Terminals of which each part can be told, from which the rows of the tables start.

use crate::told::all_leave;
use std::process::Abort;
use std::test::Fail;

// On the main sheet inside the margins under DECOM, over half a character, with every mode set but DECAWM and DECTCEM,
// and G1 invoked.
pub(crate) const SET: &str = "\x1b[3g\x1b[1;3H\x1bH\x1b[1;10H\x1bH\
    \x1b[1;1Haa\x1b[2;1Hbb\x1b[3;1H\x1b[32mcc\x1b[m\x1b[4;1Hd日本de\u{301}\x1b[5;1Hee\x1b[6;1Hff\
    \x1b[?47h\x1b[2;2H\x1b[3m\x1b7\x1b[m\x1b[?47l\
    \x1b[4;41m\x1b(0\x1b)A\x1b[6;12Hx\x1b7\
    \x1b[0;1;7;33;44m\x1b(A\x1b)0\x0e\x1b[4;20h\x1b=\x1b[?1;5h\x1b[?7;25l\x1b[5n\
    \x1b[2;5r\x1b[?6h\x1b[3;5H";

const SET_TOLD: &str = "1:aa 2:bb 3:[i2]cc 4:d日本de\u{301} 5:ee 6:ff {9}[Ug1]│ \
    at 4 5 margins 2 5 tabs 3 10 \
    DECCKM DECSCNM DECOM no DECAWM LNM IRM DECKPAM no DECTCEM \
    G0 Uk G1 SpecialGraphics SO [BRi3g4] \
    main saved(6 12 wrap [Ug1] G0 SpecialGraphics G1 Uk) alternate saved(2 2 [I]) sent E[0n";

// On the alternate sheet, the wrap pending behind a character of width 2 at the bottom margin, every mode as at first,
// and G0 invoked.
pub(crate) const WRAPPING: &str =
    "\x1b[3g\x1b[1;3H\x1bH\x1b[1;8H\x1bH\x1b[3;3Hm\x1b[3m\x1b7\x1b[m\x1b[?47h\
    \x1b[1;1Haa\x1b[2;1Hb日b\x1b[3;1Hcc\x1b[4;1Hdd\x1b[5;1Hee\x1b[6;1Hff\
    \x1b[2;4r\x1b[?6h\x1b[2;8H\x1b[1;7m\x1b(A\x1b)0\x0e\x1b7\
    \x1b[?6l\x1b[0;4;46m\x1b(0\x1b)A\x0f\x1b[4;11H日";

const WRAPPING_TOLD: &str = "1:aa 2:b日b 3:cc 4:dd        [Ug6]日 5:ee 6:ff \
    alternate at 4 12 wrap margins 2 4 tabs 3 8 G0 SpecialGraphics G1 Uk [Ug6] last 日 \
    main saved(3 4 [I]) alternate saved(3 8 DECOM [BR] G0 Uk G1 SpecialGraphics SO)";

// At line 1, above the margins, with something on every line.
pub(crate) const ABOVE: &str = "aa\x1b[2;1Hbb\x1b[3;1Hcc\x1b[4;1Hdd\x1b[5;1Hee\x1b[6;1Hff\x1b[3;4r";

const ABOVE_TOLD: &str = "1:aa 2:bb 3:cc 4:dd 5:ee 6:ff at 1 1 margins 3 4";

#[test]
fn starts(rt: HostRuntime) -> Result<(), Fail> {
    const ROWS: &[(&str, &str)] = &[
        (SET, SET_TOLD),
        (WRAPPING, WRAPPING_TOLD),
        (ABOVE, ABOVE_TOLD),
    ];
    all_leave(&rt, ROWS)
}
