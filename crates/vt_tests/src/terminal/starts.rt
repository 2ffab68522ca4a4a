//! Terminals of which each part can be told, from which the rows of the tables start.
use super::all_leave;
use std::test::Fail;

// Wide, and inside the margins under DECOM, with every mode set but DECAWM, and G1 invoked.
pub(super) const SET: &[u8] = b"\x1b[?3h\
    \x1b[3g\x1b[1;3H\x1bH\x1b[1;50H\x1bH\x1b[1;100H\x1bH\
    \x1b[4;1Hdd\x1b[5;1Hee\x1b[6;1Hff\x1b#6\x1b[7;1Hghi\x1b[7;67Hj\x1b[7;132Hk\
    \x1b[8;1Hll\x1b#4\x1b[9;1Hmm\x1b[10;1Hnn\x1b#3\
    \x1b[4;5m\x1b(0\x1b)A\x1b[12;132Hx\x1b7\
    \x1b[1;3q\x1b[0;1;7m\x1b(A\x1b)0\x0e\
    \x1b[20h\x1b=\x1b[?1;4;5;8;9h\x1b[?7l\x1b[?2l\x1bF\x1b<\x1b[5n\
    \x1b[5;9r\x1b[?6h\x1b[3;3H";

const SET_TOLD: &str = "4:dd 5:ee 6(Double):ff 7:ghi {63}j {64}k 8(Bottom):ll 9:mm 10(Top):nn \
    12: {131}[UK]<25> wide at 7 3 margins 5 9 tabs 3 50 100 \
    DECCKM DECSCLM DECSCNM DECOM no DECAWM DECARM DECINLM LNM DECKPAM \
    G0 Uk G1 SpecialGraphics SO graphics L1 L3 [BR] \
    saved(12 132 wrap [UK] G0 SpecialGraphics G1 Uk) sent E[0n";

// The wrap pending on a double line at the bottom margin, with every mode reset but DECAWM, and G0 invoked.
pub(super) const WRAPPING: &[u8] = b"\x1b[3g\x1b[1;3H\x1bH\x1b[1;60H\x1bH\
    \x1b[5;1Hee\x1b[6;1Hff\x1b[7;1H\x1b#6ghi\x1b[8;1Hll\x1b#3\x1b[9;1Hmm\x1b[10;1Hnn\
    \x1b[5;7r\x1b[?6h\x1b[2;8H\x1b[1;7m\x1b(A\x1b)0\x0e\x1b7\
    \x1b[?6l\x1b[0;4;5m\x1b(0\x1b)A\x0f\x1b[2;4q\x1b[7;40Hx";

const WRAPPING_TOLD: &str = "5:ee 6:ff 7(Double):ghi {36}[UK]<25> 8(Top):ll 9:mm 10:nn \
    at 7 40 wrap margins 5 7 tabs 3 60 G0 SpecialGraphics G1 Uk L2 L4 [UK] \
    saved(6 8 DECOM [BR] G0 Uk G1 SpecialGraphics SO)";

// At line 1, above the margins, with something on lines of all three parts.
pub(super) const ABOVE: &[u8] =
    b"aa\x1b[2;1Hbb\x1b[5;1Hee\x1b[9;1Hii\x1b[10;1Hjj\x1b[23;1Hyy\x1b[24;1Hzz\x1b[5;9r";

const ABOVE_TOLD: &str = "1:aa 2:bb 5:ee 9:ii 10:jj 23:yy 24:zz at 1 1 margins 5 9";

// At the last of the stops at columns 3 and 132.
pub(super) const AT_LAST_STOP: &[u8] = b"\x1b[?3h\x1b[3g\x1b[1;3H\x1bH\x1b[1;132H\x1bH";

const AT_LAST_STOP_TOLD: &str = "wide at 1 132 tabs 3 132";

// Into VT52 mode.
pub(super) const VT52: &[u8] = b"\x1b[?2l";

// Into VT52 mode, and its graphics on.
pub(super) const VT52_GRAPHICS: &[u8] = b"\x1b[?2l\x1bF";

#[test]
fn starts(rt: HostRuntime) -> Result<(), Fail> {
    const ROWS: &[(&[u8], &str)] = &[
        (SET, SET_TOLD),
        (WRAPPING, WRAPPING_TOLD),
        (ABOVE, ABOVE_TOLD),
        (AT_LAST_STOP, AT_LAST_STOP_TOLD),
    ];
    all_leave(&rt, ROWS)
}
