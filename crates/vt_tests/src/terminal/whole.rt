//! Every row of the tables, fed in both profiles to terminals of which each part can be told: what it changes, and that it
//! leaves all else. A row that differs has both.
use super::changes::{all_change, all_change_by_profile, changed_by};
use super::starts::{ABOVE, AT_LAST_STOP, SET, VT52, VT52_GRAPHICS, WRAPPING};
use std::alloc::Global;
use std::process::Abort;
use std::test::Fail;
use vt_term::Profile;

// In VT52 mode these do the same, but SO and SI nothing.
const CONTROLS_OF_SET: &[(&[u8], &str)] = &[
    (b"\x08", "at 7 2"),
    (b"\x09", "at 7 50"),
    (b"\x0a", "at 8 1"),
    (b"\x0b", "at 8 1"),
    (b"\x0c", "at 8 1"),
    (b"\x0d", "at 7 1"),
    (b"\x05", ""),
    (
        b"\x00\x01\x02\x03\x04\x06\x07\x10\x11\x12\x13\x14\x15\x16\x17\x18\x19\x1a\x1c\x1d\x1e\x1f\x7f",
        "",
    ),
    (b"\x80", "7:gh[BR]<2> {63}[]j {64}k at 7 4"),
];

const CONTROLS_OF_WRAPPING: &[(&[u8], &str)] = &[
    (b"\x08", "at 7 39"),
    (b"\x09", "at 7 40"),
    (b"\x0a", "5:ff 6(Double):ghi {36}[UK]<25> 7: at 7 40"),
    (b"\x0b", "5:ff 6(Double):ghi {36}[UK]<25> 7: at 7 40"),
    (b"\x0c", "5:ff 6(Double):ghi {36}[UK]<25> 7: at 7 40"),
    (b"\x0d", "at 7 1"),
    (b"\x05", ""),
    (
        b"\x00\x01\x02\x03\x04\x06\x07\x10\x11\x12\x13\x14\x15\x16\x17\x18\x19\x1a\x1c\x1d\x1e\x1f\x7f",
        "",
    ),
    (b"\x80", "5:ff 6(Double):ghi {36}[UK]<25> 7:[UK]<2> at 7 2"),
];

#[test]
fn controls(rt: HostRuntime) -> Result<(), Fail> {
    all_change(&rt, &[SET], CONTROLS_OF_SET)?;
    all_change(&rt, &[WRAPPING], CONTROLS_OF_WRAPPING)
}

#[test]
fn controls_in_vt52_mode(rt: HostRuntime) -> Result<(), Fail> {
    all_change(&rt, &[SET, VT52], CONTROLS_OF_SET)?;
    all_change(&rt, &[WRAPPING, VT52], CONTROLS_OF_WRAPPING)
}

#[test]
fn invocations_in_vt52_mode(rt: HostRuntime) -> Result<(), Fail> {
    const INVOKING: &[(&[u8], &str)] = &[(b"\x0e", ""), (b"\x0f", "")];
    all_change(&rt, &[SET, VT52], INVOKING)?;
    all_change(&rt, &[WRAPPING, VT52], INVOKING)?;
    const WRITING: &[(&[u8], &str)] = &[
        (b"a", "7:gh[BR]a {63}[]j {64}k at 7 4"),
        (
            b"\x1bFa",
            "7:gh[BR]<2> {63}[]j {64}k at 7 4 G0 Uk G1 SpecialGraphics SO graphics",
        ),
    ];
    all_change(&rt, &[SET, VT52], WRITING)
}

const ESCAPES_OF_SET: &[(&[u8], &str)] = &[
    (b"\x1bD", "at 8 3"),
    (b"\x1bE", "at 8 1"),
    (b"\x1bM", "at 6 3"),
    (b"\x1bH", ""),
    (
        b"\x1bc",
        "4-10: 12: no Columns at 1 1 no Margins no Tabs -DECCKM -DECSCLM -DECSCNM -DECOM +DECAWM -DECARM -DECINLM -LNM -DECKPAM \
        no Sets no Leds no Rendition no Saved",
    ),
    (
        b"\x1b7",
        "saved(7 3 DECOM [BR] G0 Uk G1 SpecialGraphics SO)",
    ),
    (
        b"\x1b8",
        "at 12 132 -DECOM G0 SpecialGraphics G1 Uk graphics [UK]",
    ),
    (b"\x1b=", ""),
    (b"\x1b>", "-DECKPAM"),
    (b"\x1b#3", "7(Top):ghi"),
    (b"\x1b#4", "7(Bottom):ghi"),
    (b"\x1b#5", ""),
    (b"\x1b#6", "7(Double):ghi"),
    (b"\x1b#8", "1-24:E{132}"),
    (b"\x1b(A", ""),
    (b"\x1b(B", "G1 SpecialGraphics SO graphics"),
    (
        b"\x1b(0",
        "G0 SpecialGraphics G1 SpecialGraphics SO graphics",
    ),
    (b"\x1b(1", "G1 SpecialGraphics SO graphics"),
    (
        b"\x1b(2",
        "G0 SpecialGraphics G1 SpecialGraphics SO graphics",
    ),
    (b"\x1b)A", "G0 Uk G1 Uk SO graphics"),
    (b"\x1b)B", "G0 Uk SO graphics"),
    (b"\x1b)0", ""),
    (b"\x1b)1", "G0 Uk SO graphics"),
    (b"\x1b)2", ""),
];

const ESCAPES_OF_WRAPPING: &[(&[u8], &str)] = &[
    (b"\x1bD", "5:ff 6(Double):ghi {36}[UK]<25> 7: at 7 40"),
    (b"\x1bE", "5:ff 6(Double):ghi {36}[UK]<25> 7: at 7 1"),
    (b"\x1bM", "at 6 40"),
    (b"\x1bH", "tabs 3 40 60"),
    (
        b"\x1bc",
        "5-10: at 1 1 no Margins no Tabs no Sets no Leds no Rendition no Saved",
    ),
    (b"\x1b7", "saved(7 40 wrap [UK] G0 SpecialGraphics G1 Uk)"),
    (b"\x1b8", "at 6 8 +DECOM G0 Uk G1 SpecialGraphics SO [BR]"),
    (b"\x1b=", "+DECKPAM"),
    (b"\x1b>", ""),
    (b"\x1b#3", "7(Top):ghi {36}[UK]<25> at 7 40"),
    (b"\x1b#4", "7(Bottom):ghi {36}[UK]<25> at 7 40"),
    (b"\x1b#5", "7:ghi {36}[UK]<25> at 7 40"),
    (b"\x1b#6", "at 7 40"),
    (b"\x1b#8", "1-24:E{80} at 7 40"),
    (b"\x1b(A", "G0 Uk G1 Uk"),
    (b"\x1b(B", "G1 Uk"),
    (b"\x1b(0", ""),
    (b"\x1b(1", "G1 Uk"),
    (b"\x1b(2", ""),
    (b"\x1b)A", ""),
    (b"\x1b)B", "G0 SpecialGraphics"),
    (b"\x1b)0", "G0 SpecialGraphics G1 SpecialGraphics"),
    (b"\x1b)1", "G0 SpecialGraphics"),
    (b"\x1b)2", "G0 SpecialGraphics G1 SpecialGraphics"),
];

#[test]
fn escape_sequences(rt: HostRuntime) -> Result<(), Fail> {
    all_change(&rt, &[SET], ESCAPES_OF_SET)?;
    all_change(&rt, &[WRAPPING], ESCAPES_OF_WRAPPING)
}

#[test]
fn invocations(rt: HostRuntime) -> Result<(), Fail> {
    const OF_SET: &[(&[u8], &str)] = &[
        (b"\x0e", ""),
        (b"\x0f", "G0 Uk G1 SpecialGraphics graphics"),
        (b"a", "7:gh[BR]<2> {63}[]j {64}k at 7 4"),
    ];
    all_change(&rt, &[SET], OF_SET)?;
    const OF_WRAPPING: &[(&[u8], &str)] = &[
        (b"\x0e", "G0 SpecialGraphics G1 Uk SO"),
        (b"\x0f", ""),
        (b"a", "5:ff 6(Double):ghi {36}[UK]<25> 7:[UK]<2> at 7 2"),
    ];
    all_change(&rt, &[WRAPPING], OF_WRAPPING)
}

const MOVES_OF_SET: &[(&[u8], &str)] = &[
    (b"\x1b[A", "at 6 3"),
    (b"\x1b[2A", "at 5 3"),
    (b"\x1b[9A", "at 5 3"),
    (b"\x1b[B", "at 8 3"),
    (b"\x1b[0B", "at 8 3"),
    (b"\x1b[9B", "at 9 3"),
    (b"\x1b[C", "at 7 4"),
    (b"\x1b[2C", "at 7 5"),
    (b"\x1b[999C", "at 7 132"),
    (b"\x1b[D", "at 7 2"),
    (b"\x1b[2D", "at 7 1"),
    (b"\x1b[9D", "at 7 1"),
    (b"\x1b[2;4H", "at 6 4"),
    (b"\x1b[H", "at 5 1"),
    (b"\x1b[99;99H", "at 9 99"),
    (b"\x1b[2;99H", "at 6 66"),
    (b"\x1b[2;4f", "at 6 4"),
    (b"\x1b[f", "at 5 1"),
    (b"\x1b[99;99f", "at 9 99"),
    (b"\x1b[2;99f", "at 6 66"),
    (b"\x1b[2;6r", "at 2 1 margins 2 6"),
    (b"\x1b[0;6r", "at 1 1 margins 1 6"),
    (b"\x1b[20r", "at 20 1 margins 20 24"),
    (b"\x1b[r", "at 1 1 no Margins"),
    (b"\x1b[5;9r", "at 5 1"),
    (b"\x1b[9;5r", ""),
    (b"\x1b[6;6r", ""),
    (b"\x1b[5;25r", ""),
];

const MOVES_OF_WRAPPING: &[(&[u8], &str)] = &[
    (b"\x1b[A", "at 6 40"),
    (b"\x1b[9A", "at 5 40"),
    (b"\x1b[B", "at 7 40"),
    (b"\x1b[C", "at 7 40"),
    (b"\x1b[D", "at 7 39"),
    (b"\x1b[7;40H", "at 7 40"),
    (b"\x1b[7;99H", "at 7 40"),
    (b"\x1b[99;4H", "at 24 4"),
    (b"\x1b[H", "at 1 1"),
    (b"\x1b[7;40f", "at 7 40"),
    (b"\x1b[7;99f", "at 7 40"),
    (b"\x1b[99;4f", "at 24 4"),
    (b"\x1b[f", "at 1 1"),
    (b"\x1b[2;6r", "at 1 1 margins 2 6"),
    (b"\x1b[r", "at 1 1 no Margins"),
    (b"\x1b[5;7r", "at 1 1"),
    (b"\x1b[7;5r", ""),
    (b"\x1b[1;25r", ""),
];

#[test]
fn control_sequences_that_move(rt: HostRuntime) -> Result<(), Fail> {
    all_change(&rt, &[SET], MOVES_OF_SET)?;
    all_change(&rt, &[WRAPPING], MOVES_OF_WRAPPING)
}

const SETTINGS_OF_SET: &[(&[u8], &str)] = &[
    (b"\x1b[J", "7:gh 8-10: 12:"),
    (b"\x1b[1J", "4-6: 7: {66}j {64}k"),
    (b"\x1b[2J", "4-10: 12:"),
    (b"\x1b[K", "7:gh"),
    (b"\x1b[1K", "7: {66}j {64}k"),
    (b"\x1b[2K", "7:"),
    (b"\x1b[g", "tabs 50 100"),
    (b"\x1b[0g", "tabs 50 100"),
    (b"\x1b[3g", "tabs"),
    (b"\x1b[m", "no Rendition"),
    (b"\x1b[1m", ""),
    (b"\x1b[4m", "[BUR]"),
    (b"\x1b[5m", "[BKR]"),
    (b"\x1b[7m", ""),
    (b"\x1b[0;4m", "[U]"),
    (b"\x1b[4;0m", "no Rendition"),
    (b"\x1b[20h", ""),
    (b"\x1b[20l", "-LNM"),
    (b"\x1b[q", "no Leds"),
    (b"\x1b[1q", ""),
    (b"\x1b[2q", "L1 L2 L3"),
    (b"\x1b[3q", ""),
    (b"\x1b[4q", "L1 L3 L4"),
    (b"\x1b[0;2q", "L2"),
];

const SETTINGS_OF_WRAPPING: &[(&[u8], &str)] = &[
    (b"\x1b[J", "7(Double):ghi 8-10:"),
    (b"\x1b[1J", "5-7: at 7 40"),
    (b"\x1b[2J", "5-10: at 7 40"),
    (b"\x1b[7;1H\x1b[J", "7-10: at 7 1"),
    (b"\x1b[7;2H\x1b[J", "7(Double):g 8-10: at 7 2"),
    (b"\x1b[8;1H\x1b[J", "8-10: at 8 1"),
    (b"\x1b[8;2H\x1b[J", "8(Top):l 9-10: at 8 2"),
    (b"\x1b[K", "7(Double):ghi"),
    (b"\x1b[1K", "7(Double):"),
    (b"\x1b[2K", "7(Double):"),
    (b"\x1b[g", ""),
    (b"\x1b[3g", "tabs"),
    (b"\x1b[m", "no Rendition"),
    (b"\x1b[1m", "[BUK]"),
    (b"\x1b[4m", ""),
    (b"\x1b[5m", ""),
    (b"\x1b[7m", "[UKR]"),
    (b"\x1b[20h", "+LNM"),
    (b"\x1b[20l", ""),
    (b"\x1b[q", "no Leds"),
    (b"\x1b[1q", "L1 L2 L4"),
    (b"\x1b[2q", ""),
    (b"\x1b[3q", "L2 L3 L4"),
    (b"\x1b[4q", ""),
];

#[test]
fn control_sequences_that_set(rt: HostRuntime) -> Result<(), Fail> {
    all_change(&rt, &[SET], SETTINGS_OF_SET)?;
    all_change(&rt, &[WRAPPING], SETTINGS_OF_WRAPPING)
}

const REPORTS_OF_WRAPPING: &[(&[u8], &str)] = &[
    (b"\x1b[5n", "sent E[0n"),
    (b"\x1b[6n", "sent E[7;40R"),
    (b"\x1b[x", "sent E[2;1;1;112;112;1;0x"),
    (b"\x1b[1x", "sent E[3;1;1;112;112;1;0x"),
];

#[test]
fn reports(rt: HostRuntime) -> Result<(), Fail> {
    all_change(&rt, &[WRAPPING], REPORTS_OF_WRAPPING)?;
    const OF_SET: &[(&[u8], &str)] = &[(b"\x1b[6n", "sent E[0nE[3;3R")];
    all_change(&rt, &[SET], OF_SET)
}

// Each profile says what it is.
#[test]
fn device_attributes(rt: HostRuntime) -> Result<(), Fail> {
    const OF_WRAPPING: &[(&[u8], &str, &str)] = &[
        (b"\x1b[c", "sent E[?1;2c", "sent E[?6c"),
        (b"\x1b[0c", "sent E[?1;2c", "sent E[?6c"),
        (b"\x1b[0;1c", "sent E[?1;2c", "sent E[?6c"),
        (b"\x1bZ", "sent E[?1;2c", "sent E[?6c"),
        (b"\x1b[?2l\x1bZ", "+VT52 sent E/Z", "+VT52 sent E/Z"),
    ];
    all_change_by_profile(&rt, &[WRAPPING], OF_WRAPPING)?;
    const OF_SET: &[(&[u8], &str, &str)] = &[
        (b"\x1b[c", "sent E[0nE[?1;2c", "sent E[0nE[?6c"),
        (b"\x1bZ", "sent E[0nE[?1;2c", "sent E[0nE[?6c"),
    ];
    all_change_by_profile(&rt, &[SET], OF_SET)
}

// Sequences that take one parameter take the first, and those that take two the first two.
const MORE_PARAMETERS: &[(&[u8], &str)] = &[
    (b"\x1b[1;2A", "at 6 3"),
    (b"\x1b[1;2B", "at 8 3"),
    (b"\x1b[1;2C", "at 7 4"),
    (b"\x1b[1;2D", "at 7 2"),
    (b"\x1b[2;4;9H", "at 6 4"),
    (b"\x1b[2;4;9f", "at 6 4"),
    (b"\x1b[2;6;9r", "at 2 1 margins 2 6"),
    (b"\x1b[0;1J", "7:gh 8-10: 12:"),
    (b"\x1b[1;0J", "4-6: 7: {66}j {64}k"),
    (b"\x1b[3;2J", ""),
    (b"\x1b[0;1K", "7:gh"),
    (b"\x1b[1;0K", "7: {66}j {64}k"),
    (b"\x1b[3;2K", ""),
    (b"\x1b[0;3g", "tabs 50 100"),
    (b"\x1b[1;3g", ""),
    (b"\x1b[1;0c", ""),
    (b"\x1b[5;6n", "sent E[0nE[0n"),
    (b"\x1b[7;5n", ""),
    (b"\x1b[0;1x", "sent E[0nE[2;1;1;112;112;1;0x"),
    (b"\x1b[2;0x", ""),
];

// Those of them that differ.
const MORE_PARAMETERS_BY_PROFILE: &[(&[u8], &str, &str)] = &[
    (b"\x1b[0;0c", "sent E[0nE[?1;2c", "sent E[0nE[?6c"),
    (b"\x1b[1;2L", "", "7: 8:ghi {63}j {64}k 9(Bottom):ll at 7 1"),
    (b"\x1b[1;2M", "", "7(Bottom):ll 8:mm 9: at 7 1"),
    (b"\x1b[1;2P", "", "7:gh {63}j {64}k"),
];

#[test]
fn first_parameters_alone(rt: HostRuntime) -> Result<(), Fail> {
    all_change(&rt, &[SET], MORE_PARAMETERS)?;
    all_change_by_profile(&rt, &[SET], MORE_PARAMETERS_BY_PROFILE)
}

// Outside the margins lines 1 and 24 stop the cursor, and nothing scrolls.
const OUTSIDE_MARGINS: &[(&[u8], &str)] = &[
    (b"\x1b[1;3H\x1bM", "at 1 3"),
    (b"\x1b[1;3H\x1b[?2l\x1bI", "at 1 3 +VT52"),
    (b"\x1b[2;3H\x1bM", "at 1 3"),
    (b"\x1b[1;3H\x1b[A", "at 1 3"),
    (b"\x1b[1;3H\x1b[9B", "at 9 3"),
    (b"\x1b[4;3H\x1bD", "at 5 3"),
    (b"\x1b[10;3H\x1bM", "at 9 3"),
    (b"\x1b[10;3H\x1bD", "at 11 3"),
    (b"\x1b[24;3H\x1bD", "at 24 3"),
    (b"\x1b[24;3H\x1bE", "at 24 1"),
    (b"\x1b[24;3H\x0a", "at 24 3"),
    (b"\x1b[24;3H\x0b", "at 24 3"),
    (b"\x1b[24;3H\x0c", "at 24 3"),
    (b"\x1b[24;3H\x1b[B", "at 24 3"),
    (b"\x1b[24;3H\x1b[99A", "at 5 3"),
    (b"\x1b[23;80Hxy", "23:yy {77}x 24:yz at 24 2"),
    (b"\x1b[24;80Hxy", "24:yz {77}x at 24 2"),
    (b"\x1b[9;3H\x0a", "5: 8:ii 9: at 9 3"),
    (b"\x1b[5;3H\x1bM", "5: 6:ee 9: at 5 3"),
];

#[test]
fn outside_margins(rt: HostRuntime) -> Result<(), Fail> {
    all_change(&rt, &[ABOVE], OUTSIDE_MARGINS)
}

// Stops outlive a change of columns, and all 132 are cleared also where 80 columns are shown.
const TABS_OF_LAST_STOP: &[(&[u8], &str)] = &[
    (b"\x1b[g", "tabs 3"),
    (b"\x1b[0g", "tabs 3"),
    (b"\x1b[1;3H\x1b[g", "at 1 3 tabs 132"),
    (b"\x1b[1;131H\x1b[g", "at 1 131"),
    (b"\x1b[3g", "tabs"),
    (b"\x1b[1;131H\x1bH", "at 1 131 tabs 3 131 132"),
    (b"\x1b[1;1H\x1bH", "at 1 1 tabs 1 3 132"),
    (b"\x1b[?3l", "no Columns at 1 1"),
    (b"\x1b[?3l\x1b[3g", "no Columns at 1 1 tabs"),
    (b"\x1bc", "no Columns at 1 1 no Tabs"),
];

#[test]
fn stops_up_to_the_last_column(rt: HostRuntime) -> Result<(), Fail> {
    all_change(&rt, &[AT_LAST_STOP], TABS_OF_LAST_STOP)
}

const MODES_OF_SET: &[(&[u8], &str)] = &[
    (b"\x1b[?1h", ""),
    (b"\x1b[?1l", "-DECCKM"),
    (b"\x1b[?2h", ""),
    (b"\x1b[?2l", "+VT52 G0 Uk G1 SpecialGraphics SO"),
    (b"\x1b[?3h", "4-10: 12: at 1 1 no Margins"),
    (b"\x1b[?3l", "4-10: 12: no Columns at 1 1 no Margins"),
    (b"\x1b[?4h", ""),
    (b"\x1b[?4l", "-DECSCLM"),
    (b"\x1b[?5h", ""),
    (b"\x1b[?5l", "-DECSCNM"),
    (b"\x1b[?6h", "at 5 1"),
    (b"\x1b[?6l", "at 1 1 -DECOM"),
    (b"\x1b[?7h", "+DECAWM"),
    (b"\x1b[?7l", ""),
    (b"\x1b[?8h", ""),
    (b"\x1b[?8l", "-DECARM"),
    (b"\x1b[?9h", ""),
    (b"\x1b[?9l", "-DECINLM"),
    (b"\x1b[?2;5l", "+VT52 -DECSCNM G0 Uk G1 SpecialGraphics SO"),
];

const MODES_OF_WRAPPING: &[(&[u8], &str)] = &[
    (b"\x1b[?1h", "+DECCKM"),
    (b"\x1b[?1l", ""),
    (b"\x1b[?2h", ""),
    (b"\x1b[?2l", "+VT52"),
    (b"\x1b[?3h", "5-10: wide at 1 1 no Margins"),
    (b"\x1b[?3l", "5-10: at 1 1 no Margins"),
    (b"\x1b[?4h", "+DECSCLM"),
    (b"\x1b[?4l", ""),
    (b"\x1b[?5h", "+DECSCNM"),
    (b"\x1b[?5l", ""),
    (b"\x1b[?6h", "at 5 1 +DECOM"),
    (b"\x1b[?6l", "at 1 1"),
    (b"\x1b[?7h", ""),
    (b"\x1b[?7l", "at 7 40 -DECAWM"),
    (b"\x1b[?8h", "+DECARM"),
    (b"\x1b[?8l", ""),
    (b"\x1b[?9h", "+DECINLM"),
    (b"\x1b[?9l", ""),
];

#[test]
fn private_modes(rt: HostRuntime) -> Result<(), Fail> {
    all_change(&rt, &[SET], MODES_OF_SET)?;
    all_change(&rt, &[WRAPPING], MODES_OF_WRAPPING)
}

const VT52_OF_SET: &[(&[u8], &str)] = &[
    (b"\x1bA", "at 6 3"),
    (b"\x1bB", "at 8 3"),
    (b"\x1bC", "at 7 4"),
    (b"\x1bD", "at 7 2"),
    (b"\x1bF", ""),
    (b"\x1bG", "G0 Uk G1 SpecialGraphics SO"),
    (b"\x1bH", "at 5 1"),
    (b"\x1bI", "at 6 3"),
    (b"\x1bJ", "7:gh 8-10: 12:"),
    (b"\x1bK", "7:gh"),
    (b"\x1bY!#", "at 6 4"),
    (b"\x1bY~~", "at 9 95"),
    (b"\x1bY  ", "at 5 1"),
    (b"\x1bZ", "sent E[0nE/Z"),
    (b"\x1b=", ""),
    (b"\x1b>", "-DECKPAM"),
    (b"\x1b<", "-VT52"),
];

const VT52_OF_WRAPPING: &[(&[u8], &str)] = &[
    (b"\x1bA", "at 6 40"),
    (b"\x1bB", "at 7 40"),
    (b"\x1bC", "at 7 40"),
    (b"\x1bD", "at 7 39"),
    (b"\x1bF", ""),
    (b"\x1bG", "G0 SpecialGraphics G1 Uk"),
    (b"\x1bH", "at 1 1"),
    (b"\x1bI", "at 6 40"),
    (b"\x1bJ", "7(Double):ghi 8-10:"),
    (b"\x1bY& \x1bJ", "7-10: at 7 1"),
    (b"\x1bK", "7(Double):ghi"),
    (b"\x1bY&G", "at 7 40"),
    (b"\x1bY&~", "at 7 40"),
    (b"\x1bY~#", "at 24 4"),
    (b"\x1bZ", "sent E/Z"),
    (b"\x1b=", "+DECKPAM"),
    (b"\x1b>", ""),
    (b"\x1b<", "-VT52"),
];

#[test]
fn vt52_sequences(rt: HostRuntime) -> Result<(), Fail> {
    all_change(&rt, &[SET, VT52_GRAPHICS], VT52_OF_SET)?;
    all_change(&rt, &[WRAPPING, VT52_GRAPHICS], VT52_OF_WRAPPING)
}

// What a byte changes between what comes before it and what comes after.
fn changed_between(
    alloc: Global,
    start: &[&[u8]],
    head: &[u8],
    byte: u8,
    tail: &[u8],
) -> Result<String, Fail> {
    changed_by(alloc, Profile::Vt100, start, &[head, &[byte], tail])
}

// Each byte that is dropped inside a sequence leaves it going on.
fn all_go_on(
    rt: &(impl Abort + AllocGlobal),
    start: &[&[u8]],
    rows: &[(&[u8], &[u8], &str)],
) -> Result<(), Fail> {
    for (head, tail, want) in rows {
        for byte in 0..=255 {
            let acts = matches!(byte, 8..=15 | 24 | 26 | 27 | 32..=126);
            if !acts {
                let text = changed_between(rt.alloc(), start, head, byte, tail)?;
                assert_eq!(rt;
                    text.as_str(),
                    *want,
                    "at {byte} between {head:?} and {tail:?}"
                );
            }
        }
    }
    Ok(())
}

#[test]
fn dropped_bytes(rt: HostRuntime) -> Result<(), Fail> {
    const ROWS: &[(&[u8], &[u8], &str)] = &[
        (b"\x1b", b"D", "at 8 3"),
        (b"\x1b(", b"B", "G1 SpecialGraphics SO graphics"),
        (b"\x1b[", b"4m", "[BUR]"),
        (b"\x1b[0;", b"4m", "[U]"),
        (b"\x1b[?", b"5l", "-DECSCNM"),
    ];
    all_go_on(&rt, &[SET], ROWS)?;
    const IN_VT52_MODE: &[(&[u8], &[u8], &str)] = &[
        (b"\x1b", b"B", "at 8 3"),
        (b"\x1bY", b"!#", "at 6 4"),
        (b"\x1bY!", b"#", "at 6 4"),
    ];
    all_go_on(&rt, &[SET, VT52_GRAPHICS], IN_VT52_MODE)
}

// Texts that aren't well formed, controls inside sequences, and sequences that are ended by another.
#[test]
fn odd_sequences(rt: HostRuntime) -> Result<(), Fail> {
    const ROWS: &[(&[u8], &str)] = &[
        (b"\x1b[4:3m\x1b[4:m", ""),
        (b"\x1b[:C\x1b[1:l\x1b[:D", ""),
        (b"\x1b[>c\x1b[=c\x1b[<m\x1b[1 q", ""),
        (b"\x1b[0?5l\x1b[;?5l\x1b[??5l", ""),
        (b"\x1b[\x084m", "at 7 2 [BUR]"),
        (b"\x1b[4\x0d\x0am", "at 8 1 [BUR]"),
        (
            b"\x1b[?5\x0fl",
            "-DECSCNM G0 Uk G1 SpecialGraphics graphics",
        ),
        (b"\x1b[4\x18a", "7:gh[BR]<2><2> {62}[]j {64}k at 7 5"),
        (b"\x1b[4\x1b[5m", "[BKR]"),
        (b"\x1b(\x1b)B", "G0 Uk SO graphics"),
        (b"\x1b]4m\x08\x0a\x07", ""),
        (b"\x1bP\x1b\\\x1bX\x1b[4m", "[BUR]"),
        (b"\x1b^q\x18", "7:gh[BR]<2> {63}[]j {64}k at 7 4"),
        (b"\x1b_q\x1a", "7:gh[BR]<2> {63}[]j {64}k at 7 4"),
    ];
    all_change(&rt, &[SET], ROWS)
}

// Without a save: home, counted from line 1, without rendition, and ASCII in both slots.
#[test]
fn restores_without_a_save(rt: HostRuntime) -> Result<(), Fail> {
    const START: &[u8] =
        b"\x1b(0\x1b)A\x0e\x1b[7m\x1b[2;5r\x1b[?6h\x1b[2;2H\x1b=\x1b[2q\x1b[?2l\x1bF\x1b<";
    const ROWS: &[(&[u8], &str)] = &[(b"\x1b8", "at 1 1 -DECOM graphics no Rendition")];
    all_change(&rt, &[START], ROWS)
}
