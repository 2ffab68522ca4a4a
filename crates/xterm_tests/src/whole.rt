//! Every row of the tables, fed to terminals of which each part can be told: what it changes, and that it leaves all
//! else.

use crate::changes::{Rows, all_change, all_change_from};
use crate::starts::ABOVE;
use std::process::Abort;
use std::test::Fail;

// Characters, in insert mode without DECAWM, and with a wrap pending.
const PUTS: Rows = &[
    (
        "ab",
        "4:d日[g4] [BRi3g4]▒␉[g4] []de\u{301} at 4 7 last ␉",
        "2:cc 3:dd        [Ug6]日 4:[Ug6]▒␉[g6] {10} at 4 3 last ␉",
    ),
    (
        "日",
        "4:d日[g4] [BRi3g4]日[g4] []de\u{301} at 4 7 last 日",
        "2:cc 3:dd        [Ug6]日 4:[Ug6]日[g6] {10} at 4 3",
    ),
    (
        "é",
        "4:d日[g4] [BRi3g4]é[g4] []de\u{301} at 4 6 last é",
        "2:cc 3:dd        [Ug6]日 4:[Ug6]é[g6] {11} at 4 2 last é",
    ),
    (
        "e\u{301}",
        "4:d日[g4] [BRi3g4]␊\u{301}[g4] []de\u{301} at 4 6 last ␊",
        "2:cc 3:dd        [Ug6]日 4:[Ug6]␊\u{301}[g6] {11} at 4 2 last ␊",
    ),
    (
        "\u{301}",
        "4:d日本\u{301}de\u{301}",
        "4:dd        [Ug6]日\u{301}",
    ),
    ("\u{85}", "", "no Last"),
    (
        "\u{ad}",
        "4:d日[g4] [BRi3g4]\u{ad}[g4] []de\u{301} at 4 6 last \u{ad}",
        "2:cc 3:dd        [Ug6]日 4:[Ug6]\u{ad}[g6] {11} at 4 2 last \u{ad}",
    ),
    (
        "日本\u{323}",
        "4:d日[g4] [BRi3g4]日本\u{323}[g4] []de\u{301} at 4 9 last 本",
        "2:cc 3:dd        [Ug6]日 4:[Ug6]日本\u{323}[g6] at 4 5 last 本",
    ),
];

#[test]
fn puts(rt: HostRuntime) -> Result<(), Fail> {
    all_change(&rt, PUTS)
}

// Controls.
const CONTROLS: Rows = &[
    ("\x08", "at 4 4", "at 4 11 no Last"),
    ("\t", "at 4 10", "no Last"),
    (
        "\n",
        "at 5 1",
        "2:cc 3:dd        [Ug6]日 4:[g6] {12} at 4 12 no Last",
    ),
    (
        "\x0b",
        "at 5 1",
        "2:cc 3:dd        [Ug6]日 4:[g6] {12} at 4 12 no Last",
    ),
    (
        "\x0c",
        "at 5 1",
        "2:cc 3:dd        [Ug6]日 4:[g6] {12} at 4 12 no Last",
    ),
    ("\r", "at 4 1", "at 4 1 no Last"),
    ("\x0e", "", "G0 SpecialGraphics G1 Uk SO no Last"),
    ("\x0f", "G0 Uk G1 SpecialGraphics", "no Last"),
    ("\x05", "", "no Last"),
    (
        "\x00\x01\x02\x03\x04\x06\x07\x10\x11\x12\x13\x14\x15\x16\x17\x18\x19\x1a\x1c\x1d\x1e\x1f",
        "",
        "no Last",
    ),
];

#[test]
fn controls(rt: HostRuntime) -> Result<(), Fail> {
    all_change(&rt, CONTROLS)
}

// Escape sequences.
const ESCAPES: Rows = &[
    (
        "\x1bD",
        "at 5 5",
        "2:cc 3:dd        [Ug6]日 4:[g6] {12} at 4 12 no Last",
    ),
    (
        "\x1bE",
        "at 5 1",
        "2:cc 3:dd        [Ug6]日 4:[g6] {12} at 4 1 no Last",
    ),
    ("\x1bM", "at 3 5", "at 3 12 no Last"),
    ("\x1bH", "tabs 3 5 10", "tabs 3 8 12 no Last"),
    ("\x1bZ", "sent E[0nE[?1;2c", "no Last sent E[?1;2c"),
    (
        "\x1bc",
        "1-6: at 1 1 no Margins no Tabs -DECCKM -DECSCNM -DECOM +DECAWM -LNM -IRM -DECKPAM +DECTCEM \
        no Sets no Rendition no MainSaved no AlternateSaved",
        "1-6: no Sheet at 1 1 no Margins no Tabs no Sets no Rendition no Last no MainSaved no AlternateSaved",
    ),
    (
        "\x1b7",
        "main saved(4 5 DECOM [BRi3g4] G0 Uk G1 SpecialGraphics SO)",
        "no Last alternate saved(4 12 wrap [Ug6] G0 SpecialGraphics G1 Uk)",
    ),
    (
        "\x1b8",
        "at 6 12 -DECOM G0 SpecialGraphics G1 Uk [Ug1]",
        "at 3 8 +DECOM G0 Uk G1 SpecialGraphics SO [BR] no Last",
    ),
    ("\x1b=", "", "+DECKPAM no Last"),
    ("\x1b>", "-DECKPAM", "no Last"),
    (
        "\x1b#8",
        "1-6:E{12} at 1 1 no Margins -DECOM",
        "1-6:E{12} at 1 1 no Margins no Last",
    ),
    ("\x1bk", "title", "no Last title"),
    ("\x1b(A", "", "G0 Uk G1 Uk no Last"),
    ("\x1b(B", "G1 SpecialGraphics SO", "G1 Uk no Last"),
    (
        "\x1b(0",
        "G0 SpecialGraphics G1 SpecialGraphics SO",
        "no Last",
    ),
    ("\x1b(1", "G1 SpecialGraphics SO", "G1 Uk no Last"),
    (
        "\x1b(2",
        "G0 SpecialGraphics G1 SpecialGraphics SO",
        "no Last",
    ),
    ("\x1b)A", "G0 Uk G1 Uk SO", "no Last"),
    ("\x1b)B", "G0 Uk SO", "G0 SpecialGraphics no Last"),
    (
        "\x1b)0",
        "",
        "G0 SpecialGraphics G1 SpecialGraphics no Last",
    ),
    ("\x1b)1", "G0 Uk SO", "G0 SpecialGraphics no Last"),
    (
        "\x1b)2",
        "",
        "G0 SpecialGraphics G1 SpecialGraphics no Last",
    ),
];

#[test]
fn escape_sequences(rt: HostRuntime) -> Result<(), Fail> {
    all_change(&rt, ESCAPES)
}

// Control sequences that move the cursor.
const MOVES: Rows = &[
    ("\x1b[A", "at 3 5", "at 3 12 no Last"),
    ("\x1b[9A", "at 2 5", "at 2 12 no Last"),
    ("\x1b[B", "at 5 5", "at 4 12 no Last"),
    ("\x1b[9B", "at 5 5", "at 4 12 no Last"),
    ("\x1b[C", "at 4 6", "at 4 12 no Last"),
    ("\x1b[99C", "at 4 12", "at 4 12 no Last"),
    ("\x1b[D", "at 4 4", "at 4 11 no Last"),
    ("\x1b[99D", "at 4 1", "at 4 1 no Last"),
    ("\x1b[E", "at 5 1", "at 4 1 no Last"),
    ("\x1b[2E", "at 5 1", "at 4 1 no Last"),
    ("\x1b[F", "at 3 1", "at 3 1 no Last"),
    ("\x1b[2F", "at 2 1", "at 2 1 no Last"),
    ("\x1b[G", "at 4 1", "at 4 1 no Last"),
    ("\x1b[7G", "at 4 7", "at 4 7 no Last"),
    ("\x1b[99G", "at 4 12", "at 4 12 no Last"),
    ("\x1b[`", "at 4 1", "at 4 1 no Last"),
    ("\x1b[6`", "at 4 6", "at 4 6 no Last"),
    ("\x1b[a", "at 4 6", "at 4 12 no Last"),
    ("\x1b[2a", "at 4 7", "at 4 12 no Last"),
    ("\x1b[e", "at 5 5", "at 5 12 no Last"),
    ("\x1b[9e", "at 5 5", "at 6 12 no Last"),
    ("\x1b[d", "at 2 5", "at 1 12 no Last"),
    ("\x1b[2d", "at 3 5", "at 2 12 no Last"),
    ("\x1b[9d", "at 5 5", "at 6 12 no Last"),
    ("\x1b[H", "at 2 1", "at 1 1 no Last"),
    ("\x1b[2;3H", "at 3 3", "at 2 3 no Last"),
    ("\x1b[9;99H", "at 5 12", "at 6 12 no Last"),
    ("\x1b[;4f", "at 2 4", "at 1 4 no Last"),
    ("\x1b[I", "at 4 10", "no Last"),
    ("\x1b[2I", "at 4 12", "no Last"),
    ("\x1b[Z", "at 4 3", "at 4 8 no Last"),
    ("\x1b[2Z", "at 4 1", "at 4 3 no Last"),
];

#[test]
fn moves(rt: HostRuntime) -> Result<(), Fail> {
    all_change(&rt, MOVES)
}

// Control sequences that erase, insert, delete and scroll.
const EDITS: Rows = &[
    (
        "\x1b[J",
        "4:d日[g4] {9} 5-6:[g4] {12}",
        "4:dd        [g6]   5-6:[g6] {12} at 4 12 no Last",
    ),
    (
        "\x1b[1J",
        "1-3:[g4] {12} 4:[g4]     []de\u{301}",
        "1-4:[g6] {12} at 4 12 no Last",
    ),
    ("\x1b[2J", "1-6:[g4] {12}", "1-6:[g6] {12} at 4 12 no Last"),
    ("\x1b[3J", "", "no Last"),
    ("\x1b[K", "4:d日[g4] {9}", "4:dd        [g6] at 4 12 no Last"),
    (
        "\x1b[1K",
        "4:[g4]     []de\u{301}",
        "4:[g6] {12} at 4 12 no Last",
    ),
    ("\x1b[2K", "4:[g4] {12}", "4:[g6] {12} at 4 12 no Last"),
    ("\x1b[3K", "", "no Last"),
    (
        "\x1b[X",
        "4:d日[g4]  []de\u{301}",
        "4:dd        [g6] at 4 12 no Last",
    ),
    (
        "\x1b[2X",
        "4:d日[g4]   []e\u{301}",
        "4:dd        [g6] at 4 12 no Last",
    ),
    (
        "\x1b[99X",
        "4:d日[g4] {9}",
        "4:dd        [g6] at 4 12 no Last",
    ),
    (
        "\x1b[@",
        "4:d日[g4]   []de\u{301}",
        "4:dd        [g6] at 4 12 no Last",
    ),
    (
        "\x1b[3@",
        "4:d日[g4]     []de\u{301}",
        "4:dd        [g6] at 4 12 no Last",
    ),
    (
        "\x1b[99@",
        "4:d日[g4] {9}",
        "4:dd        [g6] at 4 12 no Last",
    ),
    (
        "\x1b[P",
        "4:d日[g4] []de\u{301}     [g4]",
        "4:dd        [g6] at 4 12 no Last",
    ),
    (
        "\x1b[2P",
        "4:d日[g4] []e\u{301}     [g4]",
        "4:dd        [g6] at 4 12 no Last",
    ),
    (
        "\x1b[99P",
        "4:d日[g4] {9}",
        "4:dd        [g6] at 4 12 no Last",
    ),
    (
        "\x1b[L",
        "4:[g4] {12} 5:d日本de\u{301} at 4 1",
        "4:[g6] {12} at 4 1 no Last",
    ),
    (
        "\x1b[9L",
        "4-5:[g4] {12} at 4 1",
        "4:[g6] {12} at 4 1 no Last",
    ),
    (
        "\x1b[M",
        "4:ee 5:[g4] {12} at 4 1",
        "4:[g6] {12} at 4 1 no Last",
    ),
    (
        "\x1b[9M",
        "4-5:[g4] {12} at 4 1",
        "4:[g6] {12} at 4 1 no Last",
    ),
    (
        "\x1b[S",
        "2:[i2]cc 3:d日本de\u{301} 4:ee 5:[g4] {12}",
        "2:cc 3:dd        [Ug6]日 4:[g6] {12} no Last",
    ),
    ("\x1b[9S", "2-5:[g4] {12}", "2-4:[g6] {12} no Last"),
    (
        "\x1b[T",
        "2:[g4] {12} 3:bb 4:[i2]cc 5:d日本de\u{301}",
        "2:[g6] {12} 3:b日b 4:cc no Last",
    ),
    ("\x1b[9T", "2-5:[g4] {12}", "2-4:[g6] {12} no Last"),
    ("\x1b[1;2T", "", "no Last"),
];

#[test]
fn edits(rt: HostRuntime) -> Result<(), Fail> {
    all_change(&rt, EDITS)
}

// REP, TBC, modes, margins, saves and replies.
const OTHERS: Rows = &[
    (
        "\x1b[b",
        "",
        "2:cc 3:dd        [Ug6]日 4:[Ug6]日[g6] {10} at 4 3 no Last",
    ),
    (
        "\x1b[3b",
        "",
        "2:cc 3:dd        [Ug6]日 4:[Ug6]日日日[g6] at 4 7 no Last",
    ),
    ("\x1b[g", "", "no Last"),
    ("\x1b[3g", "tabs", "tabs no Last"),
    ("\x1b[4h", "", "+IRM no Last"),
    ("\x1b[4l", "-IRM", "no Last"),
    ("\x1b[20h", "", "+LNM no Last"),
    ("\x1b[20l", "-LNM", "no Last"),
    ("\x1b[r", "at 1 1 no Margins", "at 1 1 no Margins no Last"),
    (
        "\x1b[2;3r",
        "at 2 1 margins 2 3",
        "at 1 1 margins 2 3 no Last",
    ),
    (
        "\x1b[3;99r",
        "at 3 1 margins 3 6",
        "at 1 1 margins 3 6 no Last",
    ),
    ("\x1b[3;3r", "", "no Last"),
    ("\x1b[6;2r", "", "no Last"),
    (
        "\x1b[s",
        "main saved(4 5 DECOM [BRi3g4] G0 Uk G1 SpecialGraphics SO)",
        "no Last alternate saved(4 12 wrap [Ug6] G0 SpecialGraphics G1 Uk)",
    ),
    (
        "\x1b[u",
        "at 6 12 -DECOM G0 SpecialGraphics G1 Uk [Ug1]",
        "at 3 8 +DECOM G0 Uk G1 SpecialGraphics SO [BR] no Last",
    ),
    ("\x1b[c", "sent E[0nE[?1;2c", "no Last sent E[?1;2c"),
    ("\x1b[1c", "", "no Last"),
    ("\x1b[5n", "sent E[0nE[0n", "no Last sent E[0n"),
    ("\x1b[6n", "sent E[0nE[3;5R", "no Last sent E[4;12R"),
    (
        "\x1b[x",
        "sent E[0nE[2;1;1;112;112;1;0x",
        "no Last sent E[2;1;1;112;112;1;0x",
    ),
    (
        "\x1b[1x",
        "sent E[0nE[3;1;1;112;112;1;0x",
        "no Last sent E[3;1;1;112;112;1;0x",
    ),
    ("\x1b[2x", "", "no Last"),
];

#[test]
fn other_sequences(rt: HostRuntime) -> Result<(), Fail> {
    all_change(&rt, OTHERS)
}

// Modes with `?`.
const PRIVATE_MODES: Rows = &[
    ("\x1b[?1h", "", "+DECCKM no Last"),
    ("\x1b[?1l", "-DECCKM", "no Last"),
    ("\x1b[?5h", "", "+DECSCNM no Last"),
    ("\x1b[?5l", "-DECSCNM", "no Last"),
    ("\x1b[?6h", "at 2 1", "at 2 1 +DECOM no Last"),
    ("\x1b[?6l", "at 1 1 -DECOM", "at 1 1 no Last"),
    ("\x1b[?7h", "+DECAWM", "no Last"),
    ("\x1b[?7l", "", "at 4 12 -DECAWM no Last"),
    ("\x1b[?25h", "+DECTCEM", "no Last"),
    ("\x1b[?25l", "", "-DECTCEM no Last"),
    ("\x1b[?47h", "1-6:[g4] {12} alternate", "no Last"),
    ("\x1b[?47l", "", "1-2: 3:  m 4-6: no Sheet no Last"),
    ("\x1b[?1047h", "1-6:[g4] {12} alternate", "no Last"),
    ("\x1b[?1047l", "", "1-2: 3:  m 4-6: no Sheet no Last"),
    (
        "\x1b[?1048h",
        "main saved(4 5 DECOM [BRi3g4] G0 Uk G1 SpecialGraphics SO)",
        "no Last alternate saved(4 12 wrap [Ug6] G0 SpecialGraphics G1 Uk)",
    ),
    (
        "\x1b[?1048l",
        "at 6 12 -DECOM G0 SpecialGraphics G1 Uk [Ug1]",
        "at 3 8 +DECOM G0 Uk G1 SpecialGraphics SO [BR] no Last",
    ),
    (
        "\x1b[?1049h",
        "1-6:[g4] {12} alternate main saved(4 5 DECOM [BRi3g4] G0 Uk G1 SpecialGraphics SO)",
        "no Last",
    ),
    (
        "\x1b[?1049l",
        "at 6 12 -DECOM G0 SpecialGraphics G1 Uk [Ug1]",
        "1-2: 3:  m 4-6: no Sheet at 3 4 no Sets [I] no Last",
    ),
];

#[test]
fn private_modes(rt: HostRuntime) -> Result<(), Fail> {
    all_change(&rt, PRIVATE_MODES)
}

// SGR.
const RENDITIONS: Rows = &[
    ("\x1b[0m", "no Rendition", "no Rendition no Last"),
    ("\x1b[1m", "", "[BUg6] no Last"),
    ("\x1b[2m", "[BFRi3g4]", "[FUg6] no Last"),
    ("\x1b[3m", "[BIRi3g4]", "[IUg6] no Last"),
    ("\x1b[4m", "[BURi3g4]", "no Last"),
    ("\x1b[5m", "[BKRi3g4]", "[UKg6] no Last"),
    ("\x1b[6m", "[BKRi3g4]", "[UKg6] no Last"),
    ("\x1b[7m", "", "[URg6] no Last"),
    ("\x1b[8m", "[BRCi3g4]", "[UCg6] no Last"),
    ("\x1b[9m", "[BRXi3g4]", "[UXg6] no Last"),
    ("\x1b[21m", "[BURi3g4]", "no Last"),
    ("\x1b[22m", "[Ri3g4]", "no Last"),
    ("\x1b[23m", "", "no Last"),
    ("\x1b[24m", "", "[g6] no Last"),
    ("\x1b[25m", "", "no Last"),
    ("\x1b[27m", "[Bi3g4]", "no Last"),
    ("\x1b[28m", "", "no Last"),
    ("\x1b[29m", "", "no Last"),
    ("\x1b[30m", "[BRi0g4]", "[Ui0g6] no Last"),
    ("\x1b[37m", "[BRi7g4]", "[Ui7g6] no Last"),
    ("\x1b[39m", "[BRg4]", "no Last"),
    ("\x1b[40m", "[BRi3g0]", "[Ug0] no Last"),
    ("\x1b[47m", "[BRi3g7]", "[Ug7] no Last"),
    ("\x1b[49m", "[BRi3]", "[U] no Last"),
    ("\x1b[90m", "[BRi8g4]", "[Ui8g6] no Last"),
    ("\x1b[97m", "[BRi15g4]", "[Ui15g6] no Last"),
    ("\x1b[100m", "[BRi3g8]", "[Ug8] no Last"),
    ("\x1b[107m", "[BRi3g15]", "[Ug15] no Last"),
    ("\x1b[38;5;255m", "[BRi255g4]", "[Ui255g6] no Last"),
    ("\x1b[48;5;0m", "[BRi3g0]", "[Ug0] no Last"),
    (
        "\x1b[38;2;0;255;9m",
        "[BRi0.255.9g4]",
        "[Ui0.255.9g6] no Last",
    ),
    ("\x1b[48;2;1;2;3m", "[BRi3g1.2.3]", "[Ug1.2.3] no Last"),
    ("\x1b[58;5;1m", "", "no Last"),
    ("\x1b[58;2;1;2;3m", "", "no Last"),
];

#[test]
fn renditions(rt: HostRuntime) -> Result<(), Fail> {
    all_change(&rt, RENDITIONS)
}

// From line 1, with margins at lines 3 and 4.
const MARGINS: &[(&str, &str)] = &[
    ("\x1b[A", ""),
    ("\x1b[9A", ""),
    ("\x1b[2B", "at 3 1"),
    ("\x1b[9B", "at 4 1"),
    ("\x1b[6H\x1b[A", "at 5 1"),
    ("\x1b[6H\x1b[9A", "at 3 1"),
    ("\x1b[5H\x1b[9B", "at 6 1"),
    ("\x1b[3H\x1b[9A", "at 3 1"),
    ("\x1b[6H\x1b[9F", "at 3 1"),
    ("\x1b[9E", "at 4 1"),
    ("\x1b[9e", "at 6 1"),
    ("\x1b[9d", "at 6 1"),
    ("\x1b[L", ""),
    ("\x1b[M", ""),
    ("\x1b[6H\x1b[L", "at 6 1"),
    ("\x1b[6H\x1b[M", "at 6 1"),
    ("\x1b[3H\x1b[L", "3: 4:cc at 3 1"),
    ("\x1b[4H\x1b[2M", "4: at 4 1"),
    ("\x1b[2H\x1bD\x1bD", "at 4 1"),
    ("\x1b[4H\x1bD", "3:dd 4: at 4 1"),
    ("\x1b[6H\x1bD", "at 6 1"),
    ("\x1b[6H\n", "at 6 1"),
    ("\x1bM", ""),
    ("\x1b[3H\x1bM", "3: 4:cc at 3 1"),
    ("\x1b[5H\x1bM", "at 4 1"),
    ("\x1b[6;12Hxy", "6:yf {9}x at 6 2 last y"),
    ("\x1b[4;12Hxy", "3:dd {9}x 4:y at 4 2 last y"),
    ("\x1b[1J", "1: a"),
    ("\x1b[4H\x1b[J", "4-6: at 4 1"),
    ("\x1b[S", "3:dd 4:"),
    ("\x1b[2T", "3-4:"),
    ("\x1b8", ""),
    ("\x1b[?6h\x1b[9;9H", "at 4 9 +DECOM"),
    ("\x1b[?6h\x1b[9A", "at 3 1 +DECOM"),
];

#[test]
fn margins(rt: HostRuntime) -> Result<(), Fail> {
    all_change_from(&rt, ABOVE, MARGINS)
}
