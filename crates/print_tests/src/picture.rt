use crate::fed::fed;
use screen_picture::picture;
use screen_rows::{cells_of, runs_of};
use std::alloc::Global;
use std::test::Fail;
use tape_core::Watched;
use tape_tests::devices::{Writing, small_writer};

/// What is fed, and the parts of the picture that it makes.
struct Drawn {
    bytes: &'static [u8],
    wide: bool,
    reversed: bool,
    /// The plain print's first lines as they stand in XML, each with LF.
    plain: &'static str,
    grounds: &'static str,
    /// The first rows; empty ones follow.
    rows: &'static [&'static str],
    cursor: &'static str,
}

const STYLE: &str =
    "text{font:16.67px 'DejaVu Sans Mono',Menlo,Consolas,'Liberation Mono',monospace;white-space:pre}path{shape-rendering:crispEdges}.i{fill:#ddd}.p{fill:#111}.b{font-weight:bold}.n{fill:none}.k{animation:k 1s step-end infinite}@keyframes k{50%{opacity:.2}}@media print{.i{fill:#111}.p{fill:#fff}}@media print,(prefers-reduced-motion:reduce){.k{animation:none}}";

const PICTURES: [Drawn; 7] = [
    // Nothing on the screen.
    Drawn {
        bytes: b"",
        wide: false,
        reversed: false,
        plain: "",
        grounds: "",
        rows: &[],
        cursor: "<g transform=\"translate(0 0)\"><path class=\"p\" d=\"M0 0h10v20h-10zm1 1v18h8v-18z\"/><path d=\"M1 1h8v18h-8zm1 1v16h6v-16z\"/></g>",
    },
    // Bold and reversed, then drawn.
    Drawn {
        bytes: b"\x1b[1;7ma<\x1b(0q",
        wide: false,
        reversed: false,
        plain: "a&lt;\u{2500}\n",
        grounds: "M0 0h20v20h-20zM20 0h10v20h-10z",
        rows: &[
            "<g transform=\"translate(0 0)\"><text y=\"15\"><tspan class=\"b p\" x=\"0 10\">a&lt;</tspan><tspan class=\"b n\" x=\"20\">\u{2500}</tspan></text><path class=\"p\" d=\"M20 0m0 9h10v2h-10z\"/></g>",
        ],
        cursor: "<g transform=\"translate(0 0)\"><path class=\"p\" d=\"M30 0h10v20h-10zm1 1v18h8v-18z\"/><path d=\"M31 1h8v18h-8zm1 1v16h6v-16z\"/></g>",
    },
    // Double sizes, and the cursor on one of them.
    Drawn {
        bytes: b"\x1b#3\x1b[7mA\r\n\x1b#4A\r\n\x1b#6\x1b[m>&B",
        wide: false,
        reversed: false,
        plain: "A\nA\n&gt;&amp;B\n",
        grounds: "M0 0h20v20h-20zM0 20h20v20h-20z",
        rows: &[
            "<svg y=\"0\" width=\"1320\" height=\"20\" viewBox=\"0 0 660 10\"><text y=\"15\"><tspan class=\"p\" x=\"0\">A</tspan></text></svg>",
            "<svg y=\"20\" width=\"1320\" height=\"20\" viewBox=\"0 10 660 10\"><text y=\"15\"><tspan class=\"p\" x=\"0\">A</tspan></text></svg>",
            "<g transform=\"matrix(2 0 0 1 0 40)\"><text y=\"15\"><tspan x=\"0 10 20\">&gt;&amp;B</tspan></text></g>",
        ],
        cursor: "<g transform=\"matrix(2 0 0 1 0 40)\"><path class=\"p\" d=\"M30 0h10v20h-10zm1 1v18h8v-18z\"/><path d=\"M31 1h8v18h-8zm1 1v16h6v-16z\"/></g>",
    },
    // A half of double height has the cursor.
    Drawn {
        bytes: b"\x1b#4",
        wide: false,
        reversed: false,
        plain: "",
        grounds: "",
        rows: &["<svg y=\"0\" width=\"1320\" height=\"20\" viewBox=\"0 10 660 10\"></svg>"],
        cursor: "<svg y=\"0\" width=\"1320\" height=\"20\" viewBox=\"0 10 660 10\"><path class=\"p\" d=\"M0 0h10v20h-10zm1 1v18h8v-18z\"/><path d=\"M1 1h8v18h-8zm1 1v16h6v-16z\"/></svg>",
    },
    // A reversed screen: ink and ground change their classes.
    Drawn {
        bytes: b"\x1b[?5h\x1b[7;5;4m x",
        wide: false,
        reversed: true,
        plain: " x\n",
        grounds: "M0 0h20v20h-20z",
        rows: &[
            "<g transform=\"translate(0 0)\"><text y=\"15\"><tspan class=\"k i\" x=\"0 10\"> x</tspan></text><path class=\"k i\" d=\"M0 17h20v1h-20z\"/></g>",
        ],
        cursor: "<g transform=\"translate(0 0)\"><path class=\"i\" d=\"M20 0h10v20h-10zm1 1v18h8v-18z\"/><path d=\"M21 1h8v18h-8zm1 1v16h6v-16z\"/></g>",
    },
    // 132 columns; blank cells between letters are inked, and a row that is empty has no text.
    Drawn {
        bytes: b"\x1b[?3h\r\na\x1b[4m b",
        wide: true,
        reversed: false,
        plain: "\na b\n",
        grounds: "",
        rows: &[
            "<g transform=\"translate(0 0)\"></g>",
            "<g transform=\"translate(0 20)\"><text y=\"15\"><tspan x=\"0\">a</tspan><tspan x=\"10 20\"> b</tspan></text><path d=\"M10 17h20v1h-20z\"/></g>",
        ],
        cursor: "<g transform=\"translate(0 20)\"><path class=\"p\" d=\"M30 0h10v20h-10zm1 1v18h8v-18z\"/><path d=\"M31 1h8v18h-8zm1 1v16h6v-16z\"/></g>",
    },
    // All outlines, and a glyph beside them that has none; a line under drawn glyphs.
    Drawn {
        bytes: b"\x1b(0`abjk\r\nlmnopqr\x1b[4;5ms\r\n\x1b[mtuvwxy",
        wide: false,
        reversed: false,
        plain: "\u{25c6}\u{2592}\u{2409}\u{2518}\u{2510}\n\u{250c}\u{2514}\u{253c}\u{23ba}\u{23bb}\u{2500}\u{23bc}\u{23bd}\n\u{251c}\u{2524}\u{2534}\u{252c}\u{2502}\u{2264}\n",
        grounds: "",
        rows: &[
            "<g transform=\"translate(0 0)\"><text y=\"15\"><tspan class=\"n\" x=\"0 10\">\u{25c6}\u{2592}</tspan><tspan x=\"20\">\u{2409}</tspan><tspan class=\"n\" x=\"30 40\">\u{2518}\u{2510}</tspan></text><path d=\"M0 0m5 5l4 5-4 5-4-5zM10 0m0 0h5v5h-5zm5 5h5v5h-5zm-5 5h5v5h-5zm5 5h5v5h-5z\"/><path d=\"M30 0m0 9h4v-9h2v11h-6zM40 0m0 9h6v11h-2v-9h-4z\"/></g>",
            "<g transform=\"translate(0 20)\"><text y=\"15\"><tspan class=\"n\" x=\"0 10 20 30 40 50 60\">\u{250c}\u{2514}\u{253c}\u{23ba}\u{23bb}\u{2500}\u{23bc}</tspan><tspan class=\"k n\" x=\"70\">\u{23bd}</tspan></text><path d=\"M0 0m4 9h6v2h-4v9h-2zM10 0m4 0h2v9h4v2h-6zM20 0m4 0h2v9h4v2h-4v9h-2v-9h-4v-2h4zM30 0m0 1h10v2h-10zM40 0m0 5h10v2h-10zM50 0m0 9h10v2h-10zM60 0m0 13h10v2h-10z\"/><path class=\"k\" d=\"M70 0m0 17h10v2h-10zM70 17h10v1h-10z\"/></g>",
            "<g transform=\"translate(0 40)\"><text y=\"15\"><tspan class=\"n\" x=\"0 10 20 30 40\">\u{251c}\u{2524}\u{2534}\u{252c}\u{2502}</tspan><tspan x=\"50\">\u{2264}</tspan></text><path d=\"M0 0m4 0h2v9h4v2h-4v9h-2zM10 0m4 0h2v20h-2v-9h-4v-2h4zM20 0m4 0h2v9h4v2h-10v-2h4zM30 0m0 9h10v2h-4v9h-2v-9h-4zM40 0m4 0h2v20h-2z\"/></g>",
        ],
        cursor: "<g transform=\"translate(0 40)\"><path class=\"p\" d=\"M60 0h10v20h-10zm1 1v18h8v-18z\"/><path d=\"M61 1h8v18h-8zm1 1v16h6v-16z\"/></g>",
    },
];

/// The whole file of a picture at half a second.
fn file_of(alloc: Global, drawn: &Drawn) -> Result<String, Fail> {
    let (ink, back) = if drawn.reversed {
        ("p", "i")
    } else {
        ("i", "p")
    };
    let width = if drawn.wide { "1340" } else { "820" };
    let mut text = format!(in alloc;
        "<svg xmlns=\"http://www.w3.org/2000/svg\" class=\"{ink}\" viewBox=\"-10 -10 {width} 500\" width=\"{width}\" height=\"500\" role=\"group\" aria-label=\"Screen\" xml:space=\"preserve\"><title>Screen at 0.500000 s</title><desc>"
    )?;
    text.push_str(drawn.plain)?;
    let lines = drawn.plain.bytes().filter(|byte| *byte == b'\n').count();
    for _ in lines..24 {
        text.push_str("\n")?;
    }
    text.push_str("</desc><style>")?;
    text.push_str(STYLE)?;
    text.push_str("</style>\n<path class=\"")?;
    text.push_str(back)?;
    text.push_str("\" d=\"M-10 -10h")?;
    text.push_str(width)?;
    text.push_str("v500h-")?;
    text.push_str(width)?;
    text.push_str("z\"/>\n<path d=\"")?;
    text.push_str(drawn.grounds)?;
    text.push_str("\"/>\n")?;
    push_rows(alloc, drawn.rows, &mut text)?;
    text.push_str(drawn.cursor)?;
    text.push_str("\n</svg>\n")?;
    Ok(text)
}

/// 24 rows: these, and empty ones.
fn push_rows(alloc: Global, rows: &[&str], text: &mut String) -> Result<(), Fail> {
    for row in rows {
        text.push_str(row)?;
        text.push_str("\n")?;
    }
    for line in rows.len()..24 {
        let down = 20 * line;
        let row = format!(in alloc; "<g transform=\"translate(0 {down})\"></g>\n")?;
        text.push_str(row.as_str())?;
    }
    Ok(())
}

/// The picture of a terminal that was fed these bytes, at half a second.
fn drawn_of(alloc: Global, bytes: &[u8]) -> Result<Vec<u8>, Fail> {
    let terminal = fed(alloc, bytes)?;
    let mut writer = Watched::new(Vec::new(alloc));
    picture(&terminal, 500_000, &mut writer)?;
    Ok(writer.into_inner())
}

#[test]
fn draws_what_the_terminal_shows(rt: HostRuntime) -> Result<(), Fail> {
    for drawn in &PICTURES {
        let text = drawn_of(rt.alloc(), drawn.bytes)?;
        let wanted = file_of(rt.alloc(), drawn)?;
        assert_eq!(rt;
            text.as_slice(),
            wanted.as_bytes(),
            "after {:?}",
            drawn.bytes
        );
    }
    Ok(())
}

#[test]
fn a_failing_writer_holds_a_beginning_of_the_picture(rt: HostRuntime) -> Result<(), Fail> {
    let terminal = fed(rt.alloc(), b"\x1b[7ma<")?;
    let whole = drawn_of(rt.alloc(), b"\x1b[7ma<")?;
    for room in [0, 1, 200, 700, 800, 1000, whole.len(), whole.len() + 1] {
        for flush_fails in [false, true] {
            let mut writer = Watched::new(small_writer(rt.alloc(), room, flush_fails));
            let answer = picture(&terminal, 500_000, &mut writer);
            let writing = Writing::of(answer, writer);
            assert_eq!(rt;
                writing.told(),
                writing.wanted(whole.as_slice()),
                "room for {room}"
            );
        }
    }
    Ok(())
}

#[test]
fn gives_the_runs_of_a_row(rt: HostRuntime) -> Result<(), Fail> {
    let terminal = fed(rt.alloc(), b"\x1b[1;7mab\x1b(0qq\x1b[m\x1b(Bc")?;
    let row = terminal.screen().row(1);
    let runs = runs_of(row);
    let mut told = Vec::new(rt.alloc());
    for run in runs.as_slice() {
        told.push((run.before, run.kind.number(), cells_of(row, *run).len()))?;
    }
    // Bold and reverse, the same and drawn, none of all.
    let wanted: [(u8, u8, usize); 3] = [(0, 9, 2), (2, 25, 2), (4, 0, 1)];
    assert_eq!(rt; told.as_slice(), &wanted[..]);
    Ok(())
}
