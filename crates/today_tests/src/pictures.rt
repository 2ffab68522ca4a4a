//! What is drawn, part by part.
use crate::files::{Drawn, drawn_of, fed, file_of};
use std::test::Fail;
use tape_core::Watched;
use tape_tests::devices::{Writing, small_writer};
use xterm_picture::picture;

/// The cursor's frame on line 1 where it stands behind so many cells.
const HOME: &str =
    "<g transform=\"translate(0 0)\"><path class=\"p\" d=\"M0 0h10v20h-10zm1 1v18h8v-18z\"/><path d=\"M1 1h8v18h-8zm1 1v16h6v-16z\"/></g>";

/// The same, hidden.
const HIDDEN: &str = "<g transform=\"translate(0 0)\"></g>";

const PICTURES: [Drawn; 13] = [
    // Nothing on the screen.
    Drawn {
        text: "",
        reversed: false,
        plain: "\n\n\n",
        grounds: "",
        rows: &[],
        cursor: HOME,
    },
    // Bright, faint, reversed, drawn, with a mark, of width 2, of a colour of its own, crossed out.
    Drawn {
        text: "\x1b[1;31mab\x1b[0;2;44m\u{65e5}\x1b[7m\u{2500}e\u{301}\x1b[m\r\n\x1b[38;2;1;2;3;9m<\u{1f600}\x1b[m",
        reversed: false,
        plain: "ab\u{65e5}\u{2500}e\u{301}\n&lt;\u{1f600}\n\n",
        grounds: "<path fill=\"#3564c8\" d=\"M20 0h20v20h-20z\"/><path d=\"M40 0h20v20h-20z\"/>",
        rows: &[
            "<text y=\"15\"><tspan class=\"b\" fill=\"#ff8078\" x=\"0 10\">ab</tspan><tspan fill-opacity=\".7\" x=\"20\">\u{65e5}</tspan><tspan class=\"n\" x=\"40\">\u{2500}</tspan><tspan fill=\"#3564c8\" fill-opacity=\".7\" x=\"50\">e\u{301}</tspan></text><path fill=\"#3564c8\" fill-opacity=\".7\" d=\"M40 0m0 9h10v2h-10z\"/>",
            "<text y=\"15\"><tspan fill=\"#010203\" x=\"0\">&lt;</tspan><tspan fill=\"#010203\" x=\"10\">\u{1f600}</tspan></text><path fill=\"#010203\" d=\"M0 9h10v2h-10z\"/><path fill=\"#010203\" d=\"M10 9h20v2h-20z\"/>",
        ],
        cursor: "<g transform=\"translate(0 20)\"><path class=\"p\" d=\"M30 0h10v20h-10zm1 1v18h8v-18z\"/><path d=\"M31 1h8v18h-8zm1 1v16h6v-16z\"/></g>",
    },
    // A reversed screen: ink and ground change their classes, colours don't.
    Drawn {
        text: "\x1b[?5h\x1b[7ma\x1b[27;33mb\x1b[H",
        reversed: true,
        plain: "ab\n\n\n",
        grounds: "<path d=\"M0 0h10v20h-10z\"/>",
        rows: &[
            "<text y=\"15\"><tspan class=\"i\" x=\"0\">a</tspan><tspan fill=\"#e0bc48\" x=\"10\">b</tspan></text>",
        ],
        cursor: "<g transform=\"translate(0 0)\"><path class=\"i\" d=\"M0 0h10v20h-10zm1 1v18h8v-18z\"/><path d=\"M1 1h8v18h-8zm1 1v16h6v-16z\"/></g>",
    },
    // Classes in their order; lines under and through.
    Drawn {
        text: "\x1b[1;3;5;4;9mxy\x1b[H",
        reversed: false,
        plain: "xy\n\n\n",
        grounds: "",
        rows: &[
            "<text y=\"15\"><tspan class=\"b t k\" x=\"0 10\">xy</tspan></text><path class=\"k\" d=\"M0 17h20v2h-20zM0 9h20v2h-20z\"/>",
        ],
        cursor: HOME,
    },
    // Concealed: the text stays, without letters and strokes, and so does its ground.
    Drawn {
        text: "\x1b[8;4;41ma\u{2500}\x1b[H",
        reversed: false,
        plain: "a\u{2500}\n\n\n",
        grounds: "<path fill=\"#d64d4d\" d=\"M0 0h20v20h-20z\"/>",
        rows: &["<text y=\"15\"></text>"],
        cursor: HOME,
    },
    // Braille: all dots, one, none; a hidden cursor.
    Drawn {
        text: "\u{28ff}\u{2801}\u{2800}\x1b[?25l\x1b[H",
        reversed: false,
        plain: "\u{28ff}\u{2801}\u{2800}\n\n\n",
        grounds: "",
        rows: &[
            "<text y=\"15\"><tspan class=\"n\" x=\"0 10 20\">\u{28ff}\u{2801}\u{2800}</tspan></text><path d=\"M0 0m1 1h3v3h-3zm0 5h3v3h-3zm0 5h3v3h-3zm5-10h3v3h-3zm0 5h3v3h-3zm0 5h3v3h-3zm-5 5h3v3h-3zm5 0h3v3h-3zM10 0m1 1h3v3h-3zM20 0\"/>",
        ],
        cursor: HIDDEN,
    },
    // The cursor on the right half of a character begins at its left one.
    Drawn {
        text: "a\u{65e5}\x1b[1;3H",
        reversed: false,
        plain: "a\u{65e5}\n\n\n",
        grounds: "",
        rows: &["<text y=\"15\"><tspan x=\"0\">a</tspan><tspan x=\"10\">\u{65e5}</tspan></text>"],
        cursor: "<g transform=\"translate(0 0)\"><path class=\"p\" d=\"M10 0h20v20h-20zm1 1v18h18v-18z\"/><path d=\"M11 1h18v18h-18zm1 1v16h16v-16z\"/></g>",
    },
    // On its left half too.
    Drawn {
        text: "a\u{65e5}\x1b[1;2H",
        reversed: false,
        plain: "a\u{65e5}\n\n\n",
        grounds: "",
        rows: &["<text y=\"15\"><tspan x=\"0\">a</tspan><tspan x=\"10\">\u{65e5}</tspan></text>"],
        cursor: "<g transform=\"translate(0 0)\"><path class=\"p\" d=\"M10 0h20v20h-20zm1 1v18h18v-18z\"/><path d=\"M11 1h18v18h-18zm1 1v16h16v-16z\"/></g>",
    },
    // Letters that stand alone, of which a run goes on: a soft hyphen, one above U+FFFF, two of width 2.
    Drawn {
        text: "\x1b[4ma\u{ad}bc\u{1d400}d\u{65e5}\u{672c}\x1b[H",
        reversed: false,
        plain: "a\u{ad}bc\u{1d400}d\u{65e5}\u{672c}\n\n\n",
        grounds: "",
        rows: &[
            "<text y=\"15\"><tspan x=\"0\">a</tspan><tspan x=\"10\">\u{ad}</tspan><tspan x=\"20 30\">bc</tspan><tspan x=\"40\">\u{1d400}</tspan><tspan x=\"50\">d</tspan><tspan x=\"60\">\u{65e5}</tspan><tspan x=\"80\">\u{672c}</tspan></text><path d=\"M0 17h60v2h-60z\"/><path d=\"M60 17h40v2h-40z\"/>",
        ],
        cursor: HOME,
    },
    // Each cell with marks is a run, and isn't drawn.
    Drawn {
        text: "\x1b[4me\u{301}o\u{308}\u{2500}\u{301}\u{2500}\x1b[H",
        reversed: false,
        plain: "e\u{301}o\u{308}\u{2500}\u{301}\u{2500}\n\n\n",
        grounds: "",
        rows: &[
            "<text y=\"15\"><tspan x=\"0\">e\u{301}</tspan><tspan x=\"10\">o\u{308}</tspan><tspan x=\"20\">\u{2500}\u{301}</tspan><tspan class=\"n\" x=\"30\">\u{2500}</tspan></text><path d=\"M0 17h10v2h-10z\"/><path d=\"M10 17h10v2h-10z\"/><path d=\"M20 17h10v2h-10z\"/><path d=\"M30 0m0 9h10v2h-10zM30 17h10v2h-10z\"/>",
        ],
        cursor: HOME,
    },
    // Grounds that are written alike are one, whatever told them; a bold, faint and drawn character.
    Drawn {
        text: "\x1b[41ma\x1b[48;2;214;77;77mb\x1b[44mc\x1b[0;1;2;32m\u{2500}\x1b[H",
        reversed: false,
        plain: "abc\u{2500}\n\n\n",
        grounds: "<path fill=\"#d64d4d\" d=\"M0 0h20v20h-20z\"/><path fill=\"#3564c8\" d=\"M20 0h10v20h-10z\"/>",
        rows: &[
            "<text y=\"15\"><tspan x=\"0\">a</tspan><tspan x=\"10\">b</tspan><tspan x=\"20\">c</tspan><tspan class=\"b n\" x=\"30\">\u{2500}</tspan></text><path fill=\"#7fd97f\" fill-opacity=\".7\" d=\"M30 0m0 9h10v2h-10z\"/>",
        ],
        cursor: HOME,
    },
    // Cells that are erased in colour are inked, and what is printed has no space at its end.
    Drawn {
        text: "\r\n\x1b[44mx\x1b[K\x1b[H",
        reversed: false,
        plain: "\nx\n\n",
        grounds: "<path fill=\"#3564c8\" d=\"M0 20h120v20h-120z\"/>",
        rows: &[
            "",
            "<text y=\"15\"><tspan x=\"0 10 20 30 40 50 60 70 80 90 100 110\">x           </tspan></text>",
        ],
        cursor: HOME,
    },
    // What no XML may have, and what it has other words for.
    Drawn {
        text: "\u{fffe}&>\x1b[H",
        reversed: false,
        plain: "\u{fffd}&amp;&gt;\n\n\n",
        grounds: "",
        rows: &["<text y=\"15\"><tspan x=\"0 10 20\">\u{fffd}&amp;&gt;</tspan></text>"],
        cursor: HOME,
    },
];

#[test]
fn draws_what_the_terminal_shows(rt: HostRuntime) -> Result<(), Fail> {
    for drawn in &PICTURES {
        let file = drawn_of(rt.alloc(), drawn.text)?;
        let wanted = file_of(rt.alloc(), drawn)?;
        assert_eq!(rt;
            file.as_slice(),
            wanted.as_bytes(),
            "after {:?}",
            drawn.text
        );
    }
    Ok(())
}

#[test]
fn a_failing_writer_holds_a_beginning_of_the_picture(rt: HostRuntime) -> Result<(), Fail> {
    let terminal = fed(rt.alloc(), "\x1b[7ma<\u{2801}")?;
    let whole = drawn_of(rt.alloc(), "\x1b[7ma<\u{2801}")?;
    for room in [0, 1, 200, 700, 800, 1000, whole.len(), whole.len() + 1] {
        for flush_fails in [false, true] {
            let mut writer = Watched::new(small_writer(rt.alloc(), room, flush_fails));
            let answer = picture(&terminal, 500_000, &mut writer);
            let writing = Writing::of(answer, writer);
            assert_eq!(rt;
                writing.told(),
                writing.wanted(whole.as_slice()),
                "room for {room}"
            );
        }
    }
    Ok(())
}
