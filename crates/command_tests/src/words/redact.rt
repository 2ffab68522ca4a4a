//! The text of `redact`, and its terminal.
use super::{told, words_from};
use command_line::{Job, Measure, Player, read_words};
use std::test::Fail;
use vt_term::Profile;

#[test]
fn reads_redact(rt: HostRuntime) -> Result<(), Fail> {
    for (line, player) in [
        (
            ["typetool", "redact", "é x", "s", "t", "u", "v"].as_slice(),
            Player::Vt(Profile::Vt100),
        ),
        (
            &[
                "typetool",
                "redact",
                "--profile=vt102",
                "é x",
                "s",
                "t",
                "u",
                "v",
            ],
            Player::Vt(Profile::Vt102),
        ),
        (
            &[
                "typetool",
                "redact",
                "--profile=xterm",
                "é x",
                "s",
                "t",
                "u",
                "v",
            ],
            Player::Today(None),
        ),
        (
            &[
                "typetool",
                "redact",
                "--profile=xterm",
                "--size=2x1",
                "é x",
                "s",
                "t",
                "u",
                "v",
            ],
            Player::Today(Some(Measure {
                columns: 2,
                lines: 1,
            })),
        ),
    ] {
        let words = words_from(rt.alloc(), line)?;
        match read_words(rt.alloc(), words.as_slice()) {
            Ok(read) => assert_eq!(rt;
                (read.job, read.text.as_slice(), read.paths.len()),
                (Job::Redact { player }, ['é', ' ', 'x'].as_slice(), 4),
                "{line:?}"
            ),
            Err(fault) => panic!(rt; "{line:?} is a command line, and not refused for {fault}"),
        }
    }
    Ok(())
}

/// A flag, a text, and what the line is refused for.
const REFUSED: [(&str, &str, &str); 7] = [
    ("--profile=vt100", "", "bad text"),
    ("--profile=vt100", "  ", "bad text"),
    ("--profile=vt100", "a*b", "bad text"),
    ("--profile=vt100", "a\nb", "bad text"),
    (
        "--profile=vt220",
        "*",
        "bad profile: vt100, vt102, xterm or auto",
    ),
    (
        "--size=80x24",
        "*",
        "bad size: 2x1 to 1000x500, with --profile xterm",
    ),
    ("--profile=xterm", "*", "bad text"),
];

#[test]
fn refuses_what_cannot_be_taken_out(rt: HostRuntime) -> Result<(), Fail> {
    for (flag, text, wanted) in REFUSED {
        let line = ["typetool", "redact", flag, text, "s", "t", "u", "v"];
        let words = words_from(rt.alloc(), &line)?;
        let told = told(rt.alloc(), words.as_slice())?;
        assert_eq!(rt; told.as_str(), wanted, "{flag} {text:?}");
    }
    Ok(())
}
