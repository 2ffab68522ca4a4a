//! The text of `find`, and its flags.
use super::{compare_left, told, words_from};
use command_line::{Job, Measure, Player, read_words};
use std::test::Fail;
use tape_core::limits::LAST_MOMENT;
use vt_term::Profile;

/// A line's words, what stands for `--from`, for `--to`, for `--profile` and `--size`, and the text.
const LINES: [(&[&str], Option<u64>, u64, Player, &[char]); 6] = [
    (
        &["typetool", "find", "ab", "s", "t"],
        None,
        LAST_MOMENT,
        Player::Vt(Profile::Vt100),
        &['a', 'b'],
    ),
    (
        &[
            "typetool",
            "find",
            "--profile",
            "vt102",
            "--from=1.5",
            "--to",
            "2",
            " a ",
            "s",
            "t",
        ],
        Some(1_500_000),
        2_000_000,
        Player::Vt(Profile::Vt102),
        &[' ', 'a', ' '],
    ),
    (
        &["typetool", "find", "--to=3", "--", "--é", "s", "t"],
        None,
        3_000_000,
        Player::Vt(Profile::Vt100),
        &['-', '-', 'é'],
    ),
    (
        &["typetool", "find", "s", "─\u{a0}", "t", "--from", "0"],
        Some(0),
        LAST_MOMENT,
        Player::Vt(Profile::Vt100),
        &['s'],
    ),
    (
        &["typetool", "find", "--profile=xterm", "ab", "s", "t"],
        None,
        LAST_MOMENT,
        Player::Today(None),
        &['a', 'b'],
    ),
    (
        &[
            "typetool",
            "find",
            "--profile",
            "xterm",
            "--size",
            "100x30",
            "ab",
            "s",
            "t",
        ],
        None,
        LAST_MOMENT,
        Player::Today(Some(Measure {
            columns: 100,
            lines: 30,
        })),
        &['a', 'b'],
    ),
];

#[test]
fn reads_find(rt: HostRuntime) -> Result<(), Fail> {
    for (line, from, to, player, text) in LINES {
        let words = words_from(rt.alloc(), line)?;
        let job = Job::Find { from, to, player };
        match read_words(rt.alloc(), words.as_slice()) {
            Ok(read) => assert_eq!(rt;
                (read.job, read.text.as_slice(), read.paths.len()),
                (job, text, 2),
                "{line:?}"
            ),
            Err(fault) => panic!(rt; "{line:?} is a command line, and not refused for {fault}"),
        }
    }
    Ok(())
}

/// Words that clap takes, and what is told of them: the text is judged last.
const UNREADABLE: [(&[&str], &str); 8] = [
    (&["typetool", "find", "", "s", "t"], "bad text"),
    (&["typetool", "find", "  ", "s", "t"], "bad text"),
    (&["typetool", "find", "a\tb", "s", "t"], "bad text"),
    (&["typetool", "find", "a\u{7f}", "s", "t"], "bad text"),
    (&["typetool", "find", "\u{80}a", "s", "t"], "bad text"),
    (&["typetool", "find", "\u{9f}", "s", "t"], "bad text"),
    (
        &["typetool", "find", "--profile=x", "--to=x", " ", "s", "t"],
        "bad seconds",
    ),
    (
        &["typetool", "find", "--profile=x", " ", "s", "t"],
        "bad profile: vt100, vt102, xterm or auto",
    ),
];

#[test]
fn refuses_texts_that_cannot_stand(rt: HostRuntime) -> Result<(), Fail> {
    for (line, wanted) in UNREADABLE {
        let words = words_from(rt.alloc(), line)?;
        let told = told(rt.alloc(), words.as_slice())?;
        assert_eq!(rt; told.as_str(), wanted, "{line:?}");
    }
    Ok(())
}

#[test]
fn leaves_mistakes_of_find_to_clap(rt: HostRuntime) -> Result<(), Fail> {
    for line in [
        "typetool find s",
        "typetool find ab s t u",
        "typetool find --at 1 ab s t",
        "typetool find -ab s t",
        "typetool find --to 1 --to 1 ab s t",
    ] {
        compare_left(&rt, line)?;
    }
    Ok(())
}
