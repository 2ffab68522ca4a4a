//! The terminal of today and its size, as `--profile xterm` and `--size` ask for them.
use super::{compare_job, compare_left, told, words_of};
use command_line::{Job, Measure, Player, Print};
use std::test::Fail;

/// The screen of a terminal of today after a second.
const fn today(size: Option<(u64, u64)>) -> Job {
    let measure = match size {
        None => None,
        Some((columns, lines)) => Some(Measure { columns, lines }),
    };
    Job::Screen {
        at: 1_000_000,
        print: Print::Plain(Player::Today(measure)),
    }
}

#[test]
fn reads_sizes(rt: HostRuntime) -> Result<(), Fail> {
    let rows = [
        ("typetool screen --at=1 --profile=xterm s t", today(None)),
        (
            "typetool screen --at=1 --profile xterm --size 132x43 s t",
            today(Some((132, 43))),
        ),
        (
            "typetool screen --size=2x1 s t --at=1 --profile=xterm",
            today(Some((2, 1))),
        ),
        (
            "typetool screen --at=1 --size=0001000x0500 --profile=xterm s t",
            today(Some((1000, 500))),
        ),
    ];
    for (line, job) in &rows {
        compare_job(&rt, line, *job)?;
    }
    let reports = Job::Reports {
        at: 1_000_000,
        player: Player::Today(Some(Measure {
            columns: 9,
            lines: 3,
        })),
    };
    let line = "typetool reports --at=1 --profile=xterm --size=9x3 s t";
    compare_job(&rt, line, reports)?;
    let picture = Job::Picture {
        at: 1_000_000,
        player: Player::Today(None),
    };
    compare_job(&rt, "typetool picture --at=1 --profile=xterm s t", picture)?;
    let escaped = Job::Screen {
        at: 1_000_000,
        print: Print::Escaped(Player::Today(None)),
    };
    let line = "typetool screen --at=1 --escaped --profile=xterm s t";
    compare_job(&rt, line, escaped)?;
    let changes = Job::Changes {
        from: None,
        to: 1_000_000,
        player: Player::Today(None),
    };
    compare_job(&rt, "typetool changes --to=1 --profile=xterm s t", changes)
}

#[test]
fn reads_sessions_of_today(rt: HostRuntime) -> Result<(), Fail> {
    let session = |every, size| Job::Session {
        every,
        player: Player::Today(size),
    };
    let size = Measure {
        columns: 9,
        lines: 3,
    };
    let line = "typetool session --profile=xterm s t";
    compare_job(&rt, line, session(100, None))?;
    let line = "typetool session --every=7 --profile=xterm --size=9x3 s t";
    compare_job(&rt, line, session(7, Some(size)))
}

#[test]
fn reads_that_the_header_tells_the_profile(rt: HostRuntime) -> Result<(), Fail> {
    let size = Measure {
        columns: 132,
        lines: 43,
    };
    let check = |size| Job::Check {
        player: Player::Auto(size),
    };
    compare_job(&rt, "typetool check --profile=auto s t", check(None))?;
    let line = "typetool check --size 132x43 --profile auto s t";
    compare_job(&rt, line, check(Some(size)))
}

/// What a line is refused for.
const REFUSED: [(&str, &str); 19] = [
    ("screen --at=1 --profile=xterm --size=1x24", BAD_SIZE),
    ("screen --at=1 --profile=xterm --size=1001x24", BAD_SIZE),
    ("screen --at=1 --profile=xterm --size=80x0", BAD_SIZE),
    ("screen --at=1 --profile=xterm --size=80x501", BAD_SIZE),
    ("screen --at=1 --profile=xterm --size=80", BAD_SIZE),
    ("screen --at=1 --profile=xterm --size=80x", BAD_SIZE),
    ("screen --at=1 --profile=xterm --size=x24", BAD_SIZE),
    ("screen --at=1 --profile=xterm --size=80X24", BAD_SIZE),
    ("screen --at=1 --profile=xterm --size=80x24x2", BAD_SIZE),
    ("screen --at=1 --profile=xterm --size=+80x24", BAD_SIZE),
    ("screen --at=1 --size=80x24", BAD_SIZE),
    ("reports --at=1 --profile=vt102 --size=80x24", BAD_SIZE),
    ("screen --at=1 --profile=auto --size=1x24", BAD_SIZE),
    (
        "check --profile=Auto --size=1x24",
        "bad profile: vt100, vt102, xterm or auto",
    ),
    ("screen --at=x --profile=xterm --size=0x0", "bad seconds"),
    (
        "screen --at=1 --profile=XTERM --size=0x0",
        "bad profile: vt100, vt102, xterm or auto",
    ),
    (
        "session --every=0 --profile=x",
        "bad number of chunks: 1 to 1000000",
    ),
    ("session --profile=vt102 --size=80x24", BAD_SIZE),
    ("find --size=80x24 a", BAD_SIZE),
];

const BAD_SIZE: &str = "bad size: 2x1 to 1000x500, with --profile xterm";

#[test]
fn refuses_sizes(rt: HostRuntime) -> Result<(), Fail> {
    for (part, wanted) in REFUSED {
        let line = format!(in rt.alloc(); "typetool {part} s t")?;
        let words = words_of(rt.alloc(), line.as_str())?;
        let told = told(rt.alloc(), words.as_slice())?;
        assert_eq!(rt; told.as_str(), wanted, "{part:?}");
    }
    compare_left(&rt, "typetool mend --size=80x24 s t u v")
}
