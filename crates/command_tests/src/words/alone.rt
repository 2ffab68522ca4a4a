//! A recording of another form, which stands alone in place of a pair.
use super::{compare_left, told, words_of};
use command_line::{Job, Measure, Player, Print, Source, read_words};
use std::process::Abort;
use std::test::Fail;
use vt_term::Profile;

/// Sees that a line is read as a job over the path `s` alone.
fn compare_alone<R: Abort + AllocGlobal>(rt: &R, line: &str, job: Job) -> Result<(), Fail> {
    let words = words_of(rt.alloc(), line)?;
    let read = match read_words(rt.alloc(), words.as_slice()) {
        Ok(read) => read,
        Err(fault) => panic!(rt; "{line:?} is a command line, and not refused for {fault}"),
    };
    let paths = [read.paths[0].as_str(), read.paths[1].as_str()];
    assert_eq!(rt;
        (read.job, read.source, paths),
        (job, Source::Recording, ["s", ""]),
        "{line:?}"
    );
    Ok(())
}

/// The screen of a terminal after a second.
const fn screen(player: Player) -> Job {
    Job::Screen {
        at: 1_000_000,
        print: Print::Plain(player),
    }
}

#[test]
fn reads_recordings_that_stand_alone(rt: HostRuntime) -> Result<(), Fail> {
    let size = Measure {
        columns: 9,
        lines: 3,
    };
    let rows = [
        ("typetool info s", Job::Info),
        ("typetool due s --at=1", Job::Due { at: 1_000_000 }),
        ("typetool screen --at=1 s", screen(Player::Today(None))),
        (
            "typetool screen --at=1 --size 9x3 s",
            screen(Player::Today(Some(size))),
        ),
        (
            "typetool screen s --profile=vt102 --at=1",
            screen(Player::Vt(Profile::Vt102)),
        ),
        (
            "typetool screen s --profile=auto --at=1",
            screen(Player::Auto(None)),
        ),
        (
            "typetool find a s",
            Job::Find {
                from: None,
                to: 1_000_000_000_000_000_000,
                player: Player::Today(None),
            },
        ),
        (
            "typetool session s",
            Job::Session {
                every: 100,
                player: Player::Today(None),
            },
        ),
    ];
    for (line, job) in &rows {
        compare_alone(&rt, line, *job)?;
    }
    Ok(())
}

#[test]
fn a_pair_stands_in_two_files(rt: HostRuntime) -> Result<(), Fail> {
    let words = words_of(rt.alloc(), "typetool info s t")?;
    let source = match read_words(rt.alloc(), words.as_slice()) {
        Ok(read) => Some(read.source),
        Err(_) => None,
    };
    assert_eq!(rt; source, Some(Source::Pair));
    Ok(())
}

#[test]
fn refuses_a_pair_that_is_to_be_written_of_one_file(rt: HostRuntime) -> Result<(), Fail> {
    for line in [
        "typetool save s",
        "typetool mend s u v",
        "typetool redact a s u v",
        "typetool find a",
        "typetool info s t u",
    ] {
        compare_left(&rt, line)?;
    }
    let words = words_of(
        rt.alloc(),
        "typetool screen --at=1 --profile=vt100 --size=9x3 s",
    )?;
    let told = told(rt.alloc(), words.as_slice())?;
    assert_eq!(rt;
        told.as_str(),
        "bad size: 2x1 to 1000x500, with --profile xterm"
    );
    Ok(())
}
