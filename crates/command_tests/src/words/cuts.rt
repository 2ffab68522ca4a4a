//! The moments, the terminal and the paths of `cut` and `excerpt`.
use super::{compare_job, compare_left, told, words_of};
use command_line::{Job, Measure, Player, read_words};
use std::test::Fail;
use vt_term::Profile;

const VT100: Player = Player::Vt(Profile::Vt100);

const VT102: Player = Player::Vt(Profile::Vt102);

const fn cut(from: u64, to: u64, player: Player) -> Job {
    Job::Cut { from, to, player }
}

const fn excerpt(from: u64, to: Option<u64>, player: Player) -> Job {
    Job::Excerpt { from, to, player }
}

/// A terminal of today of this size.
const fn sized(columns: u64, lines: u64) -> Player {
    Player::Today(Some(Measure { columns, lines }))
}

#[test]
fn reads_cuts(rt: HostRuntime) -> Result<(), Fail> {
    let rows = [
        (
            "typetool cut --from 0.5 --to 1.5 s t u v",
            cut(500_000, 1_500_000, VT100),
        ),
        (
            "typetool cut s --to=1 t --from=2. u v",
            cut(2_000_000, 1_000_000, VT100),
        ),
        (
            "typetool cut --from=0 --to=7 --profile=vt102 -- s t u v",
            cut(0, 7_000_000, VT102),
        ),
        (
            "typetool cut --from=1 --to=2 --profile=xterm --size=100x30 s t u v",
            cut(1_000_000, 2_000_000, sized(100, 30)),
        ),
        (
            "typetool cut --from=1 --to=2 --profile auto s t u v",
            cut(1_000_000, 2_000_000, Player::Auto(None)),
        ),
    ];
    for (line, job) in &rows {
        compare_job(&rt, line, *job)?;
    }
    Ok(())
}

#[test]
fn reads_excerpts(rt: HostRuntime) -> Result<(), Fail> {
    let rows = [
        ("typetool excerpt s t u v", excerpt(0, None, VT100)),
        (
            "typetool excerpt --from 2.5 s t u v",
            excerpt(2_500_000, None, VT100),
        ),
        (
            "typetool excerpt s t --to=0 u v",
            excerpt(0, Some(0), VT100),
        ),
        (
            "typetool excerpt --to=1 --from=2 --profile=vt102 -- s t u v",
            excerpt(2_000_000, Some(1_000_000), VT102),
        ),
        (
            "typetool excerpt --profile=xterm s t u v",
            excerpt(0, None, Player::Today(None)),
        ),
        (
            "typetool excerpt --from=1 --to=2 --profile=xterm --size=2x1 s t u v",
            excerpt(1_000_000, Some(2_000_000), sized(2, 1)),
        ),
    ];
    for (line, job) in &rows {
        compare_job(&rt, line, *job)?;
    }
    Ok(())
}

/// In the line's order, and without a text beside the job.
#[test]
fn reads_the_paths_of_both_pairs(rt: HostRuntime) -> Result<(), Fail> {
    for line in [
        "typetool cut --from=0 --to=1 s t u v",
        "typetool cut s t --from=0 u --to=1 v",
        "typetool excerpt s t u v",
        "typetool excerpt s --to=1 t u v --from=0",
    ] {
        let words = words_of(rt.alloc(), line)?;
        match read_words(rt.alloc(), words.as_slice()) {
            Ok(read) => {
                let mut paths = Vec::new(rt.alloc());
                for path in &read.paths {
                    paths.push(path.as_str())?;
                }
                assert_eq!(rt;
                    paths.as_slice(),
                    ["s", "t", "u", "v"].as_slice(),
                    "{line:?}"
                );
                assert!(rt; read.text.is_empty(), "{line:?}");
            }
            Err(fault) => panic!(rt; "{line:?} is a command line, and not refused for {fault}"),
        }
    }
    Ok(())
}

#[test]
fn refuses_unreadable_moments_of_cuts(rt: HostRuntime) -> Result<(), Fail> {
    for line in [
        "typetool cut --from= --to=1 s t u v",
        "typetool cut --from=0 --to=1e3 s t u v",
        "typetool cut --from=- --to=1 --profile=vt220 s t u v",
        "typetool excerpt --from=.5 s t u v",
        "typetool excerpt --to=-1 s t u v",
    ] {
        let words = words_of(rt.alloc(), line)?;
        let told = told(rt.alloc(), words.as_slice())?;
        assert_eq!(rt; told.as_str(), "bad seconds", "{line:?}");
    }
    Ok(())
}

#[test]
fn refuses_other_terminals_of_cuts(rt: HostRuntime) -> Result<(), Fail> {
    for (line, wanted) in [
        (
            "typetool cut --from=0 --to=1 --profile=vt220 s t u v",
            "bad profile: vt100, vt102, xterm or auto",
        ),
        (
            "typetool cut --from=0 --to=1 --size=80x24 s t u v",
            "bad size: 2x1 to 1000x500, with --profile xterm",
        ),
        (
            "typetool excerpt --profile= s t u v",
            "bad profile: vt100, vt102, xterm or auto",
        ),
        (
            "typetool excerpt --profile=xterm --size=1x1 s t u v",
            "bad size: 2x1 to 1000x500, with --profile xterm",
        ),
    ] {
        let words = words_of(rt.alloc(), line)?;
        let told = told(rt.alloc(), words.as_slice())?;
        assert_eq!(rt; told.as_str(), wanted, "{line:?}");
    }
    Ok(())
}

#[test]
fn leaves_mistakes_of_cuts_to_clap(rt: HostRuntime) -> Result<(), Fail> {
    for line in [
        "typetool cut s t u v",
        "typetool cut --from=0 s t u v",
        "typetool cut --to=1 s t u v",
        "typetool cut --from=0 --to=1 s t u",
        "typetool cut --from=0 --to=1 s t u v w",
        "typetool cut --from=0 --from=0 --to=1 s t u v",
        "typetool cut --at=0 --to=1 s t u v",
        "typetool cut --from=0 --to=1 --state s t u v",
        "typetool cut --from -1 --to=1 s t u v",
        "typetool excerpt s t",
        "typetool excerpt s t u",
        "typetool excerpt s t u v w",
        "typetool excerpt --to=1 --to=1 s t u v",
        "typetool excerpt --at=1 s t u v",
        "typetool excerpt --escaped s t u v",
    ] {
        compare_left(&rt, line)?;
    }
    Ok(())
}
