//! The flag `--every` of sessions.
use super::{compare_job, compare_left, told, words_of};
use command_line::{Job, Player};
use std::test::Fail;
use vt_term::Profile;

#[test]
fn every_is_read(rt: HostRuntime) -> Result<(), Fail> {
    let rows = [
        ("typetool session s t", 100),
        ("typetool session --every=1 s t", 1),
        ("typetool session s t --every 1000000", 1_000_000),
        ("typetool session --every=000000000000000000000007 s t", 7),
    ];
    let player = Player::Vt(Profile::Vt100);
    for (line, every) in rows {
        compare_job(&rt, line, Job::Session { every, player })?;
    }
    Ok(())
}

/// Out of the range, or not in digits alone.
#[test]
fn every_is_refused(rt: HostRuntime) -> Result<(), Fail> {
    for line in [
        "typetool session --every=0 s t",
        "typetool session --every=1000001 s t",
        "typetool session --every=x s t",
        "typetool session --every= s t",
        "typetool session --every=-1 s t",
        "typetool session --every=1.5 s t",
        "typetool session --every=99999999999999999999999 s t",
        "typetool session s t --every=+5",
    ] {
        let words = words_of(rt.alloc(), line)?;
        let told = told(rt.alloc(), words.as_slice())?;
        assert_eq!(rt;
            told.as_str(),
            "bad number of chunks: 1 to 1000000",
            "{line:?}"
        );
    }
    Ok(())
}

/// clap takes it for a flag.
#[test]
fn every_with_a_hyphen_is_left_to_clap(rt: HostRuntime) -> Result<(), Fail> {
    compare_left(&rt, "typetool session --every -1 s t")
}
