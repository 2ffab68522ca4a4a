//! The flags of `mend`.
use super::{compare_job, compare_left, told, words_of};
use command_line::Job;
use std::test::Fail;
use tape_mend::Header;

#[test]
fn reads_mend(rt: HostRuntime) -> Result<(), Fail> {
    let rows = [
        ("typetool mend s t u v", Header::Kept),
        ("typetool mend --last s t u v", Header::Last),
        ("typetool mend s t --headless u v", Header::Made),
        ("typetool mend --last -- s t u v", Header::Last),
    ];
    for (line, header) in rows {
        compare_job(&rt, line, Job::Mend { header })?;
    }
    Ok(())
}

#[test]
fn both_headers_exclude_each_other(rt: HostRuntime) -> Result<(), Fail> {
    for line in [
        "typetool mend --last --headless s t u v",
        "typetool mend s t u v --headless --last",
    ] {
        let words = words_of(rt.alloc(), line)?;
        let told = told(rt.alloc(), words.as_slice())?;
        assert_eq!(rt;
            told.as_str(),
            "--last and --headless exclude each other",
            "{line:?}"
        );
    }
    Ok(())
}

#[test]
fn leaves_mistakes_of_mend_to_clap(rt: HostRuntime) -> Result<(), Fail> {
    for line in [
        "typetool mend s t u",
        "typetool mend s t u v w",
        "typetool mend --last=1 s t u v",
        "typetool mend --last --last s t u v",
        "typetool mend --profile vt100 s t u v",
        "typetool save --last s t u v",
    ] {
        compare_left(&rt, line)?;
    }
    Ok(())
}
