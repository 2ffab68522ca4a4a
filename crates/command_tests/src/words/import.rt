//! The words of `import`.
use super::{compare_job, compare_left};
use command_line::Job;
use std::test::Fail;

#[test]
fn reads_import(rt: HostRuntime) -> Result<(), Fail> {
    for line in ["typetool import s t u", "typetool import -- s t u"] {
        compare_job(&rt, line, Job::Import)?;
    }
    Ok(())
}

#[test]
fn leaves_mistakes_of_import_to_clap(rt: HostRuntime) -> Result<(), Fail> {
    for line in [
        "typetool import s t",
        "typetool import s t u v",
        "typetool import --last s t u",
        "typetool import --profile xterm s t u",
        "typetool import --size=80x24 s t u",
    ] {
        compare_left(&rt, line)?;
    }
    Ok(())
}
