use command_line::{Job, Player, Print, VERSION, Words, WordsFault, read_words};
use std::alloc::{AllocError, Global};
use std::process::Abort;
use std::rt::Runtime;
use std::test::Fail;
use vt_term::Profile;

mod alone;
mod cuts;
mod every;
mod find;
mod flags;
mod import;
mod mend;
mod redact;
mod sizes;
mod title;

/// The words of a command line, which may have spaces in them.
fn words_from(alloc: Global, words: &[&str]) -> Result<Vec<String>, AllocError> {
    let mut all = Vec::new(alloc);
    for word in words {
        all.push(String::from_str(alloc, word)?)?;
    }
    Ok(all)
}

/// The words of a command line, with one space between.
pub fn words_of(alloc: Global, line: &str) -> Result<Vec<String>, AllocError> {
    let mut words = Vec::new(alloc);
    for word in line.split(' ') {
        words.push(String::from_str(alloc, word)?)?;
    }
    Ok(words)
}

/// Sees that a line is read as a job over the paths `s` and `t`, and others behind them.
fn compare_job(rt: &(impl Runtime<A = Global> + Abort), line: &str, job: Job) -> Result<(), Fail> {
    let words = words_of(rt.alloc(), line)?;
    let read = match read_words(rt.alloc(), words.as_slice()) {
        Ok(read) => read,
        Err(fault) => panic!(rt; "{line:?} is a command line, and not refused for {fault}"),
    };
    assert_eq!(rt; read.job, job, "{line:?}");
    let paths = [read.paths[0].as_str(), read.paths[1].as_str()];
    assert_eq!(rt; paths, ["s", "t"], "{line:?}");
    Ok(())
}

/// Lines of `due`, and their moments.
const DUE: [(&str, u64); 7] = [
    ("typetool due --at 0.5 s t", 500_000),
    ("typetool due --at=0.4999999 s t", 499_999),
    ("typetool due s t --at 12.", 12_000_000),
    ("typetool due s --at=007 t", 7_000_000),
    ("typetool due --at=0 -- s t", 0),
    (
        "./typetool due --at 1000000000000.0000001 s t",
        1_000_000_000_000_000_000,
    ),
    (
        "typetool due --at 99999999999999999999999 s t",
        1_000_000_000_000_000_000,
    ),
];

#[test]
fn reads_due(rt: HostRuntime) -> Result<(), Fail> {
    for (line, at) in &DUE {
        compare_job(&rt, line, Job::Due { at: *at })?;
    }
    Ok(())
}

/// A screen as plain text.
const fn screen(at: u64, profile: Profile) -> Job {
    Job::Screen {
        at,
        print: Print::Plain(Player::Vt(profile)),
    }
}

const fn picture(at: u64, profile: Profile) -> Job {
    Job::Picture {
        at,
        player: Player::Vt(profile),
    }
}

const fn changes(from: Option<u64>, to: u64, profile: Profile) -> Job {
    Job::Changes {
        from,
        to,
        player: Player::Vt(profile),
    }
}

const fn reports(at: u64, profile: Profile) -> Job {
    Job::Reports {
        at,
        player: Player::Vt(profile),
    }
}

#[test]
fn reads_other_jobs(rt: HostRuntime) -> Result<(), Fail> {
    let vt100 = Profile::Vt100;
    let rows = [
        ("typetool info s t", Job::Info),
        ("typetool info -- s t", Job::Info),
        (
            "typetool check s t",
            Job::Check {
                player: Player::Vt(vt100),
            },
        ),
        (
            "typetool page -- s t",
            Job::Page {
                player: Player::Vt(vt100),
            },
        ),
        (
            "typetool cast s t",
            Job::Cast {
                player: Player::Vt(vt100),
            },
        ),
        ("typetool save s t u v", Job::Save),
        ("typetool screen --at 0.5 s t", screen(500_000, vt100)),
        ("typetool screen s t --at=12", screen(12_000_000, vt100)),
        ("typetool picture --at 0.5 s t", picture(500_000, vt100)),
        (
            "typetool picture s --at=12. -- t",
            picture(12_000_000, vt100),
        ),
        (
            "typetool changes --from 0 --to 2 s t",
            changes(Some(0), 2_000_000, vt100),
        ),
        (
            "typetool changes s --to=0.5 t",
            changes(None, 500_000, vt100),
        ),
        (
            "typetool changes --to 1 --from=2.5 -- s t",
            changes(Some(2_500_000), 1_000_000, vt100),
        ),
        (
            "typetool reports --at=0.4999999 s t",
            reports(499_999, vt100),
        ),
        ("typetool reports --at 7 -- s t", reports(7_000_000, vt100)),
    ];
    for (line, job) in &rows {
        compare_job(&rt, line, *job)?;
    }
    Ok(())
}

#[test]
fn reads_transcripts(rt: HostRuntime) -> Result<(), Fail> {
    let transcript = |from, to, player| Job::Transcript { from, to, player };
    let (vt100, vt102) = (Player::Vt(Profile::Vt100), Player::Vt(Profile::Vt102));
    let rows = [
        ("typetool transcript s t", transcript(None, None, vt100)),
        (
            "typetool transcript s --from=0.5 t",
            transcript(Some(500_000), None, vt100),
        ),
        (
            "typetool transcript --to 12. s t --profile vt102",
            transcript(None, Some(12_000_000), vt102),
        ),
        (
            "typetool transcript --to=1 --from 2 --profile=xterm -- s t",
            transcript(Some(2_000_000), Some(1_000_000), Player::Today(None)),
        ),
    ];
    for (line, job) in &rows {
        compare_job(&rt, line, *job)?;
    }
    Ok(())
}

/// What words that clap takes are told: the job, or why they are none.
pub fn told(alloc: Global, words: &[String]) -> Result<String, AllocError> {
    match read_words(alloc, words) {
        Ok(read) => format!(in alloc; "{:?}", read.job),
        Err(fault) => format!(in alloc; "{fault}"),
    }
}

#[test]
fn refuses_unreadable_seconds(rt: HostRuntime) -> Result<(), Fail> {
    for seconds in [
        "", ".5", ".", "-1", "+1", "1e3", "1,5", "1.5s", "\t1", "1\t", "0x1", "-",
    ] {
        for name in ["due", "screen", "picture", "reports"] {
            let line = format!(in rt.alloc(); "typetool {name} --at={seconds} s t")?;
            let words = words_of(rt.alloc(), line.as_str())?;
            let told = told(rt.alloc(), words.as_slice())?;
            assert_eq!(rt; told.as_str(), "bad seconds", "{line:?}");
        }
    }
    Ok(())
}

#[test]
fn refuses_unreadable_seconds_of_stretches(rt: HostRuntime) -> Result<(), Fail> {
    for line in [
        "typetool changes --from=- --to=1 s t",
        "typetool changes --from= --to=1 s t",
        "typetool changes --from=1 --to=.5 s t",
        "typetool changes --to=-1 s t",
        "typetool transcript --from=- s t",
        "typetool transcript --from=1 --to= s t",
        "typetool transcript --to=1e3 s t",
    ] {
        let words = words_of(rt.alloc(), line)?;
        let told = told(rt.alloc(), words.as_slice())?;
        assert_eq!(rt; told.as_str(), "bad seconds", "{line:?}");
    }
    Ok(())
}

/// Words with spaces in them.
#[test]
fn refuses_seconds_with_blanks(rt: HostRuntime) -> Result<(), Fail> {
    for flag in ["--at= 1", "--at=1 ", "--at=1 2"] {
        let mut words = words_of(rt.alloc(), "typetool due s t")?;
        words.push(String::from_str(rt.alloc(), flag)?)?;
        let told = told(rt.alloc(), words.as_slice())?;
        assert_eq!(rt; told.as_str(), "bad seconds", "{flag:?}");
    }
    Ok(())
}

/// Sees that a line is left to clap, as a mistake.
pub fn compare_left(rt: &(impl Runtime<A = Global> + Abort), line: &str) -> Result<(), Fail> {
    let words = words_of(rt.alloc(), line)?;
    match read_words(rt.alloc(), words.as_slice()) {
        Err(WordsFault::Clap(error)) => assert!(rt; error.use_stderr(), "{line:?} asks for help"),
        Err(fault) => panic!(rt; "{line:?} is no command line, and not for {fault}"),
        Ok(read) => panic!(rt; "{line:?} is no command line, and not {:?}", read.job),
    }
    Ok(())
}

/// Lines that are none of the program's.
const MISTAKES: [&str; 43] = [
    "typetool",
    "typetool dew",
    "typetool help dew",
    "typetool due --version s t",
    "typetool --at 1 due s t",
    "typetool info",
    "typetool info --at 1 s t",
    "typetool info s t u",
    "typetool due",
    "typetool due s t",
    "typetool due --at 1",
    "typetool due --at 1 s t u",
    "typetool due --at 1 --at 1 s t",
    "typetool due --from 1 s t",
    "typetool due --at 1 --fast s t",
    "typetool due --at -1 s t",
    "typetool screen s t",
    "typetool screen --from 1 s t",
    "typetool picture s t",
    "typetool picture --at 1",
    "typetool picture --at 1 --to 1 s t",
    "typetool reports --at 1",
    "typetool reports --at 1 --escaped s t",
    "typetool changes s t",
    "typetool changes --from 1 s t",
    "typetool changes --at 1 --to 1 s t",
    "typetool changes --from=1 --from=1 --to=1 s t",
    "typetool changes --to=1 s t u",
    "typetool transcript",
    "typetool transcript --at 1 s t",
    "typetool transcript --to=1 --to=1 s t",
    "typetool page",
    "typetool page --at 1 s t",
    "typetool page s t u",
    "typetool page --title s",
    "typetool page --title a --title b s t",
    "typetool cast --title a s t",
    "typetool cast",
    "typetool cast --to 1 s t",
    "typetool save s t",
    "typetool save --at 1 s t u v",
    "typetool session --at 1 s t",
    "typetool session --every 1 --every 1 s t",
];

#[test]
fn leaves_mistakes_to_clap(rt: HostRuntime) -> Result<(), Fail> {
    for line in &MISTAKES {
        compare_left(&rt, line)?;
    }
    Ok(())
}

/// What a line that asks for help or for the version is told.
fn asked(rt: &(impl Runtime<A = Global> + Abort), line: &str) -> Result<String, Fail> {
    let words = words_of(rt.alloc(), line)?;
    match read_words(rt.alloc(), words.as_slice()) {
        Err(WordsFault::Clap(error)) => {
            assert!(rt; !error.use_stderr(), "{line:?} is a mistake");
            Ok(format!(in rt.alloc(); "{error}")?)
        }
        Err(fault) => panic!(rt; "{line:?} asks for help or the version, and not for {fault}"),
        Ok(read) => panic!(rt;
            "{line:?} asks for help or the version, and not {:?}",
            read.job
        ),
    }
}

#[test]
fn tells_its_version(rt: HostRuntime) -> Result<(), Fail> {
    for line in ["typetool --version", "typetool -V"] {
        let told = asked(&rt, line)?;
        let wanted = format!(in rt.alloc(); "typetool {VERSION}\n")?;
        assert_eq!(rt; told.as_str(), wanted.as_str(), "{line:?}");
    }
    Ok(())
}

/// The subcommand `help` tells what the flag does.
#[test]
fn helps_by_subcommand_and_flag(rt: HostRuntime) -> Result<(), Fail> {
    for (line, flag) in [
        ("typetool help", "typetool --help"),
        ("typetool help due", "typetool due --help"),
        ("typetool help screen", "typetool screen --help"),
        ("typetool help session", "typetool session --help"),
    ] {
        let told = asked(&rt, line)?;
        let wanted = asked(&rt, flag)?;
        assert_eq!(rt; told.as_str(), wanted.as_str(), "{line:?}");
    }
    Ok(())
}
