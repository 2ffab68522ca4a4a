//! The flags `--profile`, `--escaped` and `--state`, and with which subcommands they go.
use super::{changes, compare_job, compare_left, picture, reports, screen, told, words_of};
use command_line::{Job, Player, Print};
use std::test::Fail;
use vt_term::Profile;

#[test]
fn reads_profiles_and_the_escaped_print(rt: HostRuntime) -> Result<(), Fail> {
    let (vt100, vt102) = (Profile::Vt100, Profile::Vt102);
    let escaped = Job::Screen {
        at: 1_000_000,
        print: Print::Escaped(Player::Vt(vt100)),
    };
    let rows = [
        ("typetool screen --at=1 --escaped s t", escaped),
        (
            "typetool screen s t --profile vt102 --at=1",
            screen(1_000_000, vt102),
        ),
        (
            "typetool picture --profile=vt102 --at=1 s t",
            picture(1_000_000, vt102),
        ),
        (
            "typetool changes --profile=vt102 --to=1 s t",
            changes(None, 1_000_000, vt102),
        ),
        (
            "typetool reports --profile=vt100 --at=1 s t",
            reports(1_000_000, vt100),
        ),
    ];
    for (line, job) in &rows {
        compare_job(&rt, line, *job)?;
    }
    Ok(())
}

/// The text of a state, of each kind of terminal.
#[test]
fn reads_the_state_of_a_screen(rt: HostRuntime) -> Result<(), Fail> {
    for (line, player) in [
        (
            "typetool screen --at=1 --state s t",
            Player::Vt(Profile::Vt100),
        ),
        (
            "typetool screen --profile=vt102 s --state t --at=1",
            Player::Vt(Profile::Vt102),
        ),
        (
            "typetool screen --at=1 --profile=xterm --state -- s t",
            Player::Today(None),
        ),
        (
            "typetool screen --at=1 --profile=auto --state s t",
            Player::Auto(None),
        ),
    ] {
        let print = Print::State(player);
        compare_job(
            &rt,
            line,
            Job::Screen {
                at: 1_000_000,
                print,
            },
        )?;
    }
    Ok(())
}

/// Behind the faults of the moment and of the terminal.
#[test]
fn both_texts_of_a_screen_exclude_each_other(rt: HostRuntime) -> Result<(), Fail> {
    for (flags, wanted) in [
        (
            "--at=1 --escaped --state",
            "--state and --escaped exclude each other",
        ),
        (
            "--state --profile=xterm --at=1 --escaped",
            "--state and --escaped exclude each other",
        ),
        ("--at= --escaped --state", "bad seconds"),
        (
            "--at=1 --escaped --state --profile=vt220",
            "bad profile: vt100, vt102, xterm or auto",
        ),
        (
            "--at=1 --escaped --state --size=80x24",
            "bad size: 2x1 to 1000x500, with --profile xterm",
        ),
    ] {
        let line = format!(in rt.alloc(); "typetool screen {flags} s t")?;
        let words = words_of(rt.alloc(), line.as_str())?;
        let told = told(rt.alloc(), words.as_slice())?;
        assert_eq!(rt; told.as_str(), wanted, "{line:?}");
    }
    Ok(())
}

#[test]
fn reads_profiles_of_whole_recordings(rt: HostRuntime) -> Result<(), Fail> {
    let (vt100, vt102) = (Profile::Vt100, Profile::Vt102);
    let session = |every, profile| Job::Session {
        every,
        player: Player::Vt(profile),
    };
    let rows = [
        (
            "typetool page --profile=vt102 s t",
            Job::Page {
                player: Player::Vt(vt102),
            },
        ),
        (
            "typetool cast s --profile vt102 t",
            Job::Cast {
                player: Player::Vt(vt102),
            },
        ),
        ("typetool session s t", session(100, vt100)),
        (
            "typetool session --every 007 --profile=vt102 s t",
            session(7, vt102),
        ),
    ];
    for (line, job) in &rows {
        compare_job(&rt, line, *job)?;
    }
    Ok(())
}

#[test]
fn refuses_other_profiles(rt: HostRuntime) -> Result<(), Fail> {
    for line in [
        "typetool screen --at=1 --profile= s t",
        "typetool screen --at=1 --profile=vt220 s t",
        "typetool screen --at=1 --profile=VT102 s t",
        "typetool screen --at=1 --profile=vt1024 s t",
    ] {
        let words = words_of(rt.alloc(), line)?;
        let told = told(rt.alloc(), words.as_slice())?;
        assert_eq!(rt;
            told.as_str(),
            "bad profile: vt100, vt102, xterm or auto",
            "{line:?}"
        );
    }
    Ok(())
}

#[test]
fn leaves_misplaced_flags_to_clap(rt: HostRuntime) -> Result<(), Fail> {
    for line in [
        "typetool due --at=1 --profile=vt100 s t",
        "typetool info --profile=vt100 s t",
        "typetool save --profile=vt100 s t u v",
        "typetool changes --to=1 --escaped s t",
        "typetool picture --at=1 --escaped s t",
        "typetool reports --at=1 --escaped s t",
        "typetool page --escaped s t",
        "typetool session --escaped s t",
        "typetool screen --at=1 --escaped=true s t",
        "typetool screen --at=1 --state=true s t",
        "typetool screen --at=1 --state --state s t",
        "typetool screen --state s t",
        "typetool changes --to=1 --state s t",
        "typetool picture --at=1 --state s t",
        "typetool page --state s t",
        "typetool session --state s t",
        "typetool screen --at=1 --profile=vt100 --profile=vt100 s t",
    ] {
        compare_left(&rt, line)?;
    }
    Ok(())
}
