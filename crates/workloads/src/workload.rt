//! The workloads: which jobs, on which recordings.

use crate::editors::put_editor;
use crate::jobs::{END, do_job};
use crate::logs::{put_keys, put_log, put_unplayed};
use crate::recorder::{Kind, Recorder};
use crate::requests::{edits, questions};
use command_line::{Job, Player, Print as Printed};
use std::alloc::{AllocError, Global};
use std::rt::Env;
use std::{env, io};
use vt_term::Profile;

/// What is looked for.
const ERROR: &[char] = &['e', 'r', 'r', 'o', 'r'];

const THE: &[char] = &['t', 'h', 'e'];

const NOWHERE: &[char] = &['n', 'o', 'w', 'h', 'e', 'r', 'e'];

/// It stands in some small recordings, and in others not.
const NO_S: &[char] = &['n', 'o', ' ', 's'];

/// The logs in which a text is looked for that stands there often.
const LOGS: [u64; 7] = [1, 24, 26, 28, 30, 32, 34];

/// What is asked for: the seed, and how much of a workload, in percent.
#[derive(Clone, Copy, Debug)]
struct Asked {
    seed: u64,
    percent: usize,
}

impl Asked {
    /// So much of a number.
    fn of(self, count: usize) -> usize {
        count.saturating_mul(self.percent) / 100
    }

    /// The seed of one of its recordings.
    fn seed_of(self, number: u64) -> u64 {
        self.seed.wrapping_mul(64).wrapping_add(number)
    }

    /// The seed of one of up to 1,024 small recordings.
    fn archive_seed_of(self, number: u64) -> u64 {
        self.seed.wrapping_mul(1024).wrapping_add(number)
    }
}

/// Does what the words of the command line ask for; says whether they ask for something.
pub fn start<R: Env + Print + AllocGlobal>(rt: &R) -> io::Result<bool> {
    let words: Vec<String> = env::args(rt)?.collect(rt.alloc())?;
    match words.as_slice() {
        [_, name, seed, percent] => match (seed.parse::<u64>(), percent.parse::<usize>()) {
            (Ok(seed), Ok(percent)) => run(rt, name.as_str(), Asked { seed, percent }),
            _ => Ok(false),
        },
        _ => Ok(false),
    }
}

/// Runs a workload, or all; says whether there is one of that name.
fn run<R: Print + AllocGlobal>(rt: &R, name: &str, asked: Asked) -> io::Result<bool> {
    match name {
        "find_log" => find_log(rt, asked)?,
        "find_screens" => find_screens(rt, asked)?,
        "find_vt100" => find_vt100(rt, asked)?,
        "pages" => pages(rt, asked)?,
        "changes" => changes(rt, asked)?,
        "sessions" => sessions(rt, asked)?,
        "all" => {
            find_log(rt, asked)?;
            find_screens(rt, asked)?;
            find_vt100(rt, asked)?;
            pages(rt, asked)?;
            changes(rt, asked)?;
            sessions(rt, asked)?;
        }
        _ => return Ok(false),
    }
    Ok(true)
}

/// The terminal that plays a recording of this kind.
fn player_of(kind: Kind) -> Player {
    match kind {
        Kind::Vt100 => Player::Vt(Profile::Vt100),
        Kind::Today => Player::Today(None),
    }
}

/// A log of so many lines.
fn log(
    alloc: Global,
    seed: u64,
    kind: Kind,
    size: (usize, usize),
    count: usize,
) -> Result<Recorder, AllocError> {
    let mut recorder = Recorder::new(alloc, seed, kind, size.0, size.1)?;
    put_log(&mut recorder, count)?;
    Ok(recorder)
}

/// An editor with so many keys.
fn editor(
    alloc: Global,
    seed: u64,
    kind: Kind,
    size: (usize, usize),
    count: usize,
) -> Result<Recorder, AllocError> {
    let mut recorder = Recorder::new(alloc, seed, kind, size.0, size.1)?;
    put_editor(&mut recorder, count)?;
    Ok(recorder)
}

/// So many keys, typed one by one.
fn typed(alloc: Global, seed: u64, count: usize) -> Result<Recorder, AllocError> {
    let mut recorder = Recorder::new(alloc, seed, Kind::Vt100, 80, 24)?;
    put_keys(&mut recorder, count)?;
    Ok(recorder)
}

/// Looks for a text in a whole recording.
fn find<R: Print + AllocGlobal>(
    rt: &R,
    name: &str,
    text: &[char],
    recorder: &Recorder,
) -> io::Result<()> {
    let job = Job::Find {
        from: None,
        to: END,
        player: player_of(recorder.kind),
    };
    do_job(rt, name, job, text, recorder, "")
}

/// Writes the page of a recording.
fn page<R: Print + AllocGlobal>(rt: &R, name: &str, recorder: &Recorder) -> io::Result<()> {
    let job = Job::Page {
        player: player_of(recorder.kind),
    };
    do_job(rt, name, job, &['a'], recorder, "")
}

/// Tells which lines the chunks of a recording change.
fn changed<R: Print + AllocGlobal>(rt: &R, name: &str, recorder: &Recorder) -> io::Result<()> {
    let job = Job::Changes {
        from: None,
        to: END,
        player: player_of(recorder.kind),
    };
    do_job(rt, name, job, &[], recorder, "")
}

/// Prints the screen at the end of a recording.
fn shown<R: Print + AllocGlobal>(rt: &R, name: &str, recorder: &Recorder) -> io::Result<()> {
    let job = Job::Screen {
        at: END,
        print: Printed::Plain(player_of(recorder.kind)),
    };
    do_job(rt, name, job, &[], recorder, "")
}

/// What stands often on logs that scroll.
fn find_log<R: Print + AllocGlobal>(rt: &R, asked: Asked) -> io::Result<()> {
    for number in LOGS {
        find_logs(rt, asked, number)?;
    }
    Ok(())
}

/// The same on a large log and a small one: this one of the recordings, and the next.
fn find_logs<R: Print + AllocGlobal>(rt: &R, asked: Asked, number: u64) -> io::Result<()> {
    let alloc = rt.alloc();
    let recorder = log(
        alloc,
        asked.seed_of(number),
        Kind::Today,
        (132, 43),
        asked.of(2000),
    )?;
    find(rt, "find error in a log", ERROR, &recorder)?;
    let recorder = log(
        alloc,
        asked.seed_of(number.wrapping_add(1)),
        Kind::Today,
        (80, 24),
        asked.of(4000),
    )?;
    find(rt, "find the in a log", THE, &recorder)
}

/// What stands now and then on the screens of programs that draw all over them, and what stands nowhere.
fn find_screens<R: Print + AllocGlobal>(rt: &R, asked: Asked) -> io::Result<()> {
    let alloc = rt.alloc();
    let recorder = editor(
        alloc,
        asked.seed_of(3),
        Kind::Today,
        (80, 24),
        asked.of(4000),
    )?;
    find(rt, "find the in an editor", THE, &recorder)?;
    let recorder = editor(
        alloc,
        asked.seed_of(4),
        Kind::Today,
        (80, 24),
        asked.of(30000),
    )?;
    find(rt, "find nothing in an editor", NOWHERE, &recorder)?;
    let recorder = log(
        alloc,
        asked.seed_of(5),
        Kind::Today,
        (132, 43),
        asked.of(25000),
    )?;
    find(rt, "find nothing in a log", NOWHERE, &recorder)
}

/// The same on a VT100, and a text that is taken out.
fn find_vt100<R: Print + AllocGlobal>(rt: &R, asked: Asked) -> io::Result<()> {
    let alloc = rt.alloc();
    let recorder = editor(
        alloc,
        asked.seed_of(6),
        Kind::Vt100,
        (80, 24),
        asked.of(8000),
    )?;
    find(rt, "find the in an editor of a VT100", THE, &recorder)?;
    let recorder = log(
        alloc,
        asked.seed_of(7),
        Kind::Vt100,
        (80, 24),
        asked.of(8000),
    )?;
    find(rt, "find error in a log of a VT100", ERROR, &recorder)?;
    let recorder = editor(
        alloc,
        asked.seed_of(8),
        Kind::Vt100,
        (80, 24),
        asked.of(80000),
    )?;
    find(
        rt,
        "find nothing in an editor of a VT100",
        NOWHERE,
        &recorder,
    )?;
    let recorder = log(
        alloc,
        asked.seed_of(9),
        Kind::Vt100,
        (80, 24),
        asked.of(120000),
    )?;
    let job = Job::Redact {
        player: player_of(recorder.kind),
    };
    do_job(rt, "redact a log of a VT100", job, NOWHERE, &recorder, "")
}

/// Pages and a cast.
fn pages<R: Print + AllocGlobal>(rt: &R, asked: Asked) -> io::Result<()> {
    let alloc = rt.alloc();
    let recorder = log(
        alloc,
        asked.seed_of(10),
        Kind::Today,
        (132, 43),
        asked.of(48000),
    )?;
    page(rt, "page of a log", &recorder)?;
    let recorder = editor(
        alloc,
        asked.seed_of(11),
        Kind::Today,
        (80, 24),
        asked.of(48000),
    )?;
    page(rt, "page of an editor", &recorder)?;
    let recorder = editor(
        alloc,
        asked.seed_of(12),
        Kind::Today,
        (200, 50),
        asked.of(24000),
    )?;
    page(rt, "page of a large editor", &recorder)?;
    let recorder = editor(
        alloc,
        asked.seed_of(13),
        Kind::Vt100,
        (80, 24),
        asked.of(48000),
    )?;
    page(rt, "page of an editor of a VT100", &recorder)?;
    let recorder = editor(
        alloc,
        asked.seed_of(14),
        Kind::Vt100,
        (80, 24),
        asked.of(48000),
    )?;
    let job = Job::Cast {
        player: player_of(recorder.kind),
    };
    do_job(rt, "cast of an editor of a VT100", job, &[], &recorder, "")
}

/// Change lines, and screens at the end.
fn changes<R: Print + AllocGlobal>(rt: &R, asked: Asked) -> io::Result<()> {
    let alloc = rt.alloc();
    let recorder = log(
        alloc,
        asked.seed_of(15),
        Kind::Today,
        (132, 43),
        asked.of(120000),
    )?;
    changed(rt, "changes of a log", &recorder)?;
    let recorder = editor(
        alloc,
        asked.seed_of(16),
        Kind::Today,
        (80, 24),
        asked.of(80000),
    )?;
    changed(rt, "changes of an editor", &recorder)?;
    let recorder = editor(
        alloc,
        asked.seed_of(17),
        Kind::Vt100,
        (80, 24),
        asked.of(80000),
    )?;
    changed(rt, "changes of an editor of a VT100", &recorder)?;
    let recorder = log(
        alloc,
        asked.seed_of(18),
        Kind::Vt100,
        (80, 24),
        asked.of(120000),
    )?;
    changed(rt, "changes of a log of a VT100", &recorder)?;
    let recorder = editor(
        alloc,
        asked.seed_of(19),
        Kind::Today,
        (80, 24),
        asked.of(80000),
    )?;
    shown(rt, "screen of an editor", &recorder)?;
    let recorder = log(
        alloc,
        asked.seed_of(20),
        Kind::Today,
        (132, 43),
        asked.of(120000),
    )?;
    shown(rt, "screen of a log", &recorder)
}

/// Seeks at random, edits near the front of many chunks, and an archive of small recordings.
fn sessions<R: Print + AllocGlobal>(rt: &R, asked: Asked) -> io::Result<()> {
    let alloc = rt.alloc();
    let mut recorder = editor(
        alloc,
        asked.seed_of(21),
        Kind::Today,
        (80, 24),
        asked.of(20000),
    )?;
    let requests = questions(alloc, &mut recorder, asked.of(6000))?;
    let job = session_of(&recorder);
    do_job(
        rt,
        "seeks in an editor",
        job,
        &[],
        &recorder,
        requests.as_str(),
    )?;
    let mut recorder = log(
        alloc,
        asked.seed_of(22),
        Kind::Today,
        (132, 43),
        asked.of(20000),
    )?;
    let requests = questions(alloc, &mut recorder, asked.of(6000))?;
    let job = session_of(&recorder);
    do_job(rt, "seeks in a log", job, &[], &recorder, requests.as_str())?;
    let mut recorder = typed(alloc, asked.seed_of(23), asked.of(200000))?;
    let requests = edits(alloc, &mut recorder, asked.of(400))?;
    let job = session_of(&recorder);
    do_job(
        rt,
        "edits at the front",
        job,
        &[],
        &recorder,
        requests.as_str(),
    )?;
    for number in 0..asked.of(300) {
        archived(rt, asked.archive_seed_of(number as u64))?;
    }
    Ok(())
}

/// A session that stores a terminal at every hundred chunks.
fn session_of(recorder: &Recorder) -> Job {
    Job::Session {
        every: 100,
        player: player_of(recorder.kind),
    }
}

/// Looks for a text in a small recording, in one more checks what it shows, and prints the screen of a third.
fn archived<R: Print + AllocGlobal>(rt: &R, seed: u64) -> io::Result<()> {
    let alloc = rt.alloc();
    let recorder = editor(alloc, seed.wrapping_mul(3), Kind::Today, (80, 24), 20)?;
    find(rt, "find in an archive", NO_S, &recorder)?;
    let mut recorder = log(
        alloc,
        seed.wrapping_mul(3).wrapping_add(1),
        Kind::Today,
        (80, 24),
        100,
    )?;
    put_unplayed(&mut recorder)?;
    let job = Job::Check {
        player: player_of(recorder.kind),
    };
    do_job(rt, "check of an archive", job, &[], &recorder, "")?;
    let recorder = editor(
        alloc,
        seed.wrapping_mul(3).wrapping_add(2),
        Kind::Vt100,
        (80, 24),
        20,
    )?;
    shown(rt, "screen of an archive", &recorder)
}
