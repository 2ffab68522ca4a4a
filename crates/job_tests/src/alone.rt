//! Jobs over a recording of another form, which is read in place of a pair: rows by hand.
use command_line::{Job, Player, Print};
use std::alloc::Global;
use std::io;
use std::process::Abort;
use std::rt::Runtime;
use std::test::Fail;
use tape_core::Watched;
use tape_jobs::{Outcome, run_on_recording};
use vt_term::Profile;

/// What a job wrote, the note that it told, and how it ended.
#[derive(Drop)]
struct Ended {
    text: Vec<u8>,
    note: Vec<u8>,
    outcome: Outcome,
}

/// Does a job that reads a recording, with requests, and a text beside it.
fn do_job(
    rt: &(impl Runtime<A = Global> + Abort),
    job: Job,
    recording: &[u8],
    requests: &[u8],
) -> Ended {
    if let Job::Mend { .. } | Job::Import = job {
        panic!(rt; "{job:?} reads no recording");
    }
    let alloc = rt.alloc();
    let mut out = Watched::new(Vec::new(alloc));
    let mut note = Watched::new(Vec::new(alloc));
    let outcome = run_on_recording(
        alloc,
        job,
        &['a'],
        &mut Watched::new(recording),
        &mut Watched::new(requests),
        &mut out,
        &mut Watched::new(io::sink()),
        &mut note,
    );
    Ended {
        text: out.into_inner(),
        note: note.into_inner(),
        outcome,
    }
}

/// An asciicast of two outputs, between which the size changes, twice to the same.
const RESIZED: &[u8] =
    b"{\"version\": 2, \"width\": 80, \"height\": 24}\n[0, \"o\", \"a\"]\n[1, \"r\", \"100x30\"]\n[2, \"r\", \"100x30\"]\n[3, \"o\", \"b\"]\n";

const NOTE: &str = "typetool: note: resizes: 1 left out (see typetool check)\n";

const TODAY: Player = Player::Today(None);

/// Jobs on that asciicast, the beginning of what they write, the note, and the status.
const JOBS: [(Job, &str, &str, u8); 6] = [
    (Job::Due { at: 2_999_999 }, "a", "", 0),
    (
        Job::Info,
        "chunks 2\nbytes 2\nlength 3.000000\nheader 52\ntrailer 0\n",
        "",
        0,
    ),
    (
        Job::Check { player: TODAY },
        "started unknown\nsize 80x24\nnote resizes: 1 left out\n",
        "",
        1,
    ),
    (
        Job::Screen {
            at: 3_000_000,
            print: Print::Plain(TODAY),
        },
        "ab\n\n",
        NOTE,
        0,
    ),
    (
        Job::Find {
            from: None,
            to: 9,
            player: Player::Vt(Profile::Vt100),
        },
        "+ 0 0.000000 1 1 a\n",
        NOTE,
        0,
    ),
    (
        Job::Session {
            every: 1,
            player: TODAY,
        },
        "ok\nchunks 1\n",
        NOTE,
        0,
    ),
];

#[test]
fn jobs_read_an_asciicast_as_its_pair(rt: HostRuntime) {
    for (job, text, note, status) in &JOBS {
        let ended = do_job(&rt, *job, RESIZED, b"delete 0 1\ninfo\n");
        let told = str::from_utf8(ended.text.as_slice()).unwrap_or("");
        assert!(&rt; told.starts_with(text), "{told}");
        assert_eq!(&rt; ended.note.as_slice(), note.as_bytes(), "{told}");
        let ending = (ended.outcome.status, ended.outcome.fault);
        assert_eq!(&rt; ending, (*status, None), "{told}");
    }
}

/// Recordings, and the first fault of each.
const REFUSED: [(&[u8], &str); 7] = [
    (
        b"{\"version\": 2}\n[0, \"o\", \"a\"]\n[0, \"o\", \"\\x41\"]\n[0, \"o\", \"b\"]\n",
        "recording line 3: bad event",
    ),
    (
        b"{\"version\": 2}\n[1, \"o\", \"a\"]\n[2000002, \"o\", \"b\"]\n[0, 1]\n",
        "recording line 3: delay too large",
    ),
    (
        b"\x05\0\0\0\0\0\0\0\x05\0\0\0cd",
        "recording ends inside chunk 0",
    ),
    (
        b"{\"ver\": \"2.3\", \"id\": 3, \"pos\": 0, \"timing\": \">9\", \"out_txt\": \"a\"}\n",
        "recording line 1: bad event",
    ),
    (
        b"{\"ver\": \"2.3\", \"id\": 3, \"pos\": 0, \"timing\": \">1\", \"out_txt\": \"a\"}\n",
        "recording line 1: out of order",
    ),
    (b"Script started on X\nab", "recording of no known form"),
    (b"\x1f\x8b\x08\0abcdefgh", "recording is compressed"),
];

#[test]
fn the_first_fault_of_a_recording_is_told(rt: HostRuntime) -> Result<(), Fail> {
    let find = Job::Find {
        from: None,
        to: 9,
        player: TODAY,
    };
    for (recording, fault) in &REFUSED {
        for (job, status) in &[(Job::Cast { player: TODAY }, 1), (find, 3)] {
            let ended = do_job(&rt, *job, recording, b"");
            assert_eq!(&rt;
                (ended.outcome.status, ended.text.len(), ended.note.len()),
                (*status, 0, 0)
            );
            let Some(told) = ended.outcome.fault else {
                panic!(&rt; "{fault} is a fault");
            };
            let told = format!(in rt.alloc(); "{told}")?;
            assert_eq!(&rt; told.as_str(), *fault);
        }
    }
    Ok(())
}
