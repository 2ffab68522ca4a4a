//! The job `cast`: the events of each chunk.
use crate::in_memory::{DONE, HEADER, do_job};
use crate::page::{SCRIPT, TIMING};
use command_line::{Job, Measure, Player};
use std::process::Abort;
use vt_term::Profile;

/// Does the job, and compares the lines.
fn compare_cast<R: Abort + AllocGlobal>(rt: &R, player: Player, pair: (&[u8], &[u8]), lines: &str) {
    let ended = do_job(rt.alloc(), Job::Cast { player }, pair.0, pair.1, b"");
    assert_eq!(rt;
        (ended.outcome, str::from_utf8(ended.text.as_slice())),
        (DONE, Ok(lines)),
        "{player:?}"
    );
}

#[test]
fn cast_draws_what_each_chunk_changes(rt: HostRuntime) {
    compare_cast(
        &rt,
        Player::Vt(Profile::Vt100),
        (SCRIPT, TIMING),
        "{\"version\": 2, \"width\": 80, \"height\": 24}\n\
        [0.500000, \"o\", \"\\u001b[1;1H\\u001b[0m\\u001b[2K\\u001b[0m\u{2500}\\u001b[0m\
        \\u001b[2;1H\\u001b[0m\\u001b[2K\\u001b[0mab<\\u001b[0m\\u001b[1;2H\"]\n\
        [1.000000, \"o\", \"\\u001b[2;1H\"]\n",
    );
    compare_cast(
        &rt,
        Player::Vt(Profile::Vt102),
        (SCRIPT, TIMING),
        "{\"version\": 2, \"width\": 80, \"height\": 24}\n\
        [0.500000, \"o\", \"\\u001b[1;1H\\u001b[0m\\u001b[2K\\u001b[0m\u{2500}\\u001b[0m\
        \\u001b[2;1H\\u001b[0m\\u001b[2K\\u001b[0mab<\\u001b[0m\\u001b[1;2H\"]\n\
        [1.000000, \"o\", \"\\u001b[2;1H\\u001b[0m\\u001b[2K\\u001b[0mb<\\u001b[0m\\u001b[2;1H\"]\n",
    );
    let empty = (HEADER, b"".as_slice());
    compare_cast(
        &rt,
        Player::Vt(Profile::Vt100),
        empty,
        "{\"version\": 2, \"width\": 80, \"height\": 24}\n",
    );
}

/// Of a terminal of today it is the output itself, over the cuts of chunks, and what is left at the end.
#[test]
fn cast_of_today_is_the_output(rt: HostRuntime) {
    let script = b"Script started on X\na\xe6\x97\xa5\"\\\x1b[m\x7f\xff\xc3";
    let timing = b"0.5 2\n0.25 1\n0.25 8\n1 1\n";
    let size = Measure {
        columns: 132,
        lines: 43,
    };
    compare_cast(
        &rt,
        Player::Today(Some(size)),
        (script, timing),
        "{\"version\": 2, \"width\": 132, \"height\": 43}\n\
        [0.500000, \"o\", \"a\"]\n\
        [1.000000, \"o\", \"\u{65e5}\\\"\\\\\\u001b[m\\u007f\u{fffd}\"]\n\
        [2.000000, \"o\", \"\u{fffd}\"]\n",
    );
}
