//! Find lines through the job, where a text stands beside it, and the status that goes with them.
use crate::in_memory::{AB, DONE, HEADER, do_job_beside};
use command_line::{Job, Measure, Player};
use std::io;
use std::process::Abort;
use std::test::Fail;
use tape_core::{Fault, Watched};
use tape_jobs::{JobFault, Outcome, run_with};
use vt_term::Profile;

/// How a search ends that finds nothing.
const NOTHING: Outcome = Outcome {
    status: 1,
    fault: None,
};

/// A moment behind every chunk.
const END: u64 = 9_000_000;

/// A search: the body and the timing, the text, after which moment and by which one, on which terminal, the lines, and
/// how it ends.
#[derive(Drop)]
struct Search {
    body: &'static [u8],
    timing: &'static [u8],
    text: &'static [char],
    from: Option<u64>,
    to: u64,
    player: Player,
    lines: &'static str,
    outcome: Outcome,
}

/// A search of a whole recording on a VT100.
const fn whole(
    body: &'static [u8],
    timing: &'static [u8],
    text: &'static [char],
    lines: &'static str,
    outcome: Outcome,
) -> Search {
    Search {
        body,
        timing,
        text,
        from: None,
        to: END,
        player: Player::Vt(Profile::Vt100),
        lines,
        outcome,
    }
}

/// `ab` on lines 1 and 2, an erased screen, and `ab` with a line inserted above, which a VT102 alone does; half a second
/// apart.
const fn between(
    from: Option<u64>,
    to: u64,
    profile: Profile,
    lines: &'static str,
    outcome: Outcome,
) -> Search {
    Search {
        body: b"ab\r\nab\x1b[2J\x1b[Hab\x1b[L",
        timing: b"0.5 6\n0.5 4\n0.5 8\n",
        text: &['a', 'b'],
        from,
        to,
        player: Player::Vt(profile),
        lines,
        outcome,
    }
}

/// Does the search, and compares what came out.
fn compare_found<R: Abort + AllocGlobal>(rt: &R, search: &Search) -> Result<(), Fail> {
    let script = [HEADER, search.body].concat(rt.alloc())?;
    let job = Job::Find {
        from: search.from,
        to: search.to,
        player: search.player,
    };
    let (script, timing) = (script.as_slice(), search.timing);
    let ended = do_job_beside(rt.alloc(), job, search.text, script, timing, b"");
    assert_eq!(rt;
        (ended.outcome, ended.text.as_slice()),
        (search.outcome, search.lines.as_bytes()),
        "{job:?}"
    );
    Ok(())
}

#[test]
fn find_tells_where_a_text_stood(rt: HostRuntime) -> Result<(), Fail> {
    for search in &[
        between(
            None,
            END,
            Profile::Vt100,
            "+ 0 0.500000 1 1 ab\n+ 0 0.500000 2 1 ab\n- 1 1.000000 1 1 ab\n- 1 1.000000 2 1 ab\n+ 2 1.500000 1 1 ab\n",
            DONE,
        ),
        between(None, 499_999, Profile::Vt100, "", NOTHING),
        between(
            Some(500_000),
            1_000_000,
            Profile::Vt100,
            "= 1 0.500000 1 1 ab\n= 1 0.500000 2 1 ab\n- 1 1.000000 1 1 ab\n- 1 1.000000 2 1 ab\n",
            DONE,
        ),
        between(
            Some(1_000_000),
            1_500_000,
            Profile::Vt102,
            "+ 2 1.500000 2 1 ab\n",
            DONE,
        ),
        between(
            Some(1_500_000),
            END,
            Profile::Vt102,
            "= 3 1.500000 2 1 ab\n",
            DONE,
        ),
    ] {
        compare_found(&rt, search)?;
    }
    Ok(())
}

/// What came and went inside a chunk, and what stood there and stands there still.
#[test]
fn find_looks_after_each_byte(rt: HostRuntime) -> Result<(), Fail> {
    for search in &[
        whole(
            b"a\n\n\n\n\n\n\n\n\n\n\n\n\n\n\n\n\n\n\n\n\n\n\n\n\n\n\n\n\n\n",
            b"0 31\n",
            &['a'],
            "~ 0 0.000000 1 1 a\n",
            DONE,
        ),
        whole(
            b"err\rok ",
            b"0 7\n",
            &['e', 'r', 'r'],
            "~ 0 0.000000 1 1 err\n",
            DONE,
        ),
        whole(
            b"err\rerr",
            b"0 3\n0 4\n",
            &['e', 'r', 'r'],
            "+ 0 0.000000 1 1 err\n",
            DONE,
        ),
        whole(
            b"err\r\x1b[Kerr",
            b"0 10\n",
            &['e', 'r', 'r'],
            "+ 0 0.000000 1 1 err\n",
            DONE,
        ),
        whole(
            b"rm -rf\x1b[2J",
            b"0 3\n0 7\n",
            &['r', 'm', ' ', '-', 'r', 'f'],
            "~ 1 0.000000 1 1 rm -rf\n",
            DONE,
        ),
        whole(b"x", b"0 1\n", &['y'], "", NOTHING),
    ] {
        compare_found(&rt, search)?;
    }
    Ok(())
}

/// What stands at the moment from which chunks are asked for, and stays.
#[test]
fn find_tells_what_stands_already(rt: HostRuntime) -> Result<(), Fail> {
    let search = Search {
        from: Some(0),
        ..whole(b"ab", AB.as_bytes(), &['a'], "= 1 0.000000 1 1 a\n", DONE)
    };
    compare_found(&rt, &search)
}

/// A terminal of today of 12 columns and 3 lines.
const SMALL: Player = Player::Today(Some(Measure {
    columns: 12,
    lines: 3,
}));

/// Characters of width 2, marks, a colour inside the text, REP, and the alternate screen.
#[test]
fn find_looks_at_a_terminal_of_today(rt: HostRuntime) -> Result<(), Fail> {
    for search in &[
        Search {
            player: SMALL,
            ..whole(
                "日本".as_bytes(),
                b"0 6\n",
                &['本'],
                "+ 0 0.000000 1 3 日本\n",
                DONE,
            )
        },
        Search {
            player: SMALL,
            ..whole(
                b"\n a\x1b[31mb\x1b[4mc",
                b"0 14\n",
                &['a', 'b', 'c'],
                "+ 0 0.000000 2 2  abc\n",
                DONE,
            )
        },
        Search {
            player: SMALL,
            ..whole(
                b"ab\x1b[?1049hcd\x1b[?1049l",
                b"0 20\n",
                &['c', 'd'],
                "~ 0 0.000000 1 3   cd\n",
                DONE,
            )
        },
        Search {
            player: SMALL,
            ..whole(
                b"x\x1b[3b\r\x1b[K",
                b"0 9\n",
                &['x', 'x', 'x', 'x'],
                "~ 0 0.000000 1 1 xxxx\n",
                DONE,
            )
        },
        Search {
            player: Player::Today(None),
            ..whole(b"x", b"0 1\n", &['y'], "", NOTHING)
        },
    ] {
        compare_found(&rt, search)?;
    }
    Ok(())
}

/// Of a line that scrolls through a chunk only what stands at its end is told.
#[test]
fn find_tells_once_what_scrolls(rt: HostRuntime) -> Result<(), Fail> {
    let mut script = HEADER.to_vec(rt.alloc())?;
    for _ in 0..60 {
        script.extend_from_slice(b"l\r\n")?;
    }
    let mut lines = String::new(rt.alloc());
    for row in 1..24 {
        lines.push_str(format!(in rt.alloc(); "+ 0 0.000000 {row} 1 l\n")?.as_str())?;
    }
    let job = Job::Find {
        from: None,
        to: END,
        player: Player::Vt(Profile::Vt100),
    };
    let ended = do_job_beside(rt.alloc(), job, &['l'], script.as_slice(), b"0 180\n", b"");
    assert_eq!(rt;
        (ended.outcome, ended.text.as_slice()),
        (DONE, lines.as_bytes())
    );
    Ok(())
}

/// A pair that can't be read is told from one in which the text stands nowhere.
#[test]
fn find_tells_a_damaged_pair_apart(rt: HostRuntime) -> Result<(), Fail> {
    let outcome = Outcome {
        status: 3,
        fault: Some(JobFault::File(Fault::ScriptShort(0))),
    };
    compare_found(&rt, &whole(b"a", b"0 2\n", &['a'], "", outcome))
}

/// A writer that took bytes before doesn't change the status.
#[test]
fn find_goes_by_its_own_lines(rt: HostRuntime) -> Result<(), Fail> {
    let script = [HEADER, b"ab".as_slice()].concat(rt.alloc())?;
    let job = Job::Find {
        from: None,
        to: END,
        player: Player::Vt(Profile::Vt100),
    };
    let mut out = Watched::new(Vec::new(rt.alloc()));
    for (text, status) in [('b', 0), ('c', 1), ('a', 0)] {
        assert!(rt; !out.failed(), "a vector takes every byte");
        let outcome = run_with(
            rt.alloc(),
            job,
            &[text],
            &mut Watched::new(script.as_slice()),
            &mut Watched::new(AB.as_bytes()),
            &mut Watched::new(io::empty()),
            &mut out,
            &mut Watched::new(io::sink()),
            &mut Watched::new(io::sink()),
        );
        assert_eq!(rt; (outcome.status, outcome.fault), (status, None), "{text}");
    }
    assert_eq!(rt;
        out.into_inner().as_slice(),
        b"+ 1 0.500000 1 2 ab\n+ 0 0.000000 1 1 a\n".as_slice()
    );
    Ok(())
}
