//! The table of jobs, each with a test of its own in which growths are refused; `devices` goes over it too.
//!
//! `tests/refused.py` runs these with the first, second, .. growth of memory refused, until none is, and counts the lines
//! `refused: WHAT`. After a refusal a beginning has gone out, or nothing while the files are read, and the same job then
//! answers.
use command_line::{Job, Measure, Player, Print};
use job_tests::in_memory::{AB_PICTURE, DONE, Ended, data_of};
use std::alloc::Global;
use std::process::Abort;
use std::rt::Runtime;
use std::test::Fail;
use tape_core::{Fault, Watched};
use tape_jobs::{JobFault, run_with};
use tape_mend::Header;
use vt_term::Profile;

mod telling;

/// Three chunks, half a second apart, on lines 1, 3 and 1, and the first two with reports.
pub(crate) const SCRIPT: &[u8] = b"Script started on X\nab\x1b[6n\x1b[3;1Hcd\x1b[c\x1b[1;1He";

pub(crate) const TIMING: &[u8] = b"0.5 6\n0.5 11\n0.5 7\n";

/// The same timing as it is written.
const WRITTEN: &[u8] = b"0.500000 6\n0.500000 11\n0.500000 7\n";

/// The end of the recording.
const END: u64 = 1_500_000;

/// A job with the text beside it and its request lines, over these chunks: whether it reads the lines, and both texts that
/// it writes.
#[derive(Clone, Copy)]
pub(crate) struct Case<'a> {
    pub(crate) job: Job,
    pub(crate) sought: &'static [char],
    pub(crate) requests: &'static [u8],
    pub(crate) reads_requests: bool,
    pub(crate) text: &'a [u8],
    pub(crate) new_timing: &'static [u8],
}

/// A job that reads no request lines and writes one text.
pub(crate) fn plain_case<'a>(job: Job, text: &'a [u8]) -> Case<'a> {
    Case {
        job,
        sought: &[],
        requests: b"left alone",
        reads_requests: false,
        text,
        new_timing: b"",
    }
}

const VT100: Player = Player::Vt(Profile::Vt100);

const VT102: Player = Player::Vt(Profile::Vt102);

const TODAY: Player = Player::Today(None);

/// The table: each job that reads a recording, but for a page, whose text is long.
pub(crate) fn cases() -> [Case<'static>; 20] {
    [
        due(),
        info(),
        check(),
        screen(),
        escaped_screen(),
        picture(),
        transcript(VT100),
        transcript(TODAY),
        changes(),
        find(VT102),
        find(TODAY),
        reports(),
        cast(),
        save(),
        cut(),
        excerpt(),
        redact(VT100),
        redact(TODAY),
        edited_session(VT100),
        edited_session(TODAY),
    ]
}

/// Bytes for the longest text, which is a page.
const ROOM: usize = 40_000;

/// Room for either text; where memory is refused, once more.
fn room(rt: &impl Runtime<A = Global>) -> Result<Vec<u8>, Fail> {
    match Vec::with_capacity(rt.alloc(), ROOM) {
        Ok(room) => Ok(room),
        Err(_) => {
            println!(rt; "refused: room for a writer")?;
            Ok(Vec::with_capacity(rt.alloc(), ROOM)?)
        }
    }
}

fn do_job(rt: &(impl Runtime<A = Global> + Abort), case: Case<'_>) -> Result<Ended, Fail> {
    let mut out = Watched::new(room(rt)?);
    let mut out_timing = Watched::new(room(rt)?);
    let mut note = Watched::new(room(rt)?);
    let outcome = run_with(
        rt.alloc(),
        case.job,
        case.sought,
        &mut Watched::new(SCRIPT),
        &mut Watched::new(TIMING),
        &mut Watched::new(case.requests),
        &mut out,
        &mut out_timing,
        &mut note,
    );
    assert_eq!(rt; (out.failed(), out_timing.failed()), (false, false));
    Ok(Ended {
        outcome,
        text: out.into_inner(),
        new_timing: out_timing.into_inner(),
        note: note.into_inner(),
    })
}

/// Does a job; where memory is refused to it, sees what went out and does it once more.
fn compare(rt: &(impl Runtime<A = Global> + Abort), case: Case<'_>) -> Result<(), Fail> {
    let ended = do_job(rt, case)?;
    let Some(fault) = ended.outcome.fault else {
        compare_whole(rt, case, &ended);
        return Ok(());
    };
    println!(rt; "refused: a job")?;
    assert_eq!(rt; ended.outcome.status, 3);
    compare_begun(rt, case, &ended, fault);
    compare_whole(rt, case, &do_job(rt, case)?);
    Ok(())
}

/// The text of a job: where memory is refused to it, that of a second run, of which the first one wrote a beginning.
fn text_of(rt: &(impl Runtime<A = Global> + Abort), job: Job) -> Result<Vec<u8>, Fail> {
    let ended = do_job(rt, plain_case(job, b""))?;
    let Some(fault) = ended.outcome.fault else {
        return Ok(ended.text);
    };
    println!(rt; "refused: a job")?;
    let again = do_job(rt, plain_case(job, b""))?;
    compare_begun(rt, plain_case(job, again.text.as_slice()), &ended, fault);
    assert_eq!(rt; again.outcome, DONE);
    Ok(again.text)
}

/// Sees that a beginning of the text went out, or nothing where memory was refused as the files were read.
fn compare_begun(
    rt: &(impl Runtime<A = Global> + Abort),
    case: Case<'_>,
    ended: &Ended,
    fault: JobFault,
) {
    let begun = ended.text.as_slice();
    let is_beginning = case.text.starts_with(begun) && begun.len() < case.text.len();
    assert!(rt; is_beginning, "{begun:?} went out of {:?}", case.text);
    assert_eq!(rt; ended.new_timing.len(), 0);
    if fault != JobFault::Memory {
        assert_eq!(rt;
            (fault, begun),
            (JobFault::File(Fault::OutOfMemory), b"".as_slice())
        );
    }
}

/// Sees that a job is done and wrote both texts whole.
fn compare_whole(rt: &(impl Runtime<A = Global> + Abort), case: Case, ended: &Ended) {
    assert_eq!(rt;
        (
            ended.outcome,
            ended.text.as_slice(),
            ended.new_timing.as_slice()
        ),
        (DONE, case.text, case.new_timing)
    );
}

/// What is due by the second chunk.
fn due() -> Case<'static> {
    let text = b"ab\x1b[6n\x1b[3;1Hcd\x1b[c";
    plain_case(Job::Due { at: 1_000_000 }, text)
}

#[test]
fn run_due(rt: HostRuntime) -> Result<(), Fail> {
    compare(&rt, due())
}

fn info() -> Case<'static> {
    let text = b"chunks 3\nbytes 24\nlength 1.500000\nheader 20\ntrailer 0\n";
    plain_case(Job::Info, text)
}

#[test]
fn run_info(rt: HostRuntime) -> Result<(), Fail> {
    compare(&rt, info())
}

fn check() -> Case<'static> {
    plain_case(Job::Check { player: VT100 }, b"started X\n")
}

#[test]
fn run_check(rt: HostRuntime) -> Result<(), Fail> {
    compare(&rt, check())
}

/// The screen at the end.
fn screen() -> Case<'static> {
    let print = Print::Plain(VT100);
    let text = b"eb\n\ncd\n\n\n\n\n\n\n\n\n\n\n\n\n\n\n\n\n\n\n\n\n\n";
    plain_case(Job::Screen { at: END, print }, text)
}

#[test]
fn run_screen(rt: HostRuntime) -> Result<(), Fail> {
    compare(&rt, screen())
}

/// The text that draws it again.
fn escaped_screen() -> Case<'static> {
    let print = Print::Escaped(VT100);
    let text = b"\x1b[?7l\x1b)0\x1b[1;1Heb\x1b[3;1Hcd\x1b[0m\x0f\x1b[?7h\x1b[1;2H";
    plain_case(Job::Screen { at: END, print }, text)
}

#[test]
fn run_escaped_screen(rt: HostRuntime) -> Result<(), Fail> {
    compare(&rt, escaped_screen())
}

/// The screen at the first chunk.
fn picture() -> Case<'static> {
    let job = Job::Picture {
        at: 500_000,
        player: VT100,
    };
    plain_case(job, AB_PICTURE.as_bytes())
}

#[test]
fn run_picture(rt: HostRuntime) -> Result<(), Fail> {
    compare(&rt, picture())
}

#[test]
fn run_page(rt: HostRuntime) -> Result<(), Fail> {
    let job = Job::Page { player: VT102 };
    let page = text_of(&rt, job)?;
    assert_eq!(rt;
        data_of(page.as_slice()),
        "[[0.000000,0,1,1],\n[0.500000,0,1,3,1,[0,0,\"ab\"]],\n[1.000000,0,3,3,3,[0,0,\"cd\"]],\n[1.500000,0,1,2,1,[0,0,\"eb\"]]]"
    );
    Ok(())
}

/// Each chunk draws a line.
fn cast() -> Case<'static> {
    let text = b"{\"version\": 2, \"width\": 80, \"height\": 24}\n\
        [0.500000, \"o\", \"\\u001b[1;1H\\u001b[0m\\u001b[2K\\u001b[0mab\\u001b[0m\\u001b[1;3H\"]\n\
        [1.000000, \"o\", \"\\u001b[3;1H\\u001b[0m\\u001b[2K\\u001b[0mcd\\u001b[0m\\u001b[3;3H\"]\n\
        [1.500000, \"o\", \"\\u001b[1;1H\\u001b[0m\\u001b[2K\\u001b[0meb\\u001b[0m\\u001b[1;2H\"]\n";
    plain_case(Job::Cast { player: VT102 }, text)
}

#[test]
fn run_cast(rt: HostRuntime) -> Result<(), Fail> {
    compare(&rt, cast())
}

fn changes() -> Case<'static> {
    let job = Job::Changes {
        from: None,
        to: 9_000_000,
        player: VT102,
    };
    plain_case(job, b"0 0.500000 1\n1 1.000000 3\n2 1.500000 1\n")
}

#[test]
fn run_changes(rt: HostRuntime) -> Result<(), Fail> {
    compare(&rt, changes())
}

/// The whole session.
fn transcript(player: Player) -> Case<'static> {
    let job = Job::Transcript {
        from: None,
        to: Some(END),
        player,
    };
    plain_case(job, b"eb\n\ncd\n")
}

#[test]
fn run_transcript(rt: HostRuntime) -> Result<(), Fail> {
    compare(&rt, transcript(VT100))
}

#[test]
fn run_transcript_of_today(rt: HostRuntime) -> Result<(), Fail> {
    compare(&rt, transcript(TODAY))
}

/// The second character, which stands where it did when the first one changes.
fn find(player: Player) -> Case<'static> {
    let job = Job::Find {
        from: None,
        to: 9_000_000,
        player,
    };
    let text = b"+ 0 0.500000 1 2 ab\n- 2 1.500000 1 2 ab\n+ 2 1.500000 1 2 eb\n";
    Case {
        sought: &['b'],
        ..plain_case(job, text)
    }
}

#[test]
fn run_find(rt: HostRuntime) -> Result<(), Fail> {
    compare(&rt, find(VT102))
}

#[test]
fn run_find_of_today(rt: HostRuntime) -> Result<(), Fail> {
    compare(&rt, find(TODAY))
}

fn reports() -> Case<'static> {
    let job = Job::Reports {
        at: 1_000_000,
        player: VT100,
    };
    plain_case(job, b"1b5b313b33521b5b3f313b3263\n")
}

#[test]
fn run_reports(rt: HostRuntime) -> Result<(), Fail> {
    compare(&rt, reports())
}

/// Edits of each kind: `x` goes in before all, the first chunk goes out, and the last becomes `y`.
fn save() -> Case<'static> {
    Case {
        job: Job::Save,
        sought: &[],
        requests: b"insert 0 0.125 78\ndelete 1 2\nreplace 2 79\nretime 1 2\ncap 1\n",
        reads_requests: true,
        text: b"Script started on X\nx\x1b[3;1Hcd\x1b[cy",
        new_timing: b"0.125000 1\n1.000000 11\n0.500000 1\n",
    }
}

#[test]
fn run_save(rt: HostRuntime) -> Result<(), Fail> {
    compare(&rt, save())
}

/// The second chunk goes, and the state of a VT100 stands in its place.
fn cut() -> Case<'static> {
    let job = Job::Cut {
        from: 500_000,
        to: 1_000_000,
        player: VT100,
    };
    let text = b"Script started on X\nab\x1b[6n\
        \x1b<\x1bc\x1b[?3h\x1b[3g\x1b[1;9H\x1bH\x1b[1;17H\x1bH\x1b[1;25H\x1bH\x1b[1;33H\x1bH\x1b[1;41H\x1bH\x1b[1;49H\x1bH\x1b[1;57H\x1bH\x1b[1;65H\x1bH\x1b[1;73H\x1bH\x1b[1;81H\x1bH\x1b[1;89H\x1bH\x1b[1;97H\x1bH\x1b[1;105H\x1bH\x1b[1;113H\x1bH\x1b[1;121H\x1bH\x1b[1;129H\x1bH\x1b[?6l\x1b[?3l\x1b[?7l\x1b[0m\x1b(B\x1b)0\x0f\x1b[1;1Hab\x1b[3;1Hcd\x1b[1;24r\x1b[?7h\x1b[3;3H\x1b[0m\x1b(B\x1b)B\x0f\
        \x1b[1;1He";
    Case {
        new_timing: b"0.500000 6\n0.000000 231\n0.500000 7\n",
        ..plain_case(job, text)
    }
}

#[test]
fn run_cut(rt: HostRuntime) -> Result<(), Fail> {
    compare(&rt, cut())
}

/// The last chunk is left, behind the state of a terminal of today of six columns and three lines.
fn excerpt() -> Case<'static> {
    let size = Measure {
        columns: 6,
        lines: 3,
    };
    let job = Job::Excerpt {
        from: 1_000_000,
        to: None,
        player: Player::Today(Some(size)),
    };
    let text = b"Script started on X\n\
        \x1bc\x1b[3g\x1b[?6l\x1b[0m\x1b(B\x1b)B\x0f\x1b[1;1Hab\x1b[3;1Hcd\x1b[0m\x1b[?1047h\x1b[?6l\x1b[0m\x1b(B\x1b)B\x0f\x1b[?1047l\x1b[1;3r\x1b[3;3H\x1b[0m\x1b(B\x1b)B\x0f\x1b>\
        \x1b[1;1He";
    Case {
        new_timing: b"0.000000 99\n0.500000 7\n",
        ..plain_case(job, text)
    }
}

#[test]
fn run_excerpt(rt: HostRuntime) -> Result<(), Fail> {
    compare(&rt, excerpt())
}

/// A pair that is whole is mended as it is. The job takes pairs that are no recording, so it isn't in the table.
pub(crate) fn mend() -> Case<'static> {
    let job = Job::Mend {
        header: Header::Kept,
    };
    Case {
        new_timing: WRITTEN,
        ..plain_case(job, SCRIPT)
    }
}

#[test]
fn run_mend(rt: HostRuntime) -> Result<(), Fail> {
    compare(&rt, mend())
}

/// What the second chunk draws is taken out.
fn redact(player: Player) -> Case<'static> {
    let text = b"Script started on X\nab\x1b[6n\x1b[3;1H**\x1b[c\x1b[1;1He";
    Case {
        sought: &['c', 'd'],
        new_timing: WRITTEN,
        ..plain_case(Job::Redact { player }, text)
    }
}

#[test]
fn run_redact(rt: HostRuntime) -> Result<(), Fail> {
    compare(&rt, redact(VT100))
}

#[test]
fn run_redact_of_today(rt: HostRuntime) -> Result<(), Fail> {
    compare(&rt, redact(TODAY))
}

/// A chunk goes out, and what is left is told.
fn edited_session(player: Player) -> Case<'static> {
    Case {
        job: Job::Session { every: 1, player },
        sought: &[],
        requests: b"delete 0 1\n\ninfo",
        reads_requests: true,
        text: b"ok\nchunks 2\nbytes 18\nlength 1.000000\nheader 20\ntrailer 0\n",
        new_timing: b"",
    }
}

#[test]
fn run_edited_session(rt: HostRuntime) -> Result<(), Fail> {
    compare(&rt, edited_session(VT100))
}

#[test]
fn run_edited_session_of_today(rt: HostRuntime) -> Result<(), Fail> {
    compare(&rt, edited_session(TODAY))
}

/// Seeks, an edit before what was sought, and seeks again. Each answer is flushed, so it isn't in the table.
fn session(player: Player) -> Case<'static> {
    Case {
        job: Job::Session { every: 1, player },
        sought: &[],
        requests: b"reports 0.5\nchanges - 9\ninsert 0 0.125 78\nreports 9\ninfo\nlog\n",
        reads_requests: true,
        text: b"1b5b313b3352\n0 0.500000 1\n1 1.000000 3\n2 1.500000 1\nend\nok\n\
            1b5b313b34521b5b3f313b3263\nchunks 4\nbytes 25\nlength 1.625000\nheader 20\ntrailer 0\n\
            insert 0 0.125000 78\nend\n",
        new_timing: b"",
    }
}

#[test]
fn run_session(rt: HostRuntime) -> Result<(), Fail> {
    compare(&rt, session(VT100))
}

/// All of it fits on nine columns and three lines.
#[test]
fn run_session_of_today(rt: HostRuntime) -> Result<(), Fail> {
    let size = Measure {
        columns: 9,
        lines: 3,
    };
    compare(&rt, session(Player::Today(Some(size))))
}
