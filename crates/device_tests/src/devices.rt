//! Every job over devices that take or tell one byte a call, each of which fails in turn.
ghost use Rattle.std.specs.Prelude.{◌<◌};

use crate::refused::{Case, SCRIPT, TIMING, cases, plain_case};
use command_line::{Job, Player};
use job_tests::in_memory::{DONE, do_job};
use std::io;
use std::io::{ErrorKind, Read, Write};
use std::process::Abort;
use tape_core::{Fault, Watched};
use tape_jobs::{JobFault, Outcome, run_with};
use vt_term::Profile;

mod importing;
mod mending;
mod redacting;

/// A call that never comes: the device is sound.
const NEVER: usize = usize::MAX;

/// A reader that tells one byte a call, and whose call of a number fails.
#[derive(Drop)]
struct SlowReader<'a> {
    left: &'a [u8],
    calls: usize,
    failing: usize,
}

impl Read for SlowReader<'_> {
    fn read(&mut self, buf: &mut [u8]) -> io::Result<usize> {
        let call = self.calls;
        self.calls = call.saturating_add(1);
        if call == self.failing {
            return Err(io::Error::from(ErrorKind::Interrupted));
        }
        match (self.left, buf) {
            ([byte, rest @ ..], [place, ..]) => {
                *place = *byte;
                self.left = rest;
                Ok(1)
            }
            _ => Ok(0),
        }
    }
}

/// How a writer fails.
#[derive(Clone, Copy, Debug, PartialEq, Eq)]
enum Failure {
    /// It never does.
    None,
    /// The call of this number is an error.
    Write(usize),
    /// The call of this number takes nothing.
    TakesNothing(usize),
    /// The first flush is an error, and it alone.
    FirstFlush,
    /// Every flush is an error.
    EachFlush,
}

/// A writer that takes one byte a call, and may fail.
#[derive(Drop)]
struct SlowWriter {
    taken: Vec<u8>,
    calls: usize,
    flushes: usize,
    failure: Failure,
}

impl Write for SlowWriter {
    fn write(&mut self, buf: &[u8]) -> io::Result<usize> {
        let call = self.calls;
        self.calls = call.saturating_add(1);
        match self.failure {
            Failure::Write(failing) if call == failing => {
                Err(io::Error::from(ErrorKind::Interrupted))
            }
            Failure::TakesNothing(failing) if call == failing => Ok(0),
            _ => match buf {
                [byte, ..] => {
                    self.taken.push(*byte)?;
                    Ok(1)
                }
                [] => Ok(0),
            },
        }
    }

    fn flush(&mut self) -> io::Result<()> {
        let flush = self.flushes;
        self.flushes = flush.saturating_add(1);
        match self.failure {
            Failure::FirstFlush if flush == 0 => Err(io::Error::from(ErrorKind::Other)),
            Failure::EachFlush => Err(io::Error::from(ErrorKind::Other)),
            _ => Ok(()),
        }
    }
}

/// Which call of each reader fails.
#[derive(Clone, Copy)]
struct Failing {
    script: usize,
    timing: usize,
    requests: usize,
}

const NONE_FAILS: Failing = Failing {
    script: NEVER,
    timing: NEVER,
    requests: NEVER,
};

/// How a run over slow devices ended, and what became of them.
#[derive(Drop)]
struct Ran {
    outcome: Outcome,
    script_calls: usize,
    timing_calls: usize,
    requests_calls: usize,
    out: Watched<SlowWriter>,
    out_timing: Watched<SlowWriter>,
}

fn run_slowly<R: Abort + AllocGlobal>(
    rt: &R,
    case: &Case<'_>,
    failing: Failing,
    out: Failure,
    out_timing: Failure,
) -> Ran {
    let mut script = Watched::new(slow_reader(SCRIPT, failing.script));
    let mut timing = Watched::new(slow_reader(TIMING, failing.timing));
    let mut requests = Watched::new(slow_reader(case.requests, failing.requests));
    let mut out = Watched::new(slow_writer(rt, out));
    let mut out_timing = Watched::new(slow_writer(rt, out_timing));
    let outcome = run_with(
        rt.alloc(),
        case.job,
        case.sought,
        &mut script,
        &mut timing,
        &mut requests,
        &mut out,
        &mut out_timing,
        &mut Watched::new(io::sink()),
    );
    Ran {
        outcome,
        script_calls: script.into_inner().calls,
        timing_calls: timing.into_inner().calls,
        requests_calls: requests.into_inner().calls,
        out,
        out_timing,
    }
}

fn slow_reader(text: &[u8], failing: usize) -> SlowReader<'_> {
    SlowReader {
        left: text,
        calls: 0,
        failing,
    }
}

fn slow_writer<R: AllocGlobal>(rt: &R, failure: Failure) -> SlowWriter {
    SlowWriter {
        taken: Vec::new(rt.alloc()),
        calls: 0,
        flushes: 0,
        failure,
    }
}

/// The outcome of a job that a device stopped.
fn stopped(fault: Fault) -> Outcome {
    Outcome {
        status: 3,
        fault: Some(JobFault::File(fault)),
    }
}

/// A run over sound devices: both texts go out whole, with one flush, and request lines are read where the job takes them.
fn compare_sound<R: Abort + AllocGlobal>(rt: &R, case: &Case<'_>) {
    let ran = run_slowly(rt, case, NONE_FAILS, Failure::None, Failure::None);
    assert_eq!(rt;
        (ran.outcome, ran.requests_calls > 0),
        (DONE, case.reads_requests)
    );
    assert_eq!(rt; (ran.out.failed(), ran.out_timing.failed()), (false, false));
    let (out, out_timing) = (ran.out.into_inner(), ran.out_timing.into_inner());
    assert_eq!(rt;
        (
            out.taken.as_slice(),
            out_timing.taken.as_slice(),
            out.flushes
        ),
        (case.text, case.new_timing, 1),
        "{:?}",
        case.job
    );
}

/// Sees that a writer has taken so many bytes of its text, those before it all of theirs, and those behind it nothing.
fn compare_begun<R: Abort>(
    rt: &R,
    writers: &[SlowWriter],
    texts: &[&[u8]],
    writer: usize,
    taken: usize,
) {
    for (place, (text, device)) in texts.iter().zip(writers).enumerate() {
        let begun = if place < writer {
            text.len()
        } else if place == writer {
            taken
        } else {
            0
        };
        assert_eq!(rt;
            Some(device.taken.as_slice()),
            text.get(..begun),
            "writer {place}, where {writer} fails at {taken}"
        );
        assert!(rt; device.flushes <= 1, "no flush is tried again");
    }
}

#[test]
fn jobs_over_slow_devices(rt: HostRuntime) {
    for case in &cases() {
        compare_sound(&rt, case);
    }
}

/// Whether no reader was called again after the call that failed.
fn is_not_retried(ran: &Ran, failing: Failing) -> bool {
    ran.script_calls <= failing.script.saturating_add(1)
        && ran.timing_calls <= failing.timing.saturating_add(1)
        && ran.requests_calls <= failing.requests.saturating_add(1)
}

/// A run whose reader fails: no call comes after the failed one, and nothing is written.
fn compare_unread<R: Abort + AllocGlobal>(rt: &R, case: &Case<'_>, failing: Failing) {
    let ran = run_slowly(rt, case, failing, Failure::None, Failure::None);
    assert_eq!(rt; ran.outcome, stopped(Fault::ReadFault), "{:?}", case.job);
    assert!(rt; is_not_retried(&ran, failing), "{:?} calls again", case.job);
    let (out, out_timing) = (ran.out.into_inner(), ran.out_timing.into_inner());
    assert_eq!(rt;
        (out.calls, out.flushes, out_timing.calls, out_timing.flushes),
        (0, 0, 0, 0),
        "nothing is written"
    );
}

#[test]
fn a_script_that_fails_stops_the_job(rt: HostRuntime) {
    for case in &cases() {
        for call in 0..=SCRIPT.len() {
            let failing = Failing {
                script: call,
                ..NONE_FAILS
            };
            compare_unread(&rt, case, failing);
        }
    }
}

#[test]
fn a_timing_that_fails_stops_the_job(rt: HostRuntime) {
    for case in &cases() {
        for call in 0..=TIMING.len() {
            let failing = Failing {
                timing: call,
                ..NONE_FAILS
            };
            compare_unread(&rt, case, failing);
        }
    }
}

#[test]
fn requests_that_fail_stop_the_job(rt: HostRuntime) {
    for case in &cases() {
        if case.reads_requests {
            for call in 0..=case.requests.len() {
                let failing = Failing {
                    requests: call,
                    ..NONE_FAILS
                };
                compare_unread(&rt, case, failing);
            }
        }
    }
}

/// How often timing and request lines are called where a call of the script fails.
fn calls_behind_a_script<R: Abort + AllocGlobal>(
    rt: &R,
    case: &Case<'_>,
    call: usize,
) -> (usize, usize) {
    let failing = Failing {
        script: call,
        ..NONE_FAILS
    };
    let ran = run_slowly(rt, case, failing, Failure::None, Failure::None);
    (ran.timing_calls, ran.requests_calls)
}

/// How often script and request lines are called where a call of the timing fails.
fn calls_round_a_timing<R: Abort + AllocGlobal>(
    rt: &R,
    case: &Case<'_>,
    call: usize,
) -> (usize, usize) {
    let failing = Failing {
        timing: call,
        ..NONE_FAILS
    };
    let ran = run_slowly(rt, case, failing, Failure::None, Failure::None);
    (ran.script_calls, ran.requests_calls)
}

/// The script is read to its end, then the timing to its end, and then the request lines.
#[test]
fn readers_are_read_in_order(rt: HostRuntime) {
    for case in &cases() {
        let behind = [0, SCRIPT.len()].map(|call| calls_behind_a_script(&rt, case, call));
        assert_eq!(rt; behind, [(0, 0); 2], "{:?}", case.job);
        let round = [0, TIMING.len()].map(|call| calls_round_a_timing(&rt, case, call));
        assert_eq!(rt; round, [(SCRIPT.len() + 1, 0); 2], "{:?}", case.job);
    }
}

/// A run over a pair with a fault, whose request lines fail at a call: how it ended, and the calls of the request lines.
fn run_damaged<R: Abort + AllocGlobal>(rt: &R, case: &Case<'_>, call: usize) -> (Outcome, usize) {
    let mut requests = Watched::new(slow_reader(case.requests, call));
    let outcome = run_with(
        rt.alloc(),
        case.job,
        case.sought,
        &mut Watched::new(SCRIPT),
        &mut Watched::new(b"0.1".as_slice()),
        &mut requests,
        &mut Watched::new(io::sink()),
        &mut Watched::new(io::sink()),
        &mut Watched::new(io::sink()),
    );
    (outcome, requests.into_inner().calls)
}

/// How a job ends over a pair with a fault. The status of `find` and `redact` is an answer otherwise.
fn damaged(job: Job) -> Outcome {
    let status = match job {
        Job::Find { .. } | Job::Redact { .. } => 3,
        _ => 1,
    };
    Outcome {
        status,
        fault: Some(JobFault::File(Fault::BadCount(1))),
    }
}

/// The recording is judged once all is read: request lines that fail are a read fault, and sound ones are read to their end.
#[test]
fn requests_are_read_before_the_recording_is_judged(rt: HostRuntime) {
    for case in &cases() {
        if case.reads_requests {
            let unread = run_damaged(&rt, case, 0);
            assert_eq!(rt; unread, (stopped(Fault::ReadFault), 1), "{:?}", case.job);
        }
        let calls = if case.reads_requests {
            case.requests.len() + 1
        } else {
            0
        };
        let read = run_damaged(&rt, case, NEVER);
        assert_eq!(rt; read, (damaged(case.job), calls), "{:?}", case.job);
    }
}

/// A run whose first writer fails: a beginning of its text went out, nothing is tried again, and nothing of the second
/// text is written.
fn compare_first<R: Abort + AllocGlobal>(rt: &R, case: &Case<'_>, failure: Failure, calls: usize) {
    let ran = run_slowly(rt, case, NONE_FAILS, failure, Failure::None);
    assert_eq!(rt;
        ran.outcome,
        stopped(Fault::WriteFault),
        "{:?} {failure:?}",
        case.job
    );
    assert_eq!(rt; (ran.out.failed(), ran.out_timing.failed()), (true, false));
    let (out, out_timing) = (ran.out.into_inner(), ran.out_timing.into_inner());
    assert_eq!(rt;
        (out.calls, out.flushes, out_timing.calls),
        (calls.saturating_add(1), 0, 0),
        "no fault is retried"
    );
    assert_eq!(rt; Some(out.taken.as_slice()), case.text.get(..calls));
}

/// Each call fails in turn; of a picture's, which are many, some fifty of them.
#[test]
fn a_writer_that_fails_stops_the_job(rt: HostRuntime) {
    for case in &cases() {
        compare_errors(&rt, case);
    }
}

#[test]
fn a_writer_that_takes_nothing_stops_the_job(rt: HostRuntime) {
    for case in &cases() {
        compare_refusals(&rt, case);
    }
}

/// Both of these.
fn compare_calls<R: Abort + AllocGlobal>(rt: &R, case: &Case<'_>) {
    compare_errors(rt, case);
    compare_refusals(rt, case);
}

/// A run for each of some calls of the first writer, which is an error.
fn compare_errors<R: Abort + AllocGlobal>(rt: &R, case: &Case<'_>) {
    for call in (0..case.text.len()).step_by(step_over(case)) {
        compare_first(rt, case, Failure::Write(call), call);
    }
}

/// A run for each of some calls of the first writer, which takes nothing.
fn compare_refusals<R: Abort + AllocGlobal>(rt: &R, case: &Case<'_>) {
    for call in (0..case.text.len()).step_by(step_over(case)) {
        compare_first(rt, case, Failure::TakesNothing(call), call);
    }
}

/// From one such call to the next.
fn step_over(case: &Case<'_>) -> usize
    ensures { 0 < result }
{
    case.text.len() / 60 + 1
}

/// A page's text is long, and what it is to be stands in page.rt.
#[test]
fn a_page_over_devices_that_fail(rt: HostRuntime) {
    let job = Job::Page {
        player: Player::Vt(Profile::Vt100),
    };
    let whole = do_job(rt.alloc(), job, SCRIPT, TIMING, b"");
    let case = plain_case(job, whole.text.as_slice());
    compare_sound(&rt, &case);
    compare_calls(&rt, &case);
    compare_unflushed(&rt, &case, Failure::FirstFlush);
    compare_unflushed(&rt, &case, Failure::EachFlush);
}

/// A run whose first writer fails at its flush: its text is whole, and no flush is tried again.
fn compare_unflushed<R: Abort + AllocGlobal>(rt: &R, case: &Case<'_>, failure: Failure) {
    let ran = run_slowly(rt, case, NONE_FAILS, failure, Failure::None);
    assert_eq!(rt; ran.outcome, stopped(Fault::WriteFault), "{:?}", case.job);
    let (out, out_timing) = (ran.out.into_inner(), ran.out_timing.into_inner());
    assert_eq!(rt;
        (out.taken.as_slice(), out.flushes, out_timing.calls),
        (case.text, 1, 0)
    );
}

#[test]
fn a_flush_that_fails_stops_the_job(rt: HostRuntime) {
    for case in &cases() {
        compare_unflushed(&rt, case, Failure::FirstFlush);
        compare_unflushed(&rt, case, Failure::EachFlush);
    }
}

/// A run whose second writer fails: the first text is whole.
fn compare_second<R: Abort + AllocGlobal>(rt: &R, case: &Case<'_>, failure: Failure, taken: usize) {
    let ran = run_slowly(rt, case, NONE_FAILS, Failure::None, failure);
    assert_eq!(rt;
        ran.outcome,
        stopped(Fault::WriteFault),
        "{:?} {failure:?}",
        case.job
    );
    let (out, out_timing) = (ran.out.into_inner(), ran.out_timing.into_inner());
    assert_eq!(rt;
        (
            out.taken.as_slice(),
            out.flushes,
            Some(out_timing.taken.as_slice())
        ),
        (case.text, 1, case.new_timing.get(..taken))
    );
    assert!(rt; out_timing.flushes <= 1, "no flush is tried again");
}

#[test]
fn a_second_writer_that_fails_stops_the_job(rt: HostRuntime) {
    for case in &cases() {
        compare_second_calls(&rt, case);
    }
}

/// A run for each call of the second writer, which fails at it, and for its flush.
fn compare_second_calls<R: Abort + AllocGlobal>(rt: &R, case: &Case<'_>) {
    for call in 0..case.new_timing.len() {
        compare_second(rt, case, Failure::Write(call), call);
        compare_second(rt, case, Failure::TakesNothing(call), call);
    }
    if !case.new_timing.is_empty() {
        compare_second(rt, case, Failure::FirstFlush, case.new_timing.len());
        compare_second(rt, case, Failure::EachFlush, case.new_timing.len());
    }
}
