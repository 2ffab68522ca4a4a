//! The comparison of what comes out of a job over texts in memory.

use crate::in_memory::{DONE, HEADER, do_job};
use command_line::Job;
use std::process::Abort;
use std::test::Fail;
use tape_jobs::Outcome;

/// A job over texts in memory: the script without its header, the timing and the request lines, and then both texts that
/// come out and the outcome.
#[derive(Clone, Copy)]
pub(crate) struct Case<'a> {
    pub(crate) job: Job,
    pub(crate) body: &'a str,
    pub(crate) timing: &'a str,
    pub(crate) requests: &'a str,
    pub(crate) text: &'a str,
    pub(crate) new_timing: &'a str,
    pub(crate) outcome: Outcome,
}

/// A job without requests or a new timing, which is done.
pub(crate) fn done<'a>(job: Job, body: &'a str, timing: &'a str, text: &'a str) -> Case<'a> {
    Case {
        job,
        body,
        timing,
        requests: "",
        text,
        new_timing: "",
        outcome: DONE,
    }
}

/// Does a job in memory, and compares what came out.
pub(crate) fn compare<R: Abort + AllocGlobal>(rt: &R, case: &Case<'_>) -> Result<(), Fail> {
    let script = [HEADER, case.body.as_bytes()].concat(rt.alloc())?;
    compare_over(rt, script.as_slice(), case);
    Ok(())
}

/// Does a job over this script, and compares what came out.
pub(crate) fn compare_over<R: Abort + AllocGlobal>(rt: &R, script: &[u8], case: &Case<'_>) {
    let timing = case.timing.as_bytes();
    let requests = case.requests.as_bytes();
    let ended = do_job(rt.alloc(), case.job, script, timing, requests);
    assert_eq!(rt;
        (
            ended.outcome,
            text_of(ended.text.as_slice()),
            text_of(ended.new_timing.as_slice())
        ),
        (case.outcome, case.text, case.new_timing),
        "{:?} {:?} {:?} {:?}",
        case.job,
        case.body,
        case.timing,
        case.requests
    );
}

/// Bytes as a text, which a failed comparison prints. No wanted text has bytes that are none.
fn text_of(bytes: &[u8]) -> &str {
    match str::from_utf8(bytes) {
        Ok(text) => text,
        Err(_) => "(bytes that are no UTF-8)",
    }
}
