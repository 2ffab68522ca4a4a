//! A pair of 4 MiB through the jobs that write it again: what grows has to grow far. Real files of 40 MiB pass in tests/program.sh.
use command_line::Job;
use job_tests::in_memory::{DONE, HEADER, do_job};
use std::alloc::Global;
use std::process::Abort;
use std::test::Fail;

const CHUNKS: usize = 4;

/// The pages of a chunk of 1 MiB.
const PAGES: usize = 256;

/// Chunks of 1 MiB, each of a letter of its own.
fn large_body(alloc: Global) -> Result<Vec<u8>, Fail> {
    let mut body = Vec::new(alloc);
    for letter in (b'a'..=b'z').cycle().take(CHUNKS) {
        let page = [letter; 4096];
        for _ in 0..PAGES {
            body.extend_from_slice(&page)?;
        }
    }
    Ok(body)
}

/// The timing line of each, a tenth of a second.
const LINE: &str = "0.100000 1048576\n";

/// Does a job over texts in memory, and compares both texts that it writes.
fn compare<R: Abort + AllocGlobal>(
    rt: &R,
    job: Job,
    given: (&[u8], &[u8]),
    wanted: (&[u8], &[u8]),
) {
    let ended = do_job(rt.alloc(), job, given.0, given.1, b"");
    assert_eq!(rt; ended.outcome, DONE);
    let texts = (ended.text.as_slice(), ended.new_timing.as_slice());
    assert!(rt; texts == wanted, "{job:?}");
}

#[test]
fn four_mebibytes_pass_through(rt: HostRuntime) -> Result<(), Fail> {
    let body = large_body(rt.alloc())?;
    let timing = LINE.repeat(rt.alloc(), CHUNKS)?;
    let script = [HEADER, body.as_slice()].concat(rt.alloc())?;
    let pair = (script.as_slice(), timing.as_bytes());
    let end = Job::Due { at: 400_000 };
    compare(&rt, end, pair, (body.as_slice(), b""));
    compare(&rt, Job::Save, pair, pair);
    Ok(())
}
