//! A job over a recording in memory.

use crate::digest::Digest;
use crate::recorder::Recorder;
use command_line::Job;
use std::alloc::Global;
use std::io;
use tape_core::Watched;
use tape_jobs::run_with;

/// A moment behind the end of each recording.
pub const END: u64 = 1_000_000_000_000_000_000;

/// Does a job over a recording, and prints how it ended with a digest of what it wrote.
pub fn do_job<R: Print + AllocGlobal>(
    rt: &R,
    name: &str,
    job: Job,
    text: &[char],
    recorder: &Recorder,
    requests: &str,
) -> io::Result<()> {
    let alloc: Global = rt.alloc();
    let mut out = Watched::new(Vec::new(alloc));
    let mut out_timing = Watched::new(Vec::new(alloc));
    let mut note = Watched::new(Vec::new(alloc));
    let outcome = run_with(
        alloc,
        job,
        text,
        &mut Watched::new(recorder.script.as_slice()),
        &mut Watched::new(recorder.timing.as_slice()),
        &mut Watched::new(requests.as_bytes()),
        &mut out,
        &mut out_timing,
        &mut note,
    );
    let (out, out_timing, note) = (out.into_inner(), out_timing.into_inner(), note.into_inner());
    let mut digest = Digest::new();
    digest.take(out.as_slice());
    digest.take(out_timing.as_slice());
    digest.take(note.as_slice());
    let (chunks, status, count, number) = (
        recorder.chunks,
        outcome.status,
        out.len(),
        digest.number,
    );
    println!(rt; "{name}: {chunks} chunks, status {status}, {count} bytes, digest {number:016x}")
}
