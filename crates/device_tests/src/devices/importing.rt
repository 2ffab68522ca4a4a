//! The call `import` over such devices, and the job of its name.
use super::{Failure, NEVER, SlowWriter, compare_begun, slow_reader, slow_writer, stopped};
use command_line::Job;
use std::io;
use std::process::Abort;
use tape_core::{Fault, Watched};
use tape_jobs::{Outcome, import, run_with};

/// A recording of a chunk, behind which a line is left out.
const RECORDING: &[u8] = b"{\"version\": 2}\n[0.5, \"o\", \"ab\"]\n[1, \"o\"]\n";

const NEW_SCRIPT: &[u8] = b"Script started on unknown\nab";

const NEW_TIMING: &[u8] = b"0.500000 2\n";

const TOLD: &[u8] = b"recording line 3: bad event, 1 lines left out\n";

/// How importing over slow devices ended, and what became of them.
#[derive(Drop)]
struct Ran {
    outcome: Outcome,
    calls: usize,
    writers: [SlowWriter; 3],
}

/// Imports the recording, where a call of the reader fails and writers fail so: of the script, of the timing, and of what
/// is told.
fn import_slowly<R: Abort + AllocGlobal>(rt: &R, call: usize, failures: [Failure; 3]) -> Ran {
    let mut recording = Watched::new(slow_reader(RECORDING, call));
    let mut out = Watched::new(slow_writer(rt, failures[0]));
    let mut out_timing = Watched::new(slow_writer(rt, failures[1]));
    let mut told = Watched::new(slow_writer(rt, failures[2]));
    let outcome = import(
        rt.alloc(),
        &mut recording,
        &mut out,
        &mut out_timing,
        &mut told,
    );
    Ran {
        outcome,
        calls: recording.into_inner().calls,
        writers: [out.into_inner(), out_timing.into_inner(), told.into_inner()],
    }
}

/// Sees what the writers took, and how often each was flushed.
fn compare_taken<R: Abort>(rt: &R, ran: &Ran, texts: [&[u8]; 3], flushes: [usize; 3]) {
    let [out, out_timing, told] = &ran.writers;
    assert_eq!(rt;
        [
            out.taken.as_slice(),
            out_timing.taken.as_slice(),
            told.taken.as_slice()
        ],
        texts
    );
    assert_eq!(rt; [out.flushes, out_timing.flushes, told.flushes], flushes);
}

#[test]
fn importing_over_slow_devices(rt: HostRuntime) {
    let ran = import_slowly(&rt, NEVER, [Failure::None; 3]);
    let damaged = Outcome {
        status: 1,
        fault: None,
    };
    assert_eq!(rt; ran.outcome, damaged);
    compare_taken(&rt, &ran, [NEW_SCRIPT, NEW_TIMING, TOLD], [1, 1, 1]);
}

/// Each byte of the recording is a call, and one more finds the end.
#[test]
fn a_reader_that_fails_stops_importing(rt: HostRuntime) {
    for call in 0..=RECORDING.len() {
        let ran = import_slowly(&rt, call, [Failure::None; 3]);
        assert_eq!(rt; ran.outcome, stopped(Fault::ReadFault));
        assert_eq!(rt; ran.calls, call.saturating_add(1));
        compare_taken(&rt, &ran, [b"", b"", b""], [0, 0, 0]);
    }
}

/// Imports where the writer of this number fails so at this byte of its text.
fn compare_failed<R: Abort + AllocGlobal>(rt: &R, writer: usize, failure: Failure, taken: usize) {
    let texts = [NEW_SCRIPT, NEW_TIMING, TOLD];
    let mut failures = [Failure::None; 3];
    if let Some(place) = failures.get_mut(writer) {
        *place = failure;
    }
    let ran = import_slowly(rt, NEVER, failures);
    assert_eq!(rt;
        ran.outcome,
        stopped(Fault::WriteFault),
        "{writer} {failure:?}"
    );
    compare_begun(rt, &ran.writers, &texts, writer, taken);
}

/// The first texts are whole, a beginning of the one that failed went out, and nothing behind it.
#[test]
fn a_writer_that_fails_stops_importing(rt: HostRuntime) {
    for (writer, text) in [NEW_SCRIPT, NEW_TIMING, TOLD].iter().enumerate() {
        for call in 0..text.len() {
            compare_failed(&rt, writer, Failure::Write(call), call);
            compare_failed(&rt, writer, Failure::TakesNothing(call), call);
        }
        compare_failed(&rt, writer, Failure::FirstFlush, text.len());
        compare_failed(&rt, writer, Failure::EachFlush, text.len());
    }
}

/// The job reads the recording as the script: how it ends where a call of that fails, and how often the timing and the
/// request lines are called.
fn run_job<R: Abort + AllocGlobal>(rt: &R, call: usize) -> (Outcome, usize, usize) {
    let mut recording = Watched::new(slow_reader(RECORDING, call));
    let mut timing = Watched::new(slow_reader(b"0 1\n", 0));
    let mut requests = Watched::new(slow_reader(b"info\n", 0));
    let outcome = run_with(
        rt.alloc(),
        Job::Import,
        &[],
        &mut recording,
        &mut timing,
        &mut requests,
        &mut Watched::new(io::sink()),
        &mut Watched::new(io::sink()),
        &mut Watched::new(io::sink()),
    );
    let (timing, requests) = (timing.into_inner(), requests.into_inner());
    (outcome, timing.calls, requests.calls)
}

#[test]
fn the_job_import_reads_one_file(rt: HostRuntime) {
    let damaged = Outcome {
        status: 1,
        fault: None,
    };
    assert_eq!(rt; run_job(&rt, NEVER), (damaged, 0, 0));
    for call in 0..=RECORDING.len() {
        assert_eq!(rt; run_job(&rt, call), (stopped(Fault::ReadFault), 0, 0));
    }
}
