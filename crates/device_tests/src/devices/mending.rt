//! The call `mend` over such devices, and the job of its name.
use super::{
    Failing, Failure, NEVER, NONE_FAILS, SlowWriter, compare_begun, compare_calls,
    compare_second_calls, compare_sound, compare_unflushed, compare_unread, slow_reader,
    slow_writer, stopped,
};
use crate::refused;
use std::process::Abort;
use tape_core::{Fault, Watched};
use tape_jobs::{Outcome, mend};
use tape_mend::Header;

/// A recording of a chunk, behind which a line is left out, and a byte has no timing.
const SCRIPT: &[u8] = b"Script started on X\nab";

const TIMING: &[u8] = b"0 1\n0.5 x\n";

const NEW_TIMING: &[u8] = b"0.000000 1\n";

const TOLD: &[u8] =
    b"timing line 2: bad count, 1 lines left out\n1 bytes behind the last chunk have no timing\n";

/// How mending over slow devices ended, and what became of them.
#[derive(Drop)]
struct Ran {
    outcome: Outcome,
    script_calls: usize,
    timing_calls: usize,
    writers: [SlowWriter; 3],
}

/// Mends the pair, where a call of each reader fails and writers fail so: of the script, of the timing, and of what is
/// told.
fn mend_slowly<R: Abort + AllocGlobal>(rt: &R, calls: [usize; 2], failures: [Failure; 3]) -> Ran {
    let mut script = Watched::new(slow_reader(SCRIPT, calls[0]));
    let mut timing = Watched::new(slow_reader(TIMING, calls[1]));
    let mut out = Watched::new(slow_writer(rt, failures[0]));
    let mut out_timing = Watched::new(slow_writer(rt, failures[1]));
    let mut told = Watched::new(slow_writer(rt, failures[2]));
    let mending = mend(
        rt.alloc(),
        Header::Kept,
        &mut script,
        &mut timing,
        &mut out,
        &mut out_timing,
        &mut told,
    );
    Ran {
        outcome: mending.outcome,
        script_calls: script.into_inner().calls,
        timing_calls: timing.into_inner().calls,
        writers: [out.into_inner(), out_timing.into_inner(), told.into_inner()],
    }
}

/// Sees what the writers took, and how often each was flushed.
fn compare_taken<R: Abort>(rt: &R, ran: &Ran, texts: [&[u8]; 3], flushes: [usize; 3]) {
    let [out, out_timing, told] = &ran.writers;
    assert_eq!(rt;
        [
            out.taken.as_slice(),
            out_timing.taken.as_slice(),
            told.taken.as_slice()
        ],
        texts
    );
    assert_eq!(rt; [out.flushes, out_timing.flushes, told.flushes], flushes);
}

#[test]
fn mending_over_slow_devices(rt: HostRuntime) {
    let ran = mend_slowly(&rt, [NEVER; 2], [Failure::None; 3]);
    let damaged = Outcome {
        status: 1,
        fault: None,
    };
    assert_eq!(rt; ran.outcome, damaged);
    compare_taken(&rt, &ran, [SCRIPT, NEW_TIMING, TOLD], [1, 1, 1]);
}

#[test]
fn a_reader_that_fails_stops_mending(rt: HostRuntime) {
    for call in 0..=SCRIPT.len() {
        let ran = mend_slowly(&rt, [call, NEVER], [Failure::None; 3]);
        assert_eq!(rt; ran.outcome, stopped(Fault::ReadFault));
        assert_eq!(rt;
            (ran.script_calls, ran.timing_calls),
            (call.saturating_add(1), 0)
        );
        compare_taken(&rt, &ran, [b"", b"", b""], [0, 0, 0]);
    }
    for call in 0..=TIMING.len() {
        let ran = mend_slowly(&rt, [NEVER, call], [Failure::None; 3]);
        assert_eq!(rt; ran.outcome, stopped(Fault::ReadFault));
        assert_eq!(rt; ran.timing_calls, call.saturating_add(1));
        compare_taken(&rt, &ran, [b"", b"", b""], [0, 0, 0]);
    }
}

/// Mends where the writer of this number fails so at this byte of its text.
fn compare_failed<R: Abort + AllocGlobal>(rt: &R, writer: usize, failure: Failure, taken: usize) {
    let texts = [SCRIPT, NEW_TIMING, TOLD];
    let mut failures = [Failure::None; 3];
    if let Some(place) = failures.get_mut(writer) {
        *place = failure;
    }
    let ran = mend_slowly(rt, [NEVER; 2], failures);
    assert_eq!(rt;
        ran.outcome,
        stopped(Fault::WriteFault),
        "{writer} {failure:?}"
    );
    compare_begun(rt, &ran.writers, &texts, writer, taken);
}

/// The first texts are whole, a beginning of the one that failed went out, and nothing behind it.
#[test]
fn a_writer_that_fails_stops_mending(rt: HostRuntime) {
    for (writer, text) in [SCRIPT, NEW_TIMING, TOLD].iter().enumerate() {
        for call in 0..text.len() {
            compare_failed(&rt, writer, Failure::Write(call), call);
            compare_failed(&rt, writer, Failure::TakesNothing(call), call);
        }
        compare_failed(&rt, writer, Failure::FirstFlush, text.len());
        compare_failed(&rt, writer, Failure::EachFlush, text.len());
    }
}

/// Each byte of both files is a call, and one more finds the end.
#[test]
fn a_reader_that_fails_stops_the_job_mend(rt: HostRuntime) {
    let case = refused::mend();
    for call in 0..=refused::SCRIPT.len() {
        let script = Failing {
            script: call,
            ..NONE_FAILS
        };
        compare_unread(&rt, &case, script);
    }
    for call in 0..=refused::TIMING.len() {
        let timing = Failing {
            timing: call,
            ..NONE_FAILS
        };
        compare_unread(&rt, &case, timing);
    }
}

#[test]
fn a_writer_that_fails_stops_the_job_mend(rt: HostRuntime) {
    let case = refused::mend();
    compare_sound(&rt, &case);
    compare_calls(&rt, &case);
    compare_unflushed(&rt, &case, Failure::FirstFlush);
    compare_unflushed(&rt, &case, Failure::EachFlush);
    compare_second_calls(&rt, &case);
}
