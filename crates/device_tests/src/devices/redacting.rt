//! The call `redact` over such devices.
use super::{Failure, NEVER, SlowWriter, compare_begun, slow_reader, slow_writer, stopped};
use command_line::Player;
use std::process::Abort;
use tape_core::{Fault, Watched};
use tape_jobs::{Outcome, redact};
use vt_term::Profile;

/// The text stands in the typescript once, and once more on the screen, typed with a correction.
const SECRET: &[char] = &['a', 'b'];

const SCRIPT: &[u8] = b"Script started on X\nabax\x08b";

const TIMING: &[u8] = b"0 1\n0.5 5\n";

/// The new pair, how often the text was taken out, and where it still stands.
const TEXTS: [&[u8]; 4] = [
    b"Script started on X\n**ax\x08b",
    b"0.000000 1\n0.500000 5\n",
    b"redacted 1\n",
    b"+ 1 0.500000 1 3 **ab\n",
];

/// How redacting over slow devices ended, and what became of them.
#[derive(Drop)]
struct Ran {
    outcome: Outcome,
    script_calls: usize,
    timing_calls: usize,
    writers: [SlowWriter; 4],
}

/// Takes the text out, where a call of each reader fails and writers fail so.
fn redact_slowly<R: Abort + AllocGlobal>(rt: &R, calls: [usize; 2], failures: [Failure; 4]) -> Ran {
    let mut script = Watched::new(slow_reader(SCRIPT, calls[0]));
    let mut timing = Watched::new(slow_reader(TIMING, calls[1]));
    let mut out = Watched::new(slow_writer(rt, failures[0]));
    let mut out_timing = Watched::new(slow_writer(rt, failures[1]));
    let mut told = Watched::new(slow_writer(rt, failures[2]));
    let mut found = Watched::new(slow_writer(rt, failures[3]));
    let outcome = redact(
        rt.alloc(),
        Player::Vt(Profile::Vt100),
        SECRET,
        &mut script,
        &mut timing,
        &mut out,
        &mut out_timing,
        &mut told,
        &mut found,
        &mut Watched::new(Vec::new(rt.alloc())),
    );
    Ran {
        outcome,
        script_calls: script.into_inner().calls,
        timing_calls: timing.into_inner().calls,
        writers: [
            out.into_inner(),
            out_timing.into_inner(),
            told.into_inner(),
            found.into_inner(),
        ],
    }
}

/// Nothing was written, or all of it, with as many flushes.
fn compare_flushed<R: Abort>(rt: &R, ran: &Ran, texts: [&[u8]; 4], flushes: usize) {
    for (text, device) in texts.iter().zip(&ran.writers) {
        assert_eq!(rt; (device.taken.as_slice(), device.flushes), (*text, flushes));
    }
}

#[test]
fn redacting_over_slow_devices(rt: HostRuntime) {
    let ran = redact_slowly(&rt, [NEVER; 2], [Failure::None; 4]);
    let left = Outcome {
        status: 1,
        fault: None,
    };
    assert_eq!(rt; ran.outcome, left);
    compare_flushed(&rt, &ran, TEXTS, 1);
}

#[test]
fn a_reader_that_fails_stops_redacting(rt: HostRuntime) {
    for call in 0..=SCRIPT.len() {
        let ran = redact_slowly(&rt, [call, NEVER], [Failure::None; 4]);
        assert_eq!(rt; ran.outcome, stopped(Fault::ReadFault));
        assert_eq!(rt;
            (ran.script_calls, ran.timing_calls),
            (call.saturating_add(1), 0)
        );
        compare_flushed(&rt, &ran, [b""; 4], 0);
    }
    for call in 0..=TIMING.len() {
        let ran = redact_slowly(&rt, [NEVER, call], [Failure::None; 4]);
        assert_eq!(rt; ran.outcome, stopped(Fault::ReadFault));
        assert_eq!(rt; ran.timing_calls, call.saturating_add(1));
        compare_flushed(&rt, &ran, [b""; 4], 0);
    }
}

/// Takes the text out where the writer of this number fails so at this byte of its text.
fn compare_failed<R: Abort + AllocGlobal>(rt: &R, writer: usize, failure: Failure, taken: usize) {
    let mut failures = [Failure::None; 4];
    if let Some(place) = failures.get_mut(writer) {
        *place = failure;
    }
    let ran = redact_slowly(rt, [NEVER; 2], failures);
    assert_eq!(rt;
        ran.outcome,
        stopped(Fault::WriteFault),
        "{writer} {failure:?}"
    );
    compare_begun(rt, &ran.writers, &TEXTS, writer, taken);
}

/// The first texts are whole, a beginning of the one that failed went out, and nothing behind it.
#[test]
fn a_writer_that_fails_stops_redacting(rt: HostRuntime) {
    for (writer, text) in TEXTS.iter().enumerate() {
        for call in 0..text.len() {
            compare_failed(&rt, writer, Failure::Write(call), call);
            compare_failed(&rt, writer, Failure::TakesNothing(call), call);
        }
        compare_failed(&rt, writer, Failure::FirstFlush, text.len());
        compare_failed(&rt, writer, Failure::EachFlush, text.len());
    }
}
