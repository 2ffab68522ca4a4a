//! Refused growths in the calls that tell what became of a pair.
use super::{SCRIPT, TIMING, VT100, WRITTEN, redact as redact_case, room};
use job_tests::in_memory::{DONE, Ended};
use std::alloc::Global;
use std::io;
use std::process::Abort;
use std::rt::Runtime;
use std::test::Fail;
use tape_core::{Fault, Watched};
use tape_jobs::{JobFault, Outcome, import, mend, redact};
use tape_mend::Header;

/// Mends a pair that ends inside its last chunk, by the call that tells so: what is told stands as the note.
fn mend_cut(rt: &impl Runtime<A = Global>) -> Result<Ended, Fail> {
    let mut out = Watched::new(room(rt)?);
    let mut out_timing = Watched::new(room(rt)?);
    let mut told = Watched::new(room(rt)?);
    let mending = mend(
        rt.alloc(),
        Header::Kept,
        &mut Watched::new(SCRIPT),
        &mut Watched::new(b"0.5 6\n0.5 11\n0.5 9\n".as_slice()),
        &mut out,
        &mut out_timing,
        &mut told,
    );
    Ok(Ended {
        outcome: mending.outcome,
        text: out.into_inner(),
        new_timing: out_timing.into_inner(),
        note: told.into_inner(),
    })
}

/// Compares how mending or redacting ended, both files, and what was told.
fn compare_told(rt: &impl Abort, ended: &Ended, outcome: Outcome, texts: [&[u8]; 3]) {
    let written = [
        ended.text.as_slice(),
        ended.new_timing.as_slice(),
        ended.note.as_slice(),
    ];
    assert_eq!(rt; (ended.outcome, written), (outcome, texts));
}

/// Where memory is refused to it, nothing goes out.
#[test]
fn mend_and_tell(rt: HostRuntime) -> Result<(), Fail> {
    let mut ended = mend_cut(&rt)?;
    if ended.outcome.fault.is_some() {
        println!(rt; "refused: mend")?;
        let refused = Outcome {
            status: 3,
            fault: Some(JobFault::File(Fault::OutOfMemory)),
        };
        compare_told(&rt, &ended, refused, [b"", b"", b""]);
        ended = mend_cut(&rt)?;
    }
    let damaged = Outcome {
        status: 1,
        fault: None,
    };
    let told = b"chunk 2 cut to 7 of 9 bytes\n";
    compare_told(&rt, &ended, damaged, [SCRIPT, WRITTEN, told]);
    Ok(())
}

/// Imports an asciicast whose last line is no event: what is told stands as the note.
fn import_cut(rt: &impl Runtime<A = Global>) -> Result<Ended, Fail> {
    let mut out = Watched::new(room(rt)?);
    let mut out_timing = Watched::new(room(rt)?);
    let mut told = Watched::new(room(rt)?);
    let file = b"{\"version\": 2, \"env\": {\"TERM\": \"xterm\"}, \"timestamp\": 86400}\n\
        [0.5, \"o\", \"a\\u00e9\"]\n[1, \"m\", \"\"]\n[2, \"o\", \"b\"]\n[3, \"o\"";
    let outcome = import(
        rt.alloc(),
        &mut Watched::new(file.as_slice()),
        &mut out,
        &mut out_timing,
        &mut told,
    );
    Ok(Ended {
        outcome,
        text: out.into_inner(),
        new_timing: out_timing.into_inner(),
        note: told.into_inner(),
    })
}

/// Where memory is refused to it, nothing goes out.
#[test]
fn import_and_tell(rt: HostRuntime) -> Result<(), Fail> {
    let mut ended = import_cut(&rt)?;
    if ended.outcome.fault.is_some() {
        println!(rt; "refused: import")?;
        let refused = Outcome {
            status: 3,
            fault: Some(JobFault::File(Fault::OutOfMemory)),
        };
        compare_told(&rt, &ended, refused, [b"", b"", b""]);
        ended = import_cut(&rt)?;
    }
    let damaged = Outcome {
        status: 1,
        fault: None,
    };
    let script = b"Script started on 1970-01-02 00:00:00+00:00 [TERM=\"xterm\"]\na\xc3\xa9b";
    let told = b"recording line 5: bad event, 1 lines left out\n\
        0 inputs, 1 markers, 0 resizes and 0 others left out\n";
    compare_told(
        &rt,
        &ended,
        damaged,
        [script, b"0.500000 3\n1.500000 1\n", told],
    );
    Ok(())
}

/// What the second chunk draws is taken out, by the call that tells of it: what is told stands as the note.
fn redact_cd(rt: &impl Runtime<A = Global>) -> Result<Ended, Fail> {
    let mut out = Watched::new(room(rt)?);
    let mut out_timing = Watched::new(room(rt)?);
    let mut told = Watched::new(room(rt)?);
    let outcome = redact(
        rt.alloc(),
        VT100,
        &['c', 'd'],
        &mut Watched::new(SCRIPT),
        &mut Watched::new(TIMING),
        &mut out,
        &mut out_timing,
        &mut told,
        &mut Watched::new(io::sink()),
        &mut Watched::new(io::sink()),
    );
    Ok(Ended {
        outcome,
        text: out.into_inner(),
        new_timing: out_timing.into_inner(),
        note: told.into_inner(),
    })
}

/// Where memory is refused to it, nothing goes out.
#[test]
fn redact_and_tell(rt: HostRuntime) -> Result<(), Fail> {
    let mut ended = redact_cd(&rt)?;
    if let Some(fault) = ended.outcome.fault {
        println!(rt; "refused: redact")?;
        let memory = [JobFault::File(Fault::OutOfMemory), JobFault::Memory];
        assert!(rt; memory.contains(&fault), "{fault:?}");
        let refused = Outcome {
            status: 3,
            fault: Some(fault),
        };
        compare_told(&rt, &ended, refused, [b"", b"", b""]);
        ended = redact_cd(&rt)?;
    }
    let text = redact_case(VT100).text;
    compare_told(&rt, &ended, DONE, [text, WRITTEN, b"redacted 1\n"]);
    Ok(())
}
