//! The call `import` over texts in memory: rows by hand, of the new pair and of what is told.
use crate::in_memory::{DONE, do_job};
use command_line::Job;
use std::process::Abort;
use tape_core::Watched;
use tape_jobs::{JobFault, Outcome, import};

/// The new pair, what is told, and the outcome.
type Wanted<'a> = (&'a [u8], &'a [u8], &'a [u8], Outcome);

/// Something was left out or cut.
const DAMAGED: Outcome = Outcome {
    status: 1,
    fault: None,
};

/// The recording is compressed.
const COMPRESSED: Outcome = Outcome {
    status: 1,
    fault: Some(JobFault::Compressed),
};

/// Its form isn't known.
const FORMLESS: Outcome = Outcome {
    status: 1,
    fault: Some(JobFault::NoKnownForm),
};

/// Recordings, and what they are imported as.
const ROWS: [(&[u8], Wanted<'static>); 11] = [
    (
        b"{\"version\": 2, \"width\": 80, \"height\": 24}\n[1, \"o\", \"a\"]\n[2, \"o\", \"\"]\n[2.5, \"o\", \"b\"]\n",
        (
            b"Script started on unknown [COLUMNS=\"80\" LINES=\"24\"]\nab",
            b"1.000000 1\n1.500000 1\n",
            b"",
            DONE,
        ),
    ),
    (
        b"{\"version\": 2, \"width\": 80, \"height\": 24}\n[0, \"o\", \"a\"]\n[0, \"o\", \"\\x41\"]\n[0, \"o\", \"b\"]\n",
        (
            b"Script started on unknown [COLUMNS=\"80\" LINES=\"24\"]\na",
            b"0.000000 1\n",
            b"recording line 3: bad event, 2 lines left out\n",
            DAMAGED,
        ),
    ),
    (
        b"{\"version\": 2, \"width\": 80, \"height\": 24}\n[0, \"o\", \"a\"]\n[0, \"i\", \"x\"]\n[2, \"r\", \"100x30\"]\n",
        (
            b"Script started on unknown [COLUMNS=\"80\" LINES=\"24\"]\na",
            b"0.000000 1\n",
            b"1 inputs, 0 markers, 1 resizes and 0 others left out\n",
            DAMAGED,
        ),
    ),
    (
        b"{\"version\": 2, \"width\": 80, \"height\": 24}\n[0, \"r\", \"132x43\"]\n[0, \"o\", \"a\"]\n[0, \"i\", \"x\"]\n",
        (
            b"Script started on unknown [COLUMNS=\"132\" LINES=\"43\"]\na",
            b"0.000000 1\n",
            b"1 inputs, 0 markers, 0 resizes and 0 others left out\n",
            DONE,
        ),
    ),
    (
        b"{\"version\": 2, \"width\": 80, \"height\": 24}\n[1, \"o\", \"a\"]\n[2000002, \"o\", \"b\"]\n[2000003.5, \"o\", \"c\"]\n",
        (
            b"Script started on unknown [COLUMNS=\"80\" LINES=\"24\"]\nabc",
            b"1.000000 1\n1000000.000000 1\n1.500000 1\n",
            b"1 delays cut to 1000000 seconds\n",
            DAMAGED,
        ),
    ),
    (
        b"\xef\xbb\xbf{\"version\": 3, \"term\": {\"cols\": 90, \"rows\": 20, \"type\": \"xterm\"}, \
          \"timestamp\": 86400}\r\n\n[0.5, \"o\", \"a\"]\n# b\n[0.25, \"i\", \"x\"]\n[0.25, \"o\", \"b\"]\n",
        (
            b"Script started on 1970-01-02 00:00:00+00:00 [TERM=\"xterm\" COLUMNS=\"90\" LINES=\"20\"]\nab",
            b"0.500000 1\n0.500000 1\n",
            b"1 inputs, 0 markers, 0 resizes and 0 others left out\n",
            DONE,
        ),
    ),
    // Records of 5, 3 and 4.5 seconds, of which the last tells 5 bytes and has 2.
    (
        b"\x05\0\0\0\0\0\0\0\x01\0\0\0a\x03\0\0\0\0\0\0\0\x01\0\0\0b\x04\0\0\0\x20\xa1\x07\0\x05\0\0\0cd",
        (
            b"Script started on unknown\nabcd",
            b"0.000000 1\n0.000000 1\n1.500000 2\n",
            b"chunk 2 cut to 2 of 5 bytes\n",
            DAMAGED,
        ),
    ),
    (b"\x1f\x8b\x08\0abcdefgh", (b"", b"", b"", COMPRESSED)),
    (b"Script started on X\nab", (b"", b"", b"", FORMLESS)),
    (b"", (b"", b"", b"", FORMLESS)),
    (b"[0, \"o\", \"a\"]\n", (b"", b"", b"", FORMLESS)),
];

/// Imports a recording by the call `import`, and compares what came out.
fn compare_imported<R: Abort + AllocGlobal>(rt: &R, file: &[u8], wanted: Wanted<'_>) {
    let mut script = Watched::new(Vec::new(rt.alloc()));
    let mut timing = Watched::new(Vec::new(rt.alloc()));
    let mut told = Watched::new(Vec::new(rt.alloc()));
    let outcome = import(
        rt.alloc(),
        &mut Watched::new(file),
        &mut script,
        &mut timing,
        &mut told,
    );
    assert_eq!(rt;
        (
            script.into_inner().as_slice(),
            timing.into_inner().as_slice(),
            told.into_inner().as_slice(),
            outcome
        ),
        wanted,
        "{file:?}"
    );
}

/// Does the job that imports, which tells nothing, and compares what came out.
fn compare_job<R: Abort + AllocGlobal>(rt: &R, file: &[u8], wanted: Wanted<'_>) {
    let ended = do_job(rt.alloc(), Job::Import, file, b"left alone", b"left alone");
    let (text, new_timing) = (ended.text.as_slice(), ended.new_timing.as_slice());
    assert_eq!(rt; (text, new_timing), (wanted.0, wanted.1), "{file:?}");
    assert_eq!(rt;
        (ended.note.len(), ended.outcome),
        (0, wanted.3),
        "{file:?}"
    );
}

#[test]
fn recordings_are_imported(rt: HostRuntime) {
    for (file, wanted) in &ROWS {
        compare_imported(&rt, file, *wanted);
        compare_job(&rt, file, *wanted);
    }
}
