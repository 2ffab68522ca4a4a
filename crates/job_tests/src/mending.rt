//! The call `mend` over texts in memory: rows by hand, of the new pair and of what is told.
use crate::in_memory::{DONE, do_job};
use command_line::Job;
use std::io;
use std::process::Abort;
use tape_core::{Fault, Watched};
use tape_jobs::{JobFault, Outcome, mend};
use tape_mend::Header;

/// A typescript, a timing file, and which line is taken as the header.
type Pair<'a> = (&'a [u8], &'a [u8], Header);

/// The new pair, what is told, and the outcome.
type Wanted<'a> = (&'a [u8], &'a [u8], &'a [u8], Outcome);

/// A line or a chunk was left out or cut, or bytes have no timing.
const DAMAGED: Outcome = Outcome {
    status: 1,
    fault: None,
};

/// No line can be the header.
const REFUSED: Outcome = Outcome {
    status: 1,
    fault: Some(JobFault::File(Fault::NoHeader)),
};

/// Both files are one log, so the bytes of inputs lie in the typescript.
const SHARED: &[u8] = b"H 0 OUTPUT_LOG x\nH 0 INPUT_LOG x\nO 0.5 1\nI 0.25 1\nO 0.25 1\n";

/// Two sessions in one typescript.
const APPENDED: &[u8] =
    b"Script started on X\nold\nScript done on X\nScript started on Y\nab\nScript done on Y\n";

/// Pairs, and what they are mended to.
const ROWS: [(Pair<'static>, Wanted<'static>); 13] = [
    (
        (
            b"Script started on X\naXb",
            b"0 1\n0.25 1\n0.5 1",
            Header::Kept,
        ),
        (
            b"Script started on X\naXb",
            b"0.000000 1\n0.250000 1\n0.500000 1\n",
            b"",
            DONE,
        ),
    ),
    (
        (
            b"Script started on X\naX",
            b"0.000000 1\n0.250000 1\n0.500000 1\n",
            Header::Kept,
        ),
        (
            b"Script started on X\naX",
            b"0.000000 1\n0.250000 1\n",
            b"1 chunks left out\n",
            DAMAGED,
        ),
    ),
    (
        (b"h\nab", b"O 0.5 1\nI 0.25 1\nO 0.25 1\n", Header::Kept),
        (
            b"h\nab",
            b"0.500000 1\n0.500000 1\n",
            b"1 inputs and 0 signals left out\n",
            DONE,
        ),
    ),
    (
        (b"h\naib", SHARED, Header::Kept),
        (
            b"h\nab",
            b"0.500000 1\n0.500000 1\n",
            b"1 inputs and 0 signals left out\n",
            DONE,
        ),
    ),
    (
        (b"h\na", b"0.5 1\nzero\n", Header::Kept),
        (
            b"h\na",
            b"0.500000 1\n",
            b"timing line 2: multi-stream format, 1 lines left out\n",
            DAMAGED,
        ),
    ),
    (
        (
            b"h\nab",
            b"O 0 1\nS 1 SIGWINCH\nO 0 5\nO 0 1\nT 0 1\n\n",
            Header::Kept,
        ),
        (
            b"h\nab",
            b"0.000000 1\n1.000000 1\n",
            b"timing line 5: bad stream, 2 lines left out\n0 inputs and 1 signals left out\n\
                chunk 1 cut to 1 of 5 bytes\n1 chunks left out\n",
            DAMAGED,
        ),
    ),
    (
        (APPENDED, b"1 2\n", Header::Last),
        (
            b"Script started on Y\nab\nScript done on Y\n",
            b"1.000000 2\n",
            b"",
            DONE,
        ),
    ),
    (
        (b"h\nab\nScript done on X", b"0 1\r\n0 1\r\n", Header::Kept),
        (
            b"h\nab\nScript done on X",
            b"0.000000 1\n0.000000 1\n",
            b"timing has CR LF\n",
            DONE,
        ),
    ),
    (
        (b"ab\n", b"1 3\n", Header::Made),
        (b"Script started\nab\n", b"1.000000 3\n", b"", DONE),
    ),
    (
        (b"", b"", Header::Made),
        (b"Script started\n", b"", b"", DONE),
    ),
    ((b"ab", b"0 1\n", Header::Kept), (b"", b"", b"", REFUSED)),
    ((b"ab", b"bad\n", Header::Last), (b"", b"", b"", REFUSED)),
    ((b"", b"", Header::Kept), (b"", b"", b"", REFUSED)),
];

/// Pairs with bytes that have no timing, what they are mended to, and what is told of that.
const UNTIMED: [(Pair<'static>, Wanted<'static>, &[u8]); 5] = [
    (
        (b"h\nab", b"0.5 1\nzero\n", Header::Kept),
        (
            b"h\nab",
            b"0.500000 1\n",
            b"timing line 2: multi-stream format, 1 lines left out\n\
                1 bytes behind the last chunk have no timing\n",
            DAMAGED,
        ),
        b"1 bytes behind the last chunk have no timing\n",
    ),
    (
        (APPENDED, b"1 3\n", Header::Last),
        (
            b"Script started on Y\nab\nScript done on Y\n",
            b"1.000000 3\n",
            b"17 bytes behind the last chunk have no timing\n",
            DAMAGED,
        ),
        b"17 bytes behind the last chunk have no timing\n",
    ),
    (
        (b"h\na\nScript done on X\n\n", b"1 1\n", Header::Kept),
        (
            b"h\na\nScript done on X\n\n",
            b"1.000000 1\n",
            b"19 bytes behind the last chunk have no timing\n",
            DAMAGED,
        ),
        b"19 bytes behind the last chunk have no timing\n",
    ),
    (
        (b"ab", b"", Header::Made),
        (
            b"Script started\nab",
            b"",
            b"2 bytes behind the last chunk have no timing\n",
            DAMAGED,
        ),
        b"2 bytes behind the last chunk have no timing\n",
    ),
    (
        (b"h\nabc", b"O 0 1\r\nI 0 1\r\nX\r\n", Header::Kept),
        (
            b"h\nabc",
            b"0.000000 1\n",
            b"timing line 3: bad stream, 1 lines left out\n1 inputs and 0 signals left out\n\
                timing has CR LF\n2 bytes behind the last chunk have no timing\n",
            DAMAGED,
        ),
        b"2 bytes behind the last chunk have no timing\n",
    ),
];

/// Mends a pair by the call `mend`, and compares what came out.
fn compare_mended<R: Abort + AllocGlobal>(rt: &R, pair: Pair<'_>, wanted: Wanted<'_>) {
    let mut script = Watched::new(Vec::new(rt.alloc()));
    let mut timing = Watched::new(Vec::new(rt.alloc()));
    let mut told = Watched::new(Vec::new(rt.alloc()));
    let mending = mend(
        rt.alloc(),
        pair.2,
        &mut Watched::new(pair.0),
        &mut Watched::new(pair.1),
        &mut script,
        &mut timing,
        &mut told,
    );
    assert_eq!(rt;
        (
            script.into_inner().as_slice(),
            timing.into_inner().as_slice(),
            told.into_inner().as_slice(),
            mending.outcome
        ),
        wanted,
        "{pair:?}"
    );
}

/// Does the job that mends, which tells nothing, and compares what came out.
fn compare_job<R: Abort + AllocGlobal>(rt: &R, pair: Pair<'_>, wanted: Wanted<'_>) {
    let job = Job::Mend { header: pair.2 };
    let ended = do_job(rt.alloc(), job, pair.0, pair.1, b"left alone");
    let (text, new_timing) = (ended.text.as_slice(), ended.new_timing.as_slice());
    assert_eq!(rt; (text, new_timing), (wanted.0, wanted.1), "{pair:?}");
    assert_eq!(rt;
        (ended.note.len(), ended.outcome),
        (0, wanted.3),
        "{pair:?}"
    );
}

#[test]
fn pairs_are_mended(rt: HostRuntime) {
    for (pair, wanted) in &ROWS {
        compare_mended(&rt, *pair, *wanted);
        compare_job(&rt, *pair, *wanted);
    }
}

#[test]
fn bytes_without_timing_are_told(rt: HostRuntime) {
    for (pair, wanted, _) in &UNTIMED {
        compare_mended(&rt, *pair, *wanted);
        compare_job(&rt, *pair, *wanted);
    }
}

/// A timing file over a byte, and whether a file may be another one than it is taken for: where line 1 has a fault, and
/// where the file is sudo's.
const DOUBTFUL: [(&[u8], bool); 5] = [
    (b"0 1\n", false),
    (b"0 1\n0 x\n", false),
    (b"\n0 x\n", false),
    (b"\x1f\x8b\x08\0\n", true),
    (b"4 0.5 1\n", true),
];

#[test]
fn a_doubtful_pair_is_told_as_one(rt: HostRuntime) {
    for (timing, doubtful) in DOUBTFUL {
        let mending = mend(
            rt.alloc(),
            Header::Kept,
            &mut Watched::new(b"Script started on X\na".as_slice()),
            &mut Watched::new(timing),
            &mut Watched::new(io::sink()),
            &mut Watched::new(io::sink()),
            &mut Watched::new(io::sink()),
        );
        assert_eq!(rt;
            (mending.outcome.fault, mending.doubtful),
            (None, doubtful),
            "{timing:?}"
        );
    }
}

/// What was mended is mended to the same, and nothing is told of it but bytes without timing.
#[test]
fn what_was_mended_stays(rt: HostRuntime) {
    for (_, (script, timing, _, outcome)) in &ROWS {
        if outcome.fault.is_none() {
            let pair = (*script, *timing, Header::Kept);
            compare_mended(&rt, pair, (script, timing, b"", DONE));
        }
    }
    for (_, (script, timing, _, _), told) in &UNTIMED {
        let pair = (*script, *timing, Header::Kept);
        compare_mended(&rt, pair, (script, timing, told, DAMAGED));
    }
}
