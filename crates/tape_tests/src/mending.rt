//! What pairs of files are mended to: rows by hand.
use crate::devices::{Writing, small_writer};
use std::alloc::Global;
use std::process::Abort;
use std::rt::Runtime;
use std::test::Fail;
use tape_core::{Fault, Watched, write_script, write_timing};
use tape_mend::{Header, Mended, mend, put_losses};

mod refused;

/// A typescript, a timing file and the header that is taken.
type Pair<'a> = (&'a [u8], &'a [u8], Header);

/// The new pair, what is told of losses, and whether a line or a chunk was left out or cut.
type Told<'a> = (&'a [u8], &'a [u8], &'a [u8], bool);

/// Mends a pair.
fn mended(alloc: Global, pair: Pair) -> Result<Mended, Fault> {
    mend(alloc, pair.0.to_vec(alloc)?, pair.1, pair.2)
}

/// What is written of a pair that was mended.
fn written(alloc: Global, mended: &Mended) -> Result<(Vec<u8>, Vec<u8>, Vec<u8>), Fault> {
    let mut script = Watched::new(Vec::new(alloc));
    let mut timing = Watched::new(Vec::new(alloc));
    let mut told = Watched::new(Vec::new(alloc));
    write_script(&mended.recording, &mut script)?;
    write_timing(&mended.recording, &mut timing)?;
    put_losses(&mended.losses, &mut told)?;
    Ok((script.into_inner(), timing.into_inner(), told.into_inner()))
}

/// A recording of `a`, `X` and `b` whose typescript ends behind `X`.
const SHORT: Pair<'static> = (
    b"Script started on X\naX",
    b"0.000000 1\n0.250000 1\n0.500000 1\n",
    Header::Kept,
);

/// The same with lines that end in CR LF.
const SHORT_CR_LF: Pair<'static> = (
    b"Script started on X\naX",
    b"0.000000 1\r\n0.250000 1\r\n0.500000 1\r\n",
    Header::Kept,
);

/// Pairs of the classic format, and headers that are found or made.
const CLASSIC: [(Pair<'static>, Told<'static>); 8] = [
    (
        SHORT,
        (
            b"Script started on X\naX",
            b"0.000000 1\n0.250000 1\n",
            b"1 chunks left out\n",
            true,
        ),
    ),
    (
        (b"h\nab", b"0.5 1\nzero\n", Header::Kept),
        (
            b"h\nab",
            b"0.500000 1\n",
            b"timing line 2: multi-stream format, 1 lines left out\n",
            true,
        ),
    ),
    (
        (b"h\nabc", b"0 2\n0 3\n0 1", Header::Kept),
        (
            b"h\nabc",
            b"0.000000 2\n0.000000 1\n",
            b"chunk 1 cut to 1 of 3 bytes\n1 chunks left out\n",
            true,
        ),
    ),
    (
        (b"h\nab tail\n", b"0 1\n\n. 1\n\n0 1", Header::Kept),
        (
            b"h\nab tail\n",
            b"0.000000 1\n",
            b"timing line 3: bad delay, 3 lines left out\n",
            true,
        ),
    ),
    (
        (b"h\na", b"1 1\n2 0\n", Header::Kept),
        (b"h\na", b"1.000000 1\n2.000000 0\n", b"", false),
    ),
    (
        (
            b"Script started on A\nScript started on B\nx\nScript started on C\nyz",
            b"0 1",
            Header::Last,
        ),
        (b"Script started on C\nyz", b"0.000000 1\n", b"", false),
    ),
    (
        (b"Script started on A\nyz", b"0 1", Header::Last),
        (b"Script started on A\nyz", b"0.000000 1\n", b"", false),
    ),
    (
        (b"yz\n", b"0 1", Header::Made),
        (b"Script started\nyz\n", b"0.000000 1\n", b"", false),
    ),
];

/// Pairs of the multi-stream format.
const STREAMS: [(Pair<'static>, Told<'static>); 9] = [
    (
        (b"h\nab", b"O 0.5 1\nI 0.25 1\nO 0.25 1\n", Header::Kept),
        (
            b"h\nab",
            b"0.500000 1\n0.500000 1\n",
            b"1 inputs and 0 signals left out\n",
            false,
        ),
    ),
    (
        (
            b"h\naib",
            b"H 0 OUTPUT_LOG x\nH 0 INPUT_LOG x\nO 0.5 1\nI 0.25 1\nO 0.25 1\n",
            Header::Kept,
        ),
        (
            b"h\nab",
            b"0.500000 1\n0.500000 1\n",
            b"1 inputs and 0 signals left out\n",
            false,
        ),
    ),
    (
        (
            b"h\nab",
            b"H 0 INPUT_LOG x y\nH 0 OUTPUT_LOG x\nI 1 1\nO 1 1\nS 1 SIGWINCH\n",
            Header::Kept,
        ),
        (
            b"h\nab",
            b"2.000000 1\n",
            b"1 inputs and 1 signals left out\n",
            false,
        ),
    ),
    (
        (
            b"h\naib",
            b"H 0 INPUT_LOG\nH 0 INPUT_LOG x y\nH 0 OUTPUT_LOG x \t y\nH 0 OUTPUT_LOG z\nO 0 1\nI 0 5\nO 0 0\n",
            Header::Kept,
        ),
        (
            b"h\na",
            b"0.000000 1\n",
            b"1 inputs and 0 signals left out\n1 chunks left out\n",
            true,
        ),
    ),
    (
        (b"h\nab", b"\nO 0 1\nOO x\nO 0 1\n", Header::Kept),
        (
            b"h\nab",
            b"0.000000 1\n",
            b"timing line 3: bad stream, 2 lines left out\n",
            true,
        ),
    ),
    (
        (b"h\nab", b"S 1000000\nO 0.000001 1\n", Header::Kept),
        (
            b"h\nab",
            b"",
            b"timing line 2: delay too large, 1 lines left out\n0 inputs and 1 signals left out\n",
            true,
        ),
    ),
    (
        (b"h\nab", b"I 0 1048577", Header::Kept),
        (
            b"h\nab",
            b"",
            b"timing line 1: chunk too long, 1 lines left out\n",
            true,
        ),
    ),
    (
        (b"h\nab", b"O 1 1 1", Header::Kept),
        (
            b"h\nab",
            b"",
            b"timing line 1: bad count, 1 lines left out\n",
            true,
        ),
    ),
    (
        (b"h\nab", b"S", Header::Kept),
        (
            b"h\nab",
            b"",
            b"timing line 1: bad delay, 1 lines left out\n",
            true,
        ),
    ),
];

/// Logs of sudo, whose file of what the terminal got has no header line; and lines that come close to one of its.
const SUDO: [(Pair<'static>, Told<'static>); 6] = [
    (
        (
            b"abcde",
            b"4 0.500000001 2\n7 0.25 TSTP\n7 1.25 CONT\n3 0.1 1\n5 0.1 30 100\n4 0.000000999 1\n1 0 9\n6 1 2\n",
            Header::Made,
        ),
        (
            b"Script started\nabcde",
            b"0.500000 2\n1.700000 1\n1.000000 2\n",
            b"1 inputs and 2 signals left out\n1 outputs to pipes and 1 resizes left out\n",
            true,
        ),
    ),
    (
        (b"abc", b"4 0.1 1\n8 0.2 2\n", Header::Made),
        (
            b"Script started\nabc",
            b"0.100000 1\n",
            b"timing line 2: bad stream, 1 lines left out\n",
            true,
        ),
    ),
    (
        (b"a", b"\n0 0.1 3\n4 0.2 1\n2 0.5 x\n", Header::Made),
        (
            b"Script started\na",
            b"0.300000 1\n",
            b"timing line 4: bad count, 1 lines left out\n1 inputs and 0 signals left out\n",
            true,
        ),
    ),
    (
        (b"a", b"3 0.1 3\n4 0.2 1\n", Header::Made),
        (
            b"Script started\na",
            b"0.300000 1\n",
            b"1 inputs and 0 signals left out\n",
            false,
        ),
    ),
    (
        (b"h\na", b"4 0.1\n", Header::Kept),
        (
            b"h\na",
            b"",
            b"timing line 1: bad count, 1 lines left out\n",
            true,
        ),
    ),
    (
        (b"h\na", b"4 1 1\n", Header::Kept),
        (
            b"h\na",
            b"",
            b"timing line 1: bad count, 1 lines left out\n",
            true,
        ),
    ),
];

/// Pairs whose timing has lines that end in CR LF: one CR isn't read, be it in a line that is left out or in a name.
const CR_LF: [(Pair<'static>, Told<'static>); 5] = [
    (
        (b"h\nab", b"0.5 1\r\n\r\n0.25 1\r", Header::Kept),
        (
            b"h\nab",
            b"0.500000 1\n0.250000 1\n",
            b"timing has CR LF\n",
            false,
        ),
    ),
    (
        (b"h\nab", b"0 1\n0 1\r\r\n", Header::Kept),
        (
            b"h\nab",
            b"0.000000 1\n",
            b"timing line 2: bad count, 1 lines left out\ntiming has CR LF\n",
            true,
        ),
    ),
    (
        (b"h\nab", b"0 1\n0 1\r \n", Header::Kept),
        (
            b"h\nab",
            b"0.000000 1\n",
            b"timing line 2: bad count, 1 lines left out\n",
            true,
        ),
    ),
    (
        (b"h\na", b"0 1\nzero\n0 1\r\n", Header::Kept),
        (
            b"h\na",
            b"0.000000 1\n",
            b"timing line 2: multi-stream format, 2 lines left out\ntiming has CR LF\n",
            true,
        ),
    ),
    (
        (
            b"h\naib",
            b"\r\nH 0 OUTPUT_LOG x\r\nH 0 INPUT_LOG x\nO 0 1\r\nI 0 1\r\nO 0 9\r\n",
            Header::Kept,
        ),
        (
            b"h\nab",
            b"0.000000 1\n0.000000 1\n",
            b"1 inputs and 0 signals left out\nchunk 1 cut to 1 of 9 bytes\ntiming has CR LF\n",
            true,
        ),
    ),
];

/// Mends a pair and compares what is written of it.
fn compare_mended(
    rt: &(impl Runtime<A = Global> + Abort),
    pair: Pair,
    wanted: Told,
) -> Result<(), Fail> {
    let mended = mended(rt.alloc(), pair)?;
    let (script, timing, told) = written(rt.alloc(), &mended)?;
    let got = (
        script.as_slice(),
        timing.as_slice(),
        told.as_slice(),
        mended.losses.is_damaged(),
    );
    assert_eq!(rt; got, wanted);
    Ok(())
}

#[test]
fn pairs_of_the_classic_format(rt: HostRuntime) -> Result<(), Fail> {
    for (pair, wanted) in CLASSIC {
        compare_mended(&rt, pair, wanted)?;
    }
    Ok(())
}

#[test]
fn pairs_of_the_multi_stream_format(rt: HostRuntime) -> Result<(), Fail> {
    for (pair, wanted) in STREAMS {
        compare_mended(&rt, pair, wanted)?;
    }
    Ok(())
}

#[test]
fn logs_of_sudo(rt: HostRuntime) -> Result<(), Fail> {
    for (pair, wanted) in SUDO {
        compare_mended(&rt, pair, wanted)?;
    }
    Ok(())
}

#[test]
fn timings_with_cr_lf(rt: HostRuntime) -> Result<(), Fail> {
    for (pair, wanted) in CR_LF {
        compare_mended(&rt, pair, wanted)?;
    }
    Ok(())
}

#[test]
fn no_header_line(rt: HostRuntime) -> Result<(), Fail> {
    let rows: [Pair; 3] = [
        (b"", b"O 0 1", Header::Kept),
        (b"ab", b"0 1", Header::Last),
        (b"x\nScript started on B", b"zero", Header::Last),
    ];
    for pair in rows {
        let fault = mended(rt.alloc(), pair).err();
        assert_eq!(rt; fault, Some(Fault::NoHeader));
    }
    Ok(())
}

#[test]
fn losses_to_a_writer_that_fails(rt: HostRuntime) -> Result<(), Fail> {
    let mended = mended(rt.alloc(), SHORT_CR_LF)?;
    let whole = b"1 chunks left out\ntiming has CR LF\n".as_slice();
    for room in 0..40 {
        let mut writer = Watched::new(small_writer(rt.alloc(), room, false));
        let answer = put_losses(&mended.losses, &mut writer);
        let writing = Writing::of(answer, writer);
        assert_eq!(rt; writing.told(), writing.wanted(whole), "room for {room}");
    }
    Ok(())
}
