use std::alloc::Global;
use std::test::Fail;
use tape_core::{
    Bytes, Chunk, Fault, Recording, Watched, read_recording, write_script, write_timing,
};

const HEADER: &[u8] = b"Script started on X\n";

const AB: &[u8] = b"Script started on X\nab";

/// The pair that the worked recording with an insert is written as.
const SCRIPT: &[u8] = b"Script started on X\naXb";

const TIMING: &[u8] = b"0.000000 1\n0.250000 1\n0.500000 1\n";

/// Both files of a recording.
fn written(alloc: Global, recording: &Recording) -> Result<(Vec<u8>, Vec<u8>), Fault> {
    let mut script = Watched::new(Vec::new(alloc));
    let mut timing = Watched::new(Vec::new(alloc));
    write_script(recording, &mut script)?;
    write_timing(recording, &mut timing)?;
    Ok((script.into_inner(), timing.into_inner()))
}

#[test]
fn written_with_an_insert(rt: HostRuntime) -> Result<(), Fail> {
    let alloc = rt.alloc();
    let mut recording = read_recording(alloc, AB, b"0.000000 1\n0.500000 1\n")?;
    let bytes = Bytes::copy_of(alloc, b"X")?;
    assert_eq!(rt; recording.chunks().len(), 2);
    assert_eq!(rt; recording.body_len(), 2);
    let delay = 250_000;
    recording.insert(1, Chunk { delay, bytes })?;
    let (script, timing) = written(alloc, &recording)?;
    assert_eq!(rt; script.as_slice(), SCRIPT);
    assert_eq!(rt; timing.as_slice(), TIMING);
    Ok(())
}

#[test]
fn written_as_read(rt: HostRuntime) -> Result<(), Fail> {
    let rows: [(&[u8], &[u8], &[u8]); 6] = [
        (HEADER, b"", b""),
        (b"\nabc", b" 0.1\t2 \n\n-0.5 1", b"0.100000 2\n0.000000 1\n"),
        (SCRIPT, TIMING, TIMING),
        (b"one\ntwo\nthree", b"7 0\n", b"7.000000 0\n"),
        (
            AB,
            b"01000000 0\n00.0000019 02\n",
            b"1000000.000000 0\n0.000001 2\n",
        ),
        (b"\n0123456789-", b"3. 10\n", b"3.000000 10\n"),
    ];
    for (script, timing, line) in rows {
        let recording = read_recording(rt.alloc(), script, timing)?;
        let (again, lines) = written(rt.alloc(), &recording)?;
        assert_eq!(rt; again.as_slice(), script);
        assert_eq!(rt; lines.as_slice(), line);
    }
    Ok(())
}

#[test]
fn capped_delays_are_written(rt: HostRuntime) -> Result<(), Fail> {
    let mut recording = read_recording(rt.alloc(), b"\nabc", b"0.5 1\n3 1\n2 1\n")?;
    recording.cap(2_000_000);
    let (_, timing) = written(rt.alloc(), &recording)?;
    assert_eq!(rt;
        timing.as_slice(),
        b"0.500000 1\n2.000000 1\n2.000000 1\n".as_slice()
    );
    Ok(())
}

/// The number of chunks and the trailer's length of a pair that is read.
fn sizes(alloc: Global, script: &[u8], timing: &[u8]) -> Result<(usize, usize), Fault> {
    let recording = read_recording(alloc, script, timing)?;
    Ok((recording.chunks().len(), recording.trailer().len()))
}

#[test]
fn cut_at_every_byte_of_the_script(rt: HostRuntime) {
    for n in 0..=SCRIPT.len() {
        let answer = sizes(rt.alloc(), &SCRIPT[..n], TIMING);
        let expected = match n {
            0..20 => Err(Fault::NoHeader),
            20 => Err(Fault::ScriptShort(0)),
            21 => Err(Fault::ScriptShort(1)),
            22 => Err(Fault::ScriptShort(2)),
            _ => Ok((3, 0)),
        };
        assert_eq!(rt; answer, expected, "cut to {n} bytes");
    }
}

#[test]
fn cut_at_every_byte_of_the_timing(rt: HostRuntime) {
    for n in 0..=TIMING.len() {
        let whole = n / 11;
        let answer = sizes(rt.alloc(), SCRIPT, &TIMING[..n]);
        let expected = match n % 11 {
            0 => Ok((whole, 3usize.saturating_sub(whole))),
            10 => Ok((whole + 1, 2usize.saturating_sub(whole))),
            _ => Err(Fault::BadCount(whole as u64 + 1)),
        };
        assert_eq!(rt; answer, expected, "cut to {n} bytes");
    }
}

/// A text repeated.
fn times(alloc: Global, count: usize, text: &[u8]) -> Result<Vec<u8>, Fault> {
    let mut all = Vec::new(alloc);
    for _ in 0..count {
        all.extend_from_slice(text)?;
    }
    Ok(all)
}

#[test]
fn as_many_chunks_and_bytes_as_there_may_be(rt: HostRuntime) -> Result<(), Fail> {
    let alloc = rt.alloc();
    let mut lines = times(alloc, 1_000_000, b"0 0\n")?;
    assert_eq!(rt; sizes(alloc, HEADER, lines.as_slice()), Ok((1_000_000, 0)));
    lines.extend_from_slice(b"0 0\n")?;
    assert_eq!(rt;
        sizes(alloc, HEADER, lines.as_slice()),
        Err(Fault::TooManyChunks(1_000_001))
    );
    let mut lines = times(alloc, 1_024, b"0 1048576\n")?;
    assert_eq!(rt;
        sizes(alloc, HEADER, lines.as_slice()),
        Err(Fault::ScriptShort(0))
    );
    lines.extend_from_slice(b"0 1\n")?;
    assert_eq!(rt;
        sizes(alloc, HEADER, lines.as_slice()),
        Err(Fault::TooManyBytes(1_025))
    );
    Ok(())
}
