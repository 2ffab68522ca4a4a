//! Refused growths. `tests/refused.py` runs this with the first, second, .. growth of memory refused, until none is, and
//! counts the lines `refused: WHAT`. After a refusal the same call answers.
use super::mended;
use std::test::Fail;
use tape_core::Fault;
use tape_mend::Header;

#[test]
fn a_pair_that_is_mended(rt: HostRuntime) -> Result<(), Fail> {
    let timing = b"H 0 OUTPUT_LOG x\nH 0 INPUT_LOG x\nO 1 1\nI 1 1\nO 1 1\nO 1 2\n";
    let pair = (b"aibc".as_slice(), timing.as_slice(), Header::Made);
    let mended = match mended(rt.alloc(), pair) {
        Ok(mended) => mended,
        Err(fault) => {
            println!(rt; "refused: mend")?;
            assert_eq!(rt; fault, Fault::OutOfMemory);
            super::mended(rt.alloc(), pair)?
        }
    };
    let recording = &mended.recording;
    let told = (recording.header(), recording.body_len(), recording.length());
    assert_eq!(rt; told, (b"Script started\n".as_slice(), 3, 4_000_000));
    assert_eq!(rt; recording.chunks().len(), 3);
    Ok(())
}
