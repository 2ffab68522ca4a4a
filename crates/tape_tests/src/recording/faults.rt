use std::test::Fail;
use tape_core::Fault;

#[test]
fn each_fault_has_its_text(rt: HostRuntime) -> Result<(), Fail> {
    let texts = [
        (Fault::NoHeader, "typescript has no header line"),
        (Fault::BadDelay(1), "timing line 1: bad delay"),
        (Fault::BadCount(22), "timing line 22: bad count"),
        (Fault::MultiStream(2), "timing line 2: multi-stream format"),
        (Fault::DelayTooLarge(1), "timing line 1: delay too large"),
        (Fault::ChunkTooLong(3), "timing line 3: chunk too long"),
        (
            Fault::TooManyChunks(1_000_001),
            "timing line 1000001: too many chunks",
        ),
        (
            Fault::TooManyBytes(1024),
            "timing line 1024: too many bytes",
        ),
        (Fault::ScriptShort(0), "typescript ends inside chunk 0"),
        (Fault::OutOfMemory, "out of memory"),
        (Fault::ReadFault, "read fault"),
        (Fault::WriteFault, "write fault"),
    ];
    for (fault, text) in texts {
        assert_eq!(rt; format!(in rt.alloc(); "{fault}")?.as_str(), text);
    }
    Ok(())
}
