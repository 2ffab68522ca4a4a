//! What is written of an imported recording, and how it is compared.
use std::alloc::Global;
use std::process::Abort;
use std::rt::Runtime;
use std::test::Fail;
use tape_core::{Fault, Recording, Watched, write_script, write_timing};
use tape_import::{Imported, Losses, put_losses};

/// The new pair, what is told of losses, and whether something was left out or cut.
pub(crate) type Told<'a> = (&'a [u8], &'a str, &'a str, bool);

/// Compares what is written of an imported recording.
pub(crate) fn compare_imported(
    rt: &(impl Runtime<A = Global> + Abort),
    file: &[u8],
    imported: &Imported,
    wanted: Told,
) -> Result<(), Fail> {
    let (script, timing) = pair_of(rt.alloc(), &imported.recording)?;
    let told = told_of(rt.alloc(), &imported.losses)?;
    let got = (
        script.as_slice(),
        str::from_utf8(timing.as_slice()).unwrap_or("no UTF-8"),
        str::from_utf8(told.as_slice()).unwrap_or("no UTF-8"),
        imported.losses.is_damaged(),
    );
    assert_eq!(rt; got, wanted, "{:?}", &file[..file.len().min(80)]);
    Ok(())
}

/// The pair of a recording.
pub(crate) fn pair_of(alloc: Global, recording: &Recording) -> Result<(Vec<u8>, Vec<u8>), Fault> {
    let mut script = Watched::new(Vec::new(alloc));
    let mut timing = Watched::new(Vec::new(alloc));
    write_script(recording, &mut script)?;
    write_timing(recording, &mut timing)?;
    Ok((script.into_inner(), timing.into_inner()))
}

/// What is told of losses.
fn told_of(alloc: Global, losses: &Losses) -> Result<Vec<u8>, Fault> {
    let mut told = Watched::new(Vec::new(alloc));
    put_losses(losses, &mut told)?;
    Ok(told.into_inner())
}
