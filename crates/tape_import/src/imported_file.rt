//! A file in whatever form it is, imported.
ghost use Rattle.std.specs.Prelude.{◌≡◌, ◌≢◌, Err, IfErr, IfOk};
ghost use Rattle.tape_import.specs.ImportedFile.{IsImported, import_of};
ghost use Rattle.tape_import.specs.declared.fault.ImportFault.TheVariants as fault;

use crate::fault::ImportFault;
use crate::form::{Form, form_of, is_compressed, mark_len};
use crate::imported::{Imported, import_ttyrec};
use crate::imported_cast::import_asciicast;
use crate::imported_one::import_asciicast_one;
use crate::tlog_import::import_tlog;
use std::alloc::Global;
use std::rc::Rc;

/// Reads what can be read of a recording in any form that is known, the chunks of a ttyrec sharing the file's bytes; or
/// tells why nothing can be. Nothing else is refused but for want of memory.
pub fn import(alloc: Global, file: &Rc<Vec<u8>>) -> Result<Imported, ImportFault>
    ensures ok { IfOk result (λ imported. IsImported (import_of file.now.value.items)
        imported.recording imported.losses) }
    ensures fault { IfErr result (λ f. f ≢ fault.OutOfMemory
        → import_of file.now.value.items ≡ Err f) }
{
    if is_compressed(file) {
        return Err(ImportFault::Compressed);
    }
    let start = mark_len(file);
    let text = &file[start..];
    match form_of(alloc, text)? {
        Form::Ttyrec => Ok(import_ttyrec(alloc, file, start)?),
        Form::Asciicast(version) => Ok(import_asciicast(alloc, version, text)?),
        Form::Tlog => Ok(import_tlog(alloc, text)?),
        Form::AsciicastOne => match import_asciicast_one(alloc, text)? {
            Some(imported) => Ok(imported),
            None => Err(ImportFault::NoKnownForm),
        },
        Form::Unknown => Err(ImportFault::NoKnownForm),
    }
}
