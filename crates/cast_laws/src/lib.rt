//! A law over the definitions of two crates: what is cast is imported whole. Nothing here does anything.
#![tactic(auto)]

ghost use Rattle.std.specs.Prelude.{◌≡◌, ℕ, Ok};
ghost use Rattle.cast_laws.specs.Whole.{IsReadSize, IsWhole, KeepLimits, chunks_of, read_of};
ghost use Rattle.output_cast.specs.Cast.{cast_text};
ghost use Rattle.tape_core.specs.Tape.{Tape};
ghost use Rattle.tape_import.specs.ImportedFile.{IsImported, import_of};
ghost use Rattle.tape_import.specs.declared.losses.Losses.{Losses};

/// The cast of a recording's output is imported with nothing lost, where its events keep the limits of chunks: each text
/// in UTF-8, due when the event is, and together the characters of the old body.
pub fn a_cast_is_imported_whole()
    ensures read { (columns lines : ℕ) (tape : Tape)
        → IsReadSize columns lines → KeepLimits (chunks_of tape)
        → import_of (cast_text columns lines tape) ≡ Ok (read_of columns lines tape) }
    ensures imported { (columns lines : ℕ) (tape new : Tape) (losses : Losses)
        → IsReadSize columns lines → KeepLimits (chunks_of tape)
        → IsImported (import_of (cast_text columns lines tape)) new losses
        → IsWhole columns lines tape new losses }
{
    output_cast::laws::texts_join();
}
