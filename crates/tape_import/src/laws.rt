//! Laws over the definitions alone, as functions with empty bodies.
ghost use Rattle.std.specs.Prelude.{List, ℕ};
ghost use Rattle.tape_core.specs.Tape.{Tape};
ghost use Rattle.tape_import.specs.FaultOrder.{CastKeepsItsFault, LogKeepsItsFault};
ghost use Rattle.tape_import.specs.ImportedFile.{IsImported, import_of};
ghost use Rattle.tape_import.specs.Law.{BeginsWithItsFront, EndsLine, EntriesBeginWithTheirFront, HasItsData, HasItsEntries, HasItsMessages, HasItsOutputs, LogBeginsWithItsFront, ReadsBack, RecordsBeginWithTheirFront};
ghost use Rattle.tape_import.specs.declared.losses.Losses.{Losses};
ghost use Rattle.tape_import.specs.declared.version.Version.{Version};

/// What is imported of a file fits the limits, and, written, it is read again without a fault as that recording.
pub fn what_is_imported_is_read_again()
    ensures { (file : List ℕ) (tape : Tape) (losses : Losses)
        → IsImported (import_of file) tape losses → ReadsBack tape }
{}

/// Every byte of every output of an asciicast of version 2 or 3 is in the body, in order, up to the first fault, and no
/// other byte is.
#[tactic(auto, using(crate::proofs::OutputLemmas::has_its_outputs))]
pub fn an_asciicast_has_its_outputs()
    ensures { (version : Version) (text : List ℕ) → HasItsOutputs version text }
{}

/// Every byte of every record of a ttyrec is in the body, in order, up to the first fault, and no other byte is.
#[tactic(auto, using(crate::proofs::OutputLemmas::has_its_data))]
pub fn a_ttyrec_has_its_outputs()
    ensures { (file : List ℕ) → HasItsData file }
{}

/// Every byte of the output of every entry of an asciicast of version 1 is in the body, in order, up to the first fault,
/// and no other byte is.
pub fn an_asciicast_of_version_one_has_its_outputs()
    ensures { (text : List ℕ) → HasItsEntries text }
{}

/// Every byte that the messages of a recording of tlog show is in the body, in order, up to the first fault, and no other
/// byte is: of the line with the fault the outputs before it.
#[tactic(auto, using(crate::proofs::MessageLemmas::has_its_messages))]
pub fn a_recording_of_tlog_has_its_outputs()
    ensures { (text : List ℕ) → HasItsMessages text }
{}

/// Where a front of an asciicast of version 2 or 3, or of a recording of tlog, ends behind a line, its chunks begin those
/// of the whole; so do those of any front of an asciicast of version 1, and of a ttyrec, the last one's bytes perhaps cut
/// there, unless a record of the whole passes the limit of all bytes.
pub fn a_front_gives_a_front()
    ensures asciicast { (version : Version) (front more : List ℕ) → EndsLine front
        → BeginsWithItsFront version front more }
    ensures tlog { (front more : List ℕ) → EndsLine front → LogBeginsWithItsFront front more }
    ensures one { (front more : List ℕ) → EntriesBeginWithTheirFront front more }
    ensures ttyrec { (front more : List ℕ) → RecordsBeginWithTheirFront front more }
{}

/// Where a front of an asciicast of version 2 or 3, or of a recording of tlog, ends behind a line, and is refused in place of
/// a pair, the whole is refused for the same fault, which is in one of the front's lines. So a recording is refused for the
/// first fault in the order of its lines: no front that ends before that line is refused.
pub fn the_first_fault_is_told()
    ensures asciicast { (version : Version) (front more : List ℕ) → EndsLine front
        → CastKeepsItsFault version front more }
    ensures tlog { (front more : List ℕ) → EndsLine front → LogKeepsItsFault front more }
{}
