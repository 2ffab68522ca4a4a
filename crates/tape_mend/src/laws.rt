//! Laws over the definitions alone, as functions with empty bodies.
ghost use Rattle.std.specs.Prelude.{◌≡◌, List, ℕ, true};
ghost use Rattle.tape_core.specs.Reading.{has_header};
ghost use Rattle.tape_mend.specs.declared.opening.Header.{Header};
ghost use Rattle.tape_mend.specs.Law.{AStreamLineIsRead, MendedReadsBack, WholeStays};
ghost use Rattle.tape_mend.specs.Mended.{seen};

/// A line of the multi-stream format is read as what it says, and no other line is.
pub fn a_stream_line_is_read()
    ensures { AStreamLineIsRead }
{}

/// What is mended fits the limits, and, written, it is read again without a fault as that recording.
pub fn what_is_mended_reads_back()
    ensures { (how : Header) (script timing : List ℕ)
        → has_header (seen how script) ≡ true → MendedReadsBack how script timing }
{}

/// What is read without a fault is mended as it is, and nothing is lost of it.
#[tactic(auto, using(crate::proofs::WholeLemmas::whole_stays))]
pub fn what_is_whole_stays()
    ensures { WholeStays }
{}
