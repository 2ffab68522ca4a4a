//! Laws over the definitions alone, as functions with empty bodies.
ghost use Rattle.std.specs.Prelude.{◌≡◌, ◌++◌, [], Bool, ℕ, List, MatchOption, Ok, Some, false, min, true};
ghost use Rattle.std.specs.List.{AllPass};
ghost use Rattle.tape_core.specs.declared.chunk.Chunk.{Chunk};
ghost use Rattle.tape_core.specs.declared.devices.Watched.{Watched};
ghost use Rattle.tape_core.specs.declared.timing.Entry.{Entry};
ghost use Rattle.tape_core.specs.declared.timing.EntryFault.{EntryFault};
ghost use Rattle.tape_core.specs.Devices.{Gave, Took, TookPart, has_failed};
ghost use Rattle.tape_core.specs.Due.{due, due_count, first};
ghost use Rattle.tape_core.specs.Law.{DueIsBelowTheCount, FirstGrowsByAChunk, FirstIsKept, NumbersReadBack, SecondsReadBack};
ghost use Rattle.tape_core.specs.Seconds.{IsSeconds, last_moment, seconds_of};
ghost use Rattle.tape_core.specs.Tape.{Tape, fits};
ghost use Rattle.tape_core.specs.Reading.{reads};
ghost use Rattle.tape_core.specs.Text.{NumberText, is_blank, number_of};
ghost use Rattle.tape_core.specs.Timing.{DelayText, IsFaulty, IsWithin, TimingLine, delay_of, entry_of};
ghost use Rattle.tape_core.specs.Written.{script_text, timing_text};

use std::io::Write;

/// As no delay is negative, the bytes due by a moment are those of the first chunks.
#[tactic(auto, using(crate::proofs::DueLemmas::due_first))]
pub fn due_is_first()
    ensures { (chunks : List Chunk) (t : ℕ) → due chunks t ≡ first chunks (due_count chunks t) }
{}

/// A chunk is due by a moment just where its index is below the count of the chunks due.
pub fn due_is_below_the_count()
    ensures { DueIsBelowTheCount }
{}

/// The first chunks and one more are the first chunks' bytes and those of the next.
pub fn first_grows_by_a_chunk()
    ensures { FirstGrowsByAChunk }
{}

/// An edit of the chunks leaves the bytes of those before its index as they were, and an edit of
/// delays all bytes.
pub fn first_is_kept()
    ensures { FirstIsKept }
{}

/// A text is read as a number where it is spelled as one, with that value, and nowhere else.
pub fn numbers_are_spelled()
    ensures { (text : List ℕ) → MatchOption (number_of text)
        ((n : ℕ) → NumberText text n → ⊥)
        (λ n. NumberText text n) }
{}

/// Numbers below 2^64 are written as a word of digits, and read back.
pub fn numbers_read_back()
    ensures { NumbersReadBack }
{}

/// A text is read as seconds where it is spelled as seconds, with that value, and nowhere else.
pub fn seconds_are_spelled()
    ensures { (text : List ℕ) → MatchOption (seconds_of text)
        ((us : ℕ) → IsSeconds text us → ⊥)
        (λ us. (value : ℕ) × IsSeconds text value × (us ≡ min value last_moment)) }
{}

/// A field is read as a delay where it is spelled as one, with that value, and nowhere else.
pub fn delays_are_spelled()
    ensures spelled { (text : List ℕ) (delay : ℕ)
        → delay_of text ≡ Some delay → DelayText text delay }
    ensures read { (text : List ℕ) (delay : ℕ)
        → DelayText text delay → delay_of text ≡ Some delay }
{}

/// What is read as an entry is a line of the timing format that says it.
pub fn an_entry_is_a_timing_line()
    ensures { (text : List ℕ) (entry : Entry)
        → entry_of text ≡ Ok (Some entry) → TimingLine text entry.delay entry.count }
{}

/// A line is blank, or an entry within the limits, or has just the fault that is told.
pub fn a_line_is_blank_timed_or_faulty()
    ensures blank { (text : List ℕ) → entry_of text ≡ Ok None → AllPass is_blank text }
    ensures timed { (text : List ℕ) (entry : Entry) → entry_of text ≡ Ok (Some entry)
        → TimingLine text entry.delay entry.count × IsWithin entry }
    ensures faulty { (text : List ℕ) (fault : EntryFault)
        → entry_of text ≡ Err fault → IsFaulty text fault }
{}

/// A blank line is told as one, and a fault that a line has is the one that is told.
#[tactic(auto, using(crate::proofs::FaultLemmas::blank_told, crate::proofs::FaultLemmas::fault_told))]
pub fn a_fault_is_told()
    ensures blank { (text : List ℕ) → AllPass is_blank text → entry_of text ≡ Ok None }
    ensures faulty { (text : List ℕ) (fault : EntryFault)
        → IsFaulty text fault → entry_of text ≡ Err fault }
{}

/// A line of the timing format within the limits is read as the entry that it says.
pub fn a_timing_line_is_read()
    ensures { (text : List ℕ) (entry : Entry) → TimingLine text entry.delay entry.count
        → IsWithin entry → entry_of text ≡ Ok (Some entry) }
{}

/// A pair of files is read as one recording and no other.
pub fn a_pair_is_read_once()
    ensures { (script timing : List ℕ) (one other : Tape)
        → reads script timing one → reads script timing other → other ≡ one }
{}

/// Microseconds below 2^64, written as seconds, are a word and spelled seconds with that value; those
/// up to the greatest moment are read back.
pub fn seconds_read_back()
    ensures { SecondsReadBack }
{}

/// What is written of a recording that fits is read as that recording and no other.
pub fn what_is_written_reads_back()
    ensures reads { (tape : Tape) → fits tape → reads (script_text tape) (timing_text tape) tape }
    ensures alone { (tape other : Tape) → fits tape
        → reads (script_text tape) (timing_text tape) other → other ≡ tape }
{}

/// What a writer was given of texts one after another.
pub fn gives_join<W: Write>()
    ensures nothing { (a : Watched W) → Gave W.contents a a [] }
    ensures both { (a b c : Watched W) (x y : List ℕ)
        → Gave W.contents b c y → Gave W.contents a b x → Gave W.contents a c (x ++ y) }
{}

/// What a writer that was asked has taken of the texts that it was given.
pub fn gives_end<W: Write>()
    ensures sound { (a b : Watched W) (x : List ℕ)
        → has_failed b ≡ false → Gave W.contents a b x → Took W.contents a b x }
    ensures early { (a b : Watched W) (text x y : List ℕ) (failed : Bool) → text ≡ x ++ y
        → has_failed b ≡ failed → Gave W.contents a b x → TookPart W.contents a b text failed }
    ensures failed { (a b : Watched W) (text x y : List ℕ) → text ≡ x ++ y
        → has_failed b ≡ true → Gave W.contents a b x → Gave W.contents a b text }
{}
