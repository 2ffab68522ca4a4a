//! A terminal that tells which rows leave its screen.
ghost use Rattle.std.specs.Prelude.{◌≡◌, ◌<◌, ◌≤◌, ◌++◌, [], List, ℕ, length, take, IfOk, OnErr, OnOk};
ghost use Rattle.transcripts.specs.Told.{Tells, TellsFront};
ghost use Rattle.transcripts.specs.Transcript.{Leaving, Standing};

use crate::rows::Rows;
use plays::OutOfMemory;
use std::alloc::{AllocError, Global};
use std::fmt::Debug;
use std::io::Write;
use tape_core::Watched;

/// A terminal that plays bytes, and tells the rows that leave its screen at the top.
pub trait Transcribes: Drop {
    /// How it is set up.
    type Profile: Copy + Debug + Drop;

    /// It has played these bytes since it was reset.
    ghost played: { Self.Profile → Self → List ℕ → Type 0 };

    /// The rows that leave.
    ghost leaving: { Leaving Self.Profile };

    /// The rows that stand.
    ghost standing: { Standing Self.Profile };

    /// The reset terminal of the profile.
    fn reset(alloc: Global, profile: Self::Profile) -> Result<Self, AllocError>
        ensures { IfOk result (λ terminal. played profile terminal []) };

    /// Plays some of the bytes, at least one, and tells the rows that leave at them.
    fn tell_some<W: Write>(
        &mut self,
        bytes: &[u8],
        rows: &mut Rows,
        writer: &mut Watched<W>,
    ) -> Result<usize, OutOfMemory>
        requires some { 0 < length bytes.now }
        ensures some { IfOk result (λ taken. 0 < taken) }
        ensures within { IfOk result (λ taken. taken ≤ length bytes.now) }
        ensures played { (profile : Self.Profile) (before : List ℕ) → played profile self.old before
            → IfOk result (λ taken. played profile self.new (before ++ take taken bytes.now)) }
        ensures tells { (profile : Self.Profile) (before : List ℕ) → played profile self.old before
            → IfOk result (λ taken. Tells W.contents writer.old rows.old writer.new rows.new
            (leaving profile before (take taken bytes.now))) }
        ensures front { (profile : Self.Profile) (before : List ℕ) → played profile self.old before
            → OnErr result (TellsFront W.contents writer.old rows.old writer.new rows.new
            (leaving profile before bytes.now)) };

    /// Plays bytes, and tells no row.
    fn pass(&mut self, bytes: &[u8]) -> Result<(), OutOfMemory>
        ensures { (profile : Self.Profile) (before : List ℕ) → played profile self.old before
            → OnOk result (played profile self.new (before ++ bytes.now)) };

    /// Tells the rows that stand.
    fn tell_standing<W: Write>(
        &self,
        rows: &mut Rows,
        writer: &mut Watched<W>,
    ) -> Result<(), OutOfMemory>
        ensures tells { (profile : Self.Profile) (before : List ℕ) → played profile self.now before
            → OnOk result (Tells W.contents writer.old rows.old writer.new rows.new
            (standing profile before)) }
        ensures front { (profile : Self.Profile) (before : List ℕ) → played profile self.now before
            → OnErr result (TellsFront W.contents writer.old rows.old writer.new rows.new
            (standing profile before)) };

    /// What holds of the rows that leave. Nothing is done.
    fn laws()
        // None leaves at no bytes.
        ensures nothing { (profile : Self.Profile) (before : List ℕ) → leaving profile before [] ≡ [] }
        // Those that leave at joined bytes leave at their parts in turn.
        ensures parts { (profile : Self.Profile) (before first second : List ℕ)
            → leaving profile before (first ++ second)
            ≡ leaving profile before first ++ leaving profile (before ++ first) second };
}
