//! A terminal that plays bytes.
ghost use Rattle.std.specs.Prelude.{◌≡◌, ℕ, ◌++◌, List, [], IfOk, OnOk, IsOk};
ghost use Rattle.plays.specs.Sink.{after_sending, HasRoom, KeepsFront};

use crate::reports::{OutOfMemory, Reports};
use std::alloc::{AllocError, Global};
use std::fmt::Debug;

/// A terminal that plays bytes, and sends replies to them.
pub trait Plays: Drop {
    /// How it is set up.
    type Profile: Copy + Debug + Drop;

    /// What it is packed as, to be kept for later.
    type Packed: Debug + Drop;

    /// It shows what the reset terminal of the profile comes to by these bytes.
    ghost shows: { Self.Profile → Self → List ℕ → Type 0 };

    /// What is packed shows it.
    ghost keeps: { Self.Profile → Self.Packed → List ℕ → Type 0 };

    /// Each row that it doesn't mark as touched is the one that these bytes came to.
    ghost told: { Self.Profile → Self → List ℕ → Type 0 };

    /// It can become any terminal of the profile, and takes no memory for it.
    ghost fits: { Self.Profile → Self → Type 0 };

    /// All that the reset terminal of the profile sends at these bytes.
    ghost sent: { Self.Profile → List ℕ → List ℕ };

    /// What it sends at the latter bytes, where the former were played before.
    ghost replies: { Self.Profile → List ℕ → List ℕ → List ℕ };

    /// The reset terminal of the profile.
    fn reset(alloc: Global, profile: Self::Profile) -> Result<Self, AllocError>
        ensures { IfOk result (λ terminal. shows profile terminal []) };

    /// Becomes the reset terminal of the profile, and takes no memory.
    fn clear(&mut self, profile: Self::Profile)
        ensures { fits profile self.old → shows profile self.new [] };

    /// Takes bytes, and sends the replies to them. It first clears its marks, so that then they tell which rows the
    /// bytes may have touched. After a refusal it is some terminal that still fits, and the list begins with what it
    /// held.
    fn feed(&mut self, bytes: &[u8], sink: &mut Reports) -> Result<(), OutOfMemory>
        ensures shows { (profile : Self.Profile) (before : List ℕ) → shows profile self.old before
            → OnOk result (shows profile self.new (before ++ bytes.now)) }
        ensures sent { (profile : Self.Profile) (before : List ℕ) → shows profile self.old before
            → OnOk result (sink.new ≡ after_sending sink.old (replies profile before bytes.now)) }
        ensures told { (profile : Self.Profile) (before : List ℕ) → shows profile self.old before
            → OnOk result (told profile self.new before) }
        ensures fits { (profile : Self.Profile) → fits profile self.old → fits profile self.new }
        ensures front { KeepsFront sink.old sink.new }
        ensures room { (profile : Self.Profile) (before : List ℕ) → shows profile self.old before
            → HasRoom sink.old (replies profile before bytes.now) → IsOk result };

    /// Packs it, to be kept for later.
    fn pack(&self, alloc: Global) -> Result<Self::Packed, AllocError>
        ensures { (profile : Self.Profile) (before : List ℕ) → shows profile self.now before
            → IfOk result (λ packed. keeps profile packed before) };

    /// Becomes what was packed, all of it marked as touched, and takes no memory.
    fn unpack(&mut self, packed: &Self::Packed)
        ensures shows { (profile : Self.Profile) (before : List ℕ) → fits profile self.old
            → keeps profile packed.now before → shows profile self.new before }
        ensures told { (profile : Self.Profile) (before other : List ℕ) → fits profile self.old
            → keeps profile packed.now before → told profile self.new other };

    /// What holds of every terminal. Nothing is done.
    fn laws()
        // One that shows something fits.
        ensures fits { (profile : Self.Profile) (terminal : Self) (bytes : List ℕ)
            → shows profile terminal bytes → fits profile terminal }
        // Against what it shows it tells of nothing.
        ensures told { (profile : Self.Profile) (terminal : Self) (bytes : List ℕ)
            → shows profile terminal bytes → told profile terminal bytes }
        // The reset terminal has sent nothing.
        ensures nothing { (profile : Self.Profile) → sent profile [] ≡ [] }
        // What joined texts send is what their parts send in turn.
        ensures parts { (profile : Self.Profile) (before more : List ℕ)
            → sent profile (before ++ more) ≡ sent profile before ++ replies profile before more };
}
