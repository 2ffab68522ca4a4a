//! Laws of the definitions that contracts cite. Nothing here does anything.
ghost use Rattle.tape_check.specs.Scan.{ScanFollowsPlay};
ghost use Rattle.tape_check.specs.Tally.{TallyFollowsPlay};

/// A scan goes with a terminal that plays the same bytes: the mode and what is pending are the terminal's.
#[tactic(auto, using(crate::proofs::ScanLemmas::follows_play))]
pub fn scan_follows_play()
    ensures { ScanFollowsPlay }
{}

/// A tally goes with a terminal of today that plays the same bytes: what is pending, and whether a title is read, are the
/// terminal's.
#[tactic(auto, using(crate::proofs::TallyLaw::tally_follows))]
pub fn tally_follows_play()
    ensures { TallyFollowsPlay }
{}
