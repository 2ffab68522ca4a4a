//! Laws of sending, for the proof of a terminal that sends its replies a few at a time. Nothing here does anything.
ghost use Rattle.std.specs.Prelude.{◌≡◌, ◌≤◌, List, ℕ, [], ◌++◌, length};
ghost use Rattle.plays.specs.Sink.{Sink, after_sending, KeepsFront};

/// Where no bytes are sent all stays, and two texts, one after the other, are sent as one.
pub fn sending_adds_up()
    ensures nothing { (sink : Sink) → after_sending sink [] ≡ sink }
    ensures joined { (sink : Sink) (first second : List ℕ)
        → after_sending (after_sending sink first) second ≡ after_sending sink (first ++ second) }
{}

/// A list keeps what it held where nothing is done, where bytes are sent, and where it does so twice; it is then no
/// shorter.
pub fn the_front_stays()
    ensures nothing { (sink : Sink) → KeepsFront sink sink }
    ensures sent { (sink : Sink) (bytes : List ℕ) → KeepsFront sink (after_sending sink bytes) }
    ensures twice { (a b c : Sink) → KeepsFront a b → KeepsFront b c → KeepsFront a c }
    ensures length { (a b : Sink) → KeepsFront a b → length a.bytes ≤ length b.bytes }
{}
