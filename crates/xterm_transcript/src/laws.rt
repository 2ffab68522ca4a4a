//! Laws over the definitions alone, as functions with empty bodies.
ghost use Rattle.xterm_transcript.specs.PlainText.{PlainTextComesOut};

/// Where a body is lines of printable ASCII that are no longer than the columns, with CR LF between them, its
/// transcript is these lines without the spaces at their ends, blank ones at the end left out.
#[tactic(auto, using(crate::proofs::PlainSteps::comes_out))]
pub fn plain_text_comes_out()
    ensures { PlainTextComesOut }
{}
