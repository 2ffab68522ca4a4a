//! Laws over the definitions alone, as functions with empty bodies.
ghost use Rattle.std.specs.Prelude.{◌≡◌, ◌+◌, ◌-◌, ◌<◌, ◌≤◌, ℕ, All, List, Some, map};
ghost use Rattle.tape_core.specs.Text.{lines_of};
ghost use Rattle.tape_seek.specs.declared.edits.Edit.{Edit};
ghost use Rattle.tape_seek.specs.declared.edits.Edit.TheVariants as edits;
ghost use Rattle.tape_seek.specs.declared.requests.Request.TheVariants as asks;
ghost use Rattle.tape_seek.specs.Calls.{Call, HasRun, IsTold};
ghost use Rattle.tape_seek.specs.Edits.{CanBeLogged};
ghost use Rattle.tape_seek.specs.Marks.{Marks, after_edit, fed_by};
ghost use Rattle.tape_seek.specs.Requests.{request};
ghost use Rattle.tape_seek.specs.State.{State};
ghost use Rattle.tape_seek.specs.WrittenLog.{edit_line, log_text};

/// The line that is written of an edit that a log can hold, as each in a session's log is, is read as that edit; the lines
/// of a log are those of its edits; and its text, read line by line, is the log.
#[tactic(auto, using(crate::proofs::RequestLemmas::written_edit_read, crate::proofs::RequestLemmas::written_log_lines, crate::proofs::RequestLemmas::written_log_read))]
pub fn a_written_edit_is_read()
    ensures read { (edit : Edit) → CanBeLogged edit
        → request (edit_line edit) ≡ Some (asks.Edit edit) }
    ensures lines { (edits : List Edit) → All CanBeLogged edits
        → lines_of (log_text edits) ≡ map edit_line edits }
    ensures whole { (edits : List Edit) → All CanBeLogged edits
        → map request (lines_of (log_text edits)) ≡ map (λ edit. Some (asks.Edit edit)) edits }
{}

/// A seek feeds fewer chunks than lie between stored terminals, and those past the frontier; where the head isn't past the
/// count it feeds at most those between them. Retiming and capping leave frontier and head, and so cost no replay.
pub fn seeks_feed_little()
    ensures from_stored { (every count : ℕ) (marks : Marks) → 0 < every
        → fed_by every count marks < every + (count - marks.frontier) }
    ensures from_head { (every count : ℕ) (marks : Marks) → marks.head ≤ count
        → fed_by every count marks ≤ count - marks.head }
    ensures retimed { (every at delay : ℕ) (marks : Marks)
        → after_edit every (edits.Retime at delay) marks ≡ marks }
    ensures capped { (every max : ℕ) (marks : Marks)
        → after_edit every (edits.Cap max) marks ≡ marks }
{}

/// Frontier and head after any calls of a session, and what each of its seeks fed, are told by the calls and by which of
/// them were refused. A caller gives the steps, each by the clause of its call.
pub fn calls_tell_the_marks()
    ensures { (every : ℕ) (calls : List Call) (fed : List ℕ) (s : State)
        → HasRun every calls fed s → IsTold every calls fed s }
{}
