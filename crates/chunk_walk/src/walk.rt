//! A walk over the chunks of a recording: whoever visits them is lent the terminal before the first one and after each.
ghost use Rattle.std.specs.Prelude.{◌≡◌, ◌+◌, ◌-◌, ◌<◌, ◌≤◌, length, OnOk, OnErr, IfOk, IsOk};
ghost use Rattle.std.specs.List.{flat_map, range_with_len};
ghost use Rattle.tape_core.specs.Devices.{Gave};
ghost use Rattle.tape_core.specs.Due.{due_count, first as bytes_of_first};
ghost use Rattle.chunk_walk.specs.Stops.{OnlySeeks, StopsSound, first_asked};
ghost use Rattle.chunk_walk.specs.Walk.{all_texts, asked_texts, text_of};

use plays::{OutOfMemory, Plays};
use std::io::Write;
use tape_core::Watched;
use tape_core::laws::{due_is_below_the_count, gives_end, gives_join};
use tape_seek::Session;

/// What visits the chunks of a recording that a terminal plays, and writes a text of each.
pub trait Visitor<T: Plays> {
    ghost use Rattle.std.specs.Prelude.{List, ℕ};
    ghost use Rattle.tape_seek.specs.State.{Leaves};
    ghost use Rattle.chunk_walk.specs.Walk.{TextOfChunk};

    /// What it keeps of a terminal while the next chunk is played.
    type Kept: Drop;

    /// The text of a chunk.
    ghost text: { Self → TextOfChunk T.Profile };

    /// This is what is kept of a terminal that was played these bytes.
    ghost keeps: { T.Profile → Self.Kept → List ℕ → Type 0 };

    /// It takes no memory.
    ghost takes_none: { Type 0 };

    /// Goes to a count of chunks, by the function that the terminal's crate has for it: so what feeds is compiled once.
    fn go_to(session: &mut Session<T>, count: usize) -> Result<(), OutOfMemory>
        requires { count ≤ length session.old.recording.chunks }
        ensures state { Leaves result count session.old session.new }
        ensures room { count ≤ session.old.marks.frontier → IsOk result };

    /// Keeps what it needs of the terminal before the first chunk.
    fn keep(&self, terminal: &T) -> Result<Self::Kept, OutOfMemory>
        ensures keeps { (profile : T.Profile) (before : List ℕ) → T.shows profile terminal.now before
            → IfOk result (λ kept. keeps profile kept before) }
        ensures room { takes_none → IsOk result };

    /// Writes the text of a chunk, by what was kept before it and by the terminal after it, whose marks tell what the
    /// chunk may have touched, and of which it then keeps the same. Where memory is refused, nothing was written.
    fn visit<W: Write>(
        &self,
        index: usize,
        due: u64,
        kept: &mut Self::Kept,
        terminal: &T,
        writer: &mut Watched<W>,
    ) -> Result<(), OutOfMemory>
        requires { (profile : T.Profile) × (before : List ℕ) × keeps profile kept.old before
            × T.told profile terminal.now before }
        ensures gave { (profile : T.Profile) (before after : List ℕ) → keeps profile kept.old before
            → T.shows profile terminal.now after → T.told profile terminal.now before
            → OnOk result (Gave W.contents writer.old writer.new
            (text self.now profile index due before after)) }
        ensures keeps { (profile : T.Profile) (before after : List ℕ) → keeps profile kept.old before
            → T.shows profile terminal.now after → T.told profile terminal.now before
            → OnOk result (keeps profile kept.new after) }
        ensures refused { OnErr result (writer.new ≡ writer.old) }
        ensures room { takes_none → IsOk result };
}

/// Visits each chunk that is due after `from` (None: from chunk 0 on) and by `to`, as long as the writer doesn't fail.
/// It works by seeks: one to where the first begins, then each feeds a chunk. The recording and the log stay, and the
/// frontier isn't lowered.
pub fn visit_chunks<T: Plays, V: Visitor<T>, W: Write>(
    session: &mut Session<T>,
    from: Option<u64>,
    to: u64,
    visitor: &V,
    writer: &mut Watched<W>,
) -> Result<(), OutOfMemory>
    ensures gave { OnOk result (Gave W.contents writer.old writer.new
        (asked_texts (V.text visitor.now) session.old.profile session.old.recording from to)) }
    ensures refused { OnErr result (StopsSound W.contents writer.old writer.new
        (asked_texts (V.text visitor.now) session.old.profile session.old.recording from to)) }
    ensures stays { OnlySeeks session.old session.new }
    ensures room { V.takes_none
        → due_count session.old.recording.chunks to ≤ session.old.marks.frontier → IsOk result }
{
    due_is_below_the_count();
    gives_join::<W>();
    let start = first_asked(session, from);
    let end = session.recording().due_count(to);
    if start < end {
        return visit_between(session, start, end, visitor, writer);
    }
    Ok(())
}

/// Visits each chunk, as `visit_chunks` does.
#[tactic(auto, unfolding(crate::specs::Walk::all_texts))]
pub fn visit_all_chunks<T: Plays, V: Visitor<T>, W: Write>(
    session: &mut Session<T>,
    visitor: &V,
    writer: &mut Watched<W>,
) -> Result<(), OutOfMemory>
    ensures gave { OnOk result (Gave W.contents writer.old writer.new
        (all_texts (V.text visitor.now) session.old.profile session.old.recording)) }
    ensures refused { OnErr result (StopsSound W.contents writer.old writer.new
        (all_texts (V.text visitor.now) session.old.profile session.old.recording)) }
    ensures stays { OnlySeeks session.old session.new }
    ensures room { V.takes_none
        → length session.old.recording.chunks ≤ session.old.marks.frontier → IsOk result }
{
    let end = session.recording().chunks().len();
    visit_between(session, 0, end, visitor, writer)
}

/// The first chunk that is due after the moment.
fn first_asked<T: Plays>(session: &Session<T>, from: Option<u64>) -> usize
    ensures { result ≡ first_asked session.now.recording.chunks from }
{
    match from {
        None => 0,
        Some(moment) => session.recording().due_count(moment),
    }
}

/// Visits the chunks from one place up to and without another, as long as the writer doesn't fail.
fn visit_between<T: Plays, V: Visitor<T>, W: Write>(
    session: &mut Session<T>,
    start: usize,
    end: usize,
    visitor: &V,
    writer: &mut Watched<W>,
) -> Result<(), OutOfMemory>
    requires rising { start ≤ end }
    requires within { end ≤ length session.old.recording.chunks }
    ensures gave { OnOk result (Gave W.contents writer.old writer.new
        (flat_map (text_of (V.text visitor.now) session.old.profile session.old.recording)
        (range_with_len start (end - start)))) }
    ensures refused { OnErr result (StopsSound W.contents writer.old writer.new
        (flat_map (text_of (V.text visitor.now) session.old.profile session.old.recording)
        (range_with_len start (end - start)))) }
    ensures stays { OnlySeeks session.old session.new }
    ensures room { V.takes_none → end ≤ session.old.marks.frontier → IsOk result }
{
    gives_join::<W>();
    gives_end::<W>();
    if writer.failed() {
        return Ok(());
    }
    let mut kept = kept_at(session, start, visitor)?;
    for index in start..end {
        visit_chunk(session, index, &mut kept, visitor, writer)?;
        if writer.failed() {
            return Ok(());
        }
    }
    Ok(())
}

/// What the visitor keeps of the terminal after so many chunks.
fn kept_at<T: Plays, V: Visitor<T>>(
    session: &mut Session<T>,
    count: usize,
    visitor: &V,
) -> Result<V::Kept, OutOfMemory>
    requires { count ≤ length session.old.recording.chunks }
    ensures kept { IfOk result (λ kept.
        V.keeps session.old.profile kept (bytes_of_first session.old.recording.chunks count)) }
    ensures stays { OnlySeeks session.old session.new }
    ensures room { V.takes_none → count ≤ session.old.marks.frontier → IsOk result }
{
    V::go_to(session, count)?;
    visitor.keep(session.terminal())
}

/// Visits one chunk, by what was kept before it; then the same is kept after it.
fn visit_chunk<T: Plays, V: Visitor<T>, W: Write>(
    session: &mut Session<T>,
    index: usize,
    kept: &mut V::Kept,
    visitor: &V,
    writer: &mut Watched<W>,
) -> Result<(), OutOfMemory>
    requires within { index < length session.old.recording.chunks }
    requires fits { index < usize.MAX }
    requires before { V.keeps session.old.profile kept.old
        (bytes_of_first session.old.recording.chunks index) }
    ensures ok { OnOk result (Gave W.contents writer.old writer.new
        (text_of (V.text visitor.now) session.old.profile session.old.recording index)) }
    ensures after { OnOk result (V.keeps session.old.profile kept.new
        (bytes_of_first session.old.recording.chunks (index + 1))) }
    ensures untouched { OnErr result (writer.new ≡ writer.old) }
    ensures stays { OnlySeeks session.old session.new }
    ensures room { V.takes_none → index < session.old.marks.frontier → IsOk result }
{
    let due = session.recording().due_time(index);
    V::go_to(session, index + 1)?;
    visitor.visit(index, due, kept, session.terminal(), writer)
}
