//! What a session keeps of what it played, and going to a count of chunks.
//!
//! Where `every` is 4, the frontier 10 and the head 5, of 12 chunks:
//!
//! ```text
//! count      0   1   2   3   4   5   6   7   8   9   10  11  12
//! stored                     T               T                    a terminal at each multiple of `every`, 0 excepted
//! working                        T                                the head: where the working terminal stands
//! sent       n   n   n   n   n   n   n   n   n   n   n            how many bytes were sent by each count
//! reports    ========================================             those bytes
//!                                                    |            the frontier: nothing is kept past it
//! ```
//!
//! A seek starts at the latest of the stored terminals, the working one and the reset terminal that isn't past its count,
//! and feeds chunks up to it; those past the frontier move the frontier on. A change of chunk 6 leaves what lies up to 6:
//! the terminal at 8 goes, the frontier is 6, and a head past it goes back to the last stored terminal.
ghost use Rattle.std.specs.Prelude.{◌≡◌, ℕ, ◌+◌, ◌-◌, ◌*◌, ◌/◌, ◌<◌, ◌≤◌, List, length, min, IfOk, OnOk, OnErr, IsOk, slice_index};
ghost use Rattle.tape_core.specs.declared.chunk.Chunk.{Chunk};
ghost use Rattle.plays.specs.Sink.{KeepsFront};
ghost use Rattle.tape_seek.specs.Kept.{HasSent, HoldsUpTo, IsAhead, IsKept, IsPlaying, IsReplay, PlaysOn, SameFront, SendsNext, ShowsHead, StandsAt, Stores, marks_of, sent_after};
ghost use Rattle.tape_seek.specs.Marks.{after_cut, after_refused_seek, after_seek, fed_by, first_marks, multiple_below, start_of};

use plays::{OutOfMemory, Plays, Reports};
use std::alloc::{AllocError, Global};
use tape_core::Chunk;

/// A replay of the chunks of a recording, kept up to the frontier.
#[derive(Debug, Drop)]
pub(crate) struct Replay<T: Plays> {
    /// Which terminal plays.
    pub profile: T::Profile,
    /// A terminal is stored at each multiple of this count up to the frontier, 0 excepted.
    pub every: usize,
    /// All that is kept is right up to this count of chunks.
    pub frontier: usize,
    /// The count at which the working terminal stands, at most the frontier.
    pub head: usize,
    /// The working terminal.
    pub working: T,
    /// The terminals at `every`, twice `every` and so on, packed.
    pub stored: Vec<Box<T::Packed>>,
    /// All that was sent up to the frontier.
    pub reports: Reports,
    /// How many bytes were sent by each count from 0 to the frontier.
    pub sent: Vec<usize>,
    /// How many chunks the last seek has fed so far.
    pub fed: usize,
    /// Where stored terminals come from.
    pub alloc: Global,
}

impl<T: Plays> Replay<T> {
    /// Nothing was played.
    pub(crate) fn new(alloc: Global, profile: T::Profile, every: usize) -> Result<Self, AllocError>
        requires { 0 < every }
        ensures replay { (chunks : List Chunk) → IfOk result (λ r. IsReplay T.Plays chunks r) }
        ensures profile { IfOk result (λ r. r.profile ≡ profile) }
        ensures every { IfOk result (λ r. r.every ≡ every) }
        ensures marks { IfOk result (λ r. marks_of r ≡ first_marks) }
    {
        T::laws();
        let working = T::reset(alloc, profile)?;
        let mut sent = Vec::new(alloc);
        sent.push(0)?;
        Ok(Replay {
            profile,
            every,
            frontier: 0,
            head: 0,
            working,
            stored: Vec::new(alloc),
            reports: Reports::new(alloc),
            sent,
            fed: 0,
            alloc,
        })
    }

    /// Goes to the count: from the latest of the stored terminals, the working one and the reset terminal that isn't past
    /// it. Where memory is refused, what was added is taken back.
    #[tactic(auto, using(crate::proofs::ReplayLemmas::plays_on))]
    pub(crate) fn seek(&mut self, chunks: &[Chunk], count: usize) -> Result<(), OutOfMemory>
        requires replay { IsReplay T.Plays chunks.now self.old }
        requires within { count ≤ length chunks.now }
        ensures replay { IsReplay T.Plays chunks.now self.new }
        ensures rest { PlaysOn self.old self.new }
        ensures ok { OnOk result (marks_of self.new ≡ after_seek count (marks_of self.old)) }
        ensures err { OnErr result
            (marks_of self.new ≡ after_refused_seek self.old.every (marks_of self.old)) }
        ensures fed { OnOk result (self.new.fed ≡ fed_by self.old.every count (marks_of self.old)) }
        ensures room { count ≤ self.old.frontier → IsOk result }
    {
        let frontier = self.frontier;
        self.start(count);
        if self.feed_to(chunks, count).is_err() {
            self.keep_up_to(frontier);
            self.go_back(frontier);
            return Err(OutOfMemory);
        }
        Ok(())
    }

    /// The chunks from this one on have changed: nothing that was kept past it is right any more.
    #[tactic(auto, using(crate::proofs::ReplayLemmas::plays_on))]
    pub(crate) fn cut(&mut self, first: usize)
        requires { (chunks : List Chunk) × IsReplay T.Plays chunks self.old }
        // Whatever the recording has become, where its first chunks up to this one stayed.
        ensures replay { (old new : List Chunk) → IsReplay T.Plays old self.old
            → SameFront old new (min self.old.frontier first) → IsReplay T.Plays new self.new }
        ensures rest { PlaysOn self.old self.new }
        ensures marks { marks_of self.new ≡ after_cut self.old.every first (marks_of self.old) }
    {
        T::laws();
        if first < self.frontier {
            self.keep_up_to(first);
            if self.head > first {
                self.go_back(first);
            }
        }
    }

    /// Puts the working terminal where a seek to the count starts.
    fn start(&mut self, count: usize)
        requires { (chunks : List Chunk) × IsReplay T.Plays chunks self.old }
        ensures playing { (chunks : List Chunk) → IsReplay T.Plays chunks self.old
            → IsPlaying T.Plays chunks self.new }
        ensures before { self.new.head ≤ count }
        ensures rest { self.new ≡ record self.old {
          working = self.new.working;
          head = start_of self.old.every count (marks_of self.old);
          reports = self.new.reports;
          fed = 0;
        } }
    {
        T::laws();
        let near = count.min(self.frontier);
        if self.head > count || self.head < near / self.every * self.every {
            self.go_back(near);
        }
        self.reports.set_place(self.sent[self.head]);
        self.fed = 0;
    }

    /// Puts the working terminal at the last stored terminal up to the count, or back to the reset terminal.
    fn go_back(&mut self, count: usize)
        requires every { 0 < self.old.every }
        requires stored { count / self.old.every ≤ length self.old.stored.items }
        requires fits { T.fits self.old.profile self.old.working }
        ensures working { (chunks : List Chunk) → HoldsUpTo T.Plays chunks count self.old
            → StandsAt T.Plays self.old.profile self.new.working chunks
            (multiple_below self.old.every count) }
        ensures rest { self.new ≡ record self.old {
          working = self.new.working;
          head = multiple_below self.old.every count;
        } }
    {
        T::laws();
        let terminals = count / self.every;
        if terminals == 0 {
            self.working.clear(self.profile);
        } else {
            self.working.unpack(&self.stored[terminals - 1]);
        }
        self.head = terminals * self.every;
    }

    /// Keeps what was kept up to the count, and nothing past it.
    fn keep_up_to(&mut self, count: usize)
        requires every { 0 < self.old.every }
        requires counts { count < length self.old.sent.items }
        requires sent { slice_index self.old.sent.items count ≤ length self.old.reports.bytes }
        ensures kept { (chunks : List Chunk) → HoldsUpTo T.Plays chunks count self.old
            → IsKept T.Plays chunks self.new }
        ensures rest { self.new ≡ record self.old {
          frontier = count;
          stored = self.new.stored;
          reports = self.new.reports;
          sent = self.new.sent;
        } }
    {
        self.reports.cut(self.sent[count]);
        self.sent.truncate(count + 1);
        self.stored.truncate(count / self.every);
        self.frontier = count;
    }

    /// Feeds the chunks between the head and the count.
    #[tactic(auto, using(crate::proofs::ReplayLemmas::plays_on))]
    fn feed_to(&mut self, chunks: &[Chunk], count: usize) -> Result<(), OutOfMemory>
        requires playing { IsPlaying T.Plays chunks.now self.old }
        requires within { count ≤ length chunks.now }
        requires before { self.old.head ≤ count }
        requires fed { self.old.fed ≡ 0 }
        ensures ok { OnOk result (IsReplay T.Plays chunks.now self.new) }
        ensures marks { OnOk result (marks_of self.new ≡ after_seek count (marks_of self.old)) }
        ensures fed { OnOk result (self.new.fed ≡ count - self.old.head) }
        ensures err { OnErr result (HoldsUpTo T.Plays chunks.now self.old.frontier self.new) }
        ensures fits { T.fits self.new.profile self.new.working }
        ensures rest { PlaysOn self.old self.new }
        ensures room { count ≤ self.old.frontier → IsOk result }
    {
        T::laws();
        while self.head < count {
            self.step_on(chunks)?;
        }
        Ok(())
    }

    /// Feeds one chunk, and keeps what comes of it where that is new.
    #[tactic(auto, using(crate::proofs::ReplayLemmas::plays_on))]
    fn step_on(&mut self, chunks: &[Chunk]) -> Result<(), OutOfMemory>
        requires playing { IsPlaying T.Plays chunks.now self.old }
        requires within { self.old.head < length chunks.now }
        requires fed { self.old.fed ≤ self.old.head }
        ensures ok { OnOk result (IsPlaying T.Plays chunks.now self.new) }
        ensures marks { OnOk result
            (marks_of self.new ≡ after_seek (self.old.head + 1) (marks_of self.old)) }
        ensures fed { OnOk result (self.new.fed ≡ self.old.fed + 1) }
        ensures err { OnErr result (HoldsUpTo T.Plays chunks.now self.old.frontier self.new) }
        ensures fits { T.fits self.new.profile self.new.working }
        ensures rest { PlaysOn self.old self.new }
        ensures room { self.old.head < self.old.frontier → IsOk result }
    {
        T::laws();
        self.feed_next(chunks)?;
        if self.head > self.frontier {
            self.keep_working()?;
        }
        Ok(())
    }

    /// Feeds one chunk to the working terminal, and counts it. Nothing else feeds.
    fn feed_next(&mut self, chunks: &[Chunk]) -> Result<(), OutOfMemory>
        requires within { self.old.head < length chunks.now }
        requires fed { self.old.fed ≤ self.old.head }
        ensures ok { OnOk result (self.new ≡ record self.old {
          working = self.new.working;
          reports = self.new.reports;
          head = self.old.head + 1;
          fed = self.old.fed + 1;
        }) }
        ensures err { OnErr result (self.new ≡ record self.old {
          working = self.new.working;
          reports = self.new.reports;
        }) }
        ensures stands { ShowsHead T.Plays chunks.now self.old → OnOk result (StandsAt T.Plays
            self.old.profile self.new.working chunks.now (self.old.head + 1)) }
        ensures fits { T.fits self.old.profile self.old.working
            → T.fits self.old.profile self.new.working }
        ensures sent { ShowsHead T.Plays chunks.now self.old → SendsNext T.Plays chunks.now self.old
            → OnOk result (HasSent T.Plays chunks.now self.old self.new) }
        ensures front { KeepsFront self.old.reports self.new.reports }
        ensures room { ShowsHead T.Plays chunks.now self.old → SendsNext T.Plays chunks.now self.old
            → length (sent_after T.Plays self.old.profile chunks.now (self.old.head + 1))
            ≤ length self.old.reports.bytes
            → IsOk result }
    {
        T::laws();
        self.working
            .feed(chunks[self.head].bytes.as_slice(), &mut self.reports)?;
        self.head += 1;
        self.fed += 1;
        Ok(())
    }

    /// Moves the frontier on to the head, which stands one past it.
    fn keep_working(&mut self) -> Result<(), AllocError>
        requires every { 0 < self.old.every }
        ensures ok { (chunks : List Chunk) → IsAhead T.Plays chunks self.old
            → OnOk result (IsPlaying T.Plays chunks self.new) }
        ensures err { (chunks : List Chunk) (count : ℕ) → HoldsUpTo T.Plays chunks count self.old
            → HoldsUpTo T.Plays chunks count self.new }
        ensures frontier { OnOk result (self.new.frontier ≡ self.old.head) }
        ensures rest { self.new ≡ record self.old {
          frontier = self.new.frontier;
          stored = self.new.stored;
          sent = self.new.sent;
        } }
    {
        if self.head % self.every == 0 {
            self.store_working()?;
        }
        self.sent.push(self.reports.place())?;
        self.frontier = self.head;
        Ok(())
    }

    /// Stores the working terminal, packed, behind the others.
    fn store_working(&mut self) -> Result<(), AllocError>
        ensures ok { OnOk result (Stores T.Plays self.old self.new) }
        ensures err { OnErr result (self.new.stored.items ≡ self.old.stored.items) }
        ensures rest { self.new ≡ record self.old { stored = self.new.stored } }
    {
        let packed = self.working.pack(self.alloc)?;
        self.stored.push(Box::new(self.alloc, packed)?)?;
        Ok(())
    }

    /// All that was sent by the count.
    pub(crate) fn sent_by(&self, count: usize) -> &[u8]
        requires some { (chunks : List Chunk) × IsReplay T.Plays chunks self.now }
        requires within { count ≤ self.now.frontier }
        ensures { (chunks : List Chunk) → IsReplay T.Plays chunks self.now
            → result.now ≡ sent_after T.Plays self.now.profile chunks count }
    {
        T::laws();
        &self.reports.bytes()[..self.sent[count]]
    }
}
