//! Laws over the definitions alone, as functions with empty bodies.
ghost use Rattle.transcripts.specs.Law.{ChunksMakeNoDifference, WhatLeftStays};

use crate::transcribes::Transcribes;
use tape_core::laws::first_grows_by_a_chunk;

/// What left once stays: the rows that left by a count begin those that left by a later one; from that count on the others
/// are told, and those that stand.
pub fn what_left_stays<T: Transcribes>()
    ensures { WhatLeftStays T.leaving T.standing }
{
    first_grows_by_a_chunk();
    T::laws();
}

/// Where the bytes are cut into other chunks the transcript is the same.
#[tactic(auto, using(crate::proofs::LeftLemmas::chunks_make_no_difference))]
pub fn chunks_make_no_difference<T: Transcribes>()
    ensures { ChunksMakeNoDifference T.leaving T.standing }
{}
