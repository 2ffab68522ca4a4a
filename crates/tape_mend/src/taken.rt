//! The parts of the body take bytes of the typescript, one after another.
ghost use Rattle.std.specs.Prelude.{◌≡◌, ◌≤◌, ◌+◌, ◌++◌, [], OnOk, IfOk, drop, length, take};
ghost use Rattle.tape_mend.specs.Steps.{IsTaken};
ghost use Rattle.tape_mend.specs.Taken.{chunk_count, piece_chunks, piece_len, stopped, taken};

use crate::counting::Piece;
use crate::losses::Cut;
use std::alloc::{AllocError, Global};
use std::rc::Rc;
use tape_core::{Bytes, Chunk};

/// What was taken: the chunks, the last of them where it was cut, how many are left out, and where the bytes begin that
/// were not taken.
#[derive(Drop)]
pub struct Taken {
    pub chunks: Vec<Chunk>,
    pub cut: Option<Cut>,
    pub left: u64,
    pub rest: usize,
}

impl Piece {
    /// How many bytes it counts.
    fn len(self) -> u64
        ensures { result ≡ piece_len self }
    {
        match self {
            Piece::Output(entry) => entry.count,
            Piece::Input(count) => count,
        }
    }
}

/// How many of the parts are outputs.
fn count_outputs(pieces: &[Piece]) -> u64
    ensures { result ≡ chunk_count pieces.now }
{
    pieces
        .iter()
        .filter(|piece| matches!(piece, Piece::Output(_)))
        .count() as u64
}

/// Adds the chunk of a part, if it is an output.
fn add_chunk(
    chunks: &mut Vec<Chunk>,
    script: &Rc<Vec<u8>>,
    at: usize,
    piece: Piece,
    len: usize,
) -> Result<(), AllocError>
    requires { at + len ≤ length script.now.value.items }
    ensures { OnOk result (chunks.new.items
        ≡ chunks.old.items ++ piece_chunks piece (take len (drop at script.now.value.items))) }
{
    if let Piece::Output(entry) = piece {
        let bytes = Bytes::part_of(script, at, len)?;
        chunks.push(Chunk {
            delay: entry.delay,
            bytes,
        })?;
    }
    Ok(())
}

/// What is taken behind a place by a part that counts more bytes than stand there, and by those behind it.
fn stop(
    mut chunks: Vec<Chunk>,
    script: &Rc<Vec<u8>>,
    at: usize,
    piece: Piece,
    more: &[Piece],
) -> Result<Taken, AllocError>
    requires within { at ≤ length script.now.value.items }
    ensures { IfOk result (λ t. IsTaken script.now.value.items t
        (stopped chunks.items (drop at script.now.value.items) piece more.now)) }
{
    let kept = script.len() - at;
    let left = count_outputs(more);
    let chunk = chunks.len() as u64;
    let rest = script.len();
    match piece {
        Piece::Output(entry) if kept > 0 => {
            add_chunk(&mut chunks, script, at, piece, kept)?;
            let cut = Cut {
                chunk,
                kept: kept as u64,
                counted: entry.count,
            };
            Ok(Taken {
                chunks,
                cut: Some(cut),
                left,
                rest,
            })
        }
        Piece::Output(_) => Ok(Taken {
            chunks,
            cut: None,
            left: left + 1,
            rest,
        }),
        Piece::Input(_) => Ok(Taken {
            chunks,
            cut: None,
            left,
            rest,
        }),
    }
}

/// Cuts what stands in the script from a place on into the chunks of the parts.
pub fn take_pieces(
    alloc: Global,
    script: &Rc<Vec<u8>>,
    start: usize,
    pieces: &[Piece],
) -> Result<Taken, AllocError>
    requires within { start ≤ length script.now.value.items }
    ensures { IfOk result (λ t. IsTaken script.now.value.items t
        (taken [] (drop start script.now.value.items) pieces.now)) }
{
    let mut chunks = Vec::new(alloc);
    let mut at = start;
    let mut rest = pieces;
    while let [piece, more @ ..] = rest {
        if piece.len() > (script.len() - at) as u64 {
            return stop(chunks, script, at, *piece, more);
        }
        let len = piece.len() as usize;
        add_chunk(&mut chunks, script, at, *piece, len)?;
        at += len;
        rest = more;
    }
    Ok(Taken {
        chunks,
        cut: None,
        left: 0,
        rest: at,
    })
}
