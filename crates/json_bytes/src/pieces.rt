//! Bytes that are added one after another, for which room is made in few steps.
ghost use Rattle.std.specs.Prelude.{◌≡◌, ◌+◌, ◌++◌, ◌≤◌, length, take};

use std::alloc::{AllocError, Global};
use std::simd::prelude::*;

/// How many bytes are held at most.
const HELD: usize = 128;

/// How many are added at a time where that many are at hand.
pub const LANES: usize = 16;

/// The bytes so far: the last ones, so many, are held until there are many.
#[derive(Drop)]
pub struct Pieces {
    pub bytes: Vec<u8>,
    pub held: [u8; HELD],
    pub count: usize,
    ghost few: { count ≤ 128 },
}

/// Writes lanes over the bytes from a place on.
#[inline(always)]
fn store(held: &mut [u8], at: usize, lanes: u8x16)
    requires { at + 16 ≤ length held.old }
    ensures lanes { take (at + 16) held.new ≡ take at held.old ++ lanes }
    ensures len { length held.new ≡ length held.old }
{
    lanes.copy_to_slice(&mut held[at..]);
}

impl Pieces {
    ghost use Rattle.std.specs.Prelude.{[], ◌∷◌, IfOk, IsTrue, OnOk};
    ghost use Rattle.json_bytes.specs.Shown.{added};

    /// None so far. Takes no memory.
    #[inline]
    pub fn new(alloc: Global) -> Pieces
        ensures { added result ≡ [] }
    {
        Pieces {
            bytes: Vec::new(alloc),
            held: [0; HELD],
            count: 0,
        }
    }

    /// Makes room for lanes.
    #[inline]
    pub fn make_room(&mut self) -> Result<(), AllocError>
        ensures added { OnOk result (added self.new ≡ added self.old) }
        ensures room { OnOk result (self.new.count + 16 ≤ 128) }
    {
        if HELD - self.count < LANES {
            self.let_in()?;
        }
        Ok(())
    }

    /// Adds the first so many lanes. The others are written behind them, and don't count.
    #[inline]
    pub fn push_lanes(&mut self, lanes: u8x16, run: usize)
        requires room { self.old.count + 16 ≤ 128 }
        requires run { run ≤ 16 }
        ensures { added self.new ≡ added self.old ++ take run lanes }
    {
        store(&mut self.held, self.count, lanes);
        self.count += run;
    }

    /// Adds a byte.
    #[inline]
    pub fn push(&mut self, byte: u8) -> Result<(), AllocError>
        ensures { OnOk result (added self.new ≡ added self.old ++ byte ∷ []) }
    {
        if self.count == HELD {
            self.let_in()?;
        }
        self.held[self.count] = byte;
        self.count += 1;
        Ok(())
    }

    /// Lets those in that are held.
    #[inline(never)]
    pub fn let_in(&mut self) -> Result<(), AllocError>
        ensures bytes { OnOk result (self.new.bytes.items ≡ added self.old) }
        ensures added { OnOk result (added self.new ≡ added self.old) }
        ensures none { OnOk result (self.new.count ≡ 0) }
    {
        self.bytes.extend_from_slice(&self.held[..self.count])?;
        self.count = 0;
        Ok(())
    }
}
