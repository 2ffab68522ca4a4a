//! A list of bytes on the heap.
ghost use Rattle.std.specs.Prelude.{◌≡◌, ◌↔◌, ◌+◌, ◌≤◌, [], IfOk, IsTrue, drop, length, take};

use std::alloc::{AllocError, Global};
use std::fmt;
use std::marker::Model;
use std::rc::Rc;

/// Bytes of a recording. Contracts see them as a list: two of them are equal where their bytes are,
/// wherever they lie in memory.
#[derive(Drop)]
pub struct Bytes {
    held: Held,
}

/// Where bytes lie: in a vector of their own, or in a text that others have parts of too.
#[derive(Drop)]
enum Held {
    Own(Vec<u8>),
    Part(Part),
}

/// So many bytes of a text, from a place on.
#[derive(Drop)]
struct Part {
    text: Rc<Vec<u8>>,
    start: usize,
    len: usize,
}

impl Model for Bytes {
    ghost use Rattle.std.specs.Prelude.{List, ℕ};

    ghost Value = { List ℕ };

    ghost use Rattle.tape_core.specs.Held.{held_bytes, LiesWithin};

    ghost view = { λ b. held_bytes b.held };

    ghost invariant = { λ b. LiesWithin b.held };
}

impl Bytes {
    /// Takes the vector as it is, and takes no memory.
    pub fn from_vec(items: Vec<u8>) -> Self
        ensures { result ≡ items.items }
    {
        Bytes {
            held: Held::Own(items),
        }
    }

    /// A copy of the bytes, in just the room that they need.
    pub fn copy_of(alloc: Global, bytes: &[u8]) -> Result<Self, AllocError>
        ensures { IfOk result (λ copy. copy ≡ bytes.now) }
    {
        Ok(Bytes::from_vec(bytes.to_vec(alloc)?))
    }

    /// So many bytes of a text that is shared, from a place on. Takes no memory; refused where the owners of the text
    /// are too many to count.
    pub fn part_of(text: &Rc<Vec<u8>>, start: usize, len: usize) -> Result<Self, AllocError>
        requires { start + len ≤ length text.now.value.items }
        ensures { IfOk result (λ part. part ≡ take len (drop start text.now.value.items)) }
    {
        let text = text.clone()?;
        Ok(Bytes {
            held: Held::Part(Part { text, start, len }),
        })
    }

    /// Lends the bytes.
    pub fn as_slice(&self) -> &[u8]
        ensures { result.now ≡ self.now }
    {
        match &self.held {
            Held::Own(items) => items.as_slice(),
            Held::Part(part) => &part.text.as_slice()[part.start..part.start + part.len],
        }
    }

    /// How many bytes there are.
    pub fn len(&self) -> usize
        ensures { result ≡ length self.now }
    {
        match &self.held {
            Held::Own(items) => items.len(),
            Held::Part(part) => part.len,
        }
    }

    /// Whether there is none.
    pub fn is_empty(&self) -> bool
        ensures { IsTrue result ↔ (self.now ≡ []) }
    {
        self.len() == 0
    }
}

impl fmt::Debug for Bytes {
    fn fmt<W: fmt::Write>(&self, f: &mut fmt::Formatter<W>) -> fmt::Result {
        self.as_slice().fmt(f)
    }
}
