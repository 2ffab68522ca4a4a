//! Numbers that look like chance, the same for the same seed.

ghost use Rattle.std.specs.Prelude.{◌<◌};

/// A linear congruential generator (Knuth, volume 2, section 3.2.1).
#[derive(Clone, Copy, Debug)]
pub struct Random {
    state: u64,
}

impl Random {
    /// One that begins anew for each seed.
    pub fn new(seed: u64) -> Self {
        let mut random = Random { state: seed };
        random.step();
        random.step();
        random
    }

    /// Goes on, and gives what its upper bits say.
    fn step(&mut self) -> u64 {
        let product = self.state.wrapping_mul(6364136223846793005);
        self.state = product.wrapping_add(1442695040888963407);
        self.state >> 33
    }

    /// A number below another.
    pub fn below(&mut self, end: usize) -> usize
        requires { 0 < end }
        ensures { result < end }
    {
        (self.step() % end as u64) as usize
    }

    /// Whether something comes to pass that does so once in so many times.
    pub fn once_in(&mut self, times: usize) -> bool
        requires { 0 < times }
    {
        self.below(times) == 0
    }
}
