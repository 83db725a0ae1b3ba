//! Numbers drawn from a seed.
ghost use Rattle.std.specs.Prelude.{◌≡◌, ◌≤◌, unsigned_abs};
ghost use Rattle.oct_gen.specs.Draws.{draw, drawn_within, stepped};

const MULTIPLIER: u64 = 6_364_136_223_846_793_005;

const INCREMENT: u64 = 1_442_695_040_888_963_407;

/// Numbers drawn one after another, each from the state that the one before left.
#[derive(Clone, Copy, Debug)]
pub(crate) struct Draws {
    state: u64,
}

impl Draws {
    /// The draws of a seed.
    pub(crate) fn new(seed: u64) -> Self
        ensures { result.state ≡ seed }
    {
        Draws { state: seed }
    }

    /// The seed of which the numbers from here on are the draws.
    pub(crate) fn seed(&self) -> u64
        ensures { result ≡ self.now.state }
    {
        self.state
    }

    /// The next draw.
    fn draw(&mut self) -> u64
        ensures value { result ≡ draw self.old.state 0 }
        ensures state { self.new.state ≡ stepped self.old.state }
    {
        self.state = self.state.wrapping_mul(MULTIPLIER).wrapping_add(INCREMENT);
        self.state >> 33
    }

    /// The next draw, as a whole number from `-reach` to `reach`.
    pub(crate) fn draw_within(&mut self, reach: u16) -> i64
        ensures value { result ≡ drawn_within reach self.old.state 0 }
        ensures state { self.new.state ≡ stepped self.old.state }
        ensures reach { unsigned_abs result ≤ reach }
    {
        let reach = u64::from(reach);
        (self.draw() % (2 * reach + 1)) as i64 - reach as i64
    }
}
