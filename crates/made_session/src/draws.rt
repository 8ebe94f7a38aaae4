//! Numbers drawn one after another.

ghost use Rattle.std.specs.Prelude.{◌≡◌, ◌<◌};
ghost use Rattle.made_session.specs.Draws.{drawn, state_after};
ghost use Rattle.made_session.specs.Loads.{drawn_point};
ghost use Rattle.live_model.specs.Points.{IsInGrid};

use live_model::Point;
use std::marker::Model;

/// Numbers that a seed draws: a linear congruential generator modulo 2^64 with the multiplier 6364136223846793005, of whose states the
/// upper 31 bits count. It is seen as its state.
#[derive(Drop)]
pub struct Draws {
    state: u64,
}

impl Model for Draws {
    ghost use Rattle.std.specs.Prelude.{ℕ};

    ghost Value = { ℕ };

    ghost view = { λ d. d.state };
}

impl Draws {
    /// The draws of a seed.
    pub fn new(seed: u64) -> Draws
        ensures { result ≡ seed }
    {
        Draws { state: seed }
    }

    /// A number below another.
    pub fn below(&mut self, limit: u32) -> u32
        requires some { 0 < limit }
        ensures drawn { result ≡ drawn self.old 0 limit }
        ensures below { result < limit }
        ensures after { self.new ≡ state_after self.old 1 }
    {
        self.state = self
            .state
            .wrapping_mul(6_364_136_223_846_793_005)
            .wrapping_add(1_442_695_040_888_963_407);
        ((self.state >> 33) % u64::from(limit)) as u32
    }

    /// A location from 13 to 13.1 degrees to the east and from 52 to 52.1 degrees to the north.
    pub fn point(&mut self) -> Point
        ensures point { result ≡ drawn_point self.old }
        ensures good { IsInGrid result }
        ensures after { self.new ≡ state_after self.old 2 }
    {
        let east = self.below(1_000_000);
        let north = self.below(1_000_000);
        Point {
            x: 1_800_000_000 + 130_000_000 + east,
            y: 900_000_000 - 520_000_000 - north,
        }
    }
}
