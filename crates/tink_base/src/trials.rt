//! A count of trials: how many keys were tried to open or verify some bytes.

ghost use Rattle.std.specs.Prelude.{◌≡◌};
ghost use Rattle.tink_spec.specs.Outside.{next};

use std::marker::Model;

/// How many keys were tried. Contracts see the number, which stays at 2^64 - 1 once there.
#[derive(Drop)]
pub struct Trials {
    count: u64,
}

impl Model for Trials {
    ghost use Rattle.std.specs.Prelude.{ℕ};

    ghost Value = { ℕ };

    ghost view = { λ t. t.count };
}

impl Trials {
    /// A count of 0.
    pub fn new() -> Trials
        ensures { result ≡ 0 }
    {
        Trials { count: 0 }
    }

    /// Counts one more key.
    pub fn tick(&mut self)
        ensures { self.new ≡ next self.old }
    {
        self.count = self.count.saturating_add(1);
    }

    /// How many keys were tried.
    pub fn spent(&self) -> u64
        ensures { result ≡ self.now }
    {
        self.count
    }
}
