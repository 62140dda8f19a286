ghost use Rattle.std.specs.Prelude.{ℕ, ◌≡◌, ◌<◌, suc};
ghost use Rattle.workload.specs.Numbers.{state, drawn};

/// A generator of numbers below 32,768: a linear congruence modulo 2^31, of which each draw gives the upper bits.
#[derive(Debug, Drop)]
pub struct Numbers {
    state: u64,
    ghost small: { state < 2147483648 },
}

impl Numbers {
    /// The generator that begins with this seed.
    pub fn of(seed: u32) -> Numbers
        requires { seed < 2147483648 }
        ensures { result.state ≡ state seed 0 }
    {
        Numbers {
            state: u64::from(seed),
        }
    }

    /// The next number.
    pub fn draw(&mut self) -> u64
        ensures drawn { (seed n : ℕ) → self.old.state ≡ state seed n → result ≡ drawn seed n }
        ensures state { (seed n : ℕ) → self.old.state ≡ state seed n → self.new.state ≡ state seed (suc n) }
    {
        self.state = (self.state * 1_103_515_245 + 12_345) % 2_147_483_648;
        self.state / 65_536
    }
}
