// Yields as the paper counts them: in hundred-millionths, so that 3.70 % is 3,700,000.
#![tactic(auto)]

ghost use Rattle.std.specs.Prelude.{◌≡◌, ℕ, ◌*◌, ◌<◌, ◌≤◌, ◌^◌, ℤ, pos, nat_abs, ◌*ℤ◌};
ghost use Rattle.paper.specs.Units.{full_rate, basis_point, hundredth, nominal};
ghost use Rattle.paper.specs.Rounding.{nearest};

// The nominal of every contract, DKK 1,000,000, in øre.
const NOMINAL: u64 = 100_000_000;

#[derive(Clone, Copy)]
pub struct Rate {
    pub units: i64,
}

impl Rate {
    pub const BASIS_POINT: u64 = 10_000;

    pub const FULL: u64 = 100_000_000;

    // A full rate over a year of 360 days is the nominal: so many units and days make one øre.
    const UNIT_DAYS: u64 = 360 * Self::FULL / NOMINAL;

    const HUNDREDTH: u64 = Self::BASIS_POINT / 100;

    // So many basis points.
    pub fn of_basis_points(n: u16) -> Self
        ensures { result.units ≡ pos (n * basis_point) }
    {
        Self {
            units: (u64::from(n) * Self::BASIS_POINT) as i64,
        }
    }

    // 100 %: the nominal itself over a year.
    pub fn full_rate() -> Self
        ensures { result.units ≡ pos full_rate }
    {
        Self {
            units: Self::FULL as i64,
        }
    }

    // What a rate is a share of, in øre.
    pub fn nominal_ore() -> u64
        ensures { result ≡ nominal }
    {
        NOMINAL
    }

    // Whole øre on the nominal for the days, of a rate that is given as so many times itself.
    pub fn ore(self, days: u16, fold: u64) -> i64
        requires { (nat_abs (self.units *ℤ pos days) ≤ 4000000000000000000) × (0 < fold) × (fold < 2 ^ 54) }
        ensures { result ≡ nearest (self.units *ℤ pos days) (360 * fold) }
    {
        amount::nearest(
            amount::times(self.units, i64::from(days)),
            Self::UNIT_DAYS * fold,
        )
    }

    // Whole hundredths of a basis point, of a rate that is given as so many times itself.
    pub fn hundredths(self, fold: u64) -> i64
        requires { (nat_abs self.units ≤ 4000000000000000000) × (0 < fold) × (fold < 2 ^ 54) }
        ensures { result ≡ nearest self.units (hundredth * fold) }
    {
        amount::nearest(self.units, Self::HUNDREDTH * fold)
    }
}
