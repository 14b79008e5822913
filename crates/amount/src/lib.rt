// Whole øre, signed: the arithmetic that every figure goes through.
#![tactic(auto)]

ghost use Rattle.std.specs.Prelude.{◌≡◌, ℕ, ◌-◌, ◌<◌, ◌≤◌, ◌^◌, ℤ, pos, nat_abs, neg_ℤ, ◌+ℤ◌, ◌-ℤ◌, ◌*ℤ◌, length, get_or};
ghost use Rattle.std.specs.Int.{w64};
ghost use Rattle.std.proofs.Common.{SFits};
ghost use Rattle.paper.specs.Sums.{worse as worse_of, lowest as lowest_of};
ghost use Rattle.paper.specs.Rounding.{nearest as nearest_of, nearest_size as nearest_size_of};

pub fn plus(a: i64, b: i64) -> i64
    requires { SFits w64 (a +ℤ b) }
    ensures { result ≡ a +ℤ b }
{
    a + b
}

pub fn less(a: i64, b: i64) -> i64
    requires { SFits w64 (a -ℤ b) }
    ensures { result ≡ a -ℤ b }
{
    a - b
}

pub fn times(a: i64, b: i64) -> i64
    requires { SFits w64 (a *ℤ b) }
    ensures { result ≡ a *ℤ b }
{
    a * b
}

// The worse of two amounts is the lower.
pub fn worse(a: i64, b: i64) -> i64
    ensures { result ≡ worse_of a b }
{
    a.min(b)
}

// The lowest of the amounts from one number to another.
pub fn lowest_from(v: &[i64], from: usize, to: usize) -> i64
    requires { (from ≤ to) × (to < length v.now) }
    ensures { result ≡ lowest_of (λ y. get_or v.now y (pos 0)) from (to - from) }
{
    let mut low = v[from];
    for y in from..to {
        low = worse(low, v[y + 1]);
    }
    low
}

// The lowest of the amounts.
pub fn lowest(v: &[i64]) -> i64
    requires { 0 < length v.now }
    ensures { result ≡ lowest_of (λ y. get_or v.now y (pos 0)) 0 (length v.now - 1) }
{
    lowest_from(v, 0, v.len() - 1)
}

// The size of an amount, of the lowest too, whose negative no i64 holds.
pub fn size(a: i64) -> u64
    ensures { result ≡ nat_abs a }
{
    a.unsigned_abs()
}

// A size, rounded to nearest over a divisor: half a unit is added, and the rest is dropped.
fn nearest_size(n: u64, d: u64) -> u64
    requires { (n ≤ 4000000000000000000) × (0 < d) × (d < 2 ^ 63) }
    ensures { result ≡ nearest_size_of n d }
{
    (2 * n + d) / (2 * d)
}

// An amount, rounded to nearest over a divisor, halves away from zero.
pub fn nearest(z: i64, d: u64) -> i64
    requires { (nat_abs z ≤ 4000000000000000000) × (0 < d) × (d < 2 ^ 63) }
    ensures { result ≡ nearest_of z d }
{
    let near = nearest_size(size(z), d) as i64;
    if z < 0 { -near } else { near }
}
