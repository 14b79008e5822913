// The window of a class: its width and reach, the lowest entry within reach of a point, the point chosen there, and a
// vector slid over a row.
#![tactic(auto)]

ghost use Rattle.std.specs.Prelude.{◌≡◌, ◌+◌, ◌-◌, ◌<◌, ◌≤◌, min, length};
ghost use Rattle.std.specs.Int.Signed.{lt_z};
ghost use Rattle.paper.specs.Sums.{lowest};
ghost use Rattle.paper.specs.Windows.{width as width_of, reach_of, window_from, lowest_near, chosen_near};
ghost use Rattle.window.specs.Slides.{entry_of, within, first_lowest, slid, SlideFits};

// The smallest odd number not below share times points / 10,000.
#[tactic(auto, unfolding(paper::specs::Windows::width))]
pub fn width(share: u16, points: u16) -> usize
    ensures { result ≡ width_of share points }
{
    (usize::from(share) * usize::from(points)).div_ceil(10_000) / 2 * 2 + 1
}

// Half the width, rounded down.
pub fn reach(share: u16, points: u16) -> usize
    ensures { result ≡ reach_of share points }
{
    width(share, points) / 2
}

// The first point of the scale within reach r of x.
fn first_within(r: usize, x: usize) -> usize
    ensures { result ≡ window_from r x }
{
    x.saturating_sub(r)
}

// The last point of the scale within reach r of x.
fn last_within(points: usize, r: usize, x: usize) -> usize
    requires { x < points }
    ensures { result ≡ min (x + r) (points - 1) }
{
    if points - x <= r { points - 1 } else { x + r }
}

// The entries of v within reach r of x. The point x comes by itself: `chosen_near` promises this of any that lies in v.
fn within(v: &[i64], r: usize, x: usize) -> &[i64]
    requires { x < length v.now }
    ensures { result.now ≡ within v.now r x }
{
    &v[first_within(r, x)..=last_within(v.len(), r, x)]
}

// The lowest entry of v within reach r of x.
pub fn lowest_near(v: &[i64], r: usize, x: usize) -> i64
    requires { x < length v.now }
    ensures { result ≡ lowest_near (length v.now) (entry_of v.now) r x }
{
    let from = first_within(r, x);
    let to = last_within(v.len(), r, x);
    amount::lowest_from(v, from, to)
}

// The lowest-numbered point with v's lowest entry.
fn first_lowest(v: &[i64]) -> usize
    requires { 0 < length v.now }
    ensures { result ≡ first_lowest (entry_of v.now) 0 (length v.now - 1) }
{
    let mut first = 0;
    for y in 1..v.len() {
        if v[y] < v[first] {
            first = y;
        }
    }
    first
}

// The lowest-numbered point within reach r of x with v's lowest entry there.
#[tactic(auto, using(crate::proofs::Part::first_within, crate::proofs::Part::within_on))]
pub fn chosen_near(v: &[i64], r: usize, x: usize) -> usize
    requires { x < length v.now }
    ensures { result ≡ chosen_near (length v.now) (entry_of v.now) r x }
{
    first_within(r, x) + first_lowest(within(v, r, x))
}

// Slides v over the row: each entry grows by v's lowest entry within reach r of its point.
pub fn slide(row: &mut [i64], v: &[i64], r: usize)
    requires { (length row.old ≡ length v.now) × SlideFits row.old v.now r }
    ensures { row.new ≡ slid row.old v.now r }
{
    for (x, sum) in row.iter_mut().enumerate() {
        *sum = amount::plus(*sum, lowest_near(v, r, x));
    }
}
