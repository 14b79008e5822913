// Rows in the caller's buffer, which is one for all of them, as `desk_run` is lent it: each is lent on as a part that starts inside it. Points and k are not a struct: it would hold no
// fact, since whether the row lies within is of the buffer too.
ghost use Rattle.std.specs.Prelude.{◌≡◌, ◌-◌, ◌<◌, ◌≤◌, pos, length};
ghost use Rattle.paper.specs.Sums.{listed, lowest};
ghost use Rattle.paper.specs.Windows.{chosen_near};
ghost use Rattle.window.specs.Slides.{entry_of};
ghost use Rattle.tree.specs.Buffers.{rows_in, RowWithin, with_row, slid_over, EachFits};

// Row k at zero: a class without children has no other.
pub fn clear_row(rows: &mut [i64], points: usize, k: usize)
    requires { RowWithin points rows.old k }
    ensures { rows.new ≡ with_row points rows.old k (λ x. pos 0) }
{
    rows[k * points..k * points + points].fill(0);
}

// Slides v over row k.
pub fn slide_row(rows: &mut [i64], points: usize, k: usize, v: &[i64], r: usize)
    requires { RowWithin points rows.old k × (length v.now ≡ points) × EachFits points (slid_over points rows.old k (entry_of v.now) r) }
    ensures { rows.new ≡ with_row points rows.old k (slid_over points rows.old k (entry_of v.now) r) }
{
    window::slide(&mut rows[k * points..k * points + points], v, r);
}

// Slides row c over row k, by way of a copy: two parts of one buffer can't be lent at once.
pub fn add_row(rows: &mut [i64], points: usize, k: usize, c: usize, r: usize)
    requires { (points ≤ 201) × RowWithin points rows.old k × RowWithin points rows.old c × EachFits points (slid_over points rows.old k (rows_in points rows.old c) r) }
    ensures { rows.new ≡ with_row points rows.old k (slid_over points rows.old k (rows_in points rows.old c) r) }
{
    let mut work = [0i64; 201];
    work[..points].copy_from_slice(&rows[c * points..c * points + points]);
    slide_row(rows, points, k, &work[..points], r);
}

// Row k, to be read.
fn part(rows: &[i64], points: usize, k: usize) -> &[i64]
    requires { RowWithin points rows.now k }
    ensures { result.now ≡ listed points (rows_in points rows.now k) }
{
    &rows[k * points..k * points + points]
}

// The lowest entry of row k, of any rows.
pub fn lowest_in(rows: &[i64], points: usize, k: usize) -> i64
    requires { RowWithin points rows.now k × (0 < points) }
    ensures { result ≡ lowest (rows_in points rows.now k) 0 (points - 1) }
{
    amount::lowest(part(rows, points, k))
}

// The point chosen of row k within reach r of x.
pub fn chosen_in(rows: &[i64], points: usize, k: usize, r: usize, x: usize) -> u16
    requires { RowWithin points rows.now k × (points ≤ 201) × (x < points) }
    ensures { result ≡ chosen_near points (rows_in points rows.now k) r x }
{
    window::chosen_near(part(rows, points, k), r, x) as u16
}
