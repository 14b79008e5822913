// One instrument: the amount of what is held of it at a point, its vector, its naked margin and its mark-to-market. Over
// a sound book: what is held of an instrument, its mark-to-market amount, and the totals of marks and naked margins.
#![tactic(auto)]

ghost use Rattle.std.specs.Prelude.{◌≡◌, true, cond, ◌++◌, ◌-◌, ◌<◌, ◌≤◌, eqb, pos, nat_abs, neg_ℤ, ◌*ℤ◌, length, drop};
ghost use Rattle.paper.specs.Sums.{listed};
ghost use Rattle.paper.specs.Records.{instrument_of, position_of};
ghost use Rattle.paper.specs.Refusals.{instrument_fits, position_fits};
ghost use Rattle.paper.specs.Products.{held_of, shift as shift_of, rising, falling, fra as fra_of, future as future_of, bond as bond_of, amount_at, naked_of, naked_total, move, mark_one, mark_of, mark_total, mark_of_item};
ghost use Rattle.paper.specs.Answers.{add_mark, add_naked};
ghost use Rattle.vector.specs.Holdings.{held_with};
ghost use Rattle.vector.specs.Parts.{terms_in, positions_in, one_at, mark_at, mark_for, naked_at};

use book::SoundBook;
use paper::{Holding, Instrument, Position, Product, Totals};
use rate::Rate;

// What a hundredth of a basis point is worth on a contract of product 2.
const HUNDREDTH_ORE: i64 = 25;

// Par and Adj of product 3 are in millionths.
const MILLION: u64 = 1_000_000;

// An instrument on the scale of its class, with what is held of it. Its point stays a number that is below `points`, and a position
// of a book one below its number of positions: a type for either would hold what it is a number of too, which is no plainer.
#[derive(Clone, Copy)]
pub struct Item {
    pub instrument: Instrument,
    pub points: usize,
    pub held: Holding,
    ghost fits: { instrument_fits instrument ≡ true },
    ghost least: { 3 ≤ points },
    ghost most: { points ≤ 201 },
    ghost few: { nat_abs held.net ≤ 256000000 },
}

impl Item {
    // Instrument i of a sound book.
    pub fn of(book: &SoundBook, i: usize) -> Self
        requires { i < book.now.shape.instruments }
        ensures instrument { result.instrument ≡ instrument_of book.now.bytes.now book.now.shape i }
        ensures points { result.points ≡ book.now.shape.points }
        ensures held { result.held ≡ held_of (positions_in book.now) i }
    {
        Self {
            instrument: book.instrument(i),
            points: book.shape.points,
            held: held(book, i),
        }
    }

    // s(i): Par for each half step that point i stands off the middle of the scale.
    fn shift(&self, i: usize) -> i64
        requires { i < self.now.points }
        ensures { result ≡ shift_of self.now.instrument (self.now.points - 1) i }
    {
        let off = amount::less((2 * i) as i64, (self.points - 1) as i64);
        amount::times(self.instrument.par, off)
    }

    // What a side gains as the scale goes up, or loses. Both sides lose the adjustment.
    fn tilt(&self, up: bool, i: usize) -> i64
        requires { i < self.now.points }
        ensures { result ≡ cond up (rising self.now.instrument (self.now.points - 1) i) (falling self.now.instrument (self.now.points - 1) i) }
    {
        let gain = self.shift(i);
        let adjustment = amount::times(self.instrument.adj, (self.points - 1) as i64);
        if up {
            amount::less(gain, adjustment)
        } else {
            amount::less(amount::less(0, gain), adjustment)
        }
    }

    // One contract of product 1 at point i. The days come before the one rounding, which is to whole øre.
    fn fra(&self, buys: bool, i: usize) -> i64
        requires { i < self.now.points }
        ensures { result ≡ fra_of self.now.instrument (self.now.points - 1) buys i }
    {
        let rate = Rate {
            units: self.tilt(buys, i),
        };
        rate.ore(self.instrument.days, (self.points - 1) as u64)
    }

    // One contract of product 2: bought loses as the yield rises. The rounding is to hundredths of a basis point, not to øre.
    fn future(&self, buys: bool, i: usize) -> i64
        requires { i < self.now.points }
        ensures { result ≡ future_of self.now.instrument (self.now.points - 1) buys i }
    {
        let rate = Rate {
            units: self.tilt(!buys, i),
        };
        amount::times(rate.hundredths((self.points - 1) as u64), HUNDREDTH_ORE)
    }

    // One contract of product 3, whose scale goes up with the price.
    fn bond(&self, buys: bool, i: usize) -> i64
        requires { i < self.now.points }
        ensures { result ≡ bond_of self.now.instrument (self.now.points - 1) buys i }
    {
        let numerator = amount::times(self.instrument.today, self.tilt(buys, i));
        amount::nearest(numerator, MILLION * (self.points - 1) as u64)
    }

    // One contract at point i, by its product. `one_at` has a last case, of 0, for a number that is none, and so has this.
    fn one(&self, buys: bool, i: usize) -> i64
        requires { i < self.now.points }
        ensures { result ≡ one_at self.now.instrument (self.now.points - 1) buys i }
    {
        match Product::try_from(self.instrument.product) {
            Ok(Product::Fra) => self.fra(buys, i),
            Ok(Product::Future) => self.future(buys, i),
            Ok(Product::Bond) => self.bond(buys, i),
            Err(_) => 0,
        }
    }

    // The amount of what is held, at point i: that of one contract, as often as it is held net.
    pub fn amount_at(&self, i: usize) -> i64
        requires { i < self.now.points }
        ensures { result ≡ amount_at self.now.instrument self.now.points self.now.held i }
    {
        let net = self.held.net;
        let buys = 0 <= net;
        for_net(self.one(buys, i), net)
    }

    // The vector: the amount at each point, in the first entries of the working array, which is lent: its length is the book's, and memory
    // is fixed here.
    pub fn fill(&self, work: &mut [i64])
        requires { self.now.points ≤ length work.old }
        ensures { work.new ≡ listed self.now.points (amount_at self.now.instrument self.now.points self.now.held) ++ drop self.now.points work.old }
    {
        // a value of its own: what is written can't be a part of it, and so it isn't read again at each point
        let item = *self;
        for i in 0..item.points {
            work[i] = item.amount_at(i);
        }
    }

    // The naked margin: the lowest amount of the vector.
    pub fn naked(&self) -> i64
        ensures { result ≡ naked_of self.now.instrument self.now.points self.now.held }
    {
        let mut work = [0i64; 201];
        self.fill(&mut work);
        amount::lowest(&work[..self.points])
    }
}

// Nothing for a net of zero.
fn for_net(one: i64, net: i64) -> i64
    requires { (nat_abs one ≤ 200000000) × (nat_abs net ≤ 256000000) }
    ensures { result ≡ one *ℤ pos (nat_abs net) }
{
    amount::times(one, amount::size(net) as i64)
}

// What a bought contract gains a sold one loses.
fn turned(gains: bool, z: i64) -> i64
    requires { nat_abs z ≤ 4000000000000000000 }
    ensures { result ≡ cond gains z (neg_ℤ z) }
{
    if gains { z } else { amount::less(0, z) }
}

// A position with the instrument that it names.
#[derive(Clone, Copy)]
pub struct Trade {
    pub instrument: Instrument,
    pub position: Position,
    ghost fits: { instrument_fits instrument ≡ true },
    ghost good: { position_fits position instrument.product ≡ true },
}

impl Trade {
    // Position k of a sound book.
    pub fn of(book: &SoundBook, k: usize) -> Self
        requires { k < book.now.shape.positions }
        ensures instrument { result.instrument ≡ instrument_of book.now.bytes.now book.now.shape (position_of book.now.bytes.now book.now.shape k).instrument }
        ensures position { result.position ≡ position_of book.now.bytes.now book.now.shape k }
    {
        let position = book.position(k);
        Self {
            instrument: book.instrument(position.instrument as usize),
            position,
        }
    }

    // How far the fixing moved: from the contracted price if traded today, else from the fixing before.
    #[tactic(auto, using(crate::proofs::Bounds::since_trade, crate::proofs::Bounds::since_fixing))]
    fn moved(&self) -> i64
        ensures { result ≡ move self.now.instrument self.now.position }
    {
        if self.position.traded_today() {
            amount::less(self.instrument.today, self.position.price)
        } else {
            amount::less(self.instrument.today, self.instrument.before)
        }
    }

    // What a move is worth on one bought contract. The last case is `mark_one`'s.
    fn mark_of_one(&self, d: i64) -> i64
        requires { nat_abs d ≤ 200000000 }
        ensures { result ≡ mark_one self.now.instrument d }
    {
        match Product::try_from(self.instrument.product) {
            Ok(Product::Fra) => Rate { units: d }.ore(self.instrument.days, 1),
            Ok(Product::Future) => amount::nearest(d, 4),
            Ok(Product::Bond) => d,
            Err(_) => 0,
        }
    }

    // The mark-to-market of the position.
    pub fn mark(&self) -> i64
        ensures { result ≡ mark_of self.now.instrument self.now.position }
    {
        let one = self.mark_of_one(self.moved());
        amount::times(
            turned(self.position.bought(), one),
            self.position.quantity as i64,
        )
    }
}

// What is held after one more position of the instrument.
pub fn hold(held: Holding, p: Position) -> Holding
    requires { (nat_abs held.net ≤ 4000000000000000000) × (nat_abs held.gross ≤ 4000000000000000000) }
    ensures { result ≡ held_with held p }
{
    let quantity = p.quantity as i64;
    Holding {
        net: amount::plus(held.net, turned(p.bought(), quantity)),
        gross: amount::plus(held.gross, quantity),
    }
}

// A position of another instrument leaves what is held.
fn hold_of(held: Holding, p: Position, i: usize) -> Holding
    requires { (nat_abs held.net ≤ 4000000000000000000) × (nat_abs held.gross ≤ 4000000000000000000) }
    ensures { result ≡ cond (eqb p.instrument i) (held_with held p) held }
{
    if p.instrument as usize == i {
        hold(held, p)
    } else {
        held
    }
}

// What a sound book's positions hold of instrument i.
pub fn held(book: &SoundBook, i: usize) -> Holding
    ensures { result ≡ held_of (positions_in book.now) i }
{
    let mut held = Holding { net: 0, gross: 0 };
    for k in 0..book.shape.positions {
        held = hold_of(held, book.position(k), i);
    }
    held
}

// The mark-to-market of position k of a sound book.
fn mark_at(book: &SoundBook, k: usize) -> i64
    requires { k < book.now.shape.positions }
    ensures { result ≡ mark_at book.now.bytes.now book.now.shape k }
{
    Trade::of(book, k).mark()
}

// The totals with the mark-to-market of every position of a sound book.
pub fn marks(book: &SoundBook, t: Totals) -> Totals
    requires { nat_abs t.mark ≤ 4000000000000000000 }
    ensures { result ≡ add_mark t (mark_total (terms_in book.now) (positions_in book.now)) }
{
    let mut totals = t;
    for p in 0..book.shape.positions {
        totals = totals.with_mark(mark_at(book, p));
    }
    totals
}

// Position k's share of what instrument i is marked to market at: nothing where it names another.
fn mark_for(book: &SoundBook, i: usize, k: usize) -> i64
    requires { k < book.now.shape.positions }
    ensures { result ≡ mark_for book.now.bytes.now book.now.shape i k }
{
    let named = book.position(k).instrument as usize;
    if named == i { mark_at(book, k) } else { 0 }
}

// The mark-to-market of instrument i of a sound book: that of its own positions.
pub fn marked(book: &SoundBook, i: usize) -> i64
    ensures { result ≡ mark_of_item (terms_in book.now) (positions_in book.now) i }
{
    let mut total = 0;
    for k in 0..book.shape.positions {
        total = amount::plus(total, mark_for(book, i, k));
    }
    total
}

// The naked margin of instrument i of a sound book.
fn naked_at(book: &SoundBook, i: usize) -> i64
    requires { i < book.now.shape.instruments }
    ensures { result ≡ naked_at book.now.bytes.now book.now.shape i }
{
    Item::of(book, i).naked()
}

// The totals with the naked margin of every instrument of a sound book. A loop of its own: each total fits by a law of its own, which a
// loop over a closure would have to be handed.
pub fn nakeds(book: &SoundBook, t: Totals) -> Totals
    requires { nat_abs t.naked ≤ 4000000000000000000 }
    ensures { result ≡ add_naked t (naked_total (terms_in book.now) (positions_in book.now)) }
{
    let mut totals = t;
    for i in 0..book.shape.instruments {
        totals = totals.with_naked(naked_at(book, i));
    }
    totals
}
