// The ranges of the fields: what the fields of one record find. The product decides the ranges of an instrument and of a
// position.
#![tactic(auto)]

ghost use Rattle.std.specs.Prelude.{◌≡◌, cond, Ok, Err};
ghost use Rattle.paper.specs.declared.Fault.TheVariants.{Range};
ghost use Rattle.paper.specs.Refusals.{points_fit, carried_fits, class_fits, instrument_fits, position_fits};
ghost use Rattle.ranges.specs.Limits.{holds as holds_of, limits_of, instrument_holds, position_holds};

use paper::{Class, Fault, Instrument, Position, Product};

// A range: its lower end and its upper. The library's `RangeInclusive` is an iterator, and so no plain value that is copied.
#[derive(Clone, Copy)]
struct Span(i64, i64);

fn holds(s: Span, z: i64) -> bool
    ensures { result ≡ holds_of s z }
{
    (s.0 <= z) & (z <= s.1)
}

// The ranges that a product decides: of the days, the fixings and prices, Par and Adj.
#[derive(Clone, Copy)]
struct Limits {
    first: u16,
    last: u16,
    price: Span,
    par: Span,
    adj: Span,
}

impl Limits {
    // An FRA's fixings and prices are yields: the paper's limit is the full rate.
    fn of(product: Product) -> Limits
        ensures { result ≡ limits_of product }
    {
        match product {
            Product::Fra => Limits {
                first: 1,
                last: 366,
                price: Span(0, rate::Rate::FULL as i64),
                par: Span(0, 10_000_000),
                adj: Span(0, 1_000_000),
            },
            Product::Future => Limits {
                first: 0,
                last: 0,
                price: Span(0, 200_000_000),
                par: Span(0, 10_000_000),
                adj: Span(0, 1_000_000),
            },
            Product::Bond => Limits {
                first: 0,
                last: 0,
                price: Span(0, 200_000_000),
                par: Span(0, 500_000),
                adj: Span(0, 50_000),
            },
        }
    }
}

fn found(fits: bool, fault: Fault) -> Result<(), Fault>
    ensures { result ≡ cond fits (Ok tt) (Err fault) }
{
    if fits { Ok(()) } else { Err(fault) }
}

fn points_fit(points: u16) -> bool
    ensures { result ≡ points_fit points }
{
    (3 <= points) & (points <= 201) & (points % 2 == 1)
}

pub fn class_finding(c: Class) -> Result<(), Fault>
    ensures { result ≡ cond (class_fits c) (Ok tt) (Err Range) }
{
    found(points_fit(c.points) & (c.share <= 10_000), Fault::Range)
}

fn instrument_holds(i: Instrument, l: Limits) -> bool
    ensures { result ≡ instrument_holds i l }
{
    (l.first <= i.days)
        & (i.days <= l.last)
        & holds(l.price, i.today)
        & holds(l.price, i.before)
        & holds(l.par, i.par)
        & holds(l.adj, i.adj)
}

// A product that is none is out of its own range.
pub fn instrument_finding(i: Instrument) -> Result<(), Fault>
    ensures { result ≡ cond (instrument_fits i) (Ok tt) (Err Range) }
{
    let product = Product::try_from(i.product)?;
    found(instrument_holds(i, Limits::of(product)), Fault::Range)
}

// Zero is a price, but a carried position has no other.
fn carried_fits(p: Position) -> bool
    ensures { result ≡ carried_fits p }
{
    p.traded_today() | holds(Span(0, 0), p.price)
}

fn position_holds(p: Position, l: Limits) -> bool
    ensures { result ≡ position_holds p l }
{
    (1 <= p.side)
        & (p.side <= 2)
        & ((1 <= p.quantity) & (p.quantity <= 1_000_000))
        & holds(l.price, p.price)
        & (p.traded <= 1)
        & carried_fits(p)
}

// The product is the byte of the instrument named, as its record has it: of any byte there is an answer.
pub fn position_finding(p: Position, product: u8) -> Result<(), Fault>
    ensures { result ≡ cond (position_fits p product) (Ok tt) (Err Range) }
{
    let product = Product::try_from(product)?;
    found(position_holds(p, Limits::of(product)), Fault::Range)
}
