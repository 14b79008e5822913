// The vocabulary of the desk: the types that every crate passes by value. specs/ says what they mean.
#![tactic(auto)]

ghost use Rattle.std.specs.Prelude.{◌≡◌, Some, ℤ, pos, ◌+ℤ◌};
ghost use Rattle.std.specs.Int.{w64};
ghost use Rattle.std.proofs.Common.{SFits};
ghost use Rattle.paper.specs.Records.{rank, above, bought, traded_today};
ghost use Rattle.paper.specs.Refusals.{product_of};
ghost use Rattle.paper.specs.Answers.{code_of, answer_code, answer_place, answer_totals, no_totals, add_mark, add_naked, add_cross};

// What an instrument is, by its product's number.
#[derive(Clone, Copy, Debug, PartialEq, Eq)]
pub enum Product {
    Fra,
    Future,
    Bond,
}

// The table of the numbers, which stands once: a number that is of no product is out of its range.
impl TryFrom<u8> for Product {
    type Error = Fault;

    ghost try_from_gives = { λ number r. r ≡ product_of number };

    fn try_from(number: u8) -> Result<Product, Fault> {
        match number {
            1 => Ok(Product::Fra),
            2 => Ok(Product::Future),
            3 => Ok(Product::Bond),
            _ => Err(Fault::Range),
        }
    }
}

// What a root's record has in the place of its parent.
const ROOT: u16 = 65_535;

// A class record's fields.
#[derive(Clone, Copy)]
pub struct Class {
    pub parent: u16,
    pub points: u16,
    pub share: u16,
}

impl Class {
    // The number of the class above, where there is one: a root gives the highest number.
    pub fn above(self) -> Option<u16>
        ensures { result ≡ above self }
    {
        match self.parent {
            ROOT => None,
            parent => Some(parent),
        }
    }
}

// An instrument record's fields. Yields, prices, Par and Adj are signed from the reader on. The product is the byte that stands in the
// book, of a damaged one too: `Record::instrument` promises it as it is.
#[derive(Clone, Copy)]
pub struct Instrument {
    pub product: u8,
    pub class: u16,
    pub days: u16,
    pub today: i64,
    pub before: i64,
    pub par: i64,
    pub adj: i64,
}

// A position record's fields. Side and traded are the bytes that stand in the book, of a damaged one too, as `Record::position` promises.
#[derive(Clone, Copy)]
pub struct Position {
    pub side: u8,
    pub instrument: u16,
    pub quantity: u32,
    pub price: i64,
    pub traded: u8,
}

impl Position {
    // Else it was sold.
    pub fn bought(self) -> bool
        ensures { result ≡ bought self }
    {
        self.side == 1
    }

    // Else it was carried over.
    pub fn traded_today(self) -> bool
        ensures { result ≡ traded_today self }
    {
        self.traded == 1
    }
}

// What the positions hold of one instrument: bought less sold, and bought and sold together.
#[derive(Clone, Copy)]
pub struct Holding {
    pub net: i64,
    pub gross: i64,
}

// How many records of each kind a book has, and the points of its classes.
#[derive(Clone, Copy)]
pub struct Shape {
    pub classes: usize,
    pub instruments: usize,
    pub positions: usize,
    pub points: usize,
}

// What a record is, by its letter, in the order of the book, where it has that rank.
#[derive(Clone, Copy, Debug, PartialEq, Eq, PartialOrd, Ord)]
pub enum Kind {
    Class = 1,
    Instrument = 2,
    Position = 3,
}

impl Kind {
    pub fn rank(self) -> u8
        ensures { result ≡ rank (Some self) }
    {
        self as u8
    }
}

// The rows of the refusal table, by their numbers there.
#[derive(Clone, Copy, Debug, PartialEq, Eq)]
pub enum Fault {
    Length = 1,
    Letter = 2,
    Order = 3,
    Limit = 4,
    Reserved = 5,
    Reference = 6,
    Range = 7,
    Points = 8,
    Rows = 9,
    Choice = 10,
}

impl Fault {
    // The table's number for it.
    pub fn code(self) -> u64
        ensures { result ≡ code_of self }
    {
        self as u64
    }
}

// Why a book is refused: the first fault, and its place.
#[derive(Clone, Copy, Debug, PartialEq, Eq)]
pub struct Refusal {
    pub fault: Fault,
    pub place: usize,
}

// The numbers of a run's answer, as C is handed them.
pub trait Numbers {
    fn code(self) -> u64;

    fn place(self) -> usize;

    fn totals(self) -> Totals;
}

impl Numbers for Result<Totals, Refusal> {
    fn code(self) -> u64
        ensures { result ≡ answer_code self }
    {
        match self {
            Ok(_) => 0,
            Err(refusal) => refusal.fault.code(),
        }
    }

    fn place(self) -> usize
        ensures { result ≡ answer_place self }
    {
        match self {
            Ok(_) => 0,
            Err(refusal) => refusal.place,
        }
    }

    // Zero totals where refused.
    fn totals(self) -> Totals
        ensures { result ≡ answer_totals self }
    {
        match self {
            Ok(totals) => totals,
            Err(_) => Totals::none(),
        }
    }
}

// The running totals, in whole øre: each method takes them by value and hands them back with one amount more, in a field of its own,
// which no parameter can name.
#[derive(Clone, Copy, Default)]
pub struct Totals {
    pub mark: i64,
    pub naked: i64,
    pub cross: i64,
}

impl Totals {
    pub fn none() -> Totals
        ensures { result ≡ no_totals }
    {
        Totals::default()
    }

    pub fn with_mark(self, amount: i64) -> Totals
        requires { SFits w64 (self.mark +ℤ amount) }
        ensures { result ≡ add_mark self amount }
    {
        Totals {
            mark: self.mark + amount,
            ..self
        }
    }

    pub fn with_naked(self, amount: i64) -> Totals
        requires { SFits w64 (self.naked +ℤ amount) }
        ensures { result ≡ add_naked self amount }
    {
        Totals {
            naked: self.naked + amount,
            ..self
        }
    }

    pub fn with_cross(self, amount: i64) -> Totals
        requires { SFits w64 (self.cross +ℤ amount) }
        ensures { result ≡ add_cross self amount }
    {
        Totals {
            cross: self.cross + amount,
            ..self
        }
    }
}
