// The questions that each record is asked, in the order of the refusal table: whether the code is given, or which is found.
ghost use Rattle.std.specs.Prelude.{◌≡◌, false, cond, Ok, Err, ◌+◌, ◌^◌, ◌<◌, ◌≤◌, drop};
ghost use Rattle.paper.specs.declared.Fault.TheVariants.{Range};
ghost use Rattle.paper.specs.Records.{rank, shape_of};
ghost use Rattle.paper.specs.Refusals.{kind_before, letter_fault, order_fault, limit_fault, reserved_fault, reference_fault, range_fault, points_fault, tests, first_given};

use paper::{Fault, Kind, Shape};
use record::Record;

const MOST_CLASSES: usize = 24;

const MOST_INSTRUMENTS: usize = 64;

const MOST_POSITIONS: usize = 256;

// The record that is read, and the shape of those before it.
#[derive(Clone, Copy)]
pub struct Next<'a> {
    pub this: Record<'a>,
    pub before: Shape,
    ghost earlier: { before.classes + before.instruments ≤ this.number },
}

impl Next<'_> {
    // Before the first record stands none.
    fn kind_before(&self) -> Option<Kind>
        ensures { rank result ≡ kind_before self.now.this.book.now self.now.this.number }
    {
        if self.this.number == 0 {
            return None;
        }
        let before = Record {
            book: self.this.book,
            number: self.this.number - 1,
        };
        before.kind()
    }

    fn letter_fault(&self) -> bool
        ensures { result ≡ letter_fault self.now.this.book.now self.now.this.number }
    {
        self.this.kind().is_none()
    }

    fn order_fault(&self) -> bool
        ensures { result ≡ order_fault self.now.this.book.now self.now.this.number }
    {
        self.this.kind() < self.kind_before()
    }

    fn limit_fault(&self) -> bool
        ensures { result ≡ limit_fault self.now.this.book.now self.now.this.number self.now.before }
    {
        match self.this.kind() {
            Some(Kind::Class) => MOST_CLASSES <= self.before.classes,
            Some(Kind::Instrument) => MOST_INSTRUMENTS <= self.before.instruments,
            Some(Kind::Position) => MOST_POSITIONS <= self.before.positions,
            None => false,
        }
    }

    fn reserved_fault(&self) -> bool
        ensures { result ≡ reserved_fault self.now.this.book.now self.now.this.number }
    {
        !self.this.reserved_zero()
    }

    #[tactic(auto, unfolding(paper::specs::Refusals::reference_fault))]
    fn reference_fault(&self) -> bool
        ensures { result ≡ reference_fault self.now.this.book.now self.now.this.number self.now.before }
    {
        match self.this.kind() {
            Some(Kind::Class) => match self.this.class().above() {
                Some(parent) => !((parent as usize) < self.before.classes),
                None => false,
            },
            Some(Kind::Instrument) => {
                !((self.this.instrument().class as usize) < self.before.classes)
            }
            Some(Kind::Position) => {
                !((self.this.position().instrument as usize) < self.before.instruments)
            }
            None => false,
        }
    }

    // A position's price has the range of the product of the instrument named, so that must stand before it.
    #[tactic(auto, unfolding(paper::specs::Refusals::range_fault))]
    fn range_finding(&self) -> Result<(), Fault>
        requires { reference_fault self.now.this.book.now self.now.this.number self.now.before ≡ false }
        ensures { result ≡ cond (range_fault self.now.this.book.now self.now.this.number self.now.before) (Err Range) (Ok tt) }
    {
        match self.this.kind() {
            Some(Kind::Class) => ranges::class_finding(self.this.class()),
            Some(Kind::Instrument) => ranges::instrument_finding(self.this.instrument()),
            Some(Kind::Position) => {
                let position = self.this.position();
                let named = Record {
                    book: self.this.book,
                    number: self.before.classes + (position.instrument as usize),
                };
                ranges::position_finding(position, named.instrument().product)
            }
            None => Ok(()),
        }
    }

    #[tactic(auto, unfolding(paper::specs::Refusals::points_fault))]
    fn points_fault(&self) -> bool
        ensures { result ≡ points_fault self.now.this.book.now self.now.this.number self.now.before }
    {
        match self.this.kind() {
            Some(Kind::Class) => (self.this.class().points as usize) != self.before.points,
            _ => false,
        }
    }

    // The first fault of the fields: codes 6 to 8, of which the ranges' own decision gives its code.
    #[tactic(auto, unfolding(paper::specs::Refusals::tests, paper::specs::Refusals::first_given))]
    fn fields_finding(&self) -> Result<(), Fault>
        ensures { result ≡ first_given (drop 4 (tests self.now.this.book.now self.now.this.number self.now.before)) }
    {
        if self.reference_fault() {
            return Err(Fault::Reference);
        }
        self.range_finding()?;
        if self.points_fault() {
            return Err(Fault::Points);
        }
        Ok(())
    }

    // The first fault of the record.
    #[tactic(auto, unfolding(paper::specs::Refusals::tests, paper::specs::Refusals::first_given))]
    pub fn finding(&self) -> Result<(), Fault>
        ensures { result ≡ first_given (tests self.now.this.book.now self.now.this.number self.now.before) }
    {
        if self.letter_fault() {
            return Err(Fault::Letter);
        }
        if self.order_fault() {
            return Err(Fault::Order);
        }
        if self.limit_fault() {
            return Err(Fault::Limit);
        }
        if self.reserved_fault() {
            return Err(Fault::Reserved);
        }
        self.fields_finding()
    }

    // The records before, and this one with them.
    pub fn counted(&self) -> Shape
        requires before { self.now.before ≡ shape_of self.now.this.book.now self.now.this.number }
        requires few { self.now.this.number < 2 ^ 63 }
        ensures { result ≡ shape_of self.now.this.book.now (self.now.this.number + 1) }
    {
        let mut next = self.before;
        match self.this.kind() {
            Some(Kind::Class) => next.classes += 1,
            Some(Kind::Instrument) => next.instruments += 1,
            Some(Kind::Position) => next.positions += 1,
            None => {}
        }
        next
    }
}
