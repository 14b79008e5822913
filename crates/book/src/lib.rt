// Whether a book is sound: records of 32 bytes, classes, then instruments, then positions. What a sound book is read by.
#![tactic(auto)]

ghost use Rattle.std.specs.Prelude.{◌≡◌, ◌%◌, ◌<◌, Ok, length};
ghost use Rattle.paper.specs.Records.{class_at, class_of, instrument_of, position_of};
ghost use Rattle.paper.specs.Refusals.{verdict_of};

use crate::tests::Next;
use paper::{Class, Fault, Instrument, Position, Refusal, Shape};
use record::Record;

mod tests; // tests.rt: the questions that each record is asked, in the table's order

// A sound book: its bytes, and its shape.
#[derive(Clone, Copy)]
pub struct SoundBook<'a> {
    pub bytes: &'a [u8],
    pub shape: Shape,
    ghost sound: { verdict_of bytes.now ≡ Ok shape },
}

impl SoundBook<'_> {
    // Class number k.
    #[tactic(auto, using(crate::proofs::Sound::records_within))]
    pub fn class(&self, k: usize) -> Class
        requires { k < self.now.shape.classes }
        ensures { result ≡ class_of self.now.bytes.now k }
    {
        let record = Record {
            book: self.bytes,
            number: k,
        };
        record.class()
    }

    // Instrument number i: these stand after the classes.
    #[tactic(auto, using(crate::proofs::Sound::records_within))]
    pub fn instrument(&self, i: usize) -> Instrument
        requires { i < self.now.shape.instruments }
        ensures { result ≡ instrument_of self.now.bytes.now self.now.shape i }
    {
        let record = Record {
            book: self.bytes,
            number: self.shape.classes + i,
        };
        record.instrument()
    }

    // Position number k: these stand last.
    #[tactic(auto, using(crate::proofs::Sound::records_within))]
    pub fn position(&self, k: usize) -> Position
        requires { k < self.now.shape.positions }
        ensures { result ≡ position_of self.now.bytes.now self.now.shape k }
    {
        let record = Record {
            book: self.bytes,
            number: self.shape.classes + self.shape.instruments + k,
        };
        record.position()
    }
}

// Every class is held to the points of class 0; a book without records has none.
fn first_points(book: &[u8]) -> usize
    requires { length book.now % 32 ≡ 0 }
    ensures { result ≡ (class_at book.now 0).points }
{
    if book.is_empty() {
        return 0;
    }
    let first = Record { book, number: 0 };
    first.class().points as usize
}

// The verdict on a book: sound, with its shape, or the first fault and its place.
pub fn scan(book: &[u8]) -> Result<Shape, Refusal>
    ensures { result ≡ verdict_of book.now }
{
    let n = book.len() / 32;
    if book.len() % 32 != 0 {
        return Err(Refusal {
            fault: Fault::Length,
            place: n,
        });
    }
    let mut before = Shape {
        classes: 0,
        instruments: 0,
        positions: 0,
        points: first_points(book),
    };
    for r in 0..n {
        let next = Next {
            this: Record { book, number: r },
            before,
        };
        if let Err(fault) = next.finding() {
            return Err(Refusal { fault, place: r });
        }
        before = next.counted();
    }
    Ok(before)
}
