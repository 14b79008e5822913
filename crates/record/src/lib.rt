// One record of a book: its kind, the fields that the kind names, and the bytes that it does not.
#![tactic(auto)]

ghost use Rattle.std.specs.Prelude.{◌≡◌, ◌+◌, ◌*◌, ◌≤◌, ◌==◌, length};
ghost use Rattle.std.specs.List.{list_all};
ghost use Rattle.paper.specs.Records.{rank, kind_of, kind_at, class_at, instrument_at, position_at};
ghost use Rattle.paper.specs.Refusals.{zeros as zeros_of, reserved_zero};

use crate::bytes::{byte, le16, le32, signed};
use paper::{Class, Instrument, Kind, Position};

mod bytes; // bytes.rt: little-endian numbers at a byte of a record

// A record by its number, which lies within the book. Not 32 bytes of their own: the definitions speak of record r of a book.
#[derive(Clone, Copy)]
pub struct Record<'a> {
    pub book: &'a [u8],
    pub number: usize,
    ghost within: { 32 * number + 32 ≤ length book.now },
}

// A record's letter says its kind.
#[tactic(auto, unfolding(paper::specs::Records::kind_of))]
fn kind_named(letter: u8) -> Option<Kind>
    ensures { rank result ≡ kind_of letter }
{
    match letter {
        b'C' => Some(Kind::Class),
        b'I' => Some(Kind::Instrument),
        b'P' => Some(Kind::Position),
        _ => None,
    }
}

fn all_zero(bytes: &[u8]) -> bool
    ensures { result ≡ list_all (λ b. b == 0) bytes.now }
{
    bytes.iter().all(|b| *b == 0)
}

impl Record<'_> {
    pub fn kind(&self) -> Option<Kind>
        ensures { rank result ≡ kind_at self.now.book.now self.now.number }
    {
        kind_named(byte(self.book, self.number, 0))
    }

    // Whether the n bytes from o on are zero.
    fn zeros(&self, o: usize, n: usize) -> bool
        requires { o + n ≤ 32 }
        ensures { result ≡ zeros_of self.now.book.now self.now.number o n }
    {
        let from = 32 * self.number + o;
        all_zero(&self.book[from..from + n])
    }

    // The bytes that a record's kind does not name are reserved.
    #[tactic(auto, unfolding(paper::specs::Refusals::reserved_zero))]
    pub fn reserved_zero(&self) -> bool
        ensures { result ≡ reserved_zero self.now.book.now self.now.number }
    {
        match self.kind() {
            Some(Kind::Class) => self.zeros(1, 1) & self.zeros(8, 24),
            Some(Kind::Instrument) => self.zeros(6, 2) & self.zeros(24, 8),
            Some(Kind::Position) => self.zeros(13, 19),
            None => true,
        }
    }

    #[tactic(auto, unfolding(paper::specs::Records::class_at))]
    pub fn class(&self) -> Class
        ensures { result ≡ class_at self.now.book.now self.now.number }
    {
        Class {
            parent: le16(self.book, self.number, 2),
            points: le16(self.book, self.number, 4),
            share: le16(self.book, self.number, 6),
        }
    }

    #[tactic(auto, unfolding(paper::specs::Records::instrument_at))]
    pub fn instrument(&self) -> Instrument
        ensures { result ≡ instrument_at self.now.book.now self.now.number }
    {
        Instrument {
            product: byte(self.book, self.number, 1),
            class: le16(self.book, self.number, 2),
            days: le16(self.book, self.number, 4),
            today: signed(self.book, self.number, 8),
            before: signed(self.book, self.number, 12),
            par: signed(self.book, self.number, 16),
            adj: signed(self.book, self.number, 20),
        }
    }

    #[tactic(auto, unfolding(paper::specs::Records::position_at))]
    pub fn position(&self) -> Position
        ensures { result ≡ position_at self.now.book.now self.now.number }
    {
        Position {
            side: byte(self.book, self.number, 1),
            instrument: le16(self.book, self.number, 2),
            quantity: le32(self.book, self.number, 4),
            price: signed(self.book, self.number, 8),
            traded: byte(self.book, self.number, 12),
        }
    }
}
