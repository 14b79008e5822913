// A short text, put together from its end: at the right end of its bytes.
#![tactic(auto)]

ghost use Rattle.std.specs.Prelude.{◌≡◌, List, [], ◌∷◌, ◌++◌, ℕ, ◌+◌, ◌<◌, ◌≤◌, length};
ghost use Rattle.paper.specs.Listing.{digit as digit_of, decimal};
ghost use Rattle.text.specs.Text.{room};

use std::marker::Model;

const ROOM: usize = 96;

// Contracts see a text as the list of the bytes from `from` on. Memory is fixed here: nothing of this project takes any from a heap.
#[derive(Drop)]
pub struct Text {
    bytes: [u8; ROOM],
    from: usize,
}

impl Model for Text {
    ghost use Rattle.std.specs.Prelude.{List, ℕ, ◌≤◌, drop};
    ghost use Rattle.text.specs.Text.{room};

    ghost Value = { List ℕ };

    ghost view = { λ t. drop t.from t.bytes };

    ghost invariant = { λ t. t.from ≤ room };
}

impl Text {
    pub fn empty() -> Text
        ensures { result ≡ [] }
    {
        Text {
            bytes: [0; ROOM],
            from: ROOM,
        }
    }

    // The text with one byte more in front.
    pub fn with_byte(mut self, b: u8) -> Text
        requires { length self < room }
        ensures { result ≡ b ∷ self }
    {
        self.from -= 1;
        self.bytes[self.from] = b;
        self
    }

    // The text with these bytes in front.
    pub fn with_bytes(mut self, s: &[u8]) -> Text
        requires { length s.now + length self ≤ room }
        ensures { result ≡ s.now ++ self }
    {
        let end = self.from;
        let from = end - s.len();
        self.bytes[from..end].copy_from_slice(s);
        self.from = from;
        self
    }

    // The text with a number in decimal in front, its last digit first.
    #[tactic(auto, using(crate::proofs::Decimal::decimal_rules))]
    pub fn with_decimal(self, n: u64) -> Text
        requires { 21 + length self ≤ room }
        ensures { result ≡ decimal n ++ self }
    {
        let mut text = self;
        let mut left = n;
        // it divides down and counts no index
        while 10 <= left {
            text = text.with_byte(digit(left));
            left /= 10;
        }
        text.with_byte(digit(left))
    }

    // The bytes of the text.
    pub fn as_bytes(&self) -> &[u8]
        ensures { result.now ≡ self.now }
    {
        &self.bytes[self.from..]
    }
}

// The digit that a number ends in.
pub fn digit(n: u64) -> u8
    ensures { result ≡ digit_of n }
{
    b'0' + (n % 10) as u8
}
