// An amount in whole øre as text, in kroner with two decimals, and back. No `Display`: the contract gives each byte.
#![tactic(auto)]

ghost use Rattle.std.specs.Prelude.{◌≡◌, [], ◌∷◌, ◌/◌};
ghost use Rattle.paper.specs.Listing.{digit as digit_of, kroner as kroner_of};
ghost use Rattle.kroner.specs.Reading.{further, number_from, size_of, read_of};

use text::Text;

// The size of the lowest i64.
const MOST: u64 = 1 << 63;

// The two decimals of a size, with the point before them.
fn decimals(size: u64) -> Text
    ensures { result ≡ 46 ∷ digit_of (size / 10) ∷ digit_of size ∷ [] }
{
    Text::empty().with_bytes(&[b'.', text::digit(size / 10), text::digit(size)])
}

// An amount as text: kroner with two decimals, and "-" before negatives only.
#[tactic(auto, using(crate::proofs::Signs::write_rules))]
pub fn write(z: i64) -> Text
    ensures { result ≡ kroner_of z }
{
    let size = z.unsigned_abs();
    let whole = decimals(size).with_decimal(size / 100);
    if z < 0 { whole.with_byte(b'-') } else { whole }
}

// The number n with one digit more, where c is one and an i64 can be so large in size.
fn with_digit(n: u64, c: u8) -> Option<u64>
    ensures { result ≡ further n c }
{
    if !c.is_ascii_digit() {
        return None;
    }
    let next = n.checked_mul(10)?.checked_add(u64::from(c - b'0'))?;
    if next <= MOST { Some(next) } else { None }
}

// The number that the digits write.
#[tactic(auto, using(crate::proofs::Readings::number_rules))]
fn number(digits: &[u8]) -> Option<u64>
    ensures { result ≡ number_from 0 digits.now }
{
    let mut n = 0;
    for c in digits {
        n = with_digit(n, *c)?;
    }
    Some(n)
}

// The size that a text without its sign writes: digits, a point and two digits.
#[tactic(auto, using(crate::proofs::Readings::size_rules))]
fn size(text: &[u8]) -> Option<u64>
    ensures { result ≡ size_of text.now }
{
    let [_, .., b'.', tens, ones] = text else {
        return None;
    };
    let whole = number(&text[..text.len() - 3])?;
    with_digit(with_digit(whole, *tens)?, *ones)
}

// The amount that a text writes: an optional "-", digits, a point and two digits.
#[tactic(auto, using(crate::proofs::Readings::read_rules))]
pub fn read(text: &[u8]) -> Option<i64>
    ensures { result ≡ read_of text.now }
{
    match text {
        [b'-', unsigned @ ..] => 0i64.checked_sub_unsigned(size(unsigned)?),
        _ => 0i64.checked_add_unsigned(size(text)?),
    }
}
