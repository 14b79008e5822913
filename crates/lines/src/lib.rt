// The lines of a listing: a tag of at most eight bytes, and its fields.
#![tactic(auto, unfolding(paper::specs::Listing::fields))]

ghost use Rattle.std.specs.Prelude.{◌≡◌, [], ◌∷◌, ◌++◌, ◌+◌, ◌<◌, ◌≤◌, length};
ghost use Rattle.text.specs.Text.{room};
ghost use Rattle.paper.specs.Listing.{decimal, kroner as kroner_of, fields as fields_of, line};
ghost use Rattle.lines.specs.Remarks.{remark as remark_of};

use text::Text;

// The end of a line.
fn newline() -> Text
    ensures { result ≡ 10 ∷ [] }
{
    Text::empty().with_byte(b'\n')
}

// A number by itself.
#[tactic(auto, using(std::proofs::lemmas::Grind::common_steps, crate::proofs::Fields::number_short))]
fn number(n: u64) -> Text
    ensures written { result ≡ decimal n }
    ensures short { length result ≤ 20 }
{
    Text::empty().with_decimal(n)
}

// An amount by itself.
#[tactic(auto, using(kroner::proofs::Signs::kroner_short))]
fn amount(z: i64) -> Text
    ensures written { result ≡ kroner_of z }
    ensures short { length result ≤ 21 }
{
    kroner::write(z)
}

// The fields of a line, each with the space before it, and its end.
#[tactic(auto, using(std::proofs::lemmas::Grind::common_steps, crate::proofs::Fields::fields_rules))]
fn joined(fields: &[Text]) -> Text
    requires { length (fields_of fields.now) ≤ room }
    ensures { result ≡ fields_of fields.now }
{
    match fields {
        [] => newline(),
        [first, rest @ ..] => joined(rest).with_bytes(first.as_bytes()).with_byte(b' '),
    }
}

// A total's line: the tag and the amount. Here and below the tag is of any bytes, so a type of tags would be narrower.
pub fn total(tag: &[u8], z: i64) -> Text
    requires { length tag.now ≤ 8 }
    ensures { result ≡ line tag.now (kroner_of z ∷ []) }
{
    joined(&[amount(z)]).with_bytes(tag)
}

// A line of two numbers: a class with its point, a refusal with its place.
pub fn numbers(tag: &[u8], first: u64, last: u64) -> Text
    requires { length tag.now ≤ 8 }
    ensures { result ≡ line tag.now (decimal first ∷ decimal last ∷ []) }
{
    joined(&[number(first), number(last)]).with_bytes(tag)
}

// An instrument's line: its number, point and amount there.
pub fn item(tag: &[u8], i: u64, point: u64, z: i64) -> Text
    requires { length tag.now ≤ 8 }
    ensures { result ≡ line tag.now (decimal i ∷ decimal point ∷ kroner_of z ∷ []) }
{
    joined(&[number(i), number(point), amount(z)]).with_bytes(tag)
}

// A remark in words with a number in it: what stands before the number, what after it, and what is said.
#[tactic(auto, using(std::proofs::lemmas::Grind::common_steps, crate::proofs::Fields::number_short))]
pub fn remark(front: &[u8], n: u64, middle: &[u8], meaning: &[u8]) -> Text
    requires { length front.now + length middle.now + length meaning.now ≤ 70 }
    ensures { result ≡ remark_of front.now n middle.now meaning.now }
{
    let said = newline().with_bytes(meaning).with_bytes(middle);
    said.with_decimal(n).with_bytes(front)
}
