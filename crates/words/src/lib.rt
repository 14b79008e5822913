// A refusal in words: which record, of what kind, and what is wrong with it. A text, and no `Display`: the contract gives each byte, and
// of what `fmt` writes a contract can say nothing.
#![tactic(auto)]

ghost use Rattle.std.specs.Prelude.{◌≡◌, ◌≤◌, length, Some};
ghost use Rattle.paper.specs.Records.{rank};
ghost use Rattle.words.specs.Words.{bytes, kind_words as kind_words_of, record_line, book_line, refusal_line};

use paper::{Fault, Kind, Refusal};
use text::Text;

// What a record of a kind is called.
#[tactic(auto, unfolding(crate::specs::Words::bytes))]
fn called(kind: Kind) -> &'static [u8]
    ensures words { result.now ≡ bytes (kind_words_of (rank (Some kind))) }
    ensures short { length result.now ≤ 17 }
{
    match kind {
        Kind::Class => b", a class: ",
        Kind::Instrument => b", an instrument: ",
        Kind::Position => b", a position: ",
    }
}

// And one of none. In one match over both, what the inner pattern binds left goals that no answer closed.
#[tactic(auto, unfolding(crate::specs::Words::bytes))]
fn kind_words(kind: Option<Kind>) -> &'static [u8]
    ensures words { result.now ≡ bytes (kind_words_of (rank kind)) }
    ensures short { length result.now ≤ 17 }
{
    match kind {
        Some(kind) => called(kind),
        None => b", of no kind: ",
    }
}

// The line of a record, by its number and kind.
#[tactic(auto, unfolding(crate::specs::Words::bytes))]
fn of_record(place: usize, kind: Option<Kind>, meaning: &[u8]) -> Text
    requires { length meaning.now ≤ 44 }
    ensures { result ≡ record_line place (rank kind) meaning.now }
{
    lines::remark(b"record ", place as u64, kind_words(kind), meaning)
}

// The line of a book, by its whole records.
#[tactic(auto, unfolding(crate::specs::Words::bytes))]
fn of_book(place: usize, meaning: &[u8]) -> Text
    requires { length meaning.now ≤ 44 }
    ensures { result ≡ book_line place meaning.now }
{
    lines::remark(b"a book of ", place as u64, b" whole records: ", meaning)
}

// The kind of that rank; of any other number there is none.
fn ranked(kind: u8) -> Option<Kind>
    ensures { kind_words_of (rank result) ≡ kind_words_of kind }
{
    match kind {
        1 => Some(Kind::Class),
        2 => Some(Kind::Instrument),
        3 => Some(Kind::Position),
        _ => None,
    }
}

// The line of a refusal. The kind is the rank of the record's, and 0 or any other number where it has none: of each there is a line.
#[tactic(auto, unfolding(crate::specs::Words::bytes))]
pub fn refusal(refusal: Refusal, kind: u8) -> Text
    ensures { result ≡ refusal_line refusal.fault refusal.place kind }
{
    let place = refusal.place;
    let kind = ranked(kind);
    match refusal.fault {
        Fault::Length => of_book(place, b"the length is not a multiple of 32 bytes"),
        Fault::Letter => of_record(place, kind, b"its letter is not C, I or P"),
        Fault::Order => of_record(place, kind, b"it comes after a record of a later kind"),
        Fault::Limit => of_record(place, kind, b"one more than a book may have of its kind"),
        Fault::Reserved => of_record(place, kind, b"a reserved byte is not zero"),
        Fault::Reference => of_record(place, kind, b"what it names does not stand before it"),
        Fault::Range => of_record(place, kind, b"a field is out of its range"),
        Fault::Points => of_record(place, kind, b"its points differ from class 0's"),
        Fault::Rows => of_book(place, b"the rows buffer is too short"),
        Fault::Choice => of_book(place, b"the choice buffer is too short"),
    }
}
