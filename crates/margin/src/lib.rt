// The one call of the desk: a book and two buffers in, the answer and the figures out. Nothing is to be checked first.
#![tactic(auto)]

ghost use Rattle.std.specs.Prelude.{◌≡◌, cond, Ok, Err, ◌+◌, ◌*◌, ◌≤◌, length};
ghost use Rattle.paper.specs.Refusals.{verdict_on, with_room};
ghost use Rattle.paper.specs.Answers.{answer_code, answer_place, answer_totals};
ghost use Rattle.tree.specs.Buffers.{RoomForRows};
ghost use Rattle.margin.specs.Run.{Ran, Figured};
ghost use Rattle.margin.specs.Counted.{whole_kept, torn, CountedVerdict, CountedRan};
ghost use Rattle.margin.specs.Items.{item_for, item_of, item_mark_for, item_mark_of};

use book::SoundBook;
use paper::{Fault, Refusal, Shape, Totals};
use tree::HeldRows;
use vector::Item;

// The two tests of the buffers' lengths, in their order.
fn with_room(s: Shape, whole: usize, rows: usize, choice: usize) -> Result<Shape, Refusal>
    requires { (s.classes ≤ 24) × (s.instruments ≤ 64) × (s.points ≤ 65535) }
    ensures { result ≡ with_room (Ok s) whole rows choice }
{
    if rows < s.classes * s.points {
        return Err(Refusal {
            fault: Fault::Rows,
            place: whole,
        });
    }
    if choice < s.classes + s.instruments {
        return Err(Refusal {
            fault: Fault::Choice,
            place: whole,
        });
    }
    Ok(s)
}

// The verdict on a book and on the lengths of the two buffers lent.
fn admitted(book: &[u8], rows: usize, choice: usize) -> Result<Shape, Refusal>
    ensures { result ≡ verdict_on book.now rows choice }
{
    let shape = book::scan(book)?;
    with_room(shape, book.len() / 32, rows, choice)
}

// The figures of a sound book that has room: the totals by value through positions, instruments and roots, the rows, the choice. Both
// buffers are the caller's, each with its room, as in `tree`.
fn figures(book: &SoundBook, rows: &mut [i64], choice: &mut [u16]) -> Totals
    requires rows { RoomForRows book.now rows.old }
    requires choice { book.now.shape.classes + book.now.shape.instruments ≤ length choice.old }
    ensures { Figured book.now.bytes.now book.now.shape rows.old choice.old result rows.new choice.new }
{
    let marked = vector::marks(book, Totals::none());
    let bare = vector::nakeds(book, marked);
    tree::fill_rows(book, rows);
    let held = HeldRows {
        book: *book,
        cells: rows,
    };
    held.choose(choice);
    held.cross(bare)
}

// The run of a book.
pub fn run(book: &[u8], rows: &mut [i64], choice: &mut [u16]) -> Result<Totals, Refusal>
    ensures { Ran book.now rows.old choice.old (answer_code result) (answer_place result) (answer_totals result) rows.new choice.new }
{
    let shape = admitted(book, rows.len(), choice.len())?;
    let sound = SoundBook { bytes: book, shape };
    Ok(figures(&sound, rows, choice))
}

// That so many bytes kept, of so many, are those of a book of whole records. What is cut, or is of no book, has a faulty length.
// They stay two numbers, as below.
fn whole(kept: usize, size: usize) -> Result<(), Refusal>
    ensures { result ≡ cond (whole_kept kept size) (Ok tt) (Err (torn size)) }
{
    if (kept == size.min(11_040)) & (size % 32 == 0) {
        Ok(())
    } else {
        Err(Refusal {
            fault: Fault::Length,
            place: size / 32,
        })
    }
}

// The verdict on a book of which the first 345 records were kept, and the bytes of the whole were counted. Bytes and a number
// that are of no book have no length, and are refused as a faulty one. The two are no slice and its length: `CountedVerdict` speaks of
// any bytes with any number.
pub fn scan_counted(kept: &[u8], size: usize) -> Result<Shape, Refusal>
    ensures { CountedVerdict kept.now size result }
{
    whole(kept.len(), size)?;
    book::scan(kept)
}

// The run of such a book. What was cut has no figures. The bytes and the number are apart, as above.
pub fn run_counted(
    kept: &[u8],
    size: usize,
    rows: &mut [i64],
    choice: &mut [u16],
) -> Result<Totals, Refusal>
    ensures { CountedRan kept.now size rows.old choice.old (answer_code result) (answer_place result) (answer_totals result) rows.new choice.new }
{
    whole(kept.len(), size)?;
    run(kept, rows, choice)
}

// An item of a sound book, where it has such an item and such a point.
fn item_of(book: &SoundBook, i: usize, point: usize) -> Option<i64>
    ensures { result ≡ item_for book.now.bytes.now i point (Ok book.now.shape) }
{
    let there = (i < book.shape.instruments) && (point < book.shape.points);
    if there {
        Some(Item::of(book, i).amount_at(point))
    } else {
        None
    }
}

// The amount of an item at a point of a book, whatever the book.
pub fn item_at(book: &[u8], i: usize, point: usize) -> Option<i64>
    ensures { result ≡ item_of book.now i point }
{
    let Ok(shape) = book::scan(book) else {
        return None;
    };
    item_of(&SoundBook { bytes: book, shape }, i, point)
}

// The mark-to-market amount of an item of a sound book, where it has such an item.
fn mark_in(book: &SoundBook, i: usize) -> Option<i64>
    ensures { result ≡ item_mark_for book.now.bytes.now i (Ok book.now.shape) }
{
    if i < book.shape.instruments {
        Some(vector::marked(book, i))
    } else {
        None
    }
}

// The mark-to-market amount of an item of a book, whatever the book. What is asked of the sound book differs, not a type or a size.
pub fn item_mark(book: &[u8], i: usize) -> Option<i64>
    ensures { result ≡ item_mark_of book.now i }
{
    let Ok(shape) = book::scan(book) else {
        return None;
    };
    mark_in(&SoundBook { bytes: book, shape }, i)
}
