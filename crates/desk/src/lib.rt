// The same call for C and Rust. Slices pass as a pointer and a length, the five numbers of the answer through five pointers.
#![tactic(auto)]

ghost use Rattle.margin.specs.Run.{Ran};
ghost use Rattle.desk.specs.Call.{totals as totals_of};

use paper::Numbers;

// The run of a book. Nothing is to be checked first: a buffer that is too short is refused like a faulty book.
#[unsafe(no_mangle)]
pub extern "C" fn desk_run(
    book: &[u8],
    rows: &mut [i64],
    choice: &mut [u16],
    code: &mut u64,
    place: &mut u64,
    mark: &mut i64,
    naked: &mut i64,
    cross: &mut i64,
)
    ensures { Ran book.now rows.old choice.old code.new place.new (totals_of mark.new naked.new cross.new) rows.new choice.new }
{
    let answer = margin::run(book, rows, choice);
    *code = answer.code();
    *place = answer.place() as u64;
    let totals = answer.totals();
    *mark = totals.mark;
    *naked = totals.naked;
    *cross = totals.cross;
}
