// The tree of classes: its rows in the caller's buffer, and over the rows that it holds, the cross margin and the choice.
#![tactic(auto)]

ghost use Rattle.std.specs.Prelude.{◌≡◌, ℕ, ◌+◌, ◌<◌, ◌≤◌, length};
ghost use Rattle.paper.specs.Trees.{result_from};
ghost use Rattle.paper.specs.Answers.{rows_for};
ghost use Rattle.tree.specs.Buffers.{walk, rows_in, RoomForRows, with_row, slid_over, EachFits, with_class, with_item, with_classes, with_items, ResultFits};

use book::SoundBook;
pub use held::HeldRows;
use vector::Item;

mod held; // held.rt: the rows once they are filled, and the cross margin over them
mod choice; // choice.rt: the point of a class and of an instrument
mod row; // row.rt: one row in the buffer
mod terms; // terms.rt: what the book fixes of a class

// A class and an instrument are numbers here: that a number is one of the book's is asked once of each, and a type of it would hold
// the book too and be made at each call, which is no plainer. Neither is one that lends the rows to be written: each method would
// have to say that book and length stay.

// Class c adds to row k where k is its parent.
fn add_class(book: &SoundBook, rows: &mut [i64], k: usize, c: usize)
    requires { (k < book.now.shape.classes) × (c < book.now.shape.classes) × RoomForRows book.now rows.old × EachFits book.now.shape.points (with_class (walk book.now).tree rows.old k c) }
    ensures { rows.new ≡ with_row book.now.shape.points rows.old k (with_class (walk book.now).tree rows.old k c) }
{
    if terms::parent_of(book, c) == Some(k) {
        let reach = terms::reach_of(book, k);
        row::add_row(rows, book.shape.points, k, c, reach);
    }
}

// Instrument i's vector, slid over row k.
fn slide_item(book: &SoundBook, rows: &mut [i64], k: usize, i: usize)
    requires { (k < book.now.shape.classes) × (i < book.now.shape.instruments) × RoomForRows book.now rows.old × EachFits book.now.shape.points (slid_over book.now.shape.points rows.old k ((walk book.now).tree.amount i) ((walk book.now).tree.reach k)) }
    ensures { rows.new ≡ with_row book.now.shape.points rows.old k (slid_over book.now.shape.points rows.old k ((walk book.now).tree.amount i) ((walk book.now).tree.reach k)) }
{
    let mut work = [0i64; 201];
    let points = book.shape.points;
    let reach = terms::reach_of(book, k);
    Item::of(book, i).fill(&mut work);
    row::slide_row(rows, points, k, &work[..points], reach);
}

// Instrument i adds to row k where k is its class.
fn add_item(book: &SoundBook, rows: &mut [i64], k: usize, i: usize)
    requires { (k < book.now.shape.classes) × (i < book.now.shape.instruments) × RoomForRows book.now rows.old × EachFits book.now.shape.points (with_item (walk book.now).tree rows.old k i) }
    ensures { rows.new ≡ with_row book.now.shape.points rows.old k (with_item (walk book.now).tree rows.old k i) }
{
    if terms::home_of(book, i) == k {
        slide_item(book, rows, k, i);
    }
}

// All classes' share of row k.
fn add_classes(book: &SoundBook, rows: &mut [i64], k: usize)
    requires { (k < book.now.shape.classes) × RoomForRows book.now rows.old × ((n : ℕ) → n ≤ book.now.shape.classes → EachFits book.now.shape.points (with_classes (walk book.now).tree rows.old k n)) }
    ensures { rows.new ≡ with_row book.now.shape.points rows.old k (with_classes (walk book.now).tree rows.old k book.now.shape.classes) }
{
    for c in 0..book.shape.classes {
        add_class(book, rows, k, c);
    }
}

// All instruments' share of row k. One function for both would take the step, and what it promises, as a closure: no plainer.
fn add_items(book: &SoundBook, rows: &mut [i64], k: usize)
    requires { (k < book.now.shape.classes) × RoomForRows book.now rows.old × ((n : ℕ) → n ≤ book.now.shape.instruments → EachFits book.now.shape.points (with_items (walk book.now).tree rows.old k n)) }
    ensures { rows.new ≡ with_row book.now.shape.points rows.old k (with_items (walk book.now).tree rows.old k book.now.shape.instruments) }
{
    for i in 0..book.shape.instruments {
        add_item(book, rows, k, i);
    }
}

// Row k from the rows that stand in the buffer, which are taken as they are found.
pub fn fill_row(book: &SoundBook, rows: &mut [i64], k: usize)
    requires { (k < book.now.shape.classes) × RoomForRows book.now rows.old × ResultFits (walk book.now).tree (rows_in book.now.shape.points rows.old) k }
    ensures { rows.new ≡ with_row book.now.shape.points rows.old k (result_from (walk book.now).tree (rows_in book.now.shape.points rows.old) k) }
{
    row::clear_row(rows, book.shape.points, k);
    add_classes(book, rows, k);
    add_items(book, rows, k);
}

// All rows. A class's children have larger numbers, so the last row comes first.
pub fn fill_rows(book: &SoundBook, rows: &mut [i64])
    requires { RoomForRows book.now rows.old }
    ensures { rows.new ≡ rows_for (walk book.now) rows.old }
{
    for k in (0..book.shape.classes).rev() {
        fill_row(book, rows, k);
    }
}
