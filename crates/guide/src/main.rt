// The tables of the Danish guide: its two vectors, its result vector, its instruments' marks and its mortgage bond example. Standard input has the
// two books: 1000 bought of CFRAU9 and 700 sold of CFRAH9, and 100 of MBFH9 bought today at 101.8.
#![tactic(auto)]

use paper::Numbers;
use std::io::Read;
use text::Text;

// A name, a number and an amount.
fn show(out: &impl Print, name: &[u8], k: usize, t: Text) {
    let _ = out.write_all(name);
    let _ = out.print(k);
    let _ = out.write_all(b" ");
    show_amount(out, t);
}

fn show_amount(out: &impl Print, t: Text) {
    let _ = out.write_all(t.as_bytes());
    let _ = out.write_all(b"\n");
}

// An instrument's amounts at all points.
fn show_vector(out: &impl Print, name: &[u8], book: &[u8], i: usize) {
    for point in 0..31 {
        if let Some(z) = margin::item_at(book, i, point) {
            show(out, name, point, kroner::write(z));
        }
    }
}

fn show_row(out: &impl Print, name: &[u8], row: &[i64]) {
    for (point, z) in row.iter().enumerate() {
        show(out, name, point, kroner::write(*z));
    }
}

// The class's row after a run.
fn show_result(out: &impl Print, book: &[u8]) {
    let mut rows = [0i64; 31];
    let mut choice = [0u16; 3];
    if margin::run(book, &mut rows, &mut choice).is_ok() {
        show_row(out, b"RESULT ", &rows);
    }
}

// The open margin and the mark-to-market amount.
fn show_totals(out: &impl Print, book: &[u8]) {
    let mut rows = [0i64; 31];
    let mut choice = [0u16; 2];
    let totals = margin::run(book, &mut rows, &mut choice).totals();
    let _ = out.write_all(b"MBFH9 MARGIN ");
    show_amount(out, kroner::write(totals.cross));
    let _ = out.write_all(b"MBFH9 MARK ");
    show_amount(out, kroner::write(totals.mark));
}

// An instrument's mark-to-market amount, where there is such an instrument.
fn show_mark(out: &impl Print, book: &[u8], i: usize) {
    if let Some(z) = margin::item_mark(book, i) {
        show(out, b"MARK ", i, kroner::write(z));
    }
}

fn show_fra(out: &impl Print, book: &[u8]) {
    show_vector(out, b"CFRAU9 ", book, 0);
    show_vector(out, b"CFRAH9 ", book, 1);
    show_result(out, book);
    for i in 0..3 {
        show_mark(out, book, i);
    }
}

// Five records, then three.
fn show_tables(out: &impl Print, books: &[u8; 256]) {
    let (fra, bond) = books.split_at(160);
    show_fra(out, fra);
    show_totals(out, bond);
}

fn main(rt: HostRuntime) {
    let mut books = [0u8; 256];
    let _ = rt.stdin().read_exact(&mut books);
    show_tables(&rt, &books);
}
