// Either side of every limit on sizes: a book's length, the records of each kind, what was kept of what was counted, and the
// buffers lent to a run. A line a case, with its name and the answer; of a run also whether its totals are zero, and how many
// entries of the rows and the choice it wrote.
#![tactic(auto)]

ghost use Rattle.std.specs.Prelude.{◌+◌, ◌<◌, ◌≤◌};

use paper::{Numbers, Refusal, Totals};

fn main(rt: HostRuntime) {
    lengths(&rt);
    numbers(&rt);
    two_faults(&rt);
    counts(&rt);
    runs(&rt);
    full_runs(&rt);
}

// A root of 3 points, a future in class 0, and a contract of instrument 0 bought and carried.
const CLASS: [u8; 32] = *b"C\0\xff\xff\x03\0\0\0\0\0\0\0\0\0\0\0\0\0\0\0\0\0\0\0\0\0\0\0\0\0\0\0";

const INSTRUMENT: [u8; 32] =
    *b"I\x02\0\0\0\0\0\0\x08\0\0\0\0\0\0\0\x80\x1a\x06\0\x20\x4e\0\0\0\0\0\0\0\0\0\0";

const POSITION: [u8; 32] = *b"P\x01\0\0\x01\0\0\0\0\0\0\0\0\0\0\0\0\0\0\0\0\0\0\0\0\0\0\0\0\0\0\0";

// How many records of each kind.
#[derive(Clone, Copy)]
struct Kinds {
    classes: usize,
    instruments: usize,
    positions: usize,
    ghost within: { classes + instruments + positions ≤ 345 },
}

fn of(classes: usize, instruments: usize, positions: usize) -> Kinds
    requires { classes + instruments + positions ≤ 345 }
{
    Kinds {
        classes,
        instruments,
        positions,
    }
}

impl Kinds {
    // The book's length.
    fn bytes(self) -> usize
        ensures { result ≤ 11040 }
    {
        32 * (self.classes + self.instruments + self.positions)
    }
}

// The record, over and over.
fn fill(part: &mut [u8], record: &[u8; 32]) {
    for place in part.chunks_exact_mut(32) {
        place.copy_from_slice(record);
    }
}

// A book of so many records of each kind; what is behind them is zero.
fn filled(n: Kinds) -> [u8; 11040] {
    let mut book = [0u8; 11040];
    let (classes, rest) = book.split_at_mut(32 * n.classes);
    let (instruments, rest) = rest.split_at_mut(32 * n.instruments);
    fill(classes, &CLASS);
    fill(instruments, &INSTRUMENT);
    fill(&mut rest[..32 * n.positions], &POSITION);
    book
}

fn word(out: &impl Print, text: &[u8]) {
    let _ = out.write_all(text);
}

fn number(out: &impl Print, n: usize) {
    word(out, b" ");
    let _ = out.print(n);
}

fn name(out: &impl Print, n: Kinds) {
    word(out, b"classes");
    number(out, n.classes);
    word(out, b" instruments");
    number(out, n.instruments);
    word(out, b" positions");
    number(out, n.positions);
}

fn refused(out: &impl Print, refusal: Refusal) {
    word(out, b": refused");
    number(out, refusal.fault.code() as usize);
    number(out, refusal.place);
}

fn ended(out: &impl Print, answer: Result<Totals, Refusal>) {
    match answer {
        Ok(_) => word(out, b": accepted"),
        Err(refusal) => refused(out, refusal),
    }
}

// A run with room for any book of 3 points.
fn answer(book: &[u8]) -> Result<Totals, Refusal> {
    let mut rows = [0i64; 72];
    let mut choice = [0u16; 88];
    margin::run(book, &mut rows, &mut choice)
}

// The end of a line: what a run of the book answers.
fn answer_on(out: &impl Print, book: &[u8]) {
    ended(out, answer(book));
    word(out, b"\n");
}

// The first n bytes of a sound book of 9 records.
fn length(out: &impl Print, n: usize)
    requires { n ≤ 11040 }
{
    word(out, b"length");
    number(out, n);
    answer_on(out, &filled(of(2, 3, 4))[..n]);
}

fn lengths(out: &impl Print) {
    length(out, 0);
    length(out, 1);
    length(out, 31);
    length(out, 32);
    length(out, 33);
    length(out, 287);
    length(out, 288);
}

fn many(out: &impl Print, n: Kinds) {
    name(out, n);
    answer_on(out, &filled(n)[..n.bytes()]);
}

fn numbers(out: &impl Print) {
    many(out, of(24, 0, 0));
    many(out, of(25, 0, 0));
    many(out, of(1, 64, 0));
    many(out, of(1, 65, 0));
    many(out, of(1, 1, 256));
    many(out, of(1, 1, 257));
    many(out, of(24, 64, 256));
    many(out, of(24, 64, 257));
}

// A book that ends with that record, in which one byte is written over.
fn faults(out: &impl Print, what: &[u8], book: [u8; 11040], last: usize, offset: usize, byte: u8)
    requires { (last < 345) × (offset < 32) }
{
    let mut damaged = book;
    damaged[32 * last + offset] = byte;
    word(out, what);
    word(out, b" in record");
    number(out, last);
    answer_on(out, &damaged[..32 * last + 32]);
}

// Two faults in one record, one of them its number: the earlier code is given.
fn two_faults(out: &impl Print) {
    faults(out, b"limit and reserved", filled(of(25, 0, 0)), 24, 8, 1);
    faults(out, b"limit and reference", filled(of(25, 0, 0)), 24, 3, 0);
    faults(out, b"limit and range", filled(of(24, 65, 0)), 88, 1, 4);
    faults(
        out,
        b"limit and reference",
        filled(of(24, 64, 257)),
        344,
        2,
        64,
    );
    faults(out, b"order and limit", filled(of(24, 2, 0)), 25, 0, 67);
}

// The bytes and the number are apart, as the call takes them.
fn answer_counted(kept: &[u8], size: usize) -> Result<Totals, Refusal> {
    let mut rows = [0i64; 72];
    let mut choice = [0u16; 88];
    margin::run_counted(kept, size, &mut rows, &mut choice)
}

// So many bytes kept of a sound book of 9 records, and so many counted: what was cut has no figures.
fn counted(out: &impl Print, kept: usize, size: usize)
    requires { kept ≤ 11040 }
{
    let book = filled(of(2, 3, 4));
    word(out, b"kept");
    number(out, kept);
    word(out, b" of");
    number(out, size);
    ended(out, answer_counted(&book[..kept], size));
    word(out, b"\n");
}

fn counts(out: &impl Print) {
    counted(out, 288, 288);
    counted(out, 0, 0);
    counted(out, 0, 12_800);
    counted(out, 256, 288);
    counted(out, 288, 256);
    counted(out, 288, 289);
}

// How many entries no longer hold the mark, 7: no amount of these books, and no point.
fn changed<T: PartialEq>(entries: &[T], mark: &T) -> usize {
    entries.iter().filter(|z| *z != mark).count()
}

fn written(out: &impl Print, rows: usize, choice: usize) {
    if rows == 0 && choice == 0 {
        word(out, b", untouched\n");
        return;
    }
    word(out, b", written");
    number(out, rows);
    number(out, choice);
    word(out, b"\n");
}

fn totals(out: &impl Print, t: Totals) {
    if [t.mark, t.naked, t.cross] == [0, 0, 0] {
        word(out, b", totals zero");
    } else {
        word(out, b", totals not zero");
    }
}

fn told(out: &impl Print, answer: Result<Totals, Refusal>) {
    ended(out, answer);
    totals(out, answer.totals());
}

// The end of a line: what a run answers and writes.
fn run_on(out: &impl Print, book: &[u8], rows: &mut [i64], choice: &mut [u16]) {
    told(out, margin::run(book, rows, choice));
    written(out, changed(rows, &7), changed(choice, &7));
}

fn buffers(out: &impl Print, rows: usize, choice: usize) {
    word(out, b" rows");
    number(out, rows);
    word(out, b" choice");
    number(out, choice);
}

// A run lent so many entries of buffers that hold the mark.
fn lend(out: &impl Print, book: &[u8], rows: usize, choice: usize)
    requires { (rows ≤ 73) × (choice ≤ 89) }
{
    let mut marked_rows = [7i64; 73];
    let mut marked_choice = [7u16; 89];
    buffers(out, rows, choice);
    run_on(
        out,
        book,
        &mut marked_rows[..rows],
        &mut marked_choice[..choice],
    );
}

fn run(out: &impl Print, n: Kinds, rows: usize, choice: usize)
    requires { (rows ≤ 73) × (choice ≤ 89) }
{
    name(out, n);
    lend(out, &filled(n)[..n.bytes()], rows, choice);
}

// Rows need 6 entries and the choice 5; an empty book needs none.
fn runs(out: &impl Print) {
    run(out, of(2, 3, 4), 5, 5);
    run(out, of(2, 3, 4), 6, 5);
    run(out, of(2, 3, 4), 6, 4);
    run(out, of(2, 3, 4), 5, 4);
    run(out, of(2, 3, 4), 0, 0);
    run(out, of(2, 3, 4), 7, 6);
    run(out, of(0, 0, 0), 0, 0);
    run(out, of(0, 0, 0), 1, 1);
}

// Rows need 72 entries and the choice 88; a record's fault comes before the buffers'.
fn full_runs(out: &impl Print) {
    run(out, of(24, 64, 256), 71, 88);
    run(out, of(24, 64, 256), 72, 87);
    run(out, of(24, 64, 256), 71, 87);
    run(out, of(24, 64, 256), 72, 88);
    run(out, of(24, 64, 257), 0, 0);
}
