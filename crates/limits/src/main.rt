// Either side of every limit on a record: ranges, references, reserved bytes, letters, two faults at once. A line a case, with its
// name and what the scan answers. `sizes` runs lengths, numbers of records and buffers.
#![tactic(auto)]

use paper::Refusal;
use std::ops::Range;

fn main(rt: HostRuntime) {
    scales(&rt);
    classes(&rt);
    products(&rt);
    instruments(&rt);
    positions(&rt);
    reserves(&rt);
    letters(&rt);
    two_faults(&rt);
    two_records(&rt);
}

// A root and a class below it, an instrument of each product, a position traded in each, and one carried in the first.
fn sound() -> [u8; 288] {
    *b"C\0\xff\xff\x03\0\0\0\0\0\0\0\0\0\0\0\0\0\0\0\0\0\0\0\0\0\0\0\0\0\0\0\
       C\0\0\0\x03\0\0\0\0\0\0\0\0\0\0\0\0\0\0\0\0\0\0\0\0\0\0\0\0\0\0\0\
       I\x01\0\0\x5b\0\0\0\0\0\0\0\0\0\0\0\0\0\0\0\0\0\0\0\0\0\0\0\0\0\0\0\
       I\x02\0\0\0\0\0\0\0\0\0\0\0\0\0\0\0\0\0\0\0\0\0\0\0\0\0\0\0\0\0\0\
       I\x03\0\0\0\0\0\0\0\0\0\0\0\0\0\0\0\0\0\0\0\0\0\0\0\0\0\0\0\0\0\0\
       P\x01\0\0\x01\0\0\0\0\0\0\0\x01\0\0\0\0\0\0\0\0\0\0\0\0\0\0\0\0\0\0\0\
       P\x01\x01\0\x01\0\0\0\0\0\0\0\x01\0\0\0\0\0\0\0\0\0\0\0\0\0\0\0\0\0\0\0\
       P\x01\x02\0\x01\0\0\0\0\0\0\0\x01\0\0\0\0\0\0\0\0\0\0\0\0\0\0\0\0\0\0\0\
       P\x01\0\0\x01\0\0\0\0\0\0\0\0\0\0\0\0\0\0\0\0\0\0\0\0\0\0\0\0\0\0\0"
}

// A field of the sound book: its record, its first byte there, and how many bytes it has.
#[derive(Clone, Copy)]
struct Place {
    record: u16,
    offset: u8,
    width: u8,
}

fn at(record: u16, offset: u8, width: u8) -> Place {
    Place {
        record,
        offset,
        width,
    }
}

// What is written over in the sound book.
#[derive(Clone, Copy)]
struct Edit {
    at: Place,
    value: u32,
}

fn over(at: Place, value: u32) -> Edit {
    Edit { at, value }
}

// A byte that is written over.
fn byte(record: u16, offset: u8, value: u32) -> Edit {
    over(at(record, offset, 1), value)
}

// The value's lowest bytes, as many as the field has, little endian.
fn put(book: &mut [u8; 288], e: Edit) {
    let first = 32 * usize::from(e.at.record) + usize::from(e.at.offset);
    let width = usize::from(e.at.width);
    let value = e.value.to_le_bytes();
    for (old, new) in book.iter_mut().skip(first).zip(value.iter().take(width)) {
        *old = *new;
    }
}

fn word(out: &impl Print, text: &[u8]) {
    let _ = out.write_all(text);
}

fn number(out: &impl Print, n: usize) {
    word(out, b" ");
    let _ = out.print(n);
}

fn refused(out: &impl Print, refusal: Refusal) {
    word(out, b": refused");
    number(out, refusal.fault.code() as usize);
    number(out, refusal.place);
    word(out, b"\n");
}

// The end of a line: what the scan answers.
fn answer(out: &impl Print, book: &[u8; 288]) {
    match book::scan(book) {
        Ok(_) => word(out, b": accepted\n"),
        Err(refusal) => refused(out, refusal),
    }
}

// A case of two fields written over; its name is of two parts and a number.
fn case(out: &impl Print, of: &[u8], what: &[u8], n: usize, first: Edit, second: Edit) {
    let mut book = sound();
    put(&mut book, first);
    put(&mut book, second);
    word(out, of);
    word(out, what);
    number(out, n);
    answer(out, &book);
}

// A case of one field, named by its value.
fn field(out: &impl Print, of: &[u8], what: &[u8], f: Place, value: u32) {
    let e = over(f, value);
    case(out, of, what, value as usize, e, e);
}

// A field with a value on either side of a limit.
fn sides(out: &impl Print, of: &[u8], f: Place, one: u32, other: u32) {
    field(out, of, b"", f, one);
    field(out, of, b"", f, other);
}

// The points of both classes.
fn points(out: &impl Print, n: u32) {
    case(
        out,
        b"classes",
        b" points",
        n as usize,
        over(at(0, 4, 2), n),
        over(at(1, 4, 2), n),
    );
}

fn scales(out: &impl Print) {
    for n in [1, 2, 3, 201, 202, 203] {
        points(out, n);
    }
}

fn classes(out: &impl Print) {
    sides(out, b"class 1 points", at(1, 4, 2), 3, 5);
    sides(out, b"class 0 share", at(0, 6, 2), 10_000, 10_001);
    sides(out, b"class 0 parent", at(0, 2, 2), 65_535, 0);
    sides(out, b"class 1 parent", at(1, 2, 2), 1, 2);
    sides(out, b"class 1 parent", at(1, 2, 2), 65_534, 65_535);
}

fn days(out: &impl Print, of: &[u8], what: &[u8], r: u16) {
    for n in [0, 1, 366, 367] {
        field(out, of, what, at(r, 4, 2), n);
    }
}

// Both ends of a range that starts at 0, one past its upper end, and the field's highest.
fn ends(out: &impl Print, of: &[u8], what: &[u8], r: u16, offset: u8, top: u32) {
    for n in [0, top, top.saturating_add(1), u32::MAX] {
        field(out, of, what, at(r, offset, 4), n);
    }
}

// A product's name, its instrument's record and that of the position traded in it, and the highest of each range.
#[derive(Clone, Copy)]
struct Limits<'a> {
    name: &'a [u8],
    record: u16,
    traded: u16,
    price: u32,
    par: u32,
    adj: u32,
}

// The ranges of a product: those of its instrument's record, and the price of the position traded in it.
fn product(out: &impl Print, p: Limits) {
    days(out, p.name, b" days", p.record);
    ends(out, p.name, b" today", p.record, 8, p.price);
    ends(out, p.name, b" before", p.record, 12, p.price);
    ends(out, p.name, b" par", p.record, 16, p.par);
    ends(out, p.name, b" adj", p.record, 20, p.adj);
    ends(out, p.name, b" traded price", p.traded, 8, p.price);
}

fn products(out: &impl Print) {
    product(
        out,
        Limits {
            name: b"FRA",
            record: 2,
            traded: 5,
            price: 100_000_000,
            par: 10_000_000,
            adj: 1_000_000,
        },
    );
    product(
        out,
        Limits {
            name: b"future",
            record: 3,
            traded: 6,
            price: 200_000_000,
            par: 10_000_000,
            adj: 1_000_000,
        },
    );
    product(
        out,
        Limits {
            name: b"bond",
            record: 4,
            traded: 7,
            price: 200_000_000,
            par: 500_000,
            adj: 50_000,
        },
    );
}

fn instruments(out: &impl Print) {
    sides(out, b"instrument 0 product", at(2, 1, 1), 0, 1);
    sides(out, b"instrument 0 product", at(2, 1, 1), 2, 4);
    sides(out, b"instrument 0 class", at(2, 2, 2), 1, 2);
}

fn positions(out: &impl Print) {
    sides(out, b"position 0 side", at(5, 1, 1), 0, 1);
    sides(out, b"position 0 side", at(5, 1, 1), 2, 3);
    sides(out, b"position 0 quantity", at(5, 4, 4), 0, 1);
    sides(
        out,
        b"position 0 quantity",
        at(5, 4, 4),
        1_000_000,
        1_000_001,
    );
    sides(out, b"position 0 traded", at(5, 12, 1), 0, 2);
    sides(out, b"position 0 instrument", at(5, 2, 2), 2, 3);
    sides(out, b"position 3 carried price", at(8, 8, 4), 0, 1);
}

// Each byte in a run of reserved ones.
fn reserved(out: &impl Print, of: &[u8], r: u16, bytes: Range<u8>) {
    for offset in bytes {
        let e = byte(r, offset, 1);
        case(out, of, b" byte", usize::from(offset), e, e);
    }
}

fn reserves(out: &impl Print) {
    reserved(out, b"class", 0, 1..2);
    reserved(out, b"class", 0, 8..32);
    reserved(out, b"instrument", 2, 6..8);
    reserved(out, b"instrument", 2, 24..32);
    reserved(out, b"position", 5, 13..32);
}

// C is 67, I 73, P 80.
fn letters(out: &impl Print) {
    sides(out, b"record 0 letter", at(0, 0, 1), 67, 0);
    sides(out, b"record 0 letter", at(0, 0, 1), 73, 80);
    sides(out, b"record 1 letter", at(1, 0, 1), 66, 99);
    sides(out, b"record 3 letter", at(3, 0, 1), 73, 67);
    sides(out, b"record 6 letter", at(6, 0, 1), 67, 73);
}

// A byte of the record that is refused, and one of that or another.
fn faults(out: &impl Print, what: &[u8], first: Edit, second: Edit) {
    let record = usize::from(first.at.record);
    case(out, what, b" in record", record, first, second);
}

// Two faults in one record: the earlier code is given.
fn two_faults(out: &impl Print) {
    faults(out, b"letter and range", byte(3, 0, 0), byte(3, 1, 0));
    faults(out, b"order and reserved", byte(6, 0, 67), byte(6, 8, 1));
    faults(out, b"reserved and reference", byte(2, 6, 1), byte(2, 2, 9));
    faults(out, b"reference and range", byte(2, 2, 9), byte(2, 1, 0));
    faults(out, b"range and points", byte(1, 7, 255), byte(1, 4, 5));
}

// Two faulty records: the earlier is named.
fn two_records(out: &impl Print) {
    faults(
        out,
        b"range in record 2, points",
        byte(1, 4, 5),
        byte(2, 1, 0),
    );
    faults(
        out,
        b"letter in record 8, range",
        byte(5, 1, 0),
        byte(8, 0, 0),
    );
}
