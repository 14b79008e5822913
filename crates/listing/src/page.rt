// The whole evening listing of a book, in a buffer that the caller lends.
ghost use Rattle.std.specs.Prelude.{◌≡◌, Ok, Some, [], ◌∷◌, ◌++◌, ◌+◌, ◌≤◌, length};
ghost use Rattle.paper.specs.Records.{rank};
ghost use Rattle.paper.specs.Answers.{code_of};
ghost use Rattle.paper.specs.Listing.{decimal, kroner as kroner_of, line, lines as lines_of, CLASS, ITEM, total_lines, listing_for};
ghost use Rattle.margin.specs.Items.{item_of};
ghost use Rattle.listing.specs.Page.{class_in, item_text, item_by, figure_lines, refused_line, most, Printed, Listed, kind_kept, Explained};

use book::SoundBook;
use intake::Kept;
use paper::{Kind, Numbers, Refusal, Shape, Totals};
use record::Record;
use std::marker::Model;
use text::Text;

// Every listing fits in so many bytes.
pub const ROOM: usize = 2570;

fn class_line(k: usize, point: u16) -> Text
    ensures { result ≡ line CLASS (decimal k ∷ decimal point ∷ []) }
{
    lines::numbers(b"CLASS", k as u64, point as u64)
}

fn item_line(i: usize, point: u16, z: i64) -> Text
    ensures { result ≡ line ITEM (decimal i ∷ decimal point ∷ kroner_of z ∷ []) }
{
    lines::item(b"ITEM", i as u64, point as u64, z)
}

fn refused_line(refusal: Refusal) -> Text
    ensures { result ≡ refused_line (code_of refusal.fault) refusal.place }
{
    lines::numbers(b"REFUSED", refusal.fault.code(), refusal.place as u64)
}

// A listing as it is written. Contracts see it as the list of the bytes so far. Memory is fixed here: nothing of this project
// takes any from a heap.
#[derive(Drop)]
struct Page {
    bytes: [u8; ROOM],
    end: usize,
}

impl Model for Page {
    ghost use Rattle.std.specs.Prelude.{List, ℕ, ◌≤◌, take};
    ghost use Rattle.listing.specs.Page.{most};

    ghost Value = { List ℕ };

    ghost view = { λ p. take p.end p.bytes };

    ghost invariant = { λ p. p.end ≤ most };
}

impl Page {
    fn empty() -> Page
        ensures { result ≡ [] }
    {
        Page {
            bytes: [0; ROOM],
            end: 0,
        }
    }

    // Writes a text behind what stands there.
    fn put(&mut self, t: Text)
        requires { length self.old + length t ≤ most }
        ensures { self.new ≡ self.old ++ t }
    {
        let bytes = t.as_bytes();
        let from = self.end;
        let end = from + bytes.len();
        self.bytes[from..end].copy_from_slice(bytes);
        self.end = end;
    }

    // The three totals.
    fn put_totals(&mut self, t: Totals)
        requires { length self.old + length (total_lines t) ≤ most }
        ensures { self.new ≡ self.old ++ total_lines t }
    {
        self.put(lines::total(b"MTM", t.mark));
        self.put(lines::total(b"NAKED", t.naked));
        self.put(lines::total(b"CROSS", t.cross));
    }

    // A line a class, with its point.
    fn put_classes(&mut self, points: &[u16])
        requires { length self.old + length (lines_of (length points.now) (class_in points.now)) ≤ most }
        ensures { self.new ≡ self.old ++ lines_of (length points.now) (class_in points.now) }
    {
        for (k, &point) in points.iter().enumerate() {
            self.put(class_line(k, point));
        }
    }

    // The line of instrument i, with its amount at its point.
    fn put_item(&mut self, book: &[u8], i: usize, point: u16)
        requires { length self.old + length (item_text i point (item_of book.now i point)) ≤ most }
        ensures { self.new ≡ self.old ++ item_text i point (item_of book.now i point) }
    {
        if let Some(z) = margin::item_at(book, i, point as usize) {
            self.put(item_line(i, point, z));
        }
    }

    // A line an instrument, with its point. Which text a line has differs from a class's, not a type or a size.
    fn put_items(&mut self, book: &[u8], points: &[u16])
        requires { length self.old + length (lines_of (length points.now) (item_by book.now points.now)) ≤ most }
        ensures { self.new ≡ self.old ++ lines_of (length points.now) (item_by book.now points.now) }
    {
        for (i, &point) in points.iter().enumerate() {
            self.put_item(book, i, point);
        }
    }

    // The figures of an accepted book, with the choice that stands in the buffer: the classes' points, then the instruments'. That it has
    // room is asked of the book's shape, which comes apart from it, as in `tree`.
    fn put_figures(&mut self, book: &[u8], s: Shape, t: Totals, choice: &[u16])
        requires { (length self.old + length (figure_lines book.now s t choice.now) ≤ most) × (s.classes + s.instruments ≤ length choice.now) }
        ensures { self.new ≡ self.old ++ figure_lines book.now s t choice.now }
    {
        let (classes, rest) = choice.split_at(s.classes);
        self.put_totals(t);
        self.put_classes(classes);
        self.put_items(book, &rest[..s.instruments]);
    }

    // Copies the page into a buffer that has room for any, and hands back how many bytes it has there.
    fn print(&self, out: &mut [u8]) -> usize
        requires { most ≤ length out.old }
        ensures { Printed self.now out.old (Some result) out.new }
    {
        out[..self.end].copy_from_slice(&self.bytes[..self.end]);
        self.end
    }
}

// What of a sound book's figures is listed: the totals and the choice. Its rows are not, and are gone before a page is begun.
#[inline(never)]
fn figures(book: &SoundBook) -> (Totals, [u16; 88])
    ensures { figure_lines book.now.bytes.now book.now.shape result.0 result.1 ≡ listing_for book.now.bytes.now (Ok book.now.shape) }
{
    let mut rows = [0i64; 4824];
    let mut choice = [0u16; 88];
    let answer = margin::run(book.bytes, &mut rows, &mut choice);
    (answer.totals(), choice)
}

// The listing of figures that are a sound book's. The page, and that of a refused book, are on the stack only while they are written.
#[inline(never)]
fn print_figures(book: &SoundBook, totals: Totals, choice: &[u16], out: &mut [u8]) -> usize
    requires figures { figure_lines book.now.bytes.now book.now.shape totals choice.now ≡ listing_for book.now.bytes.now (Ok book.now.shape) }
    requires choice { book.now.shape.classes + book.now.shape.instruments ≤ length choice.now }
    requires out { most ≤ length out.old }
    ensures { Printed (listing_for book.now.bytes.now (Ok book.now.shape)) out.old (Some result) out.new }
{
    let mut page = Page::empty();
    page.put_figures(book.bytes, book.shape, totals, choice);
    page.print(out)
}

// The listing of a sound book.
fn print_sound(book: &SoundBook, out: &mut [u8]) -> usize
    requires { most ≤ length out.old }
    ensures { Printed (listing_for book.now.bytes.now (Ok book.now.shape)) out.old (Some result) out.new }
{
    let (totals, choice) = figures(book);
    print_figures(book, totals, &choice, out)
}

// The listing of a refused one.
#[inline(never)]
fn print_refused(refusal: Refusal, out: &mut [u8]) -> usize
    requires { most ≤ length out.old }
    ensures { Printed (refused_line (code_of refusal.fault) refusal.place) out.old (Some result) out.new }
{
    let mut page = Page::empty();
    page.put(refused_line(refusal));
    page.print(out)
}

// The listing of a book of which the first records were kept, and the bytes of the whole were counted: how many bytes of the
// buffer it has. In a buffer that is too short for some listing there is none, and nothing is written.
// The two stay apart: `Listed` speaks of any bytes with any count, so they are no slice with its length.
pub fn listing(kept: &[u8], size: usize, out: &mut [u8]) -> Option<usize>
    ensures { Listed kept.now size out.old result out.new }
{
    let short = out.len() < ROOM;
    if short {
        return None;
    }
    match margin::scan_counted(kept, size) {
        Ok(shape) => Some(print_sound(&SoundBook { bytes: kept, shape }, out)),
        Err(refusal) => Some(print_refused(refusal, out)),
    }
}

// The listing of what was read, in a buffer that every listing fits.
pub fn whole_listing(read: Kept, out: &mut [u8; ROOM]) -> usize
    ensures { Listed read.entry.bytes.now read.entry.whole out.old (Some result) out.new }
{
    listing(read.bytes, read.whole, out).unwrap_or(0)
}

// The rank of the kind of a record that was kept, and 0 of any other.
fn kind_of(kept: &[u8], place: usize) -> u8
    ensures { result ≡ kind_kept kept.now place }
{
    if place < kept.len() / 32 {
        let record = Record {
            book: kept,
            number: place,
        };
        record.kind().map_or(0, Kind::rank)
    } else {
        0
    }
}

// What is said of a book so kept and counted: a refusal in words, of a sound one nothing.
// The two stay apart: `Explained` speaks of any bytes with any count, so they are no slice with its length.
pub fn reason(kept: &[u8], size: usize) -> Text
    ensures { Explained kept.now size result }
{
    match margin::scan_counted(kept, size) {
        Ok(_) => Text::empty(),
        Err(refusal) => words::refusal(refusal, kind_of(kept, refusal.place)),
    }
}

// What is said of what was read.
pub fn whole_reason(read: Kept) -> Text
    ensures { Explained read.entry.bytes.now read.entry.whole result }
{
    reason(read.bytes, read.whole)
}
