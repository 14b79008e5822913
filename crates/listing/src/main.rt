// The evening listing of the book on standard input: it is read, its listing is worked out once and handed over in one call. A
// refusal is said in words too, on standard error.
#![tactic(auto)]

ghost use Rattle.std.specs.Prelude.{OnOk};
ghost use Rattle.std.specs.Io.KnownBytes.{Appends};
ghost use Rattle.listing.specs.Evening.{Handed, Told, Published, Evening};

use intake::Kept;
use std::io;
use std::io::{ErrorKind, Read, Write};
use text::Text;

mod page; // page.rt: the listing's text

// What an evening failed in: no book was read, its listing was cut, or what is said of it was.
#[derive(Clone, Copy)]
enum Failure {
    Unread,
    Cut,
    Untold,
}

// How many writes are tried beyond one a byte. A write that is interrupted is tried again, but not without end.
const TRIES: usize = 64;

// Hands bytes over, in one write where it is taken whole.
fn hand<W: Write>(to: &mut W, bytes: &[u8]) -> io::Result<()>
    ensures { OnOk result (Appends (W.contents to.old) (W.contents to.new) bytes.now) }
{
    let mut rest = bytes;
    for _ in 0..bytes.len().saturating_add(TRIES) {
        if rest.is_empty() {
            return Ok(());
        }
        match to.write(rest) {
            Ok(0) => return Err(io::Error::other("no byte was taken")),
            Ok(n) => rest = &rest[n..],
            Err(error) => {
                if error.kind() != ErrorKind::Interrupted {
                    return Err(error);
                }
            }
        }
    }
    if rest.is_empty() {
        Ok(())
    } else {
        Err(io::Error::other("each write was interrupted"))
    }
}

// Hands over the listing of what was read, in one write.
fn list<W: Write>(to: &mut W, read: Kept) -> io::Result<()>
    ensures { OnOk result (Handed read.entry.bytes.now read.entry.whole (W.contents to.old) (W.contents to.new)) }
{
    let mut out = [0u8; page::ROOM];
    let n = page::whole_listing(read, &mut out);
    hand(to, &out[..n])
}

// Says a line, in one write; an empty one is nothing.
fn say<W: Write>(to: &mut W, line: Text) -> io::Result<()>
    ensures { OnOk result (Appends (W.contents to.old) (W.contents to.new) line) }
{
    hand(to, line.as_bytes())
}

// Says why the book was refused, if it was.
fn explain<W: Write>(to: &mut W, read: Kept) -> io::Result<()>
    ensures { OnOk result (Told read.entry.bytes.now read.entry.whole (W.contents to.old) (W.contents to.new)) }
{
    say(to, page::whole_reason(read))
}

// The listing of what was read on the one output, and what is said of it on the other.
fn publish<W: Write, E: Write>(to: &mut W, err: &mut E, read: Kept) -> Result<(), Failure>
    ensures { Published read.entry.bytes.now read.entry.whole (W.contents to.old) (W.contents to.new) (E.contents err.old) (E.contents err.new) result }
{
    list(to, read).map_err(|_| Failure::Cut)?;
    explain(err, read).map_err(|_| Failure::Untold)
}

// The evening: the one output has the listing of the book that came behind what it held, and the other what is said of it.
fn evening<R: Read, W: Write, E: Write>(
    from: &mut R,
    to: &mut W,
    err: &mut E,
) -> Result<(), Failure>
    ensures { Evening (R.remaining from.old) (R.remaining from.new) (W.contents to.old) (W.contents to.new) (E.contents err.old) (E.contents err.new) result }
{
    let mut kept = [0u8; 11040];
    match intake::read(from, &mut kept) {
        Ok(read) => publish(to, err, read),
        Err(_) => Err(Failure::Unread),
    }
}

fn main(rt: HostRuntime) {
    let ended = evening(&mut rt.stdin(), &mut rt.stdout(), &mut rt.stderr());
    let complaint = match ended {
        Err(Failure::Unread) => "listing: the book could not be read\n",
        Err(Failure::Cut) => "listing: the listing could not be written whole\n",
        Err(Failure::Untold) | Ok(()) => return,
    };
    let _ = rt.eprint(complaint);
}
