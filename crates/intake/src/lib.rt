// An input, to its end: the first bytes are kept, the others are counted.
#![tactic(auto)]

ghost use Rattle.std.specs.Prelude.{◌≡◌, ◌+◌, ◌≤◌, min, length, take, IfOk, IfErr};
ghost use Rattle.paper.specs.Listing.{kept_bytes};
ghost use Rattle.intake.specs.Input.{after as after_of, Next, ReadTo, ReadSome};

use std::io;
use std::io::Read;

// What came of an input: its first bytes, as many as are kept of any, and how many came.
#[derive(Clone, Copy)]
pub struct Kept<'a> {
    pub bytes: &'a [u8],
    pub whole: usize,
    ghost first: { length bytes.now ≡ min kept_bytes whole },
}

impl<'a> Kept<'a> {
    // Of so many bytes that came the buffer holds the first: more may have come, so `whole` is not its length. The buffer is `read`'s.
    fn first_of(buffer: &'a [u8], whole: usize) -> Kept<'a>
        requires { length buffer.now ≡ kept_bytes }
        ensures bytes { result.bytes.now ≡ take whole buffer.now }
        ensures whole { result.whole ≡ whole }
    {
        let kept = whole.min(buffer.len());
        Kept {
            bytes: &buffer[..kept],
            whole,
        }
    }
}

// Why an input was not read to its end, and what had come of it by then.
#[derive(Drop)]
pub struct Unread<'a> {
    pub error: io::Error,
    pub kept: Kept<'a>,
}

// How many bytes came in all after one read more, by its answer; none more at the end, where a read brings no byte.
fn after(whole: usize, got: io::Result<usize>) -> io::Result<Option<usize>>
    requires counted { whole ≤ 4000000000000000000 }
    requires few { IfOk got (λ n. n ≤ 1000000) }
    ensures { result ≡ after_of whole got }
{
    match got? {
        0 => Ok(None),
        n => Ok(Some(whole + n)),
    }
}

// One read more, into the room that is left or, where there is none, past it. The buffer is `read`'s. What is
// read past it is on the stack for as long as this runs.
#[tactic(auto, using(crate::proofs::Reading::into_room, crate::proofs::Reading::past_it))]
#[inline(never)]
fn next<R: Read>(from: &mut R, buffer: &mut [u8], whole: usize) -> io::Result<Option<usize>>
    requires room { length buffer.old ≡ kept_bytes }
    requires counted { whole ≤ 4000000000000000000 }
    ensures { Next (R.remaining from.old) (R.remaining from.new) buffer.old buffer.new whole result }
{
    if whole < buffer.len() {
        after(whole, from.read(&mut buffer[whole..]))
    } else {
        let mut passed = [0u8; 4096];
        after(whole, from.read(&mut passed))
    }
}

// Reads an input to its end, keeping what the buffer holds and counting the rest. One that goes on and on can't be read. Any slice of
// the length will do: an array would be narrower. What came before a failure is kept and counted as what comes before the end is.
pub fn read<'a, R: Read>(from: &mut R, buffer: &'a mut [u8]) -> Result<Kept<'a>, Unread<'a>>
    requires { length buffer.old ≡ kept_bytes }
    ensures read { IfOk result (λ k. ReadTo (R.remaining from.old) (R.remaining from.new) k.bytes.now k.whole) }
    ensures unread { IfErr result (λ u. ReadSome (R.remaining from.old) (R.remaining from.new) u.kept.bytes.now u.kept.whole) }
{
    let mut whole = 0;
    for _ in 0..1_000_000_000_000u64 {
        match next(from, buffer, whole) {
            Ok(Some(more)) => whole = more,
            Ok(None) => return Ok(Kept::first_of(buffer, whole)),
            Err(error) => {
                let kept = Kept::first_of(buffer, whole);
                return Err(Unread { error, kept });
            }
        }
    }
    let error = io::Error::other("the input does not end");
    let kept = Kept::first_of(buffer, whole);
    Err(Unread { error, kept })
}
