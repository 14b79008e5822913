// What the book fixes of a class. Class k and instrument i are numbers, as in lib.rt.
ghost use Rattle.std.specs.Prelude.{◌≡◌, ◌<◌};
ghost use Rattle.tree.specs.Buffers.{walk, parent_in};

use book::SoundBook;

// The parent of class k: a root has none.
pub fn parent_of(book: &SoundBook, k: usize) -> Option<usize>
    requires { k < book.now.shape.classes }
    ensures { result ≡ parent_in (walk book.now).tree k }
{
    book.class(k).above().map(|parent| parent as usize)
}

// The reach of class k's window.
#[tactic(auto, using(crate::proofs::Book::class_points))]
pub fn reach_of(book: &SoundBook, k: usize) -> usize
    requires { k < book.now.shape.classes }
    ensures { result ≡ (walk book.now).tree.reach k }
{
    let class = book.class(k);
    window::reach(class.share, class.points)
}

// The class of instrument i.
#[tactic(auto, using(crate::proofs::Book::home_within))]
pub fn home_of(book: &SoundBook, i: usize) -> usize
    requires { i < book.now.shape.instruments }
    ensures home { result ≡ (walk book.now).tree.home i }
    ensures within { result < book.now.shape.classes }
{
    book.instrument(i).class as usize
}
