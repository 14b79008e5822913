// A buffer that holds a sound book's rows: the cross margin over them.
ghost use Rattle.std.specs.Prelude.{◌≡◌, ◌-◌, ◌<◌, ◌≤◌, nat_abs, ◌+ℤ◌};
ghost use Rattle.std.specs.Int.{w64};
ghost use Rattle.std.proofs.Common.{SFits};
ghost use Rattle.paper.specs.Sums.{lowest};
ghost use Rattle.paper.specs.Windows.{chosen_near};
ghost use Rattle.paper.specs.Trees.{cross_of};
ghost use Rattle.paper.specs.Answers.{add_cross};
ghost use Rattle.tree.specs.Buffers.{walk, rows_in, RoomForRows, HoldsRows, from_root};

use crate::{row, terms};
use book::SoundBook;
use paper::Totals;

// The rows of a sound book, and the buffer that they stand in. Class k stays a number, as in lib.rt.
#[derive(Clone, Copy)]
pub struct HeldRows<'a> {
    pub book: SoundBook<'a>,
    pub cells: &'a [i64],
    ghost room: { RoomForRows book cells.now },
    ghost held: { HoldsRows (walk book).tree cells.now },
}

impl HeldRows<'_> {
    // The lowest entry of row k.
    fn lowest(&self, k: usize) -> i64
        requires { k < self.now.book.shape.classes }
        ensures { result ≡ lowest (rows_in self.now.book.shape.points self.now.cells.now k) 0 (self.now.book.shape.points - 1) }
    {
        row::lowest_in(self.cells, self.book.shape.points, k)
    }

    // The point chosen of it within reach r of x.
    pub(crate) fn chosen(&self, k: usize, r: usize, x: usize) -> u16
        requires { (k < self.now.book.shape.classes) × (x < self.now.book.shape.points) }
        ensures { result ≡ chosen_near self.now.book.shape.points (rows_in self.now.book.shape.points self.now.cells.now k) r x }
    {
        row::chosen_in(self.cells, self.book.shape.points, k, r, x)
    }

    // A root adds its lowest result to the cross margin.
    fn with_class(&self, k: usize, t: Totals) -> Totals
        requires { (k < self.now.book.shape.classes) × SFits w64 (t.cross +ℤ from_root (walk self.now.book).tree (rows_in self.now.book.shape.points self.now.cells.now) k) }
        ensures { result ≡ add_cross t (from_root (walk self.now.book).tree (rows_in self.now.book.shape.points self.now.cells.now) k) }
    {
        match terms::parent_of(&self.book, k) {
            None => t.with_cross(self.lowest(k)),
            Some(_) => t,
        }
    }

    // The totals with the cross margin. A loop of its own, as `vector::nakeds` is.
    pub fn cross(&self, t: Totals) -> Totals
        requires { nat_abs t.cross ≤ 4000000000000000000 }
        ensures { result ≡ add_cross t (cross_of (walk self.now.book).tree (rows_in self.now.book.shape.points self.now.cells.now)) }
    {
        let mut totals = t;
        for k in 0..self.book.shape.classes {
            totals = self.with_class(k, totals);
        }
        totals
    }
}
