// The points of the choice handed back, one a class and then one an instrument. Its buffer comes by itself: a type that lends it to
// be written would have each method say that its length stays, which is no plainer.
ghost use Rattle.std.specs.Prelude.{◌≡◌, ◌≢◌, ◌++◌, ◌+◌, ◌<◌, ◌≤◌, length, take, drop};
ghost use Rattle.paper.specs.Sums.{listed};
ghost use Rattle.paper.specs.Records.{root};
ghost use Rattle.paper.specs.Windows.{chosen_near};
ghost use Rattle.paper.specs.Trees.{choose_from, class_choice, item_choice};
ghost use Rattle.paper.specs.Answers.{class_point, choice_for};
ghost use Rattle.tree.specs.Buffers.{walk, rows_in, ChosenClasses};

use crate::held::HeldRows;
use crate::terms;
use book::SoundBook;
use vector::Item;

impl HeldRows<'_> {
    // A child's point: the lowest-numbered one with its lowest entry within its parent's reach. A root's is chosen as a child's
    // of the middle point would be, with the whole scale in reach.
    #[tactic(auto, using(crate::proofs::Book::parent_before))]
    fn class_point(&self, choice: &[u16], k: usize) -> u16
        requires { (k < self.now.book.shape.classes) × (self.now.book.shape.classes ≤ length choice.now) × ((walk self.now.book).tree.parent k ≢ root → class_point choice.now ((walk self.now.book).tree.parent k) < self.now.book.shape.points) }
        ensures { result ≡ choose_from (walk self.now.book).tree (rows_in self.now.book.shape.points self.now.cells.now) (class_point choice.now) k }
    {
        let points = self.book.shape.points;
        match terms::parent_of(&self.book, k) {
            None => self.chosen(k, points, (points - 1) / 2),
            Some(above) => {
                let reach = terms::reach_of(&self.book, above);
                self.chosen(k, reach, choice[above] as usize)
            }
        }
    }

    // Classes upward in number: a parent's is the smaller.
    fn choose_classes(&self, choice: &mut [u16])
        requires { self.now.book.shape.classes ≤ length choice.old }
        ensures { choice.new ≡ listed self.now.book.shape.classes (class_choice (walk self.now.book).tree (walk self.now.book).row) ++ drop self.now.book.shape.classes choice.old }
    {
        for k in 0..self.book.shape.classes {
            choice[k] = self.class_point(choice, k);
        }
    }

    // The choice handed back: a parent's point stands before its children look for theirs.
    pub fn choose(&self, choice: &mut [u16])
        requires { self.now.book.shape.classes + self.now.book.shape.instruments ≤ length choice.old }
        ensures { choice.new ≡ choice_for (walk self.now.book) choice.old }
    {
        self.choose_classes(choice);
        choose_items(&self.book, choice);
    }
}

// The point of instrument i, from its class's.
fn item_point(book: &SoundBook, i: usize, middle: usize) -> u16
    requires { (i < book.now.shape.instruments) × (middle < book.now.shape.points) }
    ensures { result ≡ chosen_near book.now.shape.points ((walk book.now).tree.amount i) ((walk book.now).tree.reach ((walk book.now).tree.home i)) middle }
{
    let reach = terms::reach_of(book, terms::home_of(book, i));
    let mut work = [0i64; 201];
    Item::of(book, i).fill(&mut work);
    window::chosen_near(&work[..book.shape.points], reach, middle) as u16
}

// Instruments, once all classes have their points. One function for both would take the step, and what it promises, as a closure:
// no plainer.
fn choose_items(book: &SoundBook, choice: &mut [u16])
    requires { (book.now.shape.classes + book.now.shape.instruments ≤ length choice.old) × ChosenClasses (walk book.now) choice.old }
    ensures { choice.new ≡ take book.now.shape.classes choice.old ++ (listed book.now.shape.instruments (item_choice (walk book.now).tree (walk book.now).row) ++ drop (book.now.shape.classes + book.now.shape.instruments) choice.old) }
{
    for i in 0..book.shape.instruments {
        let middle = choice[terms::home_of(book, i)] as usize;
        choice[book.shape.classes + i] = item_point(book, i, middle);
    }
}
