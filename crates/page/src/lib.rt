// The current page's running numbers, kept as items arrive.
#![tactic(auto)]

ghost use Rattle.std.specs.Prelude.{◌≡◌, ℕ, ◌^◌, ◌<◌, ◌≤◌, true, List, [], ◌∷◌, ◌++◌, length, unsigned_abs};
ghost use Rattle.items.specs.declared.Item.TheVariants.{Box};
ghost use Rattle.items.specs.Items.{within_limits};
ghost use Rattle.items.specs.Table.{WellFormed};
ghost use Rattle.cost.specs.Sums.{Roomy};
ghost use Rattle.page.specs.PageSoFar.{fresh, rules_of, with_sums, with_lead, with_box, with_text, next, so_far};
ghost use Rattle.page.specs.Low.{Ready};
ghost use Rattle.page.specs.Standing.{Standing, Arriving};

mod arrivals;
pub mod breaks;

use arrivals::left;
use cost::sums::Sums;
use items::{Class, Item, Row, Settings};

// What a page is built on: settings, the classes that are declared, and the size of what lies on each class's shelf.
// Classes and shelves are two arrays, since a book keeps its classes and makes the sizes anew from its shelves.
#[derive(Clone, Copy, PartialEq, Eq, Debug)]
pub struct Ground {
    pub settings: Settings,
    pub classes: [Option<Class>; 8],
    pub shelved: [i64; 8],
}

// A class with a note on the current page: how high its notes are with what lies on the shelf, the last note's
// number, and, where the page splits that note, how many of its remaining items stand before the break.
#[derive(Clone, Copy, PartialEq, Eq, Debug)]
pub struct ClassSoFar {
    pub height: i64,
    pub last: u32,
    pub broken: Option<usize>,
}

// What the current page comes to: its goal, its sums, what split and floating notes add to the cost of a break,
// whether it has a box, and its classes, each from its first note on.
#[derive(Clone, Copy, PartialEq, Eq, Debug)]
pub struct PageSoFar {
    pub goal: i64,
    pub sums: Sums,
    pub notes: i32,
    pub boxes: bool,
    pub classes: [Option<ClassSoFar>; 8],
}

// What goes on the page of a note: its height, what it adds to the cost of a break, and, where the note is split,
// how many of its items stand before the break. Its bounds are no facts of the type, since the definitions make one of
// any content.
#[derive(Clone, Copy, PartialEq, Eq, Debug)]
pub struct Taken {
    pub height: i64,
    pub adds: i32,
    pub broken: Option<usize>,
}

impl Ground {
    // What counts for a class, declared or not.
    fn rules(&self, class: usize) -> Class
        requires { class < 8 }
        ensures { result ≡ rules_of self.now class }
    {
        self.classes[class].unwrap_or_default()
    }
}

impl PageSoFar {
    // A fresh page: what an empty list gives.
    pub fn new(basis: &Ground) -> PageSoFar
        ensures { result ≡ fresh basis.now }
    {
        PageSoFar {
            goal: basis.settings.size as i64,
            sums: Sums::new(),
            notes: 0,
            boxes: false,
            classes: [None; 8],
        }
    }

    // A page's first box stands at least `top` below the page's edge.
    fn lead(&mut self, settings: Settings, height: u32)
        requires { unsigned_abs self.old.sums.total < 2 ^ 59 }
        ensures { self.new ≡ with_sums self.old (with_lead settings self.old height) }
    {
        if !self.boxes {
            self.sums.total += settings.top.saturating_sub(height) as i64;
        }
    }

    fn add_box(&mut self, settings: Settings, height: u32, depth: u32)
        requires total { unsigned_abs self.old.sums.total < 2 ^ 59 }
        requires roomy { Roomy self.old.sums }
        requires within { within_limits (Box height depth) ≡ true }
        ensures { self.new ≡ with_box settings self.old height depth }
    {
        self.lead(settings, height);
        self.boxes = true;
        self.sums.add(Item::Box { height, depth }, settings.depth);
    }

    fn add_text(&mut self, settings: Settings, item: Item)
        requires roomy { Roomy self.old.sums }
        requires within { within_limits item ≡ true }
        ensures { self.new ≡ with_text settings self.old item }
    {
        self.sums.add(item, settings.depth);
    }

    // The item of a number joins the page, where the numbers are low. Table and number stay apart, as the table is lent at
    // each call.
    fn put(&mut self, basis: &Ground, rows: &[Row], x: u32)
        requires table { WellFormed rows.now }
        requires short { length rows.now ≤ 16384 }
        requires arriving { Arriving rows.now x }
        requires ready { Ready basis.now rows.now self.old x }
        ensures { self.new ≡ next basis.now rows.now self.old x }
    {
        let item = rows[x as usize - 1].item;
        match item {
            Item::Box { height, depth } => self.add_box(basis.settings, height, depth),
            Item::Note { class, .. } => {
                self.begin(basis, class as usize);
                self.arrive(basis, class as usize, x, left(rows, x));
            }
            _ => self.add_text(basis.settings, item),
        }
    }

    // The item or note of a number joins the page: what a list gives becomes what the list with it gives.
    #[tactic(auto, using(crate::proofs::Pages::so_far_next))]
    pub fn add(&mut self, basis: &Ground, rows: &[Row], x: u32)
        requires standing { (page : List ℕ) × Standing basis.now rows.now page self.old }
        requires arriving { Arriving rows.now x }
        ensures { (page : List ℕ) → self.old ≡ so_far basis.now rows.now page → self.new ≡ so_far basis.now rows.now (page ++ x ∷ []) }
    {
        self.put(basis, rows, x);
    }
}
