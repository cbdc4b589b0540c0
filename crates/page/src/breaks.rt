// Where the current page may break, and its best break.
ghost use Rattle.std.specs.Prelude.{◌≡◌, ◌^◌, ◌<◌, ◌≤◌, Bool, false, ◌||◌, map, length, ◌<ℤ◌, Some, MatchOption, unsigned_abs};
ghost use Rattle.std.specs.List.{AllByRecursion};
ghost use Rattle.std.specs.Option.{is_none};
ghost use Rattle.items.specs.declared.Item.{Item};
ghost use Rattle.items.specs.Items.{is_box, is_note};
ghost use Rattle.items.specs.Table.{items_at};
ghost use Rattle.cost.specs.Cost.{forbidden};
ghost use Rattle.cost.specs.Least.{best_of, is_over};
ghost use Rattle.notes.specs.Break.{last_is};
ghost use Rattle.page.specs.declared.Ground.{Ground};
ghost use Rattle.page.specs.Standing.{Inside, Standing};
ghost use Rattle.page.specs.Breaks.{empty, last_note, break_here, best_with, fires_with, penalty_here};

use crate::{ClassSoFar, PageSoFar};
use cost::break_cost;
use cost::least::{Costed, weigh};
use items::{FORBIDDEN, Item, Row};
use notes::penalty_before;
use std::ops::ControlFlow;

// A candidate of a page: how many of its items stand before it, what it costs, and what is remembered of it, the
// page's goal and each class's last note.
#[derive(Clone, Copy, PartialEq, Eq, Debug)]
pub struct PageBreak {
    pub place: usize,
    pub cost: i64,
    pub goal: i64,
    pub last: [Option<u32>; 8],
}

// What follows the page, as far as a place looks: the next item and the one after it, nothing yet, or a closed book's
// end.
#[derive(Clone, Copy, PartialEq, Eq, Debug)]
pub enum Ahead {
    Items { next: Item, after: Option<Item> },
    Waiting,
    End,
}

impl Costed for PageBreak {
    ghost price = { λ b. b.cost };

    fn cost(&self) -> i64 {
        self.cost
    }
}

// After a box or a note, glue is a candidate.
fn is_solid(item: Item) -> bool
    ensures { result ≡ (is_box item || is_note item) }
{
    item.is_box() || item.is_note()
}

// The page's last item. Page and rows stay apart, as both are lent at each call.
#[tactic(auto, using(crate::proofs::Lasts::last_is_item))]
fn last_item(page: &[u32], rows: &[Row]) -> Option<Item>
    requires numbers { AllByRecursion (Inside rows.now) page.now }
    requires short { length rows.now ≤ 16384 }
    ensures vacant { is_none result ≡ empty (items_at rows.now page.now) }
    ensures last { (p : Item → Bool) → MatchOption result (last_is p (items_at rows.now page.now) ≡ false) (λ y. last_is p (items_at rows.now page.now) ≡ p y) }
{
    let x = *page.last()?;
    Some(rows[x as usize - 1].item)
}

// A class's last note.
fn last_note(class: Option<ClassSoFar>) -> Option<u32>
    ensures { result ≡ last_note class }
{
    Some(class?.last)
}

// The classes' last notes.
fn last_notes(classes: [Option<ClassSoFar>; 8]) -> [Option<u32>; 8]
    ensures { result ≡ map last_note classes }
{
    classes.map(last_note)
}

impl PageSoFar {
    // The penalty of the place between the page and what follows it, if a break may be there.
    pub fn penalty(&self, page: &[u32], rows: &[Row], ahead: Ahead) -> Option<i32>
        requires numbers { AllByRecursion (Inside rows.now) page.now }
        requires short { length rows.now ≤ 16384 }
        ensures { result ≡ penalty_here self.now rows.now page.now ahead }
    {
        let last = last_item(page, rows);
        let solid = last.is_some_and(is_solid);
        match ahead {
            Ahead::End if last.is_some() => Some(-FORBIDDEN),
            Ahead::Items { next, after } if self.boxes => {
                penalty_before(solid, next, after.is_some_and(Item::is_glue))
            }
            Ahead::Items { next, .. } if next.is_box() && last.is_some() => Some(0),
            _ => None,
        }
    }

    // The break after the page's items, with a penalty.
    fn break_here(&self, place: usize, penalty: i32) -> PageBreak
        requires goal { unsigned_abs self.now.goal < 2 ^ 62 }
        requires total { unsigned_abs self.now.sums.total < 2 ^ 62 }
        ensures { result ≡ break_here self.now place penalty }
    {
        PageBreak {
            place,
            cost: break_cost(self.sums.fit(self.goal), penalty, self.notes),
            goal: self.goal,
            last: last_notes(self.classes),
        }
    }

    // The best of the breaks so far and the one with this penalty: `Break` where that one fires the page.
    #[tactic(auto, using(cost::proofs::Costs::cost_most))]
    fn weigh(
        &self,
        place: usize,
        penalty: i32,
        best: Option<PageBreak>,
    ) -> ControlFlow<PageBreak, Option<PageBreak>>
        requires goal { unsigned_abs self.now.goal < 2 ^ 62 }
        requires total { unsigned_abs self.now.sums.total < 2 ^ 62 }
        requires allowed { penalty <ℤ forbidden }
        ensures best { best_of result ≡ best_with self.now place best (Some penalty) }
        ensures fires { is_over result ≡ fires_with self.now place (Some penalty) }
    {
        let here = self.break_here(place, penalty);
        weigh(best, here, penalty)
    }

    // Looks at the place between the page and what follows it: the best break so far, as a `Break` where
    // the page fires.
    #[tactic(auto, using(crate::proofs::Bounds::standing_goal, crate::proofs::Bounds::standing_total, crate::proofs::Candidates::penalty_allowed))]
    pub fn look(
        &self,
        page: &[u32],
        rows: &[Row],
        ahead: Ahead,
        best: Option<PageBreak>,
    ) -> ControlFlow<PageBreak, Option<PageBreak>>
        requires { (basis : Ground) × Standing basis rows.now page.now self.now }
        ensures best { best_of result ≡ best_with self.now (length page.now) best (penalty_here self.now rows.now page.now ahead) }
        ensures fires { is_over result ≡ fires_with self.now (length page.now) (penalty_here self.now rows.now page.now ahead) }
    {
        match self.penalty(page, rows, ahead) {
            Some(penalty) => self.weigh(page.len(), penalty, best),
            None => ControlFlow::Continue(best),
        }
    }
}
