// Where a note breaks.
#![tactic(auto)]

ghost use Rattle.std.specs.Prelude.{◌≡◌, ◌+◌, ◌^◌, ◌<◌, ◌≤◌, length, take, drop, pos, ◌+ℤ◌, ◌<ℤ◌, ◌≤ℤ◌, Some, unsigned_abs};
ghost use Rattle.items.specs.Items.{most, is_box, is_glue, items_of};
ghost use Rattle.cost.specs.Cost.{forbidden};
ghost use Rattle.cost.specs.Least.{least};
ghost use Rattle.notes.specs.Break.{last_is, first_is, penalty_before, note_penalty, break_with, ends, break_of};
ghost use Rattle.notes.specs.Walk.{Summed, Walked, Found, LookedAt};

pub mod column;
pub mod content;
pub mod split;

pub use column::Column;
use content::Content;
use cost::break_cost;
use cost::least::{Costed, least, weigh};
use cost::sums::Sums;
use items::{FORBIDDEN, Item};
use std::ops::ControlFlow;

// A break of a note's content: how many items stand before it, how high they are, the penalty there and
// what the break costs.
#[derive(Clone, Copy, PartialEq, Eq, Debug, Default)]
pub struct NoteBreak {
    pub place: usize,
    pub height: i64,
    pub penalty: i32,
    pub cost: i64,
}

impl Costed for NoteBreak {
    ghost price = { λ b. b.cost };

    fn cost(&self) -> i64 {
        self.cost
    }
}

// How high the items before a break are, with what hangs below the last of them.
fn height_of(before: &Sums) -> i64
    requires { unsigned_abs before.now.total < 2 ^ 62 }
    ensures { result ≡ before.now.total +ℤ pos before.now.depth }
{
    before.total + before.depth as i64
}

impl NoteBreak {
    fn at(place: usize, before: &Sums, column: Column, penalty: i32) -> NoteBreak
        requires total { unsigned_abs before.now.total < 2 ^ 62 }
        requires allowed { penalty <ℤ forbidden }
        ensures break_there { result ≡ break_with column.height place before.now penalty }
        ensures no_dearer { result.cost ≤ℤ pos most }
    {
        NoteBreak {
            place,
            height: height_of(before),
            penalty,
            cost: break_cost(before.fit(column.height), penalty, 0),
        }
    }
}

// The penalty of a break before an item, if one may be there.
pub fn penalty_before(after_box: bool, item: Item, before_glue: bool) -> Option<i32>
    ensures { result ≡ penalty_before after_box item before_glue }
{
    match item {
        Item::Glue { .. } if after_box => Some(0),
        Item::Kern { .. } if before_glue => Some(0),
        Item::Penalty { value } if value < FORBIDDEN => Some(value),
        _ => None,
    }
}

fn after_box(content: Content, place: usize) -> bool
    requires { place ≤ length content.rows.now }
    ensures { result ≡ last_is is_box (take place (items_of content.entry.rows.now)) }
{
    place > 0 && content.rows[place - 1].item.is_box()
}

fn before_glue(content: Content, place: usize) -> bool
    ensures { result ≡ first_is is_glue (drop place (items_of content.entry.rows.now)) }
{
    place < content.rows.len() && content.rows[place].item.is_glue()
}

// The penalty of the place before an item, if a break may be there.
fn penalty_at(content: Content, place: usize) -> Option<i32>
    requires { place < length content.rows.now }
    ensures { result ≡ note_penalty (take place (items_of content.entry.rows.now)) (drop place (items_of content.entry.rows.now)) }
{
    penalty_before(
        after_box(content, place),
        content.rows[place].item,
        before_glue(content, place + 1),
    )
}

// Adds the item at a place to the sums of those before it. What is searched, what for and where stay apart: a struct of
// them would be taken apart in each function.
fn pass(content: Content, place: usize, sums: &mut Sums, column: Column)
    requires place { place < length content.rows.now }
    requires summed { Summed (items_of content.rows.now) column place sums.old }
    ensures { Summed (items_of content.entry.rows.now) column (place + 1) sums.new }
{
    sums.add(content.rows[place].item, column.depth);
}

// Looks at the place before an item, where `before` are the sums of the items before it: `Break` with the note's
// break, or the best so far.
fn look(
    content: Content,
    place: usize,
    before: &Sums,
    best: Option<NoteBreak>,
    column: Column,
) -> ControlFlow<NoteBreak, Option<NoteBreak>>
    requires place { place < length content.rows.now }
    requires summed { Summed (items_of content.rows.now) column place before.now }
    requires walked { Walked (items_of content.rows.now) column place best }
    ensures { LookedAt content.entry.rows.now column place result }
{
    match penalty_at(content, place) {
        Some(penalty) => weigh(best, NoteBreak::at(place, before, column, penalty), penalty),
        None => ControlFlow::Continue(best),
    }
}

// Looks at the end, which ends the search.
fn look_at_end(
    content: Content,
    before: &Sums,
    best: Option<NoteBreak>,
    column: Column,
) -> NoteBreak
    requires summed { Summed (items_of content.rows.now) column (length content.rows.now) before.now }
    requires walked { Walked (items_of content.rows.now) column (length content.rows.now) best }
    ensures { Found content.entry.rows.now column result }
{
    least(
        best,
        NoteBreak::at(content.rows.len(), before, column, -FORBIDDEN),
    )
}

// The best break of a note's content.
pub fn break_note(content: Content, column: Column) -> NoteBreak
    ensures best { Some result ≡ break_of (items_of content.entry.rows.now) column.height column.depth }
    ensures place { result.place ≤ length content.entry.rows.now }
{
    let mut sums = Sums::new();
    let mut best = None;
    // By place: whether a break may be there depends on the items before and after it.
    for place in 0..content.rows.len() {
        let before = sums;
        pass(content, place, &mut sums, column);
        match look(content, place, &before, best, column) {
            ControlFlow::Break(found) => return found,
            ControlFlow::Continue(so_far) => best = so_far,
        }
    }
    look_at_end(content, &sums, best, column)
}
