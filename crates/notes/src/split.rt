// A long note split to a list of wanted heights.
ghost use Rattle.std.specs.Prelude.{◌≡◌, ◌+◌, ◌<◌, ◌≤◌, length, take, IfOk, Some};
ghost use Rattle.std.specs.List.{prefix_len};
ghost use Rattle.items.specs.Items.{items_of, is_discardable};
ghost use Rattle.notes.specs.Split.{end_of, part_from, InOrder, OnlyDiscardable, split_refusal, SplitInto, Answered};

use crate::column::Column;
use crate::content::Content;
use crate::{NoteBreak, break_note};
use items::refusals::{Cause, Refusal};
use items::runs::{Discardable, content_refusal, leading};
use items::{MOST, MOST_ROWS, Row};

// One part of a note that is split: the items from `first` up to the break `cut` are its piece, and the `dropped`
// items after them are in no piece. Items are counted from 0, and the break's place from `first`.
#[derive(Clone, Copy, PartialEq, Eq, Debug, Default)]
pub struct Part {
    pub first: usize,
    pub cut: NoteBreak,
    pub dropped: usize,
}

// How many parts there are in the table that is lent for them, and where what none of them has begins.
#[derive(Clone, Copy, PartialEq, Eq, Debug)]
pub struct Split {
    pub count: usize,
    pub rest: usize,
}

// How many items can be dropped, up to a box.
fn discardable(content: Content) -> usize
    ensures count { result ≡ prefix_len is_discardable (items_of content.entry.rows.now) }
    ensures bound { result ≤ length content.entry.rows.now }
{
    leading(&Discardable, content.rows)
}

// The part that the best break splits off the items from `first` on.
#[tactic(auto, using(crate::proofs::Rests::part_splits))]
pub fn split_off(content: Content, first: usize, column: Column) -> Part
    requires { first ≤ length content.rows.now }
    ensures part { Some result ≡ part_from (items_of content.entry.rows.now) column.height column.depth first }
    ensures end { end_of result ≤ length content.entry.rows.now }
{
    let cut = break_note(content.rest(first), column);
    let dropped = discardable(content.rest(first + cut.place));
    Part {
        first,
        cut,
        dropped,
    }
}

// Splits parts off, one for each wanted height, while items are left. By index: of what is written through `iter_mut` a
// proof knows only the length.
fn split_all(content: Content, wanted: &[i32], depth: u32, parts: &mut [Part]) -> Split
    requires room { length wanted.now ≤ length parts.old }
    ensures split { SplitInto (items_of content.entry.rows.now) wanted.now depth parts.old parts.new result }
    ensures bounds { (result.count ≤ length wanted.now) × (result.rest ≤ length content.entry.rows.now) }
{
    let mut rest = 0;
    for (count, height) in wanted.iter().enumerate() {
        if rest == content.rows.len() {
            return Split { count, rest };
        }
        let height = i64::from(*height);
        let part = split_off(content, rest, Column { height, depth });
        parts[count] = part;
        rest = part.first + part.cut.place + part.dropped;
    }
    Split {
        count: wanted.len(),
        rest,
    }
}

// What is refused of a note and of the tables lent for its parts, if anything. An Option, as what is refused of content is.
fn split_refusal(rows: &[Row], heights: usize, depth: u32, room: usize) -> Option<Refusal>
    ensures { result ≡ split_refusal (items_of rows.now) heights depth room }
{
    if rows.len() > MOST_ROWS || depth > MOST || room < heights {
        Some(Cause::Limits.into())
    } else if rows.is_empty() {
        Some(Cause::NoContent.into())
    } else {
        content_refusal(rows)
    }
}

// The parts of a note's content for a list of wanted heights, in the table `parts`, or what is refused of it.
#[tactic(auto, using(crate::proofs::Accepted::accepted_rows, crate::proofs::Accepted::short_rows, crate::proofs::Accepted::split_in_order))]
pub fn split_note(
    rows: &[Row],
    wanted: &[i32],
    depth: u32,
    parts: &mut [Part],
) -> Result<Split, Refusal>
    ensures answered { Answered (items_of rows.now) wanted.now depth parts.old parts.new result }
    ensures bounds { IfOk result (λ s. (s.count ≤ length wanted.now) × (s.rest ≤ length rows.now)) }
    ensures each_once_and_in_order { IfOk result (λ s. InOrder 0 (length rows.now) (take s.count parts.new)) }
    ensures only_discardable_dropped { IfOk result (λ s. OnlyDiscardable (items_of rows.now) (take s.count parts.new)) }
{
    if let Some(refusal) = split_refusal(rows, wanted.len(), depth, parts.len()) {
        return Err(refusal);
    }
    Ok(split_all(Content { rows }, wanted, depth, parts))
}
