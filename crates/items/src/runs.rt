// How many entries at the front of a list of items pass a test, written once for every test, and for items and
// rows of the item table alike.
ghost use Rattle.std.specs.Prelude.{◌≡◌, Bool, not, map};
ghost use Rattle.items.specs.declared.Item.{Item};
ghost use Rattle.items.specs.Items.{is_note, is_discardable, within_limits};
ghost use Rattle.items.specs.Refusals.{refused_after, content_refusal};
ghost use Rattle.std.specs.List.{prefix_len};

use crate::refusals::{Cause, Refusal};
use crate::{Item, Row};

// What has an item: an item itself, or a row of the table.
pub trait Itemed {
    ghost item_in: { Self → Item };

    fn item(&self) -> Item
        ensures { result ≡ item_in self.now };
}

impl Itemed for Item {
    ghost item_in = { λ x. x };

    fn item(&self) -> Item {
        *self
    }
}

impl Itemed for Row {
    ghost item_in = { λ r. r.item };

    fn item(&self) -> Item {
        self.item
    }
}

// A test on items: a trait and not a closure, since clauses speak of what the test holds of.
pub trait Test {
    ghost holds: { Item → Bool };

    fn passes(&self, item: Item) -> bool
        ensures { result ≡ holds item };
}

pub struct Discardable;

pub struct NoNote;

pub struct WithinLimits;

impl Test for Discardable {
    ghost holds = { is_discardable };

    fn passes(&self, item: Item) -> bool {
        item.is_discardable()
    }
}

impl Test for NoNote {
    ghost holds = { λ x. not (is_note x) };

    fn passes(&self, item: Item) -> bool {
        !item.is_note()
    }
}

impl Test for WithinLimits {
    ghost holds = { within_limits };

    fn passes(&self, item: Item) -> bool {
        item.within_limits()
    }
}

// How many rows at the front pass a test.
pub fn leading<T: Test, R: Itemed>(test: &T, rows: &[R]) -> usize
    ensures { result ≡ prefix_len T.Test.holds (map R.Itemed.item_in rows.now) }
{
    rows.iter()
        .map(|row| row.item())
        .take_while(|item| test.passes(*item))
        .count()
}

// A refusal at the entry after the first `passed`, if there is one; else what is refused otherwise.
fn refused_after<R: Itemed>(
    cause: Cause,
    passed: usize,
    rows: &[R],
    otherwise: Option<Refusal>,
) -> Option<Refusal>
    ensures { result ≡ refused_after cause passed (map R.Itemed.item_in rows.now) otherwise }
{
    if passed < rows.len() {
        Some(Refusal {
            cause,
            offset: passed + 1,
        })
    } else {
        otherwise
    }
}

// What is refused of a note's content, if anything: a note in it, and then a value outside its limits. An Option and no
// Result: it is asked what would be refused, and nothing is tried.
pub fn content_refusal<R: Itemed>(rows: &[R]) -> Option<Refusal>
    ensures { result ≡ content_refusal (map R.Itemed.item_in rows.now) }
{
    let value = refused_after(Cause::Value, leading(&WithinLimits, rows), rows, None);
    refused_after(Cause::Nested, leading(&NoNote, rows), rows, value)
}
