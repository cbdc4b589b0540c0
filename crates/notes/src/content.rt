// What is left of a note.
ghost use Rattle.std.specs.Prelude.{◌≡◌, ◌≤◌, length, drop};
ghost use Rattle.std.proofs.Props.{props};
ghost use Rattle.items.specs.Items.{items_of};
ghost use Rattle.notes.specs.Break.{Within};

use items::Row;

// The rows of a note's items: their values are within their limits, and there are no more than a table has.
#[derive(Clone, Copy)]
pub struct Content<'a> {
    pub rows: &'a [Row],
    ghost within: { Within (items_of rows.now) } by { Prim.hlevel props },
    ghost short: { length rows.now ≤ 16384 },
}

impl<'a> Content<'a> {
    // The content from an item on, counted from 0.
    #[tactic(auto, using(crate::proofs::Rests::rest_within, crate::proofs::Rests::rest_short))]
    pub fn rest(self, first: usize) -> Content<'a>
        requires { first ≤ length self.rows.now }
        ensures { result.rows.now ≡ drop first self.entry.rows.now }
    {
        Content {
            rows: &self.rows[first..],
        }
    }
}
