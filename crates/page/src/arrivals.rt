// A note's arrival on the page.
ghost use Rattle.std.specs.Prelude.{◌≡◌, ◌*◌, ◌^◌, ◌<◌, ◌≤◌, length, Some, unsigned_abs};
ghost use Rattle.items.specs.Items.{items_of};
ghost use Rattle.items.specs.Table.{WellFormed};
ghost use Rattle.page.specs.PageSoFar.{sizes, rules_of, height_of, items_left, all_of, part_of, joined_by, lowered, dearer, begins, begin, floats, takes, room_on, room_in, fits_page, fits_class, wanted, break_for, with_note};
ghost use Rattle.page.specs.Low.{Low};
ghost use Rattle.page.specs.Standing.{Arriving};

use crate::{ClassSoFar, Ground, PageSoFar, Taken};
use items::{Item, Row};
use notes::column::Column;
use notes::content::Content;
use notes::{NoteBreak, break_note};

// What is left of a note.
pub(crate) fn left(rows: &[Row], x: u32) -> Content<'_>
    requires table { WellFormed rows.now }
    requires short { length rows.now ≤ 16384 }
    requires arriving { Arriving rows.now x }
    ensures { items_of result.rows.now ≡ items_left rows.now x }
{
    let row = rows[x as usize - 1];
    let Item::Note { count, .. } = row.item else {
        return Content { rows: &rows[0..0] };
    };
    let first = x as usize + row.spent as usize;
    Content {
        rows: &rows[first..x as usize + count as usize],
    }
}

// How far a note's content reaches along the page.
fn size_of(content: Content) -> i64
    ensures size { result ≡ sizes (items_of content.entry.rows.now) }
    ensures bound { unsigned_abs result < 2 ^ 47 }
{
    content.rows.iter().map(|row| row.item.size()).sum()
}

// What stands before a note's break.
impl From<NoteBreak> for Taken {
    ghost from_gives = { λ cut taken. taken ≡ part_of cut };

    fn from(cut: NoteBreak) -> Taken {
        Taken {
            height: cut.height,
            adds: cut.penalty,
            broken: Some(cut.place),
        }
    }
}

impl Taken {
    // All of a note.
    fn whole(content: Content) -> Taken
        ensures taken { result ≡ all_of (items_of content.entry.rows.now) }
        ensures bound { unsigned_abs result.height < 2 ^ 47 }
    {
        Taken {
            height: size_of(content),
            adds: 0,
            broken: None,
        }
    }

    // The class that was so high, with one more note, its last.
    fn joins(self, height: i64, x: u32) -> ClassSoFar
        requires before { unsigned_abs height < 3 * 2 ^ 60 }
        requires height { unsigned_abs self.height < 2 ^ 47 }
        ensures { result ≡ joined_by height x self }
    {
        ClassSoFar {
            height: height + self.height,
            last: x,
            broken: self.broken,
        }
    }
}

// The page's base and a class stay apart: a struct of the two could keep only that the class is below 8, as all else
// that `Low` asks is of the page too. Bounds are asked in clauses and not kept in the type, since the definitions give
// such numbers for any list.
impl PageSoFar {
    // How high a class is so far: before its first note, what lies on its shelf.
    fn height(&self, basis: &Ground, class: usize) -> i64
        requires { class < 8 }
        ensures { result ≡ height_of basis.now self.now class }
    {
        self.classes[class].map_or(basis.shelved[class], |class| class.height)
    }

    // What lies on a class's shelf, and the skip, go off the goal.
    fn reserve(&mut self, basis: &Ground, class: usize)
        requires { Low basis.now self.old class }
        ensures { self.new ≡ begins basis.now self.old class }
    {
        self.goal -= basis.shelved[class] + basis.rules(class).skip as i64;
    }

    // Makes room for a class, where the note that arrives is its first.
    pub(crate) fn begin(&mut self, basis: &Ground, class: usize)
        requires { Low basis.now self.old class }
        ensures { self.new ≡ begin basis.now self.old class }
    {
        if self.classes[class].is_none() {
            self.reserve(basis, class);
        }
    }

    // A note of a split class only costs.
    fn floats(&mut self, basis: &Ground, class: usize)
        requires { Low basis.now self.old class }
        ensures { self.new ≡ floats basis.now self.old class }
    {
        self.notes += basis.rules(class).floating as i32;
    }

    fn lower(&mut self, taken: Taken)
        requires goal { unsigned_abs self.old.goal < 3 * 2 ^ 60 }
        requires height { unsigned_abs taken.height < 2 ^ 47 }
        ensures { self.new ≡ lowered self.old taken.height }
    {
        self.goal -= taken.height;
    }

    fn charge(&mut self, taken: Taken)
        requires notes { unsigned_abs self.old.notes < 2 ^ 30 }
        requires adds { unsigned_abs taken.adds ≤ 10000 }
        ensures { self.new ≡ dearer self.old taken.adds }
    {
        self.notes += taken.adds;
    }

    // A note becomes its class's last.
    fn takes(&mut self, basis: &Ground, class: usize, x: u32, taken: Taken)
        requires low { Low basis.now self.old class }
        requires height { unsigned_abs taken.height < 2 ^ 47 }
        requires adds { unsigned_abs taken.adds ≤ 10000 }
        ensures { self.new ≡ takes basis.now self.old class x taken }
    {
        let joined = taken.joins(self.height(basis, class), x);
        self.lower(taken);
        self.charge(taken);
        self.classes[class] = Some(joined);
    }

    // The room between what the page has and its goal.
    fn room(&self) -> i64
        requires goal { unsigned_abs self.now.goal < 3 * 2 ^ 60 }
        requires total { unsigned_abs self.now.sums.total < 2 ^ 59 }
        ensures room { result ≡ room_on self.now }
        ensures bound { unsigned_abs result < 2 ^ 62 }
    {
        self.goal - self.sums.total - self.sums.depth as i64
    }

    // Whether the page has room for all of a note, if need be by shrinking.
    fn fits_page(&self, whole: Taken) -> bool
        requires goal { unsigned_abs self.now.goal < 3 * 2 ^ 60 }
        requires total { unsigned_abs self.now.sums.total < 2 ^ 59 }
        requires shrink { self.now.sums.shrink < 2 ^ 62 }
        ensures { result ≡ fits_page self.now whole.height }
    {
        whole.height <= 0 || whole.height <= self.room() + self.sums.shrink as i64
    }

    // What a class has left of its limit.
    fn room_in(&self, basis: &Ground, class: usize) -> i64
        requires { Low basis.now self.now class }
        ensures room { result ≡ room_in (rules_of basis.now class) (height_of basis.now self.now class) }
        ensures bound { unsigned_abs result < 2 ^ 62 }
    {
        basis.rules(class).limit as i64 - self.height(basis, class)
    }

    // Whether a class has room for all of a note.
    fn fits_class(&self, basis: &Ground, class: usize, whole: Taken) -> bool
        requires low { Low basis.now self.now class }
        requires height { unsigned_abs whole.height < 2 ^ 47 }
        ensures { result ≡ fits_class (rules_of basis.now class) (height_of basis.now self.now class) whole.height }
    {
        self.height(basis, class) + whole.height <= basis.rules(class).limit as i64
    }

    // What a part of a note is to fill.
    fn column(&self, basis: &Ground, class: usize) -> Column
        requires { Low basis.now self.now class }
        ensures height { result.height ≡ wanted basis.now self.now class }
        ensures depth { result.depth ≡ (rules_of basis.now class).depth }
    {
        Column {
            height: self.room().min(self.room_in(basis, class)),
            depth: basis.rules(class).depth,
        }
    }

    // Where a note breaks that does not stay whole.
    fn break_for(&self, basis: &Ground, class: usize, content: Content) -> NoteBreak
        requires { Low basis.now self.now class }
        ensures best { Some result ≡ break_for basis.now self.now class (items_of content.entry.rows.now) }
        ensures height { unsigned_abs result.height < 2 ^ 47 }
        ensures penalty { unsigned_abs result.penalty ≤ 10000 }
    {
        break_note(content, self.column(basis, class))
    }

    // A note arrives, its class begun: it floats where its class is split, stays whole where there is room, and
    // is broken otherwise.
    pub(crate) fn arrive(&mut self, basis: &Ground, class: usize, x: u32, content: Content)
        requires { Low basis.now self.old class }
        ensures { self.new ≡ with_note basis.now self.old x class (items_of content.entry.rows.now) }
    {
        if self.classes[class].is_some_and(|class| class.broken.is_some()) {
            self.floats(basis, class);
            return;
        }
        let whole = Taken::whole(content);
        if self.fits_page(whole) && self.fits_class(basis, class, whole) {
            self.takes(basis, class, x, whole);
        } else {
            let cut = self.break_for(basis, class, content);
            self.takes(basis, class, x, cut.into());
        }
    }
}
