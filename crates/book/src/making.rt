// Making a book over lent tables.
ghost use Rattle.std.specs.Prelude.{◌≡◌, true, [], ◌∷◌, ◌++◌, map, length, nat_le};
ghost use Rattle.std.specs.List.{list_all};
ghost use Rattle.items.specs.Limits.{settings_within, declared_within};
ghost use Rattle.calls.specs.Making.{empty_book, tables_within};
ghost use Rattle.book.specs.View.{Contents, lent, lengths_of, book_of, Kept};
ghost use Rattle.book.specs.Calls.{Made};

use crate::{Open, Phase};
use calls::Page;
use items::refusals::{Cause, Refusal};
use items::{Class, MOST_ROWS, Piece, Row, Settings};
use queue::Queue;

// Eight things in an array: so are slices lent as shelves, since no array of them can be written down.
pub fn eight<T>(a: T, b: T, c: T, d: T, e: T, f: T, g: T, h: T) -> [T; 8]
    ensures { result ≡ a ∷ b ∷ c ∷ d ∷ e ∷ f ∷ g ∷ h ∷ [] }
{
    [a, b, c, d, e, f, g, h]
}

// Through `each_ref`: an array of slices lent as `&mut` is not covered as a slice itself.
fn shelves_reach(n: usize, shelves: &[&mut [Piece]; 8]) -> bool
    ensures reach { result ≡ list_all (nat_le n) (map length (map (λ s. s.now) shelves.now)) }
    ensures eight { length shelves.now ≡ 8 }
{
    shelves.each_ref().iter().all(|shelf| n <= shelf.len())
}

fn classes_within_limits(classes: &[Option<Class>; 8]) -> bool
    ensures within { result ≡ list_all declared_within classes.now }
    ensures eight { length classes.now ≡ 8 }
{
    classes
        .iter()
        .all(|class| class.is_none_or(|class| class.within_limits()))
}

// How long the tables beside the rows are.
fn other_lengths(
    contributions: &[u32],
    page: &[u32],
    waiting: &[u32],
    shipped: &[u32],
    pages: &[Page],
) -> [usize; 5]
    ensures { result ≡ length contributions.now ∷ length page.now ∷ length waiting.now ∷ length shipped.now ∷ length pages.now ∷ [] }
{
    [
        contributions.len(),
        page.len(),
        waiting.len(),
        shipped.len(),
        pages.len(),
    ]
}

fn others_reach(n: usize, others: [usize; 5]) -> bool
    ensures { result ≡ list_all (nat_le n) others }
{
    others.iter().all(|other| n <= *other)
}

// Whether there are 1 to 16,384 rows, and no other table or shelf is shorter.
fn tables_fit(rows: usize, others: [usize; 5], shelves: &[&mut [Piece]; 8]) -> bool
    ensures within { result ≡ tables_within rows (others ++ map length (map (λ s. s.now) shelves.now)) }
    ensures eight { result ≡ true → length shelves.now ≡ 8 }
{
    1 <= rows && rows <= MOST_ROWS && others_reach(rows, others) && shelves_reach(rows, shelves)
}

impl Open {
    fn new(settings: Settings, classes: [Option<Class>; 8]) -> Open
        requires settings { settings_within settings ≡ true }
        requires classes { list_all declared_within classes ≡ true }
        requires eight { length classes ≡ 8 }
        ensures empty { (t : Contents) → book_of result t ≡ empty_book settings classes }
        ensures kept { (t : Contents) → tables_within (length t.rows) (lengths_of t) ≡ true → length t.shelves ≡ 8 → Kept result t }
    {
        let none = Queue::new();
        Open {
            settings,
            classes,
            rows: 0,
            contributions: none,
            page: 0,
            best: None,
            shelves: [none; 8],
            shipped: 0,
            pages: 0,
            firings: 0,
            phase: Phase::Feeding,
        }
    }

    // An empty book over tables of 1 to 16,384 rows, none of the others shorter.
    pub fn make(
        settings: Settings,
        classes: [Option<Class>; 8],
        rows: &[Row],
        contributions: &[u32],
        page: &[u32],
        waiting: &[u32],
        shipped: &[u32],
        pages: &[Page],
        shelves: &[&mut [Piece]; 8],
    ) -> Result<Open, Refusal>
        ensures made { Made settings classes (lent rows.now contributions.now page.now waiting.now shipped.now pages.now (map (λ s. s.now) shelves.now)) result }
    {
        let others = other_lengths(contributions, page, waiting, shipped, pages);
        let fit = tables_fit(rows.len(), others, shelves);
        if !fit || !settings.within_limits() || !classes_within_limits(&classes) {
            return Err(Cause::Limits.into());
        }
        Ok(Open::new(settings, classes))
    }
}
