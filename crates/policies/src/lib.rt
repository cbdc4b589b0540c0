// Page policies: what is shipped, held back or returned of each fired page.
#![tactic(auto)]

ghost use Rattle.std.specs.Prelude.{◌≡◌, ℕ, ◌+◌, ◌^◌, ◌<◌, ◌≤◌, List, [], length, slice_index, SomeIff};
ghost use Rattle.policies.specs.declared.Verdict.{Verdict};
ghost use Rattle.policies.specs.Policies.{Given, given, Splits};

pub mod footnoted;
pub mod limited;
pub mod paired;
pub mod plain;

use items::Row;

// What a policy answers of the items that it held and the body, joined: the first `shipped` of them ship, the
// next `held` are held from now on, and the rest is returned. Of each class it says whether its shelf ships.
#[derive(Clone, Copy, PartialEq, Eq, Debug)]
pub struct Verdict {
    pub shipped: usize,
    pub held: usize,
    pub classes: [bool; 8],
}

// What a policy judges: a fired body, with how many items lie on each shelf, the output penalty and the item table.
#[derive(Clone, Copy)]
pub struct FiredPage<'a> {
    pub body: &'a [u32],
    pub shelved: &'a [u32; 8],
    pub penalty: i32,
    pub rows: &'a [Row],
}

// A policy means the list of item numbers that it holds, and the rule by which it judges.
pub trait Policy {
    ghost held: { Self → List ℕ };

    ghost rule: { Self → Given → Verdict → Self → Type 0 };

    // Says what becomes of what is held and the body.
    fn judge(&mut self, page: FiredPage<'_>) -> Verdict
        requires { length (held self.old) + length page.body.now ≤ 16384 }
        ensures nothing_lost { Splits (held self.old) page.entry.body.now (held self.new) result }
        ensures by_its_rule { rule self.old (given page.entry) result self.new };

    // Lets go of all that is held, and answers how many items that is.
    fn release(&mut self) -> usize
        requires { length (held self.old) < 2 ^ 64 }
        ensures all_that_was_held { result ≡ length (held self.old) }
        ensures holds_nothing { held self.new ≡ [] };

    // How many items are held.
    fn held_count(&self) -> usize
        requires { length (held self.now) < 2 ^ 64 }
        ensures { result ≡ length (held self.now) };

    // The k-th item held, counted from 0, if so many are held.
    fn held_at(&self, k: usize) -> Option<u32>
        ensures { SomeIff result (k < length (held self.now)) (slice_index (held self.now) k) };
}

impl Verdict {
    // All of `count` items ship, with these classes.
    #[tactic(auto, using(crate::proofs::Splitting::all_ships))]
    fn all(count: usize, classes: [bool; 8]) -> Verdict
        ensures answer { (result.shipped ≡ count) × (result.held ≡ 0) × (result.classes ≡ classes) }
        ensures splits { (before body : List ℕ) → length before + length body ≡ count → Splits before body [] result }
    {
        Verdict {
            shipped: count,
            held: 0,
            classes,
        }
    }
}
