// How the limiter judges.
ghost use Rattle.std.specs.Prelude.{◌≡◌, ◌+◌, ◌^◌, ◌<◌, ◌≤◌, [], length, MatchResult, ◌==◌, nat_lt};
ghost use Rattle.items.specs.declared.refusals.Cause.TheVariants.{Limits};
ghost use Rattle.items.specs.Refusals.{of_the_whole};
ghost use Rattle.policies.specs.Policies.{named, held_by_limited, LimitedRule};

use super::Limited;
use crate::{FiredPage, Policy, Verdict};
use items::refusals::{Cause, Refusal};

// Whether one of the named classes has an item on its shelf.
fn names_items(classes: &[bool; 8], shelved: &[u32; 8]) -> bool
    ensures { result ≡ nat_lt 0 (named classes.now shelved.now) }
{
    classes
        .iter()
        .zip(shelved)
        .any(|(&ships, &count)| ships && count > 0)
}

// Whether neither body text nor shelf content ships.
fn ships_nothing(verdict: &Verdict, shelved: &[u32; 8]) -> bool
    ensures { result ≡ (verdict.now.shipped + named verdict.now.classes shelved.now == 0) }
{
    verdict.shipped == 0 && !names_items(&verdict.classes, shelved)
}

impl<P: Policy + Drop> Limited<P> {
    // At most `bound` settlings in a row may ship nothing. It is 1 to 100, or refused.
    pub fn new(below: P, bound: u32) -> Result<Limited<P>, Refusal>
        ensures made_from_1_to_100 { MatchResult result (λ l. (1 ≤ bound) × (bound ≤ 100) × (l.below ≡ below) × (l.count ≡ 0) × (l.bound ≡ bound)) (λ e. (1 ≤ bound → bound ≤ 100 → ⊥) × (e ≡ of_the_whole Limits)) }
    {
        if bound == 0 || bound > 100 {
            return Err(Cause::Limits.into());
        }
        Ok(Limited {
            below,
            count: 0,
            bound,
        })
    }
}

impl<P: Policy> Policy for Limited<P> {
    ghost held = { held_by_limited P.Policy.held P.Policy.rule };

    ghost rule = { LimitedRule P.Policy.held P.Policy.rule };

    #[tactic(auto, using(crate::proofs::Limiting::limiting))]
    fn judge(&mut self, page: FiredPage<'_>) -> Verdict {
        if self.count < self.bound {
            let verdict = self.below.judge(page);
            self.count = if ships_nothing(&verdict, page.shelved) {
                self.count + 1
            } else {
                0
            };
            verdict
        } else {
            let released = self.below.release();
            self.count = 0;
            Verdict::all(released + page.body.len(), [true; 8])
        }
    }

    // The count stays: it is of settlings, and this is none.
    fn release(&mut self) -> usize
        requires { length (P.Policy.held self.old.below) < 2 ^ 64 }
        ensures all_that_was_held { result ≡ length (P.Policy.held self.old.below) }
        ensures holds_nothing { P.Policy.held self.new.below ≡ [] }
        ensures counts_kept { (self.new.count ≡ self.old.count) × (self.new.bound ≡ self.old.bound) }
    {
        self.below.release()
    }

    fn held_count(&self) -> usize {
        self.below.held_count()
    }

    fn held_at(&self, k: usize) -> Option<u32> {
        self.below.held_at(k)
    }
}
