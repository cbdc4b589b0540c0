// How pairing judges.
ghost use Rattle.std.specs.Prelude.{◌≡◌, ◌≤◌, [], ◌++◌, length, take};
ghost use Rattle.policies.specs.Policies.{column_of, held_by_paired, PairedRule};

use super::Paired;
use crate::{FiredPage, Policy, Verdict};
use arrayvec::ArrayVec;

// Puts the first 512 items held below into the column if it is empty, since judging below may let go of them.
// By place, since what is held below is asked by place.
#[tactic(auto, using(crate::proofs::Pairing::begun))]
fn begin<P: Policy>(column: &mut ArrayVec<u32, 512>, below: &P)
    requires { length (P.Policy.held below.now) ≤ 16384 }
    ensures { length column.old.items ≡ 0 → column.new.items ≡ take 512 (P.Policy.held below.now) }
{
    if !column.is_empty() {
        return;
    }
    for k in 0..below.held_count().min(512) {
        column.push(below.held_at(k).unwrap());
    }
}

// Leaves in the column the first `count` of what it has and the body.
#[tactic(auto, using(crate::proofs::Pairing::taken))]
fn fill(column: &mut ArrayVec<u32, 512>, body: &[u32], count: usize)
    requires { count ≤ 512 }
    ensures { column.new.items ≡ take count (column.old.items ++ body.now) }
{
    column.truncate(count);
    let missing = (count - column.len()).min(body.len());
    let _fits = column.try_extend_from_slice(&body[..missing]);
}

impl<P: Policy> Paired<P> {
    // No column is set aside yet.
    pub fn new(below: P) -> Paired<P>
        ensures below { result.below ≡ below }
        ensures no_column { column_of P.Policy.held P.Policy.rule result ≡ [] }
    {
        Paired {
            below,
            column: ArrayVec::new(),
        }
    }
}

impl<P: Policy> Policy for Paired<P> {
    ghost held = { held_by_paired P.Policy.held P.Policy.rule };

    ghost rule = { PairedRule P.Policy.held P.Policy.rule };

    #[tactic(auto, using(crate::proofs::Pairing::pairing))]
    fn judge(&mut self, page: FiredPage<'_>) -> Verdict {
        let column = self.column.len();
        begin(&mut self.column, &self.below);
        let verdict = self.below.judge(page);
        match verdict.shipped {
            1..=512 if column == 0 => {
                fill(&mut self.column, page.body, verdict.shipped);
                Verdict {
                    shipped: 0,
                    held: verdict.shipped + verdict.held,
                    classes: [false; 8],
                }
            }
            shipped => {
                self.column.clear();
                Verdict {
                    shipped: column + shipped,
                    ..verdict
                }
            }
        }
    }

    fn release(&mut self) -> usize {
        let released = self.column.len() + self.below.release();
        self.column.clear();
        released
    }

    fn held_count(&self) -> usize {
        self.column.len() + self.below.held_count()
    }

    fn held_at(&self, k: usize) -> Option<u32> {
        let len = self.column.len();
        if k < len {
            Some(self.column[k])
        } else {
            self.below.held_at(k - len)
        }
    }
}
