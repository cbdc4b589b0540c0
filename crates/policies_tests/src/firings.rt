// Drives a policy through a list of firings.
ghost use Rattle.std.specs.Prelude.{◌≡◌, ◌+◌, ◌^◌, ◌<◌, ◌≤◌, [], length};

use policies::{FiredPage, Policy, Verdict};
use samples::check;
use std::array;
use std::test::Fail;

// `body` items are fired while each shelf has `shelved`.
#[derive(Clone, Copy)]
pub(crate) struct Firing {
    body: usize,
    shelved: u32,
    verdict: Verdict,
}

// The first `shipped` of what was held and the body are to ship, `held` to be held, and every class or none ships.
pub(crate) fn fire(
    body: usize,
    shelved: u32,
    shipped: usize,
    held: usize,
    classes: bool,
) -> Firing {
    Firing {
        body,
        shelved,
        verdict: Verdict {
            shipped,
            held,
            classes: [classes; 8],
        },
    }
}

// The numbers from 1 on.
fn numbers() -> [u32; 2048] {
    array::from_fn(|i| i as u32 + 1)
}

// The items held are the last of those fired.
fn check_held<P: Policy>(policy: &P, held: usize, fired: &[u32]) -> Result<(), Fail>
    requires { length (P.Policy.held policy.now) < 2 ^ 64 }
{
    check(policy.held_count() == held, "how many are held")?;
    check(held <= fired.len(), "no more are held than fired")?;
    let last = &fired[fired.len() - held..];
    let mut places = last.iter().enumerate();
    check(
        places.all(|(k, &item)| policy.held_at(k) == Some(item)),
        "the items held",
    )
}

// The last of those fired are the body. Nothing is ever returned, so all that was held and fired ships or is held.
fn check_firing<P: Policy>(policy: &mut P, firing: Firing, fired: &[u32]) -> Result<(), Fail>
    requires body { firing.body ≤ length fired.now }
    requires few { length (P.Policy.held policy.old) + firing.body ≤ 16384 }
    ensures { length (P.Policy.held policy.new) ≤ length (P.Policy.held policy.old) + firing.body }
{
    let all = policy.held_count() + firing.body;
    let verdict = policy.judge(FiredPage {
        body: &fired[fired.len() - firing.body..],
        shelved: &[firing.shelved; 8],
        penalty: 10_000,
        rows: &[],
    });
    check(verdict == firing.verdict, "the verdict")?;
    check(
        verdict.shipped + verdict.held == all,
        "how many are returned",
    )?;
    check_held(policy, verdict.held, fired)
}

pub(crate) fn drive<P: Policy + Drop>(mut policy: P, firings: &[Firing]) -> Result<(), Fail>
    requires { P.Policy.held policy ≡ [] }
{
    let numbers = numbers();
    let mut fired = 0;
    for firing in firings {
        check(firing.body <= 2048 - fired, "as many numbers as there are")?;
        fired += firing.body;
        check_firing(&mut policy, *firing, &numbers[..fired])?;
    }
    let held = policy.held_count();
    check(policy.release() == held, "how many are released")?;
    check(policy.held_count() == 0, "what is held after a release")
}
