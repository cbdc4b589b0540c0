// The law over lists of calls, for every policy.
ghost use Rattle.std.specs.Prelude.{ℕ};
ghost use Rattle.calls.specs.Findings.{NothingLost, DoneInTime, NothingLeft};

use policies::Policy;

// Over tables of any size: nothing is lost under a policy; and where a limiter stands above it, done comes in time
// after the close, and nothing is left then. There is nothing to run: the contract is the law.
pub fn law_of_calls<P: Policy>(_policy: &P)
    ensures nothing_lost { (capacity : ℕ) → NothingLost capacity P.Policy.held P.Policy.rule }
    ensures done_in_time { (capacity : ℕ) → DoneInTime capacity P.Policy.held P.Policy.rule }
    ensures nothing_left { (capacity : ℕ) → NothingLeft capacity P.Policy.held P.Policy.rule }
{}
