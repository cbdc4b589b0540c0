// A limit on how long a policy may hold everything back.
ghost use Rattle.std.specs.Prelude.{◌≤◌};

pub mod judging;

// `count` settlings in a row shipped nothing; at `bound` of them all ships.
#[derive(Drop)]
pub struct Limited<P> {
    below: P,
    count: u32,
    bound: u32,
    ghost some: { 1 ≤ bound },
    ghost few: { bound ≤ 100 },
    ghost within: { count ≤ bound },
}
