#![tactic(auto)]

// Examples worked by hand from the rules: badness, where a note breaks, how it is split, and what is refused.
#[cfg(test)]
mod breaks;
#[cfg(test)]
mod splits;
#[cfg(test)]
mod tables;
