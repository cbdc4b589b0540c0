#![tactic(auto)]

// Firings judged by each policy, with what ships and is held worked by hand from the rules.
#[cfg(test)]
mod firings;
#[cfg(test)]
mod judged;
