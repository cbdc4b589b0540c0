#![tactic(auto)]

// Box lists that tell the rules from near misses, each read from beginning to end.
#[cfg(test)]
mod faulty;
#[cfg(test)]
mod lengths;
#[cfg(test)]
mod reads;
#[cfg(test)]
mod whole;
