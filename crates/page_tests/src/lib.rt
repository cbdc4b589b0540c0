#![tactic(auto)]

// Pages worked by hand from the rules: what items and notes come to, and where a page may break.
#[cfg(test)]
mod looks;
#[cfg(test)]
mod pages;
#[cfg(test)]
mod tables;
