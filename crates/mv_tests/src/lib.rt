//! Tests of whole runs that no text shows. They go through all crates, by public calls alone. The crate has nothing else.
#![tactic(auto)]

#[cfg(test)]
mod attempts;
#[cfg(test)]
mod crews;
#[cfg(test)]
mod faults;
#[cfg(test)]
mod whole;
