//! Random journals of random scripts. The text that `replay` makes of each is compared with what calls that run alone, in
//! the order of the history, and comparisons of their full runs give. So are the causes of the repairs. The crate has nothing
//! else.
#![tactic(auto)]

#[cfg(test)]
mod alone;
#[cfg(test)]
mod hits;
#[cfg(test)]
mod journals;
#[cfg(test)]
mod kept;
#[cfg(test)]
mod live;
#[cfg(test)]
mod reasons;
#[cfg(test)]
mod repairs;
#[cfg(test)]
mod replays;
#[cfg(test)]
mod rounds;
#[cfg(test)]
mod scripts;
#[cfg(test)]
mod whys;
