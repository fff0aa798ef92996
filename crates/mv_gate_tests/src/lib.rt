//! Whole runs of the gate by one worker and by many: what they leave, what they tell the pace, and what their shards show
//! beside them. The crate has nothing else.
#![tactic(auto)]

#[cfg(test)]
mod crews;
#[cfg(test)]
mod kept;
#[cfg(test)]
mod pins;
#[cfg(test)]
mod places;
#[cfg(test)]
mod readers;
#[cfg(test)]
mod records;
#[cfg(test)]
mod scripts;
#[cfg(test)]
mod shards;
#[cfg(test)]
mod starts;
#[cfg(test)]
mod watched;
