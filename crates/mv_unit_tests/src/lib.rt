//! Tests of single layers, by public calls alone. They are here because a crate with tests is proved twice. The crate
//! has nothing else.
#![tactic(auto)]

#[cfg(test)]
mod cases;
#[cfg(test)]
mod chains;
#[cfg(test)]
mod changes;
#[cfg(test)]
mod collections;
#[cfg(test)]
mod edges;
#[cfg(test)]
mod indexes;
#[cfg(test)]
mod journals;
#[cfg(test)]
mod keys;
#[cfg(test)]
mod logs;
#[cfg(test)]
mod own_writes;
#[cfg(test)]
mod parsing;
#[cfg(test)]
mod passes;
#[cfg(test)]
mod prints;
#[cfg(test)]
mod readers;
#[cfg(test)]
mod records;
#[cfg(test)]
mod stores;
#[cfg(test)]
mod summary;
#[cfg(test)]
mod tested;
#[cfg(test)]
mod tokens;
#[cfg(test)]
mod tpcc;
#[cfg(test)]
mod values;
#[cfg(test)]
mod views;
#[cfg(test)]
mod walks;
