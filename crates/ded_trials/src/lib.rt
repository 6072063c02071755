//! Trials of what no script can show.
//!
//! Each function is proved in its own crate, and the scripts of tests/scripts show what the program answers. What is
//! left stands here: counts of pairs that no reply tells, calls that the program itself never makes, the lists that are
//! held of views, devices that fail, keys and limits that no script reaches, verdicts that replies don't tell apart,
//! and certificates. Nothing stands on this crate. The trials are tables of texts that the product's own readers read.
#![tactic(auto)]

#[cfg(test)]
mod answers;
#[cfg(test)]
mod boxes;
#[cfg(test)]
mod catalogues;
#[cfg(test)]
mod certificates;
#[cfg(test)]
mod devices;
#[cfg(test)]
mod joins;
#[cfg(test)]
mod lists;
#[cfg(test)]
mod numbers;
#[cfg(test)]
mod orders;
#[cfg(test)]
mod pieces;
#[cfg(test)]
mod runs;
#[cfg(test)]
mod sessions;
#[cfg(test)]
mod systems;
#[cfg(test)]
mod texts;
#[cfg(test)]
mod verdicts;
