//! The happy path of each public call of doublewords, frames, partition entries, pages and sealers and of a machine's step, and
//! two guests on four CPUs.
#![tactic(auto)]

#[cfg(test)]
mod frames;
#[cfg(test)]
mod machine;
#[cfg(test)]
mod num;
#[cfg(test)]
mod pages;
#[cfg(test)]
mod parts;
#[cfg(test)]
mod pate;
#[cfg(test)]
mod seal;
