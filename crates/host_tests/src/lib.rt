//! Tests of the real objects, and of what `main` does with them: random bytes, words and streams over devices
//! that tell their bytes, streams that are closed, sessions over such a device, exit codes; and in `folder` the real store, over real
//! files and over files and names that fail. There is no code here but tests, and a type of one.
#![tactic(auto)]

#[cfg(test)]
mod ahead;
#[cfg(test)]
mod closed;
#[cfg(test)]
mod codes;
#[cfg(test)]
mod entropy;
pub mod folder;
#[cfg(test)]
mod listed;
#[cfg(test)]
mod metered;
#[cfg(test)]
mod over_streams;
#[cfg(test)]
mod progress;
#[cfg(test)]
mod sessions;
#[cfg(test)]
mod streams;
#[cfg(test)]
mod words;
