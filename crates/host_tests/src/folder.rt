//! The real store, over real files and over files and names that fail.

pub mod came;
#[cfg(test)]
mod causes;
#[cfg(test)]
mod files;
#[cfg(test)]
mod naming;
#[cfg(test)]
mod opened;
#[cfg(test)]
mod placed;
