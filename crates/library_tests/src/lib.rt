//! What libraries answer that no command shows: objects in memory, fields read and written, records and
//! copies of keysets, what names say of keys, tables of managers, how many keys are tried, and a session
//! after a fault. There is no code here but tests.
#![tactic(auto)]

#[cfg(test)]
mod base;
#[cfg(test)]
mod boxes;
#[cfg(test)]
mod fields;
#[cfg(test)]
mod keys;
#[cfg(test)]
mod keysets;
#[cfg(test)]
mod managers_found;
#[cfg(test)]
mod ranges;
#[cfg(test)]
mod rows;
#[cfg(test)]
mod selftests;
#[cfg(test)]
mod sessions;
#[cfg(test)]
mod stores;
#[cfg(test)]
mod trials;
#[cfg(test)]
mod writing_fields;
