//! Tests of the kernels and the schemes: outside values, and the fast bodies beside plain ones. There is no
//! code here but tests.
#![tactic(auto)]

#[cfg(test)]
mod aes;
#[cfg(test)]
mod galois;
#[cfg(test)]
mod gcm;
#[cfg(test)]
mod hexadecimal;
#[cfg(test)]
mod plain;
#[cfg(test)]
mod prf;
#[cfg(test)]
mod rfc8452;
#[cfg(test)]
mod rows;
#[cfg(test)]
mod schemes;
#[cfg(test)]
mod sealing;
#[cfg(test)]
mod siv;
