//! Plain slow bodies, which compute the definitions step by step, for the tests to run beside the
//! fast ones of the libraries.

pub(crate) mod aes;
pub(crate) mod galois;
