//! A box of a manager is a manager, with the URL and the scheme of its content.

use crate::{AeadManager, CheckFault, DaeadManager, KeyManager, MacManager, Prepared, PrfManager};
use std::alloc::Global;

impl KeyManager for Box<dyn AeadManager> {
    ghost url = { λ b. (AeadManager-box b).KeyManager.url b.value };

    ghost scheme = { λ b. (AeadManager-box b).KeyManager.scheme b.value };

    fn type_url(&self) -> &str {
        (**self).type_url()
    }

    fn check(&self, alloc: Global, value: &[u8]) -> Result<Prepared, CheckFault> {
        (**self).check(alloc, value)
    }
}

impl KeyManager for Box<dyn DaeadManager> {
    ghost url = { λ b. (DaeadManager-box b).KeyManager.url b.value };

    ghost scheme = { λ b. (DaeadManager-box b).KeyManager.scheme b.value };

    fn type_url(&self) -> &str {
        (**self).type_url()
    }

    fn check(&self, alloc: Global, value: &[u8]) -> Result<Prepared, CheckFault> {
        (**self).check(alloc, value)
    }
}

impl KeyManager for Box<dyn MacManager> {
    ghost url = { λ b. (MacManager-box b).KeyManager.url b.value };

    ghost scheme = { λ b. (MacManager-box b).KeyManager.scheme b.value };

    fn type_url(&self) -> &str {
        (**self).type_url()
    }

    fn check(&self, alloc: Global, value: &[u8]) -> Result<Prepared, CheckFault> {
        (**self).check(alloc, value)
    }
}

impl KeyManager for Box<dyn PrfManager> {
    ghost url = { λ b. (PrfManager-box b).KeyManager.url b.value };

    ghost scheme = { λ b. (PrfManager-box b).KeyManager.scheme b.value };

    fn type_url(&self) -> &str {
        (**self).type_url()
    }

    fn check(&self, alloc: Global, value: &[u8]) -> Result<Prepared, CheckFault> {
        (**self).check(alloc, value)
    }
}
