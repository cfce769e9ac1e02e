//! Self-tests over managers of AEADs, whose counts add up, and the line of the greatest counts.

use crate::boxes::managers_of;
use managers::AeadScheme;
use std::alloc::Global;
use std::str::from_utf8;
use std::test::Fail;
use tinkey_selftest::{Counts, counts_text, self_test};

/// The managers of three kinds of AEADs.
const THREE: [(&str, AeadScheme); 3] = [
    (
        "type.googleapis.com/google.crypto.tink.AesGcmKey",
        AeadScheme::Gcm,
    ),
    (
        "type.googleapis.com/google.crypto.tink.AesEaxKey",
        AeadScheme::Eax,
    ),
    (
        "type.googleapis.com/google.crypto.tink.AesCtrHmacAeadKey",
        AeadScheme::CtrHmac,
    ),
];

/// The counts of a self-test of 600 lines over them.
fn counts_of(alloc: Global, seed: u32) -> Result<Counts, Fail> {
    let all = managers_of(alloc, &THREE, &[], &[])?;
    match self_test(alloc, &all, seed, 600) {
        Ok(counts) => Ok(counts),
        Err(_) => Err("a self-test".into()),
    }
}

#[test]
fn loses_nothing_in_many_lines(rt: HostRuntime) -> Result<(), Fail> {
    for &seed in &[1, 2, 4_294_967_295] {
        let counts = counts_of(rt.alloc(), seed)?;
        let answered = counts.sealed.wrapping_add(counts.opened);
        let all = answered
            .wrapping_add(counts.refused)
            .wrapping_add(counts.edited)
            .wrapping_add(counts.declined);
        assert_eq!(rt; all, 600);
        assert_eq!(rt; counts.lost, 0);
        assert!(rt; counts.opened > 0 && counts.refused > 0 && counts.declined > 0);
    }
    Ok(())
}

#[test]
fn tells_the_greatest_counts(rt: HostRuntime) -> Result<(), Fail> {
    let most = 4_294_967_295;
    let counts = Counts {
        sealed: most,
        opened: 1,
        refused: 20,
        edited: 300,
        declined: 4000,
        lost: 0,
    };
    let text = counts_text(rt.alloc(), most, counts)?;
    let want = "lines 4294967295 seals 4294967295 opened 1 refused 20 edits 300 declined 4000 \
        lost 0\n";
    assert_eq!(rt; from_utf8(&text)?, want);
    Ok(())
}
