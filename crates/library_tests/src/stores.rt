//! Names and lengths of files of the stores in memory.

use std::test::Fail;
use test_words::create_word;
use tink_base::{Begun, MemStore, PieceStore, Store, TornStore, append_all};

// Call 4 fails.
#[test]
fn looks_up_names_and_lengths(rt: HostRuntime) -> Result<(), Fail> {
    let mut fails = Vec::new(rt.alloc());
    fails.push(4)?;
    let mut store = MemStore::new(rt.alloc(), fails);
    store.put("a", b"seven b")?;
    assert!(rt; matches!(store.is_taken("a"), Ok(true)));
    assert!(rt; matches!(store.is_taken("b"), Ok(false)));
    assert!(rt; matches!(store.size("a"), Ok(Some(7))));
    assert!(rt; store.size("a").is_err(), "listed");
    assert!(rt; matches!(store.size("b"), Ok(None)));
    assert!(rt; store.faults() == 1);
    Ok(())
}

// The count of bytes given rises by a load alone: by what the file has, or by one more than a limit that it is
// past.
#[test]
fn counts_what_it_gives(rt: HostRuntime) -> Result<(), Fail> {
    let mut store = MemStore::new(rt.alloc(), Vec::new(rt.alloc()));
    store.put("a", b"seven b")?;
    for &(limit, given) in &[(3, 4), (7, 11), (9, 18)] {
        let _ = store.load(rt.alloc(), "a", limit);
        assert!(rt; store.given() == given, "up to {limit}");
    }
    let _ = store.load(rt.alloc(), "b", 9);
    assert!(rt; matches!(store.size("a"), Ok(Some(7))));
    assert!(rt; store.given() == 18);
    Ok(())
}

#[test]
fn a_torn_file_has_a_name_and_a_length(rt: HostRuntime) -> Result<(), Fail> {
    let mut store = TornStore::new(rt.alloc(), 3);
    assert!(rt; matches!(store.is_taken("n"), Ok(false)));
    let torn = store.create(rt.alloc(), "n", b"bytes");
    assert!(rt; create_word(&torn) == "failed");
    assert!(rt; matches!(store.is_taken("n"), Ok(true)));
    assert!(rt; matches!(store.size("n"), Ok(Some(3))));
    let again = store.create(rt.alloc(), "n", b"");
    assert!(rt; create_word(&again) == "exists");
    Ok(())
}

// No file is there before the finish. Call 5 fails: what was begun for it is gone.
#[test]
fn keeps_a_file_that_is_written_in_pieces(rt: HostRuntime) -> Result<(), Fail> {
    let mut fails = Vec::new(rt.alloc());
    fails.push(5)?;
    let mut store = MemStore::new(rt.alloc(), fails);
    assert!(rt; store.begin(rt.alloc(), "a") == Ok(Begun::Empty));
    assert!(rt; append_all(&mut store, b"two ").is_ok());
    assert!(rt; store.get("a").is_none());
    let made = store.finish();
    assert!(rt; create_word(&made) == "made");
    assert!(rt; store.get("a").unwrap_or(b"") == b"two ".as_slice());
    assert!(rt; store.begin(rt.alloc(), "a") == Ok(Begun::Exists));
    let failed = store.begin(rt.alloc(), "b");
    assert!(rt; failed.is_err() && store.faults() == 1);
    Ok(())
}

#[test]
fn a_torn_draft_leaves_its_first_bytes(rt: HostRuntime) -> Result<(), Fail> {
    let mut store = TornStore::new(rt.alloc(), 3);
    assert!(rt; store.begin(rt.alloc(), "n") == Ok(Begun::Empty));
    assert!(rt; append_all(&mut store, b"bytes").is_ok());
    let torn = store.finish();
    assert!(rt; create_word(&torn) == "failed");
    assert!(rt; store.get("n").unwrap_or(b"") == b"byt".as_slice());
    Ok(())
}
