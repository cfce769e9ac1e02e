//! That calls which take memory answer, and the numbers of outside tables.

ghost use Rattle.std.specs.Prelude.{◌≡◌, ◌≤◌, ℕ, List, length, IsTrue, Some};

use std::alloc::Global;
use std::test::Fail;
use test_words::{cell, create_word, hash_named, load_word, number_in, same_bytes};
use tink_base::{
    Bytes, Entropy, Failed, Hash, MemEntropy, MemSink, MemSource, MemStore, ReadAllFault, Source,
    Store, Text, read_all, write_all,
};

// The numbers are those of HashType in Tink's common.proto, and the sizes those of FIPS 180-4,
// figure 1: no two are the same, so that a size tells the function. A row has number, name and size.
const HASH_TYPES: &str = "\
1|SHA-1|20
2|SHA-384|48
3|SHA-256|32
4|SHA-512|64
5|SHA-224|28";

// The size of the digests of the hash function of this number, or 0.
fn size_of_number(number: u32) -> usize {
    match Hash::from_number(number) {
        Some(hash) => hash.size(),
        None => 0,
    }
}

#[test]
fn reads_the_numbers_of_hash_types(rt: HostRuntime) -> Result<(), Fail> {
    for row in HASH_TYPES.lines() {
        let size = number_in(row, 2)?;
        assert!(rt;
            hash_named(cell(row, 1)?)?.size() == size,
            "the size in {row}"
        );
        assert!(rt;
            size_of_number(cell(row, 0)?.parse::<u32>()?) == size,
            "the number in {row}"
        );
    }
    for &number in &[0, 6, u32::MAX] {
        assert!(rt; size_of_number(number) == 0, "number {number}");
    }
    Ok(())
}

#[test]
fn copies_bytes_and_text(rt: HostRuntime) -> Result<(), Fail> {
    let bytes = Bytes::copy(rt.alloc(), b"\x00\xff")?;
    assert!(rt; bytes.as_slice() == b"\x00\xff".as_slice());
    let text = Text::copy(rt.alloc(), "key")?;
    assert!(rt; text.as_str() == "key");
    Ok(())
}

// What a read up to this limit answers, as a word; what it read is written again, into a room that
// it fills.
fn read_and_written(alloc: Global, limit: usize) -> Result<&'static str, Fail> {
    if limit > 6 {
        return Err("a limit of 6 at most".into());
    }
    let mut source = MemSource::new(b"bytes".to_vec(alloc)?, 2, Vec::new(alloc));
    match read_all(alloc, &mut source, limit) {
        Ok(all) => written(alloc, &all),
        Err(ReadAllFault::TooLong) => Ok("too long"),
        Err(_) => Ok("failed"),
    }
}

fn written(alloc: Global, all: &[u8]) -> Result<&'static str, Fail> {
    same_bytes(alloc, "a source", "what is read", b"bytes", all)?;
    let mut sink = MemSink::new(alloc, 5, 3, Vec::new(alloc))?;
    let whole = write_all(&mut sink, all).is_ok();
    let more = write_all(&mut sink, b"!").is_ok();
    same_bytes(alloc, "a sink", "what is written", b"bytes", sink.written())?;
    Ok(match (whole, more) {
        (true, false) => "bytes",
        (true, true) => "more than there is room for",
        _ => "not written",
    })
}

#[test]
fn reads_and_writes_in_pieces_up_to_a_limit(rt: HostRuntime) -> Result<(), Fail> {
    for &(limit, want) in &[(6, "bytes"), (5, "bytes"), (4, "too long")] {
        let found = read_and_written(rt.alloc(), limit)?;
        assert!(rt; found == want, "{found} up to {limit}");
    }
    Ok(())
}

// Calls 3 and 5 fail.
#[test]
fn keeps_files_that_stand(rt: HostRuntime) -> Result<(), Fail> {
    let mut fails = Vec::new(rt.alloc());
    fails.push(3)?;
    fails.push(5)?;
    let mut store = MemStore::new(rt.alloc(), fails);
    store.put("a", b"first")?;
    store.put("a", b"second")?;
    for &(name, bytes, want) in &[
        ("a", "third", "exists"),
        ("b", "new", "made"),
        ("c", "lost", "failed"),
    ] {
        let found = create_word(&store.create(rt.alloc(), name, bytes.as_bytes()));
        assert!(rt; found == want, "{found} at {name}");
    }
    for &(name, limit, want) in &[
        ("a", 6, "bytes"),
        ("a", 6, "failed"),
        ("a", 5, "too long"),
        ("c", 9, "absent"),
    ] {
        let found = load_word(&store.load(rt.alloc(), name, limit), b"second");
        assert!(rt; found == want, "{found} at {name} up to {limit}");
    }
    assert!(rt; store.get("b").unwrap_or(b"") == b"new".as_slice());
    assert!(rt; store.get("c").is_none());
    Ok(())
}

// Call 2 fails, and so does a call for more bytes than are left.
#[test]
fn fills_from_a_stream(rt: HostRuntime) -> Result<(), Fail> {
    let mut fails = Vec::new(rt.alloc());
    fails.push(2)?;
    let mut entropy = MemEntropy::new(b"random".to_vec(rt.alloc())?, fails);
    let mut out = [0u8; 4];
    assert!(rt; entropy.fill(&mut out).is_ok());
    assert!(rt; &out == b"rand");
    assert!(rt; entropy.fill(&mut out[..2]).is_err(), "listed");
    assert!(rt; entropy.fill(&mut out).is_err(), "short");
    assert!(rt; entropy.left() == 2);
    assert!(rt; entropy.fill(&mut out[..2]).is_ok());
    assert!(rt; &out == b"omnd");
    let mut steady = MemEntropy::new(b"byte".to_vec(rt.alloc())?, Vec::new(rt.alloc()));
    assert!(rt; &four_bytes(&mut steady) == b"byte");
    Ok(())
}

/// Four bytes of a steady entropy that has them: that it can't fail is proved, by the trait's
/// clauses alone.
fn four_bytes<E: Entropy>(entropy: &mut E) -> [u8; 4]
    requires steady { IsTrue (E.state entropy.old).steady }
    requires enough { (left : List ℕ) × ((E.state entropy.old).left ≡ Some left) ×
        (4 ≤ length left) }
{
    let mut out = [0u8; 4];
    match entropy.fill(&mut out) {
        Ok(()) => out,
        Err(Failed) => unreachable!(),
    }
}
