//! Words of command lines, in memory and of the process.

use crate::listed::in_digits;
use crate::metered::counts;
use real_objects::{NoWords, words};
use std::alloc::Global;
use std::env;
use std::test::Fail;
use test_words::{cell, same_bytes, same_text, unlike};

// The room for a word is 256 bytes at first.
const TOLD: [&str; 8] = [
    "the name alone | 74",
    "a word of 255 bytes | 74, 61*255",
    "a word of 256 bytes | 74, 61*256",
    "a word of 257 bytes | 74, 61*257",
    "a word of 5,000 bytes | 74, 61*5000",
    "short words behind a long one | 74, 61*5000, 62, , 63*256, c3a4",
    "an empty word | 74, , 62",
    "a name that isn't UTF-8 | ff, 61",
];

/// The word at this place of a line, or none of its bytes.
fn word_at(line: &[Vec<u8>], place: usize) -> &[u8] {
    match line.get(place) {
        Some(word) => word,
        None => b"",
    }
}

/// Holds words to these, behind the name.
fn assert_words(alloc: Global, row: &str, line: &[Vec<u8>], told: &[String]) -> Result<(), Fail> {
    counts(row, told.len().wrapping_add(1), line.len())?;
    for (place, word) in told.iter().enumerate() {
        let want = word_at(line, place.wrapping_add(1));
        same_bytes(alloc, row, "a word", want, word.as_bytes())?;
    }
    Ok(())
}

fn assert_told(alloc: Global, row: &str) -> Result<(), Fail> {
    let line = in_digits(alloc, cell(row, 1)?)?;
    let Ok(told) = words(&line, alloc) else {
        return Err(unlike(row, "the answer", "words", "none"));
    };
    assert_words(alloc, row, &line.words, &told)
}

#[test]
fn tells_each_word_whole_and_in_order(rt: HostRuntime) -> Result<(), Fail> {
    for row in &TOLD {
        assert_told(rt.alloc(), row)?;
    }
    Ok(())
}

// The place counts from 0, after the name.
const NOT_TEXT: [&str; 6] = [
    "a word alone | 74, ff | 0",
    "the last word | 74, 61, 62, c3 | 2",
    "a word before others | 74, 80, 61 | 0",
    "a long one | 74, ff*300 | 0",
    "the first of two | 74, 61, 80, 62, ff | 1",
    "a word, where the name isn't text either | ff, 61, 80 | 1",
];

fn assert_not_text(alloc: Global, row: &str) -> Result<(), Fail> {
    let line = in_digits(alloc, cell(row, 1)?)?;
    match words(&line, alloc) {
        Err(NoWords::NotText(place)) => counts(row, place, cell(row, 2)?.parse::<usize>()?),
        _ => Err(Fail::new(row)),
    }
}

#[test]
fn names_the_first_word_that_is_not_text(rt: HostRuntime) -> Result<(), Fail> {
    for row in &NOT_TEXT {
        assert_not_text(rt.alloc(), row)?;
    }
    Ok(())
}

/// Holds words to those that std tells behind the name, and counts them.
fn count_alike(rt: &HostRuntime, told: &[String]) -> Result<usize, Fail> {
    let mut count = 0usize;
    for (word, other) in told.iter().zip(env::args(rt)?.skip(1)) {
        same_text("the process", "a word", other.as_str(), word.as_str())?;
        count = count.wrapping_add(1);
    }
    Ok(count)
}

// The words of the test's own process, which std tells too.
#[test]
fn tells_the_words_of_the_process(rt: HostRuntime) -> Result<(), Fail> {
    let Ok(told) = words(&rt, rt.alloc()) else {
        return Err("no words")?;
    };
    let count = count_alike(&rt, &told)?;
    counts("the words", count, told.len())?;
    counts(
        "with the name",
        count.wrapping_add(1),
        env::args(&rt)?.count(),
    )?;
    counts("of at least one", count, count.max(1))
}
