//! A command line of words in memory.

ghost use Rattle.std.specs.Prelude.{None};

use real_objects::Arguments;
use std::alloc::Global;
use std::env::FillError;
use std::test::Fail;
use test_words::bytes_of;

/// A command line of these words, the program's name first.
#[derive(Drop)]
pub(crate) struct Listed {
    pub(crate) words: Vec<Vec<u8>>,
}

impl Arguments for Listed {
    ghost told = { λ _. None };

    fn argument(&self, place: usize, room: &mut [u8]) -> Result<usize, FillError> {
        let Some(word) = self.words.get(place) else {
            return Err(FillError::NotPresent);
        };
        let size = word.len();
        if size > room.len() {
            return Err(FillError::TooLong);
        }
        room[..size].copy_from_slice(word);
        Ok(size)
    }
}

/// These words.
pub(crate) fn words_of(alloc: Global, words: &[&str]) -> Result<Vec<String>, Fail> {
    let mut all = Vec::new(alloc);
    for &word in words {
        all.push(String::from_str(alloc, word)?)?;
    }
    Ok(all)
}

/// The command line of a cell, whose words are hexadecimal digits and stand between commas.
pub(crate) fn in_digits(alloc: Global, cell: &str) -> Result<Listed, Fail> {
    let mut words = Vec::new(alloc);
    for word in cell.split(',') {
        words.push(bytes_of(alloc, word.trim())?)?;
    }
    Ok(Listed { words })
}

/// The command line of a program and the words of this text, which stand between spaces.
pub(crate) fn in_text(alloc: Global, text: &str) -> Result<Listed, Fail> {
    let mut words = Vec::new(alloc);
    words.push(b"tinkey".to_vec(alloc)?)?;
    for word in text.split(' ') {
        words.push(word.as_bytes().to_vec(alloc)?)?;
    }
    Ok(Listed { words })
}
