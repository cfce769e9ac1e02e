//! The words of the command line.

ghost use Rattle.std.specs.Prelude.{◌≡◌, ◌≤◌, ℕ, List, Option, Some, None, length, take, drop, map, slice_get, string_bytes, vec_len, IfOk, IfErr, IfSome, IfNone, IsErrOf};
ghost use Rattle.std.specs.Str.{IsUtf8};
ghost use Rattle.real_objects.specs.Words.{IsFound, IsCause, IsCauseAt, IsLonger};

use std::alloc::Global;
use std::env::FillError;
use std::rt::Env;
use tink_base::NoMemory;

/// A source of the words of a command line.
pub trait Arguments {
    /// The words, the program's name first, each as its bytes, if they are known.
    ghost told: { Self → Option (List (List ℕ)) };

    /// Copies the word at this place to the front of `room`, and returns how many bytes it has.
    /// `TooLong` comes only if it has more than `room`.
    fn argument(&self, place: usize, room: &mut [u8]) -> Result<usize, FillError>
        ensures bound { IfOk result (λ n. n ≤ length room.new) }
        ensures word { IfOk result (λ n. IfSome (told self.now)
            (λ words. slice_get words place ≡ Some (take n room.new))) }
        ensures end { IsErrOf result FillError.NotPresent → IfSome (told self.now)
            (λ words. length words ≤ place) }
        ensures too_long { IsErrOf result FillError.TooLong → IfSome (told self.now)
            (λ words. IsLonger words place (length room.old)) };
}

impl Arguments for HostRuntime {
    ghost told = { λ _. None };

    fn argument(&self, place: usize, room: &mut [u8]) -> Result<usize, FillError> {
        self.arg(place, room)
    }
}

/// Why the words can't be returned.
#[derive(Clone, Copy, Debug, PartialEq, Eq)]
pub enum NoWords {
    /// The word at this place is the first that isn't UTF-8. Places count from 0, after the
    /// program's name.
    NotText(usize),
    /// Memory couldn't be allocated.
    NoMemory,
}

/// The bytes of a word that are read without taking memory.
const ROOM: usize = 256;

/// The words after the program's name, whatever bytes the name has.
///
/// An error names the first word, in order, for which it may come: `NotText` comes only if that
/// word isn't UTF-8, and `NoMemory` only if it is UTF-8 or has more than 256 bytes, and memory for
/// it couldn't be allocated.
pub fn words<A: Arguments>(from: &A, alloc: Global) -> Result<Vec<String>, NoWords>
    ensures all { IfOk result (λ words. IfSome (A.told from.now)
        (λ told. map string_bytes words.items ≡ drop 1 told)) }
    ensures cause { IfErr result (λ why. IfSome (A.told from.now) (λ told. IsCause told why)) }
{
    let mut words = Vec::new(alloc);
    for place in 1..usize::MAX {
        match word(from, alloc, place) {
            Ok(None) => return Ok(words),
            Ok(Some(word)) => match words.push(word) {
                Ok(()) => {}
                Err(_) => return Err(NoWords::NoMemory),
            },
            Err(why) => return Err(why),
        }
    }
    Err(NoWords::NoMemory)
}

/// The word at this place, which is 1 or more, if there is one.
fn word<A: Arguments>(from: &A, alloc: Global, place: usize) -> Result<Option<String>, NoWords>
    requires after_the_name { 1 ≤ place }
    ensures found { IfOk result (λ found. IfSome (A.told from.now)
        (λ told. IsFound told place found)) }
    ensures cause { IfErr result (λ why. IfSome (A.told from.now) (λ told. IsCauseAt told place why)) }
{
    let mut room = [0; ROOM];
    match from.argument(place, &mut room) {
        Ok(length) => text_at(alloc, place, &room[..length]),
        Err(FillError::NotPresent) => Ok(None),
        Err(FillError::TooLong) => long_word(from, alloc, place),
    }
}

/// The word at this place, which is 1 or more and has more than 256 bytes.
fn long_word<A: Arguments>(from: &A, alloc: Global, place: usize) -> Result<Option<String>, NoWords>
    requires after_the_name { 1 ≤ place }
    requires longer { IfSome (A.told from.now) (λ told. IsLonger told place 256) }
    ensures found { IfOk result (λ found. IfSome (A.told from.now)
        (λ told. IsFound told place found)) }
    ensures cause { IfErr result (λ why. IfSome (A.told from.now) (λ told. IsCauseAt told place why)) }
{
    let mut room = match vec![in alloc; 0u8; 2 * ROOM] {
        Ok(room) => room,
        Err(_) => return Err(NoWords::NoMemory),
    };
    match fetch(from, place, &mut room) {
        Ok(Some(length)) => text_at(alloc, place, &room[..length]),
        Ok(None) => Ok(None),
        Err(NoMemory) => Err(NoWords::NoMemory),
    }
}

/// Copies the word at this place to the front of `room`, which grows if necessary, and returns how
/// many bytes it has, if there is one.
fn fetch<A: Arguments>(
    from: &A,
    place: usize,
    room: &mut Vec<u8>,
) -> Result<Option<usize>, NoMemory>
    ensures bound { IfOk result (λ found. IfSome found (λ n. n ≤ vec_len room.new)) }
    ensures word { IfOk result (λ found. IfSome found (λ n. IfSome (A.told from.now)
        (λ told. slice_get told place ≡ Some (take n room.new.items)))) }
    ensures end { IfOk result (λ found. IfNone found (IfSome (A.told from.now)
        (λ told. length told ≤ place))) }
{
    for _ in 0..usize::BITS {
        match from.argument(place, room.as_mut_slice()) {
            Ok(length) => return Ok(Some(length)),
            Err(FillError::NotPresent) => return Ok(None),
            Err(FillError::TooLong) => {
                if room.resize(room.len().saturating_mul(2), 0).is_err() {
                    return Err(NoMemory);
                }
            }
        }
    }
    Err(NoMemory)
}

/// The word of these bytes, which is at this place, 1 or more.
fn text_at(alloc: Global, place: usize, bytes: &[u8]) -> Result<Option<String>, NoWords>
    requires after_the_name { 1 ≤ place }
    ensures found { (words : List (List ℕ)) → slice_get words place ≡ Some bytes.now →
        IfOk result (IsFound words place) }
    ensures cause { (words : List (List ℕ)) → slice_get words place ≡ Some bytes.now →
        IfErr result (IsCauseAt words place) }
{
    match text(alloc, bytes) {
        Ok(Some(text)) => Ok(Some(text)),
        Ok(None) => Err(NoWords::NotText(place - 1)),
        Err(NoMemory) => Err(NoWords::NoMemory),
    }
}

/// The text of these bytes, or `None` if they aren't UTF-8.
fn text(alloc: Global, bytes: &[u8]) -> Result<Option<String>, NoMemory>
    ensures text { IfOk result (λ text. IfSome text (λ it. string_bytes it ≡ bytes.now)) }
    ensures not_text { IfOk result (λ text. IfNone text (¬ (IsUtf8 bytes.now))) }
    ensures no_memory { IfErr result (λ _. IsUtf8 bytes.now) }
{
    match str::from_utf8(bytes) {
        Ok(text) => match String::from_str(alloc, text) {
            Ok(text) => Ok(Some(text)),
            Err(_) => Err(NoMemory),
        },
        Err(_) => Ok(None),
    }
}
