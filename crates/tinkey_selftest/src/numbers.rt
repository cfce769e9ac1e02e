//! The numbers of a self-test, from two ChaCha20 generators.

ghost use Rattle.std.specs.Prelude.{◌≡◌, ℕ, ◌+◌, ◌<◌, ◌^◌, IfOk};
ghost use Rattle.rand_chacha.specs.ChaCha.{of_seed};
ghost use Rattle.tinkey_selftest.specs.Numbers.{random_bytes, seed_bytes, words_at};

use rand_chacha::ChaCha20Rng;
use rand_core::SeedableRng;
use rand_core::utils::{NextWord, fill_bytes_via_u32};
use std::alloc::Global;
use tink_base::NoMemory;

/// The words of one line.
#[derive(Clone, Copy)]
pub(crate) struct Words {
    pub a: u32,
    pub b: u32,
    pub c: u32,
    pub d: u32,
}

/// The seed of a generator: a number, and which generator it is.
fn seed_bytes(seed: u32, last: u8) -> [u8; 32]
    ensures { result ≡ seed_bytes seed last }
{
    let mut bytes = [0; 32];
    bytes[..4].copy_from_slice(&seed.to_be_bytes());
    bytes[31] = last;
    bytes
}

/// The generator of the words of the lines.
pub(crate) fn line_generator(seed: u32) -> ChaCha20Rng
    ensures { result ≡ of_seed (seed_bytes seed 0) }
{
    ChaCha20Rng::from_seed(seed_bytes(seed, 0))
}

/// The words of the next line.
pub(crate) fn next_words(generator: &mut ChaCha20Rng) -> Words
    requires stream { generator.old.stream ≡ 0 }
    requires place_bound { generator.old.word_pos + 4 < 2 ^ 68 }
    ensures words { result ≡ words_at generator.old.key generator.old.word_pos }
    ensures next { generator.new ≡
        record generator.old { word_pos = generator.old.word_pos + 4 } }
{
    let a = generator.next_word();
    let b = generator.next_word();
    let c = generator.next_word();
    let d = generator.next_word();
    Words { a, b, c, d }
}

/// The first `count` random bytes of a self-test, from a generator of their own.
pub(crate) fn random_bytes(alloc: Global, seed: u32, count: usize) -> Result<Vec<u8>, NoMemory>
    ensures { IfOk result (λ bytes. bytes.items ≡ random_bytes seed count) }
{
    let mut generator = ChaCha20Rng::from_seed(seed_bytes(seed, 1));
    let mut bytes = vec![in alloc; 0; count]?;
    fill_bytes_via_u32(&mut generator, &mut bytes);
    Ok(bytes)
}
