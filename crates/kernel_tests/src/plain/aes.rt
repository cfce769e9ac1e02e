//! AES by the steps of FIPS 197, with the words of its keys (5.2), and counter mode block by block:
//! plain bodies with the clauses of the fast ones. Here the places in a table do depend on the key.

ghost use Rattle.std.specs.Prelude.{◌≡◌, ◌⊎◌, ◌+◌, ◌-◌, ◌*◌, ◌<◌, ◌≤◌, length, take};
ghost use Rattle.aes_core.specs.Aes.{add_round_key, cipher, key_expansion, mix_columns, mixed_word, next_word, power, product, round_count, sbox, shift_rows, sub_bytes, sub_word, xor_word};
ghost use Rattle.aes_core.specs.Counter.{counter_plus, ctr};

use aes_core::CtrKind;

// The number of words for 14 rounds, as a key of 32 bytes has them. One of 16 bytes has 10 rounds
// and leaves the last 16 words out.
const WORDS: usize = 60;

// The first bytes of Rcon 1 to Rcon 10: x to the powers 0 to 9 (5.2).
const ROUND_CONSTANTS: [u8; 10] = [0x01, 0x02, 0x04, 0x08, 0x10, 0x20, 0x40, 0x80, 0x1B, 0x36];

// SBOX of each byte (5.1.1).
const SBOX: [u8; 256] = [
    0x63, 0x7C, 0x77, 0x7B, 0xF2, 0x6B, 0x6F, 0xC5, 0x30, 0x01, 0x67, 0x2B, 0xFE, 0xD7, 0xAB, 0x76,
    0xCA, 0x82, 0xC9, 0x7D, 0xFA, 0x59, 0x47, 0xF0, 0xAD, 0xD4, 0xA2, 0xAF, 0x9C, 0xA4, 0x72, 0xC0,
    0xB7, 0xFD, 0x93, 0x26, 0x36, 0x3F, 0xF7, 0xCC, 0x34, 0xA5, 0xE5, 0xF1, 0x71, 0xD8, 0x31, 0x15,
    0x04, 0xC7, 0x23, 0xC3, 0x18, 0x96, 0x05, 0x9A, 0x07, 0x12, 0x80, 0xE2, 0xEB, 0x27, 0xB2, 0x75,
    0x09, 0x83, 0x2C, 0x1A, 0x1B, 0x6E, 0x5A, 0xA0, 0x52, 0x3B, 0xD6, 0xB3, 0x29, 0xE3, 0x2F, 0x84,
    0x53, 0xD1, 0x00, 0xED, 0x20, 0xFC, 0xB1, 0x5B, 0x6A, 0xCB, 0xBE, 0x39, 0x4A, 0x4C, 0x58, 0xCF,
    0xD0, 0xEF, 0xAA, 0xFB, 0x43, 0x4D, 0x33, 0x85, 0x45, 0xF9, 0x02, 0x7F, 0x50, 0x3C, 0x9F, 0xA8,
    0x51, 0xA3, 0x40, 0x8F, 0x92, 0x9D, 0x38, 0xF5, 0xBC, 0xB6, 0xDA, 0x21, 0x10, 0xFF, 0xF3, 0xD2,
    0xCD, 0x0C, 0x13, 0xEC, 0x5F, 0x97, 0x44, 0x17, 0xC4, 0xA7, 0x7E, 0x3D, 0x64, 0x5D, 0x19, 0x73,
    0x60, 0x81, 0x4F, 0xDC, 0x22, 0x2A, 0x90, 0x88, 0x46, 0xEE, 0xB8, 0x14, 0xDE, 0x5E, 0x0B, 0xDB,
    0xE0, 0x32, 0x3A, 0x0A, 0x49, 0x06, 0x24, 0x5C, 0xC2, 0xD3, 0xAC, 0x62, 0x91, 0x95, 0xE4, 0x79,
    0xE7, 0xC8, 0x37, 0x6D, 0x8D, 0xD5, 0x4E, 0xA9, 0x6C, 0x56, 0xF4, 0xEA, 0x65, 0x7A, 0xAE, 0x08,
    0xBA, 0x78, 0x25, 0x2E, 0x1C, 0xA6, 0xB4, 0xC6, 0xE8, 0xDD, 0x74, 0x1F, 0x4B, 0xBD, 0x8B, 0x8A,
    0x70, 0x3E, 0xB5, 0x66, 0x48, 0x03, 0xF6, 0x0E, 0x61, 0x35, 0x57, 0xB9, 0x86, 0xC1, 0x1D, 0x9E,
    0xE1, 0xF8, 0x98, 0x11, 0x69, 0xD9, 0x8E, 0x94, 0x9B, 0x1E, 0x87, 0xE9, 0xCE, 0x55, 0x28, 0xDF,
    0x8C, 0xA1, 0x89, 0x0D, 0xBF, 0xE6, 0x42, 0x68, 0x41, 0x99, 0x2D, 0x0F, 0xB0, 0x54, 0xBB, 0x16,
];

fn sub_byte(byte: u8) -> u8
    ensures { result ≡ sbox byte }
{
    SBOX[byte as usize]
}

// XTIMES: where the top bit falls out, the field's modulus is taken off.
fn double(byte: u8) -> u8
    ensures { result ≡ product 2 byte }
{
    (byte << 1) ^ ((byte >> 7) * 0x1B)
}

fn triple(byte: u8) -> u8
    ensures { result ≡ product 3 byte }
{
    double(byte) ^ byte
}

fn sub_bytes(state: &[u8; 16]) -> [u8; 16]
    ensures { result ≡ sub_bytes state.now }
{
    let mut next = [0; 16];
    for (i, byte) in next.iter_mut().enumerate() {
        *byte = sub_byte(state[i]);
    }
    next
}

// Row r turns left by r: from i = r + 4 c to r + 4 (c + r), which is 5 i modulo 16.
fn shift_rows(state: &[u8; 16]) -> [u8; 16]
    ensures { result ≡ shift_rows state.now }
{
    let mut next = [0; 16];
    for (i, byte) in next.iter_mut().enumerate() {
        *byte = state[5 * i % 16];
    }
    next
}

fn mix_columns(state: &[u8; 16]) -> [u8; 16]
    ensures { result ≡ mix_columns state.now }
{
    let mut next = [0; 16];
    for (i, byte) in next.iter_mut().enumerate() {
        let row = i % 4;
        let column = 4 * (i / 4);
        *byte = double(state[i])
            ^ triple(state[column + (row + 1) % 4])
            ^ state[column + (row + 2) % 4]
            ^ state[column + (row + 3) % 4];
    }
    next
}

fn add_round_key(state: &[u8; 16], words: &[[u8; 4]; WORDS], round: usize) -> [u8; 16]
    requires { round < 15 }
    ensures { result ≡ add_round_key state.now words.now round }
{
    let mut next = [0; 16];
    for (i, byte) in next.iter_mut().enumerate() {
        *byte = state[i] ^ words[4 * round + i / 4][i % 4];
    }
    next
}

// The four bytes of a word substituted (5.2).
fn sub_word(word: [u8; 4]) -> [u8; 4]
    ensures { result ≡ sub_word word }
{
    [
        sub_byte(word[0]),
        sub_byte(word[1]),
        sub_byte(word[2]),
        sub_byte(word[3]),
    ]
}

// The first byte of Rcon `number`; its other bytes are 0.
fn round_constant(number: usize) -> u8
    requires low { 1 ≤ number }
    requires high { number ≤ 10 }
    ensures { result ≡ power 2 (number - 1) }
{
    ROUND_CONSTANTS[number - 1]
}

// What word `i` adds to the word `word_count` before it, from the word just before it.
fn mixed_word(word_count: usize, i: usize, before: [u8; 4]) -> [u8; 4]
    requires size { (word_count ≡ 4) ⊎ (word_count ≡ 8) }
    requires low { word_count ≤ i }
    requires high { i < 4 * (word_count + 7) }
    ensures { result ≡ mixed_word word_count i before }
{
    if i % word_count == 0 {
        let [a, b, c, d] = before;
        let [b, c, d, a] = sub_word([b, c, d, a]);
        [b ^ round_constant(i / word_count), c, d, a]
    } else if word_count > 6 && i % word_count == 4 {
        sub_word(before)
    } else {
        before
    }
}

fn xor_word(x: [u8; 4], y: [u8; 4]) -> [u8; 4]
    ensures { result ≡ xor_word x y }
{
    [x[0] ^ y[0], x[1] ^ y[1], x[2] ^ y[2], x[3] ^ y[3]]
}

// Word `i`, of which only the words before it are read.
fn next_word(key: &[u8], words: &[[u8; 4]; WORDS], i: usize) -> [u8; 4]
    requires size { (length key.now ≡ 16) ⊎ (length key.now ≡ 32) }
    requires high { i < 4 * (round_count key.now + 1) }
    ensures { result ≡ next_word key.now words.now i }
{
    let word_count = key.len() / 4;
    if i < word_count {
        return [key[4 * i], key[4 * i + 1], key[4 * i + 2], key[4 * i + 3]];
    }
    xor_word(
        words[i - word_count],
        mixed_word(word_count, i, words[i - 1]),
    )
}

// The words of all rounds under a key, and zeros behind them.
fn expand(key: &[u8]) -> [[u8; 4]; WORDS]
    requires { (length key.now ≡ 16) ⊎ (length key.now ≡ 32) }
    ensures { take (4 * (round_count key.now + 1)) result ≡ key_expansion key.now }
{
    let word_count = key.len() / 4;
    let mut words = [[0; 4]; WORDS];
    for i in 0..4 * (word_count + 7) {
        words[i] = next_word(key, &words, i);
    }
    words
}

/// The cipher of one block of 16 bytes under a key of 16 or 32 (FIPS 197, 5.1).
pub(crate) fn encrypt_block(key: &[u8], block: &[u8; 16]) -> [u8; 16]
    requires { (length key.now ≡ 16) ⊎ (length key.now ≡ 32) }
    ensures { result ≡ cipher key.now block.now }
{
    let words = expand(key);
    let rounds = key.len() / 4 + 6;
    let mut state = add_round_key(block, &words, 0);
    for round in 1..rounds {
        state = mix_columns(&shift_rows(&sub_bytes(&state)));
        state = add_round_key(&state, &words, round);
    }
    state = shift_rows(&sub_bytes(&state));
    add_round_key(&state, &words, rounds)
}

// The counter `steps` steps on, one by one.
fn counter_after(start: &[u8; 16], kind: CtrKind, steps: usize) -> [u8; 16]
    ensures { result ≡ counter_plus kind start.now steps }
{
    let mut counter = *start;
    for _step in 0..steps {
        counter = next_counter(&counter, kind);
    }
    counter
}

/// Encrypts or decrypts `body` in place, block by block (SP 800-38A, 6.5).
pub(crate) fn ctr_xor(key: &[u8], start: &[u8; 16], kind: CtrKind, body: &mut [u8])
    requires { (length key.now ≡ 16) ⊎ (length key.now ≡ 32) }
    ensures { body.new ≡ ctr key.now start.now kind body.old }
{
    let mut output = [0; 16];
    for (i, byte) in body.iter_mut().enumerate() {
        if i % 16 == 0 {
            output = encrypt_block(key, &counter_after(start, kind, i / 16));
        }
        *byte ^= output[i % 16];
    }
}

// One step of the standard incrementing function, or of that of RFC 8452, 4.
fn next_counter(counter: &[u8; 16], kind: CtrKind) -> [u8; 16]
    ensures { result ≡ counter_plus kind counter.now 1 }
{
    match kind {
        CtrKind::Low32 => {
            let [.., a, b, c, d] = *counter;
            let count = u32::from_be_bytes([a, b, c, d]).wrapping_add(1);
            let mut next = *counter;
            next[12..].copy_from_slice(&count.to_be_bytes());
            next
        }
        CtrKind::First32 => {
            let [a, b, c, d, ..] = *counter;
            let count = u32::from_le_bytes([a, b, c, d]).wrapping_add(1);
            let mut next = *counter;
            next[..4].copy_from_slice(&count.to_le_bytes());
            next
        }
        CtrKind::All128 => u128::from_be_bytes(*counter).wrapping_add(1).to_be_bytes(),
    }
}
