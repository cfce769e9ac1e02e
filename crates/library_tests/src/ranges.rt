//! Ranges of a stream over a device in memory.

use crate::rows::few;
use keyset_model::read_binary;
use segment_stream::StreamKeys;
use std::alloc::Global;
use std::test::Fail;
use stream_range::{MemDevice, open_range};
use test_words::{bytes_of, counting, same_bytes, same_text};

// A keyset, and a stream of five segments of AES-GCM by Python's cryptography (HKDF, AES-GCM), of the bytes 0 to
// 84.
const KEYSET: &str =
    "080112650a5d0a3d747970652e676f6f676c65617069732e636f6d2f676f6f676c652e63727970746f2e74696e6b2e41657347636d486b646653747265616d696e674b6579121a1206082a101018031a10000102030405060708090a0b0c0d0e0f1801100118012003";

const FIVE: &str =
    "18101112131415161718191a1b1c1d1e1f202122232425260230270b51ece399c4b84a0bcfbb3f91b804c9c02b6c8cfd770e3c87a003c8f9222de40a2ed31cbea20df1c5d5a591909c056fd791c37a79c708bc0c0693f54914ca7c46e3a3b4006b82fed6a2877b6568613d6f09b4b67461ffc25d49d94651696e5c095416353212a1916dc45d16c437f1248aec85ca67c19f4f58107cdefe6c2a89fb64151114dc85e88a97fc6447a841f7a5b2f5f745bf803e67dc32e9384ca09af899";

/// The keys of the keyset.
fn keys_of(alloc: Global) -> Result<StreamKeys, Fail> {
    let keyset = read_binary(alloc, &few(bytes_of(alloc, KEYSET)?)?)?;
    match StreamKeys::new(alloc, &keyset) {
        Ok(keys) => Ok(keys),
        Err(_) => Err("keys of streams".into()),
    }
}

/// How the range of the whole plaintext ends over a device that gives so many bytes at once, and whose call of
/// this number fails; 0 is no call.
fn ended(alloc: Global, keys: &StreamKeys, piece: usize, call: u64) -> Result<String, Fail> {
    let fails = vec![in alloc; call; 1]?;
    let mut device = MemDevice::new(bytes_of(alloc, FIVE)?, piece.max(1), fails);
    let range = open_range(alloc, keys, b"", &mut device, 0, 85);
    if device.faults() > 1 {
        return Err("a device that isn't asked again".into());
    }
    match range {
        Ok(bytes) => {
            same_bytes(
                alloc,
                "all segments",
                "the range",
                &counting(alloc, 85)?,
                &bytes,
            )?;
            Ok(String::from_str(alloc, "done")?)
        }
        Err(fault) => Ok(format!(in alloc; "{fault:?}")?),
    }
}

// It is read by seven calls: one for the header, one for the last segment, which tells that the stream is whole, and
// one for each segment.
#[test]
fn answers_each_read_that_fails(rt: HostRuntime) -> Result<(), Fail> {
    let keys = keys_of(rt.alloc())?;
    for call in 1..8 {
        let end = ended(rt.alloc(), &keys, 4096, call)?;
        same_text("a read", "the end", "ReadFault", end.as_str())?;
    }
    let end = ended(rt.alloc(), &keys, 4096, 8)?;
    same_text("no eighth read", "the end", "done", end.as_str())?;
    let end = ended(rt.alloc(), &keys, 7, 0)?;
    same_text("short reads", "the end", "done", end.as_str())
}
