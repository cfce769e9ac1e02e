//! The functions that C calls. A slice is a pointer that isn't null, and its length.

ghost use Rattle.std.specs.Prelude.{◌≡◌, ◌≢◌, pos, length, [], None};
ghost use Rattle.key_msgs.specs.declared.primitive.Primitive.TheVariants.{Aead, Daead, Mac, Prf};
ghost use Rattle.keyset_json.specs.Reading.{reads_json};
ghost use Rattle.keyset_model.specs.Reading.{reads_binary};
ghost use Rattle.ready_keysets.specs.Texts.{IsNoKeyset};
ghost use Rattle.ready_keysets.specs.Unwrapping.{IsNotInside, keyset_inside};
ghost use Rattle.ready_keysets.specs.declared.work.Work.TheVariants as works;
ghost use Rattle.tinkey_c.specs.Shared.{DoesBy, IsLive, IsMade, IsOpen, Refuses, SameKeys, Verifies};

use crate::calls::{binary_keys, json_keys, perform, wrapped_keys};
use crate::shared::{SharedKeys, no_keys, taken};
use key_msgs::Primitive;
use ready_keysets::Work;
use std::alloc::Global;
use std::mem::replace;

/// Makes the keys of a keyset in JSON ready, for AEADs.
#[unsafe(no_mangle)]
pub extern "C" fn tinkey_core_aead_of_json(alloc: Global, text: &[u8], keys: &mut SharedKeys) -> i32
    requires closed { keys.old.held ≡ None }
    ensures made { result ≡ pos 0 → IsMade Aead (reads_json text.now) keys.new.held }
    ensures refused { result ≢ pos 0 → Refuses
        (IsNoKeyset Aead (length text.now) (reads_json text.now)) result }
    ensures none { result ≢ pos 0 → keys.new.held ≡ None }
{
    json_keys(alloc, text, Primitive::Aead, keys)
}

/// Makes the keys of a keyset in its binary form ready, for AEADs.
#[unsafe(no_mangle)]
pub extern "C" fn tinkey_core_aead_of_binary(
    alloc: Global,
    bytes: &[u8],
    keys: &mut SharedKeys,
) -> i32
    requires closed { keys.old.held ≡ None }
    ensures made { result ≡ pos 0 → IsMade Aead (reads_binary bytes.now) keys.new.held }
    ensures refused { result ≢ pos 0 → Refuses
        (IsNoKeyset Aead (length bytes.now) (reads_binary bytes.now)) result }
    ensures none { result ≢ pos 0 → keys.new.held ≡ None }
{
    binary_keys(alloc, bytes, Primitive::Aead, keys)
}

/// Makes the keys of a keyset in JSON ready, for deterministic AEADs.
#[unsafe(no_mangle)]
pub extern "C" fn tinkey_core_daead_of_json(
    alloc: Global,
    text: &[u8],
    keys: &mut SharedKeys,
) -> i32
    requires closed { keys.old.held ≡ None }
    ensures made { result ≡ pos 0 → IsMade Daead (reads_json text.now) keys.new.held }
    ensures refused { result ≢ pos 0 → Refuses
        (IsNoKeyset Daead (length text.now) (reads_json text.now)) result }
    ensures none { result ≢ pos 0 → keys.new.held ≡ None }
{
    json_keys(alloc, text, Primitive::Daead, keys)
}

/// Makes the keys of a keyset in its binary form ready, for deterministic AEADs.
#[unsafe(no_mangle)]
pub extern "C" fn tinkey_core_daead_of_binary(
    alloc: Global,
    bytes: &[u8],
    keys: &mut SharedKeys,
) -> i32
    requires closed { keys.old.held ≡ None }
    ensures made { result ≡ pos 0 → IsMade Daead (reads_binary bytes.now) keys.new.held }
    ensures refused { result ≢ pos 0 → Refuses
        (IsNoKeyset Daead (length bytes.now) (reads_binary bytes.now)) result }
    ensures none { result ≢ pos 0 → keys.new.held ≡ None }
{
    binary_keys(alloc, bytes, Primitive::Daead, keys)
}

/// Makes the keys of a keyset in JSON ready, for MACs.
#[unsafe(no_mangle)]
pub extern "C" fn tinkey_core_mac_of_json(alloc: Global, text: &[u8], keys: &mut SharedKeys) -> i32
    requires closed { keys.old.held ≡ None }
    ensures made { result ≡ pos 0 → IsMade Mac (reads_json text.now) keys.new.held }
    ensures refused { result ≢ pos 0 → Refuses
        (IsNoKeyset Mac (length text.now) (reads_json text.now)) result }
    ensures none { result ≢ pos 0 → keys.new.held ≡ None }
{
    json_keys(alloc, text, Primitive::Mac, keys)
}

/// Makes the keys of a keyset in its binary form ready, for MACs.
#[unsafe(no_mangle)]
pub extern "C" fn tinkey_core_mac_of_binary(
    alloc: Global,
    bytes: &[u8],
    keys: &mut SharedKeys,
) -> i32
    requires closed { keys.old.held ≡ None }
    ensures made { result ≡ pos 0 → IsMade Mac (reads_binary bytes.now) keys.new.held }
    ensures refused { result ≢ pos 0 → Refuses
        (IsNoKeyset Mac (length bytes.now) (reads_binary bytes.now)) result }
    ensures none { result ≢ pos 0 → keys.new.held ≡ None }
{
    binary_keys(alloc, bytes, Primitive::Mac, keys)
}

/// Makes the keys of a keyset in JSON ready, for pseudo-random functions.
#[unsafe(no_mangle)]
pub extern "C" fn tinkey_core_prf_of_json(alloc: Global, text: &[u8], keys: &mut SharedKeys) -> i32
    requires closed { keys.old.held ≡ None }
    ensures made { result ≡ pos 0 → IsMade Prf (reads_json text.now) keys.new.held }
    ensures refused { result ≢ pos 0 → Refuses
        (IsNoKeyset Prf (length text.now) (reads_json text.now)) result }
    ensures none { result ≢ pos 0 → keys.new.held ≡ None }
{
    json_keys(alloc, text, Primitive::Prf, keys)
}

/// Makes the keys of a keyset in its binary form ready, for pseudo-random functions.
#[unsafe(no_mangle)]
pub extern "C" fn tinkey_core_prf_of_binary(
    alloc: Global,
    bytes: &[u8],
    keys: &mut SharedKeys,
) -> i32
    requires closed { keys.old.held ≡ None }
    ensures made { result ≡ pos 0 → IsMade Prf (reads_binary bytes.now) keys.new.held }
    ensures refused { result ≢ pos 0 → Refuses
        (IsNoKeyset Prf (length bytes.now) (reads_binary bytes.now)) result }
    ensures none { result ≢ pos 0 → keys.new.held ≡ None }
{
    binary_keys(alloc, bytes, Primitive::Prf, keys)
}

/// Makes the keys of an encrypted keyset under its master ready, for AEADs. Each text is in JSON or
/// in the binary form.
#[unsafe(no_mangle)]
pub extern "C" fn tinkey_core_aead_of_wrapped(
    alloc: Global,
    encrypted: &[u8],
    encrypted_json: bool,
    master: &[u8],
    master_json: bool,
    keys: &mut SharedKeys,
) -> i32
    requires closed { keys.old.held ≡ None }
    ensures made { result ≡ pos 0 → IsMade Aead
        (keyset_inside encrypted.now encrypted_json master.now master_json) keys.new.held }
    ensures refused { result ≢ pos 0 → Refuses
        (IsNotInside Aead (length encrypted.now) (length master.now)
        (keyset_inside encrypted.now encrypted_json master.now master_json)) result }
    ensures none { result ≢ pos 0 → keys.new.held ≡ None }
{
    wrapped_keys(
        alloc,
        encrypted,
        encrypted_json,
        master,
        master_json,
        Primitive::Aead,
        keys,
    )
}

/// Makes the keys of an encrypted keyset under its master ready, for deterministic AEADs. Each text
/// is in JSON or in the binary form.
#[unsafe(no_mangle)]
pub extern "C" fn tinkey_core_daead_of_wrapped(
    alloc: Global,
    encrypted: &[u8],
    encrypted_json: bool,
    master: &[u8],
    master_json: bool,
    keys: &mut SharedKeys,
) -> i32
    requires closed { keys.old.held ≡ None }
    ensures made { result ≡ pos 0 → IsMade Daead
        (keyset_inside encrypted.now encrypted_json master.now master_json) keys.new.held }
    ensures refused { result ≢ pos 0 → Refuses
        (IsNotInside Daead (length encrypted.now) (length master.now)
        (keyset_inside encrypted.now encrypted_json master.now master_json)) result }
    ensures none { result ≢ pos 0 → keys.new.held ≡ None }
{
    wrapped_keys(
        alloc,
        encrypted,
        encrypted_json,
        master,
        master_json,
        Primitive::Daead,
        keys,
    )
}

/// Makes the keys of an encrypted keyset under its master ready, for MACs. Each text is in JSON or
/// in the binary form.
#[unsafe(no_mangle)]
pub extern "C" fn tinkey_core_mac_of_wrapped(
    alloc: Global,
    encrypted: &[u8],
    encrypted_json: bool,
    master: &[u8],
    master_json: bool,
    keys: &mut SharedKeys,
) -> i32
    requires closed { keys.old.held ≡ None }
    ensures made { result ≡ pos 0 → IsMade Mac
        (keyset_inside encrypted.now encrypted_json master.now master_json) keys.new.held }
    ensures refused { result ≢ pos 0 → Refuses
        (IsNotInside Mac (length encrypted.now) (length master.now)
        (keyset_inside encrypted.now encrypted_json master.now master_json)) result }
    ensures none { result ≢ pos 0 → keys.new.held ≡ None }
{
    wrapped_keys(
        alloc,
        encrypted,
        encrypted_json,
        master,
        master_json,
        Primitive::Mac,
        keys,
    )
}

/// Makes the keys of an encrypted keyset under its master ready, for pseudo-random functions. Each
/// text is in JSON or in the binary form.
#[unsafe(no_mangle)]
pub extern "C" fn tinkey_core_prf_of_wrapped(
    alloc: Global,
    encrypted: &[u8],
    encrypted_json: bool,
    master: &[u8],
    master_json: bool,
    keys: &mut SharedKeys,
) -> i32
    requires closed { keys.old.held ≡ None }
    ensures made { result ≡ pos 0 → IsMade Prf
        (keyset_inside encrypted.now encrypted_json master.now master_json) keys.new.held }
    ensures refused { result ≢ pos 0 → Refuses
        (IsNotInside Prf (length encrypted.now) (length master.now)
        (keyset_inside encrypted.now encrypted_json master.now master_json)) result }
    ensures none { result ≢ pos 0 → keys.new.held ≡ None }
{
    wrapped_keys(
        alloc,
        encrypted,
        encrypted_json,
        master,
        master_json,
        Primitive::Prf,
        keys,
    )
}

/// Seals the plaintext with the first of these random bytes as IV, to the front of `out`.
#[unsafe(no_mangle)]
pub extern "C" fn tinkey_core_seal(
    alloc: Global,
    keys: &mut SharedKeys,
    random: &[u8],
    plain: &[u8],
    ad: &[u8],
    out: &mut [u8],
    size: &mut usize,
) -> i32
    requires live { IsLive keys.old.held }
    ensures live { IsLive keys.new.held }
    ensures same { SameKeys keys.old.held keys.new.held }
    ensures done { DoesBy keys.old.held (works.Seal plain.entry ad.entry random.entry)
        out.old out.new size.old size.new
        result }
    ensures kept { result ≢ pos 0 → out.new ≡ out.old }
{
    perform(alloc, keys, Work::Seal(plain, ad, random), out, size)
}

/// Opens sealed bytes, and writes the plaintext to the front of `out`.
#[unsafe(no_mangle)]
pub extern "C" fn tinkey_core_open(
    alloc: Global,
    keys: &mut SharedKeys,
    sealed: &[u8],
    ad: &[u8],
    out: &mut [u8],
    size: &mut usize,
) -> i32
    requires live { IsLive keys.old.held }
    ensures live { IsLive keys.new.held }
    ensures same { SameKeys keys.old.held keys.new.held }
    ensures done { DoesBy keys.old.held (works.Open sealed.entry ad.entry)
        out.old out.new size.old size.new
        result }
    ensures kept { result ≢ pos 0 → out.new ≡ out.old }
{
    perform(alloc, keys, Work::Open(sealed, ad), out, size)
}

/// Seals the plaintext without an IV, to the front of `out`.
#[unsafe(no_mangle)]
pub extern "C" fn tinkey_core_dseal(
    alloc: Global,
    keys: &mut SharedKeys,
    plain: &[u8],
    ad: &[u8],
    out: &mut [u8],
    size: &mut usize,
) -> i32
    requires live { IsLive keys.old.held }
    ensures live { IsLive keys.new.held }
    ensures same { SameKeys keys.old.held keys.new.held }
    ensures done { DoesBy keys.old.held (works.Dseal plain.entry ad.entry)
        out.old out.new size.old size.new
        result }
    ensures kept { result ≢ pos 0 → out.new ≡ out.old }
{
    perform(alloc, keys, Work::Dseal(plain, ad), out, size)
}

/// Opens what was sealed without an IV, and writes the plaintext to the front of `out`.
#[unsafe(no_mangle)]
pub extern "C" fn tinkey_core_dopen(
    alloc: Global,
    keys: &mut SharedKeys,
    sealed: &[u8],
    ad: &[u8],
    out: &mut [u8],
    size: &mut usize,
) -> i32
    requires live { IsLive keys.old.held }
    ensures live { IsLive keys.new.held }
    ensures same { SameKeys keys.old.held keys.new.held }
    ensures done { DoesBy keys.old.held (works.Dopen sealed.entry ad.entry)
        out.old out.new size.old size.new
        result }
    ensures kept { result ≢ pos 0 → out.new ≡ out.old }
{
    perform(alloc, keys, Work::Dopen(sealed, ad), out, size)
}

/// Writes the tag of the body to the front of `out`.
#[unsafe(no_mangle)]
pub extern "C" fn tinkey_core_tag(
    alloc: Global,
    keys: &mut SharedKeys,
    body: &[u8],
    out: &mut [u8],
    size: &mut usize,
) -> i32
    requires live { IsLive keys.old.held }
    ensures live { IsLive keys.new.held }
    ensures same { SameKeys keys.old.held keys.new.held }
    ensures done { DoesBy keys.old.held (works.Tag body.entry)
        out.old out.new size.old size.new
        result }
    ensures kept { result ≢ pos 0 → out.new ≡ out.old }
{
    perform(alloc, keys, Work::Tag(body), out, size)
}

/// Derives `count` bytes from the input, to the front of `out`.
#[unsafe(no_mangle)]
pub extern "C" fn tinkey_core_derive(
    alloc: Global,
    keys: &mut SharedKeys,
    input: &[u8],
    count: usize,
    out: &mut [u8],
    size: &mut usize,
) -> i32
    requires live { IsLive keys.old.held }
    ensures live { IsLive keys.new.held }
    ensures same { SameKeys keys.old.held keys.new.held }
    ensures done { DoesBy keys.old.held (works.Derive input.entry count)
        out.old out.new size.old size.new
        result }
    ensures kept { result ≢ pos 0 → out.new ≡ out.old }
{
    perform(alloc, keys, Work::Derive(input, count), out, size)
}

/// Verifies the tag of the body: 0 if it is right.
#[unsafe(no_mangle)]
pub extern "C" fn tinkey_core_verify(
    alloc: Global,
    keys: &mut SharedKeys,
    tag: &[u8],
    body: &[u8],
) -> i32
    requires live { IsLive keys.old.held }
    ensures live { IsLive keys.new.held }
    ensures same { SameKeys keys.old.held keys.new.held }
    ensures verified { Verifies keys.old.held (works.Verify tag.entry body.entry) result }
{
    let mut size = 0;
    perform(alloc, keys, Work::Verify(tag, body), &mut [], &mut size)
}

/// Frees the keys.
#[unsafe(no_mangle)]
pub extern "C" fn tinkey_core_free(alloc: Global, keys: &mut SharedKeys)
    requires live { IsOpen keys.old.held }
    ensures closed { keys.new.held ≡ None }
{
    drop(taken(replace(keys, no_keys()), alloc).into_box());
}
