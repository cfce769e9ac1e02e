//! Sealing with an IV.

ghost use Rattle.std.specs.Prelude.{◌≡◌, ◌⊎◌, ◌+◌, ◌++◌, ◌^◌, ◌<◌, ◌≤◌, [], drop, length, take, ℕ, Err, IfOk, IfErr, OnOk, OnErr, slice_get};
ghost use Rattle.key_msgs.specs.declared.primitive.Primitive.TheVariants.{Aead};
ghost use Rattle.keyset_model.specs.Keyset.{Keys};
ghost use Rattle.managers.specs.Uses.{iv_size, seal_of};
ghost use Rattle.tink_spec.specs.Outside.{Drew, RanShort, Stood};
ghost use Rattle.wrapped_prims.specs.Candidates.{prefix_bytes};
ghost use Rattle.wrapped_prims.specs.Held.{IsServedBy};
ghost use Rattle.wrapped_prims.specs.Making.{IsOver};
ghost use Rattle.wrapped_prims.specs.Rooms.{kept_size, room_of, seal_room};
ghost use Rattle.wrapped_prims.specs.Sealing.{IsKeyFault, IsKeyIntoFault, IsKeySealing, IsSealFault, IsSealIntoFault, IsSealing};

use crate::Handle;
use crate::held::{Kept, front};
use crate::making::primary;
use crate::rooms::behind_room;
use key_msgs::Primitive;
use managers::{AeadManager, KeyTable, Managers};
use std::alloc::Global;
use tink_base::{Entropy, Failed};

/// Why nothing was sealed.
#[derive(Clone, Copy, Debug, PartialEq, Eq)]
pub enum SealFault {
    /// The entropy failed.
    EntropyFault,
    /// Memory couldn't be allocated.
    NoMemory,
}

/// Why nothing was sealed into an output.
#[derive(Clone, Copy, Debug, PartialEq, Eq)]
pub enum SealIntoFault {
    /// The entropy failed.
    EntropyFault,
    /// The sealing has more bytes than the output.
    NoRoom,
}

/// The most bytes that an IV has.
const LONGEST_IV: usize = 16;

// Fills an IV with random bytes, in one fill. For an IV of no bytes nothing is drawn.
fn draw_iv<E: Entropy>(entropy: &mut E, iv: &mut [u8]) -> Result<(), Failed>
    ensures drew { OnOk result (Drew (E.state entropy.old) (E.state entropy.new) iv.new) }
    ensures no_fault { OnOk result (Stood (E.state entropy.old).faults (E.state entropy.new).faults) }
    ensures size { length iv.new ≡ length iv.old }
    ensures some { OnErr result (0 < length iv.old) }
    ensures short { OnErr result
        (RanShort (E.state entropy.old) (E.state entropy.new) (length iv.old)) }
{
    if iv.is_empty() {
        return Ok(());
    }
    entropy.fill(iv)
}

// How many bytes precede a ciphertext under a kept key: its prefix, and an IV.
fn room_under(managers: &Managers, kept: &Kept) -> usize
    requires served { IsServedBy
        (slice_get (⟦<Managers as KeyTable>⟧.table managers.now).aead kept.now.place) kept.now.key }
    ensures room { result ≡ room_of kept.now }
    ensures bound { result ≤ 2 ^ 10 }
{
    let iv_size = managers.aead_at(kept.place).iv_size(&kept.key);
    front(&kept.prefix).len() + iv_size
}

// How many bytes a sealing under a kept key has: its prefix, IV, ciphertext and tag.
fn size_under(managers: &Managers, kept: &Kept, plain: usize) -> usize
    requires served { IsServedBy
        (slice_get (⟦<Managers as KeyTable>⟧.table managers.now).aead kept.now.place) kept.now.key }
    requires plain_bound { plain ≤ 2 ^ 30 }
    ensures { result ≡ kept_size kept.now plain }
{
    let sealed = managers.aead_at(kept.place).sealed_size(&kept.key, plain);
    front(&kept.prefix).len() + sealed
}

// Seals in place under a kept key with this IV, and writes the key's prefix before it.
fn seal_with(managers: &Managers, kept: &Kept, sealed: &mut [u8], iv: &[u8], ad: &[u8])
    requires served { IsServedBy
        (slice_get (⟦<Managers as KeyTable>⟧.table managers.now).aead kept.now.place) kept.now.key }
    requires whole_iv { length iv.now ≡ iv_size kept.now.key }
    requires room { (n : ℕ) × (n ≤ 2 ^ 30) × (length sealed.old ≡ kept_size kept.now n) }
    requires ad_bound { length ad.now ≤ 2 ^ 30 }
    ensures { (n : ℕ) → length sealed.old ≡ kept_size kept.now n
        → sealed.new ≡ prefix_bytes kept.now.prefix
        ++ seal_of kept.now.key iv.now (take n (drop (room_of kept.now) sealed.old)) ad.now }
{
    let prefix = front(&kept.prefix);
    let (before, behind) = sealed.split_at_mut(prefix.len());
    before.copy_from_slice(prefix);
    managers.aead_at(kept.place).seal(&kept.key, behind, iv, ad);
}

// Seals in place under a kept key, after its prefix.
fn seal_kept<E: Entropy>(
    managers: &Managers,
    kept: &Kept,
    mut bytes: Vec<u8>,
    ad: &[u8],
    entropy: &mut E,
) -> Result<Vec<u8>, SealFault>
    requires served { IsServedBy
        (slice_get (⟦<Managers as KeyTable>⟧.table managers.now).aead kept.now.place) kept.now.key }
    requires room { room_of kept.now ≤ length bytes.items }
    requires plain_bound { length bytes.items ≤ room_of kept.now + 2 ^ 30 }
    requires ad_bound { length ad.now ≤ 2 ^ 30 }
    ensures sealed { IfOk result (λ sealed. IsKeySealing kept.now.key
        (prefix_bytes kept.now.prefix) (drop (room_of kept.now) bytes.items) ad.now
        (E.state entropy.old) (E.state entropy.new) sealed.items) }
    ensures no_fault { OnOk result (Stood (E.state entropy.old).faults (E.state entropy.new).faults) }
    ensures fault { IfErr result
        (IsKeyFault kept.now.key (E.state entropy.old) (E.state entropy.new)) }
{
    let mut longest = [0; LONGEST_IV];
    let iv = &mut longest[..managers.aead_at(kept.place).iv_size(&kept.key)];
    match draw_iv(entropy, iv) {
        Ok(()) => {}
        Err(_) => return Err(SealFault::EntropyFault),
    }
    let plain = bytes.len() - room_under(managers, kept);
    match bytes.resize(size_under(managers, kept, plain), 0) {
        Ok(()) => {}
        Err(_) => return Err(SealFault::NoMemory),
    }
    seal_with(managers, kept, &mut bytes, iv, ad);
    Ok(bytes)
}

// Seals a plaintext under a kept key with this IV, after the key's prefix.
fn seal_copy(
    managers: &Managers,
    kept: &Kept,
    plain: &[u8],
    iv: &[u8],
    ad: &[u8],
    sealed: &mut [u8],
)
    requires served { IsServedBy
        (slice_get (⟦<Managers as KeyTable>⟧.table managers.now).aead kept.now.place) kept.now.key }
    requires whole_iv { length iv.now ≡ iv_size kept.now.key }
    requires plain_bound { length plain.now ≤ 2 ^ 30 }
    requires ad_bound { length ad.now ≤ 2 ^ 30 }
    requires room { length sealed.old ≡ kept_size kept.now (length plain.now) }
    ensures { sealed.new ≡ prefix_bytes kept.now.prefix
        ++ seal_of kept.now.key iv.now plain.now ad.now }
{
    let start = room_under(managers, kept);
    // A key that is no AEAD key seals to no bytes.
    if start + plain.len() <= sealed.len() {
        sealed[start..start + plain.len()].copy_from_slice(plain);
    }
    seal_with(managers, kept, sealed, iv, ad);
}

// Seals a plaintext under a kept key at the front of an output.
fn seal_kept_into<E: Entropy>(
    managers: &Managers,
    kept: &Kept,
    plain: &[u8],
    ad: &[u8],
    entropy: &mut E,
    out: &mut [u8],
) -> Result<usize, SealIntoFault>
    requires served { IsServedBy
        (slice_get (⟦<Managers as KeyTable>⟧.table managers.now).aead kept.now.place) kept.now.key }
    requires plain_bound { length plain.now ≤ 2 ^ 30 }
    requires ad_bound { length ad.now ≤ 2 ^ 30 }
    ensures sealed { IfOk result (λ size. IsKeySealing kept.now.key
        (prefix_bytes kept.now.prefix) plain.now ad.now
        (E.state entropy.old) (E.state entropy.new) (take size out.new)) }
    ensures rest { IfOk result (λ size. drop size out.new ≡ drop size out.old) }
    ensures kept { OnErr result (out.new ≡ out.old) }
    ensures no_fault { OnOk result (Stood (E.state entropy.old).faults (E.state entropy.new).faults) }
    ensures fault { IfErr result (IsKeyIntoFault kept.now.key (prefix_bytes kept.now.prefix)
        plain.now ad.now (E.state entropy.old) (E.state entropy.new) (length out.old)) }
{
    let mut longest = [0; LONGEST_IV];
    let iv = &mut longest[..managers.aead_at(kept.place).iv_size(&kept.key)];
    match draw_iv(entropy, iv) {
        Ok(()) => {}
        Err(_) => return Err(SealIntoFault::EntropyFault),
    }
    let size = size_under(managers, kept, plain.len());
    if out.len() < size {
        return Err(SealIntoFault::NoRoom);
    }
    seal_copy(managers, kept, plain, iv, ad, &mut out[..size]);
    Ok(size)
}

impl Handle<'_> {
    /// Seals a plaintext under the primary key: its prefix, IV, ciphertext and tag. Plaintext and
    /// associated data have at most 2^30 bytes each.
    ///
    /// One IV is drawn, in one fill, unless it has no bytes. `EntropyFault` comes only if that fill
    /// failed. After `NoMemory` either nothing or the IV was drawn.
    pub fn seal<E: Entropy>(
        &self,
        alloc: Global,
        plain: &[u8],
        ad: &[u8],
        entropy: &mut E,
    ) -> Result<Vec<u8>, SealFault>
        requires over { (keys : Keys)
            × IsOver (⟦<Managers as KeyTable>⟧.table self.now.managers.now) Aead keys self.now.held }
        requires plain_bound { length plain.now ≤ 2 ^ 30 }
        requires ad_bound { length ad.now ≤ 2 ^ 30 }
        ensures sealed { (keys : Keys)
            → IsOver (⟦<Managers as KeyTable>⟧.table self.now.managers.now) Aead keys self.now.held
            → IfOk result (λ sealed. IsSealing keys
            (⟦<Managers as KeyTable>⟧.table self.now.managers.now) plain.now ad.now
            (E.state entropy.old) (E.state entropy.new) sealed.items) }
        ensures no_fault { OnOk result
            (Stood (E.state entropy.old).faults (E.state entropy.new).faults) }
        ensures fault { (keys : Keys)
            → IsOver (⟦<Managers as KeyTable>⟧.table self.now.managers.now) Aead keys self.now.held
            → IfErr result (IsSealFault keys
            (⟦<Managers as KeyTable>⟧.table self.now.managers.now) (E.state entropy.old)
            (E.state entropy.new)) }
    {
        match behind_room(alloc, self.seal_room(), plain) {
            Ok(bytes) => self.seal_in_place(bytes, ad, entropy),
            Err(_) => Err(SealFault::NoMemory),
        }
    }

    /// How many bytes `seal` puts before the ciphertext: the primary key's prefix, and an IV. No
    /// memory is taken.
    pub fn seal_room(&self) -> usize
        requires over { (keys : Keys)
            × IsOver (⟦<Managers as KeyTable>⟧.table self.now.managers.now) Aead keys self.now.held }
        ensures room { result ≡ seal_room self.now.held }
        ensures bound { result ≤ 2 ^ 10 }
    {
        room_under(
            self.managers,
            primary(self.managers, Primitive::Aead, &self.held),
        )
    }

    /// Seals as `seal` does, in place: the plaintext is what follows the first `seal_room` bytes of
    /// `bytes`, whatever these are.
    pub fn seal_in_place<E: Entropy>(
        &self,
        bytes: Vec<u8>,
        ad: &[u8],
        entropy: &mut E,
    ) -> Result<Vec<u8>, SealFault>
        requires over { (keys : Keys)
            × IsOver (⟦<Managers as KeyTable>⟧.table self.now.managers.now) Aead keys self.now.held }
        requires room { seal_room self.now.held ≤ length bytes.items }
        requires plain_bound { length bytes.items ≤ seal_room self.now.held + 2 ^ 30 }
        requires ad_bound { length ad.now ≤ 2 ^ 30 }
        ensures sealed { (keys : Keys)
            → IsOver (⟦<Managers as KeyTable>⟧.table self.now.managers.now) Aead keys self.now.held
            → IfOk result (λ sealed. IsSealing keys
            (⟦<Managers as KeyTable>⟧.table self.now.managers.now)
            (drop (seal_room self.now.held) bytes.items) ad.now
            (E.state entropy.old) (E.state entropy.new) sealed.items) }
        ensures no_fault { OnOk result
            (Stood (E.state entropy.old).faults (E.state entropy.new).faults) }
        ensures fault { (keys : Keys)
            → IsOver (⟦<Managers as KeyTable>⟧.table self.now.managers.now) Aead keys self.now.held
            → IfErr result (IsSealFault keys
            (⟦<Managers as KeyTable>⟧.table self.now.managers.now) (E.state entropy.old)
            (E.state entropy.new)) }
    {
        let kept = primary(self.managers, Primitive::Aead, &self.held);
        seal_kept(self.managers, kept, bytes, ad, entropy)
    }
    /// Seals a plaintext as `seal` does, at the front of an output, and returns how many bytes the
    /// sealing has. The rest of the output is unchanged; after a fault all of it is. No memory is
    /// taken.
    ///
    /// The IV is drawn first. `EntropyFault` comes only if that failed, and `NoRoom` only if the
    /// sealing has more bytes than the output.
    pub fn seal_into<E: Entropy>(
        &self,
        plain: &[u8],
        ad: &[u8],
        entropy: &mut E,
        out: &mut [u8],
    ) -> Result<usize, SealIntoFault>
        requires over { (keys : Keys)
            × IsOver (⟦<Managers as KeyTable>⟧.table self.now.managers.now) Aead keys self.now.held }
        requires plain_bound { length plain.now ≤ 2 ^ 30 }
        requires ad_bound { length ad.now ≤ 2 ^ 30 }
        ensures sealed { (keys : Keys)
            → IsOver (⟦<Managers as KeyTable>⟧.table self.now.managers.now) Aead keys self.now.held
            → IfOk result (λ size. IsSealing keys
            (⟦<Managers as KeyTable>⟧.table self.now.managers.now) plain.now ad.now
            (E.state entropy.old) (E.state entropy.new) (take size out.new)) }
        ensures rest { IfOk result (λ size. drop size out.new ≡ drop size out.old) }
        ensures kept { OnErr result (out.new ≡ out.old) }
        ensures no_fault { OnOk result
            (Stood (E.state entropy.old).faults (E.state entropy.new).faults) }
        ensures fault { (keys : Keys)
            → IsOver (⟦<Managers as KeyTable>⟧.table self.now.managers.now) Aead keys self.now.held
            → IfErr result (IsSealIntoFault keys
            (⟦<Managers as KeyTable>⟧.table self.now.managers.now) plain.now ad.now
            (E.state entropy.old) (E.state entropy.new) (length out.old)) }
    {
        let kept = primary(self.managers, Primitive::Aead, &self.held);
        seal_kept_into(self.managers, kept, plain, ad, entropy, out)
    }
}
