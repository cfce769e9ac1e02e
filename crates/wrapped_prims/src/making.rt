//! What a handle makes with its primary key: tags, deterministic ciphertexts and derived bytes.

ghost use Rattle.std.specs.Prelude.{◌≡◌, ◌+◌, ◌++◌, ◌^◌, ◌≤◌, drop, length, IfOk, IfErr, Some, Ok, slice_get};
ghost use Rattle.key_msgs.specs.declared.primitive.Primitive.TheVariants.{Daead, Mac, Prf};
ghost use Rattle.keyset_model.specs.Keyset.{Keys};
ghost use Rattle.managers.specs.Table.{entries_of};
ghost use Rattle.managers.specs.Uses.{dseal_of};
ghost use Rattle.wrapped_prims.specs.Answers.{derive_answer, dseal_answer, tag_answer};
ghost use Rattle.wrapped_prims.specs.Candidates.{prefix_bytes};
ghost use Rattle.wrapped_prims.specs.Deriving.{IsDeriveFault};
ghost use Rattle.wrapped_prims.specs.Held.{IsPrimary, IsServedBy, kept_in};
ghost use Rattle.wrapped_prims.specs.Making.{IsOver};
ghost use Rattle.wrapped_prims.specs.Rooms.{dseal_room, siv_room_of};

use crate::Handle;
use crate::held::{Held, Kept, front};
use crate::rooms::{behind_room, with_front};
use key_msgs::Primitive;
use managers::{DaeadManager, KeyTable, MacManager, Managers, PrfManager};
use std::alloc::Global;
use tink_base::NoMemory;

/// The size of an SIV, in bytes (RFC 5297).
const SIV: usize = 16;

/// Why no bytes were derived.
#[derive(Clone, Copy, Debug, PartialEq, Eq)]
pub enum DeriveFault {
    /// More bytes were asked for than the primary key gives; this is the most that it gives.
    OutputTooLong(usize),
    /// Memory couldn't be allocated.
    NoMemory,
}

impl From<NoMemory> for DeriveFault {
    ghost use Rattle.wrapped_prims.specs.declared.making.DeriveFault.TheVariants as faults;

    ghost from_gives = { λ _ fault. fault ≡ faults.NoMemory };

    fn from(_error: NoMemory) -> DeriveFault {
        DeriveFault::NoMemory
    }
}

/// The primary record's key. The keys are held for these managers and this primitive.
pub(crate) fn primary<'h>(_managers: &Managers, _primitive: Primitive, held: &'h Held) -> &'h Kept
    requires over { (keys : Keys)
        × IsOver (⟦<Managers as KeyTable>⟧.table _managers.now) _primitive keys held.now }
    ensures primary { (keys : Keys)
        → IsOver (⟦<Managers as KeyTable>⟧.table _managers.now) _primitive keys held.now
        → IsPrimary (⟦<Managers as KeyTable>⟧.table _managers.now) _primitive keys result.now }
    ensures kept { kept_in held.now.slots.items held.now.primary ≡ Some result.now }
    ensures served { IsServedBy
        (slice_get (entries_of (⟦<Managers as KeyTable>⟧.table _managers.now) _primitive)
        result.now.place) result.now.key }
{
    match &held.slots[held.primary] {
        Some(kept) => kept,
        None => unreachable!(),
    }
}

/// A prefix, then the bytes.
fn behind_prefix(alloc: Global, prefix: &Option<[u8; 5]>, bytes: &[u8]) -> Result<Vec<u8>, NoMemory>
    ensures { IfOk result (λ out. out.items ≡ prefix_bytes prefix.now ++ bytes.now) }
{
    let mut out = Vec::new(alloc);
    out.extend_from_slice(front(prefix))?;
    out.extend_from_slice(bytes)?;
    Ok(out)
}

/// How many bytes precede a ciphertext under a kept key: its prefix, and the SIV.
fn siv_room(kept: &Kept) -> usize
    ensures room { result ≡ siv_room_of kept.now }
    ensures bound { result ≤ 2 ^ 10 }
{
    front(&kept.prefix).len() + SIV
}

/// Seals in place under a kept key, after its prefix.
fn dseal_kept(
    managers: &Managers,
    kept: &Kept,
    bytes: Vec<u8>,
    ad: &[u8],
) -> Result<Vec<u8>, NoMemory>
    requires served { IsServedBy
        (slice_get (⟦<Managers as KeyTable>⟧.table managers.now).daead kept.now.place) kept.now.key }
    requires room { siv_room_of kept.now ≤ length bytes.items }
    requires plain_bound { length bytes.items ≤ siv_room_of kept.now + 2 ^ 30 }
    requires ad_bound { length ad.now ≤ 2 ^ 30 }
    ensures { IfOk result (λ sealed. sealed.items ≡ prefix_bytes kept.now.prefix
        ++ dseal_of kept.now.key (drop (siv_room_of kept.now) bytes.items) ad.now) }
{
    let prefix = front(&kept.prefix);
    let bytes = with_front(prefix, bytes);
    let manager = managers.daead_at(kept.place);
    manager.seal(&kept.key, prefix.len(), bytes, ad)
}

impl Handle<'_> {
    /// The tag of a body of at most 2^30 bytes, under the primary key: its prefix and the tag. A
    /// LEGACY key tags the body followed by a byte 0.
    pub fn tag(&self, alloc: Global, body: &[u8]) -> Result<Vec<u8>, NoMemory>
        requires over { (keys : Keys)
            × IsOver (⟦<Managers as KeyTable>⟧.table self.now.managers.now) Mac keys self.now.held }
        requires body_bound { length body.now ≤ 2 ^ 30 }
        ensures { (keys : Keys)
            → IsOver (⟦<Managers as KeyTable>⟧.table self.now.managers.now) Mac keys self.now.held
            → IfOk result (λ tag. tag_answer keys
            (⟦<Managers as KeyTable>⟧.table self.now.managers.now) body.now ≡ Some tag.items) }
    {
        let kept = primary(self.managers, Primitive::Mac, &self.held);
        let manager = self.managers.mac_at(kept.place);
        let tag = manager.tag(alloc, &kept.key, body, kept.is_legacy)?;
        let out = behind_prefix(alloc, &kept.prefix, &tag)?;
        Ok(out)
    }

    /// Seals a plaintext without an IV, under the primary key: its prefix, tag and ciphertext.
    /// Plaintext and associated data have at most 2^30 bytes each.
    pub fn dseal(&self, alloc: Global, plain: &[u8], ad: &[u8]) -> Result<Vec<u8>, NoMemory>
        requires over { (keys : Keys)
            × IsOver (⟦<Managers as KeyTable>⟧.table self.now.managers.now) Daead keys
            self.now.held }
        requires plain_bound { length plain.now ≤ 2 ^ 30 }
        requires ad_bound { length ad.now ≤ 2 ^ 30 }
        ensures { (keys : Keys)
            → IsOver (⟦<Managers as KeyTable>⟧.table self.now.managers.now) Daead keys self.now.held
            → IfOk result (λ sealed. dseal_answer keys
            (⟦<Managers as KeyTable>⟧.table self.now.managers.now) plain.now ad.now
            ≡ Some sealed.items) }
    {
        let bytes = behind_room(alloc, self.dseal_room(), plain)?;
        self.dseal_in_place(bytes, ad)
    }

    /// How many bytes `dseal` puts before the ciphertext: the primary key's prefix, and the SIV as
    /// tag. No memory is taken.
    pub fn dseal_room(&self) -> usize
        requires over { (keys : Keys)
            × IsOver (⟦<Managers as KeyTable>⟧.table self.now.managers.now) Daead keys
            self.now.held }
        ensures room { result ≡ dseal_room self.now.held }
        ensures bound { result ≤ 2 ^ 10 }
    {
        siv_room(primary(self.managers, Primitive::Daead, &self.held))
    }

    /// Seals as `dseal` does, in place: the plaintext is what follows the first `dseal_room` bytes
    /// of `bytes`, whatever these are.
    pub fn dseal_in_place(&self, bytes: Vec<u8>, ad: &[u8]) -> Result<Vec<u8>, NoMemory>
        requires over { (keys : Keys)
            × IsOver (⟦<Managers as KeyTable>⟧.table self.now.managers.now) Daead keys
            self.now.held }
        requires room { dseal_room self.now.held ≤ length bytes.items }
        requires plain_bound { length bytes.items ≤ dseal_room self.now.held + 2 ^ 30 }
        requires ad_bound { length ad.now ≤ 2 ^ 30 }
        ensures { (keys : Keys)
            → IsOver (⟦<Managers as KeyTable>⟧.table self.now.managers.now) Daead keys self.now.held
            → IfOk result (λ sealed. dseal_answer keys
            (⟦<Managers as KeyTable>⟧.table self.now.managers.now)
            (drop (dseal_room self.now.held) bytes.items) ad.now ≡ Some sealed.items) }
    {
        let kept = primary(self.managers, Primitive::Daead, &self.held);
        let sealed = dseal_kept(self.managers, kept, bytes, ad)?;
        Ok(sealed)
    }

    /// The first `size` bytes of the primary key's pseudo-random function at an input of at most
    /// 2^30 bytes. `OutputTooLong` comes if and only if the key gives fewer.
    pub fn derive(&self, alloc: Global, input: &[u8], size: usize) -> Result<Vec<u8>, DeriveFault>
        requires over { (keys : Keys)
            × IsOver (⟦<Managers as KeyTable>⟧.table self.now.managers.now) Prf keys self.now.held }
        requires input_bound { length input.now ≤ 2 ^ 30 }
        ensures derived { (keys : Keys)
            → IsOver (⟦<Managers as KeyTable>⟧.table self.now.managers.now) Prf keys self.now.held
            → IfOk result (λ bytes. derive_answer keys
            (⟦<Managers as KeyTable>⟧.table self.now.managers.now) input.now size
            ≡ Some (Ok bytes.items)) }
        ensures fault { (keys : Keys)
            → IsOver (⟦<Managers as KeyTable>⟧.table self.now.managers.now) Prf keys self.now.held
            → IfErr result (IsDeriveFault (derive_answer keys
            (⟦<Managers as KeyTable>⟧.table self.now.managers.now) input.now size)) }
    {
        let kept = primary(self.managers, Primitive::Prf, &self.held);
        let manager = self.managers.prf_at(kept.place);
        let greatest = manager.greatest(&kept.key);
        if greatest < size {
            return Err(DeriveFault::OutputTooLong(greatest));
        }
        let bytes = manager.derive(alloc, &kept.key, input, size)?;
        Ok(bytes)
    }
}
