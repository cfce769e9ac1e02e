//! Opening sealed bytes, and verifying tags.

ghost use Rattle.std.specs.Prelude.{◌≡◌, ◌+◌, ◌^◌, ◌≤◌, length, IfOk, option_map, take};
ghost use Rattle.key_msgs.specs.declared.primitive.Primitive.TheVariants.{Aead, Daead, Mac};
ghost use Rattle.keyset_model.specs.Keyset.{Keys};
ghost use Rattle.tink_spec.specs.InPlace.{OpensTo};
ghost use Rattle.wrapped_prims.specs.Answers.{dopen_answer, open_answer, open_trials, verify_answer, verify_trials};
ghost use Rattle.wrapped_prims.specs.Candidates.{candidates};
ghost use Rattle.wrapped_prims.specs.Held.{AreServed, Opens, kept_raw, kept_under, open_kept, tries_kept};
ghost use Rattle.wrapped_prims.specs.Making.{IsOver};

use crate::Handle;
use crate::held::Held;
use crate::trying::{try_all, verify_all};
use key_msgs::Primitive;
use managers::{KeyTable, Managers};
use std::alloc::Global;
use std::ops::Range;
use tink_base::{NoMemory, Trials, part_of};

// Opens the list in place with the kept keys of a primitive that can open.
fn open_list(
    managers: &Managers,
    primitive: Primitive,
    held: &Held,
    mut bytes: Vec<u8>,
    ad: &[u8],
    trials: &mut Trials,
) -> Option<Vec<u8>>
    requires opens { Opens primitive }
    requires served { AreServed (⟦<Managers as KeyTable>⟧.table managers.now) primitive
        held.now.slots.items }
    requires bytes_bound { length bytes.items ≤ 2 ^ 30 + 96 }
    requires ad_bound { length ad.now ≤ 2 ^ 30 }
    ensures opened { option_map (λ plain. plain.items) result
        ≡ open_kept primitive held.now bytes.items ad.now }
    ensures tries { trials.new ≡ tries_kept primitive held.now bytes.items ad.now trials.old }
    ensures few { trials.new ≤ trials.old + length (kept_under (take 5 bytes.items) held.now)
        + length (kept_raw held.now) }
{
    match try_all(managers, primitive, held, &mut bytes, ad, trials) {
        Some(range) => Some(part_of(bytes, range)),
        None => None,
    }
}

impl Handle<'_> {
    /// Opens sealed bytes, of at most 2^30 + 96 bytes, with associated data of at most 2^30.
    ///
    /// Returns the plaintext of the first candidate that opens; `None` if and only if no candidate
    /// does. Candidates are tried in order up to the one that opens, and each trial is counted: at
    /// most one for each.
    pub fn open(
        &self,
        alloc: Global,
        bytes: &[u8],
        ad: &[u8],
        trials: &mut Trials,
    ) -> Result<Option<Vec<u8>>, NoMemory>
        requires over { (keys : Keys)
            × IsOver (⟦<Managers as KeyTable>⟧.table self.now.managers.now) Aead keys self.now.held }
        requires bytes_bound { length bytes.now ≤ 2 ^ 30 + 96 }
        requires ad_bound { length ad.now ≤ 2 ^ 30 }
        ensures opened { (keys : Keys)
            → IsOver (⟦<Managers as KeyTable>⟧.table self.now.managers.now) Aead keys self.now.held
            → IfOk result (λ plain. option_map (λ text. text.items) plain ≡ open_answer keys
            (⟦<Managers as KeyTable>⟧.table self.now.managers.now) bytes.now ad.now) }
        ensures trials { (keys : Keys)
            → IsOver (⟦<Managers as KeyTable>⟧.table self.now.managers.now) Aead keys self.now.held
            → IfOk result (λ _. trials.new ≡ open_trials Aead keys
            (⟦<Managers as KeyTable>⟧.table self.now.managers.now) bytes.now ad.now trials.old) }
        ensures few_trials { (keys : Keys)
            → IsOver (⟦<Managers as KeyTable>⟧.table self.now.managers.now) Aead keys self.now.held
            → trials.new ≤ trials.old + length (candidates keys bytes.now) }
    {
        match bytes.to_vec(alloc) {
            Ok(bytes) => Ok(self.open_in_place(bytes, ad, trials)),
            Err(_) => Err(NoMemory),
        }
    }

    /// Opens as `open` does, and leaves the plaintext where it stands: returns its range in the
    /// bytes. If no candidate opens them, they are unchanged. No memory is taken.
    pub fn open_within(&self, bytes: &mut [u8], ad: &[u8]) -> Option<Range<usize>>
        requires over { (keys : Keys)
            × IsOver (⟦<Managers as KeyTable>⟧.table self.now.managers.now) Aead keys self.now.held }
        requires bytes_bound { length bytes.old ≤ 2 ^ 30 + 96 }
        requires ad_bound { length ad.now ≤ 2 ^ 30 }
        ensures { (keys : Keys)
            → IsOver (⟦<Managers as KeyTable>⟧.table self.now.managers.now) Aead keys self.now.held
            → OpensTo (open_answer keys (⟦<Managers as KeyTable>⟧.table self.now.managers.now)
            bytes.old ad.now) bytes.old bytes.new result }
    {
        try_all(
            self.managers,
            Primitive::Aead,
            &self.held,
            bytes,
            ad,
            &mut Trials::new(),
        )
    }

    /// Opens as `open` does, in place: returns the list of the sealed bytes, now with only the
    /// plaintext. No memory is taken.
    pub fn open_in_place(&self, bytes: Vec<u8>, ad: &[u8], trials: &mut Trials) -> Option<Vec<u8>>
        requires over { (keys : Keys)
            × IsOver (⟦<Managers as KeyTable>⟧.table self.now.managers.now) Aead keys self.now.held }
        requires bytes_bound { length bytes.items ≤ 2 ^ 30 + 96 }
        requires ad_bound { length ad.now ≤ 2 ^ 30 }
        ensures opened { (keys : Keys)
            → IsOver (⟦<Managers as KeyTable>⟧.table self.now.managers.now) Aead keys self.now.held
            → option_map (λ text. text.items) result ≡ open_answer keys
            (⟦<Managers as KeyTable>⟧.table self.now.managers.now) bytes.items ad.now }
        ensures trials { (keys : Keys)
            → IsOver (⟦<Managers as KeyTable>⟧.table self.now.managers.now) Aead keys self.now.held
            → trials.new ≡ open_trials Aead keys
            (⟦<Managers as KeyTable>⟧.table self.now.managers.now) bytes.items ad.now trials.old }
        ensures few_trials { (keys : Keys)
            → IsOver (⟦<Managers as KeyTable>⟧.table self.now.managers.now) Aead keys self.now.held
            → trials.new ≤ trials.old + length (candidates keys bytes.items) }
    {
        open_list(
            self.managers,
            Primitive::Aead,
            &self.held,
            bytes,
            ad,
            trials,
        )
    }

    /// Opens bytes that were sealed without an IV, of at most 2^30 + 96 bytes, with associated data
    /// of at most 2^30.
    ///
    /// Returns the plaintext of the first candidate that opens; `None` if and only if no candidate
    /// does. Candidates are tried in order up to the one that opens, and each trial is counted: at
    /// most one for each.
    pub fn dopen(
        &self,
        alloc: Global,
        bytes: &[u8],
        ad: &[u8],
        trials: &mut Trials,
    ) -> Result<Option<Vec<u8>>, NoMemory>
        requires over { (keys : Keys)
            × IsOver (⟦<Managers as KeyTable>⟧.table self.now.managers.now) Daead keys self.now.held }
        requires bytes_bound { length bytes.now ≤ 2 ^ 30 + 96 }
        requires ad_bound { length ad.now ≤ 2 ^ 30 }
        ensures opened { (keys : Keys)
            → IsOver (⟦<Managers as KeyTable>⟧.table self.now.managers.now) Daead keys self.now.held
            → IfOk result (λ plain. option_map (λ text. text.items) plain ≡ dopen_answer keys
            (⟦<Managers as KeyTable>⟧.table self.now.managers.now) bytes.now ad.now) }
        ensures trials { (keys : Keys)
            → IsOver (⟦<Managers as KeyTable>⟧.table self.now.managers.now) Daead keys self.now.held
            → IfOk result (λ _. trials.new ≡ open_trials Daead keys
            (⟦<Managers as KeyTable>⟧.table self.now.managers.now) bytes.now ad.now trials.old) }
        ensures few_trials { (keys : Keys)
            → IsOver (⟦<Managers as KeyTable>⟧.table self.now.managers.now) Daead keys self.now.held
            → trials.new ≤ trials.old + length (candidates keys bytes.now) }
    {
        match bytes.to_vec(alloc) {
            Ok(bytes) => Ok(self.dopen_in_place(bytes, ad, trials)),
            Err(_) => Err(NoMemory),
        }
    }

    /// Opens as `dopen` does, and leaves the plaintext where it stands: returns its range in the
    /// bytes. If no candidate opens them, they are unchanged. No memory is taken.
    pub fn dopen_within(&self, bytes: &mut [u8], ad: &[u8]) -> Option<Range<usize>>
        requires over { (keys : Keys)
            × IsOver (⟦<Managers as KeyTable>⟧.table self.now.managers.now) Daead keys self.now.held }
        requires bytes_bound { length bytes.old ≤ 2 ^ 30 + 96 }
        requires ad_bound { length ad.now ≤ 2 ^ 30 }
        ensures { (keys : Keys)
            → IsOver (⟦<Managers as KeyTable>⟧.table self.now.managers.now) Daead keys self.now.held
            → OpensTo (dopen_answer keys (⟦<Managers as KeyTable>⟧.table self.now.managers.now)
            bytes.old ad.now) bytes.old bytes.new result }
    {
        try_all(
            self.managers,
            Primitive::Daead,
            &self.held,
            bytes,
            ad,
            &mut Trials::new(),
        )
    }

    /// Opens as `dopen` does, in place: returns the list of the sealed bytes, now with only the
    /// plaintext. No memory is taken.
    pub fn dopen_in_place(&self, bytes: Vec<u8>, ad: &[u8], trials: &mut Trials) -> Option<Vec<u8>>
        requires over { (keys : Keys)
            × IsOver (⟦<Managers as KeyTable>⟧.table self.now.managers.now) Daead keys self.now.held }
        requires bytes_bound { length bytes.items ≤ 2 ^ 30 + 96 }
        requires ad_bound { length ad.now ≤ 2 ^ 30 }
        ensures opened { (keys : Keys)
            → IsOver (⟦<Managers as KeyTable>⟧.table self.now.managers.now) Daead keys self.now.held
            → option_map (λ text. text.items) result ≡ dopen_answer keys
            (⟦<Managers as KeyTable>⟧.table self.now.managers.now) bytes.items ad.now }
        ensures trials { (keys : Keys)
            → IsOver (⟦<Managers as KeyTable>⟧.table self.now.managers.now) Daead keys self.now.held
            → trials.new ≡ open_trials Daead keys
            (⟦<Managers as KeyTable>⟧.table self.now.managers.now) bytes.items ad.now trials.old }
        ensures few_trials { (keys : Keys)
            → IsOver (⟦<Managers as KeyTable>⟧.table self.now.managers.now) Daead keys self.now.held
            → trials.new ≤ trials.old + length (candidates keys bytes.items) }
    {
        open_list(
            self.managers,
            Primitive::Daead,
            &self.held,
            bytes,
            ad,
            trials,
        )
    }

    /// Whether `tag` is some candidate's prefix followed by its whole tag of the body, which has at
    /// most 2^30 bytes.
    ///
    /// Candidates are tried in order up to the one whose tag it is, and each trial is counted: at
    /// most one for each. No memory is taken.
    pub fn verify(&self, tag: &[u8], body: &[u8], trials: &mut Trials) -> bool
        requires over { (keys : Keys)
            × IsOver (⟦<Managers as KeyTable>⟧.table self.now.managers.now) Mac keys self.now.held }
        requires body_bound { length body.now ≤ 2 ^ 30 }
        ensures verified { (keys : Keys)
            → IsOver (⟦<Managers as KeyTable>⟧.table self.now.managers.now) Mac keys self.now.held
            → result ≡ verify_answer keys (⟦<Managers as KeyTable>⟧.table self.now.managers.now)
            tag.now body.now }
        ensures trials { (keys : Keys)
            → IsOver (⟦<Managers as KeyTable>⟧.table self.now.managers.now) Mac keys self.now.held
            → trials.new ≡ verify_trials keys (⟦<Managers as KeyTable>⟧.table
            self.now.managers.now) tag.now body.now trials.old }
        ensures few_trials { (keys : Keys)
            → IsOver (⟦<Managers as KeyTable>⟧.table self.now.managers.now) Mac keys self.now.held
            → trials.new ≤ trials.old + length (candidates keys tag.now) }
    {
        verify_all(self.managers, &self.held, tag, body, trials)
    }
}
