//! Data keys: the manager of the keys that a template makes, and a fresh key of random bytes.

ghost use Rattle.std.specs.Prelude.{◌≡◌, length, Some, IfOk, IfErr, OnOk, Contains};
ghost use Rattle.key_msgs.specs.Templates.{random_of, seen, templates};
ghost use Rattle.key_msgs.specs.declared.primitive.Primitive.TheVariants.{Aead};
ghost use Rattle.managers.specs.Schemes.{IsAdmitted};
ghost use Rattle.managers.specs.Table.{scheme_at};
ghost use Rattle.envelopes.specs.Enveloped.{data_key_of};
ghost use Rattle.envelopes.specs.EnvelopeSteps.{DrewWhole, IsDrawFault, IsMakingFault, Makes};
ghost use Rattle.envelopes.specs.Enveloping.{IsAead, IsDataKeyFault, url_made};

use crate::envelope::EnvelopeFault;
use key_msgs::{Primitive, Template, make_key, write_key};
use managers::{AeadManager, CheckFault, FoundAead, KeyManager, KeyTable, Managers, Prepared};
use std::alloc::Global;
use tink_base::{Entropy, NoMemory};

/// Why a template has no manager for its keys, in the order in which causes are looked for.
#[derive(Clone, Copy, Debug, PartialEq, Eq)]
pub enum DataKeyFault {
    /// The template's keys aren't AEAD keys.
    NotAead,
    /// No AEAD manager has the type URL of the template's keys.
    NoManager,
}

/// The manager of the keys that a template makes.
///
/// `NotAead` comes if and only if the template's primitive isn't Aead. `NoManager` comes if and
/// only if it is, and the managers have no AEAD manager with the type URL of the template's keys.
/// No memory is taken.
pub fn data_key<'m>(
    managers: &'m Managers,
    template: &Template,
) -> Result<FoundAead<'m>, DataKeyFault>
    ensures aead { OnOk result (IsAead (seen template.now)) }
    ensures scheme { IfOk result (λ m. scheme_at (⟦<Managers as KeyTable>⟧.table managers.now) Aead
        (url_made (seen template.now))
        ≡ Some (⟦<FoundAead<'m> as KeyManager>⟧.scheme m)) }
    ensures url { IfOk result (λ m.
        ⟦<FoundAead<'m> as KeyManager>⟧.url m ≡ url_made (seen template.now)) }
    ensures fault { IfErr result
        (IsDataKeyFault (⟦<Managers as KeyTable>⟧.table managers.now) (seen template.now)) }
{
    match template.primitive() {
        Primitive::Aead => match managers.find(Primitive::Aead, template.url()) {
            Some(place) => Ok(managers.aead_at(place)),
            None => Err(DataKeyFault::NoManager),
        },
        _ => Err(DataKeyFault::NotAead),
    }
}

/// A data key: its message, and the key that its manager reads in it, prepared once.
#[derive(Drop)]
pub(crate) struct DataKey {
    pub(crate) value: Vec<u8>,
    pub(crate) key: Prepared,
}

/// Draws `size` random bytes, in one fill; draws nothing if `size` is 0.
pub(crate) fn draw<E: Entropy>(
    alloc: Global,
    size: usize,
    entropy: &mut E,
) -> Result<Vec<u8>, EnvelopeFault>
    ensures drawn { IfOk result (λ bytes.
        DrewWhole size (E.state entropy.old) (E.state entropy.new) bytes.items) }
    ensures fault { IfErr result
        (IsDrawFault size (E.state entropy.old) (E.state entropy.new)) }
{
    let Ok(mut bytes) = vec![in alloc; 0; size] else {
        return Err(EnvelopeFault::NoMemory);
    };
    if size == 0 {
        return Ok(bytes);
    }
    match entropy.fill(&mut bytes) {
        Ok(()) => Ok(bytes),
        Err(_) => Err(EnvelopeFault::EntropyFault),
    }
}

/// The message of the data key that a template makes of random bytes.
fn value_made(alloc: Global, template: &Template, random: &[u8]) -> Result<Vec<u8>, NoMemory>
    requires template { Contains templates (seen template.now) }
    requires size { length random.now ≡ random_of (seen template.now) }
    ensures { IfOk result (λ value. value.items ≡ data_key_of (seen template.now) random.now) }
{
    let key = make_key(alloc, template, random)?;
    write_key(alloc, &key)
}

/// Makes a data key from random bytes drawn in one fill, and has its manager check it.
pub(crate) fn make<M: AeadManager, E: Entropy>(
    alloc: Global,
    manager: &M,
    template: &Template,
    entropy: &mut E,
) -> Result<DataKey, EnvelopeFault>
    ensures made { IfOk result (λ made. Makes (M.scheme manager.now)
        (seen template.now) (E.state entropy.old) (E.state entropy.new) made.value.items made.key) }
    ensures admitted { IfOk result (λ made. IsAdmitted (M.scheme manager.now) made.key) }
    ensures known { Contains templates (seen template.now) }
    ensures fault { IfErr result (IsMakingFault (M.scheme manager.now)
        (seen template.now) (E.state entropy.old) (E.state entropy.new)) }
{
    let random = draw(alloc, template.random_len(), entropy)?;
    let Ok(value) = value_made(alloc, template, &random) else {
        return Err(EnvelopeFault::NoMemory);
    };
    match manager.check(alloc, &value) {
        Ok(key) => Ok(DataKey { value, key }),
        Err(CheckFault::Bad(rule)) => Err(EnvelopeFault::Refused(rule)),
        Err(CheckFault::NoMemory) => Err(EnvelopeFault::NoMemory),
    }
}
