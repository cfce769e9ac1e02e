//! Runs over the managers of the program.

ghost use Rattle.std.specs.Prelude.{◌≡◌, IfOk, map, string_bytes};
ghost use Rattle.key_msgs.specs.KeyTypes.{url_of_type};
ghost use Rattle.managers.specs.Schemes.{Siv, aead_scheme, mac_scheme, prf_scheme, type_under};
ghost use Rattle.managers.specs.Standard.{standard_table};
ghost use Rattle.tinkey_plans.specs.Ends.{world};
ghost use Rattle.tinkey_plans.specs.Promises.{Promised};
ghost use Rattle.tinkey_readable.specs.Readable.{IsReadable};
ghost use Rattle.tinkey_plans.specs.Mentions.{mention_of};
ghost use Rattle.tinkey_plans.specs.Status.{Reports};
ghost use Rattle.tinkey_host.specs.Program.{start_plan, IsStarted};

use key_msgs::KeyType;
use managers::{
    AeadManager, AeadScheme, DaeadManager, KeyList, KeyManager, MacManager, MacScheme, Managers,
    PrfManager, PrfScheme, SameUrl, StandardAead, StandardDaead, StandardMac, StandardPrf,
};
use std::alloc::Global;
use tink_base::{Lookahead, NoMemory, PieceStore, Sink, Source};
use tinkey_run::laws::sessions_are_readable;
use tinkey_run::{Status, run, starve};

/// Runs the words over these objects, as `tinkey_run::run` does over a manager for each kind of key
/// that isn't for streams, under the type URL of that kind.
///
/// The promises are `run`'s over the table of these managers, except that `NoMemory` may also come
/// before any other step; `line` and `readable` are as for `run`.
pub fn start<S: Source, K: Sink, G: Sink, E: Lookahead, D: PieceStore>(
    alloc: Global,
    words: &[String],
    source: &mut S,
    sink: &mut K,
    diag: &mut G,
    entropy: &mut E,
    store: &mut D,
) -> Status
    ensures promised { Promised (start_plan (map string_bytes words.now))
        (world (S.state source.old) (K.state sink.old) (D.state store.old) (E.state entropy.old)) result
        (world (S.state source.new) (K.state sink.new) (D.state store.new) (E.state entropy.new)) }
    ensures line { Reports (mention_of (map string_bytes words.now)) result
        (G.state diag.old) (G.state diag.new) }
    ensures readable { IsReadable standard_table (map string_bytes words.now)
        (world (S.state source.old) (K.state sink.old) (D.state store.old) (E.state entropy.old)) result
        (world (S.state source.new) (K.state sink.new) (D.state store.new) (E.state entropy.new)) }
{
    sessions_are_readable();
    match run_standard(alloc, words, source, sink, diag, entropy, store) {
        Ok(status) => status,
        Err(_) => starve(diag),
    }
}

/// Makes the managers of AEADs and of MACs, and continues.
fn run_standard<S: Source, K: Sink, G: Sink, E: Lookahead, D: PieceStore>(
    alloc: Global,
    words: &[String],
    source: &mut S,
    sink: &mut K,
    diag: &mut G,
    entropy: &mut E,
    store: &mut D,
) -> Result<Status, NoMemory>
    ensures { IsStarted (map string_bytes words.now)
        (world (S.state source.old) (K.state sink.old) (D.state store.old) (E.state entropy.old))
        (G.state diag.old) result
        (world (S.state source.new) (K.state sink.new) (D.state store.new) (E.state entropy.new))
        (G.state diag.new) }
{
    let mut aead: Vec<Box<dyn AeadManager>> = Vec::new(alloc);
    aead.push(aead_manager(alloc, AeadScheme::Gcm)?)?;
    aead.push(aead_manager(alloc, AeadScheme::Eax)?)?;
    aead.push(aead_manager(alloc, AeadScheme::CtrHmac)?)?;
    aead.push(aead_manager(alloc, AeadScheme::GcmSiv)?)?;
    let mut mac: Vec<Box<dyn MacManager>> = Vec::new(alloc);
    mac.push(mac_manager(alloc, MacScheme::Hmac)?)?;
    mac.push(mac_manager(alloc, MacScheme::Cmac)?)?;
    run_with_rest(alloc, words, aead, mac, source, sink, diag, entropy, store)
}

/// Makes the other managers, and runs over all of them.
fn run_with_rest<S: Source, K: Sink, G: Sink, E: Lookahead, D: PieceStore>(
    alloc: Global,
    words: &[String],
    aead: Vec<Box<dyn AeadManager>>,
    mac: Vec<Box<dyn MacManager>>,
    source: &mut S,
    sink: &mut K,
    diag: &mut G,
    entropy: &mut E,
    store: &mut D,
) -> Result<Status, NoMemory>
    requires aead { ⟦<Vec<Box<dyn AeadManager>> as KeyList>⟧.entries aead ≡ standard_table.aead }
    requires mac { ⟦<Vec<Box<dyn MacManager>> as KeyList>⟧.entries mac ≡ standard_table.mac }
    ensures { IsStarted (map string_bytes words.now)
        (world (S.state source.old) (K.state sink.old) (D.state store.old) (E.state entropy.old))
        (G.state diag.old) result
        (world (S.state source.new) (K.state sink.new) (D.state store.new) (E.state entropy.new))
        (G.state diag.new) }
{
    let mut daead: Vec<Box<dyn DaeadManager>> = Vec::new(alloc);
    daead.push(daead_manager(alloc)?)?;
    let mut prf: Vec<Box<dyn PrfManager>> = Vec::new(alloc);
    prf.push(prf_manager(alloc, PrfScheme::Hkdf)?)?;
    prf.push(prf_manager(alloc, PrfScheme::Hmac)?)?;
    prf.push(prf_manager(alloc, PrfScheme::Cmac)?)?;
    run_over(
        alloc, words, aead, daead, mac, prf, source, sink, diag, entropy, store,
    )
}

/// The manager of a scheme of AEADs, under the type URL of its keys.
fn aead_manager(alloc: Global, scheme: AeadScheme) -> Result<Box<StandardAead>, NoMemory>
    ensures url { IfOk result (λ m. ⟦<StandardAead as KeyManager>⟧.url m.value
        ≡ url_of_type (type_under (aead_scheme scheme))) }
    ensures scheme { IfOk result (λ m. ⟦<StandardAead as KeyManager>⟧.scheme m.value ≡ aead_scheme scheme) }
{
    let url = String::from_str(alloc, scheme.key_type().url())?;
    Ok(Box::new(alloc, StandardAead::new(url, scheme))?)
}

/// The manager of AES-SIV, under the type URL of its keys.
fn daead_manager(alloc: Global) -> Result<Box<StandardDaead>, NoMemory>
    ensures url { IfOk result (λ m. ⟦<StandardDaead as KeyManager>⟧.url m.value
        ≡ url_of_type (type_under Siv)) }
    ensures scheme { IfOk result (λ m. ⟦<StandardDaead as KeyManager>⟧.scheme m.value ≡ Siv) }
{
    let url = String::from_str(alloc, KeyType::AesSiv.url())?;
    Ok(Box::new(alloc, StandardDaead::new(url))?)
}

/// The manager of a scheme of MACs, under the type URL of its keys.
fn mac_manager(alloc: Global, scheme: MacScheme) -> Result<Box<StandardMac>, NoMemory>
    ensures url { IfOk result (λ m. ⟦<StandardMac as KeyManager>⟧.url m.value
        ≡ url_of_type (type_under (mac_scheme scheme))) }
    ensures scheme { IfOk result (λ m. ⟦<StandardMac as KeyManager>⟧.scheme m.value ≡ mac_scheme scheme) }
{
    let url = String::from_str(alloc, scheme.key_type().url())?;
    Ok(Box::new(alloc, StandardMac::new(url, scheme))?)
}

/// The manager of a scheme of pseudo-random functions, under the type URL of its keys.
fn prf_manager(alloc: Global, scheme: PrfScheme) -> Result<Box<StandardPrf>, NoMemory>
    ensures url { IfOk result (λ m. ⟦<StandardPrf as KeyManager>⟧.url m.value
        ≡ url_of_type (type_under (prf_scheme scheme))) }
    ensures scheme { IfOk result (λ m. ⟦<StandardPrf as KeyManager>⟧.scheme m.value ≡ prf_scheme scheme) }
{
    let url = String::from_str(alloc, scheme.key_type().url())?;
    Ok(Box::new(alloc, StandardPrf::new(url, scheme))?)
}

/// Runs over all these managers.
fn run_over<S: Source, K: Sink, G: Sink, E: Lookahead, D: PieceStore>(
    alloc: Global,
    words: &[String],
    aead: Vec<Box<dyn AeadManager>>,
    daead: Vec<Box<dyn DaeadManager>>,
    mac: Vec<Box<dyn MacManager>>,
    prf: Vec<Box<dyn PrfManager>>,
    source: &mut S,
    sink: &mut K,
    diag: &mut G,
    entropy: &mut E,
    store: &mut D,
) -> Result<Status, NoMemory>
    requires aead { ⟦<Vec<Box<dyn AeadManager>> as KeyList>⟧.entries aead ≡ standard_table.aead }
    requires daead { ⟦<Vec<Box<dyn DaeadManager>> as KeyList>⟧.entries daead ≡ standard_table.daead }
    requires mac { ⟦<Vec<Box<dyn MacManager>> as KeyList>⟧.entries mac ≡ standard_table.mac }
    requires prf { ⟦<Vec<Box<dyn PrfManager>> as KeyList>⟧.entries prf ≡ standard_table.prf }
    ensures { IsStarted (map string_bytes words.now)
        (world (S.state source.old) (K.state sink.old) (D.state store.old) (E.state entropy.old))
        (G.state diag.old) result
        (world (S.state source.new) (K.state sink.new) (D.state store.new) (E.state entropy.new))
        (G.state diag.new) }
{
    match Managers::new(aead, daead, mac, prf) {
        Ok(managers) => Ok(run(alloc, words, &managers, source, sink, diag, entropy, store)),
        Err(SameUrl) => unreachable!(),
    }
}
