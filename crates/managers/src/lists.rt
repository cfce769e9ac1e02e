//! Type URLs in lists of managers.

ghost use Rattle.std.specs.Prelude.{◌≡◌, ◌++◌, position};
ghost use Rattle.std.specs.Str.{bytes_eq};
ghost use Rattle.managers.specs.Table.{entries_by, has_repeat, has_url, place_in, shares_url};

use crate::KeyManager;

// The first place of the URL.
fn position_of<M: KeyManager>(managers: &[M], url: &str) -> Option<usize>
    ensures { result ≡ position (λ m. bytes_eq (M.url m) url.now) managers.now }
{
    managers.iter().position(|m| m.type_url() == url)
}

// The first place of the URL.
pub(crate) fn find_url<M: KeyManager>(managers: &[M], url: &str) -> Option<usize>
    ensures { result ≡ place_in (entries_by M.url M.scheme managers.now) url.now }
{
    position_of(managers, url)
}

// Whether some manager has the URL.
fn contains_url<M: KeyManager>(managers: &[M], url: &str) -> bool
    ensures { result ≡ has_url url.now (entries_by M.url M.scheme managers.now) }
{
    for m in managers {
        if m.type_url() == url {
            return true;
        }
    }
    false
}

// Whether two managers have the same URL.
fn repeats<M: KeyManager>(managers: &[M]) -> bool
    ensures { result ≡ has_repeat (entries_by M.url M.scheme managers.now) }
{
    for (i, m) in managers.iter().enumerate() {
        if contains_url(&managers[i + 1..], m.type_url()) {
            return true;
        }
    }
    false
}

// Whether a manager of one list has the URL of one of the other.
fn shares<M: KeyManager, N: KeyManager>(left: &[M], right: &[N]) -> bool
    ensures { result ≡ shares_url (entries_by M.url M.scheme left.now)
        (entries_by N.url N.scheme right.now) }
{
    for m in left {
        if contains_url(right, m.type_url()) {
            return true;
        }
    }
    false
}

// Whether a manager of the first list has the URL of one of the other two.
fn shares_with_two<L: KeyManager, A: KeyManager, B: KeyManager>(
    left: &[L],
    first: &[A],
    second: &[B],
) -> bool
    ensures { result ≡ shares_url (entries_by L.url L.scheme left.now)
        (entries_by A.url A.scheme first.now ++ entries_by B.url B.scheme second.now) }
{
    let before = shares(left, first);
    let behind = shares(left, second);
    before || behind
}

// Whether a manager of the first list has the URL of one of the other three.
fn shares_with_three<L: KeyManager, A: KeyManager, B: KeyManager, C: KeyManager>(
    left: &[L],
    first: &[A],
    second: &[B],
    third: &[C],
) -> bool
    ensures { result ≡ shares_url (entries_by L.url L.scheme left.now)
        (entries_by A.url A.scheme first.now
        ++ (entries_by B.url B.scheme second.now ++ entries_by C.url C.scheme third.now)) }
{
    let before = shares(left, first);
    let behind = shares_with_two(left, second, third);
    before || behind
}

// Whether two managers of two lists have the same URL.
fn repeats_in_two<A: KeyManager, B: KeyManager>(first: &[A], second: &[B]) -> bool
    ensures { result ≡ has_repeat
        (entries_by A.url A.scheme first.now ++ entries_by B.url B.scheme second.now) }
{
    let within = repeats(first);
    let across = shares(first, second);
    let beyond = repeats(second);
    within || across || beyond
}

// Whether two managers of three lists have the same URL.
fn repeats_in_three<A: KeyManager, B: KeyManager, C: KeyManager>(
    first: &[A],
    second: &[B],
    third: &[C],
) -> bool
    ensures { result ≡ has_repeat (entries_by A.url A.scheme first.now
        ++ (entries_by B.url B.scheme second.now ++ entries_by C.url C.scheme third.now)) }
{
    let within = repeats(first);
    let across = shares_with_two(first, second, third);
    let beyond = repeats_in_two(second, third);
    within || across || beyond
}

// Whether two managers of four lists have the same URL.
pub(crate) fn repeats_in_four<A: KeyManager, D: KeyManager, M: KeyManager, P: KeyManager>(
    aead: &[A],
    daead: &[D],
    mac: &[M],
    prf: &[P],
) -> bool
    ensures { result ≡ has_repeat (entries_by A.url A.scheme aead.now
        ++ (entries_by D.url D.scheme daead.now
        ++ (entries_by M.url M.scheme mac.now ++ entries_by P.url P.scheme prf.now))) }
{
    let within = repeats(aead);
    let across = shares_with_three(aead, daead, mac, prf);
    let beyond = repeats_in_three(daead, mac, prf);
    within || across || beyond
}
