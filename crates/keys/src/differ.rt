// Whether the keys of a store's entries differ.
ghost use Rattle.std.specs.Prelude.{◌≡◌, true, false, map, ◌+◌, ◌≤◌, ◌<◌, length};
ghost use Rattle.texts.specs.Lists.{some};
ghost use Rattle.records.specs.Chain.{chain};
ghost use Rattle.store_spec.specs.Laws.Hashes.{hash_at};
ghost use Rattle.store_spec.specs.Store.{next as next_of, entry_at, same_key, keys_differ};

use crate::hashes;
use store::Wanted;

// Whether one of the n slots behind p has the key of the entry in slot p.
fn has_key(store: &[u8], p: usize, n: usize) -> bool
    requires { p < 65536 }
    ensures { result ≡ some (same_key (entry_at store.now p)) (map (entry_at store.now) (chain (next_of store.now) n p)) }
{
    let slot = store::slot(store, p);
    let wanted = Wanted {
        exact: slots::is_exact(slot),
        any: false,
        word: slots::word(slot),
        tag: slots::tag(slot),
    };
    let mut q = p;
    for _ in 0..n {
        q = store::next(store, q);
        if q == 0 {
            return false;
        }
        if store::is_wanted(store::slot(store, q), &wanted) {
            return true;
        }
    }
    false
}

// Whether one of the n slots behind p has the key of the entry in slot p, whose hash this is, where others are theirs.
#[tactic(auto, using(store_spec::proofs::Laws::Hashes::hash_absent, texts::specs::Laws::Library::some_list_any), unfolding(texts::specs::Text::is))]
fn is_repeated(store: &[u8], p: usize, n: usize, hash: u16, others: &[u16]) -> bool
    requires { (p < 65536) × (hash ≡ hash_at store.now p) × (others.now ≡ map (hash_at store.now) (chain (next_of store.now) n p)) }
    ensures { result ≡ some (same_key (entry_at store.now p)) (map (entry_at store.now) (chain (next_of store.now) n p)) }
{
    others.contains(&hash) && has_key(store, p, n)
}

// Whether no two of the n entries behind slot 0 have one key, where these are their hashes.
fn are_apart(store: &[u8], n: usize, hashes: &[u16]) -> bool
    requires { (length hashes.now < 65536) × (hashes.now ≡ map (hash_at store.now) (chain (next_of store.now) n 0)) }
    ensures { result ≡ keys_differ (map (entry_at store.now) (chain (next_of store.now) n 0)) }
{
    let mut p = 0;
    for (i, &hash) in hashes.iter().enumerate() {
        p = store::next(store, p);
        if is_repeated(store, p, n - (i + 1), hash, &hashes[i + 1..]) {
            return false;
        }
    }
    true
}

// Whether no two of the n entries behind slot 0 have one key.
pub fn keys_differ(store: &[u8], n: usize) -> bool
    requires { n ≤ 127 }
    ensures { result ≡ keys_differ (map (entry_at store.now) (chain (next_of store.now) n 0)) }
{
    let mut hashes = [0; 127];
    let count = hashes::put_hashes(&mut hashes, store, n);
    are_apart(store, n, &hashes[..count])
}
