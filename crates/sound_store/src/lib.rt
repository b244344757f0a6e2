// Whether a store is sound (01, Store and sheet).

#![tactic(auto)]

ghost use Rattle.std.specs.Prelude.{◌≡◌, false, ◌+◌, ◌*◌, ◌/◌, ◌≤◌, ◌<◌, length};
ghost use Rattle.records.specs.Chain.{chain, end_of};
ghost use Rattle.store_spec.specs.Store.{next as next_of, walks as walks_of, is_rest, is_sound};

// Whether n slots stand behind slot 0, each numbered 1 to n and sound by itself, and then nothing.
fn walks(store: &[u8], n: usize) -> bool
    requires { (512 * n + 512 ≤ length store.now) × (n < 65536) }
    ensures { result ≡ walks_of store.now n n 0 }
{
    let mut p = 0;
    for _ in 0..n {
        p = store::next(store, p);
        if p == 0 || n < p || !slots::is_slot(store::slot(store, p)) {
            return false;
        }
    }
    store::next(store, p) == 0
}

// The last of the slots behind slot 0, of at most n.
fn last_visited(store: &[u8], n: usize) -> usize
    ensures { result ≡ end_of 0 (chain (next_of store.now) n 0) }
{
    let mut p = 0;
    for _ in 0..n {
        let q = store::next(store, p);
        if q == 0 {
            return p;
        }
        p = q;
    }
    p
}

// Whether slot 0 behind "used" is zero, but for the count.
#[tactic(auto, unfolding(store_spec::specs::Store::is_rest))]
fn is_rest(rest: &[u8]) -> bool
    ensures { result ≡ is_rest rest.now }
{
    records::are_zeros(records::head(rest, 2)) && records::are_zeros(records::tail(rest, 10))
}

// Whether a store is sound.
#[tactic(auto, unfolding(store_spec::specs::Store::is_sound, store_spec::specs::Store::order, store_spec::specs::Store::entries))]
pub fn is_sound(store: &[u8]) -> bool
    ensures { result ≡ is_sound store.now }
{
    let n = store::used(store);
    store::is_store_length(store.len())
        && n < store.len() / 512
        && is_rest(records::tail(store::slot(store, 0), 6))
        && walks(store, n)
        && last_visited(store, n) == records::u16_at(store, 2) as usize
        && keys::keys_differ(store, n)
}
