// Adding an entry to a sound store (01, Lookup: Adding; Store and sheet).
ghost use Rattle.std.specs.Prelude.{◌≡◌, true, not, leb, ◌+◌, ◌*◌, ◌/◌, ◌≤◌, ◌<◌, length};
ghost use Rattle.slots.specs.Given.{given};
ghost use Rattle.store.specs.Wanting.{wants};
ghost use Rattle.store_spec.specs.Store.{last as last_of, used as used_of, slots, is_sound};
ghost use Rattle.store_spec.specs.Adding.{seek as seek_of, cut_out, tied, added_new, is_full, kept};

use crate::fields::{self, Wanted};
use slots::NewEntry;

// Of the n slots behind slot 0, the one that the first wanted entry stands behind; the last if there is none.
pub fn seek(store: &[u8], n: usize, wanted: &Wanted) -> usize
    ensures { (result ≡ seek_of store.now (wants wanted.now) n 0) × (result < 65536) }
{
    let mut p = 0;
    for _ in 0..n {
        let q = fields::next(store, p);
        if q == 0 || fields::is_wanted(fields::slot(store, q), wanted) {
            return p;
        }
        p = q;
    }
    p
}

// Cuts the slot behind p out of the chain.
#[tactic(auto, unfolding(store_spec::specs::Adding::cut_out, store_spec::specs::Store::next))]
fn cut_out(store: &mut [u8], p: usize)
    requires { (512 * p + 512 ≤ length store.old) × (p < 65536) }
    ensures { store.new ≡ cut_out store.old p }
{
    let q = fields::next(store, p);
    let last = records::u16_at(store, 2);
    let behind = records::u16_at(store, 512 * q);
    records::put_u16(store, 512 * p, behind);
    records::put_u16(store, 2, if q == last as usize { p as u16 } else { last });
}

// Writes slot n whole and ties it behind the last.
fn tie(store: &mut [u8], n: usize, entry: &NewEntry)
    requires { (512 * n + 512 ≤ length store.old) × (n < 65536) × (512 * last_of store.old + 512 ≤ length store.old) }
    ensures { store.new ≡ tied store.old n (given entry.now) }
{
    let last = records::u16_at(store, 2) as usize;
    let from = 512 * n;
    slots::write(&mut store[from..from + 512], entry);
    records::put_u16(store, 512 * last, n as u16);
    records::put_u16(store, 2, n as u16);
}

// An entry of a new key: it takes slot n + 1, where n slots are used; whether there is one.
#[tactic(auto, unfolding(store_spec::specs::Adding::added_new))]
fn add_new(store: &mut [u8], n: usize, entry: &NewEntry) -> bool
    requires { (n ≡ used_of store.old) × (n < 65535) × (512 * last_of store.old + 512 ≤ length store.old) }
    ensures value { result ≡ not (leb (slots store.old) (used_of store.old + 1)) }
    ensures store_after { store.new ≡ added_new store.old (given entry.now) }
{
    if store.len() / 512 <= n + 1 {
        return false;
    }
    tie(store, n + 1, entry);
    records::put_u16(store, 4, (n + 1) as u16);
    true
}

// Adds an entry to a sound store; whether it has a slot for it.
pub fn add(store: &mut [u8], entry: &NewEntry) -> bool
    requires { is_sound store.old ≡ true }
    ensures value { result ≡ not (is_full store.old (given entry.now)) }
    ensures store_after { store.new ≡ kept store.old (given entry.now) }
{
    let n = fields::used(store);
    let wanted = Wanted {
        exact: entry.exact,
        any: false,
        word: entry.word,
        tag: entry.tag,
    };
    let p = seek(store, n, &wanted);
    let q = fields::next(store, p);
    if q == 0 {
        return add_new(store, n, entry);
    }
    cut_out(store, p);
    tie(store, q, entry);
    true
}
