// The fields of a store, its slots, and what an entry is wanted by.
ghost use Rattle.std.specs.Prelude.{◌≡◌, false, ◌*◌, ◌<◌};
ghost use Rattle.records.specs.Records.{record_at};
ghost use Rattle.slots_spec.specs.Slot.{entry_of};
ghost use Rattle.store_spec.specs.Store.{next as next_of, used as used_of, is_store_length};
ghost use Rattle.store.specs.Wanting.{wants};
ghost use Rattle.store_spec.specs.Laws.Exact.{has_exact};

// The number of the slot behind slot n; behind slot 0 stands the first.
#[tactic(auto, unfolding(store_spec::specs::Store::next))]
pub fn next(store: &[u8], n: usize) -> usize
    requires { n < 65536 }
    ensures { (result ≡ next_of store.now n) × (result < 65536) }
{
    records::u16_at(store, 512 * n) as usize
}

// How many slots are used.
pub fn used(store: &[u8]) -> usize
    ensures { (result ≡ used_of store.now) × (result < 65536) }
{
    records::u16_at(store, 4) as usize
}

// The bytes of slot n.
#[tactic(auto, unfolding(records::specs::Records::record_at))]
pub fn slot(store: &[u8], n: usize) -> &[u8]
    requires { n < 65536 }
    ensures { result.now ≡ record_at 512 store.now n }
{
    records::head(records::tail(store, 512 * n), 512)
}

// Whether a store may have this length.
#[tactic(auto, unfolding(store_spec::specs::Store::is_store_length))]
pub fn is_store_length(n: usize) -> bool
    ensures { result ≡ is_store_length n }
{
    (512..=65536).contains(&n) && n % 512 == 0
}

// Whether one of the slots 1 to n holds an exact entry.
pub fn has_exact(store: &[u8], n: usize) -> bool
    requires { n < 65536 }
    ensures { result ≡ has_exact store.now n }
{
    // Not `1..=n`: tried, and more than twice as slow.
    (1..n + 1).any(|k| records::byte_at(store, 512 * k + 52) == 1)
}

// What an entry is wanted by: whether it is exact, its word, and its tag, where "0" may be any tag.
#[derive(Clone, Copy)]
pub struct Wanted<'a> {
    pub exact: bool,
    pub any: bool,
    pub word: &'a [u8],
    pub tag: u8,
}

// Whether the entry in a slot is exact or not, as wanted, and has this word, and a tag that agrees.
#[tactic(auto, using(texts::specs::Laws::Library::same_pointwise), unfolding(store_spec::specs::Store::is_wanted))]
pub fn is_wanted(slot: &[u8], wanted: &Wanted) -> bool
    ensures { result ≡ wants wanted.now (entry_of slot.now) }
{
    slots::is_exact(slot) == wanted.exact
        && slots::word(slot) == wanted.word
        && texts::agree(wanted.any, slots::tag(slot), wanted.tag)
}
