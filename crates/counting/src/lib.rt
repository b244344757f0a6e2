// The count of a store (02, S-2): how often entries were added to it.

#![tactic(auto)]

ghost use Rattle.std.specs.Prelude.{◌≡◌, ◌≢◌, ◌+◌, ◌≤◌, ◌<◌, length};
ghost use Rattle.store_spec.specs.Store.{count as count_of, with_count, largest as largest_count};

// The largest count.
pub fn largest() -> u64
    ensures { result ≡ largest_count }
{
    u64::MAX
}

// The count.
pub fn count(store: &[u8]) -> u64
    requires { 512 ≤ length store.now }
    ensures { result ≡ count_of store.now }
{
    records::u64_in(store, 8)
}

// Sets the count.
pub fn set_count(store: &mut [u8], n: u64)
    requires { 512 ≤ length store.old }
    ensures { store.new ≡ with_count store.old n }
{
    records::put_u64(store, 8, n);
}

// Takes the spare: the store gets its bytes, the count one higher.
pub fn take_spare(store: &mut [u8], spare: &[u8])
    requires { (512 ≤ length store.old) × (length spare.now ≡ length store.old) × (count_of spare.now ≢ largest_count) }
    ensures { store.new ≡ with_count spare.now (count_of spare.now + 1) }
{
    records::copy(store, spare);
    set_count(store, count(spare) + 1);
}
