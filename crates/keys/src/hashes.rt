// A number for each key, by which most keys are told apart without their words.
ghost use Rattle.std.specs.Prelude.{◌≡◌, map, ◌≤◌, ◌<◌, length, take};
ghost use Rattle.records.specs.Chain.{chain};
ghost use Rattle.slots_spec.specs.Slot.{entry_of};
ghost use Rattle.store_spec.specs.Store.{next as next_of};
ghost use Rattle.store_spec.specs.Laws.Hashes.{hash_of, hash_at};

// The hash of the key of the entry in a slot.
#[tactic(auto, unfolding(store_spec::specs::Laws::Hashes::hash_of))]
fn hash(slot: &[u8]) -> u16
    ensures { result ≡ hash_of (entry_of slot.now) }
{
    texts::mixed(slots::tag(slot) as u16, slots::word(slot))
}

// The hashes of the n entries behind slot 0 into hashes; how many there are.
pub fn put_hashes(hashes: &mut [u16], store: &[u8], n: usize) -> usize
    requires { (n ≤ length hashes.old) × (n < 65536) }
    ensures { (result ≤ length hashes.new) × (take result hashes.new ≡ map (hash_at store.now) (chain (next_of store.now) n 0)) }
{
    let mut p = 0;
    for j in 0..n {
        p = store::next(store, p);
        if p == 0 {
            return j;
        }
        hashes[j] = hash(store::slot(store, p));
    }
    n
}
