// new store (01, Store and sheet): slot 0 of a store of a right length is cleared.

#![tactic(auto)]

ghost use Rattle.std.specs.Prelude.{◌≡◌};
ghost use Rattle.answers.specs.Told.{told_done};
ghost use Rattle.new_store.specs.NewStore.{new_store, new_bytes};

use answers::Refusal;

pub fn new_store(store: &mut [u8]) -> Result<(), Refusal>
    ensures result_value { told_done result ≡ new_store store.old }
    ensures store_after { store.new ≡ new_bytes store.old }
{
    if !store::is_store_length(store.len()) {
        return Err(Refusal::Unsound);
    }
    records::clear(store, 0, 512);
    Ok(())
}
