// accept entries (02, S-2, the second step): the store gets the spare's bytes, if nothing was accepted since it was filled.

#![tactic(auto)]

ghost use Rattle.std.specs.Prelude.{◌≡◌};
ghost use Rattle.answers.specs.Told.{told_done};
ghost use Rattle.accept_entries.specs.AcceptEntries.{accept_entries, store_after};

use answers::Refusal;

pub fn accept_entries(store: &mut [u8], spare: &[u8]) -> Result<(), Refusal>
    ensures result_value { told_done result ≡ accept_entries store.old spare.now }
    ensures store_after { store.new ≡ store_after store.old spare.now }
{
    if !sound_store::is_sound(store) {
        return Err(Refusal::Unsound);
    }
    if spare.len() != store.len() {
        return Err(Refusal::Unsound);
    }
    if !sound_store::is_sound(spare) {
        return Err(Refusal::Unsound);
    }
    let seen = counting::count(spare);
    if seen != counting::count(store) {
        return Err(Refusal::Count);
    }
    if seen == counting::largest() {
        return Err(Refusal::Count);
    }
    counting::take_spare(store, spare);
    Ok(())
}
