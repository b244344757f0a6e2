// lookup (01, Lookup).

#![tactic(auto)]

ghost use Rattle.std.specs.Prelude.{◌≡◌};
ghost use Rattle.answers.specs.Told.{told_looked};
ghost use Rattle.lookup.specs.Lookup.{lookup as lookup_of, looked_up};

use answers::{Found, Refusal};
use compiled::Lexicon;

#[tactic(auto, unfolding(crate::specs::Lookup::lookup, crate::specs::Lookup::looked_up, lexicon_spec::specs::Lookup::wanted_tag), using(texts::specs::Text::word_short))]
pub fn lookup(
    phones: &[u8],
    index: &[u8],
    dat: &[u8],
    store: &[u8],
    word: &[u8],
    tag: &[u8],
    out: &mut [u8],
) -> Result<Option<Found>, Refusal>
    ensures result_value { told_looked result ≡ lookup_of phones.now index.now dat.now store.now word.now tag.now out.old }
    ensures out_after { out.new ≡ looked_up phones.now index.now dat.now store.now word.now tag.now out.old }
{
    let mut places = [0; 256];
    let lexicon = Lexicon::read(phones, index, dat, &mut places).ok_or(Refusal::Section)?;
    if !sound_store::is_sound(store) {
        return Err(Refusal::Unsound);
    }
    if !(texts::is_word(word) && texts::is_word(tag)) {
        return Err(Refusal::Text);
    }
    lexicon::find(&lexicon, store, word, texts::first_or_any(tag), out)
}
