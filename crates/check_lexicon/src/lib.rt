// check lexicon (01, Lookup): whether every compiled entry is whole and spoken, and words rise.

#![tactic(auto)]

ghost use Rattle.std.specs.Prelude.{◌≡◌, ◌+◌, ◌-◌, ◌<◌};
ghost use Rattle.texts.specs.Lists.{every, up_to};
ghost use Rattle.compiled_spec.specs.Entries.{count};
ghost use Rattle.compiled_spec.specs.Lexicon.{is_good, rises as rises_at};
ghost use Rattle.answers.specs.Told.{told_verdict};
ghost use Rattle.check_lexicon.specs.CheckLexicon.{check_lexicon};

use answers::Refusal;
use compiled::Lexicon;

// Whether entry i is whole and every number of it has a phone.
#[tactic(auto, unfolding(compiled_spec::specs::Lexicon::is_good))]
fn is_good(lexicon: &Lexicon, i: usize) -> bool
    requires { i < count lexicon.now.index.now }
    ensures { result ≡ is_good lexicon.now.table.bytes.now lexicon.now.index.now lexicon.now.entries.now i }
{
    let s = lexicon.entry_in(i);
    compiled::is_whole(s) && lexicon.is_spoken(s)
}

fn are_good(lexicon: &Lexicon) -> bool
    ensures { let l = lexicon.now in result ≡ every (is_good l.table.bytes.now l.index.now l.entries.now) (up_to (count l.index.now)) }
{
    (0..lexicon.len()).all(|i| is_good(lexicon, i))
}

// Whether the word of entry i is not smaller than the one before it.
#[tactic(auto, unfolding(compiled_spec::specs::Lexicon::rises))]
fn rises(lexicon: &Lexicon, i: usize) -> bool
    requires { (0 < i) × (i < count lexicon.now.index.now) }
    ensures { result ≡ rises_at lexicon.now.index.now lexicon.now.entries.now (i - 1) }
{
    let before = compiled::word(lexicon.entry_in(i - 1));
    !texts::smaller(compiled::word(lexicon.entry_in(i)), before)
}

fn all_rise(lexicon: &Lexicon) -> bool
    ensures { result ≡ every (rises_at lexicon.now.index.now lexicon.now.entries.now) (up_to (count lexicon.now.index.now - 1)) }
{
    (1..lexicon.len()).all(|i| rises(lexicon, i))
}

#[tactic(auto, unfolding(crate::specs::CheckLexicon::check_lexicon, compiled_spec::specs::Lexicon::is_checked))]
pub fn check_lexicon(phones: &[u8], index: &[u8], lex_data: &[u8]) -> Result<bool, Refusal>
    ensures { told_verdict result ≡ check_lexicon phones.now index.now lex_data.now }
{
    let mut places = [0; 256];
    let lexicon = Lexicon::read(phones, index, lex_data, &mut places).ok_or(Refusal::Section)?;
    Ok(are_good(&lexicon) && all_rise(&lexicon))
}
