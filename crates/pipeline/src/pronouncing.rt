// Pronouncing a word (01, Store and sheet): looked up, or by the letter trees where no source has it.
ghost use Rattle.std.specs.Prelude.{◌≡◌, true, false, ◌&&◌, ◌≤◌, length, MatchOption, IfOk};
ghost use Rattle.store_spec.specs.Store.{is_sound, entries};
ghost use Rattle.compiled_spec.specs.Lexicon.{is_lexicon};
ghost use Rattle.lts_spec.specs.Letters.{is_trees, letters, stopped};
ghost use Rattle.pipeline_spec.specs.Pronounced.{pronounced, tables};
ghost use Rattle.pipeline_spec.specs.Cutting.{told_spoken, cells_spoken};
ghost use Rattle.pipeline_spec.specs.Laws.ChosenSource.{told_behind, room_behind};
ghost use Rattle.pipeline.specs.Told.{told_pronounced, tables_of};

use crate::{Pronounced, Sections};
use answers::{Found, Refusal};
use compiled::Lexicon;
use lts::Trees;

// Phones that were found stay; a word that no source has goes to the letter trees.
fn spoken(
    looked: Option<Found>,
    trees: &Trees,
    word: &[u8],
    room: &mut [u8],
) -> Result<Pronounced, Refusal>
    requires { length word.now ≤ 47 }
    ensures result_value { told_pronounced result ≡ told_behind looked (letters trees.now.table.bytes.now trees.now.index.now trees.now.model.now word.now) (stopped word.now) room.old }
    ensures room_after { room.new ≡ room_behind looked (letters trees.now.table.bytes.now trees.now.index.now trees.now.model.now word.now) (stopped word.now) room.old }
{
    let Some(found) = looked else {
        let mut list = [0; 1504];
        let p = trees.spell_out(word, &mut list, room)?;
        return Ok(Pronounced {
            phones: p.phones,
            stopped: p.stopped,
            source: 4,
        });
    };
    Ok(Pronounced {
        phones: found.phones,
        stopped: 0,
        source: answers::source_number(found.source),
    })
}

impl<'a> Sections<'a> {
    // The sections that these are, if each has its form (sounds is lts.phones, starts lts.index); the places of each table's phones go
    // into the memory that the caller lends.
    pub fn read(
        phones: &'a [u8],
        index: &'a [u8],
        lex_data: &'a [u8],
        places: &'a mut [u16; 256],
        sounds: &'a [u8],
        starts: &'a [u8],
        model: &'a [u8],
        spots: &'a mut [u16; 256],
    ) -> Option<Sections<'a>>
        ensures { MatchOption result ((is_lexicon phones.now index.now && is_trees sounds.now starts.now model.now) ≡ false) (λ s. tables_of s ≡ tables phones.now index.now lex_data.now sounds.now starts.now model.now) }
    {
        let lexicon = Lexicon::read(phones, index, lex_data, places)?;
        let trees = Trees::read(sounds, starts, model, spots)?;
        Some(Sections { lexicon, trees })
    }

    // The phones of a word as cells at the front of a room of 96, its source and where its letters stopped. A refused lookup
    // refuses the word.
    pub fn pronounce(
        &self,
        store: &[u8],
        word: &[u8],
        tag: &[u8],
        room: &mut [u8],
    ) -> Result<Pronounced, Refusal>
        requires { (is_sound store.now ≡ true) × (length word.now ≤ 47) × (length room.old ≡ 1536) }
        ensures few { IfOk result (λ p. p.phones ≤ 96) }
        ensures result_value { told_pronounced result ≡ told_spoken (pronounced (tables_of self.now) (entries store.now) word.now tag.now) }
        ensures room_after { room.new ≡ cells_spoken (pronounced (tables_of self.now) (entries store.now) word.now tag.now) room.old }
    {
        let looked = lexicon::find(&self.lexicon, store, word, texts::first_or_any(tag), room)?;
        spoken(looked, &self.trees, word, room)
    }
}
