// A word pronounced and put last on a sound sheet (01, Store and sheet).
ghost use Rattle.std.specs.Prelude.{◌≡◌, true, ◌≤◌, length};
ghost use Rattle.cells.specs.Cells.{phones_of};
ghost use Rattle.store_spec.specs.Store.{entries, is_sound};
ghost use Rattle.utterance_spec.specs.Sheet.{is_sound as is_sheet, version};
ghost use Rattle.answers.specs.Told.{told_said};
ghost use Rattle.pipeline_spec.specs.Pronounced.{pronounced, said as said_of};
ghost use Rattle.pipeline_spec.specs.Placing.{placed, sheet_placed, on_spoken, sheet_spoken};
ghost use Rattle.pipeline.specs.Told.{tables_of};

use crate::{Sections, cutting};
use answers::Refusal;

// A pronounced word put last on a sound sheet, if there is room, with its source, its stresses by the sheet's version; stopped
// is where its letters stopped.
fn put(
    sheet: &mut [u8],
    word: &[u8],
    source: u8,
    stopped: usize,
    phones: &[u8],
) -> Result<usize, Refusal>
    requires { (is_sheet sheet.old ≡ true) × (length word.now ≤ 47) × (length phones.now ≤ 1536) }
    ensures result_value { told_said result ≡ placed sheet.old stopped (said_of (version sheet.old) word.now source (phones_of phones.now)) }
    ensures sheet_after { sheet.new ≡ sheet_placed sheet.old stopped (said_of (version sheet.old) word.now source (phones_of phones.now)) }
{
    let mut bare = [0; 1536];
    let mut cuts = [0; 96];
    cutting::prepare(utterance::version(sheet), phones, &mut bare, &mut cuts);
    let n = phones.len() / 16;
    let (bare, cuts) = (&bare[..16 * n], &cuts[..n]);
    let size = appending::size(bare, cuts);
    let unused = sheet.len() / 64 - 1 - usize::from(utterance::used(sheet));
    if unused < size {
        return Err(Refusal::Short);
    }
    appending::append(sheet, word, source, bare, cuts);
    Ok(stopped)
}

impl Sections<'_> {
    // A word pronounced and put last.
    pub fn say(
        &self,
        store: &[u8],
        sheet: &mut [u8],
        word: &[u8],
        tag: &[u8],
    ) -> Result<usize, Refusal>
        requires { (is_sound store.now ≡ true) × (is_sheet sheet.old ≡ true) × (length word.now ≤ 47) }
        ensures result_value { told_said result ≡ on_spoken sheet.old word.now (pronounced (tables_of self.now) (entries store.now) word.now tag.now) }
        ensures sheet_after { sheet.new ≡ sheet_spoken sheet.old word.now (pronounced (tables_of self.now) (entries store.now) word.now tag.now) }
    {
        let mut room = [0; 1536];
        let p = self.pronounce(store, word, tag, &mut room)?;
        put(sheet, word, p.source, p.stopped, &room[..16 * p.phones])
    }
}
