// The search for a word (01, Lookup): halves, then the run of equal words for the tag.
ghost use Rattle.std.specs.Prelude.{◌≡◌, ◌-◌};
ghost use Rattle.compiled_spec.specs.Entries.{count};
ghost use Rattle.compiled_spec.specs.Search.{search as search_of, tagged as tagged_of, from_place, chosen};

use crate::{Lexicon, entries};
use compiled_spec::Damaged;

impl<'a> Lexicon<'a> {
    // The first entry whose word is not smaller, if words don't fall.
    #[tactic(auto, using(compiled_spec::proofs::Search::halving))]
    fn search(&self, word: &[u8]) -> Result<usize, Damaged>
        ensures { result ≡ search_of self.now.index.now self.now.entries.now word.now (count self.now.index.now) 0 (count self.now.index.now) }
    {
        let mut lo = 0;
        let mut hi = self.len();
        // A `while`: each turn halves what is left.
        while lo < hi {
            let mid = (lo + hi) / 2;
            let there = entries::whole_word(self.entry_in(mid))?;
            if texts::smaller(there, word) {
                lo = mid + 1;
            } else {
                hi = mid;
            }
        }
        Ok(lo)
    }

    // From entry lo on while words are equal, the first with the exact tag; failing that, lo.
    #[tactic(auto, using(compiled_spec::proofs::Search::walking))]
    fn tagged(&self, word: &[u8], tag: u8, lo: usize) -> Result<usize, Damaged>
        ensures { result ≡ tagged_of self.now.index.now self.now.entries.now word.now tag lo (count self.now.index.now - lo) lo }
    {
        for i in lo..self.len() {
            let s = self.entry(i);
            if entries::whole_word(s)? != word {
                return Ok(lo);
            }
            if entries::tag(s) == tag {
                return Ok(i);
            }
        }
        Ok(lo)
    }

    // The word's entry by its tag, where the search ended at lo.
    #[tactic(auto, unfolding(compiled_spec::specs::Search::from_place), using(texts::specs::Laws::Library::same_pointwise))]
    fn from_place(&self, word: &[u8], tag: u8, lo: usize) -> Result<Option<usize>, Damaged>
        ensures { result ≡ from_place self.now.index.now self.now.entries.now word.now tag lo }
    {
        if self.len() <= lo || entries::whole_word(self.entry(lo))? != word {
            return Ok(None);
        }
        Ok(Some(self.tagged(word, tag, lo)?))
    }

    // The word's entry by its tag.
    #[tactic(auto, unfolding(compiled_spec::specs::Search::chosen))]
    pub fn choose(&self, word: &[u8], tag: u8) -> Result<Option<usize>, Damaged>
        ensures { result ≡ chosen self.now.index.now self.now.entries.now word.now tag }
    {
        let lo = self.search(word)?;
        self.from_place(word, tag, lo)
    }
}
