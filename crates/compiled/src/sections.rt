// The sections that hold compiled entries (01, Sections)
ghost use Rattle.std.specs.Prelude.{◌≡◌, true, false, ◌<◌, ◌^◌, MatchOption};
ghost use Rattle.compiled_spec.specs.Entries.{count, is_spoken, entry_at};
ghost use Rattle.compiled_spec.specs.Lexicon.{is_lexicon};

use crate::entries;
use data::Table;

// The three sections of the compiled entries: lex.phones, lex.index and lex.data, which may be any bytes.
#[derive(Clone, Copy)]
pub struct Lexicon<'a> {
    pub table: Table<'a>,
    pub index: &'a [u8],
    pub entries: &'a [u8],
    ghost is_lexicon: { is_lexicon table.bytes.now index.now ≡ true },
}

impl<'a> Lexicon<'a> {
    // The lexicon that these sections are, if each has its form; the places of the phones go into the memory that the caller lends.
    #[tactic(auto, unfolding(compiled_spec::specs::Lexicon::is_lexicon))]
    pub fn read(
        phones: &'a [u8],
        index: &'a [u8],
        entries: &'a [u8],
        places: &'a mut [u16; 256],
    ) -> Option<Lexicon<'a>>
        ensures { MatchOption result (is_lexicon phones.now index.now ≡ false) (λ l. (l.table.bytes ≡ phones.entry) × (l.index ≡ index.entry) × (l.entries ≡ entries.entry)) }
    {
        let table = Table::read(phones, places)?;
        if !data::is_lex_index(index) {
            return None;
        }
        Some(Lexicon {
            table,
            index,
            entries,
        })
    }

    // How many entries there are.
    pub fn len(&self) -> usize
        ensures { (result ≡ count self.now.index.now) × (result < 2 ^ 32) }
    {
        data::count(self.index)
    }

    // Entry i: the bytes from its offset on.
    #[tactic(auto, unfolding(compiled_spec::specs::Entries::entry_at))]
    pub fn entry(&self, i: usize) -> &'a [u8]
        requires { i < 2 ^ 61 }
        ensures { result.now ≡ entry_at self.now.index.now self.now.entries.now i }
    {
        records::tail(
            self.entries,
            records::u32_at(self.index, 4 + 4 * i) as usize,
        )
    }

    // Entry i, whose offset lies inside the index.
    #[tactic(auto, unfolding(compiled_spec::specs::Entries::entry_at), using(compiled_spec::proofs::Lexicon::index_room))]
    pub fn entry_in(&self, i: usize) -> &'a [u8]
        requires { i < count self.now.index.now }
        ensures { result.now ≡ entry_at self.now.index.now self.now.entries.now i }
    {
        records::tail(
            self.entries,
            records::u32_in(self.index, 4 + 4 * i) as usize,
        )
    }

    // Whether every number of an entry has a phone.
    pub fn is_spoken(&self, s: &[u8]) -> bool
        ensures { result ≡ is_spoken self.now.table.bytes.now s.now }
    {
        let count = self.table.len();
        entries::numbers(s).iter().all(|&n| usize::from(n) < count)
    }
}
