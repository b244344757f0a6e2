// Saying words on a sheet (01, Store and sheet).

#![tactic(auto)]

ghost use Rattle.std.specs.Prelude.{◌≡◌, true, take};
ghost use Rattle.records.specs.Fields.{u32_at};
ghost use Rattle.data.specs.Places.{places as places_of};
ghost use Rattle.compiled_spec.specs.Lexicon.{is_lexicon};

use compiled::Lexicon;
use lts::Trees;

mod cutting;
mod pronouncing;
mod saying;

pub use cutting::prepare;

// The sections that say word takes: the lexicon's and the letter trees'.
#[derive(Clone, Copy)]
pub struct Sections<'a> {
    pub lexicon: Lexicon<'a>,
    pub trees: Trees<'a>,
}

// What a word comes to: how many phones, the place where its letters stopped, and its source as the sheet has it (1 runtime,
// 2 addenda, 3 compiled, 4 the letter trees).
#[derive(Clone, Copy, Debug, PartialEq, Eq)]
pub struct Pronounced {
    pub phones: usize,
    pub stopped: usize,
    pub source: u8,
}
