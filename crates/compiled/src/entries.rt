// One compiled entry: tag, word length, word, phone count, phone numbers. Parts past the end of the
// bytes are cut short, and `is_whole` tells.
ghost use Rattle.std.specs.Prelude.{◌≡◌, true, false, MatchResult};
ghost use Rattle.compiled_spec.specs.Entries.{tag_of, word_of, numbers_of, is_whole};

use compiled_spec::Damaged;

#[tactic(auto, unfolding(compiled_spec::specs::Entries::tag_of))]
pub fn tag(s: &[u8]) -> u8
    ensures { result ≡ tag_of s.now }
{
    records::byte_at(s, 0)
}

#[tactic(auto, unfolding(compiled_spec::specs::Entries::word_of))]
pub fn word(s: &[u8]) -> &[u8]
    ensures { result.now ≡ word_of s.now }
{
    records::head(records::tail(s, 2), usize::from(records::byte_at(s, 1)))
}

// The numbers of its phones.
#[tactic(auto, unfolding(compiled_spec::specs::Entries::numbers_of))]
pub fn numbers(s: &[u8]) -> &[u8]
    ensures { result.now ≡ numbers_of s.now }
{
    let n = usize::from(records::byte_at(s, 1));
    let count = usize::from(records::byte_at(s, 2 + n));
    records::head(records::tail(s, 3 + n), count)
}

// Whether no part lies outside and the word has no byte of 128 or more.
#[tactic(auto, unfolding(compiled_spec::specs::Entries::is_whole, compiled_spec::specs::Entries::word_of))]
pub fn is_whole(s: &[u8]) -> bool
    ensures { result ≡ is_whole s.now }
{
    if s.len() < 3 {
        return false;
    }
    let end = 2 + usize::from(s[1]);
    end < s.len() && end + usize::from(s[end]) < s.len() && texts::is_ascii(&s[2..end])
}

// The word of an entry, which is damaged unless it is whole.
#[tactic(auto, unfolding(compiled_spec::specs::Entries::is_whole, compiled_spec::specs::Entries::word_of))]
pub fn whole_word(s: &[u8]) -> Result<&[u8], Damaged>
    ensures { MatchResult result (λ w. (is_whole s.now ≡ true) × (w.now ≡ word_of s.now)) (λ _. is_whole s.now ≡ false) }
{
    if is_whole(s) {
        Ok(&s[2..2 + usize::from(s[1])])
    } else {
        Err(Damaged)
    }
}
