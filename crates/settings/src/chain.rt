// The records of a store: their fields, and the record of a name.
ghost use Rattle.std.specs.Prelude.{◌≡◌, ◌*◌};
ghost use Rattle.records.specs.Chain.{chain};
ghost use Rattle.settings_spec.specs.Settings.{Found, next as next_of, name_at, is_record, named as named_of, record_of};

// Where record i begins.
pub fn at(i: u16) -> usize
    ensures { result ≡ 32 * i }
{
    32 * usize::from(i)
}

// The record behind record i; behind record 0 stands the first.
#[tactic(auto, unfolding(settings_spec::specs::Settings::next))]
pub fn next(settings: &[u8], i: u16) -> Option<u16>
    ensures { Found result (next_of settings.now i) }
{
    match records::u16_at(settings, if i == 0 { 2 } else { at(i) }) {
        0 => None,
        j => Some(j),
    }
}

// The name of record i.
#[tactic(auto, unfolding(settings_spec::specs::Settings::name_at))]
pub fn name(settings: &[u8], i: u16) -> &[u8]
    ensures { result.now ≡ name_at settings.now i }
{
    let n = records::byte_at(settings, at(i) + 2);
    records::head(records::tail(settings, at(i) + 3), usize::from(n))
}

// Whether record i is inside, with a name length and a kind in range.
#[tactic(auto, unfolding(settings_spec::specs::Settings::is_record))]
pub fn is_record(settings: &[u8], i: u16) -> bool
    ensures { result ≡ is_record settings.now i }
{
    usize::from(i) < settings.len() / 32
        && records::byte_at(settings, at(i) + 2) <= 15
        && matches!(records::byte_at(settings, at(i) + 18), 1..=2)
}

// Of the n records behind record p the first of this name.
#[tactic(auto, using(settings_spec::proofs::Laws::Turns::named_turns))]
pub fn named(settings: &[u8], p: u16, n: usize, wanted: &[u8]) -> Option<u16>
    ensures { Found result (named_of settings.now wanted.now (chain (next_of settings.now) n p)) }
{
    let mut q = p;
    for _ in 0..n {
        q = next(settings, q)?;
        if wanted == name(settings, q) {
            return Some(q);
        }
    }
    None
}

// The record of a name.
#[tactic(auto, unfolding(settings_spec::specs::Settings::record_of, settings_spec::specs::Settings::order))]
pub fn record_of(settings: &[u8], wanted: &[u8]) -> Option<u16>
    ensures { Found result (record_of settings.now wanted.now) }
{
    named(settings, 0, settings.len() / 32, wanted)
}
