// The table: 4,096 places, each with a record's number, or 0 where it is free.
ghost use Rattle.std.specs.Prelude.{◌≡◌, ◌<◌};
ghost use Rattle.records.specs.Chain.{chain};
ghost use Rattle.settings_spec.specs.Settings.{Found, next as next_of};
ghost use Rattle.settings_spec.specs.Laws.Names.{place_of, given as given_for, first_lost};

pub type Table = [u16; 4096];

// The place of a name: where it is sought first.
#[tactic(auto, unfolding(settings_spec::specs::Laws::Names::place_of))]
fn place(name: &[u8]) -> usize
    ensures { (result ≡ place_of name.now) × (result < 4096) }
{
    usize::from(texts::mixed(0, name)) * 40503 % 65536 / 16
}

// A record's number into the first free one of 64 places from k on.
fn enter(table: &mut Table, k: usize, i: u16)
    requires { k < 4096 }
{
    for at in k..k + 64 {
        if table[at % 4096] == 0 {
            table[at % 4096] = i;
            return;
        }
    }
}

// The numbers of the n records behind record 0 into a table, each from the place of its name on.
pub fn fill(table: &mut Table, settings: &[u8], n: usize) {
    let mut p = 0;
    for _ in 0..n {
        let Some(q) = settings::next(settings, p) else {
            return;
        };
        enter(table, place(settings::name(settings, q)), q);
        p = q;
    }
}

// The record that a table gives for a name: the first of that name in the 64 places from its own on; where there is none, the store's.
#[tactic(auto, using(settings_spec::proofs::Laws::Names::sought_turns))]
fn given(settings: &[u8], table: &Table, name: &[u8]) -> Option<u16>
    ensures { Found result (given_for settings.now table.now name.now) }
{
    let k = place(name);
    for at in k..k + 64 {
        let i = table[at % 4096];
        if i == 0 {
            break;
        }
        if name == settings::name(settings, i) {
            return Some(i);
        }
    }
    settings::record_of(settings, name)
}

// Of the n records behind record 0 the first that a table does not give back for its name.
#[tactic(auto, using(settings_spec::proofs::Laws::Names::lost_turns))]
pub fn first_lost(settings: &[u8], table: &Table, n: usize) -> Option<u16>
    ensures { Found result (first_lost settings.now table.now (chain (next_of settings.now) n 0)) }
{
    let mut p = 0;
    for _ in 0..n {
        p = settings::next(settings, p)?;
        if given(settings, table, settings::name(settings, p)) != Some(p) {
            return Some(p);
        }
    }
    None
}
