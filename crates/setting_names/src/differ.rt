// Whether names differ: by a table, or, for few records and where the table does not tell, each with those behind it.
ghost use Rattle.std.specs.Prelude.{◌≡◌, true, map, ◌<◌};
ghost use Rattle.texts.specs.Text.{distinct};
ghost use Rattle.records.specs.Chain.{chain};
ghost use Rattle.settings_spec.specs.Settings.{next as next_of, name_at, walks};

use crate::table::{self, Table};

// Whether no two of the n records behind record 0 have one name, each compared with those behind it.
#[tactic(auto, using(settings_spec::proofs::Laws::Turns::differ_turns))]
fn all_differ(settings: &[u8], n: usize) -> bool
    ensures { result ≡ distinct (map (name_at settings.now) (chain (next_of settings.now) n 0)) }
{
    let mut p = 0;
    for left in (0..n).rev() {
        let Some(q) = settings::next(settings, p) else {
            return true;
        };
        if settings::named(settings, q, left, settings::name(settings, q)).is_some() {
            return false;
        }
        p = q;
    }
    true
}

// The same, by a table.
#[tactic(auto, using(settings_spec::proofs::Laws::Names::none_lost, settings_spec::proofs::Laws::Names::lost_twice))]
fn differ_by_table(settings: &[u8], n: usize) -> bool
    requires { walks settings.now n 0 ≡ true }
    ensures { result ≡ distinct (map (name_at settings.now) (chain (next_of settings.now) n 0)) }
{
    let mut table: Table = [0; 4096];
    table::fill(&mut table, settings, n);
    let Some(lost) = table::first_lost(settings, &table, n) else {
        return true;
    };
    let first = settings::named(settings, 0, n, settings::name(settings, lost));
    first == Some(lost) && all_differ(settings, n)
}

// Whether no two of the n records behind record 0 have one name, where their chain ends.
pub fn names_differ(settings: &[u8], n: usize) -> bool
    requires { walks settings.now n 0 ≡ true }
    ensures { result ≡ distinct (map (name_at settings.now) (chain (next_of settings.now) n 0)) }
{
    if n < 17 {
        all_differ(settings, n)
    } else {
        differ_by_table(settings, n)
    }
}
