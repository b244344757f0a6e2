// A pronounced word made ready for the sheet: its bare phones, and where its syllables end with what stress. What a stress
// is, the sheet's version says (02, S-9).
ghost use Rattle.std.specs.Prelude.{◌≡◌, false, map, ◌++◌, ◌*◌, ◌/◌, ◌≤◌, eqb, length, drop};
ghost use Rattle.texts.specs.Choice.{when◌then◌else◌};
ghost use Rattle.cells.specs.Cells.{phones_of, cells_of};
ghost use Rattle.versions.specs.Versions.{digits};
ghost use Rattle.phoneset.specs.Stress.{bare as bare_of};
ghost use Rattle.onsets.specs.Onsets.{onsets};
ghost use Rattle.syllabify.specs.Syllables.{marks as marks_of};
ghost use Rattle.pipeline_spec.specs.Cutting.{stressed as stressed_of, cuts_of};

// A phone without its stress.
#[tactic(auto, using(phoneset::specs::Stress::bare_front, phoneset::specs::Stress::bare_short))]
fn bare_phone(version: u8, phone: &[u8]) -> &[u8]
    ensures { result.now ≡ bare_of (digits version) phone.now }
{
    &phone[..phoneset::split_stress(version, phone).bare]
}

// The bare phones of a list as cells at the front of dst.
#[tactic(auto, using(pipeline_spec::proofs::Laws::BareCells::bare_turns))]
fn put_bare(version: u8, dst: &mut [u8], phones: &[u8])
    requires { 16 * (length phones.now / 16) ≤ length dst.old }
    ensures { dst.new ≡ cells_of (map (bare_of (digits version)) (phones_of phones.now)) ++ drop (16 * (length phones.now / 16)) dst.old }
{
    for i in 0..phones.len() / 16 {
        cells::put_cell(dst, i, bare_phone(version, cells::phone(phones, i)));
    }
}

// The stress behind a phone: its own, else the one before it.
#[tactic(auto, using(pipeline_spec::proofs::Laws::Cuts::stress_split))]
fn stressed(version: u8, before: u8, phone: &[u8]) -> u8
    ensures { result ≡ stressed_of version before phone.now }
{
    let own = phoneset::split_stress(version, phone).stress;
    if own == 0 { before } else { own }
}

// The cut at a mark, for the stress there.
fn cut_at(mark: u8, stress: u8) -> u8
    ensures { result ≡ (when eqb mark 1 then stress else 0) }
{
    if mark == 1 { stress } else { 0 }
}

// The stress that a phone after a mark finds before it: "0" in a new syllable.
fn carried(mark: u8, stress: u8) -> u8
    ensures { result ≡ (when eqb mark 1 then 48 else stress) }
{
    if mark == 1 { 48 } else { stress }
}

// The cuts of phones at their marks, at the front of dst.
#[tactic(auto, using(crate::proofs::Cuts::cut_turns))]
fn put_cuts(version: u8, dst: &mut [u8], phones: &[u8], marks: &[u8])
    requires { (length phones.now / 16 ≤ length dst.old) × (length phones.now / 16 ≤ length marks.now) }
    ensures { dst.new ≡ cuts_of version 48 marks.now (phones_of phones.now) ++ drop (length phones.now / 16) dst.old }
{
    let mut last = 48;
    for i in 0..phones.len() / 16 {
        let stress = stressed(version, last, cells::phone(phones, i));
        dst[i] = cut_at(marks[i], stress);
        last = carried(marks[i], stress);
    }
}

// The bare phones of a word and its cuts, each at the front of its room.
#[tactic(auto, using(pipeline_spec::proofs::Laws::BareCells::front_bares, pipeline_spec::proofs::Laws::Cuts::cuts_own))]
pub fn prepare(version: u8, phones: &[u8], bare: &mut [u8], cuts: &mut [u8])
    requires { (length phones.now ≤ 1536) × (length bare.old ≡ 1536) × (length cuts.old ≡ 96) }
    ensures bare_after { bare.new ≡ cells_of (map (bare_of (digits version)) (phones_of phones.now)) ++ drop (16 * (length phones.now / 16)) bare.old }
    ensures cuts_after { cuts.new ≡ cuts_of version 48 (marks_of onsets false (map (bare_of (digits version)) (phones_of phones.now))) (phones_of phones.now) ++ drop (length phones.now / 16) cuts.old }
{
    let mut marks = [0; 96];
    put_bare(version, bare, phones);
    syllabify::mark(&bare[..16 * (phones.len() / 16)], &mut marks);
    put_cuts(version, cuts, phones, &marks);
}
