// The letter trees' nodes and the walk from a letter's start to a leaf (01, Letter trees).

#![tactic(auto)]

ghost use Rattle.std.specs.Prelude.{◌≡◌, ◌*◌, ◌+◌, ◌/◌, ◌%◌, ◌≤◌, ◌<◌, length, MatchOption};
ghost use Rattle.records.specs.Fields.{u16_at};
ghost use Rattle.trees.specs.Walk.{walk as walk_from};

// What a node says. Only the definitions name it.
#[derive(Clone, Copy, Debug, PartialEq, Eq)]
pub enum Node {
    // a phone number
    Leaf(u8),
    // the node to go on with
    Next(u16),
    // it is not in the model
    Outside,
}

// Where the node that a link names begins, if the model has it.
fn linked(model: &[u8], link: usize) -> Option<usize>
    requires { link + 1 < length model.now }
    ensures { MatchOption result (length model.now ≤ 6 * u16_at model.now link) (λ at. (at ≡ 6 * u16_at model.now link) × (at < length model.now)) }
{
    let at = 6 * usize::from(records::u16_in(model, link));
    if at < model.len() { Some(at) } else { None }
}

// The phone number of the leaf that a walk from a start comes to, over at most as many nodes as the model has; none if the tree
// is damaged. `phones` is how many phones there are. Each link has a test of its own: behind one for both, each node would wait for the feature.
pub fn walk(model: &[u8], features: &[u8; 8], start: u16, phones: usize) -> Option<u8>
    requires { length model.now % 6 ≡ 0 }
    ensures { result ≡ walk_from model.now features.now phones (length model.now / 6) start }
{
    let mut at = 6 * usize::from(start);
    if model.len() <= at {
        return None;
    }
    for _ in 0..model.len() / 6 {
        let value = model[at + 1];
        at = match model[at] {
            255 => return (usize::from(value) < phones).then_some(value),
            n @ 0..=7 if features[usize::from(n)] == value => linked(model, at + 2)?,
            _ => linked(model, at + 4)?,
        };
    }
    None
}
