// The names that members may have.
ghost use Rattle.std.specs.Prelude.{◌≡◌, false, option_map, IsTrue, IfNone};
ghost use Rattle.std.specs.List.{list_all};
ghost use Rattle.json_tree.specs.Tree.{list, object, elements_of, members_of};
ghost use Rattle.json_tree.specs.View.{tree};
ghost use Rattle.json_tree.specs.Doc.{has_dollar_name};
ghost use Rattle.doc_limits.specs.Names.{is_plain_byte, is_plain, names_in, first_bad_name};

use json_tree::{Items, Members, Text, Value};

fn is_plain_byte(b: u8) -> bool
    ensures { result ≡ is_plain_byte b }
{
    b.is_ascii_alphanumeric() || b == b'_' || b == b'-'
}

fn is_plain(name: &str) -> bool
    ensures { result ≡ is_plain name.now }
{
    for b in name.as_bytes() {
        if !is_plain_byte(*b) {
            return false;
        }
    }
    true
}

/// The first member name, in the order of the text, with a byte outside `[A-Za-z0-9_-]`.
#[cycle(names)]
#[tactic(auto, using(json_tree::specs::Sizes::sizes))]
pub fn names_fault(value: &Value) -> Option<&Text>
    ensures first { option_map (λ n. n.now) result ≡ first_bad_name (tree value.now) }
    ensures plain { IfNone result (IsTrue (list_all is_plain (names_in (tree value.now)))) }
    ensures no_dollar { IfNone result (has_dollar_name (tree value.now) ≡ false) }
{
    match value {
        Value::List(elements) => elements_fault(elements),
        Value::Object(members) => members_fault(members),
        _ => None,
    }
}

#[cycle(names)]
#[tactic(auto, using(json_tree::specs::Sizes::sizes))]
fn elements_fault(elements: &Items) -> Option<&Text>
    ensures { option_map (λ n. n.now) result ≡ first_bad_name (list (elements_of elements.now)) }
{
    for i in 0..elements.len() {
        let Some(element) = elements.get(i) else {
            return None;
        };
        if let Some(name) = names_fault(element) {
            return Some(name);
        }
    }
    None
}

#[cycle(names)]
#[tactic(auto, using(json_tree::specs::Sizes::sizes))]
fn members_fault(members: &Members) -> Option<&Text>
    ensures { option_map (λ n. n.now) result ≡ first_bad_name (object (members_of members.now)) }
{
    for i in 0..members.len() {
        let Some((name, value)) = members.pair(i) else {
            return None;
        };
        if !is_plain(name.as_str()) {
            return Some(name);
        }
        if let Some(name) = names_fault(value) {
            return Some(name);
        }
    }
    None
}
