// Values of which a list has none.
ghost use Rattle.std.specs.Prelude.{◌≡◌, ◌∷◌, ◌++◌, [], List, map, true, string_bytes, IfOk, IfErr, OnOk};
ghost use Rattle.std.specs.List.{list_any};
ghost use Rattle.json_tree.specs.Tree.{Tree};
ghost use Rattle.json_tree.specs.View.{tree};
ghost use Rattle.json_tree.specs.Same.{same};
ghost use Rattle.json_text.specs.Print.{text_of};
ghost use Rattle.update_ops.specs.View.{trees};
ghost use Rattle.update_ops.specs.Apply.{added, added_one};
ghost use Rattle.update_ops.specs.Seen.{are_seen};
ghost use Rattle.update_ops.specs.declared.fault.UpdateFault.TheVariants.{NoMemory};

use crate::compare::{has, has_among};
use crate::fault::UpdateFault;
use json_text::canon;
use json_tree::{Value, same_decides};
use std::alloc::Global;
use std::collections::BTreeMap;

/// So many values are looked for one by one; for more, the texts of all elements are kept in order.
const FEW: usize = 8;

/// The values that no element and no value before them is the same as. Of n values and m elements this
/// takes n log (n + m) steps, and as many as there are elements.
pub(crate) fn fresh<'a>(
    alloc: Global,
    elements: &[Value],
    values: &'a [Value],
) -> Result<Vec<&'a Value>, UpdateFault>
    ensures ok { IfOk result (λ v. map tree elements.now ++ trees v.items ≡ added (map tree values.now) (map tree elements.now)) }
    ensures err { IfErr result (λ e. e ≡ NoMemory) }
{
    if values.len() <= FEW {
        fresh_of_few(alloc, elements, values)
    } else {
        fresh_of_many(alloc, elements, values)
    }
}

fn has_either(elements: &[Value], more: &[&Value], value: &Value) -> bool
    ensures { result ≡ list_any (λ t. same t (tree value.now)) (map tree elements.now ++ trees more.now) }
{
    has(elements, value) || has_among(more, value)
}

fn add<'a>(values: &mut Vec<&'a Value>, value: &'a Value) -> Result<(), UpdateFault>
    ensures ok { OnOk result (trees values.new.items ≡ trees values.old.items ++ tree value.now ∷ []) }
    ensures err { IfErr result (λ e. e ≡ NoMemory) }
{
    values.push(value)?;
    Ok(())
}

/// Adds a value, unless an element or a value before it is the same.
fn add_new<'a>(
    elements: &[Value],
    fresh: &mut Vec<&'a Value>,
    value: &'a Value,
) -> Result<(), UpdateFault>
    ensures ok { OnOk result (map tree elements.now ++ trees fresh.new.items ≡ added_one (tree value.now) (map tree elements.now ++ trees fresh.old.items)) }
    ensures err { IfErr result (λ e. e ≡ NoMemory) }
{
    if has_either(elements, fresh.as_slice(), value) {
        return Ok(());
    }
    add(fresh, value)
}

fn fresh_of_few<'a>(
    alloc: Global,
    elements: &[Value],
    values: &'a [Value],
) -> Result<Vec<&'a Value>, UpdateFault>
    ensures ok { IfOk result (λ v. map tree elements.now ++ trees v.items ≡ added (map tree values.now) (map tree elements.now)) }
    ensures err { IfErr result (λ e. e ≡ NoMemory) }
{
    let mut fresh = Vec::new(alloc);
    for value in values {
        add_new(elements, &mut fresh, value)?;
    }
    Ok(fresh)
}

// ---- many values

/// The canonical text of a value.
fn text_of(alloc: Global, value: &Value) -> Result<String, UpdateFault>
    ensures ok { IfOk result (λ s. string_bytes s ≡ text_of (tree value.now)) }
    ensures err { IfErr result (λ e. e ≡ NoMemory) }
{
    let bytes = match canon(alloc, value) {
        Ok(bytes) => bytes,
        Err(_) => return Err(UpdateFault::NoMemory),
    };
    match String::from_utf8(bytes) {
        Ok(text) => Ok(text),
        Err(_) => unreachable!(),
    }
}

/// Keeps a text with a place.
fn note(seen: &mut BTreeMap<String, usize>, text: String, place: usize) -> Result<(), UpdateFault>
    ensures all { OnOk result ((ts : List Tree) (x : Tree) → string_bytes text ≡ text_of x → are_seen seen.old ts ≡ true → are_seen seen.new (ts ++ x ∷ []) ≡ true) }
    ensures err { IfErr result (λ e. e ≡ NoMemory) }
{
    seen.insert(text, place)?;
    Ok(())
}

/// The texts of elements, with their places.
fn texts_of(alloc: Global, elements: &[Value]) -> Result<BTreeMap<String, usize>, UpdateFault>
    ensures ok { IfOk result (λ m. are_seen m (map tree elements.now) ≡ true) }
    ensures err { IfErr result (λ e. e ≡ NoMemory) }
{
    let mut seen = BTreeMap::new(alloc);
    for i in 0..elements.len() {
        let text = text_of(alloc, &elements[i])?;
        note(&mut seen, text, i)?;
    }
    Ok(seen)
}

/// Whether the value at a place, behind the elements among further ones, is the same.
fn is_at(elements: &[Value], more: &[&Value], place: usize, value: &Value) -> bool
    ensures { result ≡ true → list_any (λ t. same t (tree value.now)) (map tree elements.now ++ trees more.now) ≡ true }
{
    if place < elements.len() {
        return elements[place].same(value);
    }
    match more.get(place - elements.len()) {
        Some(other) => other.same(value),
        None => false,
    }
}

/// Whether a value is among those whose texts are kept.
fn is_seen(
    seen: &BTreeMap<String, usize>,
    text: &str,
    elements: &[Value],
    more: &[&Value],
    value: &Value,
) -> bool
    requires text { text.now ≡ text_of (tree value.now) }
    requires seen { are_seen seen.now (map tree elements.now ++ trees more.now) ≡ true }
    ensures { result ≡ list_any (λ t. same t (tree value.now)) (map tree elements.now ++ trees more.now) }
{
    same_decides();
    match seen.get(text) {
        Some(place) => is_at(elements, more, *place, value) || has_either(elements, more, value),
        None => false,
    }
}

/// Adds a value and its text, unless an element or a value before it is the same.
fn add_unseen<'a>(
    alloc: Global,
    seen: &mut BTreeMap<String, usize>,
    elements: &[Value],
    fresh: &mut Vec<&'a Value>,
    value: &'a Value,
) -> Result<(), UpdateFault>
    requires { are_seen seen.old (map tree elements.now ++ trees fresh.old.items) ≡ true }
    ensures seen { OnOk result (are_seen seen.new (map tree elements.now ++ trees fresh.new.items) ≡ true) }
    ensures ok { OnOk result (map tree elements.now ++ trees fresh.new.items ≡ added_one (tree value.now) (map tree elements.now ++ trees fresh.old.items)) }
    ensures err { IfErr result (λ e. e ≡ NoMemory) }
{
    let text = text_of(alloc, value)?;
    if is_seen(seen, text.as_str(), elements, fresh.as_slice(), value) {
        return Ok(());
    }
    note(seen, text, elements.len().saturating_add(fresh.len()))?;
    add(fresh, value)
}

fn fresh_of_many<'a>(
    alloc: Global,
    elements: &[Value],
    values: &'a [Value],
) -> Result<Vec<&'a Value>, UpdateFault>
    ensures ok { IfOk result (λ v. map tree elements.now ++ trees v.items ≡ added (map tree values.now) (map tree elements.now)) }
    ensures err { IfErr result (λ e. e ≡ NoMemory) }
{
    let mut seen = texts_of(alloc, elements)?;
    let mut fresh = Vec::new(alloc);
    for value in values {
        add_unseen(alloc, &mut seen, elements, &mut fresh, value)?;
    }
    Ok(fresh)
}
