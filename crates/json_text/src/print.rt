// Printing values.
ghost use Rattle.std.specs.Prelude.{◌≡◌, ◌==◌, ◌≤◌, ◌++◌, OnOk, OnErr, IfOk, IfErr};
ghost use Rattle.std.specs.Str.{IsUtf8};
ghost use Rattle.json_tree.specs.Tree.{Tree, list, object, elements_of, members_of};
ghost use Rattle.json_tree.specs.View.{tree};
ghost use Rattle.json_text.specs.Grammar.{Reads};
ghost use Rattle.json_tree.specs.Writable.{IsWritable, tree_levels};
ghost use Rattle.json_text.specs.declared.read.TextFault.TheVariants.{NoMemory};
ghost use Rattle.json_text.specs.Print.{boolean_text, separator, text_of, Extends};

mod measure;
mod number;
mod text;

use crate::print::number::{print_date, print_number};
use crate::print::text::print_string;
use crate::read::TextFault;
use json_tree::{Items, Members, Value};
pub use measure::text_len;
use std::alloc::{AllocError, Global};
pub use text::print_content;

#[tactic(auto, using(crate::proofs::Kept::kept))]
fn print_bool(b: bool, out: &mut Vec<u8>) -> Result<(), AllocError>
    ensures ok { OnOk result (out.new.items ≡ out.old.items ++ boolean_text b) }
    ensures kept { OnErr result (Extends out.old.items out.new.items) }
{
    if b {
        out.extend_from_slice(b"true")?;
    } else {
        out.extend_from_slice(b"false")?;
    }
    Ok(())
}

// What stands before the part at this place.
#[tactic(auto, using(crate::proofs::Kept::kept))]
fn print_separator(place: usize, out: &mut Vec<u8>) -> Result<(), AllocError>
    ensures ok { OnOk result (out.new.items ≡ out.old.items ++ separator (place == 0)) }
    ensures kept { OnErr result (Extends out.old.items out.new.items) }
{
    if place > 0 {
        out.push(b',')?;
    }
    Ok(())
}

#[cycle(print)]
#[tactic(auto, using(crate::proofs::ListSteps::sizes, crate::proofs::ListSteps::steps, crate::proofs::Kept::kept))]
pub(crate) fn print_tree(value: &Value, out: &mut Vec<u8>) -> Result<(), AllocError>
    ensures ok { OnOk result (out.new.items ≡ out.old.items ++ text_of (tree value.now)) }
    ensures kept { OnErr result (Extends out.old.items out.new.items) }
{
    match value {
        Value::Null => out.extend_from_slice(b"null"),
        Value::Bool(b) => print_bool(*b, out),
        Value::Num(n) => print_number(n.units(), out),
        Value::Text(text) => print_string(text.as_str(), out),
        Value::Date(date) => print_date(*date, out),
        Value::List(elements) => print_elements(elements, out),
        Value::Object(members) => print_members(members, out),
    }
}

#[cycle(print)]
#[tactic(auto, using(crate::proofs::ListSteps::sizes, crate::proofs::ListSteps::steps, crate::proofs::Kept::kept))]
fn print_elements(elements: &Items, out: &mut Vec<u8>) -> Result<(), AllocError>
    ensures ok { OnOk result (out.new.items ≡ out.old.items ++ text_of (list (elements_of elements.now))) }
    ensures kept { OnErr result (Extends out.old.items out.new.items) }
{
    out.push(b'[')?;
    let values = elements.as_slice();
    for i in 0..values.len() {
        print_separator(i, out)?;
        print_tree(&values[i], out)?;
    }
    out.push(b']')?;
    Ok(())
}

#[cycle(print)]
#[tactic(auto, using(crate::proofs::ListSteps::sizes, crate::proofs::ListSteps::steps, crate::proofs::Kept::kept))]
fn print_members(members: &Members, out: &mut Vec<u8>) -> Result<(), AllocError>
    ensures ok { OnOk result (out.new.items ≡ out.old.items ++ text_of (object (members_of members.now))) }
    ensures kept { OnErr result (Extends out.old.items out.new.items) }
{
    out.push(b'{')?;
    let pairs = members.as_slice();
    for i in 0..pairs.len() {
        let pair = &pairs[i];
        print_separator(i, out)?;
        print_string(pair.0.as_str(), out)?;
        out.push(b':')?;
        print_tree(&pair.1, out)?;
    }
    out.push(b'}')?;
    Ok(())
}

/// Appends the canonical text of the value.
#[tactic(auto, using(crate::proofs::ReadsBack::utf8_texts))]
pub fn print_value(value: &Value, out: &mut Vec<u8>) -> Result<(), TextFault>
    ensures ok { OnOk result (out.new.items ≡ out.old.items ++ text_of (tree value.now)) }
    ensures err { IfErr result (λ e. e ≡ NoMemory) }
    ensures unchanged { OnErr result (out.new.items ≡ out.old.items) }
    ensures utf8 { IsUtf8 (text_of (tree value.now)) }
{
    value.by_type();
    let before = out.len();
    if print_tree(value, out).is_err() {
        out.truncate(before);
        return Err(TextFault::NoMemory);
    }
    Ok(())
}

/// The canonical text of the value.
pub fn canon(alloc: Global, value: &Value) -> Result<Vec<u8>, TextFault>
    ensures ok { IfOk result (λ out. out.items ≡ text_of (tree value.now)) }
    ensures err { IfErr result (λ e. e ≡ NoMemory) }
    ensures utf8 { IfOk result (λ out. IsUtf8 out.items) }
{
    let mut out = Vec::new(alloc);
    print_value(value, &mut out)?;
    Ok(out)
}

/// What is printed spells what it was printed from.
pub fn reads_back()
    ensures { (v : Tree) → IsWritable v → tree_levels v ≤ 32 → Reads (text_of v) v }
{}

/// Values whose canonical texts are the same are the same.
pub fn texts_tell_values()
    ensures { (a b : Tree) → IsWritable a → IsWritable b → text_of a ≡ text_of b → a ≡ b }
{}
