// Replacements of documents.
ghost use Rattle.std.specs.Prelude.{◌≡◌, ◌↔◌, true, false, codes, None, IfOk, IfErr, OnOk, IsTrue};
ghost use Rattle.json_tree.specs.Tree.{Tree, object, members_of};
ghost use Rattle.json_tree.specs.Members.{member_at, put_member};
ghost use Rattle.json_tree.specs.Doc.{IsDocument, has_dollar_name, id_fault_in};
ghost use Rattle.json_tree.specs.Id.{IsId};
ghost use Rattle.json_tree.specs.View.{tree};
ghost use Rattle.update_ops.specs.Faults.{is_object};
ghost use Rattle.update_ops.specs.Apply.{Gives, within_limits};
ghost use Rattle.update_ops.specs.Upsert.{with_id, replaced, IsReplacement};
ghost use Rattle.update_ops.specs.declared.fault.UpdateFault.TheVariants.{NoMemory};

use crate::applying::within_limits;
use crate::copies::copy;
use crate::fault::UpdateFault;
use json_tree::{Doc, Members, ObjectBuilder, Text, Value};
use std::alloc::Global;

/// Adds a copy of a pair.
fn put_pair(
    alloc: Global,
    object: &mut ObjectBuilder,
    name: &str,
    value: &Value,
) -> Result<(), UpdateFault>
    ensures ok { OnOk result (object.new ≡ put_member name.now (tree value.now) object.old) }
    ensures err { IfErr result (λ e. e ≡ NoMemory) }
{
    let name = match Text::of_str(alloc, name) {
        Ok(name) => name,
        Err(_) => return Err(UpdateFault::NoMemory),
    };
    let value = copy(alloc, value)?;
    match object.put(name, value) {
        Ok(()) => Ok(()),
        Err(_) => Err(UpdateFault::NoMemory),
    }
}

/// An object without an id, with this one in front. Of n members this takes n log n steps.
pub(crate) fn in_front(alloc: Global, id: &Value, members: &Members) -> Result<Value, UpdateFault>
    requires { member_at (codes "_id") members.now ≡ None }
    ensures ok { IfOk result (λ v. tree v ≡ with_id (tree id.now) (object (members_of members.now))) }
    ensures err { IfErr result (λ e. e ≡ NoMemory) }
{
    members.by_type();
    let mut object = ObjectBuilder::new(alloc);
    put_pair(alloc, &mut object, "_id", id)?;
    for i in 0..members.len() {
        let Some((name, value)) = members.pair(i) else {
            unreachable!()
        };
        put_pair(alloc, &mut object, name.as_str(), value)?;
    }
    Ok(Value::Object(object.finish()))
}

/// The document that a value within the limits is.
pub(crate) fn document(alloc: Global, value: Value) -> Result<Doc, UpdateFault>
    requires { IsDocument (tree value) }
    ensures { Gives (λ (d : Tree). d) result (within_limits (tree value)) }
{
    match within_limits(&value) {
        Ok(()) => within(alloc, value),
        Err(fault) => Err(fault),
    }
}

/// The document that a value is.
pub(crate) fn within(alloc: Global, value: Value) -> Result<Doc, UpdateFault>
    requires { IsDocument (tree value) }
    ensures ok { IfOk result (λ d. d ≡ tree value) }
    ensures err { IfErr result (λ e. e ≡ NoMemory) }
{
    match Doc::of_value(alloc, value) {
        Ok(doc) => Ok(doc),
        Err(_) => Err(UpdateFault::NoMemory),
    }
}

/// The document of an object without an id, under this one.
pub(crate) fn under_id(alloc: Global, id: &Value, members: &Members) -> Result<Doc, UpdateFault>
    requires id { IsId (tree id.now) }
    requires absent { member_at (codes "_id") members.now ≡ None }
    requires names { has_dollar_name (object (members_of members.now)) ≡ false }
    ensures { Gives (λ (d : Tree). d) result (within_limits (with_id (tree id.now) (object (members_of members.now)))) }
{
    let value = match in_front(alloc, id, members) {
        Ok(value) => value,
        Err(fault) => return Err(fault),
    };
    document(alloc, value)
}

/// The document of an object that has the id.
pub(crate) fn under_own_id(alloc: Global, members: &Members) -> Result<Doc, UpdateFault>
    requires { IsDocument (object (members_of members.now)) }
    ensures { Gives (λ (d : Tree). d) result (within_limits (object (members_of members.now))) }
{
    match members.try_copy(alloc) {
        Ok(members) => document(alloc, Value::Object(members)),
        Err(_) => Err(UpdateFault::NoMemory),
    }
}

fn is_id(value: &Value) -> bool
    ensures { IsTrue result ↔ IsId (tree value.now) }
{
    value.id_fault().is_none()
}

/// Whether the member `_id`, if there is one, is an id.
fn has_no_wrong_id(members: &Members) -> bool
    ensures { IsTrue result ↔ (id_fault_in (object (members_of members.now)) ≡ None) }
{
    match members.get("_id") {
        Some(id) => is_id(id),
        None => true,
    }
}

/// Whether a value is an object in which no name begins with `$`, and whose `_id`, if it has one, is an id.
pub fn is_replacement(value: &Value) -> bool
    ensures { IsTrue result ↔ IsReplacement (tree value.now) }
{
    match value {
        Value::Object(members) => !value.has_dollar_name() && has_no_wrong_id(members),
        _ => false,
    }
}

/// The document that an object makes of a document.
fn replaced_by(alloc: Global, members: &Members, doc: &Doc) -> Result<Doc, UpdateFault>
    requires { has_dollar_name (object (members_of members.now)) ≡ false }
    ensures { Gives (λ (d : Tree). d) result (replaced (object (members_of members.now)) doc.now) }
{
    match members.get("_id") {
        Some(own) => {
            if own.same(doc.id().value()) {
                return under_own_id(alloc, members);
            }
            Err(UpdateFault::TouchesId)
        }
        None => under_id(alloc, doc.id().value(), members),
    }
}

/// The replacement of a document: an object in which no name begins with `$`. It has the document's id, or
/// gets it in front; with another id it is refused as `TouchesId`. The limits are tested last.
pub fn replaced(alloc: Global, replacement: &Value, doc: &Doc) -> Result<Doc, UpdateFault>
    requires object { is_object (tree replacement.now) ≡ true }
    requires names { has_dollar_name (tree replacement.now) ≡ false }
    ensures { Gives (λ (d : Tree). d) result (replaced (tree replacement.now) doc.now) }
{
    match replacement {
        Value::Object(members) => replaced_by(alloc, members, doc),
        _ => unreachable!(),
    }
}
