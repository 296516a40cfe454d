// New documents of updates and replacements that insert: what a filter asks for, changed by the update, or
// the replacement under an id.
ghost use Rattle.std.specs.Prelude.{◌≡◌, ◌∷◌, [], None, map, option_map, unwrap_or, codes, true, false, IfOk, IfErr, IfSome, OnOk};
ghost use Rattle.json_tree.specs.Id.{IsId};
ghost use Rattle.update_ops.specs.Safe.{are_safe};
ghost use Rattle.json_tree.specs.Tree.{Tree, object, no_members, member, members_of};
ghost use Rattle.json_tree.specs.Doc.{IsDocument, has_dollar_name, id_in, id_fault_in};
ghost use Rattle.json_tree.specs.View.{tree};
ghost use Rattle.update_ops.specs.View.{clause_of, equality_of};
ghost use Rattle.update_ops.specs.Apply.{Gives, apply, onward};
ghost use Rattle.update_ops.specs.Upsert.{id_operand, filter_id, put_equality, put_equalities, own_id, under_given, upsert, IsReplacement, upsert_replacement};
ghost use Rattle.update_ops.specs.declared.fault.UpdateFault.TheVariants.{NoMemory};

use crate::applying::changed_by;
use crate::copies::copy;
use crate::draft::put_into;
use crate::fault::UpdateFault;
use crate::making::wrong_target;
use crate::operand::is_storable;
use crate::overlaps::is_of_id;
use crate::replacing::{in_front, under_id, under_own_id, within};
use crate::update::{Clause, Updates};
use doc_paths::Path;
use json_tree::{Doc, DocId, Members, Value};
use std::alloc::Global;

/// A path, and the operand that a filter asks for there by a `$eq` that has to hold.
#[derive(Clone, Copy)]
pub struct Equality<'a> {
    pub path: &'a Path,
    pub operand: &'a Value,
}

/// The operand of the first equality on `_id`.
fn id_operand<'a>(equalities: &[Equality<'a>]) -> Option<&'a Value>
    ensures { option_map (λ v. tree v.now) result ≡ id_operand (map equality_of equalities.now) }
{
    for equality in equalities {
        if equality.path.text() == "_id" {
            return Some(equality.operand);
        }
    }
    None
}

/// The id that a filter gives: the first operand on `_id`, where it is one.
fn filter_id<'a>(equalities: &[Equality<'a>]) -> Option<&'a Value>
    ensures value { option_map (λ v. tree v.now) result ≡ filter_id (map equality_of equalities.now) }
    ensures id { IfSome result (λ v. IsId (tree v.now)) }
{
    match id_operand(equalities) {
        Some(operand) if operand.id_fault().is_none() => Some(operand),
        _ => None,
    }
}

/// The id that a filter gives, or else the generated one.
fn chosen<'a>(given: Option<&'a Value>, generated: &'a DocId) -> &'a Value
    requires { IfSome given (λ v. IsId (tree v.now)) }
    ensures id { IsId (tree result.now) }
    ensures value { tree result.now ≡ unwrap_or (option_map (λ v. tree v.now) given.entry) generated.now }
{
    match given {
        Some(id) => id,
        None => generated.value(),
    }
}

/// Puts the operand of an equality at its path. Those on `_id` and below it are passed over.
fn put_equality(alloc: Global, equality: Equality<'_>, value: &mut Value) -> Result<(), UpdateFault>
    ensures put { Gives (λ _. tree value.new) result (put_equality (equality_of equality.entry) (tree value.old)) }
    ensures document { OnOk result (IsDocument (tree value.old) → IsDocument (tree value.new)) }
{
    let path = equality.path.text();
    if is_of_id(equality.path) {
        return Ok(());
    }
    if !is_storable(equality.operand) {
        return Err(wrong_target(alloc, path));
    }
    match copy(alloc, equality.operand) {
        Ok(operand) => put_into(alloc, equality.path, value, operand),
        Err(fault) => Err(fault),
    }
}

/// Puts the operands of equalities, in order.
fn put_equalities(
    alloc: Global,
    equalities: &[Equality<'_>],
    value: &mut Value,
) -> Result<(), UpdateFault>
    ensures put { Gives (λ _. tree value.new) result (put_equalities (map equality_of equalities.now) (tree value.old)) }
    ensures document { OnOk result (IsDocument (tree value.old) → IsDocument (tree value.new)) }
{
    for equality in equalities {
        match put_equality(alloc, *equality, value) {
            Ok(()) => {}
            Err(fault) => return Err(fault),
        }
    }
    Ok(())
}

/// What equalities and clauses make of an object with an id alone.
fn inserted(
    alloc: Global,
    equalities: &[Equality<'_>],
    clauses: &[Clause],
    moment: i64,
    id: &Value,
) -> Result<Value, UpdateFault>
    requires id { IsId (tree id.now) }
    requires safe { are_safe (map clause_of clauses.now) ≡ true }
    ensures document { IfOk result (λ v. IsDocument (tree v)) }
    ensures made { Gives tree result (onward (put_equalities (map equality_of equalities.now) (object (member (codes "_id") (tree id.now) no_members))) (λ d. apply (map clause_of clauses.now) d moment true)) }
{
    let mut value = match in_front(alloc, id, &Members::new(alloc)) {
        Ok(value) => value,
        Err(fault) => return Err(fault),
    };
    match put_equalities(alloc, equalities, &mut value) {
        Ok(()) => {}
        Err(fault) => return Err(fault),
    }
    match changed_by(alloc, clauses, moment, true, &value) {
        Ok(Some(new)) => Ok(new),
        Ok(None) => Ok(value),
        Err(fault) => Err(fault),
    }
}

impl Updates {
    /// The new document of an update that inserts: the id that the filter gives, or else the generated one;
    /// the operands of the other equalities, put in order; then the clauses, `$setOnInsert` among them. A
    /// refused put, and an operand that `$set` would refuse, are a wrong target. The limits are tested last.
    pub fn upsert(
        &self,
        alloc: Global,
        equalities: &[Equality<'_>],
        moment: i64,
        generated: &DocId,
    ) -> Result<Doc, UpdateFault>
        ensures { Gives (λ (d : Tree). d) result (upsert (map equality_of equalities.now) self.now moment generated.now) }
    {
        let id = chosen(filter_id(equalities), generated);
        match inserted(alloc, equalities, &self.clauses, moment, id) {
            Ok(value) => within(alloc, value),
            Err(fault) => Err(fault),
        }
    }
}

/// The document of an object that has this id of its own, where the filter gives no other.
fn under_given(
    alloc: Global,
    members: &Members,
    own: &Value,
    given: Option<&Value>,
) -> Result<Doc, UpdateFault>
    requires { IsDocument (object (members_of members.now)) }
    ensures { Gives (λ (d : Tree). d) result (under_given (tree own.now) (object (members_of members.now)) (option_map (λ v. tree v.now) given.entry)) }
{
    match given {
        Some(given) if !own.same(given) => Err(UpdateFault::TouchesId),
        _ => under_own_id(alloc, members),
    }
}

/// The document of an object under its own id, or else the one that the filter gives, or else the
/// generated one.
fn inserted_under(
    alloc: Global,
    members: &Members,
    given: Option<&Value>,
    generated: &DocId,
) -> Result<Doc, UpdateFault>
    requires names { has_dollar_name (object (members_of members.now)) ≡ false }
    requires own { id_fault_in (object (members_of members.now)) ≡ None }
    requires given { IfSome given (λ v. IsId (tree v.now)) }
    ensures { Gives (λ (d : Tree). d) result (own_id (id_in (object (members_of members.now))) (option_map (λ v. tree v.now) given.entry) generated.now (object (members_of members.now))) }
{
    match members.get("_id") {
        Some(own) => under_given(alloc, members, own, given),
        None => under_id(alloc, chosen(given, generated), members),
    }
}

/// The new document of a replacement that inserts; `is_replacement` tests the condition. Without an id it
/// gets the one that the filter gives in front, or else the generated one; where it has an id and the filter
/// gives another, it is refused as `TouchesId`. The limits are tested last.
pub fn upsert_replacement(
    alloc: Global,
    equalities: &[Equality<'_>],
    replacement: &Value,
    generated: &DocId,
) -> Result<Doc, UpdateFault>
    requires { IsReplacement (tree replacement.now) }
    ensures { Gives (λ (d : Tree). d) result (upsert_replacement (map equality_of equalities.now) (tree replacement.now) generated.now) }
{
    match replacement {
        Value::Object(members) => inserted_under(alloc, members, filter_id(equalities), generated),
        _ => unreachable!(),
    }
}
