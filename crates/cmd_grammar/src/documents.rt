// What may be wrong with a document that is to be inserted, or with one that is to replace another.
ghost use Rattle.std.specs.Prelude.{◌≡◌, ⊤, Some, None, ◌∷◌, [], codes, option_map};
ghost use Rattle.json_tree.specs.Tree.{object, members_of};
ghost use Rattle.json_tree.specs.Members.{member_at};
ghost use Rattle.json_tree.specs.View.{tree};
ghost use Rattle.json_tree.specs.Doc.{id_in};
ghost use Rattle.doc_limits.specs.Names.{first_bad_name};
ghost use Rattle.doc_limits.specs.Limits.{broken};
ghost use Rattle.update_ops.specs.Upsert.{with_id};
ghost use Rattle.cmd_grammar.specs.First.{first_of, first_by};
ghost use Rattle.cmd_grammar.specs.Documents.{id_kind_refusal, empty_id_refusal, name_refusal, limit_refusal, replacing_refusal, document_refusal};
ghost use Rattle.cmd_grammar.specs.Commands.{stand_in, under};
ghost use Rattle.cmd_grammar.specs.Answers.{Passes};

use crate::fault::{CommandFault, refuse};
use crate::stand_in::under_stand_in;
use doc_limits::{check, names_fault};
use json_tree::{Items, Members, Value};
use reply_env::{bad_id_kind, bad_member_name, broken_limit, empty_id};
use std::alloc::Global;

fn check_id_value(alloc: Global, id: &Value) -> Result<(), CommandFault>
    ensures { Passes (first_of (id_kind_refusal (Some (tree id.now)) ∷ empty_id_refusal (Some (tree id.now)) ∷ [])) (λ _. ⊤) result }
{
    match id {
        Value::List(_) | Value::Object(_) => Err(refuse(bad_id_kind(alloc))),
        Value::Text(text) => {
            if text.as_str().is_empty() {
                Err(refuse(empty_id(alloc)))
            } else {
                Ok(())
            }
        }
        _ => Ok(()),
    }
}

// The member `_id`.
fn id_of(document: &Value) -> Option<&Value>
    ensures { option_map (λ v. tree v.now) result ≡ id_in (tree document.now) }
{
    match document {
        Value::Object(members) => members.get("_id"),
        _ => None,
    }
}

fn check_id(alloc: Global, document: &Value) -> Result<(), CommandFault>
    ensures { Passes (first_of (id_kind_refusal (id_in (tree document.now)) ∷ empty_id_refusal (id_in (tree document.now)) ∷ [])) (λ _. ⊤) result }
{
    match id_of(document) {
        None => Ok(()),
        Some(id) => check_id_value(alloc, id),
    }
}

fn check_names(alloc: Global, document: &Value) -> Result<(), CommandFault>
    ensures { Passes (name_refusal (first_bad_name (tree document.now))) (λ _. ⊤) result }
{
    match names_fault(document) {
        None => Ok(()),
        Some(name) => Err(refuse(bad_member_name(alloc, name.as_str()))),
    }
}

fn check_value(alloc: Global, value: &Value) -> Result<(), CommandFault>
    ensures { Passes (limit_refusal (broken (tree value.now))) (λ _. ⊤) result }
{
    match check(value) {
        Ok(()) => Ok(()),
        Err(broken) => Err(refuse(broken_limit(alloc, broken.limit, broken.bound, broken.found))),
    }
}

// The limits of an object without an id, under the one that stands for it.
fn check_standing(alloc: Global, members: &Members) -> Result<(), CommandFault>
    requires { member_at (codes "_id") members.now ≡ None }
    ensures { Passes (limit_refusal (broken (with_id stand_in (object (members_of members.now))))) (λ _. ⊤) result }
{
    match under_stand_in(alloc, members) {
        Ok(value) => check_value(alloc, &value),
        Err(fault) => Err(fault),
    }
}

// The limits of a document, under the id that stands for its own if it has none.
fn check_sizes(alloc: Global, document: &Value) -> Result<(), CommandFault>
    ensures { Passes (limit_refusal (broken (under stand_in (tree document.now)))) (λ _. ⊤) result }
{
    let Value::Object(members) = document else {
        return check_value(alloc, document);
    };
    match members.get("_id") {
        None => check_standing(alloc, members),
        Some(_) => check_value(alloc, document),
    }
}

/// A document that is to replace another: its id, its names.
pub(crate) fn check_replacing(alloc: Global, document: &Value) -> Result<(), CommandFault>
    ensures { Passes (replacing_refusal (tree document.now)) (λ _. ⊤) result }
{
    match check_id(alloc, document) {
        Ok(()) => check_names(alloc, document),
        Err(fault) => Err(fault),
    }
}

/// A document that is to be inserted: its id, its names, its limits.
pub(crate) fn check_document(alloc: Global, document: &Value) -> Result<(), CommandFault>
    ensures { Passes (document_refusal (tree document.now)) (λ _. ⊤) result }
{
    match check_replacing(alloc, document) {
        Ok(()) => check_sizes(alloc, document),
        Err(fault) => Err(fault),
    }
}

/// Documents that are to be inserted: the first that is refused decides.
pub(crate) fn check_each_document(alloc: Global, documents: &Items) -> Result<(), CommandFault>
    ensures { Passes (first_by document_refusal documents.now) (λ _. ⊤) result }
{
    for i in 0..documents.len() {
        let Some(document) = documents.get(i) else {
            unreachable!()
        };
        match check_document(alloc, document) {
            Ok(()) => {}
            Err(fault) => return Err(fault),
        }
    }
    Ok(())
}
