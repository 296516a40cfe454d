// The state in which each command begins, with the ids that are drawn for it.
ghost use Rattle.std.specs.Prelude.{◌≡◌, ◌<◌, ◌≤◌, List, [], ◌∷◌, true, length, map, None, IfOk, IfSome, codes};
ghost use Rattle.std.specs.List.{AllByRecursion as Each};
ghost use Rattle.json_tree.specs.Tree.{object, members_of};
ghost use Rattle.json_tree.specs.Members.{member_at};
ghost use Rattle.json_tree.specs.Doc.{id_in};
ghost use Rattle.json_tree.specs.View.{tree};
ghost use Rattle.update_ops.specs.Upsert.{with_id};
ghost use Rattle.cmd_grammar.specs.Commands.{command_tree, IsAskable, IsInsertable, IsStorable};
ghost use Rattle.cmd_tasks.specs.Jobs.{draws, job_of, inserts, one_if_none, without_id, under_next, under_ids};
ghost use Rattle.cmd_tasks.specs.Ids.{drawn, after_drawing, stream_of_ids};
ghost use Rattle.cmd_tasks.specs.Moves.{Begins, ids_for};
ghost use Rattle.cmd_tasks.specs.First.{IsAdded, HasFilter, MakesAnother, ShowsAnother};

use crate::begin::{choosing, counting, listing, making, paging_over, selecting};
use crate::ids::{Ids, drawn_ids_are_texts};
use crate::replacement::Replacement;
use crate::work::{Doing, Form, Insertions, Making, State};
use cmd_grammar::{Command, documents_take_ids};
use json_tree::{DocId, Items, Members, ObjectBuilder, Text, TreeFault, Value};
use std::alloc::Global;
use std::snapshot::Snapshot;

/// The state in which documents are inserted, in this order.
fn inserting(alloc: Global, documents: Vec<Value>, ordered: bool) -> State
    requires storable { Each (λ d. IsStorable (tree d)) documents.items }
    requires some { 0 < length documents.items }
    requires few { length documents.items ≤ 100 }
    ensures { Begins (inserts (map tree documents.items) ordered) result }
{
    let mut left = documents;
    left.reverse();
    State::Inserting {
        insertions: Insertions {
            all: Snapshot::of(&left),
            left,
            ordered,
            ids: Vec::new(alloc),
            errors: Vec::new(alloc),
        },
    }
}

/// An object without an id, with this one in front.
fn in_front(alloc: Global, id: &DocId, members: Members) -> Result<Value, TreeFault>
    requires { member_at (codes "_id") members ≡ None }
    ensures { IfOk result (λ v. tree v ≡ with_id id.now (object (members_of members))) }
{
    members.by_type();
    let mut members = members;
    let mut object = ObjectBuilder::new(alloc);
    let name = Text::of_str(alloc, "_id")?;
    object.put(name, id.value().try_copy(alloc)?)?;
    for i in 0..members.len() {
        let Some((name, _)) = members.pair(i) else {
            unreachable!()
        };
        let name = name.try_copy(alloc)?;
        object.put(name, members.swap_in(i, Value::Null))?;
    }
    Ok(Value::Object(object.finish()))
}

/// An object as it is inserted: under the next id, if it has none.
fn members_under_next(alloc: Global, members: Members, ids: &mut Ids) -> Result<Value, TreeFault>
    ensures told { IfOk result (λ v. tree v ≡ (under_next (id_in (object (members_of members))) (drawn (one_if_none (id_in (object (members_of members)))) (stream_of_ids ids.old)) (object (members_of members))).0) }
    ensures after { stream_of_ids ids.new ≡ after_drawing (one_if_none (id_in (object (members_of members)))) (stream_of_ids ids.old) }
{
    if members.get("_id").is_some() {
        return Ok(Value::Object(members));
    }
    match ids.draw(alloc) {
        Ok(id) => in_front(alloc, &id, members),
        Err(fault) => Err(fault),
    }
}

/// A document as it is inserted: under the next id, if it has none.
fn under_next(alloc: Global, document: Value, ids: &mut Ids) -> Result<Value, TreeFault>
    requires { IsInsertable (tree document) }
    ensures told { IfOk result (λ v. tree v ≡ (under_next (id_in (tree document)) (drawn (one_if_none (id_in (tree document))) (stream_of_ids ids.old)) (tree document)).0) }
    ensures after { stream_of_ids ids.new ≡ after_drawing (one_if_none (id_in (tree document))) (stream_of_ids ids.old) }
{
    match document {
        Value::Object(members) => members_under_next(alloc, members, ids),
        _ => unreachable!(),
    }
}

/// The documents with this one behind them, unless memory was wanting for one of them.
fn added(all: Option<Vec<Value>>, next: Result<Value, TreeFault>) -> Option<Vec<Value>>
    ensures { IfSome result (λ more. IsAdded all next more.items) }
{
    let (Some(mut all), Ok(next)) = (all, next) else {
        return None;
    };
    match all.push(next) {
        Ok(()) => Some(all),
        Err(_) => None,
    }
}

/// Documents as they are inserted, in order: each that has no id under the next one. None for want of memory, where their
/// ids are drawn nevertheless.
fn all_under_next(alloc: Global, documents: Items, ids: &mut Ids) -> Option<Vec<Value>>
    requires { Each IsInsertable documents }
    ensures told { IfSome result (λ all. map tree all.items ≡ under_ids (drawn (without_id documents) (stream_of_ids ids.old)) documents) }
    ensures after { stream_of_ids ids.new ≡ after_drawing (without_id documents) (stream_of_ids ids.old) }
{
    let mut documents = documents;
    let mut all = Some(Vec::new(alloc));
    for i in 0..documents.len() {
        let document = documents.swap_in(i, Value::Null);
        let next = under_next(alloc, document, ids);
        all = added(all, next);
    }
    all
}

/// The state in which insertOne begins.
fn inserting_one(alloc: Global, document: Value, ids: &mut Ids) -> Option<State>
    requires { IsInsertable (tree document) }
    ensures begins { IfSome result (λ w. Begins (inserts (under_ids (drawn (without_id (tree document ∷ [])) (stream_of_ids ids.old)) (tree document ∷ [])) true) w) }
    ensures after { stream_of_ids ids.new ≡ after_drawing (without_id (tree document ∷ [])) (stream_of_ids ids.old) }
{
    documents_take_ids();
    drawn_ids_are_texts();
    let next = under_next(alloc, document, ids);
    match added(Some(Vec::new(alloc)), next) {
        Some(all) => Some(inserting(alloc, all, true)),
        None => None,
    }
}

/// The state in which insertMany begins.
fn inserting_many(alloc: Global, documents: Items, ordered: bool, ids: &mut Ids) -> Option<State>
    requires insertable { Each IsInsertable documents }
    requires some { 1 ≤ length documents }
    requires few { length documents ≤ 100 }
    ensures begins { IfSome result (λ w. Begins (inserts (under_ids (drawn (without_id documents) (stream_of_ids ids.old)) documents) ordered) w) }
    ensures after { stream_of_ids ids.new ≡ after_drawing (without_id documents) (stream_of_ids ids.old) }
{
    documents_take_ids();
    drawn_ids_are_texts();
    match all_under_next(alloc, documents, ids) {
        Some(all) => Some(inserting(alloc, all, ordered)),
        None => None,
    }
}

/// The state in which a command begins that changes one document and shows it.
fn showing(alloc: Global, moment: i64, command: Command, ids: &mut Ids) -> Option<State>
    requires askable { IsAskable (command_tree command) }
    requires shows { ShowsAnother (command_tree command) }
    ensures begins { IfSome result (λ w. Begins (job_of moment (ids_for ids.old (command_tree command)) (command_tree command)) w) }
    ensures after { stream_of_ids ids.new ≡ after_drawing (draws (command_tree command)) (stream_of_ids ids.old) }
{
    match command {
        Command::FindOneAndUpdate {
            filter,
            updates,
            sort,
            projection,
            upsert,
            after,
        } => {
            let doing = making(alloc, Making::Updates { updates, moment }, upsert, ids)?;
            let form = Form::Shows { projection, after };
            Some(choosing(alloc, filter, sort, doing, form))
        }
        Command::FindOneAndReplace {
            filter,
            replacement,
            sort,
            projection,
            upsert,
            after,
        } => {
            let document = Replacement::of_value(replacement);
            let doing = making(alloc, Making::Replacement { document }, upsert, ids)?;
            let form = Form::Shows { projection, after };
            Some(choosing(alloc, filter, sort, doing, form))
        }
        _ => unreachable!(),
    }
}

/// The state in which a command begins that makes another document of one.
fn changing(alloc: Global, moment: i64, command: Command, ids: &mut Ids) -> Option<State>
    requires askable { IsAskable (command_tree command) }
    requires changes { MakesAnother (command_tree command) }
    ensures begins { IfSome result (λ w. Begins (job_of moment (ids_for ids.old (command_tree command)) (command_tree command)) w) }
    ensures after { stream_of_ids ids.new ≡ after_drawing (draws (command_tree command)) (stream_of_ids ids.old) }
{
    match command {
        Command::UpdateOne {
            filter,
            updates,
            sort,
            upsert,
        } => {
            let doing = making(alloc, Making::Updates { updates, moment }, upsert, ids)?;
            Some(choosing(alloc, filter, sort, doing, Form::ByCounts))
        }
        Command::UpdateMany {
            filter,
            updates,
            upsert,
            page,
        } => {
            let doing = making(alloc, Making::Updates { updates, moment }, upsert, ids)?;
            Some(paging_over(alloc, filter, doing, page))
        }
        shows => showing(alloc, moment, shows, ids),
    }
}

/// The state in which a command begins that is on the documents that match a filter.
fn matching(alloc: Global, moment: i64, command: Command, ids: &mut Ids) -> Option<State>
    requires askable { IsAskable (command_tree command) }
    requires filters { HasFilter (command_tree command) }
    ensures begins { IfSome result (λ w. Begins (job_of moment (ids_for ids.old (command_tree command)) (command_tree command)) w) }
    ensures after { stream_of_ids ids.new ≡ after_drawing (draws (command_tree command)) (stream_of_ids ids.old) }
{
    match command {
        Command::FindOne {
            filter,
            sort,
            projection,
        } => Some(selecting(alloc, filter, sort, projection)),
        Command::Find {
            filter,
            sort,
            projection,
            limit,
            skip,
            page,
        } => Some(listing(alloc, filter, sort, projection, limit, skip, page)),
        Command::CountDocuments { filter } => Some(counting(alloc, filter)),
        Command::DeleteOne { filter, sort } => {
            Some(choosing(alloc, filter, sort, Doing::Deletes, Form::ByCounts))
        }
        Command::DeleteMany { filter } => Some(paging_over(alloc, filter, Doing::Deletes, None)),
        Command::FindOneAndDelete {
            filter,
            sort,
            projection,
        } => Some(choosing(
            alloc,
            filter,
            sort,
            Doing::Deletes,
            Form::Shows {
                projection,
                after: false,
            },
        )),
        changes => changing(alloc, moment, changes, ids),
    }
}

/// The state in which a command begins; none for want of memory, where its ids are drawn nevertheless.
fn begun(alloc: Global, moment: i64, command: Command, ids: &mut Ids) -> Option<State>
    requires { IsAskable (command_tree command) }
    ensures begins { IfSome result (λ w. Begins (job_of moment (ids_for ids.old (command_tree command)) (command_tree command)) w) }
    ensures after { stream_of_ids ids.new ≡ after_drawing (draws (command_tree command)) (stream_of_ids ids.old) }
{
    match command {
        Command::InsertOne { document } => inserting_one(alloc, document, ids),
        Command::InsertMany { documents, ordered } => {
            inserting_many(alloc, documents, ordered, ids)
        }
        Command::CreateCollection { name: _ } => Some(State::Creating),
        Command::FindCollections => Some(State::Naming),
        Command::DeleteCollection { name: _ } => Some(State::Dropping),
        matches => matching(alloc, moment, matches, ids),
    }
}

/// The state in which a command begins.
pub(crate) fn first_state(alloc: Global, moment: i64, command: Command, ids: &mut Ids) -> State
    requires { IsAskable (command_tree command) }
    ensures begins { Begins (job_of moment (ids_for ids.old (command_tree command)) (command_tree command)) result }
    ensures after { stream_of_ids ids.new ≡ after_drawing (draws (command_tree command)) (stream_of_ids ids.old) }
{
    let asked = Snapshot::of(&command);
    let from = Snapshot::of(&*ids);
    match begun(alloc, moment, command, ids) {
        Some(state) => state,
        None => State::Unready {
            command: asked,
            moment,
            ids: from,
        },
    }
}
