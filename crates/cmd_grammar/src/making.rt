// The command that its parts make.
ghost use Rattle.std.specs.Prelude.{◌≡◌, None, IsTrue, is_some, unwrap_or, []};
ghost use Rattle.json_tree.specs.Tree.{null};
ghost use Rattle.json_tree.specs.View.{tree};
ghost use Rattle.cmd_grammar.specs.Commands.{command_tree, create_collection, delete_collection};
ghost use Rattle.cmd_grammar.specs.Parts.{text_in, elements_in};
ghost use Rattle.cmd_grammar.specs.Judged.{HasName, spelled, made_of};
ghost use Rattle.cmd_grammar.specs.Answers.{Passes};
ghost use Rattle.cmd_grammar.specs.declared.name.Name.TheVariants as names;

use crate::command::Command;
use crate::fault::CommandFault;
use crate::name::Name;
use crate::parts::{Listing, Parts};
use doc_paths::CollName;
use json_tree::{Items, Value};
use std::alloc::Global;

fn find_one(parts: Parts) -> Command
    ensures { command_tree result ≡ made_of names.FindOne (spelled parts) null }
{
    let Parts {
        filter,
        listing,
        ..
    } = parts;
    let Listing {
        projection,
        sort,
        ..
    } = listing;
    Command::FindOne {
        filter,
        sort,
        projection,
    }
}

fn find(parts: Parts) -> Command
    ensures { command_tree result ≡ made_of names.Find (spelled parts) null }
{
    let Parts {
        filter,
        listing,
        ..
    } = parts;
    let Listing {
        projection,
        sort,
        limit,
        skip,
        page,
    } = listing;
    Command::Find {
        filter,
        sort,
        projection,
        limit,
        skip,
        page,
    }
}

fn count_documents(parts: Parts) -> Command
    ensures { command_tree result ≡ made_of names.CountDocuments (spelled parts) null }
{
    let Parts { filter, .. } = parts;
    Command::CountDocuments { filter }
}

fn update_one(parts: Parts) -> Command
    ensures { command_tree result ≡ made_of names.UpdateOne (spelled parts) null }
{
    let Parts {
        filter,
        updates,
        listing,
        choices,
    } = parts;
    let Listing { sort, .. } = listing;
    Command::UpdateOne {
        filter,
        updates,
        sort,
        upsert: choices.upsert,
    }
}

fn update_many(parts: Parts) -> Command
    ensures { command_tree result ≡ made_of names.UpdateMany (spelled parts) null }
{
    let Parts {
        filter,
        updates,
        listing,
        choices,
    } = parts;
    let Listing { page, .. } = listing;
    Command::UpdateMany {
        filter,
        updates,
        upsert: choices.upsert,
        page,
    }
}

fn delete_one(parts: Parts) -> Command
    ensures { command_tree result ≡ made_of names.DeleteOne (spelled parts) null }
{
    let Parts {
        filter,
        listing,
        ..
    } = parts;
    let Listing { sort, .. } = listing;
    Command::DeleteOne { filter, sort }
}

fn delete_many(parts: Parts) -> Command
    ensures { command_tree result ≡ made_of names.DeleteMany (spelled parts) null }
{
    let Parts { filter, .. } = parts;
    Command::DeleteMany { filter }
}

fn find_one_and_update(parts: Parts) -> Command
    ensures { command_tree result ≡ made_of names.FindOneAndUpdate (spelled parts) null }
{
    let Parts {
        filter,
        updates,
        listing,
        choices,
    } = parts;
    let Listing {
        projection,
        sort,
        ..
    } = listing;
    Command::FindOneAndUpdate {
        filter,
        updates,
        sort,
        projection,
        upsert: choices.upsert,
        after: choices.after,
    }
}

fn find_one_and_replace(parts: Parts, replacement: Value) -> Command
    ensures { command_tree result ≡ made_of names.FindOneAndReplace (spelled parts) (tree replacement) }
{
    let Parts {
        filter,
        listing,
        choices,
        ..
    } = parts;
    let Listing {
        projection,
        sort,
        ..
    } = listing;
    Command::FindOneAndReplace {
        filter,
        replacement,
        sort,
        projection,
        upsert: choices.upsert,
        after: choices.after,
    }
}

fn find_one_and_delete(parts: Parts) -> Command
    ensures { command_tree result ≡ made_of names.FindOneAndDelete (spelled parts) null }
{
    let Parts {
        filter,
        listing,
        ..
    } = parts;
    let Listing {
        projection,
        sort,
        ..
    } = listing;
    Command::FindOneAndDelete {
        filter,
        sort,
        projection,
    }
}

// The elements of a list.
fn items(alloc: Global, content: Value) -> Items
    ensures { result ≡ elements_in (tree content) }
{
    match content {
        Value::List(items) => items,
        _ => Items::new(alloc),
    }
}

fn insert_many(alloc: Global, parts: Parts, content: Value) -> Command
    ensures { command_tree result ≡ made_of names.InsertMany (spelled parts) (tree content) }
{
    let Parts { choices, .. } = parts;
    Command::InsertMany {
        documents: items(alloc, content),
        ordered: choices.ordered,
    }
}

// The collection's name that a text is, which was tested before.
fn coll_name(alloc: Global, content: &Value) -> Result<CollName, CommandFault>
    requires { IsTrue (is_some (text_in (tree content.now))) }
    ensures { Passes None (λ n. n ≡ unwrap_or (text_in (tree content.now)) []) result }
{
    let Value::Text(text) = content else {
        unreachable!()
    };
    match CollName::read(alloc, text.as_str()) {
        Ok(name) => Ok(name),
        Err(_) => Err(CommandFault::NoMemory),
    }
}

fn create(alloc: Global, content: &Value) -> Result<Command, CommandFault>
    requires { IsTrue (is_some (text_in (tree content.now))) }
    ensures { Passes None (λ c. command_tree c ≡ create_collection (unwrap_or (text_in (tree content.now)) [])) result }
{
    match coll_name(alloc, content) {
        Ok(name) => Ok(Command::CreateCollection { name }),
        Err(fault) => Err(fault),
    }
}

fn delete(alloc: Global, content: &Value) -> Result<Command, CommandFault>
    requires { IsTrue (is_some (text_in (tree content.now))) }
    ensures { Passes None (λ c. command_tree c ≡ delete_collection (unwrap_or (text_in (tree content.now)) [])) result }
{
    match coll_name(alloc, content) {
        Ok(name) => Ok(Command::DeleteCollection { name }),
        Err(fault) => Err(fault),
    }
}

/// The command that the parts make with what was taken out of its value.
pub(crate) fn made(
    alloc: Global,
    name: Name,
    parts: Parts,
    content: Value,
) -> Result<Command, CommandFault>
    requires { HasName name (tree content) }
    ensures { Passes None (λ c. command_tree c ≡ made_of name (spelled parts) (tree content)) result }
{
    match name {
        Name::InsertOne => Ok(Command::InsertOne { document: content }),
        Name::InsertMany => Ok(insert_many(alloc, parts, content)),
        Name::FindOne => Ok(find_one(parts)),
        Name::Find => Ok(find(parts)),
        Name::CountDocuments => Ok(count_documents(parts)),
        Name::UpdateOne => Ok(update_one(parts)),
        Name::UpdateMany => Ok(update_many(parts)),
        Name::DeleteOne => Ok(delete_one(parts)),
        Name::DeleteMany => Ok(delete_many(parts)),
        Name::FindOneAndUpdate => Ok(find_one_and_update(parts)),
        Name::FindOneAndReplace => Ok(find_one_and_replace(parts, content)),
        Name::FindOneAndDelete => Ok(find_one_and_delete(parts)),
        Name::CreateCollection => create(alloc, &content),
        Name::FindCollections => Ok(Command::FindCollections),
        Name::DeleteCollection => delete(alloc, &content),
    }
}
