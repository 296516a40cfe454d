// The tests of a request's path, and of the collection that the request is about.
ghost use Rattle.std.specs.Prelude.{◌≡◌, ⊤, option_map, option_and_then};
ghost use Rattle.json_tree.specs.View.{tree};
ghost use Rattle.cmd_grammar.specs.Names.{command_named};
ghost use Rattle.cmd_grammar.specs.Refused.{at_level, collection_named, keyspace_refusal, collection_refusal};
ghost use Rattle.cmd_grammar.specs.Judged.{place_refusal};
ghost use Rattle.cmd_grammar.specs.Answers.{Passes};

use crate::fault::{CommandFault, refuse};
use crate::members::name_text;
use crate::name::{Name, command_named};
use doc_paths::is_collection_name;
use json_tree::{Text, Value};
use reply_env::{Place, bad_collection_name, no_keyspace};
use std::alloc::Global;

// The command, if it is one of the path's level.
fn at_level(collection: &Option<Text>, name: Name) -> Option<Name>
    ensures { result ≡ at_level collection.now name }
{
    if name.is_on_documents() == collection.is_some() {
        Some(name)
    } else {
        None
    }
}

/// The command of a name, if it is one of the path's level: on documents under the path of a collection, on collections
/// under that of the keyspace alone.
pub(crate) fn named_at(collection: &Option<Text>, name: &str) -> Option<Name>
    ensures { result ≡ option_and_then (at_level collection.now) (command_named name.now) }
{
    match command_named(name) {
        Some(name) => at_level(collection, name),
        None => None,
    }
}

fn check_keyspace(alloc: Global, keyspace: &str, name: &str) -> Result<(), CommandFault>
    ensures { Passes (keyspace_refusal keyspace.now name.now) (λ _. ⊤) result }
{
    if name == keyspace {
        Ok(())
    } else {
        Err(refuse(no_keyspace(alloc, name)))
    }
}

// The name of the collection that is to be made or deleted, where it is a text, or else that of the path.
fn collection_named<'r>(place: &'r Place, name: Name, command: &'r Value) -> Option<&'r Text>
    ensures { option_map (λ s. s.now) result ≡ collection_named place.now.collection (name, tree command.now) }
{
    match name {
        Name::CreateCollection | Name::DeleteCollection => name_text(command),
        _ => match &place.collection {
            Some(name) => Some(name),
            None => None,
        },
    }
}

fn check_collection(alloc: Global, name: Option<&Text>) -> Result<(), CommandFault>
    ensures { Passes (collection_refusal (option_map (λ s. s.now) name.entry)) (λ _. ⊤) result }
{
    let Some(name) = name else {
        return Ok(());
    };
    if is_collection_name(name.as_str().as_bytes()) {
        Ok(())
    } else {
        Err(refuse(bad_collection_name(alloc, name.as_str())))
    }
}

/// The keyspace of the path, then the collection that the request is about.
pub(crate) fn check_place(
    alloc: Global,
    keyspace: &str,
    place: &Place,
    name: Name,
    command: &Value,
) -> Result<(), CommandFault>
    ensures { Passes (place_refusal keyspace.now place.now (name, tree command.now)) (λ _. ⊤) result }
{
    check_keyspace(alloc, keyspace, place.keyspace.as_str())?;
    check_collection(alloc, collection_named(place, name, command))
}
