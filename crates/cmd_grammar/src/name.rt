// The names of commands.
ghost use Rattle.std.specs.Prelude.{◌≡◌, ◌<◌, slice_get, Some, option_map};
ghost use Rattle.cmd_grammar.specs.Names.{command_named, command_text, is_on_documents};
ghost use Rattle.cmd_grammar.specs.Judged.{content_name};

use name_tables::commands;

/// The commands on the documents of a collection, then those on collections.
#[derive(Clone, Copy)]
pub(crate) enum Name {
    InsertOne,
    InsertMany,
    FindOne,
    Find,
    CountDocuments,
    UpdateOne,
    UpdateMany,
    DeleteOne,
    DeleteMany,
    FindOneAndUpdate,
    FindOneAndReplace,
    FindOneAndDelete,
    CreateCollection,
    FindCollections,
    DeleteCollection,
}

// In the order of the table of names.
const IN_ORDER: [Name; 15] = [
    Name::InsertOne,
    Name::InsertMany,
    Name::FindOne,
    Name::Find,
    Name::CountDocuments,
    Name::UpdateOne,
    Name::UpdateMany,
    Name::DeleteOne,
    Name::DeleteMany,
    Name::FindOneAndUpdate,
    Name::FindOneAndReplace,
    Name::FindOneAndDelete,
    Name::CreateCollection,
    Name::FindCollections,
    Name::DeleteCollection,
];

fn in_row(row: usize) -> Name
    requires { row < 15 }
    ensures { slice_get IN_ORDER row ≡ Some result }
{
    IN_ORDER[row]
}

/// The command of a name.
pub(crate) fn command_named(name: &str) -> Option<Name>
    ensures { result ≡ command_named name.now }
{
    match commands().find(name) {
        Some(row) => Some(in_row(row)),
        None => None,
    }
}

impl Name {
    /// Its text.
    pub(crate) fn text(self) -> &'static str
        ensures { result.now ≡ command_text self }
    {
        match self {
            Name::InsertOne => "insertOne",
            Name::InsertMany => "insertMany",
            Name::FindOne => "findOne",
            Name::Find => "find",
            Name::CountDocuments => "countDocuments",
            Name::UpdateOne => "updateOne",
            Name::UpdateMany => "updateMany",
            Name::DeleteOne => "deleteOne",
            Name::DeleteMany => "deleteMany",
            Name::FindOneAndUpdate => "findOneAndUpdate",
            Name::FindOneAndReplace => "findOneAndReplace",
            Name::FindOneAndDelete => "findOneAndDelete",
            Name::CreateCollection => "createCollection",
            Name::FindCollections => "findCollections",
            Name::DeleteCollection => "deleteCollection",
        }
    }

    /// Whether it is on the documents of a collection, and not on collections.
    pub(crate) fn is_on_documents(self) -> bool
        ensures { result ≡ is_on_documents self }
    {
        !matches!(
            self,
            Name::CreateCollection | Name::FindCollections | Name::DeleteCollection
        )
    }

    /// The member that it takes out of its value as it is.
    pub(crate) fn content(self) -> Option<&'static str>
        ensures { option_map (λ s. s.now) result ≡ content_name self }
    {
        match self {
            Name::InsertOne => Some("document"),
            Name::InsertMany => Some("documents"),
            Name::FindOneAndReplace => Some("replacement"),
            Name::CreateCollection | Name::DeleteCollection => Some("name"),
            _ => None,
        }
    }
}
