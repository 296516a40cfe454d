// The table of the commands: which members each may have, and which it has to have.
ghost use Rattle.std.specs.Prelude.{◌≡◌, map};
ghost use Rattle.json_tree.specs.View.{tree};
ghost use Rattle.cmd_grammar.specs.Rows.{row_of, field_of, row, fits};

use crate::kind::Kind;
use crate::name::Name;
use json_tree::Value;

/// A member that a command may have.
#[derive(Clone, Copy)]
pub(crate) struct Field {
    pub(crate) name: &'static str,
    pub(crate) kind: Kind,
    pub(crate) required: bool,
}

/// A command's members, and its options, where it has any.
#[derive(Clone, Copy)]
pub(crate) struct Row {
    pub(crate) members: &'static [Field],
    pub(crate) options: Option<&'static [Field]>,
}

const DOCUMENT: Field = Field {
    name: "document",
    kind: Kind::Object,
    required: true,
};

const DOCUMENTS: Field = Field {
    name: "documents",
    kind: Kind::Objects,
    required: true,
};

const FILTER: Field = Field {
    name: "filter",
    kind: Kind::Object,
    required: false,
};

const UPDATE: Field = Field {
    name: "update",
    kind: Kind::Object,
    required: true,
};

const REPLACEMENT: Field = Field {
    name: "replacement",
    kind: Kind::Object,
    required: true,
};

const SORT: Field = Field {
    name: "sort",
    kind: Kind::Object,
    required: false,
};

const PROJECTION: Field = Field {
    name: "projection",
    kind: Kind::Object,
    required: false,
};

const COLLECTION_NAME: Field = Field {
    name: "name",
    kind: Kind::Text,
    required: true,
};

const ORDERED: Field = Field {
    name: "ordered",
    kind: Kind::Boolean,
    required: false,
};

const LIMIT: Field = Field {
    name: "limit",
    kind: Kind::Whole,
    required: false,
};

const SKIP: Field = Field {
    name: "skip",
    kind: Kind::Whole,
    required: false,
};

const PAGE_STATE: Field = Field {
    name: "pageState",
    kind: Kind::TextOrNull,
    required: false,
};

const UPSERT: Field = Field {
    name: "upsert",
    kind: Kind::Boolean,
    required: false,
};

const RETURN_DOCUMENT: Field = Field {
    name: "returnDocument",
    kind: Kind::BeforeOrAfter,
    required: false,
};

const INSERT_ONE: Row = Row {
    members: &[DOCUMENT],
    options: None,
};

const INSERT_MANY: Row = Row {
    members: &[DOCUMENTS],
    options: Some(&[ORDERED]),
};

const FIND_ONE: Row = Row {
    members: &[FILTER, SORT, PROJECTION],
    options: None,
};

const FIND: Row = Row {
    members: &[FILTER, SORT, PROJECTION],
    options: Some(&[LIMIT, SKIP, PAGE_STATE]),
};

const COUNT_DOCUMENTS: Row = Row {
    members: &[FILTER],
    options: None,
};

const UPDATE_ONE: Row = Row {
    members: &[FILTER, UPDATE, SORT],
    options: Some(&[UPSERT]),
};

const UPDATE_MANY: Row = Row {
    members: &[FILTER, UPDATE],
    options: Some(&[UPSERT, PAGE_STATE]),
};

const DELETE_ONE: Row = Row {
    members: &[FILTER, SORT],
    options: None,
};

const DELETE_MANY: Row = Row {
    members: &[FILTER],
    options: None,
};

const FIND_ONE_AND_UPDATE: Row = Row {
    members: &[FILTER, UPDATE, SORT, PROJECTION],
    options: Some(&[UPSERT, RETURN_DOCUMENT]),
};

const FIND_ONE_AND_REPLACE: Row = Row {
    members: &[FILTER, REPLACEMENT, SORT, PROJECTION],
    options: Some(&[UPSERT, RETURN_DOCUMENT]),
};

const FIND_ONE_AND_DELETE: Row = Row {
    members: &[FILTER, SORT, PROJECTION],
    options: None,
};

const CREATE_COLLECTION: Row = Row {
    members: &[COLLECTION_NAME],
    options: None,
};

const FIND_COLLECTIONS: Row = Row {
    members: &[],
    options: None,
};

const DELETE_COLLECTION: Row = Row {
    members: &[COLLECTION_NAME],
    options: None,
};

/// The row of a command.
pub(crate) fn table_row(name: Name) -> Row
    ensures { row_of result ≡ row name }
{
    match name {
        Name::InsertOne => INSERT_ONE,
        Name::InsertMany => INSERT_MANY,
        Name::FindOne => FIND_ONE,
        Name::Find => FIND,
        Name::CountDocuments => COUNT_DOCUMENTS,
        Name::UpdateOne => UPDATE_ONE,
        Name::UpdateMany => UPDATE_MANY,
        Name::DeleteOne => DELETE_ONE,
        Name::DeleteMany => DELETE_MANY,
        Name::FindOneAndUpdate => FIND_ONE_AND_UPDATE,
        Name::FindOneAndReplace => FIND_ONE_AND_REPLACE,
        Name::FindOneAndDelete => FIND_ONE_AND_DELETE,
        Name::CreateCollection => CREATE_COLLECTION,
        Name::FindCollections => FIND_COLLECTIONS,
        Name::DeleteCollection => DELETE_COLLECTION,
    }
}

/// Whether a member of this name and value is one of the fields.
pub(crate) fn fits(fields: &[Field], name: &str, value: &Value) -> bool
    ensures { result ≡ fits (map field_of fields.now) name.now (tree value.now) }
{
    for field in fields {
        if field.name == name && field.kind.is_of(value) {
            return true;
        }
    }
    false
}
