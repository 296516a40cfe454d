//! The four tables: commands, operators of filters, operators of updates, and texts of codes.
ghost use Rattle.std.specs.Prelude.{◌≡◌};
ghost use Rattle.name_tables.specs.Tables.{command_names, filter_op_names, update_op_names, code_names};

use crate::names::{Names, rows};

/// The commands: those on documents of a collection, then those on collections.
pub fn commands() -> Names<15>
    ensures { result ≡ command_names }
{
    rows![
        "insertOne",
        "insertMany",
        "findOne",
        "find",
        "countDocuments",
        "updateOne",
        "updateMany",
        "deleteOne",
        "deleteMany",
        "findOneAndUpdate",
        "findOneAndReplace",
        "findOneAndDelete",
        "createCollection",
        "findCollections",
        "deleteCollection",
    ]
}

/// The operators of a filter: comparisons, then the connectives.
pub fn filter_ops() -> Names<14>
    ensures { result ≡ filter_op_names }
{
    rows![
        "$eq", "$ne", "$gt", "$gte", "$lt", "$lte", "$in", "$nin", "$exists", "$all", "$size",
        "$and", "$or", "$not",
    ]
}

/// The operators of an update, in the order in which they are applied.
pub fn update_ops() -> Names<12>
    ensures { result ≡ update_op_names }
{
    rows![
        "$set",
        "$unset",
        "$inc",
        "$mul",
        "$min",
        "$max",
        "$rename",
        "$push",
        "$pop",
        "$addToSet",
        "$setOnInsert",
        "$currentDate",
    ]
}

/// The texts of the codes, in the order of `Code`'s variants.
pub fn codes() -> Names<28>
    ensures { result ≡ code_names }
{
    rows![
        "INVALID_JSON",
        "NO_COMMAND_MATCHED",
        "COMMAND_FIELD_INVALID",
        "INVALID_FILTER_EXPRESSION",
        "UNSUPPORTED_FILTER_OPERATION",
        "UNSUPPORTED_UPDATE_OPERATION",
        "UNSUPPORTED_UPDATE_OPERATION_PARAM",
        "UNSUPPORTED_UPDATE_FOR_DOC_ID",
        "UNSUPPORTED_UPDATE_OPERATION_TARGET",
        "UNSUPPORTED_PROJECTION_PARAM",
        "INVALID_SORT_CLAUSE",
        "INVALID_PAGE_STATE",
        "SHRED_BAD_DOCID_TYPE",
        "SHRED_BAD_DOCID_EMPTY_STRING",
        "SHRED_DOC_KEY_NAME_VIOLATION",
        "SHRED_DOC_LIMIT_VIOLATION",
        "NUMBER_OUT_OF_RANGE",
        "DOCUMENT_ALREADY_EXISTS",
        "COLLECTION_NOT_EXIST",
        "INVALID_COLLECTION_NAME",
        "TOO_MANY_COLLECTIONS",
        "KEYSPACE_NOT_EXIST",
        "CONCURRENCY_FAILURE",
        "DATASET_TOO_BIG",
        "COMMAND_LIMIT_VIOLATION",
        "STORE_FAULT",
        "VERSIONS_SPENT",
        "OUT_OF_MEMORY",
    ]
}
