use super::*;
use std::process::Abort;

const COMMANDS: [&str; 15] = [
    "insertOne",
    "insertMany",
    "findOne",
    "find",
    "countDocuments",
    "updateOne",
    "updateMany",
    "deleteOne",
    "deleteMany",
    "findOneAndUpdate",
    "findOneAndReplace",
    "findOneAndDelete",
    "createCollection",
    "findCollections",
    "deleteCollection",
];

const FILTER_OPS: [&str; 14] = [
    "$eq", "$ne", "$gt", "$gte", "$lt", "$lte", "$in", "$nin", "$exists", "$all", "$size", "$and",
    "$or", "$not",
];

const UPDATE_OPS: [&str; 12] = [
    "$set",
    "$unset",
    "$inc",
    "$mul",
    "$min",
    "$max",
    "$rename",
    "$push",
    "$pop",
    "$addToSet",
    "$setOnInsert",
    "$currentDate",
];

const CODES: [(Code, &str); 28] = [
    (Code::InvalidJson, "INVALID_JSON"),
    (Code::NoCommandMatched, "NO_COMMAND_MATCHED"),
    (Code::CommandFieldInvalid, "COMMAND_FIELD_INVALID"),
    (Code::InvalidFilterExpression, "INVALID_FILTER_EXPRESSION"),
    (
        Code::UnsupportedFilterOperation,
        "UNSUPPORTED_FILTER_OPERATION",
    ),
    (
        Code::UnsupportedUpdateOperation,
        "UNSUPPORTED_UPDATE_OPERATION",
    ),
    (
        Code::UnsupportedUpdateOperationParam,
        "UNSUPPORTED_UPDATE_OPERATION_PARAM",
    ),
    (
        Code::UnsupportedUpdateForDocId,
        "UNSUPPORTED_UPDATE_FOR_DOC_ID",
    ),
    (
        Code::UnsupportedUpdateOperationTarget,
        "UNSUPPORTED_UPDATE_OPERATION_TARGET",
    ),
    (
        Code::UnsupportedProjectionParam,
        "UNSUPPORTED_PROJECTION_PARAM",
    ),
    (Code::InvalidSortClause, "INVALID_SORT_CLAUSE"),
    (Code::InvalidPageState, "INVALID_PAGE_STATE"),
    (Code::ShredBadDocidType, "SHRED_BAD_DOCID_TYPE"),
    (
        Code::ShredBadDocidEmptyString,
        "SHRED_BAD_DOCID_EMPTY_STRING",
    ),
    (
        Code::ShredDocKeyNameViolation,
        "SHRED_DOC_KEY_NAME_VIOLATION",
    ),
    (Code::ShredDocLimitViolation, "SHRED_DOC_LIMIT_VIOLATION"),
    (Code::NumberOutOfRange, "NUMBER_OUT_OF_RANGE"),
    (Code::DocumentAlreadyExists, "DOCUMENT_ALREADY_EXISTS"),
    (Code::CollectionNotExist, "COLLECTION_NOT_EXIST"),
    (Code::InvalidCollectionName, "INVALID_COLLECTION_NAME"),
    (Code::TooManyCollections, "TOO_MANY_COLLECTIONS"),
    (Code::KeyspaceNotExist, "KEYSPACE_NOT_EXIST"),
    (Code::ConcurrencyFailure, "CONCURRENCY_FAILURE"),
    (Code::DatasetTooBig, "DATASET_TOO_BIG"),
    (Code::CommandLimitViolation, "COMMAND_LIMIT_VIOLATION"),
    (Code::StoreFault, "STORE_FAULT"),
    (Code::VersionsSpent, "VERSIONS_SPENT"),
    (Code::OutOfMemory, "OUT_OF_MEMORY"),
];

// Each name stands in its row, and no other word of the list in any.
fn expect_rows<const N: usize>(rt: &impl Abort, table: &Names<N>, names: &[&str], others: &[&str]) {
    assert_eq!(rt; names.len(), N);
    for (row, name) in names.iter().enumerate() {
        assert_eq!(rt; table.find(name), Some(row), "{name}");
        assert!(rt; table.name(row) == *name, "{name}");
    }
    for other in others {
        assert_eq!(rt; table.find(other), None, "{other}");
    }
}

#[test]
fn names_stand_in_their_rows(rt: HostRuntime) {
    let near = [
        "",
        "insertone",
        "InsertOne",
        "insertOn",
        "insertOnes",
        " find",
        "findOneAnd",
        "$eq",
        "INVALID_JSON",
    ];
    expect_rows(&rt, &commands(), &COMMANDS, &near);
    let near = [
        "", "$", "eq", "$EQ", "$e", "$eq ", "$gtee", "$exist", "$nor", "$set", "find",
    ];
    expect_rows(&rt, &filter_ops(), &FILTER_OPS, &near);
    let near = [
        "",
        "$",
        "set",
        "$Set",
        "$se",
        "$sets",
        "$addtoset",
        "$setOnInserts",
        "$pull",
        "$eq",
        "find",
    ];
    expect_rows(&rt, &update_ops(), &UPDATE_OPS, &near);
}

#[test]
fn codes_have_their_texts(rt: HostRuntime) {
    let table = codes();
    for (row, (code, text)) in CODES.iter().enumerate() {
        assert!(rt; code.text() == *text, "{text}");
        assert_eq!(rt; Code::of_text(text), Some(*code), "{text}");
        assert_eq!(rt; table.find(text), Some(row), "{text}");
    }
    for other in [
        "",
        "invalid_json",
        "INVALID_JSO",
        "INVALID_JSON_",
        "INVALID JSON",
        "E1",
        "insertOne",
        "OUT_OF_MEMOR\u{178}",
    ] {
        assert_eq!(rt; Code::of_text(other), None, "{other}");
        assert_eq!(rt; table.find(other), None, "{other}");
    }
}
