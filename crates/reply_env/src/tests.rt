// The texts of replies and the messages of errors, worked out by hand.
use super::*;
use json_tree::{DocId, Members, Num, Text, Value};
use name_tables::Code;
use std::alloc::Global;
use std::test::Fail;

fn text_value(alloc: Global, text: &str) -> Result<Value, Fail> {
    Ok(Value::Text(Text::of_str(alloc, text)?))
}

fn text_id(alloc: Global, text: &str) -> Result<DocId, Fail> {
    Ok(DocId::of_value(alloc, &text_value(alloc, text)?)?)
}

fn number_id(alloc: Global, number: i128) -> Result<DocId, Fail> {
    Ok(DocId::of_value(alloc, &Value::Num(Num::of_parts(number, 0)?))?)
}

// The document {"_id":"a","n":1.5}.
fn document(alloc: Global) -> Result<Value, Fail> {
    let mut members = Members::new(alloc);
    members.put(Text::of_str(alloc, "_id")?, text_value(alloc, "a")?)?;
    members.put(
        Text::of_str(alloc, "n")?,
        Value::Num(Num::of_parts(15, -1)?),
    )?;
    Ok(Value::Object(members))
}

fn ids(alloc: Global) -> Result<Vec<DocId>, Fail> {
    let mut ids = Vec::new(alloc);
    ids.push(text_id(alloc, "a")?)?;
    ids.push(number_id(alloc, 2)?)?;
    Ok(ids)
}

fn errors(alloc: Global) -> Result<Vec<ErrorItem>, Fail> {
    let mut errors = Vec::new(alloc);
    errors.push(bad_field(alloc, ESCAPED)?)?;
    errors.push(no_command(alloc)?)?;
    Ok(errors)
}

fn refused(alloc: Global, so_far: Option<SoFar>) -> Result<Reply, Fail> {
    Ok(Reply::Refused {
        errors: errors(alloc)?,
        so_far,
    })
}

const TEXTS: [&str; 36] = [
    r#"{"data":{"document":{"_id":"a","n":1.5}}}"#,
    r#"{"data":{"document":null}}"#,
    r#"{"data":{"documents":[],"nextPageState":null}}"#,
    r#"{"data":{"documents":[],"nextPageState":"AQAAAAAAAAAoAW9yZGVyLTEwMDE="}}"#,
    r#"{"data":{"documents":[{"_id":"a","n":1.5}],"nextPageState":null}}"#,
    r#"{"data":{"documents":[{"_id":"a","n":1.5}],"nextPageState":"\u0001\"\\/é"}}"#,
    r#"{"data":{"documents":[{"_id":"a","n":1.5},{},{"_id":"a","n":1.5}],"nextPageState":null}}"#,
    r#"{"data":{"documents":[{"_id":"a","n":1.5},{},{"_id":"a","n":1.5}],"nextPageState":""}}"#,
    r#"{"data":{"document":{"_id":"a","n":1.5}},"status":{"matchedCount":1,"modifiedCount":0}}"#,
    r#"{"data":{"document":{"_id":"a","n":1.5}},"status":{"matchedCount":0,"modifiedCount":0,"upsertedId":"a"}}"#,
    r#"{"data":{"document":null},"status":{"matchedCount":0,"modifiedCount":0,"upsertedId":"\u0001\"\\/é"}}"#,
    r#"{"data":{"document":{"_id":"a","n":1.5}},"status":{"deletedCount":1}}"#,
    r#"{"data":{"document":null},"status":{"deletedCount":0}}"#,
    r#"{"status":{"insertedIds":["a",2]}}"#,
    r#"{"status":{"count":0}}"#,
    r#"{"status":{"count":1000,"moreData":true}}"#,
    r#"{"status":{"matchedCount":1,"modifiedCount":0}}"#,
    r#"{"status":{"matchedCount":0,"modifiedCount":0,"upsertedId":"a"}}"#,
    r#"{"status":{"matchedCount":18446744073709551615,"modifiedCount":0}}"#,
    r#"{"status":{"matchedCount":20,"modifiedCount":19,"moreData":true,"nextPageState":"AQAAAAAAAAAoAW9yZGVyLTEwMDE="}}"#,
    r#"{"status":{"matchedCount":20,"modifiedCount":0,"moreData":true,"nextPageState":"\u0001\"\\/é"}}"#,
    r#"{"status":{"matchedCount":0,"modifiedCount":0,"upsertedId":"a"}}"#,
    r#"{"status":{"matchedCount":0,"modifiedCount":0,"upsertedId":"a","moreData":true,"nextPageState":""}}"#,
    r#"{"status":{"deletedCount":1}}"#,
    r#"{"status":{"deletedCount":0}}"#,
    r#"{"status":{"deletedCount":20,"moreData":true}}"#,
    r#"{"status":{"ok":1}}"#,
    r#"{"status":{"collections":[]}}"#,
    r#"{"status":{"collections":["order"]}}"#,
    r#"{"status":{"collections":["order","\u0001\"\\/é"]}}"#,
    r#"{"errors":[{"message":"No command matched","errorCode":"NO_COMMAND_MATCHED"}]}"#,
    r#"{"status":{"insertedIds":["a",2]},"errors":[{"message":"Command field invalid: \u0001\"\\/é","errorCode":"COMMAND_FIELD_INVALID"},{"message":"No command matched","errorCode":"NO_COMMAND_MATCHED"}]}"#,
    r#"{"status":{"matchedCount":3,"modifiedCount":2},"errors":[{"message":"Command field invalid: \u0001\"\\/é","errorCode":"COMMAND_FIELD_INVALID"},{"message":"No command matched","errorCode":"NO_COMMAND_MATCHED"}]}"#,
    r#"{"status":{"deletedCount":18446744073709551615},"errors":[{"message":"Command field invalid: \u0001\"\\/é","errorCode":"COMMAND_FIELD_INVALID"},{"message":"No command matched","errorCode":"NO_COMMAND_MATCHED"}]}"#,
    r#"{"status":{"deletedCount":7},"errors":[{"message":"No version numbers are left","errorCode":"VERSIONS_SPENT"}]}"#,
    r#"{"errors":[{"message":"Out of memory after 18446744073709551615 accepted writes","errorCode":"OUT_OF_MEMORY"}]}"#,
];

const ESCAPED: &str = "\u{1}\"\\/é";

const STATE: &str = "AQAAAAAAAAAoAW9yZGVyLTEwMDE=";

// A page of so many documents, the second of which shows nothing.
fn listed(alloc: Global, documents: usize, state: Option<&str>) -> Result<Reply, Fail> {
    let mut views = Vec::new(alloc);
    for place in 0..documents {
        if place == 1 {
            views.push(Value::Object(Members::new(alloc)))?;
        } else {
            views.push(document(alloc)?)?;
        }
    }
    Ok(Reply::Listed {
        views,
        state: text_state(alloc, state)?,
    })
}

fn text_state(alloc: Global, state: Option<&str>) -> Result<Option<Text>, Fail> {
    match state {
        Some(state) => Ok(Some(Text::of_str(alloc, state)?)),
        None => Ok(None),
    }
}

fn upsert(alloc: Global, id: Option<&str>) -> Result<Option<DocId>, Fail> {
    match id {
        Some(id) => Ok(Some(text_id(alloc, id)?)),
        None => Ok(None),
    }
}

fn found(alloc: Global, is_found: bool) -> Result<Option<Value>, Fail> {
    if is_found {
        Ok(Some(document(alloc)?))
    } else {
        Ok(None)
    }
}

fn found_and_changed(
    alloc: Global,
    is_found: bool,
    matched: u64,
    upserted: Option<&str>,
) -> Result<Reply, Fail> {
    Ok(Reply::FoundAndChanged {
        view: found(alloc, is_found)?,
        matched,
        modified: 0,
        upserted: upsert(alloc, upserted)?,
    })
}

fn found_and_deleted(alloc: Global, is_found: bool, deleted: u64) -> Result<Reply, Fail> {
    Ok(Reply::FoundAndDeleted {
        view: found(alloc, is_found)?,
        deleted,
    })
}

fn updated(alloc: Global, matched: u64, upserted: Option<&str>) -> Result<Reply, Fail> {
    Ok(Reply::Updated {
        matched,
        modified: 0,
        upserted: upsert(alloc, upserted)?,
    })
}

fn updated_page(
    alloc: Global,
    matched: u64,
    modified: u64,
    upserted: Option<&str>,
    state: Option<&str>,
) -> Result<Reply, Fail> {
    Ok(Reply::UpdatedMany {
        matched,
        modified,
        upserted: upsert(alloc, upserted)?,
        state: text_state(alloc, state)?,
    })
}

fn collections(alloc: Global, names: &[&str]) -> Result<Reply, Fail> {
    let mut texts = Vec::new(alloc);
    for name in names {
        texts.push(Text::of_str(alloc, name)?)?;
    }
    Ok(Reply::Names { names: texts })
}

// A refusal behind seven deletions.
fn refused_after(alloc: Global) -> Result<Reply, Fail> {
    let done = SoFar::Deleted { deleted: 7 };
    Ok(refusal_after(alloc, Some(done), versions_spent(alloc)?)?)
}

// The replies that show documents.
fn showing_at(alloc: Global, place: usize) -> Result<Reply, Fail> {
    match place {
        0 => Ok(Reply::Found {
            view: found(alloc, true)?,
        }),
        1 => Ok(Reply::Found { view: None }),
        2 => listed(alloc, 0, None),
        3 => listed(alloc, 0, Some(STATE)),
        4 => listed(alloc, 1, None),
        5 => listed(alloc, 1, Some(ESCAPED)),
        6 => listed(alloc, 3, None),
        7 => listed(alloc, 3, Some("")),
        8 => found_and_changed(alloc, true, 1, None),
        9 => found_and_changed(alloc, true, 0, Some("a")),
        10 => found_and_changed(alloc, false, 0, Some(ESCAPED)),
        11 => found_and_deleted(alloc, true, 1),
        _ => found_and_deleted(alloc, false, 0),
    }
}

// The replies that tell counts, ids and names.
fn telling_at(alloc: Global, place: usize) -> Result<Reply, Fail> {
    match place {
        0 => Ok(Reply::Inserted { ids: ids(alloc)? }),
        1 => Ok(Reply::Counted {
            count: 0,
            more: false,
        }),
        2 => Ok(Reply::Counted {
            count: 1000,
            more: true,
        }),
        3 => updated(alloc, 1, None),
        4 => updated(alloc, 0, Some("a")),
        5 => updated_page(alloc, u64::MAX, 0, None, None),
        6 => updated_page(alloc, 20, 19, None, Some(STATE)),
        7 => updated_page(alloc, 20, 0, None, Some(ESCAPED)),
        8 => updated_page(alloc, 0, 0, Some("a"), None),
        9 => updated_page(alloc, 0, 0, Some("a"), Some("")),
        10 => Ok(Reply::Deleted { deleted: 1 }),
        11 => Ok(Reply::DeletedMany {
            deleted: 0,
            more: false,
        }),
        12 => Ok(Reply::DeletedMany {
            deleted: 20,
            more: true,
        }),
        13 => Ok(Reply::Done),
        14 => collections(alloc, &[]),
        15 => collections(alloc, &["order"]),
        _ => collections(alloc, &["order", ESCAPED]),
    }
}

// The replies that refuse.
fn refusing_at(alloc: Global, place: usize) -> Result<Reply, Fail> {
    match place {
        0 => Ok(refusal(alloc, no_command(alloc)?)?),
        1 => refused(alloc, Some(SoFar::Inserted(ids(alloc)?))),
        2 => refused(
            alloc,
            Some(SoFar::Updated {
                matched: 3,
                modified: 2,
            }),
        ),
        3 => refused(alloc, Some(SoFar::Deleted { deleted: u64::MAX })),
        4 => refused_after(alloc),
        _ => Ok(Reply::NoMemory { accepted: u64::MAX }),
    }
}

// The replies of these texts.
fn reply_at(alloc: Global, place: usize) -> Result<Reply, Fail> {
    if place < 13 {
        showing_at(alloc, place)
    } else if place < 30 {
        telling_at(alloc, place - 13)
    } else {
        refusing_at(alloc, place - 30)
    }
}

// The reply has this text, in an empty buffer and behind what stands in one.
#[test]
fn replies_have_their_texts(rt: HostRuntime) -> Result<(), Fail> {
    let alloc = rt.alloc();
    for (place, text) in TEXTS.iter().enumerate() {
        let reply = reply_at(alloc, place)?;
        let mut out = Vec::new(alloc);
        print_reply(alloc, &reply, &mut out)?;
        assert!(rt; out.as_slice() == text.as_bytes(), "{text}");
        print_reply(alloc, &reply, &mut out)?;
        assert!(rt; out.as_slice().ends_with(text.as_bytes()), "{text}");
        assert_eq!(rt; out.len() / 2, text.len());
    }
    Ok(())
}

const MESSAGES: [(Code, &str); 34] = [
    (Code::InvalidJson, "Body is not JSON at byte 13"),
    (Code::InvalidJson, "Body is not UTF-8 at byte 0"),
    (Code::InvalidJson, "Body is nested too deep at byte 32"),
    (Code::NumberOutOfRange, "Number is out of range at byte 30"),
    (Code::OutOfMemory, "Out of memory after 0 accepted writes"),
    (Code::OutOfMemory, "Out of memory after 7 accepted writes"),
    (Code::KeyspaceNotExist, "Keyspace other does not exist"),
    (
        Code::InvalidCollectionName,
        "Collection name is invalid: 9c",
    ),
    (Code::CommandFieldInvalid, "Command field invalid: speed"),
    (
        Code::CommandFieldInvalid,
        "Command field invalid: options.limit",
    ),
    (Code::InvalidFilterExpression, "Filter is invalid at "),
    (
        Code::InvalidFilterExpression,
        "Filter has 101 operands, at most 100",
    ),
    (
        Code::UnsupportedFilterOperation,
        "Filter operator $near is not supported",
    ),
    (Code::ShredBadDocidType, "Field _id is of the wrong kind"),
    (Code::ShredBadDocidEmptyString, "Field _id is an empty text"),
    (
        Code::ShredDocKeyNameViolation,
        "Member name is not allowed: a b",
    ),
    (
        Code::ShredDocLimitViolation,
        "Document limit 4 is 100, found 101",
    ),
    (
        Code::DocumentAlreadyExists,
        "Document 2 already exists at version 5",
    ),
    (Code::CollectionNotExist, "Collection zz does not exist"),
    (
        Code::UnsupportedUpdateOperation,
        "Update operator $up is not supported",
    ),
    (
        Code::UnsupportedUpdateOperationParam,
        "Update operand is invalid for $inc at n.1",
    ),
    (
        Code::UnsupportedUpdateOperationParam,
        "Update paths conflict: a.b and a",
    ),
    (
        Code::UnsupportedUpdateForDocId,
        "Field _id is not changeable",
    ),
    (
        Code::UnsupportedUpdateOperationTarget,
        "Update target is of the wrong kind at s",
    ),
    (Code::NumberOutOfRange, "Number is out of range at a.b"),
    (
        Code::ConcurrencyFailure,
        "Lost to other writers: 1>2, 2>18446744073709551615, 7>gone, 9>10",
    ),
    (
        Code::UnsupportedProjectionParam,
        "Projection is invalid at a.b",
    ),
    (Code::InvalidSortClause, "Sort is invalid at a.b"),
    (Code::InvalidSortClause, "Sort is invalid at "),
    (Code::InvalidPageState, "Page state is invalid"),
    (
        Code::CommandLimitViolation,
        "Command limit options.limit is 100, found 18446744073709551615",
    ),
    (Code::DatasetTooBig, "More than 10000 documents to sort"),
    (Code::TooManyCollections, "At most 100 collections"),
    (Code::StoreFault, "Store fault: 0 then 1"),
];

const LOSSES: [Loss; 4] = [
    Loss {
        read: 1,
        found: Some(2),
    },
    Loss {
        read: 2,
        found: Some(u64::MAX),
    },
    Loss {
        read: 7,
        found: None,
    },
    Loss {
        read: 9,
        found: Some(10),
    },
];

fn error_at(alloc: Global, place: usize) -> Result<ErrorItem, Fail> {
    let made = match place {
        0 => unread(alloc, json_text::TextFault::Syntax { at: 13 }),
        1 => unread(alloc, json_text::TextFault::NotUtf8 { at: 0 }),
        2 => unread(alloc, json_text::TextFault::TooDeep { at: 32 }),
        3 => unread(alloc, json_text::TextFault::Number { at: 30 }),
        4 => unread(alloc, json_text::TextFault::NoMemory),
        5 => out_of_memory(alloc, 7),
        6 => no_keyspace(alloc, "other"),
        7 => bad_collection_name(alloc, "9c"),
        8 => bad_field(alloc, "speed"),
        9 => bad_option(alloc, "limit"),
        10 => bad_filter(alloc, ""),
        11 => many_operands(alloc, 101),
        12 => no_filter_operator(alloc, "$near"),
        13 => bad_id_kind(alloc),
        14 => empty_id(alloc),
        15 => bad_member_name(alloc, "a b"),
        16 => broken_limit(alloc, 4, 100, 101),
        17 => already_exists(alloc, &number_id(alloc, 2)?, 5),
        18 => no_collection(alloc, "zz"),
        19 => no_update_operator(alloc, "$up"),
        20 => bad_update_operand(alloc, "$inc", "n.1"),
        21 => update_conflict(alloc, "a.b", "a"),
        22 => id_unchangeable(alloc),
        23 => wrong_update_target(alloc, "s"),
        24 => number_out_of_range(alloc, "a.b"),
        25 => lost_writes(alloc, &LOSSES),
        26 => bad_projection(alloc, "a.b"),
        27 => bad_sort(alloc, "a.b"),
        28 => bad_sort(alloc, ""),
        29 => bad_page_state(alloc),
        30 => command_limit(alloc, "options.limit", 100, u64::MAX),
        31 => too_many_to_sort(alloc),
        32 => too_many_collections(alloc),
        _ => store_fault(alloc, 0, 1),
    };
    Ok(made?)
}

#[test]
fn errors_have_their_messages(rt: HostRuntime) -> Result<(), Fail> {
    let alloc = rt.alloc();
    for (place, (code, message)) in MESSAGES.iter().enumerate() {
        let error = error_at(alloc, place)?;
        assert!(rt; error.code == *code, "{message}");
        assert!(rt; error.message.as_str() == *message, "{message}");
    }
    assert!(rt; versions_spent(alloc)?.message.as_str() == "No version numbers are left");
    Ok(())
}
