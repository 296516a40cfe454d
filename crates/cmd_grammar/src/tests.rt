// Requests and what they are read as, or refused by, worked out by hand.
mod asked;
mod changing;
mod collections;
mod inserting;
mod many;
mod paging;
mod rows;

use super::*;
use json_text::read_value;
use json_tree::Text;
use name_tables::Code;
use reply_env::{ErrorItem, Place, Request, print_reply, refusal};
use std::alloc::Global;
use std::test::Fail;

// Bodies of a repeated piece: what stands before it, the piece, how often, what stands behind it, and what they give.
const LONG_ROWS: [(&str, &str, usize, &str, &str); 17] = [
    (
        "",
        "[",
        33,
        "",
        r#"{"errors":[{"message":"Body is nested too deep at byte 32","errorCode":"INVALID_JSON"}]}"#,
    ),
    (
        r#"{"findOne":{"filter":{"x":{"$in":[0"#,
        ",1",
        100,
        "]}}}}",
        r#"{"errors":[{"message":"Filter has 101 operands, at most 100","errorCode":"INVALID_FILTER_EXPRESSION"}]}"#,
    ),
    (
        r#"{"countDocuments":{"filter":{"x":{"$nin":[0"#,
        ",1",
        101,
        "]}}}}",
        r#"{"errors":[{"message":"Filter has 102 operands, at most 100","errorCode":"INVALID_FILTER_EXPRESSION"}]}"#,
    ),
    (
        r#"{"findOne":{"filter":{"x":{"$all":[0"#,
        ",1",
        99,
        "]}}}}",
        "findOne",
    ),
    (
        r#"{"insertOne":{"document":{"_id":1,"l":[0"#,
        ",1",
        1000,
        "]}}}",
        r#"{"errors":[{"message":"Document limit 8 is 1000, found 1001","errorCode":"SHRED_DOC_LIMIT_VIOLATION"}]}"#,
    ),
    (
        r#"{"insertOne":{"document":{"_id":1,"l":[0"#,
        ",1",
        999,
        "]}}}",
        "insertOne",
    ),
    (
        r#"{"insertOne":{"document":{"_id":""#,
        "x",
        8001,
        r#""}}}"#,
        r#"{"errors":[{"message":"Document limit 9 is 8000, found 8001","errorCode":"SHRED_DOC_LIMIT_VIOLATION"}]}"#,
    ),
    (
        r#"{"insertOne":{"document":{"_id":""#,
        "x",
        8000,
        r#""}}}"#,
        "insertOne",
    ),
    (
        r#"{"findOne":{"filter":{""#,
        "p",
        101,
        r#"":1}}}"#,
        r#"{"errors":[{"message":"Filter is invalid at ppppppppppppppppppppppppppppppppppppppppppppppppppppppppppppppppppppppppppppppppppppppppppppppppppppp","errorCode":"INVALID_FILTER_EXPRESSION"}]}"#,
    ),
    (
        r#"{"findOne":{"filter":{"p"#,
        ".p",
        499,
        r#"":1}}}"#,
        "findOne",
    ),
    (r#"{"countDocuments":{"#, " ", 1000, "}}", "countDocuments"),
    (
        r#"{"insertMany":{"documents":[{}"#,
        ",{}",
        100,
        "]}}",
        r#"{"errors":[{"message":"Command limit documents is 100, found 101","errorCode":"COMMAND_LIMIT_VIOLATION"}]}"#,
    ),
    (
        r#"{"insertMany":{"documents":[{"_id":[]}"#,
        r#",{"_id":""}"#,
        4000,
        r#"],"options":{"ordered":false}}}"#,
        r#"{"errors":[{"message":"Command limit documents is 100, found 4001","errorCode":"COMMAND_LIMIT_VIOLATION"}]}"#,
    ),
    (
        r#"{"insertMany":{"documents":[1"#,
        ",{}",
        100,
        "]}}",
        r#"{"errors":[{"message":"Command field invalid: documents","errorCode":"COMMAND_FIELD_INVALID"}]}"#,
    ),
    (
        r#"{"insertMany":{"documents":[{}"#,
        ",{}",
        99,
        "]}}",
        "insertMany",
    ),
    (
        r#"{"insertMany":{"documents":[{"_id":1}"#,
        ",{}",
        98,
        r#",{"_id":true,"a b":1}]}}"#,
        r#"{"errors":[{"message":"Member name is not allowed: a b","errorCode":"SHRED_DOC_KEY_NAME_VIOLATION"}]}"#,
    ),
    (
        r#"{"findOneAndReplace":{"replacement":{"l":[0"#,
        ",1",
        1000,
        "]}}}",
        "findOneAndReplace",
    ),
];

// Documents of 124 texts of 7,998 letters and one of so many: what stands before the list, so many, and what they give. One
// without `_id` has 45 bytes more.
const LARGE_ROWS: [(&str, usize, &str); 5] = [
    (r#"{"l":["#, 7821, "insertOne"),
    (
        r#"{"l":["#,
        7822,
        r#"{"errors":[{"message":"Document limit 1 is 1000000, found 1000001","errorCode":"SHRED_DOC_LIMIT_VIOLATION"}]}"#,
    ),
    (r#"{"_id":1,"l":["#, 7822, "insertOne"),
    (r#"{"_id":1,"l":["#, 7858, "insertOne"),
    (
        r#"{"_id":1,"l":["#,
        7859,
        r#"{"errors":[{"message":"Document limit 1 is 1000000, found 1000001","errorCode":"SHRED_DOC_LIMIT_VIOLATION"}]}"#,
    ),
];

fn place_of(alloc: Global, path: &str) -> Result<Place, Fail> {
    match path.split_once('/') {
        Some((keyspace, collection)) => Ok(Place {
            keyspace: Text::of_str(alloc, keyspace)?,
            collection: Some(Text::of_str(alloc, collection)?),
        }),
        None => Ok(Place {
            keyspace: Text::of_str(alloc, path)?,
            collection: None,
        }),
    }
}

fn request_of(alloc: Global, path: &str, body: &str) -> Result<Request, Fail> {
    Ok(Request {
        place: place_of(alloc, path)?,
        body: body.as_bytes().to_vec(alloc)?,
    })
}

fn refused_text(alloc: Global, code: Code, message: Text) -> Result<Vec<u8>, Fail> {
    let reply = refusal(alloc, ErrorItem { code, message })?;
    let mut out = Vec::new(alloc);
    print_reply(alloc, &reply, &mut out)?;
    Ok(out)
}

// The name of the command that was read, or the text of the reply that refuses.
fn text_of(alloc: Global, read: Result<Command, CommandFault>) -> Result<Vec<u8>, Fail> {
    match read {
        Ok(Command::InsertOne { .. }) => Ok(b"insertOne".to_vec(alloc)?),
        Ok(Command::InsertMany { .. }) => Ok(b"insertMany".to_vec(alloc)?),
        Ok(Command::FindOne { .. }) => Ok(b"findOne".to_vec(alloc)?),
        Ok(Command::Find { .. }) => Ok(b"find".to_vec(alloc)?),
        Ok(Command::CountDocuments { .. }) => Ok(b"countDocuments".to_vec(alloc)?),
        Ok(Command::UpdateOne { .. }) => Ok(b"updateOne".to_vec(alloc)?),
        Ok(Command::UpdateMany { .. }) => Ok(b"updateMany".to_vec(alloc)?),
        Ok(Command::DeleteOne { .. }) => Ok(b"deleteOne".to_vec(alloc)?),
        Ok(Command::DeleteMany { .. }) => Ok(b"deleteMany".to_vec(alloc)?),
        Ok(Command::FindOneAndUpdate { .. }) => Ok(b"findOneAndUpdate".to_vec(alloc)?),
        Ok(Command::FindOneAndReplace { .. }) => Ok(b"findOneAndReplace".to_vec(alloc)?),
        Ok(Command::FindOneAndDelete { .. }) => Ok(b"findOneAndDelete".to_vec(alloc)?),
        Ok(Command::CreateCollection { .. }) => Ok(b"createCollection".to_vec(alloc)?),
        Ok(Command::FindCollections) => Ok(b"findCollections".to_vec(alloc)?),
        Ok(Command::DeleteCollection { .. }) => Ok(b"deleteCollection".to_vec(alloc)?),
        Err(CommandFault::Refused { code, message }) => refused_text(alloc, code, message),
        Err(CommandFault::NoMemory) => Ok(b"no memory".to_vec(alloc)?),
    }
}

fn answer(alloc: Global, path: &str, body: &str) -> Result<Vec<u8>, Fail> {
    let request = request_of(alloc, path, body)?;
    text_of(alloc, read_request(alloc, "ks", &request))
}

fn repeated(
    alloc: Global,
    before: &str,
    piece: &str,
    count: usize,
    behind: &str,
) -> Result<String, Fail> {
    let mut body = String::from_str(alloc, before)?;
    for _ in 0..count {
        body.push_str(piece)?;
    }
    body.push_str(behind)?;
    Ok(body)
}

// Whether a row is answered so.
fn row_holds(alloc: Global, row: &str) -> Result<bool, Fail> {
    let Some((path, rest)) = row.split_once(' ') else {
        return Ok(false);
    };
    let Some((body, text)) = rest.split_once(" => ") else {
        return Ok(false);
    };
    let given = answer(alloc, path, body)?;
    Ok(given.as_slice() == text.as_bytes())
}

#[test]
fn requests_are_read_or_refused(rt: HostRuntime) -> Result<(), Fail> {
    let alloc = rt.alloc();
    for rows in [
        rows::ROWS,
        paging::ROWS,
        many::ROWS,
        inserting::ROWS,
        changing::ROWS,
        collections::ROWS,
    ] {
        for row in rows.split('\n') {
            assert!(rt; row_holds(alloc, row)?, "{row}");
        }
    }
    Ok(())
}

#[test]
fn long_requests_are_read_or_refused(rt: HostRuntime) -> Result<(), Fail> {
    let alloc = rt.alloc();
    for (before, piece, count, behind, text) in LONG_ROWS.iter() {
        let body = repeated(alloc, before, piece, *count, behind)?;
        let given = answer(alloc, "ks/c", body.as_str())?;
        assert!(rt; given.as_slice() == text.as_bytes(), "{text}");
    }
    Ok(())
}

#[test]
fn documents_are_measured_under_an_id(rt: HostRuntime) -> Result<(), Fail> {
    let alloc = rt.alloc();
    let piece = repeated(alloc, "\"", "x", 7998, "\",")?;
    for (before, rest, text) in LARGE_ROWS.iter() {
        let before = format!(in alloc; "{{\"insertOne\":{{\"document\":{before}")?;
        let behind = repeated(alloc, "\"", "y", *rest, "\"]}}}")?;
        let body = repeated(alloc, before.as_str(), piece.as_str(), 124, behind.as_str())?;
        let given = answer(alloc, "ks/c", body.as_str())?;
        assert!(rt; given.as_slice() == text.as_bytes(), "{text}");
    }
    Ok(())
}

// Bodies that are lent are read as those that are handed over, and stay.
#[test]
fn lent_values_stay(rt: HostRuntime) -> Result<(), Fail> {
    let alloc = rt.alloc();
    let place = place_of(alloc, "ks/c")?;
    let bodies = [
        r#"{"insertOne":{"document":{"_id":"a"}}}"#,
        r#"{"insertMany":{"documents":[{},{"_id":"a"}]}}"#,
        r#"{"findOneAndReplace":{"replacement":{"_id":"a"}}}"#,
    ];
    for body in bodies {
        let value = read_value(alloc, body.as_bytes())?;
        let first = text_of(alloc, read_command(alloc, &place, "ks", &value))?;
        let second = text_of(alloc, take_command(alloc, &place, "ks", value))?;
        assert!(rt; first.as_slice() == second.as_slice());
    }
    Ok(())
}
