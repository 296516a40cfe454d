//! The top call on streams in memory: a table of calls, each with what it writes.
mod changes;
mod collections;
mod generated;
mod ones;
mod pages;
mod puts;
mod refusals;
mod rows;
mod searches;

use self::changes::{CHANGED, CHANGES, MANY};
use self::collections::COLLECTIONS;
use self::generated::GENERATED;
use self::ones::ONES;
use self::pages::{OPTIONS, PAGES, STATES};
use self::puts::{INSERTIONS, UPSERTS};
use self::refusals::REFUSALS;
use self::rows::{DELETIONS, REQUESTS, RETURNS, STREAMS, UPDATES, WORDS};
use self::searches::{FAULTS, FIRSTS, ORDER, REFUSED, SORTABLE, SORTED, SORTS, UNSORTABLE, VIEWS};
use crate::seed::seed_from;
use crate::top::{dapi, refuse_seed};
use keeper_mem::MemKeeper;
use outside_io::{ListClock, MemSink, MemSource};
use std::alloc::{AllocError, Global};
use std::fmt::Write;
use std::io::{Error, ErrorKind, Result as IoResult};
use std::random::RandomSource;
use std::test::Fail;

// The reads of a row that sets none give so many bytes at most. A line of an insertion of `a` has 48.
const PIECES: [u64; 9] = [1, 7, 47, 48, 49, 96, 144, 1000, 100_000];

// How the objects of a call behave: the most bytes of a read, the read, the write and the keeper's call that fail, the bytes
// that the sink takes, and the number of the keeper's last write.
#[derive(Clone, Copy)]
struct Settings {
    piece: u64,
    read: u64,
    write: u64,
    room: u64,
    keeper: u64,
    last: u64,
}

// A call, and what it has to write.
#[derive(Clone, Copy)]
struct Row<'a> {
    words: &'a str,
    settings: Settings,
    input: &'a str,
    answer: &'a str,
}

fn set(settings: &mut Settings, name: &str, value: u64) {
    match name {
        "piece" => settings.piece = value,
        "read" => settings.read = value,
        "write" => settings.write = value,
        "room" => settings.room = value,
        "keeper" => settings.keeper = value,
        _ => settings.last = value,
    }
}

fn settings_of(text: &str) -> Settings {
    let mut settings = Settings {
        piece: 0,
        read: 0,
        write: 0,
        room: 1_000_000,
        keeper: 0,
        last: 0,
    };
    for setting in text.split(' ') {
        if let Some((name, value)) = setting.split_once('=') {
            set(&mut settings, name, value.parse::<u64>().unwrap_or(0));
        }
    }
    settings
}

fn row_of(text: &str) -> Row<'_> {
    let (call, answer) = text.split_once("\n=> ").unwrap_or((text, ""));
    let (head, input) = call.split_once('\n').unwrap_or((call, ""));
    let (words, settings) = head.split_once(" | ").unwrap_or((head, ""));
    Row {
        words,
        settings: settings_of(settings),
        input,
        answer,
    }
}

fn words_of(alloc: Global, text: &str) -> Result<Vec<String>, AllocError> {
    let mut words = Vec::new(alloc);
    for word in text.split_ascii_whitespace() {
        words.push(String::from_str(alloc, word)?)?;
    }
    Ok(words)
}

fn keeper_of(alloc: Global, settings: Settings) -> Result<MemKeeper, AllocError> {
    let fails = Vec::from_array(alloc, [settings.keeper])?;
    let last = settings.last.min(9_223_372_036_854_775_806);
    Ok(MemKeeper::new(alloc, fails, last))
}

// Makes a row's call over a keeper, and tells whether it writes what it has to.
fn is_answered(
    alloc: Global,
    row: Row<'_>,
    piece: u64,
    keeper: MemKeeper,
) -> Result<(bool, MemKeeper), Fail> {
    let words = words_of(alloc, row.words)?;
    let input = row.input.as_bytes().to_vec(alloc)?;
    let reads_fail = Vec::from_array(alloc, [row.settings.read])?;
    let writes_fail = Vec::from_array(alloc, [row.settings.write])?;
    let mut source = MemSource::new(input, piece.max(1) as usize, reads_fail);
    let mut sink = MemSink::new(alloc, row.settings.room as usize, writes_fail)?;
    let mut notes = MemSink::new(alloc, 100, Vec::new(alloc))?;
    let mut clock = ListClock::new(Vec::from_array(alloc, [1_700_000_000_001])?);
    let words = words.as_slice();
    let (status, keeper) = dapi(
        alloc,
        words,
        &mut source,
        &mut sink,
        &mut notes,
        keeper,
        &mut clock,
        &[0; 28],
    );
    let mut written = format!(in alloc; "{status}\n")?.into_bytes();
    written.extend_from_slice(notes.bytes())?;
    written.extend_from_slice(sink.bytes())?;
    Ok((written.as_slice() == row.answer.as_bytes(), keeper))
}

// Makes a row's call over new keepers, with each of the pieces where it sets none.
fn is_answered_in_pieces(alloc: Global, row: Row<'_>) -> Result<bool, Fail> {
    for piece in PIECES {
        let piece = if row.settings.piece == 0 {
            piece
        } else {
            row.settings.piece
        };
        let keeper = keeper_of(alloc, row.settings)?;
        if !is_answered(alloc, row, piece, keeper)?.0 {
            return Ok(false);
        }
    }
    Ok(true)
}

// The first row that isn't answered so.
fn first_wrong<'a>(alloc: Global, rows: &'a str) -> Result<&'a str, Fail> {
    for text in rows.split("---\n") {
        if text.is_empty() {
            continue;
        }
        if !is_answered_in_pieces(alloc, row_of(text))? {
            return Ok(text);
        }
    }
    Ok("")
}

// The first row that isn't answered so where its input comes in pieces of this size.
fn first_wrong_in<'a>(alloc: Global, rows: &'a str, piece: u64) -> Result<&'a str, Fail> {
    for text in rows.split("---\n") {
        if text.is_empty() {
            continue;
        }
        let row = row_of(text);
        let keeper = keeper_of(alloc, row.settings)?;
        if !is_answered(alloc, row, piece, keeper)?.0 {
            return Ok(text);
        }
    }
    Ok("")
}

#[test]
fn searches_show_what_they_have_to(rt: HostRuntime) -> Result<(), Fail> {
    for rows in [PAGES, STATES, OPTIONS, SORTS, FIRSTS, VIEWS, FAULTS, ORDER] {
        assert_eq!(rt; first_wrong_in(rt.alloc(), rows, 1000)?, "");
    }
    Ok(())
}

#[test]
fn commands_do_what_they_have_to(rt: HostRuntime) -> Result<(), Fail> {
    for rows in [REFUSALS, INSERTIONS, UPSERTS, ONES, COLLECTIONS, GENERATED] {
        assert_eq!(rt; first_wrong_in(rt.alloc(), rows, 1000)?, "");
    }
    Ok(())
}

#[test]
fn calls_write_what_they_have_to(rt: HostRuntime) -> Result<(), Fail> {
    for rows in [REQUESTS, UPDATES, DELETIONS, MANY, WORDS, STREAMS, RETURNS] {
        assert_eq!(rt; first_wrong(rt.alloc(), rows)?, "");
    }
    Ok(())
}

// Insertions of documents whose ids and members `k` are the numbers from one up to another, or the replies to them.
fn add_insertions(text: &mut String, from: u32, to: u32, are_replies: bool) -> Result<(), Fail> {
    for i in from..to {
        if are_replies {
            write!(text, "{{\"status\":{{\"insertedIds\":[{i}]}}}}\n")?;
        } else {
            write!(
                text,
                "/v1/ks/c {{\"insertOne\":{{\"document\":{{\"_id\":{i},\"k\":{i}}}}}}}\n"
            )?;
        }
    }
    Ok(())
}

const COUNTS: &str = r#"/v1/ks/c {"countDocuments":{}}
/v1/ks/c {"countDocuments":{"filter":{"k":{"$gte":64}}}}
/v1/ks/c {"countDocuments":{"filter":{"k":{"$lt":65}}}}
/v1/ks/c {"countDocuments":{"filter":{"k":{"$in":[0,63,64,65,127,128,999]}}}}
/v1/ks/c {"findOne":{"filter":{"k":{"$gt":63}}}}
/v1/ks/c {"findOne":{"filter":{"k":999}}}
/v1/ks/c {"findOne":{"filter":{"k":{"$gt":999}}}}
/v1/ks/c {"find":{"filter":{"k":{"$gte":60}},"projection":{"_id":1}}}
/v1/ks/c {"find":{"filter":{"k":{"$in":[0,63,64,128,999]}},"options":{"limit":7}}}
/v1/ks/c {"find":{"filter":{"k":{"$gte":999}}}}
/v1/ks/c {"find":{"filter":{"k":{"$ne":998}},"options":{"pageState":"AQAAAAAAAAAUAoAAAAAAAAA18GYcQ5msAAA="}}}
/v1/ks/c {"find":{"sort":{"k":-1},"options":{"skip":480,"limit":2}}}
/v1/ks/c {"find":{"filter":{"k":{"$lt":100}},"sort":{"k":-1},"options":{"skip":63,"limit":2}}}
"#;

const COUNTED: &str = r#"{"status":{"count":1000}}
{"status":{"count":936}}
{"status":{"count":65}}
{"status":{"count":7}}
{"data":{"document":{"_id":64,"k":64}}}
{"data":{"document":{"_id":999,"k":999}}}
{"data":{"document":null}}
{"data":{"documents":[{"_id":60},{"_id":61},{"_id":62},{"_id":63},{"_id":64},{"_id":65},{"_id":66},{"_id":67},{"_id":68},{"_id":69},{"_id":70},{"_id":71},{"_id":72},{"_id":73},{"_id":74},{"_id":75},{"_id":76},{"_id":77},{"_id":78},{"_id":79}],"nextPageState":"AQAAAAAAAAAUAoAAAAAAAAAESFhhcKfcAAA="}}
{"data":{"documents":[{"_id":0,"k":0},{"_id":63,"k":63},{"_id":64,"k":64},{"_id":128,"k":128},{"_id":999,"k":999}],"nextPageState":null}}
{"data":{"documents":[{"_id":999,"k":999}],"nextPageState":null}}
{"data":{"documents":[{"_id":996,"k":996},{"_id":997,"k":997},{"_id":999,"k":999}],"nextPageState":null}}
{"data":{"documents":[{"_id":519,"k":519},{"_id":518,"k":518}],"nextPageState":null}}
{"data":{"documents":[{"_id":36,"k":36},{"_id":35,"k":35}],"nextPageState":null}}
"#;

const MORE: &str = r#"/v1/ks/c {"countDocuments":{}}
/v1/ks/c {"countDocuments":{"filter":{"k":{"$gt":0}}}}
/v1/ks/c {"countDocuments":{"filter":{"k":{"$ne":-1}}}}
"#;

const COUNTED_MORE: &str = r#"{"status":{"count":1000,"moreData":true}}
{"status":{"count":1000}}
{"status":{"count":1000,"moreData":true}}
"#;

// These insertions, each list with the lines behind it.
fn add_lists(
    text: &mut String,
    lists: [(u32, u32, &str); 2],
    are_replies: bool,
) -> Result<(), Fail> {
    for (from, to, lines) in lists {
        add_insertions(text, from, to, are_replies)?;
        text.push_str(lines)?;
    }
    Ok(())
}

// The first row that isn't answered so, all over one keeper.
fn first_wrong_over<'a>(alloc: Global, keeper: MemKeeper, rows: &'a str) -> Result<&'a str, Fail> {
    let mut keeper = keeper;
    for text in rows.split("---\n") {
        if text.is_empty() {
            continue;
        }
        let row = row_of(text);
        let (is_right, kept) = is_answered(alloc, row, row.settings.piece, keeper)?;
        keeper = kept;
        if !is_right {
            return Ok(text);
        }
    }
    Ok("")
}

// One row: a thousand documents are counted, and one more.
fn many_counted(alloc: Global) -> Result<String, Fail> {
    let mut text = String::from_str(alloc, "run --collection=c | piece=4096\n")?;
    add_lists(&mut text, [(0, 1000, COUNTS), (1000, 1001, MORE)], false)?;
    text.push_str("\n=> 0\n")?;
    add_lists(
        &mut text,
        [(0, 1000, COUNTED), (1000, 1001, COUNTED_MORE)],
        true,
    )?;
    Ok(text)
}

// One row: ten thousand documents are sorted, and one more aren't.
fn many_to_sort(alloc: Global) -> Result<String, Fail> {
    let mut text = String::from_str(alloc, "run --collection=c | piece=4096\n")?;
    add_lists(
        &mut text,
        [(0, 10_000, SORTABLE), (10_000, 10_001, UNSORTABLE)],
        false,
    )?;
    text.push_str("\n=> 0\n")?;
    add_lists(
        &mut text,
        [(0, 10_000, SORTED), (10_000, 10_001, REFUSED)],
        true,
    )?;
    Ok(text)
}

// One row: documents of several pages of the store are updated and deleted.
fn many_changed(alloc: Global) -> Result<String, Fail> {
    let mut text = String::from_str(alloc, "run --collection=c | piece=4096\n")?;
    add_lists(&mut text, [(0, 130, CHANGES), (0, 0, "")], false)?;
    text.push_str("\n=> 0\n")?;
    add_lists(&mut text, [(0, 130, CHANGED), (0, 0, "")], true)?;
    Ok(text)
}

// A row that names so many collections, and its answer.
fn add_collections(text: &mut String, count: u32, answer: &str) -> Result<(), Fail> {
    text.push_str("run")?;
    for i in 0..count {
        write!(text, " --collection=n{i}")?;
    }
    write!(text, "\n=> {answer}---\n")?;
    Ok(())
}

// Rows over one keeper: 100 collections live, and no more, and a call names no more.
fn many_collections(alloc: Global) -> Result<String, Fail> {
    let mut text = String::from_str(alloc, "run --collection=c\n=> 0\n---\n")?;
    add_collections(&mut text, 99, "0\n")?;
    add_collections(&mut text, 100, "4\ntoo many collections\n")?;
    add_collections(&mut text, 99, "0\n")?;
    add_collections(
        &mut text,
        101,
        "1\nusage: dapi run|mix|gen N SEED|check|serve --listen=A [options]\n",
    )?;
    Ok(text)
}

// An insertion of a document of so many members behind what stands in front.
fn add_wide(text: &mut String, front: &str, count: u32) -> Result<(), Fail> {
    text.push_str("/v1/ks/c {\"insertOne\":{\"document\":{")?;
    text.push_str(front)?;
    text.push_str("\"m0\":0")?;
    for i in 1..count {
        write!(text, ",\"m{i}\":0")?;
    }
    text.push_str("}}}\n")?;
    Ok(())
}

const WIDE: &str = r#"/v1/ks/c {"countDocuments":{}}
=> 0
{"status":{"insertedIds":[1]}}
{"errors":[{"message":"Document limit 6 is 1000, found 1001","errorCode":"SHRED_DOC_LIMIT_VIOLATION"}]}
{"status":{"insertedIds":["ef3fdfd6-c615-48fb-b5cf-35bd3dd33b80"]}}
{"errors":[{"message":"Document limit 6 is 1000, found 1001","errorCode":"SHRED_DOC_LIMIT_VIOLATION"}]}
{"status":{"count":2}}
"#;

// One row: an id counts among the members of a document, one that is to be generated too.
fn wide_documents(alloc: Global) -> Result<String, Fail> {
    let mut text = String::from_str(alloc, "run --collection=c | piece=4096\n")?;
    add_wide(&mut text, "\"_id\":1,", 999)?;
    add_wide(&mut text, "\"_id\":2,", 1000)?;
    add_wide(&mut text, "", 999)?;
    add_wide(&mut text, "", 1000)?;
    text.push_str(WIDE)?;
    Ok(text)
}

// One row: a body that is too long, behind a line that is answered. The read behind the one that shows it would fail.
fn long_body(alloc: Global) -> Result<String, Fail> {
    let mut text = String::from_str(alloc, "run --collection=c | piece=60000 read=335\n")?;
    text.push_str("/v1/ks/c {\"insertOne\":{\"document\":{\"_id\":\"a\"}}}\n/v1/ks/c ")?;
    let body = vec![in alloc; b' '; 20_100_000]?;
    text.push_str(str::from_utf8(body.as_slice()).unwrap_or(""))?;
    text.push_str("\n=> 6\nline 2 is not a request\n{\"status\":{\"insertedIds\":[\"a\"]}}\n")?;
    Ok(text)
}

#[test]
fn many_are_changed_on_several_pages(rt: HostRuntime) -> Result<(), Fail> {
    let alloc = rt.alloc();
    let keeper = MemKeeper::new(alloc, Vec::new(alloc), 0);
    let text = many_changed(alloc)?;
    assert_eq!(rt; first_wrong_over(alloc, keeper, text.as_str())?, "");
    Ok(())
}

#[test]
fn ids_count_among_members(rt: HostRuntime) -> Result<(), Fail> {
    let alloc = rt.alloc();
    let keeper = MemKeeper::new(alloc, Vec::new(alloc), 0);
    let text = wide_documents(alloc)?;
    assert_eq!(rt; first_wrong_over(alloc, keeper, text.as_str())?, "");
    Ok(())
}

#[test]
fn bounds_are_kept(rt: HostRuntime) -> Result<(), Fail> {
    let alloc = rt.alloc();
    for text in [
        many_counted(alloc)?,
        many_collections(alloc)?,
        long_body(alloc)?,
    ] {
        let keeper = MemKeeper::new(alloc, Vec::new(alloc), 0);
        assert_eq!(rt; first_wrong_over(alloc, keeper, text.as_str())?, "");
    }
    Ok(())
}

#[test]
fn many_sorted(rt: HostRuntime) -> Result<(), Fail> {
    let alloc = rt.alloc();
    let text = many_to_sort(alloc)?;
    let keeper = MemKeeper::new(alloc, Vec::new(alloc), 0);
    assert_eq!(rt; first_wrong_over(alloc, keeper, text.as_str())?, "");
    Ok(())
}

// Random bytes that count up from one.
struct Counting;

impl RandomSource for Counting {
    fn fill_bytes(&self, buf: &mut [u8]) -> IoResult<()> {
        let mut count = 0u8;
        for byte in buf {
            count = count.wrapping_add(1);
            *byte = count;
        }
        Ok(())
    }
}

// A system that gives no random bytes.
struct Refusing;

impl RandomSource for Refusing {
    fn fill_bytes(&self, _buf: &mut [u8]) -> IoResult<()> {
        Err(Error::from(ErrorKind::Other))
    }
}

#[test]
fn a_seed_is_what_the_system_gives(rt: HostRuntime) -> Result<(), Fail> {
    let alloc = rt.alloc();
    match seed_from(&Counting) {
        Ok(seed) => {
            assert_eq!(rt; seed[0], 1);
            assert_eq!(rt; seed[1], 2);
            assert_eq!(rt; seed[27], 28);
        }
        Err(_) => assert!(rt; false),
    }
    assert!(rt; seed_from(&Refusing).is_err());
    let mut notes = MemSink::new(alloc, 100, Vec::new(alloc))?;
    assert_eq!(rt; refuse_seed(&mut notes), 11);
    assert_eq!(rt; notes.bytes(), b"random fault\n".as_slice());
    Ok(())
}
