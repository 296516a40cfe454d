// Requests over a keeper in memory, step by step: their replies, and what they saw and did.
ghost use Rattle.std.specs.Prelude.{◌≡◌, ◌≢◌, ◌<◌, ◌-◌, ◌^◌, ◌++◌, List, [], Option, IfOk, IfSome};
ghost use Rattle.store_core.specs.State.{State as Base};
ghost use Rattle.store_core.specs.Counts.{opened_in, AllBy};
ghost use Rattle.store_core.specs.Store.{SameBase};
ghost use Rattle.store_core.specs.declared.entry.Entry.{Entry as Journaled};
ghost use Rattle.cmd_tasks.specs.Stands.{StandsOn};
ghost use Rattle.cmd_grammar.specs.Commands.{command_tree, IsAskable};

mod many;

use cmd_grammar::{Command, read_request};
use cmd_tasks::{Ids, Item, Next, Served, Task, Trace, others_may_append, serve};
use doc_paths::CollName;
use json_tree::Text;
use keeper_mem::MemKeeper;
use reply_env::{Place, Reply, Request, print_reply};
use std::alloc::Global;
use std::test::Fail;
use store_core::{OpenFault, Store};

// The command that a body spells, if it is one.
fn command_of(alloc: Global, body: &str) -> Result<Option<Command>, Fail>
    ensures { IfOk result (λ r. IfSome r (λ c. IsAskable (command_tree c))) }
{
    let request = Request {
        place: Place {
            keyspace: Text::of_str(alloc, "ks")?,
            collection: Some(Text::of_str(alloc, "c")?),
        },
        body: body.as_bytes().to_vec(alloc)?,
    };
    match read_request(alloc, "ks", &request) {
        Ok(command) => Ok(Some(command)),
        Err(_) => Ok(None),
    }
}

// A store with the collection `c`, over a keeper of which one call fails, and whose last number is this one.
fn opened(alloc: Global, fails: u64, last: u64) -> Result<Option<Store<MemKeeper>>, Fail>
    requires { last < 2 ^ 63 - 1 }
{
    let names = [CollName::read(alloc, "c")?];
    let keeper = MemKeeper::new(alloc, Vec::from_array(alloc, [fails])?, last);
    match Store::open(alloc, keeper, &names) {
        Ok(store) => Ok(Some(store)),
        Err(
            OpenFault::KeeperFault {
                keeper: _keeper,
                before: _before,
                after: _after,
            },
        ) => Ok(None),
        Err(OpenFault::TooMany { keeper: _keeper }) => Ok(None),
        Err(OpenFault::NoMemory { keeper: _keeper }) => Ok(None),
    }
}

// What an item tells, and its point.
fn tells(item: &Item) -> (&'static str, u64) {
    match item {
        Item::Looked { at, .. } => ("looked", *at),
        Item::Wrote { at } => ("wrote", *at),
        Item::Lost { at, .. } => ("lost", *at),
        Item::Faulted { at, .. } => ("faulted", *at),
    }
}

// What a request saw and did, item by item with their points.
fn items_of(alloc: Global, trace: &Trace) -> Result<String, Fail> {
    let mut tale = String::new(alloc);
    for place in 0..trace.len() {
        if let Some(item) = trace.item(place) {
            let (word, at) = tells(item);
            tale.push_str(&format!(in alloc; "{word} {at} ")?)?;
        }
    }
    Ok(tale)
}

// The text of a reply.
fn text_of(alloc: Global, reply: &Reply) -> Result<Vec<u8>, Fail> {
    let mut text = Vec::new(alloc);
    print_reply(alloc, reply, &mut text)?;
    Ok(text)
}

// What it saw and did, and then its reply.
fn tale(alloc: Global, served: &Served) -> Result<String, Fail> {
    let mut tale = items_of(alloc, &served.trace)?;
    tale.push_str(str::from_utf8(text_of(alloc, &served.reply)?.as_slice()).unwrap_or("?"))?;
    Ok(tale)
}

// The task of a command on a collection.
fn task_of(alloc: Global, session: u64, coll: CollName, command: Command) -> Task
    requires asked { IsAskable (command_tree command) }
    ensures session { result.session ≡ session }
    ensures empty { result.trace.items.items ≡ [] }
    ensures stands { (start : Option Base) (history : List Journaled) → StandsOn start history result }
{
    let mut ids = Ids::new(&[7; 28], 1, session);
    Task::new(alloc, session, Some(coll), 0, command, &mut ids)
}

// A request is served whose session was opened.
fn served(
    alloc: Global,
    store: &mut Store<MemKeeper>,
    session: u64,
    coll: CollName,
    command: Command,
) -> Served
    requires known { session < opened_in store.old.journal }
    requires asked { IsAskable (command_tree command) }
    ensures grown { (more : List Journaled) × (store.new.journal ≡ store.old.journal ++ more) × AllBy session more }
    ensures base { SameBase store.old store.new }
{
    serve(alloc, store, task_of(alloc, session, coll, command))
}

// A body is served, if it spells a command.
fn run(
    alloc: Global,
    store: &mut Store<MemKeeper>,
    session: u64,
    name: &str,
    body: &str,
) -> Result<Option<Served>, Fail>
    requires known { session < opened_in store.old.journal }
    ensures grown { (more : List Journaled) × (store.new.journal ≡ store.old.journal ++ more) × AllBy session more }
    ensures base { SameBase store.old store.new }
{
    let coll = CollName::read(alloc, name)?;
    match command_of(alloc, body)? {
        Some(command) => Ok(Some(served(alloc, store, session, coll, command))),
        None => Ok(None),
    }
}

// The same under a new session.
fn asked(
    alloc: Global,
    store: &mut Store<MemKeeper>,
    name: &str,
    body: &str,
) -> Result<Option<Served>, Fail> {
    match store.open_session(alloc) {
        Ok(session) => run(alloc, store, session, name, body),
        Err(_) => Ok(None),
    }
}

// The tale of it.
fn told(
    alloc: Global,
    store: &mut Store<MemKeeper>,
    name: &str,
    body: &str,
) -> Result<String, Fail> {
    match asked(alloc, store, name, body)? {
        Some(served) => tale(alloc, &served),
        None => Ok(String::new(alloc)),
    }
}

// A collection, a body, and the tale.
type Row = (&'static str, &'static str, &'static str);

// The place of the first row that isn't answered so, one behind the other on one store.
fn first_wrong(
    alloc: Global,
    store: &mut Store<MemKeeper>,
    rows: &[Row],
) -> Result<Option<usize>, Fail> {
    for i in 0..rows.len() {
        if told(alloc, store, rows[i].0, rows[i].1)?.as_str() != rows[i].2 {
            return Ok(Some(i));
        }
    }
    Ok(None)
}

// The fifth call of the keeper fails: the first lists, the second makes the collection.
const ROWS: [Row; 14] = [
    (
        "c",
        r#"{"insertOne":{"document":{"_id":"a","n":1}}}"#,
        r#"wrote 1 {"status":{"insertedIds":["a"]}}"#,
    ),
    (
        "c",
        r#"{"insertOne":{"document":{"_id":"a"}}}"#,
        r#"lost 3 {"errors":[{"message":"Document \"a\" already exists at version 1","errorCode":"DOCUMENT_ALREADY_EXISTS"}]}"#,
    ),
    (
        "c",
        r#"{"findOne":{}}"#,
        r#"faulted 4 {"errors":[{"message":"Store fault: 0 then 1","errorCode":"STORE_FAULT"}]}"#,
    ),
    (
        "c",
        r#"{"findOne":{"filter":{"n":1}}}"#,
        r#"looked 6 {"data":{"document":{"_id":"a","n":1}}}"#,
    ),
    (
        "c",
        r#"{"countDocuments":{"filter":{"n":2}}}"#,
        r#"looked 7 {"status":{"count":0}}"#,
    ),
    (
        "zz",
        r#"{"insertOne":{"document":{"_id":"a"}}}"#,
        r#"looked 8 {"errors":[{"message":"Collection zz does not exist","errorCode":"COLLECTION_NOT_EXIST"}]}"#,
    ),
    (
        "c",
        r#"{"updateOne":{"filter":{"n":2},"update":{"$set":{"n":3}}}}"#,
        r#"looked 9 {"status":{"matchedCount":0,"modifiedCount":0}}"#,
    ),
    (
        "c",
        r#"{"updateOne":{"filter":{"n":1},"update":{"$set":{"n":1}}}}"#,
        r#"looked 10 {"status":{"matchedCount":1,"modifiedCount":0}}"#,
    ),
    (
        "c",
        r#"{"updateOne":{"filter":{"n":1},"update":{"$push":{"n":1}}}}"#,
        r#"looked 11 {"errors":[{"message":"Update target is of the wrong kind at n","errorCode":"UNSUPPORTED_UPDATE_OPERATION_TARGET"}]}"#,
    ),
    (
        "c",
        r#"{"insertOne":{"document":{"_id":"b","n":0,"s":"x"}}}"#,
        r#"wrote 12 {"status":{"insertedIds":["b"]}}"#,
    ),
    (
        "c",
        r#"{"findOne":{"sort":{"n":1},"projection":{"s":1}}}"#,
        r#"looked 14 {"data":{"document":{"_id":"b","s":"x"}}}"#,
    ),
    (
        "c",
        r#"{"find":{"filter":{},"sort":{"n":-1},"projection":{"_id":1}}}"#,
        r#"looked 15 {"data":{"documents":[{"_id":"a"},{"_id":"b"}],"nextPageState":null}}"#,
    ),
    (
        "c",
        r#"{"find":{"sort":{"n":1},"projection":{"_id":1},"options":{"skip":1}}}"#,
        r#"looked 16 {"data":{"documents":[{"_id":"a"}],"nextPageState":null}}"#,
    ),
    (
        "c",
        r#"{"find":{"projection":{"_id":1},"options":{"limit":1}}}"#,
        r#"looked 17 {"data":{"documents":[{"_id":"a"}],"nextPageState":null}}"#,
    ),
];

#[test]
fn requests_see_and_do_what_they_say(rt: HostRuntime) -> Result<(), Fail> {
    let alloc = rt.alloc();
    let Some(mut store) = opened(alloc, 5, 0)? else {
        panic!(rt; "not opened");
    };
    let wrong = first_wrong(alloc, &mut store, &ROWS);
    let _keeper = store.into_keeper();
    assert_eq!(rt; wrong?, None);
    Ok(())
}

// The numbers that a look shows.
fn add_numbers(alloc: Global, numbers: &mut String, item: &Item) -> Result<(), Fail> {
    if let Item::Looked { shown, .. } = item {
        for place in 0..shown.len() {
            let number = shown[place].1;
            numbers.push_str(&format!(in alloc; "{number} ")?)?;
        }
    }
    Ok(())
}

// The numbers that the looks of a request show, if it is one.
fn numbers_in(alloc: Global, store: &mut Store<MemKeeper>, body: &str) -> Result<String, Fail> {
    let mut numbers = String::new(alloc);
    let Some(served) = asked(alloc, store, "c", body)? else {
        return Ok(numbers);
    };
    for place in 0..served.trace.len() {
        if let Some(item) = served.trace.item(place) {
            add_numbers(alloc, &mut numbers, item)?;
        }
    }
    Ok(numbers)
}

// Documents a and b, and the numbers shown behind a write more of each.
fn numbers_told(alloc: Global, store: &mut Store<MemKeeper>) -> Result<String, Fail> {
    told(alloc, store, "c", ROWS[0].1)?;
    told(alloc, store, "c", ROWS[9].1)?;
    told(alloc, store, "c", INCREMENT)?;
    let mut numbers = numbers_in(alloc, store, r#"{"find":{}}"#)?;
    told(
        alloc,
        store,
        "c",
        r#"{"updateMany":{"update":{"$set":{"n":2}}}}"#,
    )?;
    numbers.push_str(numbers_in(
        alloc,
        store,
        r#"{"updateMany":{"update":{"$set":{"n":2}}}}"#,
    )?
    .as_str())?;
    Ok(numbers)
}

#[test]
fn looks_tell_numbers(rt: HostRuntime) -> Result<(), Fail> {
    let alloc = rt.alloc();
    let Some(mut store) = opened(alloc, 99, 0)? else {
        panic!(rt; "not opened");
    };
    let numbers = numbers_told(alloc, &mut store);
    let _keeper = store.into_keeper();
    assert_eq!(rt; numbers?.as_str(), "3 2 3 4 ");
    Ok(())
}

// Where no number is left, a write is told so, also where its collection is gone; a read isn't.
const SPENT: [Row; 3] = [
    (
        "zz",
        r#"{"insertOne":{"document":{"_id":"a"}}}"#,
        r#"looked 1 {"errors":[{"message":"No version numbers are left","errorCode":"VERSIONS_SPENT"}]}"#,
    ),
    (
        "zz",
        r#"{"find":{}}"#,
        r#"looked 2 {"errors":[{"message":"Collection zz does not exist","errorCode":"COLLECTION_NOT_EXIST"}]}"#,
    ),
    (
        "zz",
        r#"{"updateOne":{"filter":{},"update":{"$set":{"n":1}}}}"#,
        r#"looked 3 {"errors":[{"message":"Collection zz does not exist","errorCode":"COLLECTION_NOT_EXIST"}]}"#,
    ),
];

#[test]
fn numbers_end(rt: HostRuntime) -> Result<(), Fail> {
    let alloc = rt.alloc();
    let Some(mut store) = opened(alloc, 99, 9_223_372_036_854_775_806)? else {
        panic!(rt; "not opened");
    };
    let wrong = first_wrong(alloc, &mut store, &SPENT);
    let _keeper = store.into_keeper();
    assert_eq!(rt; wrong?, None);
    Ok(())
}

// ---- a session that writes behind the looks of another one

const INCREMENT: &str = r#"{"updateOne":{"filter":{"_id":"a"},"update":{"$inc":{"n":1}}}}"#;

// One document is updated, where it is to be done now.
fn rewritten_if(
    now: bool,
    alloc: Global,
    store: &mut Store<MemKeeper>,
    session: u64,
) -> Result<bool, Fail>
    requires known { session < opened_in store.old.journal }
    ensures grown { (more : List Journaled) × (store.new.journal ≡ store.old.journal ++ more) × AllBy session more }
    ensures base { SameBase store.old store.new }
{
    if now {
        return Ok(run(alloc, store, session, "c", INCREMENT)?.is_some());
    }
    Ok(false)
}

// The steps of a task, behind whose first looks another session writes, so many times.
fn contended(
    alloc: Global,
    store: &mut Store<MemKeeper>,
    task: Task,
    other: u64,
    times: usize,
) -> Result<Option<Served>, Fail>
    requires known { (task.session < opened_in store.old.journal) × (other < opened_in store.old.journal) }
    requires apart { task.session ≢ other }
    requires stands { StandsOn store.old.start store.old.journal task }
{
    others_may_append();
    let mut task = task;
    'steps: for i in 0..12 {
        match task.step(alloc, store) {
            Next::More => {}
            Next::Done => return Ok(Some(task.into_served())),
        }
        rewritten_if(i % 2 == 0 && i / 2 < times, alloc, store, other)?;
    }
    Ok(None)
}

// A request, how many times another session writes behind its looks, and the tale.
type Race = (&'static str, usize, &'static str);

// The last two: of two documents with one sort key, the first is chosen, changed by another session, and lost; in the
// new round the other one comes first.
const RACES: [Race; 6] = [
    (
        INCREMENT,
        0,
        r#"looked 4 wrote 4 {"status":{"matchedCount":1,"modifiedCount":1}}"#,
    ),
    (
        INCREMENT,
        1,
        r#"looked 7 lost 8 looked 8 wrote 8 {"status":{"matchedCount":1,"modifiedCount":1}}"#,
    ),
    (
        INCREMENT,
        4,
        r#"looked 11 lost 12 looked 12 lost 13 looked 13 lost 14 looked 14 lost 15 {"errors":[{"message":"Lost to other writers: 4>5, 5>6, 6>7, 7>8","errorCode":"CONCURRENCY_FAILURE"}]}"#,
    ),
    (
        r#"{"insertOne":{"document":{"_id":"b","n":8}}}"#,
        0,
        r#"wrote 17 {"status":{"insertedIds":["b"]}}"#,
    ),
    (
        r#"{"updateOne":{"filter":{},"sort":{"n":1},"update":{"$set":{"won":true}}}}"#,
        1,
        r#"looked 20 lost 21 looked 21 wrote 21 {"status":{"matchedCount":1,"modifiedCount":1}}"#,
    ),
    (
        r#"{"findOne":{"filter":{"won":true}}}"#,
        0,
        r#"looked 24 {"data":{"document":{"_id":"b","n":8,"won":true}}}"#,
    ),
];

// A command, behind whose first looks another session writes, so many times.
fn pressed(
    alloc: Global,
    store: &mut Store<MemKeeper>,
    session: u64,
    command: Command,
    coll: CollName,
    other: u64,
    times: usize,
) -> Result<Option<Served>, Fail>
    requires known { (session < opened_in store.old.journal) × (other < opened_in store.old.journal) }
    requires apart { session ≢ other }
    requires asked { IsAskable (command_tree command) }
{
    contended(
        alloc,
        store,
        task_of(alloc, session, coll, command),
        other,
        times,
    )
}

// A request, behind whose first looks another session writes.
fn contested(
    alloc: Global,
    store: &mut Store<MemKeeper>,
    session: u64,
    other: u64,
    race: Race,
) -> Result<Option<Served>, Fail>
    requires known { (session < opened_in store.old.journal) × (other < opened_in store.old.journal) }
    requires apart { session ≢ other }
{
    let coll = CollName::read(alloc, "c")?;
    match command_of(alloc, race.0)? {
        Some(command) => pressed(alloc, store, session, command, coll, other, race.1),
        None => Ok(None),
    }
}

// The same by two sessions that are opened for it.
fn raced(alloc: Global, store: &mut Store<MemKeeper>, race: Race) -> Result<Option<Served>, Fail> {
    let Ok(other) = store.open_session(alloc) else {
        return Ok(None);
    };
    match store.open_session(alloc) {
        Ok(session) => contested(alloc, store, session, other, race),
        Err(_) => Ok(None),
    }
}

// Whether a race ends so.
fn ends_so(alloc: Global, store: &mut Store<MemKeeper>, race: Race) -> Result<bool, Fail> {
    match raced(alloc, store, race)? {
        Some(served) => Ok(tale(alloc, &served)?.as_str() == race.2),
        None => Ok(false),
    }
}

// The place of the first race that doesn't end so, one behind the other on one store.
fn first_lost(
    alloc: Global,
    store: &mut Store<MemKeeper>,
    races: &[Race],
) -> Result<Option<usize>, Fail> {
    for i in 0..races.len() {
        if !ends_so(alloc, store, races[i])? {
            return Ok(Some(i));
        }
    }
    Ok(None)
}

#[test]
fn an_update_is_tried_four_times(rt: HostRuntime) -> Result<(), Fail> {
    let alloc = rt.alloc();
    let Some(mut store) = opened(alloc, 99, 0)? else {
        panic!(rt; "not opened");
    };
    let wrong = match first_wrong(alloc, &mut store, &ROWS[..1]) {
        Ok(None) => first_lost(alloc, &mut store, &RACES),
        found => found,
    };
    let _keeper = store.into_keeper();
    assert_eq!(rt; wrong?, None);
    Ok(())
}

// ---- many documents

// Documents m100, m101 and so on, the sixth of which has the least n.
fn fill(alloc: Global, store: &mut Store<MemKeeper>) -> Result<(), Fail> {
    for i in 100_u64..170 {
        let n = if i < 105 { 105 - i } else { i - 105 };
        let body = format!(in alloc;
            "{{\"insertOne\":{{\"document\":{{\"_id\":\"m{i}\",\"n\":{n}}}}}}}"
        )?;
        told(alloc, store, "c", body.as_str())?;
    }
    Ok(())
}

// The body that asks for the page behind this one.
fn page_behind(alloc: Global, served: &Served) -> Result<String, Fail> {
    match &served.reply {
        Reply::Listed {
            views: _,
            state: Some(state),
        } => {
            let state = state.as_str();
            Ok(format!(in alloc;
                "{{\"find\":{{\"projection\":{{\"_id\":1}},\"options\":{{\"limit\":22,\"pageState\":\"{state}\"}}}}}}"
            )?)
        }
        _ => Ok(String::new(alloc)),
    }
}

// Two pages, between which documents are inserted before the last one that was given, and behind it.
fn second_page(alloc: Global, store: &mut Store<MemKeeper>) -> Result<String, Fail> {
    let first = r#"{"find":{"projection":{"_id":1},"options":{"limit":22}}}"#;
    let body = match asked(alloc, store, "c", first)? {
        Some(served) => page_behind(alloc, &served)?,
        None => String::new(alloc),
    };
    told(
        alloc,
        store,
        "c",
        r#"{"insertOne":{"document":{"_id":"a"}}}"#,
    )?;
    told(
        alloc,
        store,
        "c",
        r#"{"insertOne":{"document":{"_id":"m1195"}}}"#,
    )?;
    told(alloc, store, "c", body.as_str())
}

// The tale of the second page, and those of an update whose sort brings a document of the first of two looks, and of
// the document that it changed.
fn many_told(alloc: Global, store: &mut Store<MemKeeper>) -> Result<String, Fail> {
    fill(alloc, store)?;
    let mut tales = second_page(alloc, store)?;
    let update =
        r#"{"updateOne":{"filter":{"n":{"$gte":0}},"sort":{"n":1},"update":{"$set":{"least":true}}}}"#;
    tales.push_str(told(alloc, store, "c", update)?.as_str())?;
    let changed = r#"{"findOne":{"filter":{"least":true}}}"#;
    tales.push_str(told(alloc, store, "c", changed)?.as_str())?;
    Ok(tales)
}

const TALES: &str =
    r#"looked 146 {"data":{"documents":[{"_id":"m1195"},{"_id":"m120"}],"nextPageState":null}}looked 147 looked 147 wrote 147 {"status":{"matchedCount":1,"modifiedCount":1}}looked 149 {"data":{"document":{"_id":"m105","n":0,"least":true}}}"#;

#[test]
fn pages_and_sorts_over_many_documents(rt: HostRuntime) -> Result<(), Fail> {
    let alloc = rt.alloc();
    let Some(mut store) = opened(alloc, 9_999, 0)? else {
        panic!(rt; "not opened");
    };
    let tales = many_told(alloc, &mut store);
    let _keeper = store.into_keeper();
    assert_eq!(rt; tales?.as_str(), TALES);
    Ok(())
}

// A sort over two looks, between which another session writes: the document of the first look is shown as it was found.
const SEEN: [Race; 2] = [
    (
        r#"{"find":{"sort":{"n":1},"projection":{"n":1},"options":{"limit":2}}}"#,
        1,
        r#"looked 144 looked 145 {"data":{"documents":[{"_id":"a","n":-1},{"_id":"m105","n":0}],"nextPageState":null}}"#,
    ),
    (
        r#"{"findOne":{"filter":{"_id":"a"},"projection":{"n":1}}}"#,
        0,
        r#"looked 147 {"data":{"document":{"_id":"a","n":0}}}"#,
    ),
];

#[test]
fn a_sort_shows_what_its_looks_found(rt: HostRuntime) -> Result<(), Fail> {
    let alloc = rt.alloc();
    let Some(mut store) = opened(alloc, 9_999, 0)? else {
        panic!(rt; "not opened");
    };
    let least = r#"{"insertOne":{"document":{"_id":"a","n":-1}}}"#;
    let wrong = match fill(alloc, &mut store) {
        Ok(()) => match told(alloc, &mut store, "c", least) {
            Ok(_) => first_lost(alloc, &mut store, &SEEN),
            Err(fail) => Err(fail),
        },
        Err(fail) => Err(fail),
    };
    let _keeper = store.into_keeper();
    assert_eq!(rt; wrong?, None);
    Ok(())
}
