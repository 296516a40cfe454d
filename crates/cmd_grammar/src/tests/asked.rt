// What commands ask for, worked out by hand: the order that the sort gives to three documents, what the projection shows
// of the first, a listing's limit, skip and page state, what the options choose, and what is taken out of the value.
use super::*;
use json_text::canon;
use json_tree::{Doc, Items, Value};
use shred_cols::Row;
use view_sort::{PageState, Projection, Sort};

const DOCUMENTS: [&str; 3] = [
    r#"{"_id":1,"a":1,"b":"x","l":[1,2]}"#,
    r#"{"_id":2,"a":0,"b":"x"}"#,
    r#"{"_id":3,"a":1,"b":"w"}"#,
];

const ASKED: &str = r##"ks/c {"find":{}} => 1 2 3, {"_id":1,"a":1,"b":"x","l":[1,2]}, 0, 0, none
ks/c {"find":{"filter":{"a":1},"sort":{},"projection":{},"options":{}}} => 1 2 3, {"_id":1,"a":1,"b":"x","l":[1,2]}, 0, 0, none
ks/c {"find":{"options":{"limit":0,"skip":0,"pageState":null}}} => 1 2 3, {"_id":1,"a":1,"b":"x","l":[1,2]}, 0, 0, none
ks/c {"find":{"filter":{"a":1},"sort":{"b":1,"a":-1},"projection":{"b":1,"_id":0},"options":{"limit":7,"skip":480,"pageState":null}}} => 3 1 2, {"b":"x"}, 7, 480, none
ks/c {"find":{"options":{"skip":3,"limit":2147483647},"projection":{"b":0},"sort":{"a":1}}} => 2 1 3, {"_id":1,"a":1,"l":[1,2]}, 2147483647, 3, none
ks/c {"find":{"sort":{"a":-1},"options":{"limit":1e2,"skip":1.0}}} => 1 3 2, {"_id":1,"a":1,"b":"x","l":[1,2]}, 100, 1, none
ks/c {"find":{"projection":{"l":{"$slice":-1}},"options":{"limit":20,"pageState":"AQAAAAAAAAAUAWQxOQ=="}}} => 1 2 3, {"_id":1,"a":1,"b":"x","l":[2]}, 20, 0, 20 "d19"
ks/c {"find":{"sort":{},"options":{"pageState":"AQAAAAAAAAAAAWE="}}} => 1 2 3, {"_id":1,"a":1,"b":"x","l":[1,2]}, 0, 0, 0 "a"
ks/c {"find":{"options":{"limit":3,"limit":5}}} => 1 2 3, {"_id":1,"a":1,"b":"x","l":[1,2]}, 5, 0, none
ks/c {"find":{"sort":{"a":1,"b":1,"a":-1}}} => 3 1 2, {"_id":1,"a":1,"b":"x","l":[1,2]}, 0, 0, none
ks/c {"findOne":{}} => 1 2 3, {"_id":1,"a":1,"b":"x","l":[1,2]}
ks/c {"findOne":{"sort":{"b":-1,"a":1},"projection":{"a":1}}} => 2 1 3, {"_id":1,"a":1}
ks/c {"updateOne":{"update":{}}} => 1 2 3, false
ks/c {"updateOne":{"sort":{"a":-1,"b":1},"update":{"$set":{"a":1}},"options":{}}} => 3 1 2, false
ks/c {"updateOne":{"sort":{"a":1},"update":{},"options":{"upsert":true}}} => 2 1 3, true
ks/c {"updateMany":{"update":{}}} => none, false
ks/c {"updateMany":{"update":{},"options":{"pageState":null,"upsert":true}}} => none, true
ks/c {"updateMany":{"filter":{"a":1},"update":{"$set":{"a":2}},"options":{"pageState":"AQAAAAAAAAAUAWQxOQ=="}}} => 20 "d19", false
ks/c {"updateMany":{"update":{},"options":{"pageState":"AX//////////AWQxOQ==","upsert":false}}} => 9223372036854775807 "d19", false
ks/c {"deleteOne":{}} => 1 2 3
ks/c {"deleteOne":{"filter":{"a":1},"sort":{"b":1,"a":-1}}} => 3 1 2
ks/c {"insertOne":{"document":{}}} => {}
ks/c {"insertOne":{"document":{"n":1.50,"l":[{}]}}} => {"n":1.5,"l":[{}]}
ks/c {"insertOne":{"document":{"a":1,"_id":"x"}}} => {"a":1,"_id":"x"}
ks/c {"insertMany":{"documents":[{}]}} => [{}], false
ks/c {"insertMany":{"documents":[{"_id":2},{"a":[1]},{"_id":2}],"options":{"ordered":true}}} => [{"_id":2},{"a":[1]},{"_id":2}], true
ks/c {"insertMany":{"options":{"ordered":true,"ordered":false},"documents":[{"_id":1}]}} => [{"_id":1}], false
ks/c {"findOneAndUpdate":{"update":{}}} => 1 2 3, {"_id":1,"a":1,"b":"x","l":[1,2]}, false, false
ks/c {"findOneAndUpdate":{"update":{"$inc":{"a":1}},"sort":{"a":1},"projection":{"b":1},"options":{"returnDocument":"after","upsert":true}}} => 2 1 3, {"_id":1,"b":"x"}, true, true
ks/c {"findOneAndUpdate":{"update":{},"options":{"returnDocument":"before","upsert":true}}} => 1 2 3, {"_id":1,"a":1,"b":"x","l":[1,2]}, true, false
ks/c {"findOneAndReplace":{"replacement":{}}} => 1 2 3, {"_id":1,"a":1,"b":"x","l":[1,2]}, false, false, {}
ks/c {"findOneAndReplace":{"filter":{"_id":"p"},"replacement":{"z":1},"options":{"returnDocument":"after"}}} => 1 2 3, {"_id":1,"a":1,"b":"x","l":[1,2]}, false, true, {"z":1}
ks/c {"findOneAndReplace":{"sort":{"b":1},"projection":{"_id":1},"replacement":{"z":1,"_id":"q"},"options":{"upsert":true}}} => 3 1 2, {"_id":1}, true, false, {"z":1,"_id":"q"}
ks/c {"findOneAndDelete":{}} => 1 2 3, {"_id":1,"a":1,"b":"x","l":[1,2]}
ks/c {"findOneAndDelete":{"sort":{"a":1},"projection":{"l":1}}} => 2 1 3, {"_id":1,"l":[1,2]}
ks {"createCollection":{"name":"d_1"}} => d_1
ks {"deleteCollection":{"name":"Zz"}} => Zz"##;

fn row(alloc: Global, tx: u64, text: &str) -> Result<Option<Row>, Fail> {
    let value = read_value(alloc, text.as_bytes())?;
    if !value.has_id_member() || value.has_dollar_name() {
        return Ok(None);
    }
    Ok(Some(Row::make(alloc, tx, Doc::of_value(alloc, value)?)?))
}

fn rows(alloc: Global) -> Result<Vec<Row>, Fail> {
    let mut rows = Vec::new(alloc);
    let mut tx: u64 = 0;
    for text in DOCUMENTS.iter() {
        tx = tx.saturating_add(1);
        if let Some(row) = row(alloc, tx, text)? {
            rows.push(row)?;
        }
    }
    Ok(rows)
}

fn order_of(alloc: Global, sort: &Sort) -> Result<String, Fail> {
    let mut out = String::new(alloc);
    if let Ok(ordered) = sort.order(alloc, rows(alloc)?, 3) {
        for row in ordered.as_slice() {
            let tx = row.tx();
            let space = if out.is_empty() { "" } else { " " };
            out.push_str(format!(in alloc; "{space}{tx}")?.as_str())?;
        }
    }
    Ok(out)
}

fn view_of(alloc: Global, projection: &Projection) -> Result<String, Fail> {
    if let Some(row) = row(alloc, 1, DOCUMENTS[0])?
        && let Ok(view) = projection.apply(alloc, row.doc())
    {
        return value_text(alloc, &view);
    }
    Ok(String::new(alloc))
}

fn page_of(alloc: Global, page: &Option<PageState>) -> Result<String, Fail> {
    match page {
        Some(state) => {
            let given = state.given;
            let last = value_text(alloc, state.last.value())?;
            Ok(format!(in alloc; "{given} {}", last.as_str())?)
        }
        None => Ok(String::from_str(alloc, "none")?),
    }
}

fn value_text(alloc: Global, value: &Value) -> Result<String, Fail> {
    Ok(String::from_utf8_lossy(alloc, canon(alloc, value)?.as_slice())?)
}

// The text, and behind it whether each of these holds.
fn with_flags(alloc: Global, text: String, flags: &[bool]) -> Result<String, Fail> {
    let mut out = text;
    for flag in flags {
        out.push_str(if *flag { ", true" } else { ", false" })?;
    }
    Ok(out)
}

fn shown(alloc: Global, sort: &Sort, projection: &Projection) -> Result<String, Fail> {
    let order = order_of(alloc, sort)?;
    let view = view_of(alloc, projection)?;
    Ok(format!(in alloc; "{}, {}", order.as_str(), view.as_str())?)
}

fn listed(
    alloc: Global,
    shown: String,
    limit: u64,
    skip: u64,
    page: &Option<PageState>,
) -> Result<String, Fail> {
    let page = page_of(alloc, page)?;
    Ok(format!(in alloc; "{}, {limit}, {skip}, {}", shown.as_str(), page.as_str())?)
}

fn replaced(alloc: Global, shown: String, replacement: &Value) -> Result<String, Fail> {
    let text = value_text(alloc, replacement)?;
    Ok(format!(in alloc; "{}, {}", shown.as_str(), text.as_str())?)
}

fn inserted(alloc: Global, documents: Items, ordered: bool) -> Result<String, Fail> {
    let text = value_text(alloc, &Value::List(documents))?;
    with_flags(alloc, text, &[ordered])
}

// What a command asks for that changes documents or collections.
fn asked_to_change(alloc: Global, command: Command) -> Result<String, Fail> {
    match command {
        Command::UpdateOne { sort, upsert, .. } => {
            with_flags(alloc, order_of(alloc, &sort)?, &[upsert])
        }
        Command::UpdateMany { page, upsert, .. } => {
            with_flags(alloc, page_of(alloc, &page)?, &[upsert])
        }
        Command::FindOneAndUpdate {
            sort,
            projection,
            upsert,
            after,
            ..
        } => { with_flags(alloc, shown(alloc, &sort, &projection)?, &[upsert, after]) }
        Command::FindOneAndReplace {
            replacement,
            sort,
            projection,
            upsert,
            after,
            ..
        } => {
            let text = with_flags(alloc, shown(alloc, &sort, &projection)?, &[upsert, after])?;
            replaced(alloc, text, &replacement)
        }
        Command::CreateCollection { name } => Ok(String::from_str(alloc, name.text())?),
        Command::DeleteCollection { name } => Ok(String::from_str(alloc, name.text())?),
        _ => Ok(String::new(alloc)),
    }
}

// What another command asks for.
fn asked_to_show(alloc: Global, command: Command) -> Result<String, Fail> {
    match command {
        Command::InsertOne { document } => value_text(alloc, &document),
        Command::InsertMany { documents, ordered } => inserted(alloc, documents, ordered),
        Command::FindOne {
            sort,
            projection,
            ..
        } => shown(alloc, &sort, &projection),
        Command::Find {
            sort,
            projection,
            limit,
            skip,
            page,
            ..
        } => {
            let shown = shown(alloc, &sort, &projection)?;
            listed(alloc, shown, limit, skip, &page)
        }
        Command::DeleteOne { sort, .. } => order_of(alloc, &sort),
        Command::FindOneAndDelete {
            sort,
            projection,
            ..
        } => shown(alloc, &sort, &projection),
        _ => Ok(String::new(alloc)),
    }
}

fn changes(command: &Command) -> bool {
    matches!(
        command,
        Command::UpdateOne { .. }
            | Command::UpdateMany { .. }
            | Command::FindOneAndUpdate { .. }
            | Command::FindOneAndReplace { .. }
            | Command::CreateCollection { .. }
            | Command::DeleteCollection { .. }
    )
}

fn asked(alloc: Global, command: Command) -> Result<String, Fail> {
    if changes(&command) {
        asked_to_change(alloc, command)
    } else {
        asked_to_show(alloc, command)
    }
}

fn row_is_asked(alloc: Global, row: &str) -> Result<bool, Fail> {
    if let Some((path, rest)) = row.split_once(' ')
        && let Some((body, want)) = rest.split_once(" => ")
        && let Ok(command) = read_request(alloc, "ks", &request_of(alloc, path, body)?)
    {
        return Ok(asked(alloc, command)?.as_str() == want);
    }
    Ok(false)
}

#[test]
fn commands_ask(rt: HostRuntime) -> Result<(), Fail> {
    for row in ASKED.split('\n') {
        assert!(rt; row_is_asked(rt.alloc(), row)?, "{row}");
    }
    Ok(())
}
