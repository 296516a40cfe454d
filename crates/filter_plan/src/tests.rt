// Filters judged on columns, worked out by hand.
use crate::{Plan, Verdict, plan};
use filter_tree::Filter;
use json_text::read_value;
use json_tree::Doc;
use shred_cols::{Columns, shred};
use std::alloc::Global;
use std::test::Fail;

// Documents, each with filters and what they say of it.
const ROWS: [(&str, &str); 6] = [
    (
        r#"{"_id":"t","tags":["x",null,{"k":1}]}"#,
        r#"{"tags":"x"} => yes
{"tags":null} => yes
{"tags.2.k":1} => yes
{"tags":{"$size":3}} => yes
{"tags":{"$ne":"x"}} => no
{"tags":{"k":1}} => yes
{"tags":["x",null,{"k":1}]} => yes
{"tags":["x",null]} => no
{"tags":{"$in":[1,2,3,"x"]}} => yes
{"tags":{"$in":[1,2,3,"y"]}} => no
{"tags":{"$nin":[{"k":1},2,3,4]}} => no
{"tags":{"$nin":[{"k":2},2,3,4]}} => yes
{"tags":{"$all":["x",null,{"k":1},"x"]}} => yes
{"tags":{"$all":["x",null,{"k":2},"x"]}} => no
{"$or":[{"tags":1},{"tags.2.k":1},{"no":1},{"tags":2}]} => yes
{"$or":[{"tags":1},{"tags.2.k":2},{"no":1},{"tags":2}]} => no
{"$and":[{"tags":"x"},{"tags.2.k":1},{"_id":"t"},{"tags":null}]} => yes
{"$and":[{"tags":"x"},{"tags.2.k":1},{"_id":"x"},{"tags":null}]} => no
{"_id":{"$in":["q","r","s","t"]}} => yes
{"_id":{"$in":["q","r","s","tt"]}} => no"#,
    ),
    (
        r#"{"_id":"l","l":[1,2,3,4,5,6,7,8,9,10]}"#,
        r#"{"l":{"$in":[11,12,13,7]}} => yes
{"l":{"$in":[11,12,13,14]}} => no
{"l":{"$nin":[11,12,13,14]}} => yes
{"l":{"$all":[1,2,3,10]}} => yes
{"l":{"$all":[1,2,3,11]}} => no"#,
    ),
    (
        r#"{"_id":"1","a":{"0":5}}"#,
        r#"{"a.0":5} => yes
{"a":5} => no"#,
    ),
    (
        r#"{"_id":"2","a":[5]}"#,
        r#"{"a.0":5} => yes
{"a":5} => yes"#,
    ),
    (
        r#"{"_id":"a"}"#,
        r#"{} => yes
{"x":{"$ne":1}} => yes
{"x":{"$nin":[1]}} => yes
{"$not":{"x":{"$gt":1}}} => yes
{"x":{"$exists":false}} => yes
{"x":null} => no
{"x":{"$all":[]}} => yes
{"x":{"$in":[]}} => no
{"x":{"$size":0}} => no
{"x":{"$lte":1}} => no
{"x":{"$gte":"a"}} => no
{"x":{"$lt":{"$date":0}}} => no"#,
    ),
    (
        r#"{"_id":"order-1001","placed":{"$date":1700000000000},"n":-1.5,"grid":[[1,2],[3]],"empty":{},"word":"Zoë"}"#,
        r#"{"_id":{"$gt":"order-1000"}} => yes
{"_id":{"$gt":"order-1001"}} => no
{"_id":{"$gte":"order-1001"}} => yes
{"_id":{"$lt":"order-1001"}} => no
{"_id":{"$lte":"order-1001"}} => yes
{"_id":{"$lt":"order-2"}} => yes
{"placed":{"$date":1700000000000}} => yes
{"placed":1700000000000} => no
{"placed":{"$gt":{"$date":1700000000000}}} => no
{"placed":{"$gte":{"$date":1700000000000}}} => yes
{"placed":{"$lt":{"$date":1700000000001}}} => yes
{"placed":{"$lt":1800000000000}} => no
{"n":-1.50} => yes
{"n":{"$gt":-1.5}} => no
{"n":{"$gte":-1.5}} => yes
{"n":{"$lt":-1.5}} => no
{"n":{"$lte":-1.5}} => yes
{"n":{"$gt":-2,"$lt":-1}} => yes
{"n":{"$gt":-2,"$lt":-1.6}} => no
{"n":{"$in":["-1.5"]}} => no
{"n":{"$in":[1,-1.5]}} => yes
{"n":{"$nin":[-1.5]}} => no
{"grid":1} => no
{"grid":[3]} => yes
{"grid":{"$gt":0}} => no
{"grid.0":{"$all":[2,1]}} => yes
{"grid.0":{"$all":[2,3]}} => no
{"empty":{}} => yes
{"empty":null} => no
{"word":{"$gt":"Zoe"}} => yes
{"word":{"$lt":"Zoë"}} => no
{"word":{"$size":3}} => no
{"$and":[]} => yes
{"$or":[]} => no
{"$not":{}} => no
{"$or":[{"n":1},{"word":"Zoë"}]} => yes
{"$and":[{"n":-1.5},{"$not":{"word":"Zoe"}}]} => yes
{"$and":[{"n":-1.5},{"word":"Zoe"}]} => no"#,
    ),
];

fn word(verdict: Verdict) -> &'static str {
    match verdict {
        Verdict::Yes => "yes",
        Verdict::No => "no",
        Verdict::Look => "look",
    }
}

// The document that a text spells, if it is one.
fn document_of(alloc: Global, text: &str) -> Option<Doc> {
    let Ok(value) = read_value(alloc, text.as_bytes()) else {
        return None;
    };
    if !value.has_id_member() {
        return None;
    }
    if value.has_dollar_name() {
        return None;
    }
    match Doc::of_value(alloc, value) {
        Ok(doc) => Some(doc),
        Err(_) => None,
    }
}

// The filter that a text spells, if it isn't refused.
fn filter_of(alloc: Global, text: &str) -> Option<Filter> {
    let Ok(value) = read_value(alloc, text.as_bytes()) else {
        return None;
    };
    match Filter::read(alloc, &value) {
        Ok(filter) => Some(filter),
        Err(_) => None,
    }
}

// The columns of a document tell just this of a filter, the document agrees, and its columns meet the probe where they
// tell that it matches.
fn tells(doc: &Doc, columns: &Columns, filter: &Filter, plan: &Plan, verdict: &str) -> bool {
    let told = plan.judge(columns);
    let matches = told == Verdict::Yes;
    if matches && !columns.meets(plan.probe()) {
        return false;
    }
    word(told) == verdict && filter.test(doc) == matches
}

fn tells_row(alloc: Global, doc: &Doc, columns: &Columns, row: &str) -> bool {
    let Some((text, verdict)) = row.split_once(" => ") else {
        return false;
    };
    let Some(filter) = filter_of(alloc, text) else {
        return false;
    };
    match plan(alloc, &filter) {
        Ok(plan) => tells(doc, columns, &filter, &plan, verdict),
        Err(_) => false,
    }
}

// The first row that isn't so, or nothing.
fn first_wrong<'a>(alloc: Global, text: &str, rows: &'a str) -> &'a str {
    let Some(doc) = document_of(alloc, text) else {
        return rows;
    };
    let Ok(columns) = shred(alloc, &doc) else {
        return rows;
    };
    for row in rows.split('\n') {
        if !tells_row(alloc, &doc, &columns, row) {
            return row;
        }
    }
    ""
}

#[test]
fn columns_tell(rt: HostRuntime) -> Result<(), Fail> {
    for (text, rows) in ROWS {
        assert_eq!(rt; first_wrong(rt.alloc(), text, rows), "");
    }
    Ok(())
}
