// Limits and names of documents, against rows worked out by hand.
use crate::{check, names_fault};
use json_text::read_value;
use std::alloc::Global;
use std::test::Fail;

// the bytes around so many times the middle
fn around(
    alloc: Global,
    before: &str,
    middle: &str,
    times: usize,
    after: &str,
) -> Result<Vec<u8>, Fail> {
    let mut text = Vec::new(alloc);
    text.extend_from_slice(before.as_bytes())?;
    for _ in 0..times {
        text.extend_from_slice(middle.as_bytes())?;
    }
    text.extend_from_slice(after.as_bytes())?;
    Ok(text)
}

// adds so many members to an object that has none or some
fn add_members(alloc: Global, text: &mut Vec<u8>, times: usize) -> Result<(), Fail> {
    for i in 0..times {
        if i > 0 {
            text.push(b',')?;
        }
        text.extend_from_slice(format!(in alloc; "\"m{i}\":0")?.as_bytes())?;
    }
    Ok(())
}

// a document of texts of 8,000 bytes, the last one of so many
fn long_document(alloc: Global, len: usize) -> Result<Vec<u8>, Fail> {
    let full = around(alloc, "\"", "x", 8_000, "\",")?;
    let mut text = around(alloc, "{\"a\":[", "", 0, "")?;
    for _ in 0..124 {
        text.extend_from_slice(full.as_slice())?;
    }
    text.extend_from_slice(around(alloc, "\"", "y", len, "\"]}")?.as_slice())?;
    Ok(text)
}

// objects one inside another: nine names of 100 bytes, one of so many, and a value
fn deep_document(alloc: Global, len: usize, value: &str) -> Result<Vec<u8>, Fail> {
    let part = around(alloc, "{\"", "n", 100, "\":")?;
    let mut text = Vec::new(alloc);
    for _ in 0..9 {
        text.extend_from_slice(part.as_slice())?;
    }
    text.extend_from_slice(around(alloc, "{\"", "n", len, "\":")?.as_slice())?;
    text.extend_from_slice(value.as_bytes())?;
    text.extend_from_slice(b"}}}}}}}}}}")?;
    Ok(text)
}

// two objects with members: so many, and 1,000
fn broad_document(alloc: Global, first: usize) -> Result<Vec<u8>, Fail> {
    let mut text = around(alloc, "{\"a\":{", "", 0, "")?;
    add_members(alloc, &mut text, first)?;
    text.extend_from_slice(b"},\"b\":{")?;
    add_members(alloc, &mut text, 1_000)?;
    text.extend_from_slice(b"}}")?;
    Ok(text)
}

// Documents by their form, a count and what they hold, and what is broken: the limit, the bound and the count found, or
// zeros where no limit is.
const ROWS: [(&str, usize, &str, u8, u64, u64); 21] = [
    ("text", 0, "{}", 0, 0, 0),
    ("long", 7_618, "", 0, 0, 0),
    ("long", 7_619, "", 1, 1_000_000, 1_000_001),
    (
        "text",
        0,
        r#"{"a":[[[[[[[[[[[[[[[{"$date":1}]]]]]]]]]]]]]]]}"#,
        0,
        0,
        0,
    ),
    (
        "text",
        0,
        r#"{"a":[[[[[[[[[[[[[[[{}]]]]]]]]]]]]]]]}"#,
        2,
        16,
        17,
    ),
    (
        "text",
        0,
        r#"{"a":[[[[[[[[[[[[[[[1,[]]]]]]]]]]]]]]]]}"#,
        2,
        16,
        17,
    ),
    ("text", 0, r#"{"a":1,"b":[{"":""}]}"#, 3, 1, 0),
    ("name", 100, "", 0, 0, 0),
    ("name", 101, "", 4, 100, 101),
    ("deep", 91, "1", 0, 0, 0),
    ("deep", 92, "1", 5, 1_000, 1_001),
    ("deep", 89, "[0,1,2,3,4,5,6,7,8,9]", 0, 0, 0),
    ("deep", 89, "[0,1,2,3,4,5,6,7,8,9,10]", 5, 1_000, 1_001),
    ("broad", 998, "", 0, 0, 0),
    ("broad", 1_001, "", 6, 1_000, 1_001),
    ("broad", 999, "", 7, 2_000, 2_001),
    ("list", 999, "", 0, 0, 0),
    ("list", 1_000, "", 8, 1_000, 1_001),
    ("word", 8_000, "a", 0, 0, 0),
    ("word", 8_001, "a", 9, 8_000, 8_001),
    ("word", 8_001, "", 3, 1, 0),
];

fn document(alloc: Global, form: &str, count: usize, inner: &str) -> Result<Vec<u8>, Fail> {
    match form {
        "long" => long_document(alloc, count),
        "name" => around(alloc, "{\"", "n", count, "\":1}"),
        "deep" => deep_document(alloc, count, inner),
        "broad" => broad_document(alloc, count),
        "list" => around(alloc, "{\"a\":[0", ",0", count, "]}"),
        "word" => {
            let before = format!(in alloc; "{{\"{inner}\":[\"")?;
            around(alloc, before.as_str(), "x", count, "\"]}")
        }
        _ => around(alloc, inner, "", 0, ""),
    }
}

// whether just this is broken, or nothing, where the limit is 0
fn breaks(alloc: Global, text: &[u8], limit: u8, bound: u64, found: u64) -> Result<bool, Fail> {
    let value = read_value(alloc, text)?;
    match check(&value) {
        Ok(()) => Ok(limit == 0),
        Err(broken) => Ok(broken.limit == limit && broken.bound == bound && broken.found == found),
    }
}

#[test]
fn meets_and_breaks_each_limit(rt: HostRuntime) -> Result<(), Fail> {
    let alloc = rt.alloc();
    for (form, count, inner, limit, bound, found) in ROWS.iter() {
        let text = document(alloc, form, *count, inner)?;
        assert!(rt;
            breaks(alloc, text.as_slice(), *limit, *bound, *found)?,
            "{form} {count}"
        );
    }
    Ok(())
}

// Values, and the first bad name in each, or `none is bad`.
const NAMES: [(&str, &str); 7] = [
    (r#"{"a":{"b.c":1},"d e":2}"#, "b.c"),
    (r#"{"x y":{"b.c":1}}"#, "x y"),
    (r#"[{"ok":1},[{"\u00e9":1}],{"$a":1}]"#, "é"),
    (r#"{"a":{"$date":1.5}}"#, "$date"),
    (r#"{"a":{"$date":1}}"#, "none is bad"),
    (r#"{"":"a b","azAZ09_-":["$"]}"#, "none is bad"),
    (r#"{"@":1}"#, "@"),
];

// whether this is the first bad name
fn is_first(alloc: Global, text: &str, name: &str) -> Result<bool, Fail> {
    let value = read_value(alloc, text.as_bytes())?;
    match names_fault(&value) {
        Some(bad) => Ok(bad.as_str() == name),
        None => Ok(name == "none is bad"),
    }
}

#[test]
fn finds_the_first_bad_name(rt: HostRuntime) -> Result<(), Fail> {
    let alloc = rt.alloc();
    for (text, name) in NAMES.iter() {
        assert!(rt; is_first(alloc, text, name)?, "{text}");
    }
    Ok(())
}
