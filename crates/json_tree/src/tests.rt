use crate::{Doc, DocId, Items, Members, Num, ObjectBuilder, Text, TreeFault, Value};
use std::alloc::Global;
use std::cmp::Ordering;
use std::test::Fail;

fn units_of(number: Result<Num, TreeFault>) -> Option<i128> {
    match number {
        Ok(n) => Some(n.units()),
        Err(_) => None,
    }
}

const LARGEST: i128 = 99_999_999_999_999_999_999_999_999_999_999_999_999;

// 2^63 and 5^28: coefficients with a product over 10^38, and 343.59738368 as the exact product.
const TWOS: i128 = 9_223_372_036_854_775_808;

const FIVES: i128 = 37_252_902_984_619_140_625;

#[test]
fn numbers_of_parts(rt: HostRuntime) {
    let rows: [(i128, i32, Option<i128>); 11] = [
        (25, -2, Some(250_000_000_000_000_000)),
        (-5, -1, Some(-500_000_000_000_000_000)),
        (10, -19, Some(1)),
        (1, -19, None),
        (0, 999, Some(0)),
        (0, i32::MIN, Some(0)),
        (1, i32::MAX, None),
        (LARGEST, -18, Some(LARGEST)),
        (-LARGEST, -18, Some(-LARGEST)),
        (LARGEST + 1, -18, None),
        (
            150_000_000_000_000_000_000_000_000_000_000_000_000,
            -20,
            Some(1_500_000_000_000_000_000_000_000_000_000_000_000),
        ),
    ];
    for (coefficient, power, want) in rows {
        assert_eq!(rt;
            units_of(Num::of_parts(coefficient, power)),
            want,
            "{coefficient} {power}"
        );
    }
}

fn wanted(parts: Option<(i128, i32)>) -> Option<i128> {
    match parts {
        Some((coefficient, power)) => units_of(Num::of_parts(coefficient, power)),
        None => None,
    }
}

#[test]
fn sums_and_products(rt: HostRuntime) -> Result<(), Fail> {
    let rows = [
        ((5, -1), (5, -1), Some((1, 0)), Some((25, -2))),
        ((1, -10), (1, -10), Some((2, -10)), None),
        ((1, -1), (2, -1), Some((3, -1)), Some((2, -2))),
        ((0, 0), (-5, 0), Some((-5, 0)), Some((0, 0))),
        ((-3, 0), (-15, -1), Some((-45, -1)), Some((45, -1))),
        ((LARGEST, -18), (1, -18), None, None),
        ((99_999_999_999_999_999_999, 0), (10, 17), None, None),
        ((TWOS, -18), (FIVES, -18), Some((TWOS + FIVES, -18)), None),
    ];
    for (a, b, sum, product) in rows {
        let first = Num::of_parts(a.0, a.1)?;
        let second = Num::of_parts(b.0, b.1)?;
        assert_eq!(rt; units_of(first.add(&second)), wanted(sum));
        assert_eq!(rt; units_of(first.mul(&second)), wanted(product));
    }
    Ok(())
}

#[test]
fn numbers_are_ordered(rt: HostRuntime) -> Result<(), Fail> {
    let low = Num::of_parts(-1, 0)?;
    let high = Num::of_parts(1, -18)?;
    assert_eq!(rt; low.cmp(&high), Ordering::Less);
    assert_eq!(rt; high.cmp(&high), Ordering::Equal);
    Ok(())
}

/// Adds an id with its key bytes.
fn add(
    alloc: Global,
    rows: &mut Vec<(Value, Vec<u8>)>,
    value: Value,
    key: &[u8],
) -> Result<(), Fail> {
    let bytes = Vec::from_slice(alloc, key)?;
    rows.push((value, bytes))?;
    Ok(())
}

fn add_texts(alloc: Global, rows: &mut Vec<(Value, Vec<u8>)>) -> Result<(), Fail> {
    let texts: [(&str, &[u8]); 3] = [("a", &[1, 97]), ("ab", &[1, 97, 98]), ("é", &[1, 195, 169])];
    for (text, key) in texts {
        let value = Value::Text(Text::of_str(alloc, text)?);
        add(alloc, rows, value, key)?;
    }
    Ok(())
}

fn add_numbers(alloc: Global, rows: &mut Vec<(Value, Vec<u8>)>) -> Result<(), Fail> {
    let numbers: [(i128, &[u8]); 3] = [
        (
            -256,
            &[
                2, 127, 255, 255, 255, 255, 255, 255, 255, 255, 255, 255, 255, 255, 255, 255, 0,
            ],
        ),
        (0, &[2, 128, 0, 0, 0, 0, 0, 0, 0, 0, 0, 0, 0, 0, 0, 0, 0]),
        (258, &[2, 128, 0, 0, 0, 0, 0, 0, 0, 0, 0, 0, 0, 0, 0, 1, 2]),
    ];
    for (units, key) in numbers {
        let value = Value::Num(Num::of_parts(units, -18)?);
        add(alloc, rows, value, key)?;
    }
    Ok(())
}

fn add_dates(alloc: Global, rows: &mut Vec<(Value, Vec<u8>)>) -> Result<(), Fail> {
    let dates: [(i64, &[u8]); 2] = [
        (-2, &[5, 127, 255, 255, 255, 255, 255, 255, 254]),
        (1, &[5, 128, 0, 0, 0, 0, 0, 0, 1]),
    ];
    for (date, key) in dates {
        add(alloc, rows, Value::Date(date), key)?;
    }
    Ok(())
}

/// Ids in order, each with its key bytes.
fn ids(alloc: Global) -> Result<Vec<(Value, Vec<u8>)>, Fail> {
    let mut rows = Vec::new(alloc);
    add_texts(alloc, &mut rows)?;
    add_numbers(alloc, &mut rows)?;
    add(alloc, &mut rows, Value::Bool(false), &[3, 0])?;
    add(alloc, &mut rows, Value::Bool(true), &[3, 1])?;
    add(alloc, &mut rows, Value::Null, &[4])?;
    add_dates(alloc, &mut rows)?;
    Ok(rows)
}

fn same_key(alloc: Global, id: &DocId, value: &Value, key: &[u8]) -> Result<bool, Fail> {
    let bytes = id.key_bytes(alloc)?;
    let back = DocId::from_key_bytes(alloc, key)?.ok_or("no id")?;
    let copy = id.try_copy(alloc)?;
    Ok(bytes.as_slice() == key && back.same(&copy) && back.value().same(value))
}

#[test]
fn ids_have_key_bytes(rt: HostRuntime) -> Result<(), Fail> {
    let rows = ids(rt.alloc())?;
    let mut last: Option<DocId> = None;
    for (value, key) in &rows {
        let id = DocId::of_value(rt.alloc(), value)?;
        assert!(rt; same_key(rt.alloc(), &id, value, key.as_slice())?);
        if let Some(before) = &last {
            assert_eq!(rt; before.cmp(&id), Ordering::Less);
        }
        last = Some(id);
    }
    Ok(())
}

#[test]
fn bytes_of_no_id(rt: HostRuntime) -> Result<(), Fail> {
    let rows: [&[u8]; 10] = [
        &[],
        &[1],
        &[1, 255],
        &[2],
        &[
            2, 255, 255, 255, 255, 255, 255, 255, 255, 255, 255, 255, 255, 255, 255, 255, 255,
        ],
        &[2, 128, 0, 0, 0, 0, 0, 0, 0, 0, 0, 0, 0, 0, 0, 0, 0, 0],
        &[3, 2],
        &[4, 0],
        &[5, 128, 0, 0, 0, 0, 0, 0],
        &[6, 0],
    ];
    for row in rows {
        assert!(rt; DocId::from_key_bytes(rt.alloc(), row)?.is_none());
    }
    let empty = Value::Text(Text::of_str(rt.alloc(), "")?);
    let list = Value::List(Items::new(rt.alloc()));
    assert!(rt; matches!(DocId::of_value(rt.alloc(), &empty), Err(TreeFault::EmptyId)));
    assert!(rt;
        matches!(
            DocId::of_value(rt.alloc(), &list),
            Err(TreeFault::BadIdKind)
        )
    );
    Ok(())
}

/// Names that come again: in each round the same, and another value.
fn put_rounds(alloc: Global, rounds: u32, names: u32) -> Result<(Members, Members), Fail> {
    let mut builder = ObjectBuilder::new(alloc);
    let mut members = Members::new(alloc);
    for round in 0..rounds {
        for name in 0..names {
            let value = Num::of_parts(i128::from(round), 0)?;
            let text = format!(in alloc; "name {name}")?;
            builder.put(Text::of_str(alloc, text.as_str())?, Value::Num(value))?;
            members.put(Text::of_string(text)?, Value::Num(value))?;
        }
    }
    Ok((builder.finish(), members))
}

#[test]
fn builders_build_members(rt: HostRuntime) -> Result<(), Fail> {
    for names in [1, 16, 17, 18, 40] {
        let (built, put) = put_rounds(rt.alloc(), 3, names)?;
        assert!(rt; built.same(&put));
        assert_eq!(rt; built.len(), names as usize);
        let value = built.get("name 0").ok_or("no name")?;
        assert!(rt; value.same(&Value::Num(Num::of_parts(2, 0)?)));
        let (name, _) = built.pair(0).ok_or("no pair")?;
        assert_eq!(rt; name.as_str(), "name 0");
        assert!(rt; built.get("name 41").is_none());
    }
    Ok(())
}

/// Null, then the date 1.
fn list(alloc: Global) -> Result<Items, Fail> {
    let mut items = Items::new(alloc);
    items.push(Value::Bool(true))?;
    items.push(Value::Date(7))?;
    items.insert(0, Value::Null)?;
    items.swap_in(1, Value::Date(1));
    items.remove(2);
    Ok(items)
}

#[test]
fn lists_change(rt: HostRuntime) -> Result<(), Fail> {
    let items = list(rt.alloc())?;
    assert_eq!(rt; items.len(), 2);
    let first = items.get(0).ok_or("none")?;
    let second = items.get(1).ok_or("none")?;
    assert!(rt; first.same(&Value::Null) && second.same(&Value::Date(1)));
    let copy = items.try_copy(rt.alloc())?;
    assert!(rt; copy.same(&items));
    Ok(())
}

#[test]
fn texts_of_many_lengths(rt: HostRuntime) -> Result<(), Fail> {
    let mut string = String::new(rt.alloc());
    for _ in 0..50u32 {
        let text = Text::of_str(rt.alloc(), string.as_str())?;
        let taken = Text::of_string(string.clone()?)?;
        let copy = text.try_copy(rt.alloc())?;
        assert_eq!(rt; copy.as_str(), string.as_str());
        assert!(rt; copy.same(&taken) && taken.same(&text));
        string.push('é')?;
        assert!(rt; !Text::of_str(rt.alloc(), string.as_str())?.same(&copy));
    }
    Ok(())
}

#[test]
fn members_change(rt: HostRuntime) -> Result<(), Fail> {
    let mut members = Members::new(rt.alloc());
    members.put(Text::of_str(rt.alloc(), "a")?, Value::Date(1))?;
    members.put(Text::of_str(rt.alloc(), "b")?, Value::Null)?;
    members.swap_in(0, Value::List(list(rt.alloc())?));
    let copy = members.try_copy(rt.alloc())?;
    assert!(rt; copy.same(&members));
    assert!(rt; members.remove("a").is_some());
    assert!(rt; members.remove("a").is_none());
    assert!(rt; !copy.same(&members));
    assert_eq!(rt; members.len(), 1);
    Ok(())
}

fn object(alloc: Global, names: &[&str], value: &Value) -> Result<Value, Fail> {
    let mut members = Members::new(alloc);
    for name in names {
        members.put(Text::of_str(alloc, name)?, value.try_copy(alloc)?)?;
    }
    Ok(Value::Object(members))
}

/// What may go to other threads, and be shared with them.
fn crosses_threads<T: Send + Sync>(_value: &T) {}

fn tested(alloc: Global, names: &[&str]) -> Result<(bool, bool), Fail> {
    let value = object(alloc, names, &Value::Date(5))?;
    Ok((value.is_document(), value.has_dollar_name()))
}

#[test]
fn documents_are_told(rt: HostRuntime) -> Result<(), Fail> {
    let rows: [(&[&str], bool, bool); 5] = [
        (&["x", "_id"], true, false),
        (&["x"], false, false),
        (&["_id", "$x"], false, true),
        (&["a$", "_id"], true, false),
        (&[], false, false),
    ];
    for (names, document, dollar) in rows {
        assert_eq!(rt; tested(rt.alloc(), names)?, (document, dollar));
    }
    let inner = object(rt.alloc(), &["$x"], &Value::Null)?;
    assert!(rt; object(rt.alloc(), &["y"], &inner)?.has_dollar_name());
    assert_eq!(rt; inner.id_fault(), Some(TreeFault::BadIdKind));
    assert_eq!(rt; Value::Date(0).id_fault(), None);
    Ok(())
}

fn document(alloc: Global, value: Value) -> Result<Doc, TreeFault> {
    if value.has_id_member() && !value.has_dollar_name() {
        Doc::of_value(alloc, value)
    } else {
        Err(TreeFault::NumberRange)
    }
}

#[test]
fn ids_of_documents_are_tested(rt: HostRuntime) -> Result<(), Fail> {
    let empty = Value::Text(Text::of_str(rt.alloc(), "")?);
    let none = object(rt.alloc(), &["_id"], &empty)?;
    assert!(rt; matches!(document(rt.alloc(), none), Err(TreeFault::EmptyId)));
    let list = Value::List(Items::new(rt.alloc()));
    let wrong = object(rt.alloc(), &["_id"], &list)?;
    assert!(rt; matches!(document(rt.alloc(), wrong), Err(TreeFault::BadIdKind)));
    Ok(())
}

#[test]
fn documents_are_shared(rt: HostRuntime) -> Result<(), Fail> {
    let plain = object(rt.alloc(), &["x", "_id"], &Value::Date(5))?;
    let copy = plain.try_copy(rt.alloc())?;
    let doc = document(rt.alloc(), plain)?;
    let shared = doc.try_copy(rt.alloc())?;
    assert!(rt; shared.value().same(&copy));
    assert!(rt; shared.id().value().same(&Value::Date(5)));
    crosses_threads(&doc);
    Ok(())
}
