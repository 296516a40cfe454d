// Filters on documents, and refused filters, worked out by hand.
use crate::{Equality, Filter, FilterFault};
use json_text::read_value;
use json_tree::{Doc, Items, Value};
use std::alloc::Global;
use std::test::Fail;

const ORDER: &str =
    r#"{"_id":"order-1001","customer":{"name":"Ada Lovelace","city":"London"},"items":[{"sku":"A-1","qty":2,"price":19.99},{"sku":"B-7","qty":1,"price":5}],"placed":{"$date":1700000000000},"paid":false,"note":null,"tags":[],"n":-1.5,"grid":[[1,2],[3]],"deep":{"a":{"b":{"c":7}}},"empty":{},"word":"Zoë"}"#;

// Filters, each with what it says of the order.
const OF_ORDER: &str = r#"{} => yes
{"_id":"order-1001"} => yes
{"_id":"order-1002"} => no
{"_id":{"$eq":"order-1001"}} => yes
{"_id":["order-1001"]} => no
{"_id":{"$in":["a","order-1001"]}} => yes
{"_id":{"$gt":"order-1000"}} => yes
{"_id":{"$lt":"order-1001"}} => no
{"_id":{"$lte":"order-1001"}} => yes
{"customer.city":"London"} => yes
{"customer.city":"london"} => no
{"customer":{"name":"Ada Lovelace","city":"London"}} => yes
{"customer":{"city":"London","name":"Ada Lovelace"}} => no
{"customer":{"name":"Ada Lovelace"}} => no
{"customer":{"name":"Ada Lovelace","$gt":1}} => no
{"customer.age":{"$exists":false}} => yes
{"customer.age":null} => no
{"customer.name.first":{"$exists":true}} => no
{"customer.name.first":{"$ne":"Ada"}} => yes
{"items.0.qty":2} => yes
{"items.0.qty":{"$gte":2}} => yes
{"items.0.qty":{"$gt":2}} => no
{"items.1.sku":"B-7"} => yes
{"items.2":{"$exists":true}} => no
{"items.00.qty":2} => no
{"items.sku":"A-1"} => no
{"items.sku":{"$exists":false}} => yes
{"items":{"$size":2}} => yes
{"items":{"$size":2.0}} => yes
{"items":{"$size":1}} => no
{"items":{"$size":1000000}} => no
{"items":{"sku":"B-7","qty":1,"price":5}} => yes
{"items":{"sku":"B-7","qty":1,"price":5.00}} => yes
{"items":{"sku":"B-7"}} => no
{"items":[{"sku":"A-1","qty":2,"price":19.99},{"sku":"B-7","qty":1,"price":5}]} => yes
{"items":[{"sku":"B-7","qty":1,"price":5},{"sku":"A-1","qty":2,"price":19.99}]} => no
{"placed":{"$date":1700000000000}} => yes
{"placed":{"$date":1700000000001}} => no
{"placed":1700000000000} => no
{"placed":{"$gt":{"$date":1690000000000}}} => yes
{"placed":{"$gt":1690000000000}} => no
{"placed":{"$lt":{"$date":1700000000000}}} => no
{"placed":{"$lte":{"$date":1700000000000}}} => yes
{"placed":{"$gte":{"$date":-1}}} => yes
{"placed":{"$in":[1700000000000,{"$date":1700000000000}]}} => yes
{"paid":false} => yes
{"paid":0} => no
{"paid":null} => no
{"paid":{"$ne":true}} => yes
{"paid":{"$exists":true}} => yes
{"note":null} => yes
{"note":{"$exists":true}} => yes
{"note":{"$exists":false}} => no
{"note":{"$ne":null}} => no
{"note":{"$in":[]}} => no
{"note":{"$nin":[]}} => yes
{"note":{"$all":[]}} => yes
{"note":{}} => no
{"missing":{"$all":[]}} => yes
{"missing":{"$in":[null]}} => no
{"missing":{"$nin":[null]}} => yes
{"missing":{"$all":[null]}} => no
{"missing":{"$size":0}} => no
{"missing":{"$gt":0}} => no
{"missing":{"$lte":0}} => no
{"missing":{"$exists":true}} => no
{"tags":[]} => yes
{"tags":{"$size":0}} => yes
{"tags":null} => no
{"tags":{"$ne":null}} => yes
{"tags.0":{"$exists":false}} => yes
{"n":-1.5} => yes
{"n":-1.50} => yes
{"n":{"$gt":-2}} => yes
{"n":{"$gt":-1.5}} => no
{"n":{"$gte":-1.5}} => yes
{"n":{"$lt":0}} => yes
{"n":{"$lt":"0"}} => no
{"n":{"$gt":""}} => no
{"n":{"$lte":{"$date":0}}} => no
{"n":{"$gt":-2,"$lt":-1}} => yes
{"n":{"$gt":-2,"$lt":-1.6}} => no
{"n":{"$in":["-1.5"]}} => no
{"n":{"$in":[1,2,-15e-1]}} => yes
{"n":{"$nin":[-1.5]}} => no
{"n":{"$size":1}} => no
{"n":{"$eq":{"$x":1}}} => no
{"n":{"$date":5}} => no
{"grid":[1,2]} => yes
{"grid":1} => no
{"grid":[3]} => yes
{"grid":3} => no
{"grid.0":1} => yes
{"grid.0.1":2} => yes
{"grid":[[1,2],[3]]} => yes
{"grid":{"$all":[[1,2],[3]]}} => yes
{"grid":{"$all":[[1,2],[4]]}} => no
{"grid":{"$in":[3,[4]]}} => no
{"grid":{"$in":[[4],[3]]}} => yes
{"grid":{"$gt":0}} => no
{"grid.0":{"$gt":0}} => no
{"grid.0.0":{"$lt":2}} => yes
{"grid.0":{"$ne":3}} => yes
{"grid.0":{"$ne":1}} => no
{"grid.0":{"$nin":[3,4]}} => yes
{"grid.0":{"$nin":[3,2]}} => no
{"grid.0":{"$all":[2,1]}} => yes
{"grid.0":{"$all":[2,1,3]}} => no
{"deep.a.b.c":7} => yes
{"deep.a.b":{"c":7}} => yes
{"deep":{"a":{"b":{"c":7}}}} => yes
{"deep.a":{"b":7}} => no
{"deep.a.b.c.d":{"$exists":false}} => yes
{"empty":{}} => yes
{"empty":{"$eq":{}}} => yes
{"empty":{"$ne":{}}} => no
{"empty":{"$in":[{}]}} => yes
{"empty":{"$exists":true}} => yes
{"empty":null} => no
{"empty.x":{"$exists":false}} => yes
{"word":"Zoë"} => yes
{"word":"Zoe"} => no
{"word":{"$gt":"Zoe"}} => yes
{"word":{"$lt":"Zoë\u0000"}} => yes
{"word":{"$lt":"a"}} => yes
{"word":{"$gt":"Zoë"}} => no
{"word":{"$gte":"Zoë"}} => yes
{"word":{"$gte":"Zo"}} => yes
{"word":{"$size":3}} => no
{"$and":[]} => yes
{"$or":[]} => no
{"$not":{}} => no
{"$not":{"$or":[]}} => yes
{"$and":[{"paid":false},{"n":{"$lt":0}}]} => yes
{"$and":[{"paid":false},{"n":{"$gt":0}}]} => no
{"$or":[{"paid":true},{"n":{"$lt":0}}]} => yes
{"$or":[{"paid":true},{"n":{"$gt":0}}]} => no
{"$or":[{}]} => yes
{"$and":[{"$or":[]},{}]} => no
{"$not":{"paid":true}} => yes
{"$not":{"missing":{"$gt":1}}} => yes
{"$not":{"$not":{"paid":false}}} => yes
{"$not":{"$and":[{"paid":false},{"n":0}]}} => yes
{"$and":[{"$and":[{"$and":[]}]}],"$or":[{"n":1},{"$not":{"n":1}}]} => yes
{"paid":false,"n":-1.5,"customer.city":"London"} => yes
{"paid":false,"n":-1.5,"customer.city":"Paris"} => no
{"customer.city":"Paris","paid":false} => no
{"n":{"$eq":-1.5,"$exists":true,"$ne":1,"$in":[-1.5]}} => yes
{"paid":true,"paid":false} => yes
{"paid":false,"paid":true} => no
{"n":{"$gt":-2,"$gt":0}} => no
{"n":{"$gt":0,"$gt":-2}} => yes
{"_id.x":{"$exists":false}} => yes
{"_id":{"$all":["order-1001"]}} => yes
{"n":{"$all":[-1.5,2]}} => no
{"items":{"$ne":{"sku":"B-7","qty":1,"price":5}}} => no
{"items":{"$nin":[{"sku":"B-7"},{"qty":1}]}} => yes
{"items.-1.qty":{"$exists":false}} => yes
{"customer":{"$size":2}} => no
{"empty":{"$size":0}} => no
{"grid.1":{"$size":1e0}} => yes
{"tags":{"$size":-0}} => yes
{"paid":{"$gt":-1}} => no
{"paid":{"$lte":"true"}} => no
{"note":{"$gte":0}} => no
{"customer":{"$gt":""}} => no
{"word":{"$gte":"Zoë","$lte":"Zoë"}} => yes
{"word":{"$lt":"z","$gt":"Zoe","$ne":"Zoë"}} => no
{"placed":{"$gt":"1"}} => no
{"n":{"$lt":-1.499999999999999999}} => yes
{"n":{"$eq":{"$date":-2}}} => no
{"$and":[{"n":{"$exists":true}},{"$not":{"$or":[{"n":0},{"paid":true}]}}]} => yes"#;

// Documents, each with filters and what they say of it.
const OF_DOCUMENTS: [(&str, &str); 5] = [
    (ORDER, OF_ORDER),
    (
        r#"{"_id":"t","tags":["x",null,{"k":1}]}"#,
        r#"{"tags":"x"} => yes
{"tags":null} => yes
{"tags.2.k":1} => yes
{"tags":{"$size":3}} => yes
{"tags":{"$ne":"x"}} => no
{"tags":{"k":1}} => yes
{"tags":{"k":1,"l":2}} => no
{"tags":["x",null,{"k":1}]} => yes
{"tags":["x",null]} => no
{"tags.k":1} => no"#,
    ),
    (
        r#"{"_id":"1","a":{"0":5}}"#,
        r#"{"a.0":5} => yes
{"a":5} => no
{"a":{"$size":1}} => no"#,
    ),
    (
        r#"{"_id":"2","a":[5]}"#,
        r#"{"a.0":5} => yes
{"a":5} => yes
{"a":{"0":5}} => no"#,
    ),
    (
        r#"{"_id":"a"}"#,
        r#"{"x":{"$ne":1}} => yes
{"x":{"$nin":[1]}} => yes
{"$not":{"x":{"$gt":1}}} => yes
{"x":{"$exists":false}} => yes
{"x":null} => no"#,
    ),
];

// Values that are no filters, each with its first fault, and lists of the most operands, and of one more.
const REFUSED: &str = r#"1 => invalid=
[] => invalid=
"x" => invalid=
null => invalid=
true => invalid=
{"$date":5} => invalid=
{"$date":1.5} => unknown=$date
{"":1} => invalid=
{"a..b":1} => invalid=a..b
{".a":1} => invalid=.a
{"a.":1} => invalid=a.
{"a b":1} => invalid=a b
{"é":1} => invalid=é
{"a.$x":1} => invalid=a.$x
{"a":1,"b c":2,"d..e":3} => invalid=b c
{"$near":1} => unknown=$near
{"$":1} => unknown=$
{"$eq":1} => unknown=$eq
{"$exists":true} => unknown=$exists
{"$AND":[]} => unknown=$AND
{"x":{"$near":1}} => unknown=$near
{"x":{"$and":[]}} => unknown=$and
{"x":{"$or":[]}} => unknown=$or
{"x":{"$not":{}}} => unknown=$not
{"x":{"$Eq":1}} => unknown=$Eq
{"x":{"$gt":1,"y":2}} => invalid=x
{"x.y":{"$gt":1,"":2}} => invalid=x.y
{"x":{"$gt":null}} => invalid=x
{"x":{"$gte":true}} => invalid=x
{"x":{"$lt":[1]}} => invalid=x
{"x":{"$lte":{}}} => invalid=x
{"x":{"$in":1}} => invalid=x
{"x":{"$in":{"0":1}}} => invalid=x
{"x":{"$nin":null}} => invalid=x
{"x":{"$all":"a"}} => invalid=x
{"x":{"$exists":1}} => invalid=x
{"x":{"$exists":null}} => invalid=x
{"x":{"$size":-1}} => invalid=x
{"x":{"$size":1.5}} => invalid=x
{"x":{"$size":1000001}} => invalid=x
{"x":{"$size":4294967296}} => invalid=x
{"x":{"$size":"3"}} => invalid=x
{"$and":{}} => invalid=$and
{"$or":1} => invalid=$or
{"$not":[]} => invalid=$not
{"$not":{"$date":5}} => invalid=$not
{"$and":[{},1]} => invalid=$and
{"$or":[{"$date":5}]} => invalid=$or
{"$or":[{"a..b":1},1]} => invalid=a..b
{"$or":[1,{"a..b":1}]} => invalid=$or
{"$not":{"$not":1}} => invalid=$not
{"$and":[{"$or":[{"x":{"$near":1}}]},5],"$foo":1} => unknown=$near
{"b c":{"$near":1}} => invalid=b c
{"x":{"$in":1,"$near":2}} => invalid=x
{"x":{"$near":2,"$in":1}} => unknown=$near
{"x":{"$date":1.5}} => unknown=$date
{"x":{"$date":5,"y":1}} => unknown=$date
{"$and":[],"$nor":[]} => unknown=$nor
{"x":{"$gt":1},"x":{"$near":1}} => unknown=$near
{"$date":5,"x":1} => unknown=$date
{"$and":null} => invalid=$and
{"$or":[[]]} => invalid=$or
{"$not":null} => invalid=$not
{"$or":[{},{"$and":3}]} => invalid=$and
{"$not":{"x":{"$gt":1,"$foo":2,"y":3}}} => unknown=$foo
{"x":{"$all":[1],"":1}} => invalid=x
{"x":{"$size":1000000.5}} => invalid=x
{"x":{"$exists":"true"}} => invalid=x
{"x":{"y":1,"$near":2},"$or":[]," ":1} => invalid= 
{"x":{"$in":[0,0,0,0,0,0,0,0,0,0,0,0,0,0,0,0,0,0,0,0,0,0,0,0,0,0,0,0,0,0,0,0,0,0,0,0,0,0,0,0,0,0,0,0,0,0,0,0,0,0,0,0,0,0,0,0,0,0,0,0,0,0,0,0,0,0,0,0,0,0,0,0,0,0,0,0,0,0,0,0,0,0,0,0,0,0,0,0,0,0,0,0,0,0,0,0,0,0,0,0]}} => none=
{"x":{"$in":[0,0,0,0,0,0,0,0,0,0,0,0,0,0,0,0,0,0,0,0,0,0,0,0,0,0,0,0,0,0,0,0,0,0,0,0,0,0,0,0,0,0,0,0,0,0,0,0,0,0,0,0,0,0,0,0,0,0,0,0,0,0,0,0,0,0,0,0,0,0,0,0,0,0,0,0,0,0,0,0,0,0,0,0,0,0,0,0,0,0,0,0,0,0,0,0,0,0,0,0,0]}} => many=
{"x":{"$nin":[0,0,0,0,0,0,0,0,0,0,0,0,0,0,0,0,0,0,0,0,0,0,0,0,0,0,0,0,0,0,0,0,0,0,0,0,0,0,0,0,0,0,0,0,0,0,0,0,0,0,0,0,0,0,0,0,0,0,0,0,0,0,0,0,0,0,0,0,0,0,0,0,0,0,0,0,0,0,0,0,0,0,0,0,0,0,0,0,0,0,0,0,0,0,0,0,0,0,0,0]}} => none=
{"x":{"$nin":[0,0,0,0,0,0,0,0,0,0,0,0,0,0,0,0,0,0,0,0,0,0,0,0,0,0,0,0,0,0,0,0,0,0,0,0,0,0,0,0,0,0,0,0,0,0,0,0,0,0,0,0,0,0,0,0,0,0,0,0,0,0,0,0,0,0,0,0,0,0,0,0,0,0,0,0,0,0,0,0,0,0,0,0,0,0,0,0,0,0,0,0,0,0,0,0,0,0,0,0,0]}} => many=
{"x":{"$all":[0,0,0,0,0,0,0,0,0,0,0,0,0,0,0,0,0,0,0,0,0,0,0,0,0,0,0,0,0,0,0,0,0,0,0,0,0,0,0,0,0,0,0,0,0,0,0,0,0,0,0,0,0,0,0,0,0,0,0,0,0,0,0,0,0,0,0,0,0,0,0,0,0,0,0,0,0,0,0,0,0,0,0,0,0,0,0,0,0,0,0,0,0,0,0,0,0,0,0,0]}} => none=
{"x":{"$all":[0,0,0,0,0,0,0,0,0,0,0,0,0,0,0,0,0,0,0,0,0,0,0,0,0,0,0,0,0,0,0,0,0,0,0,0,0,0,0,0,0,0,0,0,0,0,0,0,0,0,0,0,0,0,0,0,0,0,0,0,0,0,0,0,0,0,0,0,0,0,0,0,0,0,0,0,0,0,0,0,0,0,0,0,0,0,0,0,0,0,0,0,0,0,0,0,0,0,0,0,0]}} => many="#;

// The document that a text spells, if it is one.
fn document_of(alloc: Global, text: &str) -> Option<Doc> {
    let Ok(value) = read_value(alloc, text.as_bytes()) else {
        return None;
    };
    if !value.has_id_member() {
        return None;
    }
    if value.has_dollar_name() {
        return None;
    }
    match Doc::of_value(alloc, value) {
        Ok(doc) => Some(doc),
        Err(_) => None,
    }
}

// The filter that a text spells, or its first fault.
fn filter_of(alloc: Global, text: &str) -> Result<Filter, FilterFault> {
    match read_value(alloc, text.as_bytes()) {
        Ok(value) => Filter::read(alloc, &value),
        Err(_) => Err(FilterFault::NoMemory),
    }
}

// What a copy of the filter says of the document is as the row has it.
fn says_row(alloc: Global, doc: &Doc, row: &str) -> bool {
    let Some((text, verdict)) = row.split_once(" => ") else {
        return false;
    };
    let Ok(filter) = filter_of(alloc, text) else {
        return false;
    };
    match filter.try_copy(alloc) {
        Ok(copy) => verdict == if copy.test(doc) { "yes" } else { "no" },
        Err(_) => false,
    }
}

#[test]
fn filters_match(rt: HostRuntime) -> Result<(), Fail> {
    let alloc = rt.alloc();
    for (text, rows) in OF_DOCUMENTS {
        let Some(doc) = document_of(alloc, text) else {
            panic!(rt; "no document");
        };
        for row in rows.split('\n') {
            assert!(rt; says_row(alloc, &doc, row), "{row}");
        }
    }
    Ok(())
}

fn is_fault(fault: &FilterFault, kind: &str, told: &str) -> bool {
    match fault {
        FilterFault::Invalid { path } => kind == "invalid" && path.as_str() == told,
        FilterFault::UnknownOperator { name } => kind == "unknown" && name.as_str() == told,
        FilterFault::TooManyOperands { found } => kind == "many" && *found == 101,
        FilterFault::NoMemory => false,
    }
}

fn refuses_row(alloc: Global, row: &str) -> bool {
    let Some((text, fault)) = row.split_once(" => ") else {
        return false;
    };
    let Some((kind, told)) = fault.split_once("=") else {
        return false;
    };
    match filter_of(alloc, text) {
        Ok(_) => kind == "none",
        Err(fault) => is_fault(&fault, kind, told),
    }
}

#[test]
fn first_faults_are_told(rt: HostRuntime) -> Result<(), Fail> {
    for row in REFUSED.split('\n') {
        assert!(rt; refuses_row(rt.alloc(), row), "{row}");
    }
    Ok(())
}

// Filters, each with the equalities that it asks for, in order: of each an object of its path and operand.
const ASKED: &str = r#"{} => []
{"a":1,"b.c":"x"} => [{"a":1},{"b.c":"x"}]
{"_id":"k","n":null,"o":{},"l":[1,2]} => [{"_id":"k"},{"n":null},{"o":{}},{"l":[1,2]}]
{"at":{"$date":5}} => [{"at":{"$date":5}}]
{"a":{"$gt":0,"$eq":1,"$exists":true},"b":{"$ne":1}} => [{"a":1}]
{"$and":[{"a":1},{"$and":[{"b":2},{"a":{"$eq":3}}]}],"c":[]} => [{"a":1},{"b":2},{"a":3},{"c":[]}]
{"$or":[{"a":1}],"b":2} => [{"b":2}]
{"$not":{"$not":{"a":1}}} => []
{"a":{"$in":[1]},"b":{"$all":[1]},"c":{"$gte":1,"$lte":1},"d":{"$size":1}} => []"#;

fn is_asked(equality: &Equality<'_>, wanted: &Value) -> bool {
    let Value::Object(members) = wanted else {
        return false;
    };
    let Some((path, operand)) = members.pair(0) else {
        return false;
    };
    equality.path.text() == path.as_str() && equality.operand.same(operand)
}

fn are_asked(equalities: &[Equality<'_>], wanted: &Items) -> bool {
    if equalities.len() != wanted.len() {
        return false;
    }
    for i in 0..equalities.len() {
        let Some(wanted) = wanted.get(i) else {
            return false;
        };
        if !is_asked(&equalities[i], wanted) {
            return false;
        }
    }
    true
}

fn asks_row(alloc: Global, row: &str) -> bool {
    let Some((text, wanted)) = row.split_once(" => ") else {
        return false;
    };
    let Ok(filter) = filter_of(alloc, text) else {
        return false;
    };
    let Ok(Value::List(wanted)) = read_value(alloc, wanted.as_bytes()) else {
        return false;
    };
    match filter.equalities(alloc) {
        Ok(equalities) => are_asked(&equalities, &wanted),
        Err(_) => false,
    }
}

#[test]
fn equalities_are_asked(rt: HostRuntime) -> Result<(), Fail> {
    for row in ASKED.split('\n') {
        assert!(rt; asks_row(rt.alloc(), row), "{row}");
    }
    Ok(())
}
