// Calls of a keeper in memory: each answer of each method, faults, and many writes against plain numbers.
ghost use Rattle.std.specs.Prelude.{◌≡◌, ◌<◌, ◌-◌, ◌^◌, IfSome};
ghost use Rattle.shred_cols.specs.Row.{id_of};
ghost use Rattle.col_keeper.specs.Tables.{IsShort, KeepsLimits};

use crate::mem::MemKeeper;
use col_keeper::{Dropped, KeepFault, Keeper, Kept2, Made, Stored, Walked, limits_bound_ids};
use doc_limits::check;
use doc_paths::CollName;
use json_text::read_value;
use json_tree::{Doc, DocId, Value};
use shred_cols::{Probe, Row};
use std::alloc::Global;
use std::test::Fail;

// The row of a document that breaks no limit.
fn row_of(alloc: Global, tx: u64, text: &str) -> Option<Row>
    ensures { IfSome result (λ row. (row.tx ≡ tx) × KeepsLimits row.doc × IsShort (id_of row.doc)) }
{
    let Ok(value) = read_value(alloc, text.as_bytes()) else {
        return None;
    };
    if !value.has_id_member() {
        return None;
    }
    if value.has_dollar_name() {
        return None;
    }
    let Ok(()) = check(&value) else {
        return None;
    };
    limits_bound_ids();
    let Ok(doc) = Doc::of_value(alloc, value) else {
        return None;
    };
    match Row::make(alloc, tx, doc) {
        Ok(row) => Some(row),
        Err(_) => None,
    }
}

// The number after the last one: it asks for the list, which is a call.
fn next_number(alloc: Global, keeper: &mut MemKeeper) -> Option<u64>
    ensures { IfSome result (λ tx. (keeper.new.tables.last < tx) × (tx < 2 ^ 63 - 1)) }
{
    match keeper.list(alloc) {
        Ok(listing) => {
            let last = listing.last_tx;
            if last < 9_223_372_036_854_775_806 {
                Some(last + 1)
            } else {
                None
            }
        }
        Err(_) => None,
    }
}

#[derive(Clone, Copy, Drop)]
enum Write {
    Insert,
    Replace,
    Delete,
}

// A write of a document, or of the row of its id, with the next number.
fn write_next(
    alloc: Global,
    keeper: &mut MemKeeper,
    kind: Write,
    coll: &CollName,
    text: &str,
    read: u64,
) -> Option<Kept2> {
    let Some(tx) = next_number(alloc, keeper) else {
        return None;
    };
    let Some(row) = row_of(alloc, tx, text) else {
        return None;
    };
    match kind {
        Write::Insert => Some(keeper.insert_new(alloc, coll, row)),
        Write::Replace => Some(keeper.replace_if(alloc, coll, row, read)),
        Write::Delete => Some(keeper.delete_if(alloc, coll, row.id(), read, tx)),
    }
}

// ---- answers as a word and a number

type Told = (&'static str, u64);

fn told_fault(fault: KeepFault) -> Told {
    match fault {
        KeepFault::NoCollection => ("nowhere", 0),
        KeepFault::Failed => ("failed", 0),
        KeepFault::NoMemory => ("memory", 0),
    }
}

fn told_kept(kept: Option<Kept2>) -> Told {
    match kept {
        None => ("unasked", 0),
        Some(Kept2::Done) => ("done", 0),
        Some(Kept2::Taken { tx }) => ("taken", tx),
        Some(Kept2::Absent) => ("absent", 0),
        Some(Kept2::Other { tx }) => ("other", tx),
        Some(Kept2::NoCollection) => ("nowhere", 0),
        Some(Kept2::Failed) => ("failed", 0),
        Some(Kept2::NoMemory) => ("memory", 0),
    }
}

fn told_made(made: Made) -> Told {
    match made {
        Made::Done => ("done", 0),
        Made::There => ("there", 0),
        Made::Full { found } => ("full", found),
        Made::Failed => ("failed", 0),
        Made::NoMemory => ("memory", 0),
    }
}

fn told_dropped(dropped: Dropped) -> Told {
    match dropped {
        Dropped::Done => ("done", 0),
        Dropped::Absent => ("absent", 0),
        Dropped::Failed => ("failed", 0),
        Dropped::NoMemory => ("memory", 0),
    }
}

fn told_row(row: Result<Option<Row>, KeepFault>) -> Told {
    match row {
        Ok(Some(row)) => ("row", row.tx()),
        Ok(None) => ("none", 0),
        Err(fault) => told_fault(fault),
    }
}

// The row's number, and then how many entries it has.
fn told_stored(row: Result<Option<Stored>, KeepFault>) -> Told {
    match row {
        Ok(Some(row)) => ("row", digit_more(row.tx, row.entries.len() as u64)),
        Ok(None) => ("none", 0),
        Err(fault) => told_fault(fault),
    }
}

// The digits of the rows' numbers, and whether the walk is at its end.
fn told_walk(walked: Result<Walked, KeepFault>) -> Told {
    match walked {
        Ok(walked) => {
            let mut digits = 0;
            for row in &walked.rows {
                digits = digit_more(digits, row.tx());
            }
            (if walked.end { "end" } else { "more" }, digits)
        }
        Err(fault) => told_fault(fault),
    }
}

fn digit_more(digits: u64, digit: u64) -> u64 {
    digits.wrapping_mul(10).wrapping_add(digit)
}

// ---- rows: a call, a collection, a document and a number, and then the answer

#[derive(Clone, Copy)]
struct Call<'a> {
    name: &'a str,
    coll: &'a str,
    text: &'a str,
    number: u64,
}

fn number_of(text: &str) -> u64 {
    let mut digits = 0;
    for byte in text.as_bytes() {
        digits = digit_more(digits, byte.wrapping_sub(b'0') as u64);
    }
    digits
}

fn call_of(row: &str) -> Option<Call<'_>> {
    let (name, rest) = row.split_once(" ")?;
    let (coll, rest) = rest.split_once(" ")?;
    let (text, number) = rest.split_once(" ")?;
    Some(Call {
        name,
        coll,
        text,
        number: number_of(number),
    })
}

fn write_of(name: &str) -> Option<Write> {
    if name == "insert" {
        Some(Write::Insert)
    } else if name == "replace" {
        Some(Write::Replace)
    } else if name == "delete" {
        Some(Write::Delete)
    } else {
        None
    }
}

// What a call answers that asks for an id, or for what comes after it.
fn look(
    alloc: Global,
    keeper: &mut MemKeeper,
    call: Call<'_>,
    coll: &CollName,
    id: Option<&DocId>,
) -> Told {
    if call.name == "stored" {
        return told_stored(keeper.stored(alloc, coll, id));
    }
    let up_to = call.number as usize;
    if up_to > 0 {
        return told_walk(keeper.walk(alloc, coll, &Probe::All, id, up_to));
    }
    match id {
        Some(id) => told_row(keeper.get(alloc, coll, id)),
        None => ("unasked", 0),
    }
}

fn look_of(alloc: Global, keeper: &mut MemKeeper, call: Call<'_>, coll: &CollName) -> Told {
    match row_of(alloc, 0, call.text) {
        Some(row) => look(alloc, keeper, call, coll, Some(row.id())),
        None => look(alloc, keeper, call, coll, None),
    }
}

// What a call answers, after the call for the next number.
fn answer(alloc: Global, keeper: &mut MemKeeper, call: Call<'_>) -> Told {
    let Ok(coll) = CollName::read(alloc, call.coll) else {
        return ("unasked", 0);
    };
    if let Some(kind) = write_of(call.name) {
        return told_kept(write_next(alloc, keeper, kind, &coll, call.text, call.number));
    }
    let _number = next_number(alloc, keeper);
    if call.name == "create" {
        told_made(keeper.create(alloc, &coll, call.number))
    } else if call.name == "drop" {
        told_dropped(keeper.drop_coll(alloc, &coll))
    } else {
        look_of(alloc, keeper, call, &coll)
    }
}

fn answers_row(alloc: Global, keeper: &mut MemKeeper, row: &str) -> bool {
    let Some((call, told)) = row.split_once(" => ") else {
        return false;
    };
    let Some((word, number)) = told.split_once(" ") else {
        return false;
    };
    let Some(call) = call_of(call) else {
        return false;
    };
    let (own, found) = answer(alloc, keeper, call);
    own == word && found == number_of(number)
}

// The first row that isn't so, or nothing.
fn first_wrong<'a>(alloc: Global, keeper: &mut MemKeeper, rows: &'a str) -> &'a str {
    for row in rows.split('\n') {
        if !answers_row(alloc, keeper, row) {
            return row;
        }
    }
    ""
}

// One collection of this name is listed, and this number as the last one.
fn lists(alloc: Global, keeper: &mut MemKeeper, name: &str, last: u64) -> bool {
    match keeper.list(alloc) {
        Ok(listing) => match listing.names.get(0) {
            Some(only) => {
                only.text() == name && listing.names.len() == 1 && listing.last_tx == last
            }
            None => false,
        },
        Err(_) => false,
    }
}

const ANSWERS: &str = r#"create c {} 2 => done 0
create c {} 2 => there 0
create d {} 1 => full 1
create d {} 2 => done 0
insert d {"_id":"a","n":1} 0 => done 0
insert c {"_id":"a","n":1} 0 => done 0
insert c {"_id":"a","n":2} 0 => taken 2
insert x {"_id":"a","n":1} 0 => nowhere 0
replace c {"_id":"b"} 2 => absent 0
replace c {"_id":"a","n":2} 1 => other 2
replace x {"_id":"a","n":2} 2 => nowhere 0
replace c {"_id":"a","n":2} 2 => done 0
insert c {"_id":"b"} 0 => done 0
get c {"_id":"a"} 0 => row 3
get d {"_id":"a"} 0 => row 1
get d {"_id":"b"} 0 => none 0
get x {"_id":"a"} 0 => nowhere 0
walk c {} 1 => more 3
walk c {} 2 => end 34
walk c {"_id":"a"} 1 => end 4
walk c {"_id":"b"} 1 => end 0
walk x {} 1 => nowhere 0
stored c {} 0 => row 36
stored c {"_id":"a"} 0 => row 43
stored c {"_id":"b"} 0 => none 0
stored x {} 0 => nowhere 0
delete c {"_id":"a"} 2 => other 3
delete x {"_id":"a"} 3 => nowhere 0
delete c {"_id":"a"} 3 => done 0
delete c {"_id":"a"} 3 => absent 0
drop c {} 0 => done 0
drop c {} 0 => absent 0
get d {"_id":"a"} 0 => row 1"#;

#[test]
fn each_answer_comes(rt: HostRuntime) -> Result<(), Fail> {
    let alloc = rt.alloc();
    let mut keeper = MemKeeper::new(alloc, Vec::new(alloc), 0);
    assert_eq!(rt; first_wrong(alloc, &mut keeper, ANSWERS), "");
    assert!(rt; lists(alloc, &mut keeper, "d", 5));
    assert_eq!(rt; keeper.faults(), 0);
    Ok(())
}

// each second call fails: the one after the call for the number
const FAILED: &str = r#"create c {} 1 => done 0
create d {} 2 => failed 0
drop c {} 0 => failed 0
insert c {"_id":"a","n":1} 0 => failed 0
replace c {"_id":"a","n":1} 0 => failed 0
delete c {"_id":"a","n":1} 0 => failed 0
get c {"_id":"a","n":1} 0 => failed 0
walk c {} 1 => failed 0
stored c {} 0 => failed 0
create e {} 2 => failed 0
walk c {} 1 => end 0
insert c {"_id":"a","n":1} 0 => done 0
get c {"_id":"a"} 0 => row 1"#;

#[test]
fn listed_calls_fail(rt: HostRuntime) -> Result<(), Fail> {
    let alloc = rt.alloc();
    let fails = Vec::from_array(alloc, [4, 6, 8, 10, 12, 14, 16, 18, 20, 27])?;
    let mut keeper = MemKeeper::new(alloc, fails, 0);
    assert_eq!(rt; first_wrong(alloc, &mut keeper, FAILED), "");
    assert_eq!(rt; next_number(alloc, &mut keeper), None);
    assert_eq!(rt; next_number(alloc, &mut keeper), Some(2));
    assert_eq!(rt; keeper.faults(), 10);
    Ok(())
}

// ---- many writes

// What is to be answered where the id has the number `there`, or isn't there and that is 0.
fn wanted(kind: Write, there: u64, read: u64) -> Kept2 {
    match kind {
        Write::Insert if there == 0 => Kept2::Done,
        Write::Insert => Kept2::Taken { tx: there },
        _ if there == 0 => Kept2::Absent,
        _ if there == read => Kept2::Done,
        _ => Kept2::Other { tx: there },
    }
}

// The number that the id has after a write that is done.
fn after(kind: Write, tx: u64) -> u64 {
    match kind {
        Write::Delete => 0,
        _ => tx,
    }
}

// One write of an id by chance, and whether it is done, or is answered otherwise than wanted.
fn write_by_chance(
    alloc: Global,
    keeper: &mut MemKeeper,
    coll: &CollName,
    there: &mut u64,
    chance: u64,
    tx: u64,
) -> Option<bool> {
    let id = (chance >> 33) % 200;
    let Ok(text) = format!(in alloc; "{{\"_id\":{id},\"n\":{tx}}}") else {
        return None;
    };
    let read = if chance >> 60 == 0 { 0 } else { *there };
    let kind = match (chance >> 20) % 3 {
        0 => Write::Insert,
        1 => Write::Replace,
        _ => Write::Delete,
    };
    let kept = write_next(alloc, keeper, kind, coll, text.as_str(), read)?;
    if kept != wanted(kind, *there, read) {
        return None;
    }
    if kept == Kept2::Done {
        *there = after(kind, tx);
        return Some(true);
    }
    Some(false)
}

// The row is one of the numbers, by its id.
fn is_among(numbers: &[u64], row: &Row) -> bool {
    let Value::Num(n) = row.id().value() else {
        return false;
    };
    let Ok(id) = usize::try_from(n.units() / 1_000_000_000_000_000_000) else {
        return false;
    };
    match numbers.get(id) {
        Some(number) => *number == row.tx(),
        None => false,
    }
}

// How many rows there are, each among the numbers, and no more.
fn count(alloc: Global, keeper: &mut MemKeeper, coll: &CollName, numbers: &[u64]) -> usize {
    let Ok(walked) = keeper.walk(alloc, coll, &Probe::All, None, 1_000) else {
        return 0;
    };
    for row in &walked.rows {
        if !is_among(numbers, row) {
            return 0;
        }
    }
    if walked.end { walked.rows.len() } else { 0 }
}

#[test]
fn many_writes_as_in_plain_numbers(rt: HostRuntime) -> Result<(), Fail> {
    let alloc = rt.alloc();
    let mut keeper = MemKeeper::new(alloc, Vec::new(alloc), 0);
    let coll = CollName::read(alloc, "c")?;
    assert_eq!(rt; keeper.create(alloc, &coll, 1), Made::Done);
    let mut numbers = [0u64; 200];
    let mut chance = 12_345u64;
    let mut tx = 1u64;
    for i in 0..10_000u64 {
        chance = chance
            .wrapping_mul(6_364_136_223_846_793_005)
            .wrapping_add(1_442_695_040_888_963_407);
        let Some(there) = numbers.get_mut(((chance >> 33) % 200) as usize) else {
            panic!(rt; "no id at {i}");
        };
        let Some(done) = write_by_chance(alloc, &mut keeper, &coll, there, chance, tx) else {
            panic!(rt; "another answer at {i}");
        };
        if done {
            tx = tx.saturating_add(1);
        }
    }
    assert!(rt; tx > 4_000);
    let mut rows = 0usize;
    for number in &numbers {
        if *number > 0 {
            rows = rows.saturating_add(1);
        }
    }
    assert_eq!(rt; count(alloc, &mut keeper, &coll, &numbers), rows);
    Ok(())
}
