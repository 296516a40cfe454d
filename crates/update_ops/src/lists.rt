// What operators on lists put in the place of the value at a path.
ghost use Rattle.std.specs.Prelude.{◌≡◌, ◌≤◌, ◌<◌, ◌-◌, ◌++◌, ◌∷◌, [], length, take, drop, option_map, IfOk, IfErr, OnOk, Ok, Some};
ghost use Rattle.json_tree.specs.Tree.{list, elements_of};
ghost use Rattle.json_tree.specs.View.{tree};
ghost use Rattle.update_ops.specs.Apply.{Gives, Puts, elements, listed, place_in, pushed, added, popped, shortened};
ghost use Rattle.update_ops.specs.View.{trees};
ghost use Rattle.update_ops.specs.declared.fault.UpdateFault.TheVariants.{NoMemory};

use crate::copies::{copy, copy_items};
use crate::fault::UpdateFault;
use crate::fresh::fresh;
use crate::making::wrong_target;
use doc_paths::Path;
use json_tree::{Items, Value};
use std::alloc::Global;

/// Adds copies of the elements from one place up to another.
pub(crate) fn add_range(
    alloc: Global,
    out: &mut Items,
    items: &Items,
    from: usize,
    to: usize,
) -> Result<(), UpdateFault>
    requires order { from ≤ to }
    requires within { to ≤ length items.now }
    ensures ok { OnOk result (out.new ≡ out.old ++ drop from (take to items.now)) }
    ensures err { IfErr result (λ e. e ≡ NoMemory) }
{
    for i in from..to {
        let Some(item) = items.get(i) else {
            unreachable!()
        };
        push_copy(alloc, out, item)?;
    }
    Ok(())
}

fn push_copy(alloc: Global, out: &mut Items, item: &Value) -> Result<(), UpdateFault>
    ensures ok { OnOk result (out.new ≡ out.old ++ tree item.now ∷ []) }
    ensures err { IfErr result (λ e. e ≡ NoMemory) }
{
    let item = copy(alloc, item)?;
    match out.push(item) {
        Ok(()) => Ok(()),
        Err(_) => Err(UpdateFault::NoMemory),
    }
}

fn place_from_end(len: usize, back: u64) -> usize
    ensures { result ≡ len - back }
{
    if back < len as u64 {
        len - back as usize
    } else {
        0
    }
}

/// The place before which values go: at most the length; a negative one counts from the end.
fn place_in(len: usize, place: Option<i64>) -> usize
    ensures value { result ≡ place_in len place }
    ensures within { result ≤ len }
{
    match place {
        None => len,
        Some(k) => {
            if k < 0 {
                return place_from_end(len, k.unsigned_abs());
            }
            if (k as u64) < len as u64 {
                return k as usize;
            }
            len
        }
    }
}

fn pushed_into(
    alloc: Global,
    items: &Items,
    values: &Items,
    place: Option<i64>,
) -> Result<Items, UpdateFault>
    ensures ok { IfOk result (λ r. r ≡ pushed values.now place items.now) }
    ensures err { IfErr result (λ e. e ≡ NoMemory) }
{
    let place = place_in(items.len(), place);
    let mut out = Items::new(alloc);
    add_range(alloc, &mut out, items, 0, place)?;
    add_range(alloc, &mut out, values, 0, values.len())?;
    add_range(alloc, &mut out, items, place, items.len())?;
    Ok(out)
}

fn pushed_list(
    alloc: Global,
    items: &Items,
    values: &Items,
    place: Option<i64>,
) -> Result<Option<Value>, UpdateFault>
    ensures ok { IfOk result (λ r. option_map tree r ≡ Some (list (elements_of (pushed values.now place items.now)))) }
    ensures err { IfErr result (λ e. e ≡ NoMemory) }
{
    match pushed_into(alloc, items, values, place) {
        Ok(items) => Ok(Some(Value::List(items))),
        Err(fault) => Err(fault),
    }
}

fn push_to(
    alloc: Global,
    path: &Path,
    there: &Value,
    values: &Items,
    place: Option<i64>,
) -> Result<Option<Value>, UpdateFault>
    ensures { Gives (option_map tree) result (listed (pushed values.now place) (elements path.now (Some (tree there.now)))) }
{
    match there {
        Value::List(items) => pushed_list(alloc, items, values, place),
        _ => Err(wrong_target(alloc, path.text())),
    }
}

/// Values put before a place in the list that is there.
pub(crate) fn pushed(
    alloc: Global,
    path: &Path,
    there: Option<&Value>,
    values: &Items,
    place: Option<i64>,
) -> Result<Option<Value>, UpdateFault>
    ensures { Gives (option_map tree) result (listed (pushed values.now place) (elements path.now (option_map (λ v. tree v.now) there.entry))) }
{
    match there {
        Some(there) => push_to(alloc, path, there, values, place),
        None => pushed_list(alloc, &Items::new(alloc), values, place),
    }
}

/// The list with values at its end.
fn extended(alloc: Global, items: &Items, values: &[&Value]) -> Result<Value, UpdateFault>
    ensures ok { IfOk result (λ v. tree v ≡ list (elements_of (items.now ++ trees values.now))) }
    ensures err { IfErr result (λ e. e ≡ NoMemory) }
{
    let mut out = copy_items(alloc, items)?;
    for value in values {
        push_copy(alloc, &mut out, value)?;
    }
    Ok(Value::List(out))
}

fn add_to_list(alloc: Global, items: &Items, values: &Items) -> Result<Option<Value>, UpdateFault>
    ensures { Puts (Some (list (elements_of items.now))) result (Ok (Some (list (elements_of (added values.now items.now))))) }
{
    let values = fresh(alloc, items.as_slice(), values.as_slice())?;
    if values.is_empty() {
        return Ok(None);
    }
    Ok(Some(extended(alloc, items, values.as_slice())?))
}

fn add_to(
    alloc: Global,
    path: &Path,
    there: &Value,
    values: &Items,
) -> Result<Option<Value>, UpdateFault>
    ensures { Puts (Some (tree there.now)) result (listed (added values.now) (elements path.now (Some (tree there.now)))) }
{
    match there {
        Value::List(items) => add_to_list(alloc, items, values),
        _ => Err(wrong_target(alloc, path.text())),
    }
}

fn added_alone(alloc: Global, values: &Items) -> Result<Option<Value>, UpdateFault>
    ensures { Gives (option_map tree) result (Ok (Some (list (elements_of (added values.now []))))) }
{
    let none = Items::new(alloc);
    let values = fresh(alloc, none.as_slice(), values.as_slice())?;
    Ok(Some(extended(alloc, &none, values.as_slice())?))
}

/// Each value that no element is the same as, put at the end of the list that is there. None where
/// every value has such an element.
pub(crate) fn added(
    alloc: Global,
    path: &Path,
    there: Option<&Value>,
    values: &Items,
) -> Result<Option<Value>, UpdateFault>
    ensures { Puts (option_map (λ v. tree v.now) there.entry) result (listed (added values.now) (elements path.now (option_map (λ v. tree v.now) there.entry))) }
{
    match there {
        Some(there) => add_to(alloc, path, there, values),
        None => added_alone(alloc, values),
    }
}

fn popped_from(alloc: Global, items: &Items, last: bool) -> Result<Items, UpdateFault>
    requires { 0 < length items.now }
    ensures ok { IfOk result (λ r. r ≡ popped last items.now) }
    ensures err { IfErr result (λ e. e ≡ NoMemory) }
{
    let mut out = Items::new(alloc);
    if last {
        add_range(alloc, &mut out, items, 0, items.len() - 1)?;
    } else {
        add_range(alloc, &mut out, items, 1, items.len())?;
    }
    Ok(out)
}

fn popped_list(alloc: Global, items: &Items, last: bool) -> Result<Option<Value>, UpdateFault>
    ensures { Gives (option_map tree) result (shortened last (Ok items.now)) }
{
    if items.len() == 0 {
        return Ok(None);
    }
    match popped_from(alloc, items, last) {
        Ok(items) => Ok(Some(Value::List(items))),
        Err(fault) => Err(fault),
    }
}

fn pop_from(
    alloc: Global,
    path: &Path,
    there: &Value,
    last: bool,
) -> Result<Option<Value>, UpdateFault>
    ensures { Gives (option_map tree) result (shortened last (elements path.now (Some (tree there.now)))) }
{
    match there {
        Value::List(items) => popped_list(alloc, items, last),
        _ => Err(wrong_target(alloc, path.text())),
    }
}

/// The list that is there without its last or first element.
pub(crate) fn popped(
    alloc: Global,
    path: &Path,
    there: Option<&Value>,
    last: bool,
) -> Result<Option<Value>, UpdateFault>
    ensures { Gives (option_map tree) result (shortened last (elements path.now (option_map (λ v. tree v.now) there.entry))) }
{
    match there {
        Some(there) => pop_from(alloc, path, there, last),
        None => Ok(None),
    }
}
