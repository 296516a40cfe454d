// A value that clauses change: the given one stands until the first change, which makes a copy.
ghost use Rattle.std.specs.Prelude.{◌≡◌, true, Some, Ok, IfOk, IfErr};
ghost use Rattle.json_tree.specs.View.{tree};
ghost use Rattle.doc_paths.specs.Text.{parts};
ghost use Rattle.doc_paths.specs.At.{at};
ghost use Rattle.doc_paths.specs.Change.{without};
ghost use Rattle.update_ops.specs.View.{standing};
ghost use Rattle.update_ops.specs.Apply.{Gives, put_at, moved};
ghost use Rattle.update_ops.specs.declared.fault.UpdateFault.TheVariants.{NoMemory};

use crate::copies::copy;
use crate::fault::UpdateFault;
use crate::making::wrong_target;
use doc_paths::{Path, PathFault};
use json_tree::Value;
use std::alloc::Global;

/// What stands: what was changed, or else the given value.
pub(crate) fn standing<'a>(given: &'a Value, changed: &'a Option<Value>) -> &'a Value
    ensures { tree result.now ≡ standing (tree given.now) changed.now }
{
    match changed {
        Some(value) => value,
        None => given,
    }
}

/// What stands, to be changed.
fn own(alloc: Global, given: &Value, changed: Option<Value>) -> Result<Value, UpdateFault>
    ensures ok { IfOk result (λ v. tree v ≡ standing (tree given.now) changed) }
    ensures err { IfErr result (λ e. e ≡ NoMemory) }
{
    match changed {
        Some(value) => Ok(value),
        None => copy(alloc, given),
    }
}

/// Whether the value at a path is the same as another one.
fn is_there(path: &Path, value: &Value, new: &Value) -> bool
    ensures { result ≡ true → at (tree value.now) (parts path.now) ≡ Some (tree new.now) }
{
    match path.at(value) {
        Some(there) => there.same(new),
        None => false,
    }
}

pub(crate) fn put_into(
    alloc: Global,
    path: &Path,
    value: &mut Value,
    new: Value,
) -> Result<(), UpdateFault>
    ensures { Gives (λ _. tree value.new) result (put_at path.now (tree new) (tree value.old)) }
{
    match path.put_at(alloc, value, new) {
        Ok(()) => Ok(()),
        Err(PathFault::NoMemory) => Err(UpdateFault::NoMemory),
        Err(_) => Err(wrong_target(alloc, path.text())),
    }
}

fn put_new(
    alloc: Global,
    path: &Path,
    given: &Value,
    changed: Option<Value>,
    new: Value,
) -> Result<Option<Value>, UpdateFault>
    ensures { Gives (standing (tree given.now)) result (put_at path.now (tree new) (standing (tree given.now) changed)) }
{
    let mut value = own(alloc, given, changed)?;
    match put_into(alloc, path, &mut value, new) {
        Ok(()) => Ok(Some(value)),
        Err(fault) => Err(fault),
    }
}

/// Puts a value at a path. Nothing is done where the same one is there.
pub(crate) fn put(
    alloc: Global,
    path: &Path,
    given: &Value,
    changed: Option<Value>,
    new: Value,
) -> Result<Option<Value>, UpdateFault>
    ensures { Gives (standing (tree given.now)) result (put_at path.now (tree new) (standing (tree given.now) changed)) }
{
    if is_there(path, standing(given, &changed), &new) {
        return Ok(changed);
    }
    put_new(alloc, path, given, changed, new)
}

/// Puts a copy of a value at a path, in the same way.
pub(crate) fn put_copy(
    alloc: Global,
    path: &Path,
    given: &Value,
    changed: Option<Value>,
    operand: &Value,
) -> Result<Option<Value>, UpdateFault>
    ensures { Gives (standing (tree given.now)) result (put_at path.now (tree operand.now) (standing (tree given.now) changed)) }
{
    if is_there(path, standing(given, &changed), operand) {
        return Ok(changed);
    }
    match copy(alloc, operand) {
        Ok(new) => put_new(alloc, path, given, changed, new),
        Err(fault) => Err(fault),
    }
}

fn take_out(alloc: Global, path: &Path, value: &mut Value)
    ensures { tree value.new ≡ without (tree value.old) (parts path.now) }
{
    match path.take_at(alloc, value) {
        Ok(_) => {}
        Err(_) => unreachable!(),
    }
}

/// Takes the value at a path, if there is one.
pub(crate) fn unset(
    alloc: Global,
    path: &Path,
    given: &Value,
    changed: Option<Value>,
) -> Result<Option<Value>, UpdateFault>
    ensures { Gives (standing (tree given.now)) result (Ok (without (standing (tree given.now) changed) (parts path.now))) }
{
    if path.at(standing(given, &changed)).is_none() {
        return Ok(changed);
    }
    let mut value = own(alloc, given, changed)?;
    take_out(alloc, path, &mut value);
    Ok(Some(value))
}

fn move_inside(alloc: Global, path: &Path, value: &mut Value, to: &Path) -> Result<(), UpdateFault>
    ensures { Gives (λ _. tree value.new) result (moved path.now to.now (tree value.old) (at (tree value.old) (parts path.now))) }
{
    match path.take_at(alloc, value) {
        Ok(Some(taken)) => put_into(alloc, to, value, taken),
        Ok(None) => Ok(()),
        Err(_) => unreachable!(),
    }
}

/// Moves the value at a path, if there is one, to another path.
pub(crate) fn rename(
    alloc: Global,
    path: &Path,
    given: &Value,
    changed: Option<Value>,
    to: &Path,
) -> Result<Option<Value>, UpdateFault>
    ensures { Gives (standing (tree given.now)) result (moved path.now to.now (standing (tree given.now) changed) (at (standing (tree given.now) changed) (parts path.now))) }
{
    if path.at(standing(given, &changed)).is_none() {
        return Ok(changed);
    }
    let mut value = own(alloc, given, changed)?;
    match move_inside(alloc, path, &mut value, to) {
        Ok(()) => Ok(Some(value)),
        Err(fault) => Err(fault),
    }
}
