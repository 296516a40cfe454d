// Updates applied to documents.
ghost use Rattle.std.specs.Prelude.{◌≡◌, ◌↔◌, Ok, Some, true, false, option_map, map, IfOk, IfErr};
ghost use Rattle.json_tree.specs.View.{tree};
ghost use Rattle.doc_paths.specs.Text.{parts};
ghost use Rattle.doc_paths.specs.At.{at};
ghost use Rattle.json_tree.specs.Doc.{IsDocument};
ghost use Rattle.update_ops.specs.Safe.{are_safe};
ghost use Rattle.update_ops.specs.View.{clause_of, done_by, standing};
ghost use Rattle.update_ops.specs.Apply.{Gives, Puts, put_made, made, effect, applied, within_limits, apply, is_changed};
ghost use Rattle.update_ops.specs.declared.update.Applied.{Applied};
ghost use Rattle.update_ops.specs.declared.fault.UpdateFault.TheVariants.{NoMemory};

use crate::draft::{put, put_copy, rename, standing, unset};
use crate::fault::UpdateFault;
use crate::lists::{added, popped, pushed};
use crate::making::{greater, increased, lesser, multiplied};
use crate::update::{Applied, Clause, Effect, Updates};
use doc_limits::check;
use doc_paths::Path;
use json_tree::{Doc, Value, same_decides};
use std::alloc::Global;

/// What an operator whose effect depends on the value at the path puts there. None: nothing, or the value
/// that is there.
fn made(
    alloc: Global,
    path: &Path,
    there: Option<&Value>,
    what: &Effect,
) -> Result<Option<Value>, UpdateFault>
    ensures { Puts (option_map (λ v. tree v.now) there.entry) result (made path.now (done_by what.now) (option_map (λ v. tree v.now) there.entry)) }
{
    match what {
        Effect::Inc(n) => increased(alloc, path, there, n),
        Effect::Mul(n) => multiplied(alloc, path, there, n),
        Effect::Min(operand) => lesser(alloc, path, there, operand),
        Effect::Max(operand) => greater(alloc, path, there, operand),
        Effect::Push(values, place) => pushed(alloc, path, there, values, *place),
        Effect::Pop(last) => popped(alloc, path, there, *last),
        Effect::AddToSet(values) => added(alloc, path, there, values),
        _ => Ok(None),
    }
}

/// Puts what was made, if anything.
fn put_some(
    alloc: Global,
    path: &Path,
    given: &Value,
    changed: Option<Value>,
    made: Option<Value>,
) -> Result<Option<Value>, UpdateFault>
    ensures { Gives (standing (tree given.now)) result (put_made path.now (standing (tree given.now) changed) (Ok (option_map tree made))) }
{
    match made {
        Some(new) => put(alloc, path, given, changed, new),
        None => Ok(changed),
    }
}

/// Puts what an operator makes of the value at the path.
fn make(
    alloc: Global,
    path: &Path,
    given: &Value,
    changed: Option<Value>,
    what: &Effect,
) -> Result<Option<Value>, UpdateFault>
    ensures { Gives (standing (tree given.now)) result (put_made path.now (standing (tree given.now) changed) (made path.now (done_by what.now) (at (standing (tree given.now) changed) (parts path.now)))) }
{
    match made(alloc, path, path.at(standing(given, &changed)), what) {
        Ok(made) => put_some(alloc, path, given, changed, made),
        Err(fault) => Err(fault),
    }
}

fn apply_effect(
    alloc: Global,
    clause: &Clause,
    moment: i64,
    on_insert: bool,
    given: &Value,
    changed: Option<Value>,
) -> Result<Option<Value>, UpdateFault>
    ensures { Gives (standing (tree given.now)) result (effect moment on_insert clause.now.path (done_by clause.now.effect) (standing (tree given.now) changed)) }
{
    let path = &clause.path;
    match &clause.effect {
        Effect::Set(operand) => put_copy(alloc, path, given, changed, operand),
        Effect::Unset => unset(alloc, path, given, changed),
        Effect::Rename(to) => rename(alloc, path, given, changed, to),
        Effect::SetOnInsert(operand) => {
            if on_insert {
                return put_copy(alloc, path, given, changed, operand);
            }
            Ok(changed)
        }
        Effect::CurrentDate => put(alloc, path, given, changed, Value::Date(moment)),
        what => make(alloc, path, given, changed, what),
    }
}

/// What stands after all clauses, where it isn't the given value any more.
fn apply_all(
    alloc: Global,
    clauses: &[Clause],
    moment: i64,
    on_insert: bool,
    given: &Value,
) -> Result<Option<Value>, UpdateFault>
    ensures { Gives (standing (tree given.now)) result (applied moment on_insert (map clause_of clauses.now) (tree given.now)) }
{
    let mut changed = None;
    for clause in clauses {
        changed = match apply_effect(alloc, clause, moment, on_insert, given, changed) {
            Ok(changed) => changed,
            Err(fault) => return Err(fault),
        };
    }
    Ok(changed)
}

pub(crate) fn within_limits(value: &Value) -> Result<(), UpdateFault>
    ensures { Gives (λ _. tree value.now) result (within_limits (tree value.now)) }
{
    match check(value) {
        Ok(()) => Ok(()),
        Err(broken) => Err(UpdateFault::Broken(broken)),
    }
}

/// What the clauses make of a value, where it isn't that value any more.
pub(crate) fn changed_by(
    alloc: Global,
    clauses: &[Clause],
    moment: i64,
    on_insert: bool,
    given: &Value,
) -> Result<Option<Value>, UpdateFault>
    ensures { Gives (standing (tree given.now)) result (apply (map clause_of clauses.now) (tree given.now) moment on_insert) }
{
    let changed = match apply_all(alloc, clauses, moment, on_insert, given) {
        Ok(changed) => changed,
        Err(fault) => return Err(fault),
    };
    match within_limits(standing(given, &changed)) {
        Ok(()) => Ok(changed),
        Err(fault) => Err(fault),
    }
}

impl Updates {
    /// What the update makes of a document, or the first refusal. `$setOnInsert` counts only where the
    /// document is new. The document is copied at the first change, once, and not at all where nothing
    /// changes.
    pub fn apply(
        &self,
        alloc: Global,
        doc: &Doc,
        moment: i64,
        on_insert: bool,
    ) -> Result<Applied, UpdateFault>
        ensures makes { Gives (λ (a : Applied). a.doc) result (apply self.now doc.now moment on_insert) }
        ensures changed { IfOk result (λ a. a.changed ≡ is_changed doc.now a.doc) }
        ensures same { IfOk result (λ a. (a.changed ≡ false) ↔ (a.doc ≡ doc.now)) }
        ensures safe { are_safe self.now ≡ true }
    {
        match changed_by(alloc, &self.clauses, moment, on_insert, doc.value()) {
            Ok(Some(new)) => applied(alloc, doc, new),
            Ok(None) => unchanged(alloc, doc),
            Err(fault) => Err(fault),
        }
    }
}

/// The document that a value is, which is the old one where nothing differs.
fn applied(alloc: Global, old: &Doc, new: Value) -> Result<Applied, UpdateFault>
    requires { IsDocument (tree new) }
    ensures doc { IfOk result (λ a. a.doc ≡ tree new) }
    ensures changed { IfOk result (λ a. a.changed ≡ is_changed old.now a.doc) }
    ensures same { IfOk result (λ a. (a.changed ≡ false) ↔ (a.doc ≡ old.now)) }
    ensures err { IfErr result (λ e. e ≡ NoMemory) }
{
    if old.value().same(&new) {
        return unchanged(alloc, old);
    }
    match Doc::of_value(alloc, new) {
        Ok(doc) => Ok(Applied { doc, changed: true }),
        Err(_) => Err(UpdateFault::NoMemory),
    }
}

/// A copy of the old document, which shares its value.
fn unchanged(alloc: Global, old: &Doc) -> Result<Applied, UpdateFault>
    ensures doc { IfOk result (λ a. a.doc ≡ old.now) }
    ensures not { IfOk result (λ a. a.changed ≡ false) }
    ensures changed { IfOk result (λ a. a.changed ≡ is_changed old.now a.doc) }
    ensures err { IfErr result (λ e. e ≡ NoMemory) }
{
    same_decides();
    match old.try_copy(alloc) {
        Ok(doc) => Ok(Applied {
            doc,
            changed: false,
        }),
        Err(_) => Err(UpdateFault::NoMemory),
    }
}
