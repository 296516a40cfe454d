// Paths of an update: those that overlap, and those to the id.
ghost use Rattle.std.specs.Prelude.{◌≡◌, ◌⊎◌, ◌≤◌, ◌<◌, ◌++◌, ◌∷◌, [], length, take, ℕ, true, IfOk, IfErr, OnOk, IfSome, IsTrue, option_map, map};
ghost use Rattle.std.specs.List.{find, list_any};
ghost use Rattle.doc_paths.specs.Text.{parts, base_parts};
ghost use Rattle.update_ops.specs.View.{clause_of, done_by};
ghost use Rattle.update_ops.specs.Faults.{new_path, clause_paths, paths_of, overlap, overlap_in, of_id, path_fault};
ghost use Rattle.update_ops.specs.Reads.{Checks};
ghost use Rattle.update_ops.specs.declared.fault.UpdateFault.TheVariants.{Overlap, TouchesId, NoMemory};

use crate::by_parts::{are_apart, first_part, likely_end, overlap, sorted};
use crate::copies::copy_path;
use crate::fault::UpdateFault;
use crate::update::{Clause, Effect};
use doc_paths::Path;
use json_tree::Text;
use std::alloc::Global;

fn overlapping(alloc: Global, first: &str, second: &str) -> UpdateFault
    ensures { (result ≡ NoMemory) ⊎ (result ≡ Overlap first.now second.now) }
{
    let first = match Text::of_str(alloc, first) {
        Ok(first) => first,
        Err(_) => return UpdateFault::NoMemory,
    };
    match Text::of_str(alloc, second) {
        Ok(second) => UpdateFault::Overlap { first, second },
        Err(_) => UpdateFault::NoMemory,
    }
}

fn add_path(alloc: Global, paths: &mut Vec<Path>, path: &Path) -> Result<(), UpdateFault>
    ensures ok { OnOk result (paths.new.items ≡ paths.old.items ++ path.now ∷ []) }
    ensures err { IfErr result (λ e. e ≡ NoMemory) }
{
    let path = copy_path(alloc, path)?;
    paths.push(path)?;
    Ok(())
}

fn add_new_path(alloc: Global, paths: &mut Vec<Path>, what: &Effect) -> Result<(), UpdateFault>
    ensures ok { OnOk result (paths.new.items ≡ paths.old.items ++ new_path (done_by what.now)) }
    ensures err { IfErr result (λ e. e ≡ NoMemory) }
{
    match what {
        Effect::Rename(to) => add_path(alloc, paths, to),
        _ => Ok(()),
    }
}

fn add_paths(alloc: Global, paths: &mut Vec<Path>, clause: &Clause) -> Result<(), UpdateFault>
    ensures ok { OnOk result (paths.new.items ≡ paths.old.items ++ clause_paths (clause_of clause.now)) }
    ensures err { IfErr result (λ e. e ≡ NoMemory) }
{
    match add_path(alloc, paths, &clause.path) {
        Ok(()) => add_new_path(alloc, paths, &clause.effect),
        Err(fault) => Err(fault),
    }
}

/// The paths of clauses, a new path behind the old one.
fn paths_of(alloc: Global, clauses: &[Clause]) -> Result<Vec<Path>, UpdateFault>
    ensures ok { IfOk result (λ v. v.items ≡ paths_of (map clause_of clauses.now)) }
    ensures err { IfErr result (λ e. e ≡ NoMemory) }
{
    let mut paths = Vec::new(alloc);
    for clause in clauses {
        match add_paths(alloc, &mut paths, clause) {
            Ok(()) => {}
            Err(fault) => return Err(fault),
        }
    }
    Ok(paths)
}

/// The first of the paths that overlaps a path.
fn first_over<'a>(path: &Path, others: &'a [Path]) -> Option<&'a Path>
    ensures { option_map (λ p. p.now) result ≡ find (overlap path.now) others.now }
{
    for other in others {
        if overlap(path, other) {
            return Some(other);
        }
    }
    None
}

fn check_path(alloc: Global, path: &Path, before: &[Path]) -> Result<(), UpdateFault>
    ensures { Checks result (option_map (λ q. Overlap q path.now) (find (overlap path.now) before.now)) }
{
    match first_over(path, before) {
        Some(other) => Err(overlapping(alloc, other.text(), path.text())),
        None => Ok(()),
    }
}

/// Whether no path overlaps another one, told by the neighbours in the order of parts.
fn is_clear(alloc: Global, paths: &[Path]) -> Result<bool, UpdateFault>
    ensures ok { IfOk result (λ b. b ≡ true → overlap_in [] paths.now ≡ None) }
    ensures err { IfErr result (λ e. e ≡ NoMemory) }
{
    let sorted = sorted(alloc, paths)?;
    Ok(are_apart(sorted.as_slice()))
}

/// So many first paths of which none overlaps another one: all, or those before the first that does.
/// Of n paths this takes n log n steps.
fn clear_front(alloc: Global, paths: &[Path]) -> Result<usize, UpdateFault>
    ensures clear { IfOk result (λ n. overlap_in [] (take n paths.now) ≡ None) }
    ensures within { IfOk result (λ n. n ≤ length paths.now) }
    ensures err { IfErr result (λ e. e ≡ NoMemory) }
{
    if is_clear(alloc, paths)? {
        return Ok(paths.len());
    }
    let sorted = sorted(alloc, paths)?;
    let end = likely_end(alloc, sorted.as_slice())?;
    if end < paths.len() && is_clear(alloc, &paths[..end])? {
        return Ok(end);
    }
    Ok(0)
}

/// The first path that overlaps an earlier one. Paths behind a clear front are compared with all before
/// them; the first of them overlaps one.
fn check_overlaps(alloc: Global, paths: &[Path]) -> Result<(), UpdateFault>
    ensures { Checks result (overlap_in [] paths.now) }
{
    let clear = clear_front(alloc, paths)?;
    for i in clear..paths.len() {
        match check_path(alloc, &paths[i], &paths[..i]) {
            Ok(()) => {}
            Err(fault) => return Err(fault),
        }
    }
    Ok(())
}

pub(crate) fn is_of_id(path: &Path) -> bool
    ensures { result ≡ of_id path.now }
{
    first_part(path.text()).0 == "_id"
}

fn touches_id(paths: &[Path]) -> bool
    ensures { result ≡ list_any of_id paths.now }
{
    for path in paths {
        if is_of_id(path) {
            return true;
        }
    }
    false
}

fn check_all(alloc: Global, paths: &[Path]) -> Result<(), UpdateFault>
    ensures { Checks result (path_fault paths.now) }
{
    match check_overlaps(alloc, paths) {
        Ok(()) => {
            if touches_id(paths) {
                Err(UpdateFault::TouchesId)
            } else {
                Ok(())
            }
        }
        Err(fault) => Err(fault),
    }
}

/// The first fault of the paths of clauses: an overlap, or else a path to the id.
pub(crate) fn check_paths(alloc: Global, clauses: &[Clause]) -> Result<(), UpdateFault>
    ensures { Checks result (path_fault (paths_of (map clause_of clauses.now))) }
{
    match paths_of(alloc, clauses) {
        Ok(paths) => check_all(alloc, &paths),
        Err(fault) => Err(fault),
    }
}
