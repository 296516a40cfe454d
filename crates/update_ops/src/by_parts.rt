// Paths in the order of their parts: those that begin with the parts of another one stand directly behind
// it, so that neighbours tell whether any overlap.
ghost use Rattle.std.specs.Prelude.{◌≡◌, ◌<◌, ◌+◌, ◌∷◌, true, false, length, option_map, IfOk, IfErr, OnOk, IfSome, ◌++◌, [], map};
ghost use Rattle.std.specs.List.{AllAdjacentBelow};
ghost use Rattle.std.specs.List.Sorted.{IsPermutation, IsSorted};
ghost use Rattle.doc_paths.specs.Text.{parts, base_parts};
ghost use Rattle.update_ops.specs.Faults.{overlap};
ghost use Rattle.update_ops.specs.ByParts.{parts_cmp, path_cmp};
ghost use Rattle.update_ops.specs.declared.fault.UpdateFault.TheVariants.{NoMemory};

use crate::copies::copy_path;
use crate::fault::UpdateFault;
use doc_paths::Path;
use std::alloc::Global;
use std::cmp::Ordering;
use std::marker::Model;

/// The first part of a text, and the text of the further ones.
pub(crate) fn first_part(text: &str) -> (&str, Option<&str>)
    ensures parts { parts text.now ≡ result.0.now ∷ base_parts (option_map (λ more. more.now) result.1) }
    ensures shorter { IfSome result.1 (λ more. length more.now < length text.now) }
{
    match text.split_once('.') {
        Some((part, more)) => (part, Some(more)),
        None => (text, None),
    }
}

/// The order of two texts by their parts.
#[cycle(comparing)]
fn parts_cmp(text: &str, other: &str) -> Ordering
    ensures { result ≡ parts_cmp (parts text.now) (parts other.now) }
{
    let (part, more) = first_part(text);
    let (other_part, other_more) = first_part(other);
    match part.as_bytes().cmp(other_part.as_bytes()) {
        Ordering::Equal => more_cmp(more, other_more),
        unequal => unequal,
    }
}

#[cycle(comparing)]
fn more_cmp(more: Option<&str>, other: Option<&str>) -> Ordering
    ensures { result ≡ parts_cmp (base_parts (option_map (λ m. m.now) more.entry)) (base_parts (option_map (λ m. m.now) other.entry)) }
{
    match (more, other) {
        (None, None) => Ordering::Equal,
        (None, Some(_)) => Ordering::Less,
        (Some(_), None) => Ordering::Greater,
        (Some(text), Some(other)) => parts_cmp(text, other),
    }
}

/// A path of a list, seen as its text, with its place in the list.
#[derive(Drop)]
pub(crate) struct Listed {
    path: Path,
    place: usize,
}

impl Model for Listed {
    ghost use Rattle.std.specs.Prelude.{ℕ, List};

    ghost Value = { List ℕ };

    ghost view = { λ l. l.path };
}

impl PartialEq for Listed {
    ghost use Rattle.std.specs.Ordering.{eq_by_cmp};
    ghost use Rattle.update_ops.specs.ByParts.{path_cmp, path_cmp-total};
    ghost use Rattle.std.proofs.lemmas.Cmp.{eq_by_cmp_equiv};
    ghost use Rattle.std.specs.Cmp.{partial_equiv_from_equiv};

    ghost eq = { eq_by_cmp path_cmp };

    ghost laws = { partial_equiv_from_equiv (eq_by_cmp_equiv path_cmp-total) };

    fn eq(&self, other: &Listed) -> bool {
        self.cmp(other) == Ordering::Equal
    }
}

impl Eq for Listed {
    ghost use Rattle.update_ops.specs.ByParts.{path_cmp-total};
    ghost use Rattle.std.proofs.lemmas.Cmp.{eq_by_cmp_equiv};

    ghost laws = { eq_by_cmp_equiv path_cmp-total };
}

impl Ord for Listed {
    ghost use Rattle.update_ops.specs.ByParts.{path_cmp, path_cmp-total};
    ghost use Rattle.std.specs.Cmp.Rules.{comparing};
    ghost use Rattle.std.proofs.Common.{rules};

    ghost cmp = { path_cmp };

    ghost total = { path_cmp-total };

    ghost matches_partial_cmp = { Prim.search (comparing, rules) };

    ghost matches_eq = { Prim.search (comparing, rules) };

    fn cmp(&self, other: &Listed) -> Ordering {
        parts_cmp(self.path.text(), other.path.text())
    }
}

impl PartialOrd for Listed {
    ghost use Rattle.std.specs.Ordering.{as_partial_cmp};
    ghost use Rattle.update_ops.specs.ByParts.{path_cmp, path_cmp-total};
    ghost use Rattle.std.specs.Cmp.{partial_order_from_total};

    ghost partial_cmp = { as_partial_cmp path_cmp };

    ghost laws = { partial_order_from_total path_cmp-total };

    fn partial_cmp(&self, other: &Listed) -> Option<Ordering> {
        Some(self.cmp(other))
    }
}

impl Listed {
    fn path(&self) -> &Path
        ensures { result.now ≡ self.now }
    {
        &self.path
    }

    fn place(&self) -> usize {
        self.place
    }
}

fn with_places(alloc: Global, paths: &[Path]) -> Result<Vec<Listed>, UpdateFault>
    ensures ok { IfOk result (λ v. v.items ≡ paths.now) }
    ensures err { IfErr result (λ e. e ≡ NoMemory) }
{
    let mut all = Vec::new(alloc);
    for place in 0..paths.len() {
        let path = copy_path(alloc, &paths[place])?;
        add(&mut all, Listed { path, place })?;
    }
    Ok(all)
}

fn add(all: &mut Vec<Listed>, one: Listed) -> Result<(), UpdateFault>
    ensures ok { OnOk result (all.new.items ≡ all.old.items ++ one ∷ []) }
    ensures err { IfErr result (λ e. e ≡ NoMemory) }
{
    all.push(one)?;
    Ok(())
}

/// The paths in the order of their parts.
pub(crate) fn sorted(alloc: Global, paths: &[Path]) -> Result<Vec<Listed>, UpdateFault>
    ensures permutation { IfOk result (λ v. IsPermutation paths.now v.items) }
    ensures sorted { IfOk result (λ v. IsSorted path_cmp v.items) }
    ensures err { IfErr result (λ e. e ≡ NoMemory) }
{
    let mut all = with_places(alloc, paths)?;
    all.sort_unstable();
    Ok(all)
}

/// Whether one leads through the other, or both are the same.
pub(crate) fn overlap(path: &Path, other: &Path) -> bool
    ensures { result ≡ overlap path.now other.now }
{
    path.overlaps(other)
}

/// Whether no path overlaps the next one.
pub(crate) fn are_apart(sorted: &[Listed]) -> bool
    ensures { result ≡ true → AllAdjacentBelow (λ p q. overlap p q ≡ false) sorted.now (length sorted.now) }
{
    for i in 1..sorted.len() {
        if overlap(sorted[i - 1].path(), sorted[i].path()) {
            return false;
        }
    }
    true
}

// ---- where the first overlap stands

/// One of the paths that lead through to the one in hand: its place among the sorted ones, and the least
/// place in the list of it and those before it.
#[derive(Clone, Copy)]
struct Passed {
    at: usize,
    least: usize,
}

/// The last of the paths passed that overlaps a path; those behind it go.
fn last_over(passed: &mut Vec<Passed>, sorted: &[Listed], path: &Path) -> Option<usize> {
    'passed: while let Some(last) = passed.last() {
        let last = *last;
        if let Some(before) = sorted.get(last.at)
            && overlap(before.path(), path)
        {
            return Some(last.least);
        }
        passed.pop();
    }
    None
}

/// The place in the list of the first path that overlaps an earlier one, or the length. Only the search
/// for the first overlap is shorter by it: what it says is tested where it is used.
pub(crate) fn likely_end(alloc: Global, sorted: &[Listed]) -> Result<usize, UpdateFault>
    ensures err { IfErr result (λ e. e ≡ NoMemory) }
{
    let mut end = sorted.len();
    let mut passed: Vec<Passed> = Vec::new(alloc);
    for at in 0..sorted.len() {
        let place = sorted[at].place();
        let mut least = place;
        if let Some(before) = last_over(&mut passed, sorted, sorted[at].path()) {
            end = end.min(before.max(place));
            least = before.min(place);
        }
        pass(&mut passed, Passed { at, least })?;
    }
    Ok(end)
}

fn pass(passed: &mut Vec<Passed>, one: Passed) -> Result<(), UpdateFault>
    ensures err { IfErr result (λ e. e ≡ NoMemory) }
{
    passed.push(one)?;
    Ok(())
}
