// Paths in the order of their parts: those that begin with the parts of another one stand directly behind
// it, so that neighbours tell whether any overlap.
ghost use Rattle.std.specs.Prelude.{◌≡◌, ◌≤◌, ◌∷◌, true, false, length, option_map, IfOk, IfErr, OnOk, ◌++◌, [], take};
ghost use Rattle.std.specs.List.{AllAdjacentBelow, IsDistinct};
ghost use Rattle.std.specs.List.Sorted.{IsPermutation, IsSorted};
ghost use Rattle.doc_paths.specs.Text.{parts, base_parts};
ghost use Rattle.view_sort.specs.Projection.{overlap};
ghost use Rattle.view_sort.specs.ByParts.{parts_cmp, path_cmp};
ghost use Rattle.view_sort.specs.declared.fault.ViewFault.TheVariants.{NoMemory};

use crate::fault::ViewFault;
use crate::part::first_part;
use doc_paths::Path;
use std::alloc::Global;
use std::cmp::Ordering;
use std::marker::Model;

/// The order of two texts by their parts.
#[cycle(comparing)]
fn parts_cmp(text: &str, other: &str) -> Ordering
    ensures { result ≡ parts_cmp (parts text.now) (parts other.now) }
{
    let (part, more) = first_part(text);
    let (other_part, other_more) = first_part(other);
    match part.as_bytes().cmp(other_part.as_bytes()) {
        Ordering::Equal => more_cmp(more, other_more),
        unequal => unequal,
    }
}

#[cycle(comparing)]
fn more_cmp(more: Option<&str>, other: Option<&str>) -> Ordering
    ensures { result ≡ parts_cmp (base_parts (option_map (λ m. m.now) more.entry)) (base_parts (option_map (λ m. m.now) other.entry)) }
{
    match (more, other) {
        (None, None) => Ordering::Equal,
        (None, Some(_)) => Ordering::Less,
        (Some(_), None) => Ordering::Greater,
        (Some(text), Some(other)) => parts_cmp(text, other),
    }
}

/// A path of a list, seen as its text, with its place in the list.
#[derive(Drop)]
pub(crate) struct Listed {
    path: Path,
    place: usize,
}

impl Model for Listed {
    ghost use Rattle.std.specs.Prelude.{ℕ, List};

    ghost Value = { List ℕ };

    ghost view = { λ l. l.path };
}

impl PartialEq for Listed {
    ghost use Rattle.std.specs.Ordering.{eq_by_cmp};
    ghost use Rattle.view_sort.specs.ByParts.{path_cmp, path_cmp-total};
    ghost use Rattle.std.proofs.lemmas.Cmp.{eq_by_cmp_equiv};
    ghost use Rattle.std.specs.Cmp.{partial_equiv_from_equiv};

    ghost eq = { eq_by_cmp path_cmp };

    ghost laws = { partial_equiv_from_equiv (eq_by_cmp_equiv path_cmp-total) };

    fn eq(&self, other: &Listed) -> bool {
        self.cmp(other) == Ordering::Equal
    }
}

impl Eq for Listed {
    ghost use Rattle.view_sort.specs.ByParts.{path_cmp-total};
    ghost use Rattle.std.proofs.lemmas.Cmp.{eq_by_cmp_equiv};

    ghost laws = { eq_by_cmp_equiv path_cmp-total };
}

impl Ord for Listed {
    ghost use Rattle.view_sort.specs.ByParts.{path_cmp, path_cmp-total};
    ghost use Rattle.std.specs.Cmp.Rules.{comparing};
    ghost use Rattle.std.proofs.Common.{rules};

    ghost cmp = { path_cmp };

    ghost total = { path_cmp-total };

    ghost matches_partial_cmp = { Prim.search (comparing, rules) };

    ghost matches_eq = { Prim.search (comparing, rules) };

    fn cmp(&self, other: &Listed) -> Ordering {
        parts_cmp(self.path.text(), other.path.text())
    }
}

impl PartialOrd for Listed {
    ghost use Rattle.std.specs.Ordering.{as_partial_cmp};
    ghost use Rattle.view_sort.specs.ByParts.{path_cmp, path_cmp-total};
    ghost use Rattle.std.specs.Cmp.{partial_order_from_total};

    ghost partial_cmp = { as_partial_cmp path_cmp };

    ghost laws = { partial_order_from_total path_cmp-total };

    fn partial_cmp(&self, other: &Listed) -> Option<Ordering> {
        Some(self.cmp(other))
    }
}

impl Listed {
    fn path(&self) -> &Path
        ensures { result.now ≡ self.now }
    {
        &self.path
    }

    fn place(&self) -> usize {
        self.place
    }
}

fn with_places(alloc: Global, paths: &[Path]) -> Result<Vec<Listed>, ViewFault>
    ensures ok { IfOk result (λ v. v.items ≡ paths.now) }
    ensures err { IfErr result (λ e. e ≡ NoMemory) }
{
    let mut all = Vec::new(alloc);
    for place in 0..paths.len() {
        let path = paths[place].try_copy(alloc)?;
        add(&mut all, Listed { path, place })?;
    }
    Ok(all)
}

fn add(all: &mut Vec<Listed>, one: Listed) -> Result<(), ViewFault>
    ensures ok { OnOk result (all.new.items ≡ all.old.items ++ one ∷ []) }
    ensures err { IfErr result (λ e. e ≡ NoMemory) }
{
    all.push(one)?;
    Ok(())
}

/// The paths in the order of their parts.
fn sorted(alloc: Global, paths: &[Path]) -> Result<Vec<Listed>, ViewFault>
    ensures permutation { IfOk result (λ v. IsPermutation paths.now v.items) }
    ensures sorted { IfOk result (λ v. IsSorted path_cmp v.items) }
    ensures err { IfErr result (λ e. e ≡ NoMemory) }
{
    let mut all = with_places(alloc, paths)?;
    all.sort_unstable();
    Ok(all)
}

/// Whether one leads through the other, or both are the same.
pub(crate) fn overlap(path: &Path, other: &Path) -> bool
    ensures { result ≡ overlap path.now other.now }
{
    path.overlaps(other)
}

/// Whether no path overlaps the next one.
fn are_apart(sorted: &[Listed]) -> bool
    ensures { result ≡ true → AllAdjacentBelow (λ p q. overlap p q ≡ false) sorted.now (length sorted.now) }
{
    for i in 1..sorted.len() {
        if overlap(sorted[i - 1].path(), sorted[i].path()) {
            return false;
        }
    }
    true
}

// ---- where the first overlap stands

/// One of the paths that lead through to the one in hand: its place among the sorted ones, and the least
/// place in the list of it and those before it.
#[derive(Clone, Copy)]
struct Passed {
    at: usize,
    least: usize,
}

/// The last of the paths passed that overlaps a path; those behind it go.
fn last_over(passed: &mut Vec<Passed>, sorted: &[Listed], path: &Path) -> Option<usize> {
    'passed: while let Some(last) = passed.last() {
        let last = *last;
        if let Some(before) = sorted.get(last.at)
            && overlap(before.path(), path)
        {
            return Some(last.least);
        }
        passed.pop();
    }
    None
}

/// The place in the list of the first path that overlaps an earlier one, or the length. Only the search
/// for the first overlap is shorter by it: what it says is tested where it is used.
fn likely_end(alloc: Global, sorted: &[Listed]) -> Result<usize, ViewFault>
    ensures err { IfErr result (λ e. e ≡ NoMemory) }
{
    let mut end = sorted.len();
    let mut passed: Vec<Passed> = Vec::new(alloc);
    for at in 0..sorted.len() {
        let place = sorted[at].place();
        let mut least = place;
        if let Some(before) = last_over(&mut passed, sorted, sorted[at].path()) {
            end = end.min(before.max(place));
            least = before.min(place);
        }
        pass(&mut passed, Passed { at, least })?;
    }
    Ok(end)
}

fn pass(passed: &mut Vec<Passed>, one: Passed) -> Result<(), ViewFault>
    ensures err { IfErr result (λ e. e ≡ NoMemory) }
{
    passed.push(one)?;
    Ok(())
}

/// Whether no two paths overlap, told by the neighbours in the order of parts.
fn is_clear(alloc: Global, paths: &[Path]) -> Result<bool, ViewFault>
    ensures ok { IfOk result (λ b. b ≡ true → IsDistinct overlap paths.now) }
    ensures err { IfErr result (λ e. e ≡ NoMemory) }
{
    let sorted = sorted(alloc, paths)?;
    Ok(are_apart(sorted.as_slice()))
}

/// So many first paths of which no two overlap: all, or those before the first that overlaps an earlier
/// one. Of n paths this takes n log n steps.
pub(crate) fn clear_front(alloc: Global, paths: &[Path]) -> Result<usize, ViewFault>
    ensures clear { IfOk result (λ n. IsDistinct overlap (take n paths.now)) }
    ensures within { IfOk result (λ n. n ≤ length paths.now) }
    ensures err { IfErr result (λ e. e ≡ NoMemory) }
{
    if is_clear(alloc, paths)? {
        return Ok(paths.len());
    }
    let sorted = sorted(alloc, paths)?;
    let end = likely_end(alloc, sorted.as_slice())?;
    if end < paths.len() && is_clear(alloc, &paths[..end])? {
        return Ok(end);
    }
    Ok(0)
}
