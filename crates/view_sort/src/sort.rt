ghost use Rattle.std.specs.Prelude.{◌≡◌, ◌↔◌, ◌⊎◌, ◌<◌, ◌≤◌, [], ◌&&◌, if◌then◌else◌, None, Some, length, map, take, IfOk, IfErr, IsTrue};
ghost use Rattle.json_tree.specs.View.{tree};
ghost use Rattle.doc_paths.specs.Text.{IsPath};
ghost use Rattle.view_sort.specs.Answers.{Answers};
ghost use Rattle.view_sort.specs.Sort.{is_path, is_direction, ascends, sort_fault, bad_key, sort_in, key_of_member, key_at, IsFirstOf, HasIds, sorted};
ghost use Rattle.view_sort.specs.Rank.{sided_key, all_keys, rank_of, IsSortedFound, IsLeastFound};
ghost use Rattle.view_sort.specs.declared.fault.ViewFault.TheVariants.{NoMemory, BadSort};

use crate::fault::ViewFault;
use crate::laws::{sorted_is_a_sort, sorts_are_one};
use crate::rank::{Ranked, Sided};
use doc_paths::{Path, PathFault};
use json_tree::{Members, Text, Value};
use shred_cols::{Keyed, Row, SortKey};
use std::alloc::Global;
use std::marker::Model;

/// A document that was found, with its id, its transaction's number and its columns.
pub type Found = Row;

/// A path by which documents are sorted, and whether it ascends.
#[derive(Drop)]
struct SortPath {
    path: Path,
    up: bool,
}

impl Model for SortPath {
    ghost use Rattle.std.specs.Prelude.{ℕ, List, Bool};

    ghost Value = { List ℕ × Bool };

    ghost view = { λ s. (s.path, s.up) };
}

/// A sort, seen as its paths with their directions.
#[derive(Drop)]
pub struct Sort {
    keys: Vec<SortPath>,
}

impl Model for Sort {
    ghost use Rattle.std.specs.Prelude.{ℕ, List, Bool};

    ghost Value = { List (List ℕ × Bool) };

    ghost view = { λ s. s.keys.items };
}

const ONE: i128 = 1_000_000_000_000_000_000;

fn ascends(value: &Value) -> bool
    ensures { result ≡ ascends (tree value.now) }
{
    match value {
        Value::Num(n) => n.units() == ONE,
        _ => false,
    }
}

fn is_direction(value: &Value) -> bool
    ensures { result ≡ is_direction (tree value.now) }
{
    match value {
        Value::Num(n) => n.units() == ONE || n.units() == -ONE,
        _ => false,
    }
}

fn bad_sort(alloc: Global, path: &str) -> ViewFault
    ensures { (result ≡ NoMemory) ⊎ (result ≡ BadSort path.now) }
{
    match Text::of_str(alloc, path) {
        Ok(path) => ViewFault::BadSort { path },
        Err(_) => ViewFault::NoMemory,
    }
}

fn sort_path(alloc: Global, name: &str, value: &Value) -> Result<SortPath, ViewFault>
    ensures { Answers (λ s. s) result (if is_path name.now && is_direction (tree value.now) then None else Some (BadSort name.now)) (name.now, ascends (tree value.now)) }
{
    if !is_direction(value) {
        return Err(bad_sort(alloc, name));
    }
    match Path::read(alloc, name) {
        Ok(path) => Ok(SortPath {
            path,
            up: ascends(value),
        }),
        Err(PathFault::NoMemory) => Err(ViewFault::NoMemory),
        Err(_) => Err(bad_sort(alloc, name)),
    }
}

fn sort_paths(alloc: Global, members: &Members) -> Result<Sort, ViewFault>
    ensures { Answers (λ s. s) result (bad_key members.now) (map key_of_member members.now) }
{
    let mut keys = Vec::new(alloc);
    for i in 0..members.len() {
        let Some((name, value)) = members.pair(i) else {
            unreachable!();
        };
        match sort_path(alloc, name.as_str(), value) {
            Ok(key) => keys.push(key)?,
            Err(e) => return Err(e),
        }
    }
    Ok(Sort { keys })
}

impl Sort {
    /// The sort that a value spells: an object of paths, each with 1 or -1. The first fault
    /// in written order is told.
    pub fn read(alloc: Global, value: &Value) -> Result<Sort, ViewFault>
        ensures { Answers (λ s. s) result (sort_fault (tree value.now)) (sort_in (tree value.now)) }
    {
        match value {
            Value::Object(members) => sort_paths(alloc, members),
            _ => Err(bad_sort(alloc, "")),
        }
    }

    /// Whether there is no path. An empty sort is none.
    pub fn is_empty(&self) -> bool
        ensures { IsTrue result ↔ (self.now ≡ []) }
    {
        self.keys.is_empty()
    }

    /// The first so many of what was found, sorted: by the keys, and then by id.
    pub fn order(
        &self,
        alloc: Global,
        found: Vec<Found>,
        keep: usize,
    ) -> Result<Vec<Found>, ViewFault>
        ensures ok { IfOk result (λ first. IsFirstOf self.now keep found.items first.items) }
        ensures one { HasIds found.items → IfOk result (λ first. first.items ≡ take keep (sorted self.now found.items)) }
        ensures err { IfErr result (λ e. e ≡ NoMemory) }
    {
        let ranked = rank_all(alloc, &self.keys, found)?;
        sorts_are_one();
        sorted_is_a_sort();
        first_found(alloc, ranked, keep)
    }
}

fn sided_at(alloc: Global, key: &SortPath, found: &Found) -> Result<Sided, ViewFault>
    ensures ok { IfOk result (λ p. p ≡ sided_key key.now.1 (key_at key.now.0 found.now.doc)) }
    ensures err { IfErr result (λ e. e ≡ NoMemory) }
{
    match found.columns().sort_key(alloc, &key.path)? {
        Keyed::Known(sort_key) => Ok(Sided::of_key(key.up, sort_key)),
        Keyed::Look => Ok(Sided::of_key(
            key.up,
            SortKey::of_value(alloc, key.path.at(found.doc().value()))?,
        )),
    }
}

fn rank_one(alloc: Global, keys: &[SortPath], found: Found) -> Result<Ranked, ViewFault>
    ensures ok { IfOk result (λ r. r ≡ rank_of keys.now found) }
    ensures err { IfErr result (λ e. e ≡ NoMemory) }
{
    let sided = keys_of(alloc, keys, &found)?;
    Ok(Ranked::new(sided, found))
}

fn keys_of(alloc: Global, keys: &[SortPath], found: &Found) -> Result<Vec<Sided>, ViewFault>
    ensures ok { IfOk result (λ v. v.items ≡ all_keys keys.now found.now.doc) }
    ensures err { IfErr result (λ e. e ≡ NoMemory) }
{
    let mut sided = Vec::with_capacity(alloc, keys.len())?;
    for key in keys {
        sided.push(sided_at(alloc, key, found)?)?;
    }
    Ok(sided)
}

fn rank_all(
    alloc: Global,
    keys: &Vec<SortPath>,
    found: Vec<Found>,
) -> Result<Vec<Ranked>, ViewFault>
    ensures ok { IfOk result (λ v. v.items ≡ map (rank_of keys.now.items) found.items) }
    ensures err { IfErr result (λ e. e ≡ NoMemory) }
{
    let mut ranked = Vec::with_capacity(alloc, found.len())?;
    for one in found {
        ranked.push(rank_one(alloc, keys.as_slice(), one)?)?;
    }
    Ok(ranked)
}

/// The first so many of what was found, in order; what comes after them is left unsorted.
fn first_found(alloc: Global, ranked: Vec<Ranked>, keep: usize) -> Result<Vec<Found>, ViewFault>
    ensures ok { IfOk result (λ v. IsLeastFound keep ranked.items v.items) }
    ensures err { IfErr result (λ e. e ≡ NoMemory) }
{
    if keep < ranked.len() {
        least_found(alloc, ranked, keep)
    } else {
        all_found(alloc, ranked, keep)
    }
}

fn least_found(alloc: Global, mut ranked: Vec<Ranked>, keep: usize) -> Result<Vec<Found>, ViewFault>
    requires { keep < length ranked.items }
    ensures ok { IfOk result (λ v. IsLeastFound keep ranked.items v.items) }
    ensures err { IfErr result (λ e. e ≡ NoMemory) }
{
    let (front, _, _) = ranked.select_nth_unstable(keep);
    sorted_copies(alloc, front)
}

fn all_found(alloc: Global, mut ranked: Vec<Ranked>, keep: usize) -> Result<Vec<Found>, ViewFault>
    requires { length ranked.items ≤ keep }
    ensures ok { IfOk result (λ v. IsLeastFound keep ranked.items v.items) }
    ensures err { IfErr result (λ e. e ≡ NoMemory) }
{
    ranked.sort_unstable();
    found_of(alloc, ranked)
}

/// Copies that share the documents and their columns, in order.
fn sorted_copies(alloc: Global, ranked: &mut [Ranked]) -> Result<Vec<Found>, ViewFault>
    ensures ok { IfOk result (λ v. IsSortedFound ranked.old v.items) }
    ensures err { IfErr result (λ e. e ≡ NoMemory) }
{
    ranked.sort_unstable();
    copies_of(alloc, ranked)
}

fn copies_of(alloc: Global, ranked: &[Ranked]) -> Result<Vec<Found>, ViewFault>
    ensures ok { IfOk result (λ v. v.items ≡ map (λ r. r.1) ranked.now) }
    ensures err { IfErr result (λ e. e ≡ NoMemory) }
{
    let mut found = Vec::with_capacity(alloc, ranked.len())?;
    for one in ranked {
        found.push(one.copy_found(alloc)?)?;
    }
    Ok(found)
}

fn found_of(alloc: Global, ranked: Vec<Ranked>) -> Result<Vec<Found>, ViewFault>
    ensures ok { IfOk result (λ v. v.items ≡ map (λ r. r.1) ranked.items) }
    ensures err { IfErr result (λ e. e ≡ NoMemory) }
{
    let mut found = Vec::with_capacity(alloc, ranked.len())?;
    for one in ranked {
        found.push(one.into_found())?;
    }
    Ok(found)
}
