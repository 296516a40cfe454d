// What a projection shows of a document.
ghost use Rattle.std.specs.Prelude.{◌≡◌, [], ◌∷◌, ◌&&◌, not, option_map, take, drop, min, length, MatchOption, ◌≤◌, OnOk, IfOk, IfErr};
ghost use Rattle.std.specs.List.{list_any};
ghost use Rattle.json_tree.specs.View.{tree};
ghost use Rattle.doc_paths.specs.Text.{parts};
ghost use Rattle.view_sort.specs.Projection.{is_id, id_name, is_on};
ghost use Rattle.view_sort.specs.declared.show.Show.TheVariants.{On};
ghost use Rattle.view_sort.specs.View.{only_id, includes, rests, whole_rests, step, under, said, slice_start, sliced, whole_if, chosen, inside, view};
ghost use Rattle.view_sort.specs.Walk.{is_nil, shown_pairs, with_put, seen};
ghost use Rattle.view_sort.specs.declared.fault.ViewFault.TheVariants.{NoMemory};

use crate::fault::ViewFault;
use crate::groups::{groups_of, taken};
use crate::projection::{Projection, Rule, is_id};
use crate::rest::Rest;
use crate::show::Show;
use json_tree::{Doc, Items, Members, ObjectBuilder, Text, Value};
use std::alloc::Global;

fn names_id(rules: &[Rule]) -> bool
    ensures { result ≡ list_any (λ r. is_id r.0) rules.now }
{
    for i in 0..rules.len() {
        let Some(rule) = rules.get(i) else {
            return false;
        };
        if is_id(&rule.path) {
            return true;
        }
    }
    false
}

fn shows_more(rule: &Rule) -> bool
    ensures { result ≡ (not (is_id rule.now.0) && is_on rule.now.1) }
{
    !is_id(&rule.path) && rule.show.is_on()
}

fn any_on(rules: &[Rule]) -> bool
    ensures { result ≡ list_any (λ r. not (is_id r.0) && is_on r.1) rules.now }
{
    for i in 0..rules.len() {
        let Some(rule) = rules.get(i) else {
            return false;
        };
        if shows_more(rule) {
            return true;
        }
    }
    false
}

fn only_id(rules: &[Rule]) -> bool
    ensures { result ≡ only_id rules.now }
{
    match rules {
        [rule] => is_id(&rule.path) && rule.show.is_on(),
        _ => false,
    }
}

fn includes(rules: &[Rule]) -> bool
    ensures { result ≡ includes rules.now }
{
    any_on(rules) || only_id(rules)
}

fn rest_of<'a>(rule: &'a Rule) -> Rest<'a>
    ensures { result ≡ (parts rule.now.0, rule.now.1) }
{
    Rest {
        left: Some(rule.path.text()),
        show: rule.show,
    }
}

fn id_rest() -> Rest<'static>
    ensures { result ≡ (parts id_name, On) }
{
    Rest {
        left: Some("_id"),
        show: Show::On,
    }
}

fn whole_rests<'a>(alloc: Global, rules: &'a [Rule]) -> Result<Vec<Rest<'a>>, ViewFault>
    ensures ok { IfOk result (λ v. v.items ≡ whole_rests rules.now) }
    ensures err { IfErr result (λ e. e ≡ NoMemory) }
{
    let mut rests = Vec::new(alloc);
    if includes(rules) && !names_id(rules) {
        rests.push(id_rest())?;
    }
    for i in 0..rules.len() {
        let Some(rule) = rules.get(i) else {
            unreachable!();
        };
        rests.push(rest_of(rule))?;
    }
    Ok(rests)
}

fn is_here(rest: &Rest<'_>) -> bool
    ensures { result ≡ is_nil rest.now.0 }
{
    match rest.left {
        None => true,
        Some(_) => false,
    }
}

fn said(rests: &[Rest<'_>]) -> Option<Show>
    ensures { result ≡ said rests.now }
{
    for i in 0..rests.len() {
        let Some(rest) = rests.get(i) else {
            return None;
        };
        if is_here(rest) {
            return Some(rest.show);
        }
    }
    None
}

fn slice_start(start: i64, len: usize) -> usize
    ensures { result ≡ min (slice_start start len) len }
{
    let size = start.unsigned_abs();
    if start < 0 {
        len.saturating_sub(size as usize)
    } else {
        len.min(size as usize)
    }
}

fn sliced(alloc: Global, items: &Items, from: usize, count: u64) -> Result<Items, ViewFault>
    requires { from ≤ length items.now }
    ensures ok { IfOk result (λ s. s ≡ take count (drop from items.now)) }
    ensures err { IfErr result (λ e. e ≡ NoMemory) }
{
    let mut slice = Items::new(alloc);
    let end = from + (items.len() - from).min(count as usize);
    for i in from..end {
        let Some(item) = items.get(i) else {
            unreachable!();
        };
        slice.push(item.try_copy(alloc)?)?;
    }
    Ok(slice)
}

fn slice_value(alloc: Global, value: &Value, start: i64, count: u64) -> Result<Value, ViewFault>
    ensures ok { IfOk result (λ v. tree v ≡ sliced start count (tree value.now)) }
    ensures err { IfErr result (λ e. e ≡ NoMemory) }
{
    match value {
        Value::List(items) => {
            let from = slice_start(start, items.len());
            Ok(Value::List(sliced(alloc, items, from, count)?))
        }
        _ => Ok(value.try_copy(alloc)?),
    }
}

fn copy_if(alloc: Global, keeps: bool, value: &Value) -> Result<Option<Value>, ViewFault>
    ensures ok { IfOk result (λ o. option_map tree o ≡ whole_if keeps (tree value.now)) }
    ensures err { IfErr result (λ e. e ≡ NoMemory) }
{
    if keeps {
        Ok(Some(value.try_copy(alloc)?))
    } else {
        Ok(None)
    }
}

fn put_shown(
    alloc: Global,
    shown: &mut ObjectBuilder,
    name: &Text,
    part: Option<Value>,
) -> Result<(), ViewFault>
    ensures ok { OnOk result (shown.new ≡ with_put name.now (option_map tree part) shown.old) }
    ensures err { IfErr result (λ e. e ≡ NoMemory) }
{
    match part {
        Some(value) => {
            let name = name.try_copy(alloc)?;
            shown.put(name, value)?;
            Ok(())
        }
        None => Ok(()),
    }
}

#[cycle(show)]
fn show_value(
    alloc: Global,
    keeps: bool,
    rests: &[Rest<'_>],
    value: &Value,
) -> Result<Option<Value>, ViewFault>
    ensures ok { IfOk result (λ o. option_map tree o ≡ chosen keeps rests.now (tree value.now) (inside keeps rests.now (tree value.now))) }
    ensures err { IfErr result (λ e. e ≡ NoMemory) }
{
    if rests.is_empty() {
        return copy_if(alloc, keeps, value);
    }
    match said(rests) {
        Some(Show::On) => copy_if(alloc, true, value),
        Some(Show::Off) => copy_if(alloc, false, value),
        Some(Show::Slice(start, count)) => Ok(Some(slice_value(alloc, value, start, count)?)),
        None => show_inside(alloc, keeps, rests, value),
    }
}

#[cycle(show)]
fn show_inside(
    alloc: Global,
    keeps: bool,
    rests: &[Rest<'_>],
    value: &Value,
) -> Result<Option<Value>, ViewFault>
    ensures ok { IfOk result (λ o. option_map tree o ≡ inside keeps rests.now (tree value.now)) }
    ensures err { IfErr result (λ e. e ≡ NoMemory) }
{
    match value {
        Value::Object(members) => {
            let shown = show_members(alloc, keeps, rests, members)?;
            Ok(Some(Value::Object(shown)))
        }
        _ => copy_if(alloc, keeps, value),
    }
}

#[cycle(show)]
fn show_members(
    alloc: Global,
    keeps: bool,
    rests: &[Rest<'_>],
    members: &Members,
) -> Result<Members, ViewFault>
    ensures ok { IfOk result (λ m. m ≡ shown_pairs keeps rests.now members.now) }
    ensures err { IfErr result (λ e. e ≡ NoMemory) }
{
    let mut shown = ObjectBuilder::new(alloc);
    let mut groups = groups_of(alloc, rests, members)?;
    for i in 0..members.len() {
        let Some((name, value)) = members.pair(i) else {
            unreachable!();
        };
        let inner = taken(alloc, &mut groups, rests, name.as_str())?;
        let part = show_value(alloc, keeps, inner.as_slice(), value)?;
        put_shown(alloc, &mut shown, name, part)?;
    }
    Ok(shown.finish())
}

impl Projection {
    /// What the projection shows of a document.
    pub fn apply(&self, alloc: Global, doc: &Doc) -> Result<Value, ViewFault>
        ensures ok { IfOk result (λ v. tree v ≡ view self.now doc.now) }
        ensures err { IfErr result (λ e. e ≡ NoMemory) }
    {
        if self.rules.is_empty() {
            return Ok(doc.value().try_copy(alloc)?);
        }
        let keeps = !includes(self.rules.as_slice());
        let rests = whole_rests(alloc, self.rules.as_slice())?;
        show_document(alloc, keeps, rests.as_slice(), doc.value())
    }
}

fn show_document(
    alloc: Global,
    keeps: bool,
    rests: &[Rest<'_>],
    value: &Value,
) -> Result<Value, ViewFault>
    ensures ok { IfOk result (λ v. tree v ≡ seen keeps rests.now (tree value.now)) }
    ensures err { IfErr result (λ e. e ≡ NoMemory) }
{
    match value {
        Value::Object(members) => Ok(Value::Object(show_members(alloc, keeps, rests, members)?)),
        _ => Ok(value.try_copy(alloc)?),
    }
}
