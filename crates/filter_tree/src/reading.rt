// The reader of filters.
ghost use Rattle.std.specs.List.{flat_map};
ghost use Rattle.std.specs.Option.{option_or};
ghost use Rattle.filter_tree.specs.Paths.{is_path};
ghost use Rattle.std.specs.Prelude.{◌≡◌, ◌⊎◌, ◌∷◌, ◌++◌, OnOk, Bool, nat_le, is_some, unwrap_or, Some, None, IfOk, IfErr, List, ℕ, length, map, Option, Result, true, false, []};
ghost use Rattle.json_tree.specs.View.{tree};
ghost use Rattle.json_tree.specs.Tree.{Tree, number, list, members_of};
ghost use Rattle.json_tree.specs.Doc.{is_dollar};
ghost use Rattle.filter_tree.specs.Filters.{filters_of, list_of_filters, all, negated, on, eq};
ghost use Rattle.filter_tree.specs.View.{filter_tree, test_tree};
ghost use Rattle.filter_tree.specs.Matches.{elements_in};
ghost use Rattle.filter_tree.specs.Operators.{operator_named};
ghost use Rattle.filter_tree.specs.Faults.{has_operators, condition_sites, operator_site, operator_sites, first_at, first_fault, operator, operator_fault, operand_fault, operands_fault, unless, is_ordered, is_boolean, size_in, is_object, is_list, sites, member_sites, one_sites, inside_one, inside_sites, list_sites, named_fault};
ghost use Rattle.filter_tree.specs.Reads.{filter_in, filter_by, one_filter, list_filters, member_filters, is_true, operand_test, operator_test, operator_filter, operator_filters, together, condition, Answers};
ghost use Rattle.json_tree.specs.Writable.{IsWritable};
ghost use Rattle.filter_tree.specs.Ready.{is_ready, FilterIsWritable};
ghost use Rattle.filter_tree.specs.declared.fault.FilterFault.TheVariants.{Invalid, UnknownOperator, TooManyOperands, NoMemory};

use crate::fault::FilterFault;
use crate::filter::{Filter, Filters, Test};
use crate::operator::{Operator, Role, is_dollar, operator_of, role_of};
use doc_paths::{Path, PathFault};
use json_tree::{Items, Members, Num, Text, Value};
use std::alloc::Global;

// the most operands of a list
const MOST: usize = 100;

// the most elements of a list whose length is asked for
const MOST_ELEMENTS: u128 = 1_000_000;

// the units of the number 1
const UNIT: u128 = 1_000_000_000_000_000_000;

fn invalid(alloc: Global, path: &str) -> FilterFault
    ensures { (result ≡ NoMemory) ⊎ (result ≡ Invalid path.now) }
{
    match Text::of_str(alloc, path) {
        Ok(path) => FilterFault::Invalid { path },
        Err(_) => FilterFault::NoMemory,
    }
}

fn unknown(alloc: Global, name: &str) -> FilterFault
    ensures { (result ≡ NoMemory) ⊎ (result ≡ UnknownOperator name.now) }
{
    match Text::of_str(alloc, name) {
        Ok(name) => FilterFault::UnknownOperator { name },
        Err(_) => FilterFault::NoMemory,
    }
}

pub(crate) fn copy(alloc: Global, value: &Value) -> Result<Value, FilterFault>
    ensures ok { IfOk result (λ v. tree v ≡ tree value.now) }
    ensures err { IfErr result (λ e. e ≡ NoMemory) }
{
    match value.try_copy(alloc) {
        Ok(copy) => Ok(copy),
        Err(_) => Err(FilterFault::NoMemory),
    }
}

pub(crate) fn copy_operands(alloc: Global, operands: &Items) -> Result<Items, FilterFault>
    ensures ok { IfOk result (λ v. v ≡ operands.now) }
    ensures err { IfErr result (λ e. e ≡ NoMemory) }
{
    match operands.try_copy(alloc) {
        Ok(copy) => Ok(copy),
        Err(_) => Err(FilterFault::NoMemory),
    }
}

pub(crate) fn copy_path(alloc: Global, path: &Path) -> Result<Path, FilterFault>
    ensures ok { IfOk result (λ p. p ≡ path.now) }
    ensures err { IfErr result (λ e. e ≡ NoMemory) }
{
    match path.try_copy(alloc) {
        Ok(copy) => Ok(copy),
        Err(_) => Err(FilterFault::NoMemory),
    }
}

// ---- operands

fn is_ordered(operand: &Value) -> bool
    ensures { result ≡ is_ordered (tree operand.now) }
{
    match operand {
        Value::Num(_) => true,
        Value::Text(_) => true,
        Value::Date(_) => true,
        _ => false,
    }
}

fn read_ordered(alloc: Global, path: &Path, operand: &Value) -> Result<Value, FilterFault>
    ensures { Answers tree result (unless (is_ordered (tree operand.now)) (Invalid path.now)) (tree operand.now) }
{
    if is_ordered(operand) {
        copy(alloc, operand)
    } else {
        Err(invalid(alloc, path.text()))
    }
}

fn read_list(alloc: Global, operands: &Items) -> Result<Items, FilterFault>
    ensures { Answers (λ (x : List Tree). x) result (unless (nat_le (length operands.now) 100) (TooManyOperands (length operands.now))) operands.now }
{
    if operands.len() > MOST {
        return Err(FilterFault::TooManyOperands {
            found: operands.len() as u64,
        });
    }
    copy_operands(alloc, operands)
}

fn read_operands(alloc: Global, path: &Path, operand: &Value) -> Result<Items, FilterFault>
    ensures { Answers (λ (x : List Tree). x) result (operands_fault path.now (tree operand.now)) (elements_in (tree operand.now)) }
{
    match operand {
        Value::List(operands) => read_list(alloc, operands),
        _ => Err(invalid(alloc, path.text())),
    }
}

fn read_flag(alloc: Global, path: &Path, operand: &Value) -> Result<bool, FilterFault>
    ensures { Answers (λ (b : Bool). b) result (unless (is_boolean (tree operand.now)) (Invalid path.now)) (is_true (tree operand.now)) }
{
    match operand {
        Value::Bool(flag) => Ok(*flag),
        _ => Err(invalid(alloc, path.text())),
    }
}

fn size_of(n: &Num) -> Option<u32>
    ensures { result ≡ size_in (number n.now) }
{
    let units = n.units();
    if units < 0 {
        return None;
    }
    let magnitude = units.unsigned_abs();
    if magnitude % UNIT != 0 || magnitude / UNIT > MOST_ELEMENTS {
        return None;
    }
    Some((magnitude / UNIT) as u32)
}

fn read_size(alloc: Global, path: &Path, operand: &Value) -> Result<u32, FilterFault>
    ensures { Answers (λ (n : ℕ). n) result (unless (is_some (size_in (tree operand.now))) (Invalid path.now)) (unwrap_or (size_in (tree operand.now)) 0) }
{
    let size = match operand {
        Value::Num(n) => size_of(n),
        _ => None,
    };
    match size {
        Some(size) => Ok(size),
        None => Err(invalid(alloc, path.text())),
    }
}

fn read_test(
    alloc: Global,
    path: &Path,
    operator: Operator,
    name: &str,
    operand: &Value,
) -> Result<Test, FilterFault>
    ensures { Answers test_tree result (operand_fault operator path.now name.now (tree operand.now)) (operand_test operator (tree operand.now)) }
{
    match operator {
        Operator::Eq => Ok(Test::Eq(copy(alloc, operand)?)),
        Operator::Ne => Ok(Test::Ne(copy(alloc, operand)?)),
        Operator::Gt => Ok(Test::Gt(read_ordered(alloc, path, operand)?)),
        Operator::Gte => Ok(Test::Gte(read_ordered(alloc, path, operand)?)),
        Operator::Lt => Ok(Test::Lt(read_ordered(alloc, path, operand)?)),
        Operator::Lte => Ok(Test::Lte(read_ordered(alloc, path, operand)?)),
        Operator::In => Ok(Test::In(read_operands(alloc, path, operand)?)),
        Operator::Nin => Ok(Test::Nin(read_operands(alloc, path, operand)?)),
        Operator::Exists => Ok(Test::Exists(read_flag(alloc, path, operand)?)),
        Operator::All => Ok(Test::Every(read_operands(alloc, path, operand)?)),
        Operator::Size => Ok(Test::Size(read_size(alloc, path, operand)?)),
        Operator::And => Err(unknown(alloc, name)),
        Operator::Or => Err(unknown(alloc, name)),
        Operator::Not => Err(unknown(alloc, name)),
    }
}

// ---- conditions on a path

fn read_operator(
    alloc: Global,
    path: &Path,
    name: &str,
    operand: &Value,
) -> Result<Test, FilterFault>
    ensures { Answers test_tree result (operator_fault (operator_named name.now) path.now name.now (tree operand.now)) (operator_test (operator_named name.now) (tree operand.now)) }
{
    match operator_of(name) {
        Some(operator) => read_test(alloc, path, operator, name, operand),
        None => {
            if is_dollar(name) {
                Err(unknown(alloc, name))
            } else {
                Err(invalid(alloc, path.text()))
            }
        }
    }
}

fn read_on(alloc: Global, path: &Path, name: &str, operand: &Value) -> Result<Filter, FilterFault>
    ensures { Answers filter_tree result (first_at (operator path.now name.now (tree operand.now) ∷ [])) (on path.now (operator_test (operator_named name.now) (tree operand.now))) }
{
    let test = read_operator(alloc, path, name, operand)?;
    let path = copy_path(alloc, path)?;
    Ok(Filter::On(path, test))
}

pub(crate) fn add(filters: &mut Filters, filter: Filter) -> Result<(), FilterFault>
    ensures ok { OnOk result (filters.new ≡ filters.old ++ filter ∷ []) }
    ensures err { IfErr result (λ e. e ≡ NoMemory) }
{
    match filters.push(filter) {
        Ok(()) => Ok(()),
        Err(_) => Err(FilterFault::NoMemory),
    }
}

fn read_operators(alloc: Global, path: &Path, members: &Members) -> Result<Filters, FilterFault>
    ensures { Answers (map filter_tree) result (first_at (flat_map (operator_site path.now) members.now)) (map (operator_filter path.now) members.now) }
{
    let mut filters = Filters::new(alloc);
    for i in 0..members.len() {
        let Some((name, operand)) = members.pair(i) else {
            unreachable!()
        };
        let filter = match read_on(alloc, path, name.as_str(), operand) {
            Ok(filter) => filter,
            Err(fault) => return Err(fault),
        };
        add(&mut filters, filter)?;
    }
    Ok(filters)
}

fn has_operators(value: &Value) -> bool
    ensures { result ≡ has_operators (tree value.now) }
{
    match value {
        Value::Object(members) => match members.pair(0) {
            Some((name, _)) => is_dollar(name.as_str()),
            None => false,
        },
        _ => false,
    }
}

fn together(mut filters: Filters) -> Filter
    ensures { filter_tree result ≡ together (filters_of (map filter_tree filters)) }
{
    if filters.len() != 1 {
        return Filter::All(filters);
    }
    match filters.pop() {
        Some(filter) => filter,
        None => unreachable!(),
    }
}

fn read_together(alloc: Global, path: &Path, members: &Members) -> Result<Filter, FilterFault>
    ensures { Answers filter_tree result (first_at (operator_sites path.now (members_of members.now))) (together (operator_filters path.now (members_of members.now))) }
{
    match read_operators(alloc, path, members) {
        Ok(filters) => Ok(together(filters)),
        Err(fault) => Err(fault),
    }
}

fn read_equal(alloc: Global, path: Path, value: &Value) -> Result<Filter, FilterFault>
    ensures { Answers filter_tree result None (on path (eq (tree value.now))) }
{
    let operand = copy(alloc, value)?;
    Ok(Filter::On(path, Test::Eq(operand)))
}

fn read_condition(alloc: Global, path: Path, value: &Value) -> Result<Filter, FilterFault>
    ensures { Answers filter_tree result (first_at (condition_sites path (tree value.now))) (condition path (tree value.now)) }
{
    match value {
        Value::Object(members) if has_operators(value) => read_together(alloc, &path, members),
        _ => read_equal(alloc, path, value),
    }
}

fn read_path(alloc: Global, name: &str, value: &Value) -> Result<Filter, FilterFault>
    ensures { Answers filter_tree result (option_or (unless (is_path name.now) (Invalid name.now)) (first_at (condition_sites name.now (tree value.now)))) (condition name.now (tree value.now)) }
{
    match Path::read(alloc, name) {
        Ok(path) => read_condition(alloc, path, value),
        Err(PathFault::NoMemory) => Err(FilterFault::NoMemory),
        Err(_) => Err(invalid(alloc, name)),
    }
}

// ---- filters

impl Filter {
    /// The filter that a value spells, or the first fault in written order.
    pub fn read(alloc: Global, value: &Value) -> Result<Filter, FilterFault>
        ensures spells { Answers filter_tree result (first_fault (tree value.now)) (filter_in (tree value.now)) }
        ensures ready { IfOk result (λ f. is_ready (filter_tree f) ≡ true) }
        ensures writable { IsWritable (tree value.now) → IfOk result (λ f. FilterIsWritable (filter_tree f)) }
    {
        read_inner(alloc, "", value)
    }
}

// a value that has to be a filter, with the name of the operator that it stands under
#[cycle(reading)]
fn read_inner(alloc: Global, name: &str, value: &Value) -> Result<Filter, FilterFault>
    ensures { Answers filter_tree result (option_or (unless (is_object (tree value.now)) (Invalid name.now)) (first_at (sites (tree value.now)))) (filter_in (tree value.now)) }
{
    match value {
        Value::Object(members) => read_object(alloc, members),
        _ => Err(invalid(alloc, name)),
    }
}

#[cycle(reading)]
fn read_object(alloc: Global, members: &Members) -> Result<Filter, FilterFault>
    ensures { Answers filter_tree result (first_at (member_sites (members_of members.now))) (all (member_filters (members_of members.now))) }
{
    match read_members(alloc, members) {
        Ok(filters) => Ok(Filter::All(filters)),
        Err(fault) => Err(fault),
    }
}

#[cycle(reading)]
fn read_members(alloc: Global, members: &Members) -> Result<Filters, FilterFault>
    ensures { Answers (map filter_tree) result (first_at (flat_map one_sites members.now)) (map one_filter members.now) }
{
    let mut filters = Filters::new(alloc);
    for i in 0..members.len() {
        let Some((name, value)) = members.pair(i) else {
            unreachable!()
        };
        let filter = match read_member(alloc, name, value) {
            Ok(filter) => filter,
            Err(fault) => return Err(fault),
        };
        add(&mut filters, filter)?;
    }
    Ok(filters)
}

#[cycle(reading)]
fn read_member(alloc: Global, name: &Text, value: &Value) -> Result<Filter, FilterFault>
    ensures { Answers filter_tree result (first_at (one_sites (name.now, tree value.now))) (one_filter (name.now, tree value.now)) }
{
    read_by(alloc, role_of(name.as_str()), name.as_str(), value)
}

#[cycle(reading)]
fn read_by(alloc: Global, role: Role, name: &str, value: &Value) -> Result<Filter, FilterFault>
    ensures { Answers filter_tree result (option_or (named_fault role name.now (tree value.now)) (first_at (inside_sites role name.now (tree value.now)))) (filter_by role name.now (tree value.now)) }
{
    match role {
        Role::All => match read_list_of(alloc, name, value) {
            Ok(filters) => Ok(Filter::All(filters)),
            Err(fault) => Err(fault),
        },
        Role::Any => match read_list_of(alloc, name, value) {
            Ok(filters) => Ok(Filter::Any(filters)),
            Err(fault) => Err(fault),
        },
        Role::Not => match read_inner(alloc, name, value) {
            Ok(filter) => not(alloc, filter),
            Err(fault) => Err(fault),
        },
        Role::Unknown => Err(unknown(alloc, name)),
        Role::Path => read_path(alloc, name, value),
    }
}

pub(crate) fn not(alloc: Global, filter: Filter) -> Result<Filter, FilterFault>
    ensures ok { IfOk result (λ f. filter_tree f ≡ negated (filter_tree filter)) }
    ensures err { IfErr result (λ e. e ≡ NoMemory) }
{
    match Box::new(alloc, filter) {
        Ok(filter) => Ok(Filter::Not(filter)),
        Err(_) => Err(FilterFault::NoMemory),
    }
}

#[cycle(reading)]
fn read_list_of(alloc: Global, name: &str, value: &Value) -> Result<Filters, FilterFault>
    ensures { Answers (map filter_tree) result (option_or (unless (is_list (tree value.now)) (Invalid name.now)) (first_at (list_sites name.now (tree value.now)))) (list_of_filters (list_filters (tree value.now))) }
{
    match value {
        Value::List(elements) => read_each(alloc, name, elements),
        _ => Err(invalid(alloc, name)),
    }
}

#[cycle(reading)]
fn read_each(alloc: Global, name: &str, elements: &Items) -> Result<Filters, FilterFault>
    ensures { Answers (map filter_tree) result (first_at (flat_map (inside_one name.now) elements.now)) (map filter_in elements.now) }
{
    let mut filters = Filters::new(alloc);
    for i in 0..elements.len() {
        let Some(element) = elements.get(i) else {
            unreachable!()
        };
        let filter = match read_inner(alloc, name, element) {
            Ok(filter) => filter,
            Err(fault) => return Err(fault),
        };
        add(&mut filters, filter)?;
    }
    Ok(filters)
}
