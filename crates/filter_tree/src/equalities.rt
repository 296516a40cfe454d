// The equalities that a filter asks for.
ghost use Rattle.std.specs.Prelude.{◌≡◌, ◌++◌, ◌∷◌, [], OnOk, IfOk, IfErr, map};
ghost use Rattle.std.specs.List.{flat_map};
ghost use Rattle.filter_tree.specs.View.{filter_tree, equality_of};
ghost use Rattle.filter_tree.specs.Equalities.{equalities};
ghost use Rattle.filter_tree.specs.declared.fault.FilterFault.TheVariants.{NoMemory};

use crate::fault::FilterFault;
use crate::filter::{Filter, Test};
use doc_paths::Path;
use json_tree::Value;
use std::alloc::Global;

/// A path, and the operand of a `$eq` there that has to hold whenever the filter does.
#[derive(Clone, Copy)]
pub struct Equality<'a> {
    pub path: &'a Path,
    pub operand: &'a Value,
}

impl Filter {
    /// The equalities that the filter asks for, in written order.
    pub fn equalities(&self, alloc: Global) -> Result<Vec<Equality<'_>>, FilterFault>
        ensures ok { IfOk result (λ es. map equality_of es.items ≡ equalities (filter_tree self.now)) }
        ensures err { IfErr result (λ e. e ≡ NoMemory) }
    {
        let mut found = Vec::new(alloc);
        match ask(self, &mut found) {
            Ok(()) => Ok(found),
            Err(fault) => Err(fault),
        }
    }
}

fn add<'a>(found: &mut Vec<Equality<'a>>, equality: Equality<'a>) -> Result<(), FilterFault>
    ensures ok { OnOk result (map equality_of found.new.items ≡ map equality_of found.old.items ++ equality_of equality.entry ∷ []) }
    ensures err { IfErr result (λ e. e ≡ NoMemory) }
{
    match found.push(equality) {
        Ok(()) => Ok(()),
        Err(_) => Err(FilterFault::NoMemory),
    }
}

/// Adds what a filter asks for.
#[cycle(asking)]
fn ask<'a>(filter: &'a Filter, found: &mut Vec<Equality<'a>>) -> Result<(), FilterFault>
    ensures ok { OnOk result (map equality_of found.new.items ≡ map equality_of found.old.items ++ equalities (filter_tree filter.now)) }
    ensures err { IfErr result (λ e. e ≡ NoMemory) }
{
    match filter {
        Filter::All(filters) => ask_all(filters.as_slice(), found),
        Filter::On(path, Test::Eq(operand)) => add(found, Equality { path, operand }),
        _ => Ok(()),
    }
}

#[cycle(asking)]
fn ask_all<'a>(filters: &'a [Filter], found: &mut Vec<Equality<'a>>) -> Result<(), FilterFault>
    ensures ok { OnOk result (map equality_of found.new.items ≡ map equality_of found.old.items ++ flat_map (λ f. equalities (filter_tree f)) filters.now) }
    ensures err { IfErr result (λ e. e ≡ NoMemory) }
{
    for filter in filters {
        match ask(filter, found) {
            Ok(()) => {}
            Err(fault) => return Err(fault),
        }
    }
    Ok(())
}
