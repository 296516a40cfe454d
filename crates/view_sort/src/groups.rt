// The rules that lead into an object, by the members into which they lead.
ghost use Rattle.std.specs.Prelude.{ℕ, List, ◌≡◌, ◌++◌, [], ◌∷◌, OnOk, IfOk, IfErr};
ghost use Rattle.view_sort.specs.View.{under};
ghost use Rattle.view_sort.specs.Walk.{IsGrouped};
ghost use Rattle.view_sort.specs.declared.show.Show.{Show};
ghost use Rattle.view_sort.specs.declared.fault.ViewFault.TheVariants.{NoMemory};

use crate::fault::ViewFault;
use crate::part::first_part;
use crate::rest::{Rest, under};
use json_tree::Members;
use std::alloc::Global;
use std::collections::BTreeMap;

/// With so many rules or members at most, each member goes through all rules.
const FEW: usize = 8;

/// No rules for each member.
fn no_rules<'a, 'm>(
    alloc: Global,
    members: &'m Members,
) -> Result<BTreeMap<&'m str, Vec<Rest<'a>>>, ViewFault>
    ensures ok { IfOk result (λ m. IsGrouped (λ v. v.items) m []) }
    ensures err { IfErr result (λ e. e ≡ NoMemory) }
{
    let mut groups = BTreeMap::new(alloc);
    for i in 0..members.len() {
        let Some((name, _)) = members.pair(i) else {
            return Ok(groups);
        };
        groups.insert(name.as_str(), Vec::new(alloc))?;
    }
    Ok(groups)
}

/// Adds a rule to those of the member into which it leads, if there is one.
fn add<'a, 'm>(
    groups: &mut BTreeMap<&'m str, Vec<Rest<'a>>>,
    rest: &Rest<'a>,
) -> Result<(), ViewFault>
    ensures ok { OnOk result ((rs : List (List (List ℕ) × Show)) → IsGrouped (λ v. v.items) groups.old rs → IsGrouped (λ v. v.items) groups.new (rs ++ rest.now ∷ [])) }
    ensures err { IfErr result (λ e. e ≡ NoMemory) }
{
    let Some(text) = rest.left else {
        return Ok(());
    };
    let (part, more) = first_part(text);
    if let Some(group) = groups.get_mut(part) {
        group.push(Rest {
            left: more,
            show: rest.show,
        })?;
    }
    Ok(())
}

/// The rules under the name of each member that has it, in their order.
fn grouped<'a, 'm>(
    alloc: Global,
    rests: &[Rest<'a>],
    members: &'m Members,
) -> Result<BTreeMap<&'m str, Vec<Rest<'a>>>, ViewFault>
    ensures ok { IfOk result (λ m. IsGrouped (λ v. v.items) m rests.now) }
    ensures err { IfErr result (λ e. e ≡ NoMemory) }
{
    let mut groups = no_rules(alloc, members)?;
    for i in 0..rests.len() {
        let Some(rest) = rests.get(i) else {
            unreachable!();
        };
        add(&mut groups, rest)?;
    }
    Ok(groups)
}

/// The rules by names, where there are many of both rules and members, and else none.
pub(crate) fn groups_of<'a, 'm>(
    alloc: Global,
    rests: &[Rest<'a>],
    members: &'m Members,
) -> Result<BTreeMap<&'m str, Vec<Rest<'a>>>, ViewFault>
    ensures ok { IfOk result (λ m. IsGrouped (λ v. v.items) m rests.now) }
    ensures err { IfErr result (λ e. e ≡ NoMemory) }
{
    if rests.len() <= FEW || members.len() <= FEW {
        return Ok(BTreeMap::new(alloc));
    }
    grouped(alloc, rests, members)
}

/// The rules of the member of this name: its group, which is taken out, or what the rules themselves say.
pub(crate) fn taken<'a, 'm>(
    alloc: Global,
    groups: &mut BTreeMap<&'m str, Vec<Rest<'a>>>,
    rests: &[Rest<'a>],
    name: &str,
) -> Result<Vec<Rest<'a>>, ViewFault>
    requires { IsGrouped (λ v. v.items) groups.old rests.now }
    ensures ok { IfOk result (λ v. v.items ≡ under name.now rests.now) }
    ensures groups { IsGrouped (λ v. v.items) groups.new rests.now }
    ensures err { IfErr result (λ e. e ≡ NoMemory) }
{
    match groups.remove(name) {
        Some(group) => Ok(group),
        None => under(alloc, rests, name),
    }
}
