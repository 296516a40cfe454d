// The id that stands for the one which a document without `_id` gets.
ghost use Rattle.std.specs.Prelude.{◌≡◌, codes, None, IfErr, OnOk};
ghost use Rattle.json_tree.specs.Tree.{object, members_of};
ghost use Rattle.json_tree.specs.Members.{member_at, put_member};
ghost use Rattle.json_tree.specs.View.{tree};
ghost use Rattle.update_ops.specs.Upsert.{with_id};
ghost use Rattle.cmd_grammar.specs.Commands.{stand_in};
ghost use Rattle.cmd_grammar.specs.Answers.{Passes};
ghost use Rattle.cmd_grammar.specs.declared.fault.CommandFault.TheVariants.{NoMemory};

use crate::fault::CommandFault;
use json_tree::{Members, ObjectBuilder, Text, Value};
use std::alloc::Global;

// As many bytes as each generated id has.
const STAND_IN: &str = "00000000-0000-0000-0000-000000000000";

fn put_pair(
    alloc: Global,
    object: &mut ObjectBuilder,
    name: &str,
    value: Value,
) -> Result<(), CommandFault>
    ensures ok { OnOk result (object.new ≡ put_member name.now (tree value) object.old) }
    ensures err { IfErr result (λ e. e ≡ NoMemory) }
{
    let name = match Text::of_str(alloc, name) {
        Ok(name) => name,
        Err(_) => return Err(CommandFault::NoMemory),
    };
    match object.put(name, value) {
        Ok(()) => Ok(()),
        Err(_) => Err(CommandFault::NoMemory),
    }
}

fn put_copy(
    alloc: Global,
    object: &mut ObjectBuilder,
    name: &str,
    value: &Value,
) -> Result<(), CommandFault>
    ensures ok { OnOk result (object.new ≡ put_member name.now (tree value.now) object.old) }
    ensures err { IfErr result (λ e. e ≡ NoMemory) }
{
    match value.try_copy(alloc) {
        Ok(copy) => put_pair(alloc, object, name, copy),
        Err(_) => Err(CommandFault::NoMemory),
    }
}

fn stand_in(alloc: Global) -> Result<Value, CommandFault>
    ensures { Passes None (λ v. tree v ≡ stand_in) result }
{
    match Text::of_str(alloc, STAND_IN) {
        Ok(text) => Ok(Value::Text(text)),
        Err(_) => Err(CommandFault::NoMemory),
    }
}

/// An object without an id, with the one that stands for it in front. Of n members this takes n log n steps.
pub(crate) fn under_stand_in(alloc: Global, members: &Members) -> Result<Value, CommandFault>
    requires { member_at (codes "_id") members.now ≡ None }
    ensures { Passes None (λ v. tree v ≡ with_id stand_in (object (members_of members.now))) result }
{
    members.by_type();
    let mut object = ObjectBuilder::new(alloc);
    let id = stand_in(alloc)?;
    put_pair(alloc, &mut object, "_id", id)?;
    for i in 0..members.len() {
        let Some((name, value)) = members.pair(i) else {
            unreachable!()
        };
        put_copy(alloc, &mut object, name.as_str(), value)?;
    }
    Ok(Value::Object(object.finish()))
}
