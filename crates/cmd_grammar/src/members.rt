// The members of a value.
ghost use Rattle.std.specs.Prelude.{◌≡◌, option_map};
ghost use Rattle.json_tree.specs.View.{tree};
ghost use Rattle.cmd_grammar.specs.Parts.{member_in, option_in, is_text, flag_in, name_text, after_of};

use json_tree::{Text, Value};

/// A member of a value.
pub(crate) fn member<'v>(value: &'v Value, name: &str) -> Option<&'v Value>
    ensures { option_map (λ v. tree v.now) result ≡ member_in name.now (tree value.now) }
{
    match value {
        Value::Object(members) => members.get(name),
        _ => None,
    }
}

/// A member of a command's options.
pub(crate) fn option<'v>(command: &'v Value, name: &str) -> Option<&'v Value>
    ensures { option_map (λ v. tree v.now) result ≡ option_in name.now (tree command.now) }
{
    match member(command, "options") {
        Some(options) => member(options, name),
        None => None,
    }
}

/// A member of a value, moved out of it.
pub(crate) fn take_member(value: Value, name: &str) -> Option<Value>
    ensures { option_map tree result ≡ member_in name.now (tree value) }
{
    match value {
        Value::Object(members) => {
            let mut members = members;
            members.remove(name)
        }
        _ => None,
    }
}

/// Whether a value is this text.
pub(crate) fn is_text(value: &Value, text: &str) -> bool
    ensures { result ≡ is_text text.now (tree value.now) }
{
    match value {
        Value::Text(own) => own.as_str() == text,
        _ => false,
    }
}

/// An option that is a truth value; one that is absent is false.
pub(crate) fn flag_in(command: &Value, name: &str) -> bool
    ensures { result ≡ flag_in name.now (tree command.now) }
{
    match option(command, name) {
        Some(Value::Bool(flag)) => *flag,
        _ => false,
    }
}

/// Whether the option `returnDocument` is "after".
pub(crate) fn is_after(command: &Value) -> bool
    ensures { result ≡ after_of (tree command.now) }
{
    match option(command, "returnDocument") {
        Some(value) => is_text(value, "after"),
        None => false,
    }
}

/// The member `name`, where it is a text.
pub(crate) fn name_text(command: &Value) -> Option<&Text>
    ensures { option_map (λ s. s.now) result ≡ name_text (tree command.now) }
{
    match member(command, "name") {
        Some(Value::Text(text)) => Some(text),
        _ => None,
    }
}
