// The kinds of members' values.
ghost use Rattle.std.specs.Prelude.{◌≡◌, map};
ghost use Rattle.std.specs.List.{list_all};
ghost use Rattle.json_tree.specs.View.{tree};
ghost use Rattle.update_ops.specs.Faults.{is_object};
ghost use Rattle.cmd_grammar.specs.Parts.{is_text};
ghost use Rattle.cmd_grammar.specs.Rows.{are_objects, has_kind};

use crate::members::is_text;
use crate::numbers::whole_in;
use json_tree::Value;

/// What a member's value has to be.
#[derive(Clone, Copy)]
pub(crate) enum Kind {
    /// An object.
    Object,
    /// A list of one or more objects.
    Objects,
    /// A truth value.
    Boolean,
    /// A whole number under 2^31, not below zero.
    Whole,
    /// A text.
    Text,
    /// A text, or null.
    TextOrNull,
    /// The text "before" or "after".
    BeforeOrAfter,
}

fn all_objects(values: &[Value]) -> bool
    ensures { result ≡ list_all is_object (map tree values.now) }
{
    for value in values {
        if !matches!(value, Value::Object(_)) {
            return false;
        }
    }
    true
}

fn are_objects(value: &Value) -> bool
    ensures { result ≡ are_objects (tree value.now) }
{
    match value {
        Value::List(items) => items.len() != 0 && all_objects(items.as_slice()),
        _ => false,
    }
}

impl Kind {
    /// Whether a value is of this kind.
    pub(crate) fn is_of(self, value: &Value) -> bool
        ensures { result ≡ has_kind self (tree value.now) }
    {
        match self {
            Kind::Object => matches!(value, Value::Object(_)),
            Kind::Objects => are_objects(value),
            Kind::Boolean => matches!(value, Value::Bool(_)),
            Kind::Whole => whole_in(value).is_some(),
            Kind::Text => matches!(value, Value::Text(_)),
            Kind::TextOrNull => matches!(value, Value::Text(_) | Value::Null),
            Kind::BeforeOrAfter => is_text(value, "before") || is_text(value, "after"),
        }
    }
}
