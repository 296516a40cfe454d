// The order of scalars, and whether a list has a value.
ghost use Rattle.std.specs.Prelude.{◌≡◌, map};
ghost use Rattle.std.specs.List.{list_any};
ghost use Rattle.json_tree.specs.View.{tree};
ghost use Rattle.json_tree.specs.Same.{same};
ghost use Rattle.update_ops.specs.View.{trees};
ghost use Rattle.update_ops.specs.Order.{rank, scalar_cmp};
ghost use Rattle.update_ops.specs.Forms.{is_scalar};

use json_tree::Value;
use std::cmp::Ordering;

fn rank(value: &Value) -> u8
    ensures { result ≡ rank (tree value.now) }
{
    match value {
        Value::Null => 1,
        Value::Num(_) => 2,
        Value::Text(_) => 3,
        Value::Bool(_) => 4,
        Value::Date(_) => 5,
        Value::List(_) => 0,
        Value::Object(_) => 0,
    }
}

pub(crate) fn is_scalar(value: &Value) -> bool
    ensures { result ≡ is_scalar (tree value.now) }
{
    match value {
        Value::List(_) => false,
        Value::Object(_) => false,
        _ => true,
    }
}

pub(crate) fn scalar_cmp(a: &Value, b: &Value) -> Ordering
    ensures { result ≡ scalar_cmp (tree a.now) (tree b.now) }
{
    match (a, b) {
        (Value::Num(a), Value::Num(b)) => a.cmp(b),
        (Value::Text(a), Value::Text(b)) => a.as_str().as_bytes().cmp(b.as_str().as_bytes()),
        (Value::Bool(a), Value::Bool(b)) => a.cmp(b),
        (Value::Date(a), Value::Date(b)) => a.cmp(b),
        _ => rank(a).cmp(&rank(b)),
    }
}

/// Whether a list has the value.
pub(crate) fn has(elements: &[Value], value: &Value) -> bool
    ensures { result ≡ list_any (λ t. same t (tree value.now)) (map tree elements.now) }
{
    for element in elements {
        if element.same(value) {
            return true;
        }
    }
    false
}

/// Whether the value is among others.
pub(crate) fn has_among(others: &[&Value], value: &Value) -> bool
    ensures { result ≡ list_any (λ t. same t (tree value.now)) (trees others.now) }
{
    for other in others {
        if other.same(value) {
            return true;
        }
    }
    false
}
