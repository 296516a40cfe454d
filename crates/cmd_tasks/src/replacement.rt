// What may replace a document.
ghost use Rattle.std.specs.Prelude.{◌≡◌};
ghost use Rattle.json_tree.specs.View.{tree};
ghost use Rattle.update_ops.specs.Upsert.{IsReplacement};

use json_tree::Value;
use std::marker::Model;

/// An object in which no name begins with `$`, and whose `_id`, if it has one, is an id.
#[derive(Drop)]
pub(crate) struct Replacement {
    value: Value,
}

impl Model for Replacement {
    ghost use Rattle.json_tree.specs.Tree.{Tree, tree_code};

    ghost Value = { Tree };

    ghost coded = { tree_code };

    ghost use Rattle.json_tree.specs.View.{tree};

    ghost view = { λ r. tree r.value };

    ghost use Rattle.update_ops.specs.Upsert.{IsReplacement};

    ghost invariant = { λ r. IsReplacement (tree r.value) };
}

impl Replacement {
    /// The replacement that a value is.
    pub(crate) fn of_value(value: Value) -> Replacement
        requires { IsReplacement (tree value) }
        ensures { result ≡ tree value }
    {
        Replacement { value }
    }

    /// The object.
    pub(crate) fn value(&self) -> &Value
        ensures value { tree result.now ≡ self.now }
        ensures replacement { IsReplacement self.now }
    {
        &self.value
    }
}
