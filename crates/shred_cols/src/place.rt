// Where values stand in a document.
ghost use Rattle.std.specs.Prelude.{◌≡◌, map};
ghost use Rattle.json_tree.specs.View.{tree};
ghost use Rattle.shred_cols.specs.Entry.{kept_of, elements_in};

use crate::forms::Kept;
use doc_paths::Path;
use json_tree::Value;
use std::marker::Model;

/// A value of a document and the path to it, with what is kept of it and of its elements.
#[derive(Drop)]
pub(crate) struct Place<'a> {
    path: Path,
    value: &'a Value,
    kept: Kept,
    inside: Vec<Kept>,
}

impl<'a> Model for Place<'a> {
    ghost use Rattle.std.specs.Prelude.{◌≡◌, ℕ, List, map};
    ghost use Rattle.std.specs.Coded.{coded×, coded_list, coded_ℕ};
    ghost use Rattle.json_tree.specs.Tree.{Tree, tree_code};
    ghost use Rattle.json_tree.specs.View.{tree};
    ghost use Rattle.shred_cols.specs.Entry.{kept_of, elements_in};

    ghost Value = { List ℕ × Tree };

    ghost coded = { coded× (coded_list coded_ℕ) tree_code };

    ghost view = { λ p. (p.path, tree p.value.now) };

    ghost invariant = { λ p. (p.kept ≡ kept_of (tree p.value.now)) × (p.inside.items ≡ map kept_of (elements_in (tree p.value.now))) };
}

impl<'a> Place<'a> {
    pub(crate) fn new(path: Path, value: &'a Value, kept: Kept, inside: Vec<Kept>) -> Place<'a>
        requires kept { kept ≡ kept_of (tree value.now) }
        requires inside { inside.items ≡ map kept_of (elements_in (tree value.now)) }
        ensures { result ≡ (path, tree value.now) }
    {
        Place {
            path,
            value,
            kept,
            inside,
        }
    }

    /// The path to the value.
    pub(crate) fn path(&self) -> &Path
        ensures { result.now ≡ self.now.0 }
    {
        &self.path
    }

    /// The value.
    pub(crate) fn value(&self) -> &'a Value
        ensures { tree result.now ≡ self.now.1 }
    {
        self.value
    }

    /// What is kept of the value.
    pub(crate) fn kept(&self) -> &Kept
        ensures { result.now ≡ kept_of self.now.1 }
    {
        &self.kept
    }

    /// What is kept of its elements.
    pub(crate) fn inside(&self) -> &[Kept]
        ensures { result.now ≡ map kept_of (elements_in self.now.1) }
    {
        self.inside.as_slice()
    }
}
