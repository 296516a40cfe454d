// When a look at the document may be asked for.
ghost use Rattle.std.specs.Prelude.{◌≡◌, false, List};
ghost use Rattle.json_tree.specs.Tree.{Tree};
ghost use Rattle.shred_cols.specs.Columns.{IsColumns};
ghost use Rattle.shred_cols.specs.declared.entry.Entry.{Entry};
ghost use Rattle.filter_tree.specs.Filters.{FilterTree};
ghost use Rattle.filter_plan.specs.Judging.{has_open, Judged};
ghost use Rattle.filter_plan.specs.declared.step.Verdict.TheVariants.{Look};

/// Where no condition is open, no look is asked for.
pub fn looks_are_of_open_conditions()
    ensures { (d : Tree) (c : List Entry) (f : FilterTree) → has_open c f ≡ false → Judged d c f Look → ⊥ }
{}

/// No condition is open while all values and texts are kept whole.
pub fn nothing_is_open()
    ensures { (d : Tree) (c : List Entry) (f : FilterTree) → IsColumns d c → has_open c f ≡ false }
{}
