// What is so of all filters, said of the values that spell them.
ghost use Rattle.std.specs.Prelude.{◌≡◌, ◌∷◌, codes, not, true, false, List, ℕ, None};
ghost use Rattle.std.specs.List.{list_all, AllByRecursion as Each};
ghost use Rattle.std.specs.List.Sorted.{IsPermutation};
ghost use Rattle.json_tree.specs.Tree.{Tree, object, no_members, members_of};
ghost use Rattle.json_tree.specs.Doc.{is_dollar};
ghost use Rattle.json_tree.specs.Writable.{IsWritable};
ghost use Rattle.doc_paths.specs.Text.{parts};
ghost use Rattle.doc_paths.specs.At.{at};
ghost use Rattle.filter_tree.specs.Filters.{FilterTree, eq};
ghost use Rattle.filter_tree.specs.Matches.{holds, matches};
ghost use Rattle.filter_tree.specs.Equalities.{equalities};
ghost use Rattle.filter_tree.specs.Faults.{first_fault};
ghost use Rattle.filter_tree.specs.Reads.{filter_in};
ghost use Rattle.filter_tree.specs.Finds.{finds, just, asks};
ghost use Rattle.filter_tree.specs.Ready.{is_ready, FilterIsWritable};

/// `$ne`, `$nin` and `$not` are the contraries of `$eq`, of `$in` and of the filter inside.
pub fn contraries()
    ensures ne { (name : List ℕ) (x d : Tree) → is_dollar name ≡ false → finds (asks name (codes "$ne") x) d ≡ not (finds (asks name (codes "$eq") x) d) }
    ensures nin { (name : List ℕ) (x d : Tree) → is_dollar name ≡ false → finds (asks name (codes "$nin") x) d ≡ not (finds (asks name (codes "$in") x) d) }
    ensures negated { (filter d : Tree) → finds (just (codes "$not") filter) d ≡ not (finds filter d) }
{}

/// An empty filter matches every document. The members of a filter are filters by themselves and all
/// have to hold, in any order.
pub fn members_all_hold()
    ensures empty { (d : Tree) → finds (object no_members) d ≡ true }
    ensures each { (ms : List (List ℕ × Tree)) (d : Tree) → finds (object (members_of ms)) d ≡ list_all (λ m. finds (just m.0 m.1) d) ms }
    ensures any_order { (ms ns : List (List ℕ × Tree)) (d : Tree) → IsPermutation ms ns → finds (object (members_of ms)) d ≡ finds (object (members_of ns)) d }
{}

/// Operators on one path are conditions by themselves and all have to hold.
pub fn operators_all_hold()
    ensures { (name : List ℕ) (o : List ℕ × Tree) (os : List (List ℕ × Tree)) (d : Tree) → is_dollar name ≡ false → list_all (λ p. is_dollar p.0) (o ∷ os) ≡ true
        → finds (just name (object (members_of (o ∷ os)))) d ≡ list_all (λ p. finds (asks name p.0 p.1) d) (o ∷ os) }
{}

/// What a value without fault spells can be planned, and holds no object that stands for a date where
/// the value holds none.
pub fn filters_are_ready()
    ensures ready { (t : Tree) → first_fault t ≡ None → is_ready (filter_in t) ≡ true }
    ensures writable { (t : Tree) → IsWritable t → FilterIsWritable (filter_in t) }
{}

/// In every document that matches a filter, each equality that the filter asks for holds at its path.
pub fn equalities_hold()
    ensures { (f : FilterTree) (d : Tree) → matches f d ≡ true → Each (λ e. holds (eq e.1) (at d (parts e.0)) ≡ true) (equalities f) }
{}
