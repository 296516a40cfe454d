// Worked rows, computed by the definitions.
ghost use Rattle.std.specs.Prelude.{◌≡◌, codes, [], ◌∷◌, Some, None, true, false, replicate};
ghost use Rattle.json_tree.specs.Tree.{null, text, boolean};
ghost use Rattle.filter_tree.specs.Faults.{first_fault};
ghost use Rattle.filter_tree.specs.Finds.{finds, asks};
ghost use Rattle.filter_tree.specs.Rows.{n, obj, arr, tagged, plain};
ghost use Rattle.filter_tree.specs.declared.fault.FilterFault.TheVariants.{Invalid, UnknownOperator, TooManyOperands};

/// Filters on documents.
pub fn filters_find()
    ensures element { finds (obj ((codes "tags", text (codes "x")) ∷ [])) tagged ≡ true }
    ensures nothing { finds (obj ((codes "tags", null) ∷ [])) tagged ≡ true }
    ensures inner { finds (obj ((codes "tags.2.k", n 1) ∷ [])) tagged ≡ true }
    ensures size { finds (asks (codes "tags") (codes "$size") (n 3)) tagged ≡ true }
    ensures unequal { finds (asks (codes "tags") (codes "$ne") (text (codes "x"))) tagged ≡ false }
    ensures absent_ne { finds (asks (codes "x") (codes "$ne") (n 1)) plain ≡ true }
    ensures absent_nin { finds (asks (codes "x") (codes "$nin") (arr (n 1 ∷ []))) plain ≡ true }
    ensures not_greater { finds (obj ((codes "$not", asks (codes "x") (codes "$gt") (n 1)) ∷ [])) plain ≡ true }
    ensures missing { finds (asks (codes "x") (codes "$exists") (boolean false)) plain ≡ true }
    ensures absent_null { finds (obj ((codes "x", null) ∷ [])) plain ≡ false }
    ensures empty_or { finds (obj ((codes "$or", arr []) ∷ [])) plain ≡ false }
    ensures empty_and { finds (obj ((codes "$and", arr []) ∷ [])) plain ≡ true }
{}

/// First faults.
pub fn faults_are_told()
    ensures whole { first_fault (n 1) ≡ Some (Invalid []) }
    ensures near { first_fault (asks (codes "x") (codes "$near") (n 1)) ≡ Some (UnknownOperator (codes "$near")) }
    ensures name { first_fault (obj ((codes "x", obj ((codes "$gt", n 1) ∷ (codes "y", n 2) ∷ [])) ∷ [])) ≡ Some (Invalid (codes "x")) }
    ensures element { first_fault (obj ((codes "$or", arr (plain ∷ n 1 ∷ [])) ∷ [])) ≡ Some (Invalid (codes "$or")) }
    ensures inner { first_fault (obj ((codes "$or", arr (obj ((codes "a..b", n 1) ∷ []) ∷ n 1 ∷ [])) ∷ [])) ≡ Some (Invalid (codes "a..b")) }
    ensures many { first_fault (asks (codes "x") (codes "$in") (arr (replicate 101 null))) ≡ Some (TooManyOperands 101) }
    ensures most { first_fault (asks (codes "x") (codes "$in") (arr (replicate 100 null))) ≡ None }
{}
