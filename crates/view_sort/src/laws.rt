// Laws of views, sorts and page states: each function does nothing, and its clauses are the laws.
ghost use Rattle.std.specs.Prelude.{◌≡◌, ◌<◌, ◌^◌, ◌∷◌, ◌++◌, take, ℕ, Bool, not, List, option_and_then};
ghost use Rattle.json_tree.specs.Tree.{Tree, object, Members};
ghost use Rattle.json_tree.specs.Id.{IsId, IsInRange};
ghost use Rattle.view_sort.specs.ByPath.{object_at, rules_at, Lead, Distinct, shown_as};
ghost use Rattle.view_sort.specs.View.{under, includes, whole_rests, view};
ghost use Rattle.view_sort.specs.declared.show.Show.{Show};
ghost use Rattle.shred_cols.specs.Row.{Version};
ghost use Rattle.view_sort.specs.Page.{state_text};
ghost use Rattle.view_sort.specs.Sort.{IsSortOf, HasIds, sorted};

use json_tree::{ids_are_ordered, key_bytes_are_ordered};

/// One list is what was found, sorted.
pub fn sorts_are_one()
    ensures { (sort : List (List ℕ × Bool)) (xs ys zs : List Version) → HasIds xs → IsSortOf sort xs ys → IsSortOf sort xs zs → ys ≡ zs }
{
    ids_are_ordered();
}

/// What was found can be sorted.
pub fn sorted_is_a_sort()
    ensures { (sort : List (List ℕ × Bool)) (xs : List Version) → IsSortOf sort xs (sorted sort xs) }
{}

/// The first so many of all pages are the first of those of the earlier pages and of all that the last page found.
pub fn first_of_pages_are_first()
    ensures { (sort : List (List ℕ × Bool)) (keep : ℕ) (xs ys : List Version) → HasIds (xs ++ ys)
        → take keep (sorted sort (take keep (sorted sort xs) ++ ys)) ≡ take keep (sorted sort (xs ++ ys)) }
{
    ids_are_ordered();
}

/// One page state has a text.
pub fn page_states_are_one()
    ensures { (m n : ℕ) (s t : Tree) → m < 2 ^ 64 → n < 2 ^ 64 → IsId s → IsInRange s → IsId t → IsInRange t → state_text m s ≡ state_text n t → (m ≡ n) × (s ≡ t) }
{
    key_bytes_are_ordered();
}

/// What a view shows at a path of names is what is chosen of the document's value there, as long as
/// the rules lead further than each front of the path and nothing is said of the front.
pub fn views_are_by_paths()
    ensures { (rules : List (List ℕ × Show)) (ms : Members) (name : List ℕ) (more : List (List ℕ)) → Distinct (object ms) (name ∷ more) → Lead (under name (whole_rests rules)) more → object_at (view rules (object ms)) (name ∷ more) ≡ option_and_then (shown_as (not (includes rules)) (rules_at (whole_rests rules) (name ∷ more))) (object_at (object ms) (name ∷ more)) }
{}
