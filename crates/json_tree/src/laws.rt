// Laws of values, numbers and ids: each function does nothing, and its clauses are the laws.
ghost use Rattle.std.specs.Prelude.{◌≡◌, ◌≢◌, ◌↔◌, IsTrue, false, ◌*◌, ◌<◌, ◌≤◌, ◌^◌, ◌⊎◌, ℤ, pos, ◌*ℤ◌, nat_abs, Some, None};
ghost use Rattle.std.specs.Cmp.{IsTotalOrder};
ghost use Rattle.std.specs.Cmp.Lexicographic.{slice_cmp};
ghost use Rattle.std.specs.Ordering.{nat_cmp};
ghost use Rattle.std.specs.declared.cmp.Ordering.TheVariants.{Equal};
ghost use Rattle.json_tree.specs.Num.{IsNumber, coefficient_of, product_of};
ghost use Rattle.json_tree.specs.Tree.{Tree};
ghost use Rattle.json_tree.specs.Id.{IsId, IsInRange, id_cmp, key_of};
ghost use Rattle.json_tree.specs.Doc.{has_dollar_name};
ghost use Rattle.json_tree.specs.Same.{same};
ghost use Rattle.json_tree.specs.Writable.{IsValue, HoldsNoDateObject, IsWritable};

/// A product in units of 10^-18 is exact, and it is refused only where the coefficients' product leaves
/// the range or no number is the exact product.
pub fn products_are_exact()
    ensures exact { (a b n : ℤ) → product_of a b ≡ Some n → (coefficient_of (nat_abs a) * coefficient_of (nat_abs b) < 10 ^ 38) × IsNumber n × (n *ℤ pos (10 ^ 18) ≡ a *ℤ b) }
    ensures refused { (a b : ℤ) → product_of a b ≡ None → (10 ^ 38 ≤ coefficient_of (nat_abs a) * coefficient_of (nat_abs b)) ⊎ ((n : ℤ) → IsNumber n → n *ℤ pos (10 ^ 18) ≢ a *ℤ b) }
{}

/// The order of ids is total, and tells different ids apart.
pub fn ids_are_ordered()
    ensures total { IsTotalOrder id_cmp }
    ensures apart { (x y : Tree) → IsId x → IsId y → id_cmp x y ≡ Equal → x ≡ y }
{}

/// The order of key bytes is the order of ids, and different ids have different key bytes.
pub fn key_bytes_are_ordered()
    ensures order { (x y : Tree) → IsId x → IsInRange x → IsId y → IsInRange y → slice_cmp nat_cmp (key_of x) (key_of y) ≡ id_cmp x y }
    ensures apart { (x y : Tree) → IsId x → IsInRange x → IsId y → IsInRange y → key_of x ≡ key_of y → x ≡ y }
{}

/// The test `same` decides whether two values are equal.
pub fn same_decides()
    ensures { (a b : Tree) → IsTrue (same a b) ↔ (a ≡ b) }
{}

/// Which values are written as they are read: those of the program that hold no object that stands for a
/// date, as all do in which no member name begins with `$`.
pub fn values_are_writable()
    ensures exact { (t : Tree) → IsWritable t ↔ (IsValue t × HoldsNoDateObject t) }
    ensures names { (t : Tree) → IsValue t → has_dollar_name t ≡ false → IsWritable t }
{}
