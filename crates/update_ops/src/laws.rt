// Laws of updates of one operator on one path: each function does nothing, and its clauses are the laws.
ghost use Rattle.std.specs.Prelude.{◌≡◌, ◌++◌, ◌∷◌, [], ℕ, ℤ, neg_ℤ, Bool, true, List, codes, Option, Some, None, Ok};
ghost use Rattle.json_tree.specs.Tree.{Tree, Elements, Members, null, number, list, object, list_of_members};
ghost use Rattle.json_tree.specs.Num.{IsNumber};
ghost use Rattle.json_tree.specs.Members.{all_distinct};
ghost use Rattle.json_tree.specs.Doc.{IsDocument, id_in};
ghost use Rattle.doc_paths.specs.Text.{parts};
ghost use Rattle.doc_paths.specs.At.{at, inside};
ghost use Rattle.doc_limits.specs.Limits.{broken};
ghost use Rattle.update_ops.specs.Forms.{is_scalar};
ghost use Rattle.update_ops.specs.Clauses.{Clause};
ghost use Rattle.update_ops.specs.Safe.{are_safe};
ghost use Rattle.update_ops.specs.Steady.{are_steady};
ghost use Rattle.update_ops.specs.Faults.{overlap_in, paths_of};
ghost use Rattle.update_ops.specs.Apply.{apply};
ghost use Rattle.update_ops.specs.Single.{alone};

use doc_paths::{puts_are_seen, takes_are_seen};
use json_tree::same_decides;

/// An update of a document leaves its id as it is, and what it makes breaks no limit.
pub fn ids_are_kept()
    ensures id { (cs : List Clause) (d new : Tree) (moment : ℤ) (on_insert : Bool) → are_safe cs ≡ true → IsDocument d → apply cs d moment on_insert ≡ Ok new → id_in new ≡ id_in d }
    ensures limits { (cs : List Clause) (d new : Tree) (moment : ℤ) (on_insert : Bool) → apply cs d moment on_insert ≡ Ok new → broken new ≡ None }
{}

/// What was set stands at its path.
pub fn sets_are_seen()
    ensures { (path : List ℕ) (x d new : Tree) (moment : ℤ) (on_insert : Bool) → alone (codes "$set") path x moment on_insert d ≡ Ok new → at new (parts path) ≡ Some x }
{
    puts_are_seen();
}

/// Where a member was unset there is none, and where an element was there is null.
pub fn unsets_are_seen()
    ensures member { (path : List ℕ) (x d new : Tree) (moment : ℤ) (on_insert : Bool) (front : List (List ℕ)) (part : List ℕ) (ms : Members) → parts path ≡ front ++ part ∷ [] → at d front ≡ Some (object ms) → all_distinct (list_of_members ms) ≡ true → alone (codes "$unset") path x moment on_insert d ≡ Ok new → at new (parts path) ≡ None }
    ensures element { (path : List ℕ) (x d new y : Tree) (moment : ℤ) (on_insert : Bool) (front : List (List ℕ)) (part : List ℕ) (ts : Elements) → parts path ≡ front ++ part ∷ [] → at d front ≡ Some (list ts) → inside (list ts) part ≡ Some y → alone (codes "$unset") path x moment on_insert d ≡ Ok new → at new (parts path) ≡ Some null }
{
    takes_are_seen();
}

/// What `$inc` added to a number, `$inc` of the negative number takes away again.
pub fn increments_are_undone()
    ensures { (path : List ℕ) (n m : ℤ) (d new : Tree) (moment : ℤ) (on_insert : Bool) → broken d ≡ None → at d (parts path) ≡ Some (number m) → IsNumber m → alone (codes "$inc") path (number n) moment on_insert d ≡ Ok new → alone (codes "$inc") path (number (neg_ℤ n)) moment on_insert new ≡ Ok d }
{
    puts_are_seen();
}

/// Twice is the same as once: of `$set`, `$setOnInsert`, `$min`, `$max` and `$addToSet`, of `$currentDate` at
/// the same moment, and of `$unset` and `$rename` where nothing stands at the path any more, as where a member
/// was taken. It isn't of `$inc`, `$mul`, `$push` and `$pop`, of `$currentDate` at another moment, and of
/// `$rename` of an element, which takes the null along that the first time left.
pub fn twice_is_once()
    ensures set { (path : List ℕ) (x d new : Tree) (moment : ℤ) (on_insert : Bool) → alone (codes "$set") path x moment on_insert d ≡ Ok new → alone (codes "$set") path x moment on_insert new ≡ Ok new }
    ensures inserted { (path : List ℕ) (x d new : Tree) (moment : ℤ) (on_insert : Bool) → alone (codes "$setOnInsert") path x moment on_insert d ≡ Ok new → alone (codes "$setOnInsert") path x moment on_insert new ≡ Ok new }
    ensures least { (path : List ℕ) (x d new : Tree) (moment : ℤ) (on_insert : Bool) → is_scalar x ≡ true → alone (codes "$min") path x moment on_insert d ≡ Ok new → alone (codes "$min") path x moment on_insert new ≡ Ok new }
    ensures greatest { (path : List ℕ) (x d new : Tree) (moment : ℤ) (on_insert : Bool) → is_scalar x ≡ true → alone (codes "$max") path x moment on_insert d ≡ Ok new → alone (codes "$max") path x moment on_insert new ≡ Ok new }
    ensures added { (path : List ℕ) (x d new : Tree) (moment : ℤ) (on_insert : Bool) → alone (codes "$addToSet") path x moment on_insert d ≡ Ok new → alone (codes "$addToSet") path x moment on_insert new ≡ Ok new }
    ensures dated { (path : List ℕ) (x d new : Tree) (moment : ℤ) (on_insert : Bool) → alone (codes "$currentDate") path x moment on_insert d ≡ Ok new → alone (codes "$currentDate") path x moment on_insert new ≡ Ok new }
    ensures unset { (path : List ℕ) (x d new : Tree) (moment : ℤ) (on_insert : Bool) → at new (parts path) ≡ None → alone (codes "$unset") path x moment on_insert d ≡ Ok new → alone (codes "$unset") path x moment on_insert new ≡ Ok new }
    ensures renamed { (path : List ℕ) (x d new : Tree) (moment : ℤ) (on_insert : Bool) → at new (parts path) ≡ None → alone (codes "$rename") path x moment on_insert d ≡ Ok new → alone (codes "$rename") path x moment on_insert new ≡ Ok new }
{
    puts_are_seen();
    same_decides();
}

/// A whole update of `$set`, `$setOnInsert`, `$min`, `$max`, `$addToSet` and `$currentDate` whose paths don't
/// overlap does nothing a second time, at the same moment.
pub fn steady_updates_settle()
    ensures { (cs : List Clause) (d new : Tree) (moment : ℤ) (on_insert : Bool) → are_steady cs ≡ true → overlap_in [] (paths_of cs) ≡ None → apply cs d moment on_insert ≡ Ok new → apply cs new moment on_insert ≡ Ok new }
{
    puts_are_seen();
    same_decides();
}
