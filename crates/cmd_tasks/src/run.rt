// One request, from its first step to its last.
ghost use Rattle.std.specs.Prelude.{◌≡◌, ◌<◌, ◌≤◌, List, [], ◌∷◌, ◌++◌};
ghost use Rattle.std.specs.Option.{ForSome};
ghost use Rattle.store_core.specs.Counts.{opened_in, AllBy};
ghost use Rattle.store_core.specs.Store.{IsLawful, SameBase};
ghost use Rattle.store_core.specs.declared.entry.Entry.{Entry as Journaled};
ghost use Rattle.cmd_tasks.specs.Session.{Exchange, IsSession, AreCounted};
ghost use Rattle.cmd_tasks.specs.Stands.{StandsOn, IsSame, IfDone, exchange, answered_by};

use crate::task::{Next, Served, Task};
use col_keeper::Keeper;
use std::alloc::Global;
use store_core::Store;

// Makes the steps of a request, to the last.
fn make_steps<K: Keeper>(alloc: Global, store: &mut Store<K>, task: Task) -> Task
    requires known { task.session < opened_in store.old.journal }
    requires begun { (task.trace.items.items ≡ []) × StandsOn store.old.start store.old.journal task }
    ensures same { IsSame task result }
    ensures served { IfDone result.state (λ reply. ForSome store.old.start (λ base. (exchanges : List Exchange) → IsSession base store.old.journal task.session exchanges
        → IsSession base store.new.journal task.session (exchanges ++ exchange result reply ∷ []))) }
    ensures grown { (more : List Journaled) × (store.new.journal ≡ store.old.journal ++ more) × AllBy task.session more × AreCounted (K.failed store.old.keeper) (K.failed store.new.keeper) more }
    ensures faults { K.failed store.old.keeper ≤ K.failed store.new.keeper }
    ensures known { task.session < opened_in store.new.journal }
    ensures base { SameBase store.old store.new }
    ensures lawful { IsLawful store.new }
{
    let mut task = task;
    store.journal_len();
    'steps: loop {
        match task.step(alloc, store) {
            Next::More => {}
            Next::Done => return task,
        }
    }
}

/// Serves a request to its end, whatever the keeper answers.
pub fn serve<K: Keeper>(alloc: Global, store: &mut Store<K>, task: Task) -> Served
    requires known { task.session < opened_in store.old.journal }
    requires begun { (task.trace.items.items ≡ []) × StandsOn store.old.start store.old.journal task }
    ensures served { ForSome store.old.start (λ base. (exchanges : List Exchange) → IsSession base store.old.journal task.session exchanges
        → IsSession base store.new.journal task.session (exchanges ++ answered_by task result ∷ [])) }
    ensures moment { result.trace.moment ≡ task.trace.moment }
    ensures grown { (more : List Journaled) × (store.new.journal ≡ store.old.journal ++ more) × AllBy task.session more × AreCounted (K.failed store.old.keeper) (K.failed store.new.keeper) more }
    ensures faults { K.failed store.old.keeper ≤ K.failed store.new.keeper }
    ensures known { task.session < opened_in store.new.journal }
    ensures base { SameBase store.old store.new }
    ensures lawful { IsLawful store.new }
{
    make_steps(alloc, store, task).into_served()
}
