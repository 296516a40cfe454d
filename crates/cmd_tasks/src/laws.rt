// Laws of tasks and sessions: each function does nothing, and its clauses are the laws.
ghost use Rattle.std.specs.Prelude.{◌≡◌, ◌≢◌, ◌≤◌, ◌+◌, ℕ, ℤ, Bool, List, Option, length, slice_get, slice_set, [], ◌∷◌, ◌++◌, Some, None, true};
ghost use Rattle.std.specs.List.{AllByRecursion as Each};
ghost use Rattle.std.specs.Option.{ForSome};
ghost use Rattle.json_tree.specs.Tree.{Tree};
ghost use Rattle.outside_io.specs.Causes.{Rose};
ghost use Rattle.shred_cols.specs.Rows.{ascends};
ghost use Rattle.col_keeper.specs.Tables.{Name};
ghost use Rattle.reply_env.specs.declared.reply.Reply.{Reply as Answer};
ghost use Rattle.reply_env.specs.declared.reply.Reply.TheVariants.{NoMemory};
ghost use Rattle.reply_env.specs.declared.reply.ErrorItem.{ErrorItem as Blamed};
ghost use Rattle.reply_env.specs.declared.request.Request.{Request as Asked};
ghost use Rattle.cmd_grammar.specs.Requests.{IsRefused};
ghost use Rattle.store_core.specs.State.{State as Base};
ghost use Rattle.store_core.specs.Journal.{IsJournal};
ghost use Rattle.store_core.specs.Counts.{AllBy, opened_in};
ghost use Rattle.store_core.specs.declared.entry.Entry.{Entry as Journaled};
ghost use Rattle.store_core.specs.declared.entry.Entry.TheVariants.{Opened};
ghost use Rattle.filter_tree.specs.Filters.{FilterTree};
ghost use Rattle.update_ops.specs.Clauses.{Clause};
ghost use Rattle.view_sort.specs.declared.page.PageState.{PageState};
ghost use Rattle.cmd_grammar.specs.Commands.{CommandTree, Shows, command_tree, update_many, delete_many};
ghost use Rattle.cmd_tasks.specs.Served.{IsServed, sights};
ghost use Rattle.cmd_tasks.specs.Session.{Exchange, IsSession, IsAnswered, AreCounted, AreSessions, AreWithin, NoWork, Records, name_of};
ghost use Rattle.cmd_tasks.specs.Undisturbed.{IsUncontested, IsUnfailed, IsOwn, BlamesItself};
ghost use Rattle.cmd_tasks.specs.Joined.{Page, IdsAreTold, ArePages, ShowEachOnce};
ghost use Rattle.cmd_tasks.specs.Doing.{makes, updates, deletes};
ghost use Rattle.cmd_tasks.specs.Jobs.{upsert_id};
ghost use Rattle.cmd_tasks.specs.Tally.{AreTaken};
ghost use Rattle.cmd_tasks.specs.Moves.{accepted_by};
ghost use Rattle.cmd_tasks.specs.Stands.{StandsOn, ids_of};
ghost use Rattle.cmd_tasks.specs.declared.task.Task.{Task as Tasked};
ghost use Rattle.cmd_tasks.specs.declared.trace.Item.{Item as Seen};

use view_sort::page_states_are_one;

/// The entries of other sessions leave a task where it stands.
pub fn others_may_append()
    ensures { (start : Option Base) (history more : List Journaled) (task : Tasked) → NoWork task.session more → StandsOn start history task → StandsOn start (history ++ more) task }
{}

/// The trace of a task that stands, with the reply for want of memory, was served.
pub fn a_task_may_be_cut_off()
    ensures { (start : Option Base) (history : List Journaled) (task : Tasked) → StandsOn start history task
        → ForSome start (λ base. IsServed base history (name_of task.coll) task.session task.trace.moment (ids_of task) (command_tree task.command.value) task.trace.items.items (NoMemory (accepted_by task.state))) }
{}

/// What was served stays served in every longer history.
pub fn what_was_served_stays()
    ensures { (base : Base) (history more : List Journaled) (coll : Name) (k : ℕ) (moment : ℤ) (ids : List Tree) (c : CommandTree) (trace : List Seen) (reply : Answer)
        → AreWithin (length history) trace → IsServed base history coll k moment ids c trace reply → IsServed base (history ++ more) coll k moment ids c trace reply }
{}

/// A session stays one in every longer history to which others alone have added.
pub fn others_may_write()
    ensures { (base : Base) (history more : List Journaled) (k : ℕ) (exchanges : List Exchange) → IsJournal base (history ++ more) → NoWork k more → IsSession base history k exchanges → IsSession base (history ++ more) k exchanges }
{}

/// A request begins, as the session's last exchange.
pub fn a_request_begins()
    ensures { (base : Base) (history : List Journaled) (k : ℕ) (exchanges : List Exchange) (x : Exchange) → x.trace ≡ [] → IsAnswered base history k x → IsSession base history k exchanges → IsSession base history k (exchanges ++ x ∷ []) }
{}

/// One step of a session's last request: one item, and one entry where the item wrote.
pub fn a_step_is_made()
    ensures { (base : Base) (history more : List Journaled) (k : ℕ) (exchanges : List Exchange) (x y : Exchange) (i : Seen) →
        IsSession base history k (exchanges ++ x ∷ []) → IsJournal base (history ++ more) → y.trace ≡ x.trace ++ i ∷ [] → Records k (length history) i more → IsAnswered base (history ++ more) k y
        → IsSession base (history ++ more) k (exchanges ++ y ∷ []) }
{}

/// The session's last request gets its reply.
pub fn a_request_ends()
    ensures { (base : Base) (history : List Journaled) (k : ℕ) (exchanges : List Exchange) (x y : Exchange) → IsSession base history k (exchanges ++ x ∷ []) → y.trace ≡ x.trace → IsAnswered base history k y
        → IsSession base history k (exchanges ++ y ∷ []) }
{}

/// A step of one session, with all the others beside it.
pub fn one_session_steps()
    ensures { (base : Base) (history more : List Journaled) (k i : ℕ) (all : List (List Exchange)) (exchanges : List Exchange) →
        IsJournal base (history ++ more) → AllBy (k + i) more → IsSession base (history ++ more) (k + i) exchanges → AreSessions base history k all
        → AreSessions base (history ++ more) k (slice_set all i exchanges) }
{}

/// A session that was just opened has made no exchange.
pub fn a_session_opens()
    ensures { (base : Base) (history : List Journaled) (k : ℕ) → base.sessions ≡ 0 → k ≡ opened_in history → IsJournal base (history ++ Opened k ∷ []) → IsSession base (history ++ Opened k ∷ []) k [] }
{}

/// A client that joins all pages of a find without a sort, a limit and `skip`, each asked for with the state of the page before
/// it, sees documents in order of id, none twice, each as it matched at the look that showed it, and one of each id under which a
/// document matched at all looks, whatever others write meanwhile. This holds where the rows of the base ascend, as a keeper's
/// tables do, and the shown ids of the traces are ids within range, as each `DocId` is.
pub fn pages_show_each_once()
    ensures { (base : Base) (history : List Journaled) (coll : Name) (f : FilterTree) (shows : Shows) (pages : List Page)
        → Each (λ c. ascends c.rows ≡ true) base.collections → Each (λ p. Each IdsAreTold p.trace) pages → ArePages base history coll f shows pages → ShowEachOnce base history coll f shows pages }
{
    page_states_are_one();
}

/// Each document that matched when updateMany or deleteMany looked at its page is counted once, or another session changed it
/// behind that look and then it no longer matched, or the command ended before its turn: then the reply tells that more match,
/// or an error, or want of memory. The counts of the reply are those of the documents that were counted, and of the writes. Where
/// the reply tells that no more match, pages came by each id behind the start. updateMany inserts a document only where none was
/// counted and pages came by each id, by one write more. A reply with counts tells its id, and there is one wherever one is to be
/// inserted and none was counted. This holds where the rows of the base ascend, as a keeper's tables do.
pub fn each_match_is_counted()
    ensures updated { (base : Base) (history : List Journaled) (coll : Name) (k : ℕ) (moment : ℤ) (ids : List Tree) (f : FilterTree) (u : List Clause) (upsert : Bool) (page : Option PageState) (trace : List Seen) (reply : Answer)
        → Each (λ c. ascends c.rows ≡ true) base.collections → IsServed base history coll k moment ids (update_many f u upsert page) trace reply
        → AreTaken base coll k f (makes (updates u moment) (upsert_id upsert ids)) page (sights history trace) reply }
    ensures deleted { (base : Base) (history : List Journaled) (coll : Name) (k : ℕ) (moment : ℤ) (ids : List Tree) (f : FilterTree) (trace : List Seen) (reply : Answer)
        → Each (λ c. ascends c.rows ≡ true) base.collections → IsServed base history coll k moment ids (delete_many f) trace reply → AreTaken base coll k f deletes None (sights history trace) reply }
{}

/// No write of a session is lost to another where all entries behind its opening are by it: a write that isn't accepted is the
/// insertion of a document whose id is there, and no reply tells lost writes.
pub fn a_session_alone_loses_nothing()
    ensures { (base : Base) (before more : List Journaled) (k : ℕ) (exchanges : List Exchange) → AllBy k more → Each (λ x. BlamesItself x.asking) exchanges
        → IsSession base (before ++ Opened k ∷ more) k exchanges → Each (IsUncontested base (before ++ Opened k ∷ more) k) exchanges }
{}

/// Where the keeper's count of faults doesn't rise behind a session's opening, no call of it fails under the session's requests,
/// and no reply tells one, whatever others write.
pub fn a_count_that_stays_has_no_fault()
    ensures { (base : Base) (before more : List Journaled) (k low high : ℕ) (exchanges : List Exchange) → AreCounted low high more → (Rose low high → ⊥) → Each (λ x. BlamesItself x.asking) exchanges
        → IsSession base (before ++ Opened k ∷ more) k exchanges → Each IsUnfailed exchanges }
{}

/// A request that is refused by itself is refused by an error of its own: it tells neither a failed call of the keeper nor a
/// lost write.
pub fn a_refused_request_blames_itself()
    ensures { (keyspace : List ℕ) (request : Asked) (error : Blamed) → IsRefused keyspace request error → IsOwn error }
{}
