// Where a task stands between two steps.
ghost use Rattle.std.specs.Prelude.{◌≡◌};
ghost use Rattle.filter_tree.specs.View.{filter_tree};
ghost use Rattle.filter_tree.specs.Matches.{matches};
ghost use Rattle.filter_plan.specs.View.{IsPlanOf};
ghost use Rattle.cmd_grammar.specs.Commands.{IsAskableFilter};
ghost use Rattle.cmd_tasks.specs.Wanted.{IsWanted};
ghost use Rattle.cmd_tasks.specs.Searching.{IsFresh};

use crate::ids::Ids;
use crate::replacement::Replacement;
use crate::trace::Item;
use cmd_grammar::Command;
use filter_plan::{Plan, Verdict, plan};
use filter_tree::Filter;
use json_tree::{Doc, DocId, Value};
use reply_env::{ErrorItem, Loss, Reply};
use shred_cols::Row;
use std::alloc::Global;
use std::snapshot::Snapshot;
use store_core::Change;
use update_ops::Updates;
use view_sort::{PageState, Projection, Sort};

/// A filter, with its plan if memory was there for it.
#[derive(Drop)]
pub(crate) struct Wanted {
    pub(crate) filter: Filter,
    pub(crate) plan: Option<Plan>,
}

impl Wanted {
    pub(crate) fn new(alloc: Global, asked: Filter) -> Wanted
        requires { IsAskableFilter (filter_tree asked) }
        ensures filter { result.filter ≡ asked }
        ensures wanted { IsWanted result }
    {
        match plan(alloc, &asked) {
            Ok(plan) => Wanted {
                filter: asked,
                plan: Some(plan),
            },
            Err(_) => Wanted {
                filter: asked,
                plan: None,
            },
        }
    }
}

/// Whether a row's document matches. Its columns tell it, or else the document itself is tested.
pub(crate) fn is_match(wanted: &Filter, plan: &Plan, row: &Row) -> bool
    ensures { IsAskableFilter (filter_tree wanted.now) → IsPlanOf (filter_tree wanted.now) plan.now → result ≡ matches (filter_tree wanted.now) row.now.doc }
{
    let doc = row.doc();
    match plan.judge(row.columns()) {
        Verdict::Yes => true,
        Verdict::No => false,
        Verdict::Look => wanted.test(doc),
    }
}

/// What is searched for: the first `keep` of the documents that match, in the order of a sort.
#[derive(Drop)]
pub(crate) struct Search {
    pub(crate) wanted: Wanted,
    pub(crate) sort: Sort,
    pub(crate) keep: usize,
}

/// How far a search has come: where the next look begins, the first `keep` of what was found, and how many matched.
#[derive(Drop)]
pub(crate) struct Progress {
    pub(crate) last: Option<DocId>,
    pub(crate) kept: Vec<Row>,
    pub(crate) shown: usize,
}

impl Progress {
    /// The search that has made no look yet, and begins behind this id.
    pub(crate) fn begin(alloc: Global, last: Option<DocId>) -> Progress
        ensures { IsFresh last result }
    {
        Progress {
            last,
            kept: Vec::new(alloc),
            shown: 0,
        }
    }
}

/// What a page shows of what is found. `page` is where it began, and takes no memory.
#[derive(Drop)]
pub(crate) struct Part {
    pub(crate) projection: Projection,
    pub(crate) limit: u64,
    pub(crate) skip: u64,
    pub(crate) given: u64,
    pub(crate) page: Snapshot<Option<PageState>>,
}

/// What makes another document of one.
#[derive(Drop)]
pub(crate) enum Making {
    Updates { updates: Updates, moment: i64 },
    Replacement { document: Replacement },
}

/// What is done to a document that matches. Where none does, one may be inserted, for which there is an id.
#[derive(Drop)]
pub(crate) enum Doing {
    Makes {
        making: Making,
        upsert: Option<DocId>,
    },
    Deletes,
}

/// How the document is told that was asked for: by counts, or also as it is shown, as it was found or as it was left.
#[derive(Drop)]
pub(crate) enum Form {
    ByCounts,
    Shows { projection: Projection, after: bool },
}

/// One document that is to be changed: what is searched for, what is done to the first match, how it is told, and the
/// attempts that were lost so far.
#[derive(Drop)]
pub(crate) struct One {
    pub(crate) search: Search,
    pub(crate) doing: Doing,
    pub(crate) form: Form,
    pub(crate) lost: Vec<Loss>,
}

/// Documents that are to be inserted, in order. `all` are all of the request, the last first, and takes no memory;
/// `left` are those of them that come next, the last first; `ids` are those that were inserted, and `errors` tell those
/// whose ids were there.
#[derive(Drop)]
pub(crate) struct Insertions {
    pub(crate) all: Snapshot<Vec<Value>>,
    pub(crate) left: Vec<Value>,
    pub(crate) ordered: bool,
    pub(crate) ids: Vec<DocId>,
    pub(crate) errors: Vec<ErrorItem>,
}

/// Many documents that are to be updated or deleted. `given` is how many were counted before the page that `page`
/// tells, which takes no memory; where it tells none, this is the first page.
#[derive(Drop)]
pub(crate) struct Many {
    pub(crate) wanted: Wanted,
    pub(crate) doing: Doing,
    pub(crate) given: u64,
    pub(crate) is_first: bool,
    pub(crate) page: Snapshot<Option<PageState>>,
}

/// How far many documents have come: where the next page begins or that there is none, what was shown and isn't taken
/// yet, the last first, the lost attempts on the one that is taken, how many were counted and how many of these were
/// changed, and the last of them.
#[derive(Drop)]
pub(crate) struct Stand {
    pub(crate) from: Option<DocId>,
    pub(crate) is_whole: bool,
    pub(crate) queue: Vec<Row>,
    pub(crate) lost: Vec<Loss>,
    pub(crate) matched: u64,
    pub(crate) modified: u64,
    pub(crate) last: Option<DocId>,
}

/// A change that is to be written in the place of the version that was read.
#[derive(Drop)]
pub(crate) struct Attempt {
    pub(crate) id: DocId,
    pub(crate) read: u64,
    pub(crate) change: Change,
}

/// What is to be done next. Where a write comes next, the reply that tells it is at hand. `Unready` is a request for
/// which memory was wanting at its beginning: it tells of what, and takes no memory.
#[derive(Drop)]
pub(crate) enum State {
    Inserting {
        insertions: Insertions,
    },
    Selecting {
        search: Search,
        progress: Progress,
        projection: Projection,
    },
    Listing {
        search: Search,
        progress: Progress,
        part: Part,
    },
    Counting {
        wanted: Wanted,
        last: Option<DocId>,
        shown: u64,
    },
    Choosing {
        one: One,
        progress: Progress,
    },
    Changing {
        one: One,
        attempt: Attempt,
        reply: Reply,
    },
    Putting {
        one: One,
        doc: Doc,
        reply: Reply,
    },
    Paging {
        many: Many,
        stand: Stand,
    },
    Trying {
        many: Many,
        stand: Stand,
        attempt: Attempt,
    },
    Retrying {
        many: Many,
        stand: Stand,
        id: DocId,
    },
    PuttingMany {
        many: Many,
        stand: Stand,
        doc: Doc,
        reply: Reply,
    },
    Creating,
    Dropping,
    Naming,
    Unready {
        command: Snapshot<Command>,
        moment: i64,
        ids: Snapshot<Ids>,
    },
    Done {
        reply: Reply,
    },
}

/// What one step of the work gives: an item and the next state, an item and the reply, or nothing for want of memory.
#[derive(Drop)]
pub(crate) enum Moved {
    Goes { item: Item, state: State },
    Ends { item: Item, reply: Reply },
    NoMemory,
}

/// One page of a listing: an item, the matching rows and where the next page begins, or an item and the reply.
#[derive(Drop)]
pub(crate) enum Glance {
    Shown {
        item: Item,
        rows: Vec<Row>,
        last: Option<DocId>,
    },
    Ended {
        item: Item,
        reply: Reply,
    },
    NoMemory,
}

/// One step of a search: it goes on, or as many as are wanted were found or nothing is left to look at, or it stops
/// with an error.
#[derive(Drop)]
pub(crate) enum Searched {
    More { item: Item, progress: Progress },
    Whole { item: Item, progress: Progress },
    Stopped { item: Item, reply: Reply },
    NoMemory,
}
