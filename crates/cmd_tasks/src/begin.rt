// The states in which requests begin.
ghost use Rattle.std.specs.Prelude.{◌≡◌, ◌≤◌, IfSome};
ghost use Rattle.std.specs.Option.{option_map};
ghost use Rattle.filter_tree.specs.View.{filter_tree};
ghost use Rattle.cmd_grammar.specs.Commands.{IsAskableFilter, IsAskablePage, IsAskablePaging, Paging};
ghost use Rattle.cmd_tasks.specs.Doing.{makes};
ghost use Rattle.cmd_tasks.specs.Jobs.{finds_one, finds, counts, changes_one, changes_many, upsert_id, one_if};
ghost use Rattle.cmd_tasks.specs.Ids.{drawn, after_drawing, stream_of_ids};
ghost use Rattle.cmd_tasks.specs.Part.{given_of, most_of};
ghost use Rattle.cmd_tasks.specs.Moves.{Begins};
ghost use Rattle.cmd_tasks.specs.Many.{IsStart, making_of, doing_of, form_of};

use crate::ids::Ids;
use crate::work::{Doing, Form, Making, Many, One, Part, Progress, Search, Stand, State, Wanted};
use filter_tree::Filter;
use json_tree::DocId;
use std::alloc::Global;
use std::snapshot::Snapshot;
use view_sort::{PageState, Projection, Sort};

/// So many documents are shown on a page at most.
const PAGE: u64 = 20;

/// The state in which findOne begins.
pub(crate) fn selecting(alloc: Global, filter: Filter, sort: Sort, projection: Projection) -> State
    requires { IsAskableFilter (filter_tree filter) }
    ensures { Begins (finds_one (filter_tree filter) sort projection) result }
{
    State::Selecting {
        search: Search {
            wanted: Wanted::new(alloc, filter),
            sort,
            keep: 1,
        },
        progress: Progress::begin(alloc, None),
        projection,
    }
}

/// The state in which countDocuments begins.
pub(crate) fn counting(alloc: Global, filter: Filter) -> State
    requires { IsAskableFilter (filter_tree filter) }
    ensures { Begins (counts (filter_tree filter)) result }
{
    State::Counting {
        wanted: Wanted::new(alloc, filter),
        last: None,
        shown: 0,
    }
}

/// The state in which a command begins that changes one document.
pub(crate) fn choosing(alloc: Global, filter: Filter, sort: Sort, doing: Doing, form: Form) -> State
    requires { IsAskableFilter (filter_tree filter) }
    ensures { Begins (changes_one (filter_tree filter) sort (doing_of doing) (form_of form)) result }
{
    State::Choosing {
        one: One {
            search: Search {
                wanted: Wanted::new(alloc, filter),
                sort,
                keep: 1,
            },
            doing,
            form,
            lost: Vec::new(alloc),
        },
        progress: Progress::begin(alloc, None),
    }
}

/// How many documents were given before the page.
fn given_before(page: &Option<PageState>) -> u64
    ensures { result ≡ given_of page.now }
{
    match page {
        Some(page) => page.given,
        None => 0,
    }
}

/// The last of them.
fn last_before(page: Option<PageState>) -> Option<DocId>
    ensures { result ≡ option_map (λ p. p.last) page }
{
    match page {
        Some(page) => Some(page.last),
        None => None,
    }
}

/// How many documents the page may show.
fn most_shown(limit: u64, given: u64) -> u64
    ensures most { (p : Paging) → p.limit ≡ limit → given_of p.page ≡ given → result ≡ most_of p }
    ensures few { result ≤ 20 }
{
    if limit == 0 {
        PAGE
    } else {
        PAGE.min(limit.saturating_sub(given))
    }
}

/// The state in which find begins.
pub(crate) fn listing(
    alloc: Global,
    filter: Filter,
    sort: Sort,
    projection: Projection,
    limit: u64,
    skip: u64,
    page: Option<PageState>,
) -> State
    requires filter { IsAskableFilter (filter_tree filter) }
    requires paging { IsAskablePaging (record { limit = limit; skip = skip; page = page }) }
    ensures { Begins (finds (filter_tree filter) sort projection (record { limit = limit; skip = skip; page = page })) result }
{
    let snapshot = Snapshot::of(&page);
    let given = given_before(&page);
    let most = most_shown(limit, given);
    State::Listing {
        search: Search {
            wanted: Wanted::new(alloc, filter),
            sort,
            keep: (skip + most) as usize,
        },
        progress: Progress::begin(alloc, last_before(page)),
        part: Part {
            projection,
            limit,
            skip,
            given,
            page: snapshot,
        },
    }
}

/// Nothing is listed yet of many documents; their first page begins behind this id.
fn stand_at(alloc: Global, from: Option<DocId>) -> Stand
    ensures { IsStart from result }
{
    Stand {
        from,
        is_whole: false,
        queue: Vec::new(alloc),
        lost: Vec::new(alloc),
        matched: 0,
        modified: 0,
        last: None,
    }
}

/// The state in which a command begins that changes many documents.
pub(crate) fn paging_over(
    alloc: Global,
    filter: Filter,
    doing: Doing,
    page: Option<PageState>,
) -> State
    requires filter { IsAskableFilter (filter_tree filter) }
    requires page { IsAskablePage page }
    ensures { Begins (changes_many (filter_tree filter) (doing_of doing) page) result }
{
    let snapshot = Snapshot::of(&page);
    let given = given_before(&page);
    let is_first = page.is_none();
    State::Paging {
        many: Many {
            wanted: Wanted::new(alloc, filter),
            doing,
            given,
            is_first,
            page: snapshot,
        },
        stand: stand_at(alloc, last_before(page)),
    }
}

/// What is done to a document that matches: another one is made of it. Where one may be inserted since none matches, its
/// id is drawn.
pub(crate) fn making(alloc: Global, making: Making, upsert: bool, ids: &mut Ids) -> Option<Doing>
    ensures doing { IfSome result (λ doing. doing_of doing ≡ makes (making_of making) (upsert_id upsert (drawn (one_if upsert) (stream_of_ids ids.old)))) }
    ensures after { stream_of_ids ids.new ≡ after_drawing (one_if upsert) (stream_of_ids ids.old) }
{
    if !upsert {
        return Some(Doing::Makes {
            making,
            upsert: None,
        });
    }
    match ids.draw(alloc) {
        Ok(id) => Some(Doing::Makes {
            making,
            upsert: Some(id),
        }),
        Err(_) => None,
    }
}
