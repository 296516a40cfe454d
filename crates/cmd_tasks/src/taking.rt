// Many documents: what is taken next, and the reply where nothing is.
ghost use Rattle.std.specs.Prelude.{◌≡◌, ◌⊎◌, ℕ, ◌+◌, ◌-◌, ◌^◌, ◌<◌, ◌≤◌, min, true, false, [], Option, Some, None, IfOk, IfSome};
ghost use Rattle.std.specs.Option.{option_map};
ghost use Rattle.col_keeper.specs.Tables.{KeepsLimits};
ghost use Rattle.view_sort.specs.Page.{state_text};
ghost use Rattle.view_sort.specs.declared.page.PageState.{PageState as Page};
ghost use Rattle.reply_env.specs.declared.reply.ErrorItem.{ErrorItem as Error};
ghost use Rattle.reply_env.specs.declared.reply.Reply.TheVariants as replies;
ghost use Rattle.cmd_tasks.specs.Part.{given_of};
ghost use Rattle.cmd_tasks.specs.Looking.{Refuses};
ghost use Rattle.cmd_tasks.specs.Taking.{Standing, settle as settled_of, inserts, turn};
ghost use Rattle.cmd_tasks.specs.Turns.{so_far_of, state_behind as text_behind, done_reply};
ghost use Rattle.cmd_tasks.specs.Many.{doing_of, put_for, IsMany, IsStand, IsStanding};
ghost use Rattle.cmd_tasks.specs.Going.{IsCounted, tally, Settles, SettlesReady, MakesPut, TurnsDown, GoesOnFrom, GoesReady, RefusesAfter};

use crate::meeting::{Met, declined, meet, to_insert};
use crate::trace::Item;
use crate::work::{Attempt, Doing, Many, Moved, Stand, State};
use json_tree::{Doc, DocId, Text};
use reply_env::{Reply, SoFar};
use std::alloc::Global;
use update_ops::UpdateFault;
use view_sort::{PageState, ViewFault};

/// So many documents are counted at most.
const MOST_COUNTED: u64 = 20;

/// One document is counted, of which so many were changed.
pub(crate) fn counted(alloc: Global, stand: Stand, id: DocId, changed: u64) -> Stand
    requires few { (stand.matched ≤ 20) × (stand.modified ≤ 20) × (changed ≤ 1) }
    ensures { IsCounted stand id changed result }
{
    let Stand {
        from,
        is_whole,
        queue,
        lost: _,
        matched,
        modified,
        last: _,
    } = stand;
    Stand {
        from,
        is_whole,
        queue,
        lost: Vec::new(alloc),
        matched: matched + 1,
        modified: modified + changed,
        last: Some(id),
    }
}

/// Where the command stands, and what is taken next: an attempt, or nothing, since nothing is left or as many are
/// counted as may be; or its change is refused, or memory was wanting.
#[derive(Drop)]
enum Settled {
    Taken { stand: Stand, attempt: Attempt },
    Untaken { stand: Stand },
    Refused { stand: Stand, fault: UpdateFault },
}

/// Counts the documents that need no write, up to the first that does.
fn settle(alloc: Global, doing: &Doing, begun: Stand) -> Settled
    requires { IsStand begun }
    ensures told { (st : Standing) → IsStanding begun st st.queue → st.again ≡ false → Settles (doing_of doing.now) (settled_of (doing_of doing.now) st) result }
    ensures ready { SettlesReady begun result }
{
    let mut stand = begun;
    'rows: while stand.matched < MOST_COUNTED {
        let Some(row) = stand.queue.pop() else {
            return Settled::Untaken { stand };
        };
        match meet(alloc, doing, &row) {
            Met::Unchanged(id) => stand = counted(alloc, stand, id, 0),
            Met::Changed(attempt) => return Settled::Taken { stand, attempt },
            Met::Refused(fault) => return Settled::Refused { stand, fault },
        }
    }
    Settled::Untaken { stand }
}

/// What the accepted writes did, if there were any.
fn so_far(doing: &Doing, stand: &Stand) -> Option<SoFar>
    ensures { result ≡ so_far_of (doing_of doing.now) (tally stand.now) }
{
    if stand.modified == 0 {
        return None;
    }
    match doing {
        Doing::Makes { .. } => Some(SoFar::Updated {
            matched: stand.matched,
            modified: stand.modified,
        }),
        Doing::Deletes => Some(SoFar::Deleted {
            deleted: stand.modified,
        }),
    }
}

/// A reply that refuses, with what was written before.
pub(crate) fn told_after(doing: &Doing, stand: &Stand, reply: Reply) -> Reply
    ensures refuses { (st : Standing) (error : Error) → stand.now.matched ≡ st.matched → stand.now.modified ≡ st.modified → Refuses error reply → RefusesAfter (doing_of doing.now) st error result }
    ensures cut { (n : ℕ) → reply ≡ replies.NoMemory n → result ≡ replies.NoMemory stand.now.modified }
{
    match reply {
        Reply::Refused { errors, so_far: _ } => Reply::Refused {
            errors,
            so_far: so_far(doing, stand),
        },
        _ => Reply::NoMemory {
            accepted: stand.modified,
        },
    }
}

/// The page state behind the last document, where so many were counted by this page.
fn state_behind(
    alloc: Global,
    given: u64,
    matched: u64,
    last: Option<DocId>,
) -> Result<Option<Text>, ViewFault>
    requires { (given < 2 ^ 63) × (matched ≤ 20) }
    ensures { IfOk result (λ state. state ≡ option_map (state_text (min (given + matched) (2 ^ 63 - 1))) last) }
{
    let Some(last) = last else {
        return Ok(None);
    };
    let page = PageState {
        given: (given + matched).min(i64::MAX as u64),
        last,
    };
    let text = page.print(alloc)?;
    Ok(Some(text))
}

/// The reply where many were updated and no more match, or some do.
fn updated_many(alloc: Global, given: u64, stand: Stand, more: bool) -> Reply
    requires { (given < 2 ^ 63) × (stand.matched ≤ 20) }
    ensures { (page : Option Page) → given_of page ≡ given → (result ≡ replies.UpdatedMany stand.matched stand.modified None (text_behind page (tally stand) more)) ⊎ (result ≡ replies.NoMemory stand.modified) }
{
    let Stand {
        from: _,
        is_whole: _,
        queue: _,
        lost: _,
        matched,
        modified,
        last,
    } = stand;
    if !more {
        return Reply::UpdatedMany {
            matched,
            modified,
            upserted: None,
            state: None,
        };
    }
    match state_behind(alloc, given, matched, last) {
        Ok(state) => Reply::UpdatedMany {
            matched,
            modified,
            upserted: None,
            state,
        },
        Err(_) => Reply::NoMemory { accepted: modified },
    }
}

/// The reply where all is done.
fn done(alloc: Global, many: Many, stand: Stand, more: bool) -> Reply
    requires { IsMany many × IsStand stand }
    ensures { (result ≡ done_reply (doing_of many.doing) many.page.value (tally stand) more) ⊎ (result ≡ replies.NoMemory stand.modified) }
{
    match many.doing {
        Doing::Makes { .. } => updated_many(alloc, many.given, stand, more),
        Doing::Deletes => Reply::DeletedMany {
            deleted: stand.modified,
            more,
        },
    }
}

/// The document that is inserted since none matched, if one is to be: none behind the first page.
fn to_put(alloc: Global, many: &Many) -> Result<Option<Doc>, UpdateFault>
    requires { IsMany many.now }
    ensures told { MakesPut (put_for many.now) result }
    ensures limits { IfOk result (λ made. IfSome made (λ d. KeepsLimits d)) }
{
    if many.is_first {
        to_insert(alloc, &many.wanted.filter, &many.doing)
    } else {
        Ok(None)
    }
}

/// The change of the document that was to be taken is refused, or the one that was to be inserted is.
fn refused(alloc: Global, item: Item, many: Many, stand: Stand, fault: UpdateFault) -> Moved
    ensures told { (st : Standing) → TurnsDown many stand fault st → GoesOnFrom many item st result }
    ensures ready { (begun : Stand) → GoesReady many item begun result }
{
    let reply = told_after(&many.doing, &stand, declined(alloc, fault));
    drop(many);
    drop(stand);
    Moved::Ends { item, reply }
}

/// This document is to be inserted. The reply that tells it is made before, so that no memory is wanting behind the write.
fn putting(alloc: Global, item: Item, many: Many, stand: Stand, doc: Doc) -> Moved
    requires { KeepsLimits doc }
    ensures told { (st : Standing) → turn (put_for many) (doing_of many.doing) st ≡ inserts doc → stand.modified ≡ 0 → st.modified ≡ 0 → GoesOnFrom many item st result }
    ensures ready { (begun : Stand) → GoesReady many item begun result }
{
    let Ok(id) = doc.id().try_copy(alloc) else {
        return Moved::Ends {
            item,
            reply: Reply::NoMemory { accepted: 0 },
        };
    };
    let reply = Reply::UpdatedMany {
        matched: 0,
        modified: 0,
        upserted: Some(id),
        state: None,
    };
    Moved::Goes {
        item,
        state: State::PuttingMany {
            many,
            stand,
            doc,
            reply,
        },
    }
}

/// All was listed and nothing waits: all is done, or since none was counted, a document is to be inserted.
fn ended(alloc: Global, item: Item, many: Many, stand: Stand) -> Moved
    requires { IsMany many × IsStand stand }
    ensures told { (st : Standing) → IsStanding stand st [] → st.queue ≡ [] → st.again ≡ false → st.is_whole ≡ true → GoesOnFrom many item st result }
    ensures ready { (begun : Stand) → GoesReady many item begun result }
{
    if stand.matched > 0 {
        let reply = done(alloc, many, stand, false);
        return Moved::Ends { item, reply };
    }
    match to_put(alloc, &many) {
        Ok(Some(doc)) => putting(alloc, item, many, stand, doc),
        Ok(None) => Moved::Ends {
            item,
            reply: done(alloc, many, stand, false),
        },
        Err(fault) => refused(alloc, item, many, stand, fault),
    }
}

/// Nothing is taken: the next page is to be listed, or all is done, or a document is to be inserted.
fn untaken(alloc: Global, item: Item, many: Many, stand: Stand) -> Moved
    requires { IsMany many × IsStand stand }
    ensures told { (st : Standing) → Settles (doing_of many.doing) st (Settled.Untaken stand) → GoesOnFrom many item st result }
    ensures ready { GoesReady many item stand result }
{
    if !stand.queue.is_empty() {
        let reply = done(alloc, many, stand, true);
        return Moved::Ends { item, reply };
    }
    if stand.is_whole {
        return ended(alloc, item, many, stand);
    }
    Moved::Goes {
        item,
        state: State::Paging { many, stand },
    }
}

/// Goes on behind an item, as far as nothing is to be asked of the store.
pub(crate) fn go_on(alloc: Global, item: Item, many: Many, stand: Stand) -> Moved
    requires many { IsMany many }
    requires stand { IsStand stand }
    ensures told { (st : Standing) → IsStanding stand st st.queue → st.again ≡ false → GoesOnFrom many item (settled_of (doing_of many.doing) st) result }
    ensures ready { GoesReady many item stand result }
{
    match settle(alloc, &many.doing, stand) {
        Settled::Taken { stand, attempt } => Moved::Goes {
            item,
            state: State::Trying {
                many,
                stand,
                attempt,
            },
        },
        Settled::Untaken { stand } => untaken(alloc, item, many, stand),
        Settled::Refused { stand, fault } => refused(alloc, item, many, stand, fault),
    }
}
