// Replies.
ghost use Rattle.std.specs.Prelude.{IfOk};
ghost use Rattle.reply_env.specs.Reply.{IsRefusal, IsRefusalAfter};

use crate::fault::ReplyFault;
use json_tree::{DocId, Text, Value};
use name_tables::Code;
use std::alloc::Global;

/// An error of a reply. Its message may hold a client's own text, whatever characters that has: printing escapes it.
#[derive(Drop)]
pub struct ErrorItem {
    pub code: Code,
    pub message: Text,
}

/// What the accepted writes of a refused request did.
#[derive(Drop)]
pub enum SoFar {
    Inserted(Vec<DocId>),
    Updated { matched: u64, modified: u64 },
    Deleted { deleted: u64 },
}

/// The reply to a request.
#[derive(Drop)]
pub enum Reply {
    /// The documents with these ids were inserted, in this order.
    Inserted {
        ids: Vec<DocId>,
    },
    /// The document that was looked for, as it is shown.
    Found {
        view: Option<Value>,
    },
    /// The documents of a page, as they are shown, in their order; `state` names where the next page begins.
    Listed {
        views: Vec<Value>,
        state: Option<Text>,
    },
    /// So many documents matched; `more` says that more did than are counted.
    Counted {
        count: u64,
        more: bool,
    },
    /// So many documents matched, and so many of them were changed; `upserted` is the id of the document that was
    /// inserted where none matched.
    Updated {
        matched: u64,
        modified: u64,
        upserted: Option<DocId>,
    },
    /// So many of the documents that were taken matched, and so many of them were changed; `upserted` is the id of the
    /// document that was inserted where none matched; `state`, which names where the next page begins, is there only
    /// where more matched.
    UpdatedMany {
        matched: u64,
        modified: u64,
        upserted: Option<DocId>,
        state: Option<Text>,
    },
    /// So many documents were deleted.
    Deleted {
        deleted: u64,
    },
    /// So many documents were deleted; `more` says that more matched.
    DeletedMany {
        deleted: u64,
        more: bool,
    },
    /// The document that was looked for and changed, as it is shown, with the counts of an update.
    FoundAndChanged {
        view: Option<Value>,
        matched: u64,
        modified: u64,
        upserted: Option<DocId>,
    },
    /// The document that was looked for and deleted, as it was found and is shown, with the count of a deletion.
    FoundAndDeleted {
        view: Option<Value>,
        deleted: u64,
    },
    /// What was asked for is so: the collection lives, or doesn't.
    Done,
    /// The names of the collections, in order of creation.
    Names {
        names: Vec<Text>,
    },
    /// `so_far` is there exactly where the request made an accepted write.
    Refused {
        errors: Vec<ErrorItem>,
        so_far: Option<SoFar>,
    },
    /// Memory ran out after so many accepted writes of the request.
    NoMemory {
        accepted: u64,
    },
}

/// The reply that refuses by one error, behind what was written before.
pub fn refusal_after(
    alloc: Global,
    so_far: Option<SoFar>,
    error: ErrorItem,
) -> Result<Reply, ReplyFault>
    ensures { IfOk result (IsRefusalAfter so_far error) }
{
    let mut errors = Vec::new(alloc);
    errors.push(error)?;
    Ok(Reply::Refused { errors, so_far })
}

/// The reply that refuses by one error, where nothing was written before.
pub fn refusal(alloc: Global, error: ErrorItem) -> Result<Reply, ReplyFault>
    ensures { IfOk result (IsRefusal error) }
{
    refusal_after(alloc, None, error)
}
