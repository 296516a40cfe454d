// The entries of a journal.
use doc_paths::CollName;
use json_tree::{Doc, DocId};
use update_ops::Updates;

/// What a write does to the document of an id.
#[derive(Drop)]
pub enum Change {
    Insert {
        doc: Doc,
    },
    Replace {
        doc: Doc,
    },
    /// The document that the updates make, at this moment, of the one that stands there.
    Update {
        updates: Updates,
        moment: i64,
        doc: Doc,
    },
    Delete,
}

/// An entry of a journal, by the session that made it.
#[derive(Drop)]
pub enum Entry {
    /// A session was opened.
    Opened {
        session: u64,
    },
    /// A collection was made.
    Created {
        by: u64,
        coll: CollName,
    },
    /// A collection was dropped with its documents.
    Dropped {
        by: u64,
        coll: CollName,
    },
    /// The document of an id was changed: the number that stood there before, and the number since.
    Changed {
        by: u64,
        coll: CollName,
        id: DocId,
        change: Change,
        before: Option<u64>,
        after: u64,
    },
    /// A call of the keeper failed: its counts of faults before and after the call.
    Failed {
        by: u64,
        before: u64,
        after: u64,
    },
}
