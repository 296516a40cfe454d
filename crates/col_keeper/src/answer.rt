// What the calls of a keeper answer.
use doc_paths::CollName;
use json_tree::{Doc, DocId};
use shred_cols::{Columns, Row};
use thiserror::Error;

/// The collections in order of creation, and the number of the last write.
#[derive(Drop)]
pub struct Listing {
    pub names: Vec<CollName>,
    pub last_tx: u64,
}

/// Rows in order of id, and whether no further row meets the probe.
#[derive(Drop)]
pub struct Walked {
    pub rows: Vec<Row>,
    pub end: bool,
}

/// A row as it is stored, its entries read from the stored columns.
#[derive(Drop)]
pub struct Stored {
    pub id: DocId,
    pub tx: u64,
    pub doc: Doc,
    pub entries: Columns,
}

/// Why a keeper gives nothing.
#[derive(Error, Clone, Copy, Debug, PartialEq, Eq, Drop)]
pub enum KeepFault {
    /// The collection doesn't live.
    #[error("no such collection")]
    NoCollection,
    /// A fault, which is counted.
    #[error("the keeper failed")]
    Failed,
    #[error("no memory")]
    NoMemory,
}

/// What the creation of a collection answers.
#[derive(Clone, Copy, Debug, PartialEq, Eq, Drop)]
pub enum Made {
    Done,
    /// The collection lives already.
    There,
    /// So many collections live.
    Full { found: u64 },
    /// A fault, which is counted.
    Failed,
    NoMemory,
}

/// What the dropping of a collection answers.
#[derive(Clone, Copy, Debug, PartialEq, Eq, Drop)]
pub enum Dropped {
    Done,
    /// The collection doesn't live.
    Absent,
    /// A fault, which is counted.
    Failed,
    NoMemory,
}

/// What a write of a row answers.
#[derive(Clone, Copy, Debug, PartialEq, Eq, Drop)]
pub enum Kept2 {
    Done,
    /// The id is there, with this number.
    Taken { tx: u64 },
    /// The id isn't there.
    Absent,
    /// The id is there, with this number, which isn't the one that was read.
    Other { tx: u64 },
    /// The collection doesn't live.
    NoCollection,
    /// A fault, which is counted.
    Failed,
    NoMemory,
}
