//! The codes of errors: each has a text, and each text is of one code.
ghost use Rattle.std.specs.Prelude.{◌≡◌, ◌<◌, ◌↔◌, Some, slice_get};

use crate::tables::codes;

/// The codes by which an answer names its error. Their order is that of the table of their texts.
#[derive(Clone, Copy, Debug, PartialEq, Eq)]
pub enum Code {
    /// The body isn't JSON text.
    InvalidJson,
    /// The body holds no known command.
    NoCommandMatched,
    /// A member of the command is unknown, missing or of the wrong kind.
    CommandFieldInvalid,
    /// The filter can't be read.
    InvalidFilterExpression,
    /// The filter has an unknown operator.
    UnsupportedFilterOperation,
    /// The update has an unknown operator.
    UnsupportedUpdateOperation,
    /// An operand of the update is invalid, or two paths overlap.
    UnsupportedUpdateOperationParam,
    /// The change would touch `_id`.
    UnsupportedUpdateForDocId,
    /// The value at a path of the update is of the wrong kind.
    UnsupportedUpdateOperationTarget,
    /// The projection can't be read.
    UnsupportedProjectionParam,
    /// The sort can't be read.
    InvalidSortClause,
    /// The page state can't be read.
    InvalidPageState,
    /// The document's `_id` is of no kind that an id has.
    ShredBadDocidType,
    /// The document's `_id` is an empty text.
    ShredBadDocidEmptyString,
    /// A member name of the document has a byte that isn't allowed.
    ShredDocKeyNameViolation,
    /// The document breaks a limit.
    ShredDocLimitViolation,
    /// A number is out of the range that is kept.
    NumberOutOfRange,
    /// A document with this id is there.
    DocumentAlreadyExists,
    /// The collection doesn't exist.
    CollectionNotExist,
    /// The collection's name is invalid.
    InvalidCollectionName,
    /// The store holds as many collections as it may.
    TooManyCollections,
    /// The keyspace doesn't exist.
    KeyspaceNotExist,
    /// The command lost to other writers each time it tried.
    ConcurrencyFailure,
    /// More documents match than are sorted.
    DatasetTooBig,
    /// The command breaks a limit.
    CommandLimitViolation,
    /// The store's keeper met a fault.
    StoreFault,
    /// No version numbers are left.
    VersionsSpent,
    /// There was no memory.
    OutOfMemory,
}

const IN_ORDER: [Code; 28] = [
    Code::InvalidJson,
    Code::NoCommandMatched,
    Code::CommandFieldInvalid,
    Code::InvalidFilterExpression,
    Code::UnsupportedFilterOperation,
    Code::UnsupportedUpdateOperation,
    Code::UnsupportedUpdateOperationParam,
    Code::UnsupportedUpdateForDocId,
    Code::UnsupportedUpdateOperationTarget,
    Code::UnsupportedProjectionParam,
    Code::InvalidSortClause,
    Code::InvalidPageState,
    Code::ShredBadDocidType,
    Code::ShredBadDocidEmptyString,
    Code::ShredDocKeyNameViolation,
    Code::ShredDocLimitViolation,
    Code::NumberOutOfRange,
    Code::DocumentAlreadyExists,
    Code::CollectionNotExist,
    Code::InvalidCollectionName,
    Code::TooManyCollections,
    Code::KeyspaceNotExist,
    Code::ConcurrencyFailure,
    Code::DatasetTooBig,
    Code::CommandLimitViolation,
    Code::StoreFault,
    Code::VersionsSpent,
    Code::OutOfMemory,
];

impl Code {
    ghost use Rattle.name_tables.specs.declared.code.Code.{Code};
    ghost use Rattle.name_tables.specs.Code.{code_text, code_row};
    ghost use Rattle.name_tables.specs.Tables.{code_names};

    /// The code's text, a row of the table `codes`.
    pub fn text(self) -> &'static str
        ensures text { result.now ≡ code_text self }
        ensures row { slice_get code_names (code_row self) ≡ Some result.now }
    {
        codes().name(self as usize)
    }

    /// The code that has the text, and None where no code has it. Case counts.
    pub fn of_text(text: &str) -> Option<Code>
        ensures { (c : Code) → (result ≡ Some c) ↔ (code_text c ≡ text.now) }
    {
        match codes().find(text) {
            Some(row) => Some(Code::in_row(row)),
            None => None,
        }
    }

    // The code whose text stands in a row of the table.
    fn in_row(row: usize) -> Code
        requires { row < 28 }
        ensures { slice_get IN_ORDER row ≡ Some result }
    {
        IN_ORDER[row]
    }
}
