// The errors of replies: what each call makes has its code and its message.
// A client's own text goes into a message as it is.
ghost use Rattle.std.specs.Prelude.{◌≡◌, ◌++◌, codes, decimal, IfOk, OnOk, string_bytes};
ghost use Rattle.json_text.specs.Print.{text_of};
ghost use Rattle.reply_env.specs.Messages as errors;

use crate::fault::ReplyFault;
use crate::reply::ErrorItem;
use json_text::{TextFault, canon, reads_back};
use json_tree::{DocId, Text};
use name_tables::Code;
use std::alloc::{AllocError, Global};

pub(crate) fn add_number(n: u64, message: &mut String) -> Result<(), AllocError>
    ensures { OnOk result (string_bytes message.new ≡ string_bytes message.old ++ decimal n) }
{
    let mut buffer = itoa::Buffer::new();
    message.push_str(buffer.format(n))
}

// An error whose message is these words.
pub(crate) fn in_words(alloc: Global, code: Code, words: &str) -> Result<ErrorItem, ReplyFault>
    ensures { IfOk result (λ e. e ≡ record { code = code; message = words.now }) }
{
    match Text::of_str(alloc, words) {
        Ok(message) => Ok(ErrorItem { code, message }),
        Err(_) => Err(ReplyFault::NoMemory),
    }
}

// An error whose message names a text between words.
pub(crate) fn naming(
    alloc: Global,
    code: Code,
    before: &str,
    named: &str,
    after: &str,
) -> Result<ErrorItem, ReplyFault>
    ensures { IfOk result (λ e. e ≡ record { code = code; message = before.now ++ named.now ++ after.now }) }
{
    let mut message = String::from_str(alloc, before)?;
    message.push_str(named)?;
    message.push_str(after)?;
    Ok(ErrorItem {
        code,
        message: Text::of_string(message)?,
    })
}

// An error whose message tells a number between words.
fn numbering(
    alloc: Global,
    code: Code,
    before: &str,
    number: u64,
    after: &str,
) -> Result<ErrorItem, ReplyFault>
    ensures { IfOk result (λ e. e ≡ record { code = code; message = before.now ++ decimal number ++ after.now }) }
{
    let mut buffer = itoa::Buffer::new();
    naming(alloc, code, before, buffer.format(number), after)
}

// An error whose message ends with a place.
fn placed(alloc: Global, code: Code, before: &str, at: u64) -> Result<ErrorItem, ReplyFault>
    ensures { IfOk result (λ e. e ≡ record { code = code; message = before.now ++ decimal at }) }
{
    let mut message = String::from_str(alloc, before)?;
    add_number(at, &mut message)?;
    Ok(ErrorItem {
        code,
        message: Text::of_string(message)?,
    })
}

// An error whose message ends with a text.
pub(crate) fn ending(
    alloc: Global,
    code: Code,
    before: &str,
    named: &str,
) -> Result<ErrorItem, ReplyFault>
    ensures { IfOk result (λ e. e ≡ record { code = code; message = before.now ++ named.now }) }
{
    let mut message = String::from_str(alloc, before)?;
    message.push_str(named)?;
    Ok(ErrorItem {
        code,
        message: Text::of_string(message)?,
    })
}

/// The bytes of a body spell no value.
pub fn unread(alloc: Global, fault: TextFault) -> Result<ErrorItem, ReplyFault>
    ensures { IfOk result (λ e. e ≡ errors.unread fault) }
{
    match fault {
        TextFault::Syntax { at } => placed(
            alloc,
            Code::InvalidJson,
            "Body is not JSON at byte ",
            at,
        ),
        TextFault::NotUtf8 { at } => placed(
            alloc,
            Code::InvalidJson,
            "Body is not UTF-8 at byte ",
            at,
        ),
        TextFault::TooDeep { at } => {
            placed(
                alloc,
                Code::InvalidJson,
                "Body is nested too deep at byte ",
                at,
            )
        }
        TextFault::Number { at } => {
            placed(
                alloc,
                Code::NumberOutOfRange,
                "Number is out of range at byte ",
                at,
            )
        }
        TextFault::NoMemory => out_of_memory(alloc, 0),
    }
}

/// Memory ran out after so many accepted writes of the request. `no_memory_reply` says the same without memory.
pub fn out_of_memory(alloc: Global, accepted: u64) -> Result<ErrorItem, ReplyFault>
    ensures { IfOk result (λ e. e ≡ errors.out_of_memory accepted) }
{
    numbering(
        alloc,
        Code::OutOfMemory,
        "Out of memory after ",
        accepted,
        " accepted writes",
    )
}

/// The place or the body is of no command.
pub fn no_command(alloc: Global) -> Result<ErrorItem, ReplyFault>
    ensures { IfOk result (λ e. e ≡ errors.no_command) }
{
    in_words(alloc, Code::NoCommandMatched, "No command matched")
}

/// There is no keyspace of this name.
pub fn no_keyspace(alloc: Global, name: &str) -> Result<ErrorItem, ReplyFault>
    ensures { IfOk result (λ e. e ≡ errors.no_keyspace name.now) }
{
    naming(
        alloc,
        Code::KeyspaceNotExist,
        "Keyspace ",
        name,
        " does not exist",
    )
}

/// No collection may have this name.
pub fn bad_collection_name(alloc: Global, name: &str) -> Result<ErrorItem, ReplyFault>
    ensures { IfOk result (λ e. e ≡ errors.bad_collection_name name.now) }
{
    ending(
        alloc,
        Code::InvalidCollectionName,
        "Collection name is invalid: ",
        name,
    )
}

/// This member of a command is unknown, missing or of the wrong kind, or it is the command itself.
pub fn bad_field(alloc: Global, field: &str) -> Result<ErrorItem, ReplyFault>
    ensures { IfOk result (λ e. e ≡ errors.bad_field field.now) }
{
    ending(
        alloc,
        Code::CommandFieldInvalid,
        "Command field invalid: ",
        field,
    )
}

/// This option of a command is unknown or of the wrong kind.
pub fn bad_option(alloc: Global, name: &str) -> Result<ErrorItem, ReplyFault>
    ensures { IfOk result (λ e. e ≡ errors.bad_option name.now) }
{
    ending(
        alloc,
        Code::CommandFieldInvalid,
        "Command field invalid: options.",
        name,
    )
}

/// The filter can't be read at this path or connective; the path is empty for the filter as a whole.
pub fn bad_filter(alloc: Global, path: &str) -> Result<ErrorItem, ReplyFault>
    ensures { IfOk result (λ e. e ≡ errors.bad_filter path.now) }
{
    ending(
        alloc,
        Code::InvalidFilterExpression,
        "Filter is invalid at ",
        path,
    )
}

/// An operator of the filter has so many operands, which are over 100.
pub fn many_operands(alloc: Global, found: u64) -> Result<ErrorItem, ReplyFault>
    ensures { IfOk result (λ e. e ≡ errors.many_operands found) }
{
    numbering(
        alloc,
        Code::InvalidFilterExpression,
        "Filter has ",
        found,
        " operands, at most 100",
    )
}

/// The filter has an operator of this name, which there is none of.
pub fn no_filter_operator(alloc: Global, name: &str) -> Result<ErrorItem, ReplyFault>
    ensures { IfOk result (λ e. e ≡ errors.no_filter_operator name.now) }
{
    naming(
        alloc,
        Code::UnsupportedFilterOperation,
        "Filter operator ",
        name,
        " is not supported",
    )
}

/// `_id` is missing, a list or an object.
pub fn bad_id_kind(alloc: Global) -> Result<ErrorItem, ReplyFault>
    ensures { IfOk result (λ e. e ≡ errors.bad_id_kind) }
{
    in_words(
        alloc,
        Code::ShredBadDocidType,
        "Field _id is of the wrong kind",
    )
}

/// `_id` is the empty text.
pub fn empty_id(alloc: Global) -> Result<ErrorItem, ReplyFault>
    ensures { IfOk result (λ e. e ≡ errors.empty_id) }
{
    in_words(
        alloc,
        Code::ShredBadDocidEmptyString,
        "Field _id is an empty text",
    )
}

/// A member of a document has this name, with a byte outside `[A-Za-z0-9_-]`.
pub fn bad_member_name(alloc: Global, name: &str) -> Result<ErrorItem, ReplyFault>
    ensures { IfOk result (λ e. e ≡ errors.bad_member_name name.now) }
{
    ending(
        alloc,
        Code::ShredDocKeyNameViolation,
        "Member name is not allowed: ",
        name,
    )
}

/// A document breaks the limit of this number, by the count found.
pub fn broken_limit(
    alloc: Global,
    limit: u8,
    bound: u64,
    found: u64,
) -> Result<ErrorItem, ReplyFault>
    ensures { IfOk result (λ e. e ≡ errors.broken_limit limit bound found) }
{
    let mut message = String::from_str(alloc, "Document limit ")?;
    add_number(limit as u64, &mut message)?;
    message.push_str(" is ")?;
    add_number(bound, &mut message)?;
    message.push_str(", found ")?;
    add_number(found, &mut message)?;
    Ok(ErrorItem {
        code: Code::ShredDocLimitViolation,
        message: Text::of_string(message)?,
    })
}

// The canonical text of an id.
fn id_text(alloc: Global, id: &DocId) -> Result<String, ReplyFault>
    ensures { IfOk result (λ text. string_bytes text ≡ text_of id.now) }
{
    reads_back();
    match canon(alloc, id.value()) {
        Ok(text) => match String::from_utf8(text) {
            Ok(text) => Ok(text),
            Err(_) => unreachable!(),
        },
        Err(_) => Err(ReplyFault::NoMemory),
    }
}

/// A document with this id stands there, under this version.
pub fn already_exists(alloc: Global, id: &DocId, tx: u64) -> Result<ErrorItem, ReplyFault>
    ensures { IfOk result (λ e. e ≡ errors.already_exists id.now tx) }
{
    let text = match id_text(alloc, id) {
        Ok(text) => text,
        Err(_) => return Err(ReplyFault::NoMemory),
    };
    let mut message = String::from_str(alloc, "Document ")?;
    message.push_str(text.as_str())?;
    message.push_str(" already exists at version ")?;
    add_number(tx, &mut message)?;
    Ok(ErrorItem {
        code: Code::DocumentAlreadyExists,
        message: Text::of_string(message)?,
    })
}

/// There is no collection of this name.
pub fn no_collection(alloc: Global, name: &str) -> Result<ErrorItem, ReplyFault>
    ensures { IfOk result (λ e. e ≡ errors.no_collection name.now) }
{
    naming(
        alloc,
        Code::CollectionNotExist,
        "Collection ",
        name,
        " does not exist",
    )
}

/// As many collections live as may.
pub fn too_many_collections(alloc: Global) -> Result<ErrorItem, ReplyFault>
    ensures { IfOk result (λ e. e ≡ errors.too_many_collections) }
{
    in_words(alloc, Code::TooManyCollections, "At most 100 collections")
}

/// The store's keeper failed: its count of faults before and after the call.
pub fn store_fault(alloc: Global, before: u64, after: u64) -> Result<ErrorItem, ReplyFault>
    ensures { IfOk result (λ e. e ≡ errors.store_fault before after) }
{
    let mut message = String::from_str(alloc, "Store fault: ")?;
    add_number(before, &mut message)?;
    message.push_str(" then ")?;
    add_number(after, &mut message)?;
    Ok(ErrorItem {
        code: Code::StoreFault,
        message: Text::of_string(message)?,
    })
}

/// The store has no version number left for a write.
pub fn versions_spent(alloc: Global) -> Result<ErrorItem, ReplyFault>
    ensures { IfOk result (λ e. e ≡ errors.versions_spent) }
{
    in_words(alloc, Code::VersionsSpent, "No version numbers are left")
}
