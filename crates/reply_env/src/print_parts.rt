// The texts of the parts of a reply.
ghost use Rattle.std.specs.Prelude.{◌≡◌, ◌++◌, ◌∷◌, [], codes, decimal, OnOk, OnErr};
ghost use Rattle.std.specs.List.{flat_map};
ghost use Rattle.json_tree.specs.View.{tree};
ghost use Rattle.json_text.specs.Print.{escaped, string_text, text_of, Extends};
ghost use Rattle.name_tables.specs.Code.{code_text};
ghost use Rattle.reply_env.specs.Reply.{with_commas, view_text, state_text as page_text, listed_text, more_text, inserted_text, next_text, upserted_text, updated_text, deleted_text, error_text, errors_text, so_far_text, status_text};

use crate::reply::{ErrorItem, SoFar};
use json_text::{print_content, print_value};
use json_tree::{DocId, Text, Value};
use std::alloc::AllocError;

// A number in decimal.
#[tactic(auto, using(crate::proofs::Kept::kept))]
pub(crate) fn print_decimal(n: u64, out: &mut Vec<u8>) -> Result<(), AllocError>
    ensures ok { OnOk result (out.new.items ≡ out.old.items ++ decimal n) }
    ensures kept { OnErr result (Extends out.old.items out.new.items) }
{
    let mut buffer = itoa::Buffer::new();
    out.extend_from_slice(buffer.format(n).as_bytes())
}

// The canonical text of a value.
#[tactic(auto, using(crate::proofs::Kept::kept))]
fn print_tree(value: &Value, out: &mut Vec<u8>) -> Result<(), AllocError>
    ensures ok { OnOk result (out.new.items ≡ out.old.items ++ text_of (tree value.now)) }
    ensures kept { OnErr result (Extends out.old.items out.new.items) }
{
    match print_value(value, out) {
        Ok(()) => Ok(()),
        Err(_) => Err(AllocError),
    }
}

#[tactic(auto, using(crate::proofs::Kept::kept))]
fn print_string(text: &str, out: &mut Vec<u8>) -> Result<(), AllocError>
    ensures ok { OnOk result (out.new.items ≡ out.old.items ++ string_text text.now) }
    ensures kept { OnErr result (Extends out.old.items out.new.items) }
{
    out.push(b'"')?;
    print_content(text.as_bytes(), out)?;
    out.push(b'"')?;
    Ok(())
}

#[tactic(auto, using(crate::proofs::Kept::kept))]
fn print_id(id: &DocId, out: &mut Vec<u8>) -> Result<(), AllocError>
    ensures ok { OnOk result (out.new.items ≡ out.old.items ++ text_of id.now) }
    ensures kept { OnErr result (Extends out.old.items out.new.items) }
{
    print_tree(id.value(), out)
}

// The ids, with a comma before each.
#[tactic(auto, using(crate::proofs::Kept::kept))]
fn print_further_ids(ids: &[DocId], out: &mut Vec<u8>) -> Result<(), AllocError>
    ensures ok { OnOk result (out.new.items ≡ out.old.items ++ flat_map (λ id. 44 ∷ text_of id) ids.now) }
    ensures kept { OnErr result (Extends out.old.items out.new.items) }
{
    for id in ids {
        out.push(b',')?;
        print_id(id, out)?;
    }
    Ok(())
}

#[tactic(auto, using(crate::proofs::Kept::kept))]
fn print_ids(ids: &[DocId], out: &mut Vec<u8>) -> Result<(), AllocError>
    ensures ok { OnOk result (out.new.items ≡ out.old.items ++ with_commas text_of ids.now) }
    ensures kept { OnErr result (Extends out.old.items out.new.items) }
{
    match ids {
        [] => Ok(()),
        [first, further @ ..] => {
            print_id(first, out)?;
            print_further_ids(further, out)
        }
    }
}

#[tactic(auto, using(crate::proofs::Kept::kept))]
pub(crate) fn print_inserted(ids: &[DocId], out: &mut Vec<u8>) -> Result<(), AllocError>
    ensures ok { OnOk result (out.new.items ≡ out.old.items ++ inserted_text ids.now) }
    ensures kept { OnErr result (Extends out.old.items out.new.items) }
{
    out.extend_from_slice(b"{\"insertedIds\":[")?;
    print_ids(ids, out)?;
    out.extend_from_slice(b"]}")?;
    Ok(())
}

#[tactic(auto, using(crate::proofs::Kept::kept))]
fn print_error(error: &ErrorItem, out: &mut Vec<u8>) -> Result<(), AllocError>
    ensures ok { OnOk result (out.new.items ≡ out.old.items ++ error_text error.now) }
    ensures kept { OnErr result (Extends out.old.items out.new.items) }
{
    out.extend_from_slice(b"{\"message\":")?;
    print_string(error.message.as_str(), out)?;
    out.extend_from_slice(b",\"errorCode\":")?;
    print_string(error.code.text(), out)?;
    out.push(b'}')?;
    Ok(())
}

// The errors, with a comma before each.
#[tactic(auto, using(crate::proofs::Kept::kept))]
fn print_further_errors(errors: &[ErrorItem], out: &mut Vec<u8>) -> Result<(), AllocError>
    ensures ok { OnOk result (out.new.items ≡ out.old.items ++ flat_map (λ error. 44 ∷ error_text error) errors.now) }
    ensures kept { OnErr result (Extends out.old.items out.new.items) }
{
    for error in errors {
        out.push(b',')?;
        print_error(error, out)?;
    }
    Ok(())
}

#[tactic(auto, using(crate::proofs::Kept::kept))]
fn print_error_list(errors: &[ErrorItem], out: &mut Vec<u8>) -> Result<(), AllocError>
    ensures ok { OnOk result (out.new.items ≡ out.old.items ++ with_commas error_text errors.now) }
    ensures kept { OnErr result (Extends out.old.items out.new.items) }
{
    match errors {
        [] => Ok(()),
        [first, further @ ..] => {
            print_error(first, out)?;
            print_further_errors(further, out)
        }
    }
}

#[tactic(auto, using(crate::proofs::Kept::kept))]
pub(crate) fn print_errors(errors: &[ErrorItem], out: &mut Vec<u8>) -> Result<(), AllocError>
    ensures ok { OnOk result (out.new.items ≡ out.old.items ++ errors_text errors.now) }
    ensures kept { OnErr result (Extends out.old.items out.new.items) }
{
    out.extend_from_slice(b"\"errors\":[")?;
    print_error_list(errors, out)?;
    out.extend_from_slice(b"]}")?;
    Ok(())
}

// Where the next page begins, where there is one.
#[tactic(auto, using(crate::proofs::Kept::kept))]
fn print_next(state: &Option<Text>, out: &mut Vec<u8>) -> Result<(), AllocError>
    ensures ok { OnOk result (out.new.items ≡ out.old.items ++ next_text state.now) }
    ensures kept { OnErr result (Extends out.old.items out.new.items) }
{
    match state {
        None => Ok(()),
        Some(state) => {
            out.extend_from_slice(b",\"moreData\":true,\"nextPageState\":")?;
            print_string(state.as_str(), out)
        }
    }
}

// The id of the document that was inserted where none matched, where one was.
#[tactic(auto, using(crate::proofs::Kept::kept))]
fn print_upserted(upserted: &Option<DocId>, out: &mut Vec<u8>) -> Result<(), AllocError>
    ensures ok { OnOk result (out.new.items ≡ out.old.items ++ upserted_text upserted.now) }
    ensures kept { OnErr result (Extends out.old.items out.new.items) }
{
    match upserted {
        None => Ok(()),
        Some(id) => {
            out.extend_from_slice(b",\"upsertedId\":")?;
            print_id(id, out)?;
            Ok(())
        }
    }
}

#[tactic(auto, using(crate::proofs::Kept::kept))]
pub(crate) fn print_updated(
    matched: u64,
    modified: u64,
    upserted: &Option<DocId>,
    state: &Option<Text>,
    out: &mut Vec<u8>,
) -> Result<(), AllocError>
    ensures ok { OnOk result (out.new.items ≡ out.old.items ++ updated_text matched modified upserted.now state.now) }
    ensures kept { OnErr result (Extends out.old.items out.new.items) }
{
    out.extend_from_slice(b"{\"matchedCount\":")?;
    print_decimal(matched, out)?;
    out.extend_from_slice(b",\"modifiedCount\":")?;
    print_decimal(modified, out)?;
    print_upserted(upserted, out)?;
    print_next(state, out)?;
    out.push(b'}')?;
    Ok(())
}

#[tactic(auto, using(crate::proofs::Kept::kept))]
pub(crate) fn print_more(more: bool, out: &mut Vec<u8>) -> Result<(), AllocError>
    ensures ok { OnOk result (out.new.items ≡ out.old.items ++ more_text more) }
    ensures kept { OnErr result (Extends out.old.items out.new.items) }
{
    if more {
        out.extend_from_slice(b",\"moreData\":true")?;
    }
    Ok(())
}

#[tactic(auto, using(crate::proofs::Kept::kept))]
pub(crate) fn print_deleted(deleted: u64, more: bool, out: &mut Vec<u8>) -> Result<(), AllocError>
    ensures ok { OnOk result (out.new.items ≡ out.old.items ++ deleted_text deleted more) }
    ensures kept { OnErr result (Extends out.old.items out.new.items) }
{
    out.extend_from_slice(b"{\"deletedCount\":")?;
    print_decimal(deleted, out)?;
    print_more(more, out)?;
    out.push(b'}')?;
    Ok(())
}

#[tactic(auto, using(crate::proofs::Kept::kept))]
fn print_so_far(so_far: &SoFar, out: &mut Vec<u8>) -> Result<(), AllocError>
    ensures ok { OnOk result (out.new.items ≡ out.old.items ++ so_far_text so_far.now) }
    ensures kept { OnErr result (Extends out.old.items out.new.items) }
{
    match so_far {
        SoFar::Inserted(ids) => print_inserted(ids.as_slice(), out),
        SoFar::Updated { matched, modified } => print_updated(
            *matched, *modified, &None, &None, out,
        ),
        SoFar::Deleted { deleted } => print_deleted(*deleted, false, out),
    }
}

#[tactic(auto, using(crate::proofs::Kept::kept))]
pub(crate) fn print_status(so_far: &Option<SoFar>, out: &mut Vec<u8>) -> Result<(), AllocError>
    ensures ok { OnOk result (out.new.items ≡ out.old.items ++ status_text so_far.now) }
    ensures kept { OnErr result (Extends out.old.items out.new.items) }
{
    match so_far {
        None => {
            out.push(b'{')?;
            Ok(())
        }
        Some(done) => {
            out.extend_from_slice(b"{\"status\":")?;
            print_so_far(done, out)?;
            out.push(b',')?;
            Ok(())
        }
    }
}

#[tactic(auto, using(crate::proofs::Kept::kept))]
pub(crate) fn print_view(view: &Option<Value>, out: &mut Vec<u8>) -> Result<(), AllocError>
    ensures ok { OnOk result (out.new.items ≡ out.old.items ++ view_text view.now) }
    ensures kept { OnErr result (Extends out.old.items out.new.items) }
{
    match view {
        None => out.extend_from_slice(b"null"),
        Some(view) => print_tree(view, out),
    }
}

// The views, with a comma before each.
#[tactic(auto, using(crate::proofs::Kept::kept))]
fn print_further_views(views: &[Value], out: &mut Vec<u8>) -> Result<(), AllocError>
    ensures ok { OnOk result (out.new.items ≡ out.old.items ++ flat_map (λ view. 44 ∷ text_of (tree view)) views.now) }
    ensures kept { OnErr result (Extends out.old.items out.new.items) }
{
    for view in views {
        out.push(b',')?;
        print_tree(view, out)?;
    }
    Ok(())
}

#[tactic(auto, using(crate::proofs::Kept::kept))]
fn print_views(views: &[Value], out: &mut Vec<u8>) -> Result<(), AllocError>
    ensures ok { OnOk result (out.new.items ≡ out.old.items ++ with_commas (λ view. text_of (tree view)) views.now) }
    ensures kept { OnErr result (Extends out.old.items out.new.items) }
{
    match views {
        [] => Ok(()),
        [first, further @ ..] => {
            print_tree(first, out)?;
            print_further_views(further, out)
        }
    }
}

#[tactic(auto, using(crate::proofs::Kept::kept))]
fn print_state(state: &Option<Text>, out: &mut Vec<u8>) -> Result<(), AllocError>
    ensures ok { OnOk result (out.new.items ≡ out.old.items ++ page_text state.now) }
    ensures kept { OnErr result (Extends out.old.items out.new.items) }
{
    match state {
        None => out.extend_from_slice(b"null"),
        Some(state) => print_string(state.as_str(), out),
    }
}

#[tactic(auto, using(crate::proofs::Kept::kept))]
pub(crate) fn print_page(
    views: &[Value],
    state: &Option<Text>,
    out: &mut Vec<u8>,
) -> Result<(), AllocError>
    ensures ok { OnOk result (out.new.items ≡ out.old.items ++ listed_text views.now state.now) }
    ensures kept { OnErr result (Extends out.old.items out.new.items) }
{
    out.extend_from_slice(b"{\"documents\":[")?;
    print_views(views, out)?;
    out.extend_from_slice(b"],\"nextPageState\":")?;
    print_state(state, out)?;
    out.push(b'}')?;
    Ok(())
}

// The names, with a comma before each.
#[tactic(auto, using(crate::proofs::Kept::kept))]
fn print_further_names(names: &[Text], out: &mut Vec<u8>) -> Result<(), AllocError>
    ensures ok { OnOk result (out.new.items ≡ out.old.items ++ flat_map (λ name. 44 ∷ string_text name) names.now) }
    ensures kept { OnErr result (Extends out.old.items out.new.items) }
{
    for name in names {
        out.push(b',')?;
        print_string(name.as_str(), out)?;
    }
    Ok(())
}

#[tactic(auto, using(crate::proofs::Kept::kept))]
pub(crate) fn print_names(names: &[Text], out: &mut Vec<u8>) -> Result<(), AllocError>
    ensures ok { OnOk result (out.new.items ≡ out.old.items ++ with_commas string_text names.now) }
    ensures kept { OnErr result (Extends out.old.items out.new.items) }
{
    match names {
        [] => Ok(()),
        [first, further @ ..] => {
            print_string(first.as_str(), out)?;
            print_further_names(further, out)
        }
    }
}
