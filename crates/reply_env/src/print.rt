// The text of a reply.
ghost use Rattle.std.specs.Prelude.{◌≡◌, ◌++◌, ◌∷◌, [], None, false, codes, decimal, OnOk, OnErr};
ghost use Rattle.json_text.specs.Print.{string_text, Extends};
ghost use Rattle.reply_env.specs.Messages.{out_of_memory};
ghost use Rattle.reply_env.specs.Reply.{with_commas, view_text, listed_text, more_text, inserted_text, updated_text, deleted_text, errors_text, status_text, reply_text};

use crate::fault::ReplyFault;
use crate::fixed::no_memory_reply;
use crate::print_parts::{
    print_decimal, print_deleted, print_errors, print_inserted, print_more, print_names,
    print_page, print_status, print_updated, print_view,
};
use crate::reply::{ErrorItem, Reply, SoFar};
use json_tree::{DocId, Text, Value};
use std::alloc::{AllocError, Global};

#[tactic(auto, using(crate::proofs::Kept::kept))]
fn print_listed(views: &[Value], state: &Option<Text>, out: &mut Vec<u8>) -> Result<(), AllocError>
    ensures ok { OnOk result (out.new.items ≡ out.old.items ++ (codes "{\"data\":" ++ listed_text views.now state.now ++ codes "}")) }
    ensures kept { OnErr result (Extends out.old.items out.new.items) }
{
    out.extend_from_slice(b"{\"data\":")?;
    print_page(views, state, out)?;
    out.push(b'}')?;
    Ok(())
}

#[tactic(auto, using(crate::proofs::Kept::kept))]
fn print_insertion(ids: &[DocId], out: &mut Vec<u8>) -> Result<(), AllocError>
    ensures ok { OnOk result (out.new.items ≡ out.old.items ++ (codes "{\"status\":" ++ inserted_text ids.now ++ codes "}")) }
    ensures kept { OnErr result (Extends out.old.items out.new.items) }
{
    out.extend_from_slice(b"{\"status\":")?;
    print_inserted(ids, out)?;
    out.push(b'}')?;
    Ok(())
}

#[tactic(auto, using(crate::proofs::Kept::kept))]
fn print_found(view: &Option<Value>, out: &mut Vec<u8>) -> Result<(), AllocError>
    ensures ok { OnOk result (out.new.items ≡ out.old.items ++ (codes "{\"data\":{\"document\":" ++ view_text view.now ++ codes "}}")) }
    ensures kept { OnErr result (Extends out.old.items out.new.items) }
{
    out.extend_from_slice(b"{\"data\":{\"document\":")?;
    print_view(view, out)?;
    out.extend_from_slice(b"}}")
}

#[tactic(auto, using(crate::proofs::Kept::kept))]
fn print_count(count: u64, more: bool, out: &mut Vec<u8>) -> Result<(), AllocError>
    ensures ok { OnOk result (out.new.items ≡ out.old.items ++ (codes "{\"status\":{\"count\":" ++ decimal count ++ more_text more ++ codes "}}")) }
    ensures kept { OnErr result (Extends out.old.items out.new.items) }
{
    out.extend_from_slice(b"{\"status\":{\"count\":")?;
    print_decimal(count, out)?;
    print_more(more, out)?;
    out.extend_from_slice(b"}}")
}

#[tactic(auto, using(crate::proofs::Kept::kept))]
fn print_update(
    matched: u64,
    modified: u64,
    upserted: &Option<DocId>,
    state: &Option<Text>,
    out: &mut Vec<u8>,
) -> Result<(), AllocError>
    ensures ok { OnOk result (out.new.items ≡ out.old.items ++ (codes "{\"status\":" ++ updated_text matched modified upserted.now state.now ++ codes "}")) }
    ensures kept { OnErr result (Extends out.old.items out.new.items) }
{
    out.extend_from_slice(b"{\"status\":")?;
    print_updated(matched, modified, upserted, state, out)?;
    out.push(b'}')?;
    Ok(())
}

#[tactic(auto, using(crate::proofs::Kept::kept))]
fn print_deletion(deleted: u64, more: bool, out: &mut Vec<u8>) -> Result<(), AllocError>
    ensures ok { OnOk result (out.new.items ≡ out.old.items ++ (codes "{\"status\":" ++ deleted_text deleted more ++ codes "}")) }
    ensures kept { OnErr result (Extends out.old.items out.new.items) }
{
    out.extend_from_slice(b"{\"status\":")?;
    print_deleted(deleted, more, out)?;
    out.push(b'}')?;
    Ok(())
}

#[tactic(auto, using(crate::proofs::Kept::kept))]
fn print_found_and_changed(
    view: &Option<Value>,
    matched: u64,
    modified: u64,
    upserted: &Option<DocId>,
    out: &mut Vec<u8>,
) -> Result<(), AllocError>
    ensures ok { OnOk result (out.new.items ≡ out.old.items ++ (codes "{\"data\":{\"document\":" ++ view_text view.now ++ codes "},\"status\":" ++ updated_text matched modified upserted.now None ++ codes "}")) }
    ensures kept { OnErr result (Extends out.old.items out.new.items) }
{
    out.extend_from_slice(b"{\"data\":{\"document\":")?;
    print_view(view, out)?;
    out.extend_from_slice(b"},\"status\":")?;
    print_updated(matched, modified, upserted, &None, out)?;
    out.push(b'}')?;
    Ok(())
}

#[tactic(auto, using(crate::proofs::Kept::kept))]
fn print_found_and_deleted(
    view: &Option<Value>,
    deleted: u64,
    out: &mut Vec<u8>,
) -> Result<(), AllocError>
    ensures ok { OnOk result (out.new.items ≡ out.old.items ++ (codes "{\"data\":{\"document\":" ++ view_text view.now ++ codes "},\"status\":" ++ deleted_text deleted false ++ codes "}")) }
    ensures kept { OnErr result (Extends out.old.items out.new.items) }
{
    out.extend_from_slice(b"{\"data\":{\"document\":")?;
    print_view(view, out)?;
    out.extend_from_slice(b"},\"status\":")?;
    print_deleted(deleted, false, out)?;
    out.push(b'}')?;
    Ok(())
}

#[tactic(auto, using(crate::proofs::Kept::kept))]
fn print_collections(names: &[Text], out: &mut Vec<u8>) -> Result<(), AllocError>
    ensures ok { OnOk result (out.new.items ≡ out.old.items ++ (codes "{\"status\":{\"collections\":[" ++ with_commas string_text names.now ++ codes "]}}")) }
    ensures kept { OnErr result (Extends out.old.items out.new.items) }
{
    out.extend_from_slice(b"{\"status\":{\"collections\":[")?;
    print_names(names, out)?;
    out.extend_from_slice(b"]}}")?;
    Ok(())
}

#[tactic(auto, using(crate::proofs::Kept::kept))]
fn print_refused(
    errors: &[ErrorItem],
    so_far: &Option<SoFar>,
    out: &mut Vec<u8>,
) -> Result<(), AllocError>
    ensures ok { OnOk result (out.new.items ≡ out.old.items ++ (status_text so_far.now ++ errors_text errors.now)) }
    ensures kept { OnErr result (Extends out.old.items out.new.items) }
{
    print_status(so_far, out)?;
    print_errors(errors, out)
}

#[tactic(auto, using(crate::proofs::Kept::kept))]
fn print_no_memory(accepted: u64, out: &mut Vec<u8>) -> Result<(), AllocError>
    ensures ok { OnOk result (out.new.items ≡ out.old.items ++ (codes "{" ++ errors_text (out_of_memory accepted ∷ []))) }
    ensures kept { OnErr result (Extends out.old.items out.new.items) }
{
    out.extend_from_slice(no_memory_reply(accepted).bytes())
}

#[tactic(auto, using(crate::proofs::Kept::kept))]
fn print_behind(reply: &Reply, out: &mut Vec<u8>) -> Result<(), AllocError>
    ensures ok { OnOk result (out.new.items ≡ out.old.items ++ reply_text reply.now) }
    ensures kept { OnErr result (Extends out.old.items out.new.items) }
{
    match reply {
        Reply::Inserted { ids } => print_insertion(ids.as_slice(), out),
        Reply::Found { view } => print_found(view, out),
        Reply::Listed { views, state } => print_listed(views.as_slice(), state, out),
        Reply::Counted { count, more } => print_count(*count, *more, out),
        Reply::Updated {
            matched,
            modified,
            upserted,
        } => print_update(*matched, *modified, upserted, &None, out),
        Reply::UpdatedMany {
            matched,
            modified,
            upserted,
            state,
        } => print_update(*matched, *modified, upserted, state, out),
        Reply::Deleted { deleted } => print_deletion(*deleted, false, out),
        Reply::DeletedMany { deleted, more } => print_deletion(*deleted, *more, out),
        Reply::FoundAndChanged {
            view,
            matched,
            modified,
            upserted,
        } => print_found_and_changed(view, *matched, *modified, upserted, out),
        Reply::FoundAndDeleted { view, deleted } => print_found_and_deleted(view, *deleted, out),
        Reply::Done => out.extend_from_slice(b"{\"status\":{\"ok\":1}}"),
        Reply::Names { names } => print_collections(names.as_slice(), out),
        Reply::Refused { errors, so_far } => print_refused(errors.as_slice(), so_far, out),
        Reply::NoMemory { accepted } => print_no_memory(*accepted, out),
    }
}

/// Appends the reply's text, in place: where memory runs out, what was printed of it is cut off again.
#[tactic(auto, using(crate::proofs::Kept::kept))]
pub fn print_reply(_alloc: Global, reply: &Reply, out: &mut Vec<u8>) -> Result<(), ReplyFault>
    ensures ok { OnOk result (out.new.items ≡ out.old.items ++ reply_text reply.now) }
    ensures err { OnErr result (out.new.items ≡ out.old.items) }
{
    let before = out.len();
    match print_behind(reply, out) {
        Ok(()) => Ok(()),
        Err(_) => {
            out.truncate(before);
            Err(ReplyFault::NoMemory)
        }
    }
}
