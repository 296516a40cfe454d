// The replies that tell what became of the one document that a command asked for.
ghost use Rattle.std.specs.Prelude.{◌≡◌, Some, IfOk};
ghost use Rattle.std.specs.Option.{option_map};
ghost use Rattle.json_tree.specs.View.{tree};
ghost use Rattle.view_sort.specs.View.{view};
ghost use Rattle.store_core.specs.Journal.{new_doc as new_doc_of};
ghost use Rattle.cmd_tasks.specs.Many.{doing_of, form_of};
ghost use Rattle.cmd_tasks.specs.Outcomes.{none_found, unchanged, changed, put, shown_of, Tells, TellsChange, TellsDeletion};

use crate::work::{Doing, Form};
use json_tree::{Doc, Value};
use reply_env::Reply;
use std::alloc::Global;
use store_core::Change;
use view_sort::{Projection, ViewFault};

/// The document as it is shown.
fn view_of(alloc: Global, projection: &Projection, doc: &Doc) -> Result<Option<Value>, ViewFault>
    ensures { IfOk result (λ shown. option_map tree shown ≡ Some (view projection.now doc.now)) }
{
    match projection.apply(alloc, doc) {
        Ok(view) => Ok(Some(view)),
        Err(fault) => Err(fault),
    }
}

/// The reply that no document was found, and none is inserted.
pub(crate) fn tell_none(doing: &Doing, form: &Form) -> Reply
    ensures { Tells (doing_of doing.now) (form_of form.now) none_found result }
{
    match doing {
        Doing::Makes { .. } => match form {
            Form::ByCounts => Reply::Updated {
                matched: 0,
                modified: 0,
                upserted: None,
            },
            Form::Shows { .. } => Reply::FoundAndChanged {
                view: None,
                matched: 0,
                modified: 0,
                upserted: None,
            },
        },
        Doing::Deletes => match form {
            Form::ByCounts => Reply::Deleted { deleted: 0 },
            Form::Shows { .. } => Reply::FoundAndDeleted {
                view: None,
                deleted: 0,
            },
        },
    }
}

/// The reply that the document that was found stays as it is.
pub(crate) fn tell_unchanged(alloc: Global, form: &Form, doc: &Doc) -> Result<Reply, ViewFault>
    ensures { IfOk result (TellsChange (form_of form.now) (unchanged doc.now)) }
{
    match form {
        Form::ByCounts => Ok(Reply::Updated {
            matched: 1,
            modified: 0,
            upserted: None,
        }),
        Form::Shows { projection, .. } => match view_of(alloc, projection, doc) {
            Ok(view) => Ok(Reply::FoundAndChanged {
                view,
                matched: 1,
                modified: 0,
                upserted: None,
            }),
            Err(fault) => Err(fault),
        },
    }
}

/// The new document of a change as it is shown, if the change has one.
fn view_of_new(
    alloc: Global,
    projection: &Projection,
    change: &Change,
) -> Result<Option<Value>, ViewFault>
    ensures { IfOk result (λ shown. option_map tree shown ≡ option_map (view projection.now) (new_doc_of change.now)) }
{
    match change {
        Change::Insert { doc } => view_of(alloc, projection, doc),
        Change::Replace { doc } => view_of(alloc, projection, doc),
        Change::Update { doc, .. } => view_of(alloc, projection, doc),
        Change::Delete => Ok(None),
    }
}

/// The document as it was left, or as it was found, as it is shown.
fn view_of_changed(
    alloc: Global,
    projection: &Projection,
    after: bool,
    old: &Doc,
    change: &Change,
) -> Result<Option<Value>, ViewFault>
    ensures { IfOk result (λ shown. option_map tree shown ≡ option_map (view projection.now) (shown_of after (changed change.now old.now))) }
{
    if after {
        view_of_new(alloc, projection, change)
    } else {
        view_of(alloc, projection, old)
    }
}

/// The reply that another document was made of the one that was found.
fn tell_made(alloc: Global, form: &Form, old: &Doc, change: &Change) -> Result<Reply, ViewFault>
    ensures { IfOk result (TellsChange (form_of form.now) (changed change.now old.now)) }
{
    match form {
        Form::ByCounts => Ok(Reply::Updated {
            matched: 1,
            modified: 1,
            upserted: None,
        }),
        Form::Shows { projection, after } => {
            match view_of_changed(alloc, projection, *after, old, change) {
                Ok(view) => Ok(Reply::FoundAndChanged {
                    view,
                    matched: 1,
                    modified: 1,
                    upserted: None,
                }),
                Err(fault) => Err(fault),
            }
        }
    }
}

/// The reply that the document that was found was deleted.
fn tell_deleted(alloc: Global, form: &Form, old: &Doc, change: &Change) -> Result<Reply, ViewFault>
    ensures { IfOk result (TellsDeletion (form_of form.now) (changed change.now old.now)) }
{
    match form {
        Form::ByCounts => Ok(Reply::Deleted { deleted: 1 }),
        Form::Shows { projection, .. } => match view_of(alloc, projection, old) {
            Ok(view) => Ok(Reply::FoundAndDeleted { view, deleted: 1 }),
            Err(fault) => Err(fault),
        },
    }
}

/// The reply that the change of the document was written.
pub(crate) fn tell_changed(
    alloc: Global,
    doing: &Doing,
    form: &Form,
    old: &Doc,
    change: &Change,
) -> Result<Reply, ViewFault>
    ensures { IfOk result (Tells (doing_of doing.now) (form_of form.now) (changed change.now old.now)) }
{
    match doing {
        Doing::Makes { .. } => tell_made(alloc, form, old, change),
        Doing::Deletes => tell_deleted(alloc, form, old, change),
    }
}

/// The document that was inserted as it is shown, if it is shown as it was left.
fn view_of_put(
    alloc: Global,
    projection: &Projection,
    after: bool,
    doc: &Doc,
) -> Result<Option<Value>, ViewFault>
    ensures { IfOk result (λ shown. option_map tree shown ≡ option_map (view projection.now) (shown_of after (put doc.now))) }
{
    if after {
        view_of(alloc, projection, doc)
    } else {
        Ok(None)
    }
}

/// The reply that no document was found, and this one was inserted.
pub(crate) fn tell_put(alloc: Global, form: &Form, doc: &Doc) -> Result<Reply, ViewFault>
    ensures { IfOk result (TellsChange (form_of form.now) (put doc.now)) }
{
    let id = doc.id().try_copy(alloc)?;
    match form {
        Form::ByCounts => Ok(Reply::Updated {
            matched: 0,
            modified: 0,
            upserted: Some(id),
        }),
        Form::Shows { projection, after } => match view_of_put(alloc, projection, *after, doc) {
            Ok(view) => Ok(Reply::FoundAndChanged {
                view,
                matched: 0,
                modified: 0,
                upserted: Some(id),
            }),
            Err(fault) => Err(fault),
        },
    }
}
