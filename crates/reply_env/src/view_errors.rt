// The errors of projections, sorts, page states and limits: what each call makes has its code and its message.
ghost use Rattle.std.specs.Prelude.{◌≡◌, IfOk};
ghost use Rattle.reply_env.specs.Messages as errors;

use crate::errors::{add_number, ending, in_words};
use crate::fault::ReplyFault;
use crate::reply::ErrorItem;
use json_tree::Text;
use name_tables::Code;
use std::alloc::Global;

/// A projection can't be read: the path at which.
pub fn bad_projection(alloc: Global, path: &str) -> Result<ErrorItem, ReplyFault>
    ensures { IfOk result (λ e. e ≡ errors.bad_projection path.now) }
{
    ending(
        alloc,
        Code::UnsupportedProjectionParam,
        "Projection is invalid at ",
        path,
    )
}

/// A sort can't be read: the path at which.
pub fn bad_sort(alloc: Global, path: &str) -> Result<ErrorItem, ReplyFault>
    ensures { IfOk result (λ e. e ≡ errors.bad_sort path.now) }
{
    ending(alloc, Code::InvalidSortClause, "Sort is invalid at ", path)
}

/// A text is no page state.
pub fn bad_page_state(alloc: Global) -> Result<ErrorItem, ReplyFault>
    ensures { IfOk result (λ e. e ≡ errors.bad_page_state) }
{
    in_words(alloc, Code::InvalidPageState, "Page state is invalid")
}

/// A member or an option of a command is more than its bound.
pub fn command_limit(
    alloc: Global,
    field: &str,
    bound: u64,
    found: u64,
) -> Result<ErrorItem, ReplyFault>
    ensures { IfOk result (λ e. e ≡ errors.command_limit field.now bound found) }
{
    let mut message = String::from_str(alloc, "Command limit ")?;
    message.push_str(field)?;
    message.push_str(" is ")?;
    add_number(bound, &mut message)?;
    message.push_str(", found ")?;
    add_number(found, &mut message)?;
    Ok(ErrorItem {
        code: Code::CommandLimitViolation,
        message: Text::of_string(message)?,
    })
}

/// More documents match than are sorted.
pub fn too_many_to_sort(alloc: Global) -> Result<ErrorItem, ReplyFault>
    ensures { IfOk result (λ e. e ≡ errors.too_many_to_sort) }
{
    in_words(
        alloc,
        Code::DatasetTooBig,
        "More than 10000 documents to sort",
    )
}
