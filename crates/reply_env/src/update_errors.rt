// The errors of updates: what each call makes has its code and its message.
ghost use Rattle.std.specs.Prelude.{◌≡◌, ◌++◌, codes, decimal, IfOk, OnOk, string_bytes};
ghost use Rattle.std.specs.List.{flat_map};
ghost use Rattle.reply_env.specs.Messages as errors;
ghost use Rattle.reply_env.specs.Messages.{found_text, loss_text, losses_text};

use crate::errors::{add_number, ending, in_words, naming};
use crate::fault::ReplyFault;
use crate::reply::ErrorItem;
use json_tree::Text;
use name_tables::Code;
use std::alloc::{AllocError, Global};

/// A write that was lost to another writer: the version that was read, and the one that was found in its place.
#[derive(Clone, Copy, Debug, PartialEq, Eq)]
pub struct Loss {
    pub read: u64,
    pub found: Option<u64>,
}

// An error whose message ends with two texts and words between them.
fn naming_two(
    alloc: Global,
    code: Code,
    before: &str,
    one: &str,
    between: &str,
    other: &str,
) -> Result<ErrorItem, ReplyFault>
    ensures { IfOk result (λ e. e ≡ record { code = code; message = before.now ++ one.now ++ between.now ++ other.now }) }
{
    let mut message = String::from_str(alloc, before)?;
    message.push_str(one)?;
    message.push_str(between)?;
    message.push_str(other)?;
    Ok(ErrorItem {
        code,
        message: Text::of_string(message)?,
    })
}

/// The update has an operator of this name, which there is none of.
pub fn no_update_operator(alloc: Global, name: &str) -> Result<ErrorItem, ReplyFault>
    ensures { IfOk result (λ e. e ≡ errors.no_update_operator name.now) }
{
    naming(
        alloc,
        Code::UnsupportedUpdateOperation,
        "Update operator ",
        name,
        " is not supported",
    )
}

/// The operand of an update's operator isn't of its form, or the path is none; the path is empty where the
/// operator's value is no object.
pub fn bad_update_operand(
    alloc: Global,
    operator: &str,
    path: &str,
) -> Result<ErrorItem, ReplyFault>
    ensures { IfOk result (λ e. e ≡ errors.bad_update_operand operator.now path.now) }
{
    naming_two(
        alloc,
        Code::UnsupportedUpdateOperationParam,
        "Update operand is invalid for ",
        operator,
        " at ",
        path,
    )
}

/// Of two paths of an update, one leads through the other, or both are the same.
pub fn update_conflict(alloc: Global, one: &str, other: &str) -> Result<ErrorItem, ReplyFault>
    ensures { IfOk result (λ e. e ≡ errors.update_conflict one.now other.now) }
{
    naming_two(
        alloc,
        Code::UnsupportedUpdateOperationParam,
        "Update paths conflict: ",
        one,
        " and ",
        other,
    )
}

/// An update leads to `_id`.
pub fn id_unchangeable(alloc: Global) -> Result<ErrorItem, ReplyFault>
    ensures { IfOk result (λ e. e ≡ errors.id_unchangeable) }
{
    in_words(
        alloc,
        Code::UnsupportedUpdateForDocId,
        "Field _id is not changeable",
    )
}

/// What stands at this path of the document isn't of the kind that the update's operator changes.
pub fn wrong_update_target(alloc: Global, path: &str) -> Result<ErrorItem, ReplyFault>
    ensures { IfOk result (λ e. e ≡ errors.wrong_update_target path.now) }
{
    ending(
        alloc,
        Code::UnsupportedUpdateOperationTarget,
        "Update target is of the wrong kind at ",
        path,
    )
}

/// The number that an update makes at this path is out of range.
pub fn number_out_of_range(alloc: Global, path: &str) -> Result<ErrorItem, ReplyFault>
    ensures { IfOk result (λ e. e ≡ errors.number_out_of_range path.now) }
{
    ending(
        alloc,
        Code::NumberOutOfRange,
        "Number is out of range at ",
        path,
    )
}

fn add_found(found: Option<u64>, message: &mut String) -> Result<(), AllocError>
    ensures { OnOk result (string_bytes message.new ≡ string_bytes message.old ++ found_text found) }
{
    match found {
        Some(tx) => add_number(tx, message),
        None => message.push_str("gone"),
    }
}

fn add_loss(loss: Loss, message: &mut String) -> Result<(), AllocError>
    ensures { OnOk result (string_bytes message.new ≡ string_bytes message.old ++ loss_text loss) }
{
    add_number(loss.read, message)?;
    message.push_str(">")?;
    add_found(loss.found, message)
}

// With a comma and a space before each.
fn add_further(losses: &[Loss], message: &mut String) -> Result<(), AllocError>
    ensures { OnOk result (string_bytes message.new ≡ string_bytes message.old ++ flat_map (λ l. codes ", " ++ loss_text l) losses.now) }
{
    for loss in losses {
        message.push_str(", ")?;
        add_loss(*loss, message)?;
    }
    Ok(())
}

fn add_losses(losses: &[Loss], message: &mut String) -> Result<(), AllocError>
    ensures { OnOk result (string_bytes message.new ≡ string_bytes message.old ++ losses_text losses.now) }
{
    match losses {
        [] => Ok(()),
        [first, further @ ..] => {
            add_loss(*first, message)?;
            add_further(further, message)
        }
    }
}

/// Writes of a request were lost to other writers, in the order of the attempts.
pub fn lost_writes(alloc: Global, losses: &[Loss]) -> Result<ErrorItem, ReplyFault>
    ensures { IfOk result (λ e. e ≡ errors.lost_writes losses.now) }
{
    let mut message = String::from_str(alloc, "Lost to other writers: ")?;
    add_losses(losses, &mut message)?;
    Ok(ErrorItem {
        code: Code::ConcurrencyFailure,
        message: Text::of_string(message)?,
    })
}
