//! Requests, replies and the texts of replies.
#![tactic(auto)]

mod errors;
mod fault;
mod fixed;
mod print;
mod print_parts;
mod reply;
mod request;
mod update_errors;
mod view_errors;

pub use errors::{
    already_exists, bad_collection_name, bad_field, bad_filter, bad_id_kind, bad_member_name,
    bad_option, broken_limit, empty_id, many_operands, no_collection, no_command,
    no_filter_operator, no_keyspace, out_of_memory, store_fault, too_many_collections, unread,
    versions_spent,
};
pub use fault::ReplyFault;
pub use fixed::{FixedText, no_memory_reply};
pub use print::print_reply;
pub use reply::{ErrorItem, Reply, SoFar, refusal, refusal_after};
pub use request::{Place, Request};
pub use update_errors::{
    Loss, bad_update_operand, id_unchangeable, lost_writes, no_update_operator,
    number_out_of_range, update_conflict, wrong_update_target,
};
pub use view_errors::{bad_page_state, bad_projection, bad_sort, command_limit, too_many_to_sort};

#[cfg(test)]
mod tests;
