//! A task is one request as a machine that makes at most one call of the store in a step.
#![tactic(auto)]

mod begin;
mod collections;
mod finds;
mod first;
mod glance;
mod ids;
mod insertions;
mod laws;
mod many;
mod meeting;
mod one;
mod outcomes;
mod replacement;
mod run;
mod search;
mod steps;
mod taking;
mod task;
mod trace;
mod upserts;
mod work;

pub use ids::{Ids, drawn_ids_are_texts};
pub use laws::{
    a_count_that_stays_has_no_fault, a_refused_request_blames_itself, a_request_begins,
    a_request_ends, a_session_alone_loses_nothing, a_session_opens, a_step_is_made,
    a_task_may_be_cut_off, one_session_steps, others_may_append, others_may_write,
    pages_show_each_once, what_was_served_stays,
};
pub use run::serve;
pub use task::{Next, Served, Task};
pub use trace::{Item, Trace};
