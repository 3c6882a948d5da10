//! Plain types that every layer shares, and what the layers mean by a tree, a reason, a valid plan and a run.
#![tactic(auto)]

pub mod hold;
pub mod items;
pub mod lists;
pub mod packed;
pub mod plan;
pub mod predecessors;
pub mod row;
pub mod step;
