//! Trees of references to the sealed blocks of an object, and their MACs.
//!
//! The leaves are references to blocks, 32 of them in a node of level 1. A node of a higher level
//! has 32 references to nodes of the level below. Each reference has the MAC of what it names, so
//! the MAC of the top covers all. A node without references isn't stored: it is a hole.
#![tactic(auto)]

mod children;
mod entry;
mod fold;
mod group;
mod laws;
mod node;
mod refs;
mod replace;
mod run;
mod run_laws;
mod span;
mod stored;
mod walk;

pub use fold::fold_mac;
pub use group::lookup_group;
pub use laws::{
    block_nodes_have_one_spelling, groups_lead_to_their_blocks, ref_nodes_have_one_spelling,
    walks_stay_when_the_shelf_grows, walks_stop_at_the_first_place_that_fails,
};
pub use refs::{BlockRef, MacError, NodeRef, ObjTree};
pub use replace::replace_run;
pub use run_laws::{
    runs_by_hand, runs_change_their_blocks_alone, runs_keep_bytes, runs_keep_older_trees,
    runs_keep_trees, runs_put_only_changes, runs_touch_few_nodes, tops_are_folds,
};
pub use span::levels_for;
pub use stored::put;
pub use walk::{lookup, names_block, read};

#[cfg(test)]
mod tests;
