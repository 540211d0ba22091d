//! Reading a keystore by a view of it: why a key command is refused, from where it fetches keys, what a new dataset
//! gets from its parent, and what `get` shows.
//!
//! Each call reads a `KeyView`, and its answer is a definition of `key_machine` at the plain state that the view shows.
#![tactic(auto)]

mod limits;
mod lookup;
mod new_sets;
mod places;
mod property;
mod refusals;
mod roots;
mod texts;

pub use limits::MAX_FAMILIES;
pub use lookup::{is_below_encrypted, owner_props, suite_of};
pub use new_sets::{new_iters, new_props, new_suite, parent_key};
pub use places::{old_place, place_of_new_key, place_or_none, place_or_prompt};
pub use property::property_text;
pub use refusals::{clone_refusal, create_refusal, get_refusal, makes_encrypted};
pub use roots::{load_root, unload_root};
