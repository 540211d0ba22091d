//! The shell: runs a script over what is handed in, and prints the replies.
#![tactic(auto)]

mod answer;
mod command;
mod ending;
mod file_reply;
mod found;
mod job;
mod laws;
mod listing;
mod outside;
mod reply;
mod run;
mod script;
mod spot_line;
mod task;
mod words;

pub use found::{Found, FoundEntry, FoundKind};
pub use laws::{
    failures_tell_what_failed, other_words_are_faulty, parts_stand_in_order, words_say_the_limit,
};
pub use run::run_alone;

#[cfg(test)]
mod tests;
