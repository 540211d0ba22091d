//! The lines of the shell's scripts.
#![tactic(auto)]

mod laws;
mod line;
mod option;
mod parse;
mod setting;
mod words;

pub use laws::{
    bad_at_the_first_wrong_word, file_lines_say_what_they_spell, options_say_what_they_spell,
    record_sizes_are_in_form, snapshot_lines_say_what_they_spell, words_are_the_longest_runs,
};
pub use line::{Bytes, Line, LineStop, Word};
pub use parse::parse_line;

#[cfg(test)]
mod tests;
