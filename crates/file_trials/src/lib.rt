//! Trials of the files of datasets: the calls of `file_dataset` on families of one head, tried in steps.
//!
//! The crate has nothing but tests. They stand apart from the calls, since the check of a crate's tests proves the
//! whole crate once more.
#![tactic(auto)]

#[cfg(test)]
mod line_tests;
#[cfg(test)]
mod sample;
#[cfg(test)]
mod scenarios;
#[cfg(test)]
mod steps;
#[cfg(test)]
mod tests;
#[cfg(test)]
mod trial;
