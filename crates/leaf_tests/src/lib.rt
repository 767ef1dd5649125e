//! Examples for keys, runs, windows, edits of a sheet and naming, each proved and then run.
#![tactic(auto)]

#[cfg(test)]
mod edits_tests;
#[cfg(test)]
mod keys_tests;
#[cfg(test)]
mod naming_tests;
#[cfg(test)]
mod runs_tests;
#[cfg(test)]
mod samples;
#[cfg(test)]
mod windows_tests;
