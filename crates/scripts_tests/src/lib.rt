//! Lines of a script, read: what is well formed, and what is not.
#![tactic(auto)]

#[cfg(test)]
mod tests;
