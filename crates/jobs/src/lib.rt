//! The job book: which tables are being compacted, by which jobs, and the calls on it.
#![tactic(auto)]

pub mod asking;
pub mod booking;
pub mod call;
pub mod ending;
pub mod job_book;
pub mod landing;
pub mod look_ahead;
pub mod ticket;
