// Items of a body: read from a slice and a position, or taken from the front by a Reader; put into a lent buffer. The Rust's codec.rs.
#![tactic(auto)]

pub mod reader;
pub mod refusal;
pub mod writer;
