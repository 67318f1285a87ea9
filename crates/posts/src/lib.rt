// Posts: a list of votes with a capacity, held in a table of records or in bytes.
#![tactic(auto)]

pub mod fault;
pub mod frames;
pub mod memory;
pub mod memory_post;
pub mod post;
pub mod post_votes;
pub mod table;
