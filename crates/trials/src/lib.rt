// Worked examples of votes, frames and posts: one that is shown of the definitions, and tests.
#![tactic(auto)]

#[cfg(test)]
mod frames;
#[cfg(test)]
mod posts_filled;
#[cfg(test)]
mod value_bytes;
#[cfg(test)]
mod voids;
pub mod worked;
