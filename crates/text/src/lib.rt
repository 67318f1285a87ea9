// Values and votes as the words of a text line, read and shown.
#![tactic(auto)]

pub mod fingerprint_text;
pub mod rate_text;
pub mod text_value;
pub mod value_text;
pub mod vote_text;
