// The words of a text line, numbers and bytes as words (digits, and hexadecimal digits), and why they are refused.
#![tactic(auto)]

pub mod hexadecimal;
pub mod line;
pub mod number;
pub mod refusal;
#[cfg(test)]
mod tests;
