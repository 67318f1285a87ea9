// Kinds of value: what every kind keeps, and the two that are delivered, rates and fingerprints.
#![tactic(auto)]

pub mod fingerprint;
pub mod fingerprint_value;
pub mod rate;
pub mod rate_value;
pub mod value;
