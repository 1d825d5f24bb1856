// Faults, the meaning of a backing, and the two backings: an image and a joined pair.
#![tactic(auto)]

pub mod fault;
pub mod image;
pub mod layer;
pub mod pair;
pub mod refusal;
pub mod row;
#[cfg(test)]
mod tests;
