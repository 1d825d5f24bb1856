// The reader that cuts a capture into its stretches.
#![tactic(auto)]

pub mod part;
pub mod reader;
mod scan;
#[cfg(test)]
mod tests;
