//! How many bytes the anchors of a state take: laws, each as a function with nothing to do.
#![tactic(auto)]

pub mod laws;
