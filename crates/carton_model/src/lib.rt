//! The definitions that crates side by side cite. All of them stand in specs/, and none is run.
#![tactic(auto)]
