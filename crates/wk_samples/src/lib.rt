//! What the crates that test share: integers, bodies and modules with what is known of them from elsewhere, and what a trial of a call finds.
#![tactic(auto)]

pub mod bodies;
pub mod edits;
pub mod integers;
pub mod lacking;
pub mod listings;
pub mod modules;
pub mod moving;
pub mod outcome;
pub mod sections;
pub mod wide;
