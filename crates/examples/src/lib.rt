//! Examples: what callers of `ptree` and `ptree_trees` learn from the contracts, as small functions
//! that are proved from those of the calls that they make, and two whole programs.
#![tactic(auto)]

pub mod building;
pub mod changing;
pub mod comparing;
pub mod configuring;
pub mod documenting;
pub mod documents;
pub mod drawing;
pub mod errors;
pub mod escaping;
pub mod giving;
pub mod graphs;
pub mod indenting;
pub mod loading;
pub mod notes;
pub mod own_types;
pub mod pathing;
pub mod reading;
pub mod sinks;
pub mod styling;
pub mod tasks;
