//! For those who keep and compare trees: trees as indented text, trees of paths, the first
//! difference of two trees, trees changed, texts escaped, and documents with floats and dates.
#![tactic(auto)]

pub mod change;
pub mod difference;
pub mod documents;
mod errors;
pub mod escape;
pub mod indented;
pub mod paths;
pub mod styled;

pub use ptree_sources::settings;
