//! Draws trees and documents for programs in C, and reads drawings: a static library over `ptree`.
//! `docs/BINDINGS.md` of the repository is for callers, and `bindings/c/ptree.h` is the header.
#![tactic(auto)]

mod answer;
pub mod document;
pub mod draw;
pub mod faults;
pub mod fields;
pub mod graph;
pub mod items;
pub mod load;
mod outline;
pub mod paint;
pub mod preset;
pub mod read;
pub mod refusal;
mod room;
pub mod steps;
mod texts;
