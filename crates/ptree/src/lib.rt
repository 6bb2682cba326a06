//! Draws any tree as text with branches, and reads such a drawing back exactly.
//!
//! You can draw any [`TreeItem`]: a tree of texts ([`item::StringItem`], which [`TreeBuilder`]
//! builds), a node of a [`graph::Graph`], a [`value::Value`], or a type of your own.
//! [`write_tree_with`] draws it to any [`sink::Sink`] as a [`PrintConfig`] says.
//! [`read::read_tree`] returns the tree of a drawing, and [`read::read_items`] its items alone.
//! [`read::read_tree_or_line`] also says where a text stops being a drawing, and
//! [`read::lines_that_follow`] what could stand there.
//!
//! ```text
//! tree
//! ├─ branch
//! │  └─ leaf
//! └─ empty branch
//! ```
//!
//! Each call that allocates takes an allocator, and returns an error if memory runs out. Each call
//! that writes has two clauses. One says what it appends: all of it on success, a prefix of it on
//! failure. The other says that `Write` and `Zero` are returned exactly when the sink failed.
#![tactic(auto)]

pub mod builder;
mod equality;
pub mod errors;
pub mod graph;
pub mod item;
pub mod output;
mod parsed;
pub mod presets;
pub mod print_config;
pub mod read;
pub mod sink;
pub mod style;
pub mod value;

pub use builder::TreeBuilder;
pub use item::TreeItem;
pub use output::{print_tree, print_tree_with, write_tree, write_tree_with};
pub use print_config::{IndentChars, PrintConfig};
pub use sink::buffered;
pub use style::{Color, Style};
