//! What the sources of a configuration say, for people: the keys of a file, what has no effect, and
//! what a field accepts where its value is wrong.
mod effects;
mod keys;
mod lines;
mod names;
mod wrong;

pub use effects::{Warning, warnings};
pub use keys::{Entry, entries};
pub use lines::fault_line;
pub use names::{allowed, field_at, field_of_variable};
pub use wrong::wrong_value;
