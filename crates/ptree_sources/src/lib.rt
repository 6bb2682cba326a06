//! Gathers the sources of a configuration from what surrounds a program: the variables of its
//! environment, and the file that they lead to. It also says what they say, for people.
//!
//! [`surroundings::gather`] gathers them, [`words::words`] returns the words of the call, and
//! [`settings`] has the keys, the warnings and the wrong values of sources. The other modules are
//! parts of these.
#![tactic(auto)]

pub mod candidates;
pub mod environment;
pub mod input;
pub mod opened;
pub mod parsed;
pub mod paths;
pub mod settings;
pub mod surroundings;
pub mod words;
