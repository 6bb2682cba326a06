//! Why a call failed: memory was refused, or something else.

use ptree::builder::AddError;
use ptree::style::DrawError;
use ptree::value::ConvertError;
use std::alloc::AllocError;
use std::io;

/// Why a call failed.
#[derive(Clone, Copy)]
pub enum Failure {
    Memory,
    Other,
}

impl From<AllocError> for Failure {
    fn from(_e: AllocError) -> Failure {
        Failure::Memory
    }
}

impl From<AddError> for Failure {
    fn from(e: AddError) -> Failure {
        match e {
            AddError::Memory => Failure::Memory,
            AddError::Level => Failure::Other,
        }
    }
}

impl From<DrawError> for Failure {
    fn from(e: DrawError) -> Failure {
        match e {
            DrawError::Memory => Failure::Memory,
            DrawError::Zero | DrawError::Write(_) => Failure::Other,
        }
    }
}

impl From<ConvertError> for Failure {
    fn from(e: ConvertError) -> Failure {
        match e {
            ConvertError::Memory => Failure::Memory,
            ConvertError::Float | ConvertError::Date => Failure::Other,
        }
    }
}

impl From<serde_json::Error> for Failure {
    fn from(e: serde_json::Error) -> Failure {
        if e.is_memory() {
            Failure::Memory
        } else {
            Failure::Other
        }
    }
}

impl From<toml::de::Error> for Failure {
    fn from(e: toml::de::Error) -> Failure {
        if e.is_memory() {
            Failure::Memory
        } else {
            Failure::Other
        }
    }
}

// (a text that a note does not have room for)
impl From<io::Error> for Failure {
    fn from(_e: io::Error) -> Failure {
        Failure::Other
    }
}
