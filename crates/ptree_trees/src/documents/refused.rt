//! What `ptree::value` refuses a document for, and where it stands.
ghost use Rattle.std.specs.Prelude.{◌≡◌, option_map, IfOk};
ghost use Rattle.ptree_trees.specs.RefusedPath.{path_of, IsRefusedPath};
ghost use Rattle.ptree_trees.specs.RefusedWalk.{path_found};

mod of_json;
mod of_toml;

pub use of_json::json_refused_path;
pub use of_toml::toml_refused_path;
use ptree::value::DocFormat;
use ptree_sources::parsed::{read_json, read_toml};
use std::alloc::{AllocError, Global};
use std::fmt;

/// A step from a list, an object or a table to a value in it.
#[derive(Debug, Drop)]
pub enum Step {
    /// To the value at this key.
    Key(String),

    /// To the element at this position, counted from 0.
    Position(usize),
}

impl fmt::Display for Step {
    fn fmt<W: fmt::Write>(&self, f: &mut fmt::Formatter<W>) -> fmt::Result {
        match self {
            Step::Key(key) => write!(f, "{key}"),
            Step::Position(n) => write!(f, "{n}"),
        }
    }
}

/// Returns the path to the first float, date or time in a document, for which the calls of
/// [`ptree::value`](ptree::value) refuse it. It is `None` if there is none, or if the text is no
/// document of its format.
///
/// The path has the steps from the top. The first is the one that a walk finds that goes through
/// lists in order, and through objects and tables in the order of their keys' bytes. It takes the
/// time of reading the text.
///
/// # Errors
///
/// Memory ran out.
pub fn refused_path(
    alloc: Global,
    format: DocFormat,
    text: &str,
) -> Result<Option<Vec<Step>>, AllocError>
    ensures { IfOk result (λ path. IsRefusedPath format text.now (option_map path_of path)) }
{
    match format {
        DocFormat::Json => match read_json(alloc, text)? {
            Some(value) => json_refused_path(alloc, &value),
            None => Ok(None),
        },
        DocFormat::Toml => match read_toml(alloc, text)? {
            Some(table) => toml_refused_path(alloc, &toml::Value::Table(table)),
            None => Ok(None),
        },
    }
}

// Returns the steps in the order from the top. A walk finds the last one first.
fn in_order(found: Option<Vec<Step>>) -> Option<Vec<Step>>
    ensures { option_map path_of result ≡ option_map path_found found }
{
    match found {
        Some(mut steps) => {
            steps.reverse();
            Some(steps)
        }
        None => None,
    }
}
