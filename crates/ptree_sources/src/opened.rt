//! The result of opening and reading a file.
ghost use Rattle.ptree_sources.specs.Opened.{IsSource};

use ptree::print_config::FileSource;

/// The result of opening and reading the file at a path.
#[derive(Drop)]
pub enum Opened {
    /// There is no such file.
    Missing,

    /// It is not a regular file, or it cannot be opened or read.
    Refused,

    /// The file's bytes.
    Read(Vec<u8>),
}

impl Opened {
    /// Returns the source that the file at a path is, or `None` if there is no such file.
    pub fn source(self, path: &str) -> Option<FileSource>
        ensures { IsSource path.now self result }
    {
        let bytes = match self {
            Opened::Missing => return None,
            Opened::Refused => return Some(FileSource::Unreadable),
            Opened::Read(bytes) => bytes,
        };
        let Ok(text) = String::from_utf8(bytes) else {
            return Some(FileSource::Unreadable);
        };
        if path.as_bytes().ends_with(b".json") {
            Some(FileSource::Json(text))
        } else {
            Some(FileSource::Toml(text))
        }
    }
}
