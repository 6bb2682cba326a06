//! Patterns of the paths of workspaces. Each part of one is a name, `*`, or at the end `**`.

use crate::deps::npm::entry::is_name;
use serde_json::Value;

/// Returns a pattern without `./` before it and a slash around it, if it is one that is read.
pub fn plain(pattern: &Value) -> Option<&str> {
    let text = pattern.as_str()?;
    let text = text.strip_prefix("./").unwrap_or(text);
    let text = text.strip_prefix('/').unwrap_or(text);
    let text = text.strip_suffix('/').unwrap_or(text);
    let above = text.strip_suffix("/**").unwrap_or(text);
    if text == "**" || above.split('/').all(|part| is_part(part)) {
        Some(text)
    } else {
        None
    }
}

// Whether a part of a pattern is `*`, or a name that means itself.
fn is_part(part: &str) -> bool {
    let globs = ['*', '?', '[', ']', '{', '}', '(', ')', '!', '\\'];
    part == "*" || is_name(part) && !part.contains(globs)
}

/// Whether a pattern means a path that is not of the project, nor of what is in a `node_modules`.
pub fn means(pattern: &str, path: &str) -> bool {
    is_alike(pattern, path)
        && path
            .split('/')
            .all(|name| name != "" && name != "node_modules")
}

// Whether a path is as a pattern, part for part.
fn is_alike(pattern: &str, path: &str) -> bool {
    let mut names = path.split('/');
    for part in pattern.split('/') {
        if part == "**" {
            return names.all(|name| !name.starts_with('.'));
        }
        match names.next() {
            Some(name) if part == name || part == "*" && !name.starts_with('.') => {}
            _ => return false,
        }
    }
    names.next().is_none()
}
