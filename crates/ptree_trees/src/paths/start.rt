//! The beginning that the first names of paths share.
ghost use Rattle.std.specs.Prelude.{◌≡◌, ◌≢◌, ◌<◌, ◌≤◌, ◌++◌, ℕ, drop, get_or, length, take};
ghost use Rattle.std.specs.Str.{IsCharBoundary};
ghost use Rattle.ptree_trees.specs.SharedStart.{AllStart};

use crate::paths::cut::CutPath;

// Returns a text with which all paths begin, within their first names, so that the keys of these
// need not hold it: the longest one of whole characters, or none if the first name is whole in its
// key.
#[inline(never)]
pub fn shared_start<'a>(paths: &[&'a str], separator: char) -> &'a str
    requires { separator < 128 }
    ensures { AllStart separator result.now paths.now }
{
    let Some(first) = paths.first() else {
        return "";
    };
    let mut start = CutPath::new(first, separator, 0).name;
    if start.len() <= 7 {
        return "";
    }
    for path in paths {
        if start.is_empty() {
            return start;
        }
        start = shared(start, path);
    }
    start
}

// Returns the longest text of whole characters with which both texts begin.
fn shared<'a>(a: &'a str, b: &str) -> &'a str
    ensures first { a.now ≡ result.now ++ drop (length result.now) a.now }
    ensures second { b.now ≡ result.now ++ drop (length result.now) b.now }
    ensures longest { (i : ℕ) → length result.now < i → i ≤ length a.now
        → take i a.now ≡ take i b.now → ¬ (IsCharBoundary a.now i) }
{
    let (start, _) = a.split_at(a.floor_char_boundary(same_bytes(a.as_bytes(), b.as_bytes())));
    start
}

// Returns how many bytes two texts have in common at their beginning.
fn same_bytes(a: &[u8], b: &[u8]) -> usize
    ensures bound { result ≤ length a.now }
    ensures same { take result a.now ≡ take result b.now }
    ensures differ { result < length a.now → result < length b.now
        → get_or a.now result 0 ≢ get_or b.now result 0 }
{
    let mut end = 0;
    while end < a.len() && end < b.len() && a[end] == b[end] {
        end += 1;
    }
    end
}
