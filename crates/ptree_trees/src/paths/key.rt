//! Keys of names, by which most names compare without their bytes.
ghost use Rattle.std.specs.Prelude.{◌≡◌};
ghost use Rattle.std.specs.Cmp.Lexicographic.{slice_cmp};
ghost use Rattle.std.specs.Ordering.{nat_cmp};
ghost use Rattle.ptree_trees.specs.CutName.{AreBytes, name_key};

use crate::paths::cut::CutPath;
use std::cmp::Ordering;

// A cut path, and the key of its name.
#[derive(Clone, Copy, Drop)]
pub struct KeyedCut<'b, 'a> {
    // The name in a number: the number of a lesser name is not greater.
    pub key: u64,
    pub cut: &'b CutPath<'a>,
    ghost keyed: { key ≡ name_key cut.now.name.now },
    ghost bytes: { AreBytes cut.now.name.now },
}

impl<'b, 'a> KeyedCut<'b, 'a> {
    // Makes the key of a path's name.
    pub fn new(cut: &'b CutPath<'a>) -> KeyedCut<'b, 'a>
        ensures { result.cut.now ≡ cut.now }
    {
        KeyedCut {
            key: key_of(cut.name),
            cut,
        }
    }

    // Compares the names of two paths, by their bytes.
    pub fn cmp_name(&self, other: &KeyedCut<'_, '_>) -> Ordering
        ensures { result ≡ slice_cmp nat_cmp self.now.cut.now.name.now other.now.cut.now.name.now }
    {
        if self.key != other.key {
            return self.key.cmp(&other.key);
        }
        if self.key % 256 < 8 {
            return Ordering::Equal;
        }
        self.cut.name.cmp(other.cut.name)
    }
}

// Returns the key of a name.
fn key_of(name: &str) -> u64
    ensures key { result ≡ name_key name.now }
    ensures bytes { AreBytes name.now }
{
    let bytes = name.as_bytes();
    let mut key = 0;
    for i in 0..7 {
        key = key * 256 + u64::from(bytes.get(i).copied().unwrap_or(0));
    }
    key * 256 + bytes.len().min(8) as u64
}
