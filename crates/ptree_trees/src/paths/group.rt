//! The paths with one first name.
ghost use Rattle.std.specs.Prelude.{◌≡◌};
ghost use Rattle.std.specs.Str.{bytes_eq};
ghost use Rattle.ptree_trees.specs.CutName.{AreBytes, name_key};

use crate::paths::key::KeyedCut;

// The paths with one first name: how many paths are before the first of them, and what follows the
// name in those that go on.
#[derive(Drop)]
pub struct Group<'a> {
    pub key: u64,
    pub name: &'a str,
    pub first: usize,
    pub tails: Vec<&'a str>,
    ghost keyed: { key ≡ name_key name.now },
    ghost bytes: { AreBytes name.now },
}

impl<'a> Group<'a> {
    // Returns whether a path has the group's name.
    pub fn has(&self, path: &KeyedCut<'_, '_>) -> bool
        ensures { result ≡ bytes_eq self.now.name.now path.now.cut.now.name.now }
    {
        if self.key != path.key {
            return false;
        }
        if self.key % 256 < 8 {
            return true;
        }
        self.name == path.cut.name
    }
}
