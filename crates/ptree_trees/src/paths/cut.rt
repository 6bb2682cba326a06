//! Cuts paths behind their first names.
ghost use Rattle.std.specs.Prelude.{◌≡◌, ◌≢◌, ◌<◌, ◌≤◌, ◌∷◌, option_map, All, get_or, length, take};
ghost use Rattle.ptree_trees.specs.Paths.{names};
ghost use Rattle.ptree_trees.specs.CutName.{tail_names};

// A path, cut behind its first name.
#[derive(Clone, Copy, Drop)]
pub struct CutPath<'a> {
    pub name: &'a str,
    // What follows the first separator, if there is one.
    pub tail: Option<&'a str>,
    // How many paths are before this one.
    pub index: usize,
}

impl<'a> CutPath<'a> {
    // Cuts a path behind its first name.
    pub fn new(path: &'a str, separator: char, index: usize) -> CutPath<'a>
        requires { separator < 128 }
        ensures names { names separator path.now
            ≡ result.name.now ∷ tail_names separator (option_map (λ t. t.now) result.tail) }
        ensures index { result.index ≡ index }
    {
        let (name, rest) = path.split_at(name_end(path, separator));
        CutPath {
            name,
            tail: rest.get(1..),
            index,
        }
    }
}

// Returns where the first separator is, or the length of a path without one.
fn name_end(path: &str, separator: char) -> usize
    requires { separator < 128 }
    ensures bound { result ≤ length path.now }
    ensures before { All (λ b. b ≢ separator) (take result path.now) }
    ensures found { result < length path.now → get_or path.now result 0 ≡ separator }
{
    let mut end = 0;
    for b in path.as_bytes() {
        if u32::from(*b) == separator as u32 {
            return end;
        }
        end += 1;
    }
    end
}
