//! Items of a caller's own types.
ghost use Rattle.std.specs.Prelude.{IfOk, map, string_bytes};
ghost use Rattle.ptree.specs.Drawing.{written_look, IsDrawing};
ghost use Rattle.ptree.specs.Item.{root_shape};
ghost use Rattle.examples.specs.OwnTypes.{folder_shape, halved_shape};

use ptree::item::{Children, LentItem, MadeItem, Root, Text};
use ptree::output::{tree_bytes, tree_text};
use ptree::print_config::PrintConfig;
use std::alloc::{AllocError, Global};

/// A folder of folders.
#[derive(Drop)]
pub struct Folder {
    pub name: String,
    pub folders: Vec<Folder>,
}

impl LentItem for Folder {
    ghost use Rattle.std.specs.Prelude.{string_bytes};
    ghost use Rattle.examples.specs.declared.own_types.Folder.{out-Folder};

    ghost text_of = { λ f. string_bytes (out-Folder f).name };

    ghost below_of = { λ f. (out-Folder f).folders.items };

    fn text(&self) -> &str {
        self.name.as_str()
    }

    fn below(&self) -> &[Folder] {
        self.folders.as_slice()
    }
}

/// A volume, whose children are folders: a root of another type than what is below it.
#[derive(Drop)]
pub struct Volume {
    pub title: String,
    pub folders: Vec<Folder>,
}

/// A list of so many elements that is sorted by merging, over its two halves.
#[derive(Debug, Clone, Copy)]
pub struct Halved(pub u32);

impl MadeItem for Halved {
    ghost use Rattle.std.specs.Prelude.{ℕ, [], ◌∷◌, ◌/◌, ◌-◌, nat_lt, if◌then◌else◌, decimal};

    ghost Seen = { ℕ };

    ghost seen = { λ h. h.0 };

    ghost text_of = { decimal };

    ghost below_of = { λ n. if nat_lt n 2 then [] else n / 2 ∷ (n - n / 2) ∷ [] };

    fn text(&self, alloc: Global) -> Result<Text<'_>, AllocError> {
        Ok(Text::Made(self.0.to_string(alloc)?))
    }

    fn below(&self, alloc: Global) -> Result<Children<'_, Halved>, AllocError> {
        let len = self.0;
        if len < 2 {
            return Ok(Children::Lent(&[]));
        }
        let halves = vec![in alloc; Halved(len / 2), Halved(len - len / 2)]?;
        Ok(Children::Made(halves))
    }
}

/// The drawing of a volume.
pub fn drawing_of_volume(
    alloc: Global,
    volume: &Volume,
    config: &PrintConfig,
) -> Result<Vec<u8>, AllocError>
    ensures { IfOk result (λ v. IsDrawing (written_look config.now)
        (root_shape (string_bytes volume.now.title) (map folder_shape volume.now.folders.items))
        config.now.depth v.items) }
{
    let root = Root {
        text: volume.title.as_str(),
        children: volume.folders.as_slice(),
    };
    tree_bytes(alloc, &root, config)
}

/// The drawing of a folder: of its own name and folders.
pub fn drawing_of_folder(
    alloc: Global,
    folder: &Folder,
    config: &PrintConfig,
) -> Result<Vec<u8>, AllocError>
    ensures { IfOk result (λ v.
        IsDrawing (written_look config.now) (folder_shape folder.now) config.now.depth v.items) }
{
    tree_bytes(alloc, folder, config)
}

/// The same as a text: a folder's name is UTF-8, and so is what is drawn of names.
pub fn text_of_folder(
    alloc: Global,
    folder: &Folder,
    config: &PrintConfig,
) -> Result<String, AllocError>
    ensures { IfOk result (λ s. IsDrawing (written_look config.now) (folder_shape folder.now)
        config.now.depth (string_bytes s)) }
{
    match tree_text(alloc, folder, config)? {
        Some(text) => Ok(text),
        None => unreachable!(),
    }
}

/// The drawing of a list that is halved: of its length's digits, down to single elements.
pub fn drawing_of_halved(
    alloc: Global,
    halved: Halved,
    config: &PrintConfig,
) -> Result<Vec<u8>, AllocError>
    ensures { IfOk result (λ v.
        IsDrawing (written_look config.now) (halved_shape halved.0) config.now.depth v.items) }
{
    tree_bytes(alloc, &halved, config)
}
