//! Draws notes on standard output and into a file, and reads the file's drawing back.

use ptree::TreeBuilder;
use ptree::item::StringItem;
use ptree::output::{print_tree_to, write_tree_with};
use ptree::print_config::PrintConfig;
use ptree::read::{ReadError, read_tree_or_line};
use ptree::style::Counted;
use std::alloc::{AllocError, Global};
use std::env;
use std::fs::{self, File};
use std::io::{self, ErrorKind};

fn notes(alloc: Global) -> Result<StringItem, AllocError> {
    let mut builder = TreeBuilder::new(alloc, String::from_str(alloc, "notes")?);
    builder
        .begin_child(String::from_str(alloc, "shopping\nby Friday")?)?
        .add_empty_child(String::from_str(alloc, "bread")?)?
        .end_child();
    builder.add_empty_child(String::from_str(alloc, "call home")?)?;
    builder.build()
}

// The tree that was drawn under the default configuration, whose pieces are known to be readable.
fn read(alloc: Global, text: &str) -> Result<StringItem, ReadError> {
    let config = PrintConfig::default(alloc)?;
    read_tree_or_line(alloc, text, &config)
}

/// Draws the notes on standard output and into the file that the first argument names, and reads
/// the file.
pub fn main(rt: HostRuntime) -> io::Result<()> {
    let alloc = rt.alloc();
    let Some(path) = env::args(&rt)?.nth(1) else {
        return Err(io::Error::from(ErrorKind::InvalidInput));
    };
    let notes = notes(alloc)?;
    let config = PrintConfig::default(alloc)?;

    let mut screen = Counted::new(rt.stdout());
    print_tree_to(alloc, &notes, &mut screen, &config)?;

    let mut file = Counted::new(File::create(&rt, path.as_str())?);
    write_tree_with(alloc, &notes, &mut file, &config)?;

    let text = fs::read_to_string(&rt, path.as_str())?;
    match read(alloc, text.as_str()) {
        Ok(read) => println!(rt; "read back: {} notes", read.children.len()),
        Err(e) => println!(rt; "{path}: {e}"),
    }
}
