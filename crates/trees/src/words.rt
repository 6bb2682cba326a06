//! Reads the words of a call: the command, its options and its files.
ghost use Rattle.std.specs.Prelude.{ℕ, [], IfOk, MatchOption};
ghost use Rattle.ptree_trees.specs.Indented.{IsUnit};
ghost use Rattle.trees.specs.Documents.{IsNumber};
ghost use Rattle.trees.specs.Outlining.{text_or, IsRightBullet, HasRightOptions};
ghost use Rattle.trees.specs.Words.{NamesInputOnce};

use crate::command::{
    Command, Convert, Deps, Diff, Document, Drawing, Indented, Outline, Paths, Tree,
};
use crate::names::{CommandName, Opt};
use crate::pieces::Pieces;
use crate::screen::Screen;
use crate::source::Source;
use crate::usage::Usage;
use ptree::print_config::StyleWhen;
use ptree_trees::indented::is_line_text;
use std::alloc::Global;

// The greatest unit, of 99 blanks.
const BLANKS: &str =
    "                                                                                                   ";

/// The words of a call, told apart.
#[derive(Drop)]
pub struct Words<'a> {
    /// The command.
    pub name: CommandName,

    given: Vec<(Opt, &'a str)>,

    // The files, of which `-` is standard input.
    files: Vec<&'a str>,
    ghost once: { NamesInputOnce files.items },
}

impl<'a> Words<'a> {
    /// Tells the words of a call apart. The first one is a command, or a file that one is known
    /// for.
    ///
    /// A value stands in the same word behind `=`, or is the next word. Behind `--` each word is a
    /// file. Without a file it is standard input, except of `config`.
    ///
    /// # Errors
    ///
    /// If there is no such command, or it has no such option, or a value is missing or too much, or
    /// standard input is named twice, and `Memory`.
    pub fn parse(alloc: Global, words: &'a [String]) -> Result<Words<'a>, Usage<'a>> {
        let (name, others) = split_command(words)?;
        let mut call = Words {
            name,
            given: Vec::new(alloc),
            files: Vec::new(alloc),
        };
        call.push_words(others)?;
        if call.files.is_empty() && name != CommandName::Config {
            call.push_file("-")?;
        }
        Ok(call)
    }

    // Takes the words behind the command.
    fn push_words(&mut self, words: &'a [String]) -> Result<(), Usage<'a>> {
        let mut waiting = None;
        let mut only_files = false;
        for word in words {
            let word = word.as_str();
            if let Some(option) = waiting {
                self.given.push((option, word))?;
                waiting = None;
            } else if only_files || !word.starts_with('-') || word == "-" {
                self.push_file(word)?;
            } else if word == "--" {
                only_files = true;
            } else {
                waiting = self.push_option(word)?;
            }
        }
        if let Some(option) = waiting {
            return Err(Usage::NoValue(option));
        }
        Ok(())
    }

    // Takes a file. Standard input can be read only once.
    fn push_file(&mut self, word: &'a str) -> Result<(), Usage<'a>> {
        if word == "-" && self.files.contains(&"-") {
            return Err(Usage::InputTwice);
        }
        self.files.push(word)?;
        Ok(())
    }

    // Takes an option's word. Returns the option if its value is the next word.
    fn push_option(&mut self, word: &'a str) -> Result<Option<Opt>, Usage<'a>> {
        let (name, value) = match word.split_once('=') {
            Some((name, value)) => (name, Some(value)),
            None => (word, None),
        };
        let option = match Opt::named(name) {
            Some(option) if self.name.takes(option) => option,
            _ => return Err(Usage::Option(self.name, name)),
        };
        match value {
            Some(value) if option.takes_value() => self.given.push((option, value))?,
            Some(_) => return Err(Usage::Value(name)),
            None if option.takes_value() => return Ok(Some(option)),
            None => self.given.push((option, ""))?,
        }
        Ok(None)
    }

    // Returns the value of an option. If it is given several times, the last one counts.
    fn value(&self, option: Opt) -> Option<&'a str> {
        let mut last = None;
        for (given, value) in &self.given {
            if *given == option {
                last = Some(*value);
            }
        }
        last
    }

    /// Whether an option is given.
    pub fn has(&self, option: Opt) -> bool {
        self.value(option).is_some()
    }

    /// Returns the paths of the inputs, of which `-` is standard input.
    pub fn inputs(&self) -> &[&'a str]
        ensures { NamesInputOnce result.now }
    {
        self.files.as_slice()
    }

    /// Returns the command, over these inputs and for this screen.
    ///
    /// # Errors
    ///
    /// If the number of inputs is not the command's, or an option has no such value.
    pub fn command(&self, sources: &'a [Source], screen: Screen) -> Result<Command<'a>, Usage<'a>> {
        match (self.name, sources) {
            (CommandName::Json, [file]) => self.draw(file, Tree::Json(self.document()), screen),
            (CommandName::Toml, [file]) => self.draw(file, Tree::Toml(self.document()), screen),
            (CommandName::Deps, [file]) => self.deps(file, screen),
            (CommandName::Paths, [file]) => self.draw(file, Tree::Paths(self.paths()), screen),
            (CommandName::Outline, [file]) => self.outline(file, screen),
            (CommandName::Indented, [file]) => Ok(Command::Indented(file, self.indented(screen)?)),
            (CommandName::Check, _) => Ok(Command::Check(sources, self.pieces(Opt::As)?, screen)),
            (CommandName::Convert, [file]) => self.convert(file, screen),
            (CommandName::Diff, [left, right]) => self.diff(left, right, screen),
            (CommandName::Diff, _) => Err(Usage::TwoFiles),
            (CommandName::Config, []) => Ok(Command::Config),
            (CommandName::Config, _) => Err(Usage::ConfigFile),
            _ => Err(Usage::OneFile),
        }
    }

    // Returns a command that draws a tree.
    fn draw(
        &self,
        source: &'a Source,
        tree: Tree<'a>,
        screen: Screen,
    ) -> Result<Command<'a>, Usage<'a>> {
        Ok(Command::Draw(source, tree, self.drawing(Opt::As, screen)?))
    }

    // Returns the options of `json` and `toml`.
    fn document(&self) -> Document<'a> {
        Document {
            at: self.value(Opt::At),
            label: self.value(Opt::Label),
            is_strict: self.has(Opt::Strict),
        }
    }

    // Returns the options of `paths`.
    fn paths(&self) -> Paths<'a> {
        Paths {
            ends_in_zero: self.has(Opt::Null),
            is_sorted: self.has(Opt::Sort),
            keep: self.value(Opt::Keep),
            label: self.value(Opt::Label),
        }
    }

    // Returns the command `outline`.
    fn outline(&self, source: &'a Source, screen: Screen) -> Result<Command<'a>, Usage<'a>> {
        let drawing = self.drawing(Opt::As, screen)?;
        let unit = match self.value(Opt::Unit) {
            Some(word) => Some(parse_unit(word)?),
            None => None,
        };
        let label = self.value(Opt::Label);
        if !is_line_text(label.unwrap_or("")) {
            return Err(Usage::Label);
        }
        let outline = Outline {
            unit,
            bullet: self.bullet()?,
            label,
        };
        Ok(Command::Draw(source, Tree::Outline(outline), drawing))
    }

    // Returns the command `deps`.
    fn deps(&self, source: &'a Source, screen: Screen) -> Result<Command<'a>, Usage<'a>> {
        let deps = Deps {
            root: self.value(Opt::Root),
            is_inverse: self.has(Opt::Inverse),
            walks: self.has(Opt::Walks),
        };
        Ok(Command::Deps(source, deps, self.drawing(Opt::As, screen)?))
    }

    // Returns the options of `indented`.
    fn indented(&self, screen: Screen) -> Result<Indented<'a>, Usage<'a>>
        ensures { IfOk result HasRightOptions }
    {
        Ok(Indented {
            pieces: self.pieces(Opt::As)?,
            unit: parse_unit(self.value(Opt::Unit).unwrap_or("2"))?,
            bullet: self.bullet()?,
            is_terminal: screen.is_terminal,
        })
    }

    // Returns the command `convert`.
    fn convert(&self, source: &'a Source, screen: Screen) -> Result<Command<'a>, Usage<'a>> {
        let convert = Convert {
            pieces: self.pieces(Opt::As)?,
            drawing: self.drawing(Opt::To, screen)?,
            keep: self.value(Opt::Keep),
            is_sorted: self.has(Opt::Sort),
        };
        Ok(Command::Convert(source, convert))
    }

    // Returns the command `diff`. No depth of the settings hides a difference.
    fn diff(
        &self,
        left: &'a Source,
        right: &'a Source,
        screen: Screen,
    ) -> Result<Command<'a>, Usage<'a>> {
        let mut drawing = self.drawing(Opt::As, screen)?;
        drawing.depth = Some(u32::MAX);
        let diff = Diff {
            shows_all: self.has(Opt::All),
            drawing,
        };
        Ok(Command::Diff(left, right, diff))
    }

    // Returns how a drawing is written, with the pieces that an option names.
    fn drawing(&self, pieces: Opt, screen: Screen) -> Result<Drawing, Usage<'a>> {
        Ok(Drawing {
            pieces: self.pieces(pieces)?,
            depth: self.depth()?,
            styled: self.styled()?,
            screen,
        })
    }

    // Returns the pieces that an option names.
    fn pieces(&self, option: Opt) -> Result<Option<Pieces>, Usage<'a>> {
        let Some(name) = self.value(option) else {
            return Ok(None);
        };
        match Pieces::named(name) {
            Some(pieces) => Ok(Some(pieces)),
            None => Err(Usage::Pieces(name)),
        }
    }

    // Returns what stands before the text of each line.
    fn bullet(&self) -> Result<Option<&'a str>, Usage<'a>>
        ensures { IfOk result (λ bullet. IsRightBullet (text_or bullet [])) }
    {
        match self.value(Opt::Bullet) {
            Some(word) if !is_line_text(word) || word.ends_with('\r') => Err(Usage::Bullet),
            bullet => Ok(bullet),
        }
    }

    // Returns the greatest level that is drawn.
    fn depth(&self) -> Result<Option<u32>, Usage<'a>> {
        let Some(word) = self.value(Opt::Depth) else {
            return Ok(None);
        };
        match number(word) {
            Some(depth) if depth <= u32::MAX as usize => Ok(Some(depth as u32)),
            _ => Err(Usage::Depth(word)),
        }
    }

    // Returns when a drawing is coloured.
    fn styled(&self) -> Result<Option<StyleWhen>, Usage<'a>> {
        match self.value(Opt::Color) {
            None => Ok(None),
            Some("auto") => Ok(Some(StyleWhen::Tty)),
            Some("always") => Ok(Some(StyleWhen::Always)),
            Some("never") => Ok(Some(StyleWhen::Never)),
            Some(word) => Err(Usage::Color(word)),
        }
    }
}

// Returns the unit that a word names: `tab`, or a number of blanks up to 99.
fn parse_unit(word: &str) -> Result<&'static str, Usage<'static>>
    ensures { IfOk result (λ unit. IsUnit unit.now) }
{
    if word == "tab" {
        return Ok("\t");
    }
    match number(word) {
        Some(n) if 0 < n => match BLANKS.get(..n) {
            Some(unit) => Ok(unit),
            None => Err(Usage::Unit),
        },
        _ => Err(Usage::Unit),
    }
}

/// Returns the number that a word of digits says. Any other word says none, as one with a sign.
pub fn number(word: &str) -> Option<usize>
    ensures { MatchOption result ((n : ℕ) → IsNumber word.now n → ⊥) (IsNumber word.now) }
{
    if word.starts_with('+') {
        return None;
    }
    word.parse::<usize>().ok()
}

// Returns the command that the first word names, and its words: those behind it, or all if the
// first one is a file.
fn split_command<'a>(words: &'a [String]) -> Result<(CommandName, &'a [String]), Usage<'a>> {
    let Some((first, others)) = words.split_first() else {
        return Err(Usage::NoCommand);
    };
    let first = first.as_str();
    if let Some(name) = CommandName::named(first) {
        return Ok((name, others));
    }
    match CommandName::of_file(first) {
        Some(name) => Ok((name, words)),
        None => Err(Usage::Command(first)),
    }
}
