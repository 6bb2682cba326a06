//! Looks fields up: in the variables, and in the document of the file.
ghost use Rattle.std.specs.Prelude.{◌≡◌, option_map, option_copied, unwrap_or, is_some, IfOk};
ghost use Rattle.std.specs.List.{list_any};
ghost use Rattle.ptree.specs.Characters.{characters_of};
ghost use Rattle.ptree.specs.Color.{color_of};
ghost use Rattle.ptree.specs.Config.{config_of};
ghost use Rattle.ptree.specs.Fields.{all_style_fields, HasEach};
ghost use Rattle.ptree.specs.Lent.{document_of, node_of, given_of, lent_characters_of};
ghost use Rattle.ptree.specs.Loading.{whole, when, set, text, color, flag, characters, is_dimmed, loaded_style, configuration};
ghost use Rattle.ptree.specs.Sources.{variables_of, last_value, file_document, given_by, variable, table_at, node};
ghost use Rattle.ptree.specs.Style.{style_of};
ghost use Rattle.ptree.specs.declared.print_config.fields.Field.{Field};

use crate::parsed::{Parsed, ParsedPart};
use crate::print_config::fields::{Field, Part, STYLE_FIELDS, StyleField};
use crate::print_config::lent::{LentChars, set_node};
use crate::print_config::parse::{
    Spelling, parse_color, parse_flag, parse_number, parse_set, parse_when,
};
use crate::print_config::{
    DEFAULT_INDENT, DEFAULT_MARKER, DEFAULT_PADDING, IndentChars, PrintConfig, Sources, StyleWhen,
    UTF_CHARS,
};
use crate::style::{Color, Style};
use std::alloc::{AllocError, Global};

// What is looked into: the variables, and the document of the file.
#[derive(Clone, Copy)]
pub(crate) struct Given<'a> {
    variables: &'a [(String, String)],
    document: Option<ParsedPart<'a>>,
}

impl<'a> Given<'a> {
    // Returns what the sources give, with the document of their file.
    pub(crate) fn of(sources: &'a Sources, read: &'a Option<Parsed>) -> Given<'a>
        requires { option_map document_of read.now ≡ file_document sources.now.file }
        ensures { given_of result ≡ given_by sources.now }
    {
        Given {
            variables: &sources.variables,
            document: match read {
                Some(document) => Some(document.top()),
                None => None,
            },
        }
    }

    // Returns the text of a field's variable.
    #[tactic(auto, unfolding(crate::specs::Sources::variable))]
    pub(crate) fn variable(&self, field: Field) -> Option<&'a str>
        ensures { option_copied result ≡ variable (given_of self.now) field }
    {
        last_value(Spelling::AnyCase, field.variable(), self.variables)
    }

    // Returns the top of the document, or its table of this key.
    #[tactic(auto, unfolding(crate::specs::Sources::table_at))]
    pub(crate) fn table_at(&self, key: Option<&str>) -> Option<ParsedPart<'a>>
        ensures { option_map node_of result
            ≡ table_at (given_of self.now) (option_copied key.entry) }
    {
        match key {
            None => self.document,
            Some(key) => self.document?.get(key),
        }
    }

    // Returns the value at a field's key.
    #[tactic(auto, unfolding(crate::specs::Sources::node))]
    pub(crate) fn node(&self, field: Field) -> Option<ParsedPart<'a>>
        ensures { option_map node_of result ≡ node (given_of self.now) field }
    {
        self.table_at(field.table())?.get(field.key())
    }

    // Returns the value of a field that accepts whole numbers up to `greatest`.
    fn whole(&self, greatest: u64, field: Field) -> Option<u64>
        ensures { result ≡ whole greatest (given_of self.now) field }
    {
        if let Some(value) = self.variable(field) {
            if let Some(n) = parse_number(greatest, value) {
                return Some(n);
            }
        }
        self.node(field)?.as_whole(greatest)
    }

    // Returns the value of a field that says when to style.
    fn when(&self, field: Field) -> Option<StyleWhen>
        ensures { result ≡ when (given_of self.now) field }
    {
        if let Some(value) = self.variable(field) {
            if let Some(when) = parse_when(Spelling::AnyCase, value) {
                return Some(when);
            }
        }
        self.node(field)?.as_when()
    }

    // Returns the value of a field that accepts any text.
    fn text(&self, field: Field) -> Option<&'a str>
        ensures { option_copied result ≡ text (given_of self.now) field }
    {
        if let Some(value) = self.variable(field) {
            return Some(value);
        }
        self.node(field)?.as_text()
    }

    // Returns the value of a field that accepts a colour.
    fn color(&self, alloc: Global, field: Field) -> Result<Option<Color>, AllocError>
        ensures { IfOk result (λ found.
            option_map color_of found ≡ color (given_of self.now) field) }
    {
        if let Some(value) = self.variable(field) {
            return Ok(Some(parse_color(alloc, value)?));
        }
        match self.node(field) {
            Some(value) => value.as_color(alloc),
            None => Ok(None),
        }
    }

    // Returns the value of a field that accepts true or false.
    fn flag(&self, field: Field) -> Option<bool>
        ensures { result ≡ flag (given_of self.now) field }
    {
        if let Some(value) = self.variable(field) {
            if let Some(on) = parse_flag(value) {
                return Some(on);
            }
        }
        self.node(field)?.as_flag()
    }

    // Returns the style of a part.
    #[tactic(auto, unfolding(crate::specs::Loading::loaded_style))]
    fn style(&self, alloc: Global, part: Part) -> Result<Style, AllocError>
        ensures { IfOk result (λ style. style_of style ≡ loaded_style (given_of self.now) part) }
    {
        let dimmed = self.is_dimmed(part);
        Ok(Style {
            foreground: self.color(alloc, Field::Paint(part, StyleField::Foreground))?,
            background: self.color(alloc, Field::Paint(part, StyleField::Background))?,
            bold: self.is_set(part, StyleField::Bold, false),
            dimmed: self.is_set(part, StyleField::Dimmed, dimmed),
            italic: self.is_set(part, StyleField::Italic, false),
            underline: self.is_set(part, StyleField::Underline, false),
            blink: self.is_set(part, StyleField::Blink, false),
            reverse: self.is_set(part, StyleField::Reverse, false),
            hidden: self.is_set(part, StyleField::Hidden, false),
            strikethrough: self.is_set(part, StyleField::Strikethrough, false),
        })
    }

    // Returns a flag of a part's style.
    fn is_set(&self, part: Part, field: StyleField, default: bool) -> bool
        ensures { result ≡ unwrap_or (flag (given_of self.now) (Field.Paint part field)) default }
    {
        self.flag(Field::Paint(part, field)).unwrap_or(default)
    }

    // Whether a part is dimmed if no source says so.
    fn is_dimmed(&self, part: Part) -> bool
        ensures dimmed { result ≡ is_dimmed (given_of self.now) part }
        ensures each { HasEach all_style_fields }
    {
        match part {
            Part::Branch => {
                self.table_at(Some(part.key())).is_none() && !self.has_variable(part, &STYLE_FIELDS)
            }
            Part::Leaf => false,
        }
    }

    // Whether there is a variable of one of these fields of a part.
    fn has_variable(&self, part: Part, fields: &[StyleField]) -> bool
        ensures { result
            ≡ list_any (λ f. is_some (variable (given_of self.now) (Field.Paint part f)))
            fields.now }
    {
        for field in fields {
            if self.variable(Field::Paint(part, *field)).is_some() {
                return true;
            }
        }
        false
    }

    // Returns the value of a field that accepts a set of characters.
    fn set(&self, field: Field) -> Option<LentChars<'a>>
        ensures { option_map lent_characters_of result ≡ set (given_of self.now) field }
    {
        if let Some(value) = self.variable(field) {
            if let Some(set) = parse_set(Spelling::AnyCase, value) {
                return Some(LentChars::of(set));
            }
        }
        set_node(self.node(field)?)
    }

    // Returns the characters.
    #[tactic(auto, unfolding(crate::specs::Loading::characters))]
    fn characters(&self, alloc: Global) -> Result<IndentChars, AllocError>
        ensures { IfOk result (λ chars. characters_of chars ≡ characters (given_of self.now)) }
    {
        let base = self
            .set(Field::Characters)
            .unwrap_or(LentChars::of(&UTF_CHARS));
        IndentChars::from_texts(
            alloc,
            self.character(Field::DownAndRight, base.down_and_right),
            self.character(Field::Down, base.down),
            self.character(Field::TurnRight, base.turn_right),
            self.character(Field::Right, base.right),
            self.character(Field::Empty, base.empty),
        )
    }

    // Returns a single character: the value of its variable, or else `other`.
    fn character(&self, field: Field, other: &'a str) -> &'a str
        ensures { result.now ≡ unwrap_or (variable (given_of self.now) field) other.now }
    {
        self.variable(field).unwrap_or(other)
    }

    // Returns the configuration, with each field by itself.
    #[tactic(auto, unfolding(crate::specs::Loading::configuration))]
    pub(crate) fn configuration(&self, alloc: Global) -> Result<PrintConfig, AllocError>
        ensures { IfOk result (λ config.
            config_of config ≡ configuration (given_of self.now)) }
    {
        Ok(PrintConfig {
            depth: self
                .whole(u32::MAX as u64, Field::Depth)
                .unwrap_or(u32::MAX as u64) as u32,
            indent: self
                .whole(u64::MAX, Field::Indent)
                .unwrap_or(DEFAULT_INDENT as u64) as usize,
            padding: self
                .whole(u64::MAX, Field::Padding)
                .unwrap_or(DEFAULT_PADDING as u64) as usize,
            styled: self.when(Field::Styled).unwrap_or(StyleWhen::Tty),
            continued: String::from_str(
                alloc,
                self.text(Field::Continued).unwrap_or(DEFAULT_MARKER),
            )?,
            characters: self.characters(alloc)?,
            branch: self.style(alloc, Part::Branch)?,
            leaf: self.style(alloc, Part::Leaf)?,
        })
    }
}

/// Returns the last value of a variable.
pub fn last_value<'a>(
    spelling: Spelling,
    name: &str,
    variables: &'a [(String, String)],
) -> Option<&'a str>
    ensures { option_copied result ≡ last_value spelling name.now (variables_of variables.now) }
{
    for variable in variables.iter().rev() {
        if spelling.is(variable.0.as_str(), name) {
            return Some(variable.1.as_str());
        }
    }
    None
}
