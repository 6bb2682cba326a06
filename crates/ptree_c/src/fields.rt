//! Configurations and styles as C gives them: by their fields.
ghost use Rattle.std.specs.Prelude.{◌≡◌, ◌≤◌, ◌<◌, IfOk, IfErr, IsErrOf, IsOk, Err, option_map, string_bytes};
ghost use Rattle.ptree.specs.Characters.{characters_of};
ghost use Rattle.ptree.specs.Color.{color_of};
ghost use Rattle.ptree.specs.Config.{config_of};
ghost use Rattle.ptree.specs.Style.{style_of};
ghost use Rattle.ptree_c.specs.declared.refusal.Refusal.TheVariants.{Styled};
ghost use Rattle.ptree_c.specs.Fields.{part_text, color_value, is_set, style_value, characters_value, when_styled, config_value};
ghost use Rattle.ptree_c.specs.Refusals.{IsNamesRefusal, IsFieldsRefusal};

use crate::items::text_between;
use crate::refusal::Refusal;
use ptree::print_config::{IndentChars, StyleWhen};
use ptree::{Color, PrintConfig, Style};
use std::alloc::{AllocError, Global};

/// A text: what lies between two places of the texts that a call is given with it.
#[repr(C)]
#[derive(Clone, Copy)]
pub struct Part {
    /// Where the text begins.
    pub start: usize,

    /// Where the text ends.
    pub end: usize,
}

/// A colour, or none.
#[repr(C)]
#[derive(Clone, Copy)]
pub struct ColorFields {
    /// 0 for no colour; 1 to 8 for black, red, green, yellow, blue, purple, cyan and white; 9 for a
    /// number of the terminal's table; 10 for red, green and blue; 11 for a name.
    pub kind: u32,

    /// The byte of red. Of kind 9 the number.
    pub red: u8,

    /// The byte of green.
    pub green: u8,

    /// The byte of blue.
    pub blue: u8,

    /// The name.
    pub name: Part,
}

/// A style. A flag is set if it is not 0.
#[repr(C)]
#[derive(Clone, Copy)]
pub struct StyleFields {
    /// The colour of the text.
    pub foreground: ColorFields,

    /// The colour behind the text.
    pub background: ColorFields,

    /// Bold text.
    pub bold: u8,

    /// Dimmed text.
    pub dimmed: u8,

    /// Italic text.
    pub italic: u8,

    /// Underlined text.
    pub underline: u8,

    /// Blinking text.
    pub blink: u8,

    /// Text with its two colours exchanged.
    pub reverse: u8,

    /// Hidden text.
    pub hidden: u8,

    /// Struck-through text.
    pub strikethrough: u8,
}

/// The characters that branches are drawn with.
#[repr(C)]
#[derive(Clone, Copy)]
pub struct CharactersFields {
    /// Points down and right.
    pub down_and_right: Part,

    /// Points straight down.
    pub down: Part,

    /// Turns from down to right.
    pub turn_right: Part,

    /// Points right.
    pub right: Part,

    /// Fills a piece.
    pub empty: Part,
}

/// How a tree is drawn. The texts lie beside it.
#[repr(C)]
#[derive(Clone, Copy)]
pub struct ConfigFields {
    /// The greatest level that is drawn.
    pub depth: u32,

    /// When output is styled: 0 is never, 1 is always, and 2 is on a terminal, which no call of
    /// this library draws to.
    pub styled: u32,

    /// The width of a piece in characters, including the padding.
    pub indent: usize,

    /// How many copies of the character `empty` end a piece.
    pub padding: usize,

    /// The characters.
    pub characters: CharactersFields,

    /// The style of branches.
    pub branch: StyleFields,

    /// The style of items' texts.
    pub leaf: StyleFields,

    /// The marker before the further lines of a text.
    pub continued: Part,
}

/// The text of a part.
pub(crate) fn text_of_part(alloc: Global, texts: &[u8], part: Part) -> Result<String, Refusal>
    ensures text { IfOk result (λ text. string_bytes text ≡ part_text texts.now part) }
    ensures refused { IfErr result IsNamesRefusal }
{
    match text_between(alloc, texts, part.start, part.end, 0) {
        Ok(text) => Ok(text),
        Err(Refusal::Memory) => Err(Refusal::Memory),
        Err(_) => Err(Refusal::Part),
    }
}

// The colour of fields.
fn color_of_fields(
    alloc: Global,
    texts: &[u8],
    fields: ColorFields,
) -> Result<Option<Color>, Refusal>
    ensures color { IfOk result (λ color.
        option_map color_of color ≡ color_value texts.now fields) }
    ensures refused { IfErr result IsNamesRefusal }
{
    match fields.kind {
        0 => Ok(None),
        1 => Ok(Some(Color::Black)),
        2 => Ok(Some(Color::Red)),
        3 => Ok(Some(Color::Green)),
        4 => Ok(Some(Color::Yellow)),
        5 => Ok(Some(Color::Blue)),
        6 => Ok(Some(Color::Purple)),
        7 => Ok(Some(Color::Cyan)),
        8 => Ok(Some(Color::White)),
        9 => Ok(Some(Color::Fixed(fields.red))),
        10 => Ok(Some(Color::RGB(fields.red, fields.green, fields.blue))),
        11 => Ok(Some(Color::Named(text_of_part(alloc, texts, fields.name)?))),
        _ => Err(Refusal::Color),
    }
}

/// Whether a flag is set.
pub(crate) fn flag(number: u8) -> bool
    ensures { result ≡ is_set number }
{
    number != 0
}

/// The style of fields.
pub(crate) fn style_of_fields(
    alloc: Global,
    texts: &[u8],
    fields: &StyleFields,
) -> Result<Style, Refusal>
    ensures style { IfOk result (λ style. style_of style ≡ style_value texts.now fields.now) }
    ensures refused { IfErr result IsNamesRefusal }
{
    Ok(Style {
        foreground: color_of_fields(alloc, texts, fields.foreground)?,
        background: color_of_fields(alloc, texts, fields.background)?,
        bold: flag(fields.bold),
        dimmed: flag(fields.dimmed),
        italic: flag(fields.italic),
        underline: flag(fields.underline),
        blink: flag(fields.blink),
        reverse: flag(fields.reverse),
        hidden: flag(fields.hidden),
        strikethrough: flag(fields.strikethrough),
    })
}

// The characters of fields.
fn characters_of_fields(
    alloc: Global,
    texts: &[u8],
    fields: &CharactersFields,
) -> Result<IndentChars, Refusal>
    ensures characters { IfOk result (λ characters.
        characters_of characters ≡ characters_value texts.now fields.now) }
    ensures refused { IfErr result IsNamesRefusal }
{
    Ok(IndentChars {
        down_and_right: text_of_part(alloc, texts, fields.down_and_right)?,
        down: text_of_part(alloc, texts, fields.down)?,
        turn_right: text_of_part(alloc, texts, fields.turn_right)?,
        right: text_of_part(alloc, texts, fields.right)?,
        empty: text_of_part(alloc, texts, fields.empty)?,
    })
}

/// When output is styled, by a number.
pub(crate) fn styled(number: u32) -> Result<StyleWhen, Refusal>
    ensures ok { IfOk result (λ styled. styled ≡ when_styled number) }
    ensures known { number ≤ 2 → IsOk result }
    ensures refused { 2 < number → result ≡ Err Styled }
{
    match number {
        0 => Ok(StyleWhen::Never),
        1 => Ok(StyleWhen::Always),
        2 => Ok(StyleWhen::Tty),
        _ => Err(Refusal::Styled),
    }
}

/// The configuration of fields.
pub(crate) fn config_of_fields(
    alloc: Global,
    texts: &[u8],
    fields: &ConfigFields,
) -> Result<PrintConfig, Refusal>
    ensures value { IfOk result (λ config. config_of config ≡ config_value texts.now fields.now) }
    ensures refused { IfErr result (IsFieldsRefusal fields.now) }
    ensures styled { 2 < fields.now.styled → IsErrOf result Refusal.Styled }
{
    let styled = styled(fields.styled)?;
    let characters = characters_of_fields(alloc, texts, &fields.characters)?;
    let branch = style_of_fields(alloc, texts, &fields.branch)?;
    let leaf = style_of_fields(alloc, texts, &fields.leaf)?;
    let continued = text_of_part(alloc, texts, fields.continued);
    continued.map(|continued| PrintConfig {
        depth: fields.depth,
        indent: fields.indent,
        padding: fields.padding,
        styled,
        characters,
        branch,
        leaf,
        continued,
    })
}

/// The fields of a configuration, and its texts.
#[derive(Drop)]
pub(crate) struct Written {
    /// The fields.
    pub(crate) fields: ConfigFields,

    /// The texts, of which the fields have parts.
    pub(crate) names: Vec<u8>,
}

/// The fields of a configuration. They are read again, and compared with it.
pub(crate) fn fields_of_config(alloc: Global, config: &PrintConfig) -> Result<Written, AllocError>
    ensures { IfOk result (λ written.
        config_value written.names.items written.fields ≡ config_of config.now) }
{
    let mut names = Vec::new(alloc);
    let fields = write_config(&mut names, config)?;
    let Ok(again) = config_of_fields(alloc, &names, &fields) else {
        return Err(AllocError);
    };
    let is_same = again == *config;
    drop(again);
    if is_same {
        Ok(Written { fields, names })
    } else {
        Err(AllocError)
    }
}

// The fields of a configuration, whose texts are appended.
fn write_config(names: &mut Vec<u8>, config: &PrintConfig) -> Result<ConfigFields, AllocError> {
    Ok(ConfigFields {
        depth: config.depth,
        styled: match config.styled {
            StyleWhen::Never => 0,
            StyleWhen::Always => 1,
            StyleWhen::Tty => 2,
        },
        indent: config.indent,
        padding: config.padding,
        characters: write_characters(names, &config.characters)?,
        branch: write_style(names, &config.branch)?,
        leaf: write_style(names, &config.leaf)?,
        continued: write_part(names, config.continued.as_str())?,
    })
}

// The fields of characters.
fn write_characters(
    names: &mut Vec<u8>,
    characters: &IndentChars,
) -> Result<CharactersFields, AllocError> {
    Ok(CharactersFields {
        down_and_right: write_part(names, characters.down_and_right.as_str())?,
        down: write_part(names, characters.down.as_str())?,
        turn_right: write_part(names, characters.turn_right.as_str())?,
        right: write_part(names, characters.right.as_str())?,
        empty: write_part(names, characters.empty.as_str())?,
    })
}

// The fields of a style.
fn write_style(names: &mut Vec<u8>, style: &Style) -> Result<StyleFields, AllocError> {
    Ok(StyleFields {
        foreground: write_color(names, style.foreground.as_ref())?,
        background: write_color(names, style.background.as_ref())?,
        bold: style.bold as u8,
        dimmed: style.dimmed as u8,
        italic: style.italic as u8,
        underline: style.underline as u8,
        blink: style.blink as u8,
        reverse: style.reverse as u8,
        hidden: style.hidden as u8,
        strikethrough: style.strikethrough as u8,
    })
}

// The number of a colour's kind.
fn kind_of(color: Option<&Color>) -> u32 {
    match color {
        None => 0,
        Some(Color::Black) => 1,
        Some(Color::Red) => 2,
        Some(Color::Green) => 3,
        Some(Color::Yellow) => 4,
        Some(Color::Blue) => 5,
        Some(Color::Purple) => 6,
        Some(Color::Cyan) => 7,
        Some(Color::White) => 8,
        Some(Color::Fixed(_)) => 9,
        Some(Color::RGB(_, _, _)) => 10,
        Some(Color::Named(_)) => 11,
    }
}

// The bytes of a colour, which are 0 where it has none.
fn bytes_of(color: Option<&Color>) -> (u8, u8, u8) {
    match color {
        Some(Color::Fixed(number)) => (*number, 0, 0),
        Some(Color::RGB(red, green, blue)) => (*red, *green, *blue),
        _ => (0, 0, 0),
    }
}

// The fields of a colour.
fn write_color(names: &mut Vec<u8>, color: Option<&Color>) -> Result<ColorFields, AllocError> {
    let (red, green, blue) = bytes_of(color);
    let name = match color {
        Some(Color::Named(name)) => write_part(names, name.as_str())?,
        _ => Part { start: 0, end: 0 },
    };
    Ok(ColorFields {
        kind: kind_of(color),
        red,
        green,
        blue,
        name,
    })
}

// Appends a text, and returns where it is.
fn write_part(names: &mut Vec<u8>, text: &str) -> Result<Part, AllocError> {
    let start = names.len();
    names.extend_from_slice(text.as_bytes())?;
    Ok(Part {
        start,
        end: names.len(),
    })
}
