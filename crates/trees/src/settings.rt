//! Says which settings hold, where each comes from, and what is wrong with the sources.
ghost use Rattle.std.specs.Prelude.{◌≡◌, ◌++◌, ℕ, List, codes, is_some, option_map, IfOk, OnOk, string_bytes};
ghost use Rattle.ptree.specs.Color.{color_of};
ghost use Rattle.ptree.specs.Config.{config_of};
ghost use Rattle.ptree.specs.Fields.{all_fields};
ghost use Rattle.ptree.specs.Loading.{first_fault, effective_config};
ghost use Rattle.ptree.specs.Style.{style_of};
ghost use Rattle.trees.specs.Reading.{Adds};
ghost use Rattle.trees.specs.Settings.{setting_name, when_word, quoted, IsColorText, IsStyleText, IsValueText, IsSettingLine, SaysSettings};

use crate::suggest::Nearest;
use ptree::print_config::{
    FIELDS, Fault, Field, Part, PrintConfig, Sources, Spelling, StyleField, StyleWhen, faults,
    last_value, load,
};
use ptree::style::{Color, Style};
use ptree_sources::settings::{
    Entry, Warning, allowed, entries, fault_line, warnings, wrong_value,
};
use ptree_sources::surroundings::Surroundings;
use ptree_trees::escape::escaped;
use std::alloc::{AllocError, Global};

/// The settings of a call: their sources, the path of the file, and what they mean.
#[derive(Drop)]
pub struct Settings {
    pub sources: Sources,
    pub path: Option<String>,
    pub config: PrintConfig,

    /// Whether the sources have a fault. Then the configuration is the default.
    pub has_fault: bool,
    ghost loaded: { config_of config ≡ effective_config sources },
}

impl Settings {
    /// Loads the configuration of what surrounds a call.
    ///
    /// # Errors
    ///
    /// Memory ran out.
    pub fn load(alloc: Global, found: Surroundings) -> Result<Settings, AllocError> {
        let Surroundings { sources, path } = found;
        let (config, has_fault) = match load(alloc, &sources)? {
            Some(config) => (config, false),
            None => (PrintConfig::default(alloc)?, true),
        };
        Ok(Settings {
            sources,
            path,
            config,
            has_fault,
        })
    }
}

/// What is said of the settings, and whether the sources have faults.
#[derive(Drop)]
pub struct Report {
    pub text: String,
    pub has_faults: bool,
}

/// Returns the path of the file, the faults, the warnings, and each setting with where it comes
/// from.
///
/// # Errors
///
/// Memory ran out.
pub fn describe(alloc: Global, found: &Settings) -> Result<Report, AllocError>
    ensures faults { IfOk result (λ report.
        report.has_faults ≡ is_some (first_fault found.now.sources)) }
    ensures settings { IfOk result (λ report.
        SaysSettings (effective_config found.now.sources) (string_bytes report.text)) }
{
    let mut text = String::new(alloc);
    match &found.path {
        Some(path) => writeln!(text, "file: {}", escaped(alloc, path.as_str())?)?,
        None => text.push_str("file: none\n")?,
    }
    let faults = faults(alloc, &found.sources)?;
    for fault in &faults {
        push_fault(alloc, &mut text, found, *fault)?;
    }
    for warning in &warnings(alloc, &found.sources)? {
        push_warning(alloc, &mut text, warning)?;
    }
    let has_faults = !faults.is_empty();
    if has_faults {
        text.push_str("configuration ignored because of these errors; using defaults\n")?;
    }
    push_settings(alloc, &mut text, found, has_faults)?;
    Ok(Report { text, has_faults })
}

// Adds a fault: its place, the value that is there, and what may stand there.
fn push_fault(
    alloc: Global,
    text: &mut String,
    found: &Settings,
    fault: Fault,
) -> Result<(), AllocError> {
    text.push_str("error: ")?;
    if let Some(line) = fault_line(alloc, &found.sources.file, fault)? {
        write!(text, "line {line}: ")?;
    }
    writeln!(text, "{fault}")?;
    if let Some(value) = wrong_value(alloc, &found.sources, fault)? {
        writeln!(text, "  value: {}", escaped(alloc, value.as_str())?)?;
    }
    match fault {
        Fault::Variable(field) | Fault::Key(field) => {
            writeln!(text, "  expected: {}", allowed(field))
        }
        Fault::Table(_) => text.push_str("  expected: a table of colours and flags\n"),
        Fault::Unreadable | Fault::Syntax => Ok(()),
    }
}

// Adds a warning, and the name that may be meant.
fn push_warning(alloc: Global, text: &mut String, warning: &Warning) -> Result<(), AllocError> {
    let said = format!(in alloc; "{warning}")?;
    write!(text, "warning: {}", escaped(alloc, said.as_str())?)?;
    let meant = match warning {
        Warning::Variable(name) => nearest_variable(name.as_str()),
        _ => None,
    };
    match meant {
        Some(name) => writeln!(text, "; did you mean {name}?"),
        None => text.push_str("\n"),
    }
}

// Returns the variable of a field whose name has the fewest differences.
fn nearest_variable(name: &str) -> Option<&'static str> {
    let mut nearest = Nearest::to(name);
    for field in FIELDS {
        nearest.try_word(field.variable());
    }
    nearest.word
}

// Adds each setting, and where it comes from.
fn push_settings(
    alloc: Global,
    text: &mut String,
    found: &Settings,
    has_faults: bool,
) -> Result<(), AllocError>
    ensures { OnOk result (Adds (IsSettingLine (effective_config found.now.sources)) all_fields
        (string_bytes text.old) (string_bytes text.new)) }
{
    let entries = entries(alloc, &found.sources.file)?;
    let known = Known {
        found,
        entries: entries.as_slice(),
        has_faults,
    };
    push_fields(alloc, text, &found.config, known, &FIELDS)
}

// What says where settings come from.
#[derive(Clone, Copy)]
struct Known<'a> {
    found: &'a Settings,
    entries: &'a [Entry],
    has_faults: bool,
}

// Adds the settings of some fields.
fn push_fields(
    alloc: Global,
    text: &mut String,
    config: &PrintConfig,
    known: Known<'_>,
    fields: &[Field],
) -> Result<(), AllocError>
    ensures { OnOk result (Adds (IsSettingLine (config_of config.now)) fields.now
        (string_bytes text.old) (string_bytes text.new)) }
{
    for field in fields {
        push_field(alloc, text, config, known, *field)?;
    }
    Ok(())
}

// Adds the setting of a field. The set of characters has none, since they have theirs.
fn push_field(
    alloc: Global,
    text: &mut String,
    config: &PrintConfig,
    known: Known<'_>,
    field: Field,
) -> Result<(), AllocError>
    ensures { OnOk result ((line : List ℕ)
        × (string_bytes text.new ≡ string_bytes text.old ++ line)
        × IsSettingLine (config_of config.now) field line) }
{
    if field == Field::Characters {
        return Ok(());
    }
    push_setting(alloc, text, config, field)?;
    push_origin(text, field, known)?;
    Ok(())
}

// Adds the name of a setting, and its value.
fn push_setting(
    alloc: Global,
    text: &mut String,
    config: &PrintConfig,
    field: Field,
) -> Result<(), AllocError>
    ensures { OnOk result ((value : List ℕ) × IsValueText (config_of config.now) field value
        × (string_bytes text.new ≡ string_bytes text.old
        ++ (setting_name field ++ (codes ": " ++ value)))) }
{
    push_name(text, field)?;
    let value = value_text(alloc, config, field)?;
    write!(text, ": {value}")?;
    Ok(())
}

// Adds the name of a setting.
fn push_name(text: &mut String, field: Field) -> Result<(), AllocError>
    ensures { OnOk result
        (string_bytes text.new ≡ string_bytes text.old ++ setting_name field) }
{
    let key = field.key();
    match field.table() {
        Some(table) => write!(text, "{table}.{key}"),
        None => text.push_str(key),
    }
}

// Adds where a setting comes from.
fn push_origin(text: &mut String, field: Field, known: Known<'_>) -> Result<(), AllocError>
    ensures { OnOk result ((origin : List ℕ) × (string_bytes text.new
        ≡ string_bytes text.old ++ (codes " (" ++ (origin ++ codes ")\n")))) }
{
    match origin_of(field, known) {
        Origin::Variable(name) => writeln!(text, " (variable {name})"),
        Origin::File => text.push_str(" (file)\n"),
        Origin::Default => text.push_str(" (default)\n"),
    }
}

// Where a setting comes from.
#[derive(Clone, Copy)]
enum Origin {
    Variable(&'static str),
    File,
    Default,
}

// Returns where the setting of a field comes from: if a source has a fault, from none.
fn origin_of(field: Field, known: Known<'_>) -> Origin {
    if known.has_faults {
        return Origin::Default;
    }
    if has_variable(field, known.found) {
        return Origin::Variable(field.variable());
    }
    if field.table() == Some("characters") {
        if has_variable(Field::Characters, known.found) {
            return Origin::Variable(Field::Characters.variable());
        }
        if has_key(Field::Characters, known.entries) {
            return Origin::File;
        }
    }
    if has_key(field, known.entries) {
        return Origin::File;
    }
    Origin::Default
}

// Whether there is a variable of a field.
fn has_variable(field: Field, found: &Settings) -> bool {
    last_value(
        Spelling::AnyCase,
        field.variable(),
        &found.sources.variables,
    )
    .is_some()
}

// Whether there is a key of a field.
fn has_key(field: Field, entries: &[Entry]) -> bool {
    for entry in entries {
        let table = match &entry.table {
            Some(table) => Some(table.as_str()),
            None => None,
        };
        if table == field.table() && entry.key.as_str() == field.key() {
            return true;
        }
    }
    false
}

// Returns the text of a setting.
fn value_text(alloc: Global, config: &PrintConfig, field: Field) -> Result<String, AllocError>
    ensures { IfOk result (λ value.
        IsValueText (config_of config.now) field (string_bytes value)) }
{
    match field {
        Field::Depth => format!(in alloc; "{}", config.depth),
        Field::Indent => format!(in alloc; "{}", config.indent),
        Field::Padding => format!(in alloc; "{}", config.padding),
        Field::Styled => String::from_str(alloc, when_word(config.styled)),
        Field::Characters => Ok(String::new(alloc)),
        Field::DownAndRight => quoted(alloc, &config.characters.down_and_right),
        Field::Down => quoted(alloc, &config.characters.down),
        Field::TurnRight => quoted(alloc, &config.characters.turn_right),
        Field::Right => quoted(alloc, &config.characters.right),
        Field::Empty => quoted(alloc, &config.characters.empty),
        Field::Continued => quoted(alloc, &config.continued),
        Field::Paint(Part::Branch, field) => style_text(alloc, &config.branch, field),
        Field::Paint(Part::Leaf, field) => style_text(alloc, &config.leaf, field),
    }
}

// Returns the word for when output is styled.
fn when_word(when: StyleWhen) -> &'static str
    ensures { result.now ≡ when_word when }
{
    match when {
        StyleWhen::Never => "never",
        StyleWhen::Always => "always",
        StyleWhen::Tty => "tty",
    }
}

// Returns a text between quotes, escaped.
fn quoted(alloc: Global, text: &String) -> Result<String, AllocError>
    ensures { IfOk result (λ said. string_bytes said ≡ quoted (string_bytes text.now)) }
{
    let text = escaped(alloc, text.as_str())?;
    format!(in alloc; "\"{text}\"")
}

// Returns the text of a field of a style.
fn style_text(alloc: Global, style: &Style, field: StyleField) -> Result<String, AllocError>
    ensures { IfOk result (λ value.
        IsStyleText (style_of style.now) field (string_bytes value)) }
{
    let flag = match field {
        StyleField::Foreground => return color_text(alloc, &style.foreground),
        StyleField::Background => return color_text(alloc, &style.background),
        StyleField::Bold => style.bold,
        StyleField::Dimmed => style.dimmed,
        StyleField::Italic => style.italic,
        StyleField::Underline => style.underline,
        StyleField::Blink => style.blink,
        StyleField::Reverse => style.reverse,
        StyleField::Hidden => style.hidden,
        StyleField::Strikethrough => style.strikethrough,
    };
    format!(in alloc; "{flag}")
}

// Returns the text of a colour.
fn color_text(alloc: Global, color: &Option<Color>) -> Result<String, AllocError>
    ensures { IfOk result (λ value.
        IsColorText (option_map color_of color.now) (string_bytes value)) }
{
    match color {
        None => String::from_str(alloc, "none"),
        Some(Color::Fixed(n)) => format!(in alloc; "{n}"),
        Some(Color::RGB(r, g, b)) => format!(in alloc; "[{r}, {g}, {b}]"),
        Some(Color::Named(name)) => escaped(alloc, name.as_str()),
        Some(other) => format!(in alloc; "{other:?}"),
    }
}
