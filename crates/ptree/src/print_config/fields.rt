//! The fields of a configuration: their names in variables and in files, and the values they
//! accept.
ghost use Rattle.std.specs.Prelude.{◌≡◌, option_copied};
ghost use Rattle.ptree.specs.Fields.{variable_name, field_key, style_key, table_key, part_key, kind_of};
ghost use Rattle.ptree.specs.declared.print_config.fields.Field.{Field};
ghost use Rattle.ptree.specs.declared.print_config.fields.Part.{Part};

use std::fmt;

/// A part of a drawing that has a style of its own.
#[derive(Debug, Clone, Copy, PartialEq, Eq)]
pub enum Part {
    /// The branches.
    Branch,

    /// The items' texts.
    Leaf,
}

impl Part {
    /// Returns the key of the part's table in a file.
    pub fn key(self) -> &'static str
        ensures { result.now ≡ part_key self }
    {
        match self {
            Part::Branch => "branch",
            Part::Leaf => "leaf",
        }
    }
}

/// A field of a style.
#[derive(Debug, Clone, Copy, PartialEq, Eq)]
pub enum StyleField {
    /// The colour of the text.
    Foreground,

    /// The colour behind the text.
    Background,

    /// Whether the text is bold.
    Bold,

    /// Whether the text is dimmed.
    Dimmed,

    /// Whether the text is italic.
    Italic,

    /// Whether the text is underlined.
    Underline,

    /// Whether the text blinks.
    Blink,

    /// Whether the two colours are exchanged.
    Reverse,

    /// Whether the text is hidden.
    Hidden,

    /// Whether the text is struck through.
    Strikethrough,
}

/// A field of a configuration that sources can set.
#[derive(Debug, Clone, Copy, PartialEq, Eq)]
pub enum Field {
    /// The greatest level that is drawn.
    Depth,

    /// The width of a piece in characters.
    Indent,

    /// How many of these characters are padding.
    Padding,

    /// When output is styled.
    Styled,

    /// The characters, by the name of a shipped set.
    Characters,

    /// The character that points down and right.
    DownAndRight,

    /// The character that points straight down.
    Down,

    /// The character that turns from down to right.
    TurnRight,

    /// The character that points right.
    Right,

    /// The character of columns without a branch, and of the padding.
    Empty,

    /// A field of the style of a part.
    Paint(Part, StyleField),

    /// The marker before further lines.
    Continued,
}

// The values that a field accepts.
#[derive(Clone, Copy)]
pub(crate) enum Kind {
    // A whole number, at most this one.
    Whole(u64),

    // When output is styled.
    When,

    // The name of a set of characters; in a file, also a table of characters.
    Set,

    // Any text.
    Text,

    // A colour.
    Color,

    // True or false.
    Flag,
}

impl fmt::Display for Kind {
    fn fmt<W: fmt::Write>(&self, f: &mut fmt::Formatter<W>) -> fmt::Result {
        f.write_str(match self {
            Kind::Whole(greatest) => return write!(f, "a whole number up to {greatest}"),
            Kind::When => "never, always or tty",
            Kind::Set => "a set of characters",
            Kind::Text => "a text",
            Kind::Color => "a colour",
            Kind::Flag => "true or false",
        })
    }
}

/// All fields, in the order in which faults are looked for.
pub const FIELDS: [Field; 31] = [
    Field::Depth,
    Field::Indent,
    Field::Padding,
    Field::Styled,
    Field::Characters,
    Field::DownAndRight,
    Field::Down,
    Field::TurnRight,
    Field::Right,
    Field::Empty,
    Field::Paint(Part::Branch, StyleField::Foreground),
    Field::Paint(Part::Branch, StyleField::Background),
    Field::Paint(Part::Branch, StyleField::Bold),
    Field::Paint(Part::Branch, StyleField::Dimmed),
    Field::Paint(Part::Branch, StyleField::Italic),
    Field::Paint(Part::Branch, StyleField::Underline),
    Field::Paint(Part::Branch, StyleField::Blink),
    Field::Paint(Part::Branch, StyleField::Reverse),
    Field::Paint(Part::Branch, StyleField::Hidden),
    Field::Paint(Part::Branch, StyleField::Strikethrough),
    Field::Paint(Part::Leaf, StyleField::Foreground),
    Field::Paint(Part::Leaf, StyleField::Background),
    Field::Paint(Part::Leaf, StyleField::Bold),
    Field::Paint(Part::Leaf, StyleField::Dimmed),
    Field::Paint(Part::Leaf, StyleField::Italic),
    Field::Paint(Part::Leaf, StyleField::Underline),
    Field::Paint(Part::Leaf, StyleField::Blink),
    Field::Paint(Part::Leaf, StyleField::Reverse),
    Field::Paint(Part::Leaf, StyleField::Hidden),
    Field::Paint(Part::Leaf, StyleField::Strikethrough),
    Field::Continued,
];

// All fields of a style.
pub(crate) const STYLE_FIELDS: [StyleField; 10] = [
    StyleField::Foreground,
    StyleField::Background,
    StyleField::Bold,
    StyleField::Dimmed,
    StyleField::Italic,
    StyleField::Underline,
    StyleField::Blink,
    StyleField::Reverse,
    StyleField::Hidden,
    StyleField::Strikethrough,
];

impl Field {
    /// Returns the name of the field's variable. Sources may spell it in any ASCII case.
    pub fn variable(self) -> &'static str
        ensures { result.now ≡ variable_name self }
    {
        match self {
            Field::Depth => "PTREE_DEPTH",
            Field::Indent => "PTREE_INDENT",
            Field::Padding => "PTREE_PADDING",
            Field::Styled => "PTREE_STYLED",
            Field::Characters => "PTREE_CHARACTERS",
            Field::DownAndRight => "PTREE_CHARACTERS_DOWN_AND_RIGHT",
            Field::Down => "PTREE_CHARACTERS_DOWN",
            Field::TurnRight => "PTREE_CHARACTERS_TURN_RIGHT",
            Field::Right => "PTREE_CHARACTERS_RIGHT",
            Field::Empty => "PTREE_CHARACTERS_EMPTY",
            Field::Paint(part, field) => style_variable(part, field),
            Field::Continued => "PTREE_CONTINUED",
        }
    }

    /// Returns the field's key in a file. If [`Field::table`] names a table, the key is in that
    /// table.
    pub fn key(self) -> &'static str
        ensures { result.now ≡ field_key self }
    {
        match self {
            Field::Depth => "depth",
            Field::Indent => "indent",
            Field::Padding => "padding",
            Field::Styled => "styled",
            Field::Characters => "characters",
            Field::DownAndRight => "down_and_right",
            Field::Down => "down",
            Field::TurnRight => "turn_right",
            Field::Right => "right",
            Field::Empty => "empty",
            Field::Paint(_, field) => style_key(field),
            Field::Continued => "continued",
        }
    }

    /// Returns the key of the table that holds the field, if there is one.
    pub fn table(self) -> Option<&'static str>
        ensures { option_copied result ≡ table_key self }
    {
        match self {
            Field::DownAndRight | Field::Down | Field::TurnRight | Field::Right | Field::Empty =>
                Some("characters"),
            Field::Paint(part, _) => Some(part.key()),
            _ => None,
        }
    }

    // Returns what the field accepts.
    pub(crate) fn kind(self) -> Kind
        ensures { result ≡ kind_of self }
    {
        match self {
            Field::Depth => Kind::Whole(u32::MAX as u64),
            Field::Indent | Field::Padding => Kind::Whole(u64::MAX),
            Field::Styled => Kind::When,
            Field::Characters => Kind::Set,
            Field::DownAndRight
            | Field::Down
            | Field::TurnRight
            | Field::Right
            | Field::Empty
            | Field::Continued => Kind::Text,
            Field::Paint(_, StyleField::Foreground | StyleField::Background) => Kind::Color,
            Field::Paint(_, _) => Kind::Flag,
        }
    }
}

// Returns the key of a field of a style.
fn style_key(field: StyleField) -> &'static str
    ensures { result.now ≡ style_key field }
{
    match field {
        StyleField::Foreground => "foreground",
        StyleField::Background => "background",
        StyleField::Bold => "bold",
        StyleField::Dimmed => "dimmed",
        StyleField::Italic => "italic",
        StyleField::Underline => "underline",
        StyleField::Blink => "blink",
        StyleField::Reverse => "reverse",
        StyleField::Hidden => "hidden",
        StyleField::Strikethrough => "strikethrough",
    }
}

// Returns the variable of a field of the style of a part.
fn style_variable(part: Part, field: StyleField) -> &'static str
    ensures { result.now ≡ variable_name (Field.Paint part field) }
{
    let (branch, leaf) = match field {
        StyleField::Foreground => ("PTREE_BRANCH_FOREGROUND", "PTREE_LEAF_FOREGROUND"),
        StyleField::Background => ("PTREE_BRANCH_BACKGROUND", "PTREE_LEAF_BACKGROUND"),
        StyleField::Bold => ("PTREE_BRANCH_BOLD", "PTREE_LEAF_BOLD"),
        StyleField::Dimmed => ("PTREE_BRANCH_DIMMED", "PTREE_LEAF_DIMMED"),
        StyleField::Italic => ("PTREE_BRANCH_ITALIC", "PTREE_LEAF_ITALIC"),
        StyleField::Underline => ("PTREE_BRANCH_UNDERLINE", "PTREE_LEAF_UNDERLINE"),
        StyleField::Blink => ("PTREE_BRANCH_BLINK", "PTREE_LEAF_BLINK"),
        StyleField::Reverse => ("PTREE_BRANCH_REVERSE", "PTREE_LEAF_REVERSE"),
        StyleField::Hidden => ("PTREE_BRANCH_HIDDEN", "PTREE_LEAF_HIDDEN"),
        StyleField::Strikethrough => ("PTREE_BRANCH_STRIKETHROUGH", "PTREE_LEAF_STRIKETHROUGH"),
    };
    match part {
        Part::Branch => branch,
        Part::Leaf => leaf,
    }
}
