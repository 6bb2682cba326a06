//! The pages of help.

/// The version of the program.
pub const VERSION: &str = "trees 0.5.2\n";

/// The page of the program.
pub const TREES: &str = "\
trees draws trees as text, and checks, converts and compares such drawings.

usage: trees COMMAND [OPTION..] [FILE..]
       trees FILE.json | FILE.toml

FILE is a path; - or no FILE means standard input.

commands:
  json      draw a JSON document
  toml      draw a TOML document
  deps      draw the dependencies in a lock file, or in lines of two words
  paths     draw paths, as find and git ls-files print them
  outline   draw indented text
  indented  write a drawing as indented text
  check     check that texts are drawings, or show the first invalid line
  convert   redraw a drawing: with other pieces, sorted, or only a part
  diff      show the first difference between two drawings
  config    show the settings in use, and where each comes from

options of most commands:
  --depth N       draw at most N levels below the root
  --as PIECES     draw, or read a drawing, with these pieces
  --color WHEN    auto, always or never

PIECES is one of utf, utf-bold, utf-dashed, utf-double, ascii, ascii-plus, tree,
tree-ascii, cargo-tree, cargo-tree-ascii, findmnt, findmnt-ascii, sqlite, maven,
clang, ps.

trees COMMAND --help shows the options of a command.
exit status: 0 done; 1 error, not a drawing, or different; 2 usage error
";

/// The page of `json`.
pub const JSON: &str = "\
usage: trees json [--at KEY.KEY] [--strict] [--label TEXT] [--depth N] [--as PIECES]
                  [--color WHEN] [FILE]

Draws a JSON document. Floats are drawn as serde_json writes them.

  --at KEY.KEY  draw the part at these keys; in a list a key is a position, from 0
  --strict      fail if there is a float, and say where the first one is
  --label TEXT  the text of the root; by default the keys of --at, or the file's name
";

/// The page of `toml`.
pub const TOML: &str = "\
usage: trees toml [--at KEY.KEY] [--strict] [--label TEXT] [--depth N] [--as PIECES]
                  [--color WHEN] [FILE]

Draws a TOML document. Floats, dates and times are drawn as TOML writes them.

  --at KEY.KEY  draw the part at these keys; in a list a key is a position, from 0
  --strict      fail if there is a float, a date or a time, and say where the first one is
  --label TEXT  the text of the root; by default the keys of --at, or the file's name
";

/// The page of `deps`.
pub const DEPS: &str = "\
usage: trees deps [--root NAME] [--inverse] [--walks] [--depth N] [--as PIECES] [--color WHEN]
                  [FILE]

Draws the dependencies of each package once; (*) marks a package whose dependencies are drawn
above. FILE is a Cargo.lock, package-lock.json, npm-shrinkwrap.json, poetry.lock or uv.lock, or
has lines of two words, where the first needs the second, as go mod graph prints them.

  --root NAME   start at this package, b or b@2.0.0; by default at those that nothing needs
  --inverse     draw what needs each package
  --walks       draw a package's dependencies wherever it occurs; give a --depth too
";

/// The page of `paths`.
pub const PATHS: &str = "\
usage: trees paths [-0] [--sort] [--keep TEXT] [--label TEXT] [--depth N] [--as PIECES]
                   [--color WHEN] [FILE]

Draws paths, one on each line. Without --label, all or none of them begin with /.

  -0, --null    each path ends in a zero byte, as from find -print0 and git ls-files -z
  --sort        sort the names in each folder by their bytes
  --keep TEXT   draw only names that contain TEXT, and the folders above them
  --label TEXT  the text of the root; by default . or /
";

/// The page of `outline`.
pub const OUTLINE: &str = "\
usage: trees outline [--unit UNIT] [--bullet TEXT] [--label TEXT] [--depth N] [--as PIECES]
                     [--color WHEN] [FILE]

Draws indented text. The first line is the root; each level is indented by one more unit. Blank
lines are ignored.

  --unit UNIT    tab, or a number of spaces; by default the first indent in the text
  --bullet TEXT  what is before the text of each line; by default '- ', '* ' or '+ ' if the
                 first line begins with it
  --label TEXT   the text of a root above all lines; then several lines may have no indent
";

/// The page of `indented`.
pub const INDENTED: &str = "\
usage: trees indented [--unit UNIT] [--bullet TEXT] [--as PIECES] [FILE]

Writes a drawing as indented text. From that, outline with the same options draws the same tree;
if it would not, that is an error.

  --unit UNIT    tab, or a number of spaces; by default 2
  --bullet TEXT  what to write before each text, such as '- '
  --as PIECES    the pieces of the drawing; by default those of the settings
";

/// The page of `check`.
pub const CHECK: &str = "\
usage: trees check [--as PIECES] [FILE..]

Checks that texts are drawings. For one that is not, shows the first line that cannot continue
the drawing, and what is expected there or with which pieces the text is a drawing. The exit
status is 1 if a text is not a drawing, or a file cannot be read.

  --as PIECES   the pieces of the drawings; by default those of the settings
";

/// The page of `convert`.
pub const CONVERT: &str = "\
usage: trees convert [--as PIECES] [--to PIECES] [--sort] [--keep TEXT] [--depth N]
                     [--color WHEN] [FILE]

Redraws a drawing: with other pieces, sorted, or only a part.

  --as PIECES   the pieces of the drawing that is read; by default those of the settings
  --to PIECES   the pieces to draw with; by default those of the settings
  --sort        sort the children of each item by the bytes of their texts
  --keep TEXT   draw only items that contain TEXT, and the items above them
";

/// The page of `diff`.
pub const DIFF: &str = "\
usage: trees diff [--all] [--as PIECES] [--color WHEN] FILE FILE

Shows the first difference between two drawings: the items above it, and what each drawing has
there. Shows nothing if both draw the same tree. The exit status is 1 if they differ.

  --all         draw both in one tree: - marks what only the first has, + what only the second has
  --as PIECES   the pieces of both drawings; by default those of the settings
";

/// The page of `config`.
pub const CONFIG: &str = "\
usage: trees config

Shows the settings in use, and for each whether it comes from a variable, from the configuration
file, or is the default. Shows all errors in the configuration, each with the wrong value and
what is expected; then the exit status is 1. Warns of unknown variables, keys and colours.

PTREE_CONFIG names the file; by default it is ptree.toml or ptree.json in $XDG_CONFIG_HOME, or
else in ~/.config.
";
