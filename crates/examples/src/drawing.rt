//! Callers that draw.
ghost use Rattle.std.specs.Prelude.{◌≡◌, ◌++◌, [], ◌∷◌, true, IsOk};
ghost use Rattle.ptree.specs.Address.{Address};
ghost use Rattle.ptree.specs.Drawing.{config_look, written_look, own_at, prefix_text, entry_text};
ghost use Rattle.ptree.specs.Style.{painted_text};
ghost use Rattle.ptree.specs.Texts.{HasNoLineFeed, line_feed};
ghost use Rattle.ptree.specs.Tree.{tree_of, shape_of_tree};
ghost use Rattle.ptree.specs.Writing.{HasCause, IsDrawn, IsWritten, LeavesWholeEntries};
ghost use Rattle.ptree.specs.declared.print_config.OutputKind.{OutputKind};
ghost use Rattle.ptree.specs.declared.print_config.StyleWhen.{StyleWhen};

use crate::sinks::Through;
use ptree::item::StringItem;
use ptree::output::{print_tree_to, print_tree_with, write_tree_with};
use ptree::print_config::PrintConfig;
use ptree::style::{DrawError, Sink, TerminalSink, put_all};
use std::alloc::Global;

/// Draws to any sink. If memory runs out, the sink holds whole entries, so a reader can continue at
/// a line.
pub fn draw_whole_entries<W: Sink>(
    alloc: Global,
    tree: &StringItem,
    f: &mut W,
    config: &PrintConfig,
) -> Result<(), DrawError>
    ensures bytes { IsDrawn (written_look config.now) (shape_of_tree (tree_of tree.now))
        config.now.depth (W.contents f.old) (W.contents f.new) result }
    ensures whole { LeavesWholeEntries (written_look config.now) (shape_of_tree (tree_of tree.now))
        config.now.depth (W.contents f.old) (W.contents f.new) result }
    ensures cause { HasCause (W.faults f.old) (W.faults f.new) result }
{
    write_tree_with(alloc, tree, f, config)
}

/// Draws, and knows how the entry of each item looks whose text is one line.
pub fn draw_one_line_texts<W: Sink>(
    alloc: Global,
    tree: &StringItem,
    f: &mut W,
    config: &PrintConfig,
) -> Result<(), DrawError>
    ensures bytes { IsDrawn (written_look config.now) (shape_of_tree (tree_of tree.now))
        config.now.depth (W.contents f.old) (W.contents f.new) result }
    ensures cause { HasCause (W.faults f.old) (W.faults f.new) result }
    ensures one_line { let look = written_look config.now in
        let shape = shape_of_tree (tree_of tree.now) in
        (a : Address) → HasNoLineFeed (own_at look shape a)
        → entry_text look shape a
        ≡ painted_text look.branch (prefix_text look shape a) ++ own_at look shape a
        ++ line_feed ∷ [] }
{
    write_tree_with(alloc, tree, f, config)
}

/// Puts a text that may be empty. A sink is not touched for an empty one, so such a call cannot
/// fail.
pub fn put_text<W: Sink>(f: &mut W, text: &str) -> Result<(), DrawError>
    ensures bytes { IsWritten (W.contents f.old) (W.contents f.new) result text.now }
    ensures cause { HasCause (W.faults f.old) (W.faults f.new) result }
    ensures none { text.now ≡ [] → IsOk result × (f.new ≡ f.old) }
{
    put_all(f, text.as_bytes())
}

/// Prints with output that is never styled: the drawing is that for any other sink, even if this
/// one is a terminal. After an error the sink holds a prefix of it, and whole entries if memory ran
/// out.
pub fn print_unstyled<W: TerminalSink>(
    alloc: Global,
    tree: &StringItem,
    out: &mut W,
    config: &PrintConfig,
) -> Result<(), DrawError>
    requires { config.now.styled ≡ StyleWhen.Never }
    ensures bytes { IsDrawn (written_look config.now) (shape_of_tree (tree_of tree.now))
        config.now.depth (W.contents out.old) (W.contents out.new) result }
    ensures whole { LeavesWholeEntries (written_look config.now) (shape_of_tree (tree_of tree.now))
        config.now.depth (W.contents out.old) (W.contents out.new) result }
    ensures cause { HasCause (W.faults out.old) (W.faults out.new) result }
{
    print_tree_to(alloc, tree, out, config)
}

/// Prints to a sink that says that it is a terminal: the drawing is that for one.
pub fn print_to_terminal<W: Sink>(
    alloc: Global,
    tree: &StringItem,
    out: &mut Through<W>,
    config: &PrintConfig,
) -> Result<(), DrawError>
    ensures { IsDrawn (config_look config.now OutputKind.Stdout true)
        (shape_of_tree (tree_of tree.now)) config.now.depth
        (W.contents out.old.inner) (W.contents out.new.inner) result }
{
    print_tree_to(alloc, tree, out, config)
}

/// Prints to a terminal, or to anything else, as the caller says.
pub fn print_where<W: Sink>(
    alloc: Global,
    tree: &StringItem,
    out: &mut W,
    terminal: bool,
    config: &PrintConfig,
) -> Result<(), DrawError>
    ensures { IsDrawn (config_look config.now OutputKind.Stdout terminal)
        (shape_of_tree (tree_of tree.now)) config.now.depth
        (W.contents out.old) (W.contents out.new) result }
{
    print_tree_with(alloc, tree, out, terminal, config)
}
