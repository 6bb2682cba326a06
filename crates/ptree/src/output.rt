//! Pieces, and the calls that draw.
ghost use Rattle.std.specs.Prelude.{Bool, false, List, ℕ, IfOk, IfSome, IfNone, IsSome, string_bytes};
ghost use Rattle.std.specs.Str.{IsUtf8};
ghost use Rattle.ptree.specs.Loading.{effective_config};
ghost use Rattle.ptree.specs.Writing.{HasCause, IsDrawn, LeavesWholeEntries};
ghost use Rattle.ptree.specs.Drawing.{look_by, config_look, written_look, IsDrawing};
ghost use Rattle.ptree.specs.Laws.{HasOneList, HasCuts, HasTreeCuts, HasSubtrees, HasOneLineEntries};
ghost use Rattle.ptree.specs.Tree.{tree_of, shape_of_tree};
ghost use Rattle.ptree.specs.Utf8.{HasUtf8Texts};

pub(crate) mod brush;
pub(crate) mod engine;
pub(crate) mod feeds;
pub(crate) mod indent;
mod line;
pub(crate) mod look;
pub(crate) mod pen;
pub(crate) mod place;
mod writer;

use crate::item::{StringItem, TreeItem};
use crate::print_config::{OutputKind, PrintConfig, Sources};
use crate::sink::buffered::Buffered;
use crate::sink::{Counted, DrawError, Sink, TerminalSink};
use engine::{Drawn, Top, draw};
pub use indent::Indent;
use look::Look;
use std::alloc::{AllocError, Global};
pub use writer::{ItemError, ItemWriter};

// Draws to output of a kind. `terminal` says whether standard output is a terminal.
pub(crate) fn draw_for<D: Drawn, W: Sink>(
    alloc: Global,
    root: &D,
    f: &mut W,
    output_kind: OutputKind,
    terminal: bool,
    config: &PrintConfig,
) -> Result<(), DrawError>
    ensures bytes { IsDrawn (config_look config.now output_kind terminal)
        (D.shape_to root.now config.now.depth) config.now.depth (W.contents f.old)
        (W.contents f.new) result }
    ensures whole { LeavesWholeEntries (config_look config.now output_kind terminal)
        (D.shape_to root.now config.now.depth) config.now.depth (W.contents f.old)
        (W.contents f.new) result }
    ensures cause { HasCause (W.faults f.old) (W.faults f.new) result }
{
    let look = Look::of_config(alloc, config, output_kind, terminal)?;
    draw(alloc, root, f, look, config.depth)
}

// Draws to output of a kind, under the configuration that sources denote.
fn draw_by_sources<T, W>(
    alloc: Global,
    item: &T,
    f: &mut W,
    output_kind: OutputKind,
    terminal: bool,
    sources: &Sources,
) -> Result<(), DrawError>
where
    T: TreeItem,
    T::Child: TreeItem<Child = T::Child> + Drop,
    W: Sink,
    ensures bytes { let effective = effective_config sources.now in
        IsDrawn (look_by effective output_kind terminal) (T.shape item.now) effective.depth
        (W.contents f.old) (W.contents f.new) result }
    ensures whole { let effective = effective_config sources.now in
        LeavesWholeEntries (look_by effective output_kind terminal) (T.shape item.now)
        effective.depth (W.contents f.old) (W.contents f.new) result }
    ensures cause { HasCause (W.faults f.old) (W.faults f.new) result }
{
    let config = PrintConfig::from_env(alloc, sources)?;
    let drawn = draw_for(alloc, &Top(item), f, output_kind, terminal, &config);
    drop(config);
    drawn
}

/// Draws as [`print_tree_with`], under the configuration that sources denote
/// ([`PrintConfig::from_env`]).
///
/// # Errors
///
/// Those of [`print_tree_with`].
pub fn print_tree<T, W>(
    alloc: Global,
    item: &T,
    out: &mut W,
    terminal: bool,
    sources: &Sources,
) -> Result<(), DrawError>
where
    T: TreeItem,
    T::Child: TreeItem<Child = T::Child> + Drop,
    W: Sink,
    // Success appends exactly the drawing under what the sources denote, and an error a prefix of
    // it.
    ensures bytes { let effective = effective_config sources.now in
        IsDrawn (look_by effective OutputKind.Stdout terminal) (T.shape item.now) effective.depth
        (W.contents out.old) (W.contents out.new) result }
    // If memory ran out, whole entries were appended.
    ensures whole { let effective = effective_config sources.now in
        LeavesWholeEntries (look_by effective OutputKind.Stdout terminal) (T.shape item.now)
        effective.depth (W.contents out.old) (W.contents out.new) result }
    ensures cause { HasCause (W.faults out.old) (W.faults out.new) result }
{
    draw_by_sources(alloc, item, out, OutputKind::Stdout, terminal, sources)
}

/// Draws as [`write_tree_with`], but to standard output. `terminal` says whether that is a
/// terminal.
///
/// # Errors
///
/// Those of [`write_tree_with`].
pub fn print_tree_with<T, W>(
    alloc: Global,
    item: &T,
    out: &mut W,
    terminal: bool,
    config: &PrintConfig,
) -> Result<(), DrawError>
where
    T: TreeItem,
    T::Child: TreeItem<Child = T::Child> + Drop,
    W: Sink,
    // Success appends exactly the drawing, and an error a prefix of it.
    ensures bytes { IsDrawn (config_look config.now OutputKind.Stdout terminal) (T.shape item.now)
        config.now.depth (W.contents out.old) (W.contents out.new) result }
    // If memory ran out, whole entries were appended.
    ensures whole { LeavesWholeEntries (config_look config.now OutputKind.Stdout terminal)
        (T.shape item.now) config.now.depth (W.contents out.old) (W.contents out.new) result }
    ensures cause { HasCause (W.faults out.old) (W.faults out.new) result }
{
    draw_for(alloc, &Top(item), out, OutputKind::Stdout, terminal, config)
}

/// Draws as [`print_tree_with`] to a sink that says whether it is a terminal, as
/// `Counted::new(rt.stdout())` does.
///
/// # Errors
///
/// Those of [`write_tree_with`].
pub fn print_tree_to<T, W>(
    alloc: Global,
    item: &T,
    out: &mut W,
    config: &PrintConfig,
) -> Result<(), DrawError>
where
    T: TreeItem,
    T::Child: TreeItem<Child = T::Child> + Drop,
    W: TerminalSink,
    // Success appends exactly the drawing, and an error a prefix of it: as on a terminal or not, as
    // the sink answers.
    ensures bytes { (terminal : Bool) × W.may_answer out.old terminal
        × IsDrawn (config_look config.now OutputKind.Stdout terminal) (T.shape item.now)
        config.now.depth (W.contents out.old) (W.contents out.new) result }
    // If memory ran out, whole entries were appended.
    ensures whole { (terminal : Bool) × W.may_answer out.old terminal
        × LeavesWholeEntries (config_look config.now OutputKind.Stdout terminal) (T.shape item.now)
        config.now.depth (W.contents out.old) (W.contents out.new) result }
    ensures cause { HasCause (W.faults out.old) (W.faults out.new) result }
{
    let terminal = out.is_terminal();
    print_tree_with(alloc, item, out, terminal, config)
}

/// Draws as [`write_tree_with`], under the configuration that sources denote
/// ([`PrintConfig::from_env`]).
///
/// # Errors
///
/// Those of [`write_tree_with`].
pub fn write_tree<T, W>(
    alloc: Global,
    item: &T,
    f: &mut W,
    sources: &Sources,
) -> Result<(), DrawError>
where
    T: TreeItem,
    T::Child: TreeItem<Child = T::Child> + Drop,
    W: Sink,
    // Success appends exactly the drawing under what the sources denote, and an error a prefix of
    // it.
    ensures bytes { let effective = effective_config sources.now in
        IsDrawn (look_by effective OutputKind.Unknown false) (T.shape item.now) effective.depth
        (W.contents f.old) (W.contents f.new) result }
    // If memory ran out, whole entries were appended.
    ensures whole { let effective = effective_config sources.now in
        LeavesWholeEntries (look_by effective OutputKind.Unknown false) (T.shape item.now)
        effective.depth (W.contents f.old) (W.contents f.new) result }
    ensures cause { HasCause (W.faults f.old) (W.faults f.new) result }
{
    draw_by_sources(alloc, item, f, OutputKind::Unknown, false, sources)
}

/// Draws an item and all below it, down to the configured depth, to a sink that is not standard
/// output.
///
/// Time grows with the bytes of the drawing. It takes memory for one entry and for a call a level,
/// beside what the items take; it puts each entry at once.
///
/// # Errors
///
/// `Write` or `Zero` if `f` failed, and `Memory`. A prefix of the drawing was written; if memory
/// ran out, whole entries.
pub fn write_tree_with<T, W>(
    alloc: Global,
    item: &T,
    f: &mut W,
    config: &PrintConfig,
) -> Result<(), DrawError>
where
    T: TreeItem,
    T::Child: TreeItem<Child = T::Child> + Drop,
    W: Sink,
    // Success appends exactly the drawing, and an error a prefix of it.
    ensures bytes { IsDrawn (written_look config.now) (T.shape item.now) config.now.depth
        (W.contents f.old) (W.contents f.new) result }
    // If memory ran out, whole entries were appended.
    ensures whole { LeavesWholeEntries (written_look config.now) (T.shape item.now) config.now.depth
        (W.contents f.old) (W.contents f.new) result }
    ensures cause { HasCause (W.faults f.old) (W.faults f.new) result }
    // Exactly one list of addresses meets the definition.
    ensures one_list { HasOneList (T.shape item.now) config.now.depth }
    // The drawing at a depth is that of the shape cut there, at that depth or any greater one.
    ensures cut { HasCuts (written_look config.now) (T.shape item.now) config.now.depth }
    // The same for every finite tree, cut as a tree.
    ensures cut_tree { HasTreeCuts (written_look config.now) config.now.depth }
    // What is below an address is drawn as it is alone, with the address's passing text before each
    // entry and each further line.
    ensures subtree { HasSubtrees (written_look config.now) (T.shape item.now) config.now.depth }
    // A label of one line is drawn as it is.
    ensures one_line { HasOneLineEntries (written_look config.now) (T.shape item.now) }
{
    draw_for(alloc, &Top(item), f, OutputKind::Unknown, false, config)
}

/// Returns the drawing of an item, as [`write_tree_with`] writes it.
///
/// Above what that takes, it takes memory for the drawing, which grows by doubling, and 1 KiB.
///
/// # Errors
///
/// Memory ran out.
pub fn tree_bytes<T>(alloc: Global, item: &T, config: &PrintConfig) -> Result<Vec<u8>, AllocError>
where
    T: TreeItem,
    T::Child: TreeItem<Child = T::Child> + Drop,
    ensures { IfOk result (λ v.
        IsDrawing (written_look config.now) (T.shape item.now) config.now.depth v.items) }
{
    let Ok(mut out) = Buffered::with_capacity(alloc, 1024, Counted::new(Vec::new(alloc))) else {
        return Err(AllocError);
    };
    // A vector fails only if memory ran out.
    match write_tree_with(alloc, item, &mut out, config) {
        Ok(()) => {}
        Err(_) => return Err(AllocError),
    }
    match out.flush() {
        Ok(()) => Ok(out.into_inner().into_inner()),
        Err(_) => Err(AllocError),
    }
}

/// Returns the drawing of an item as a text, as [`write_tree_with`] writes it.
///
/// The result is `None` if the drawing is not UTF-8. Only an item that writes other bytes makes it
/// so.
///
/// # Errors
///
/// Memory ran out.
pub fn tree_text<T>(
    alloc: Global,
    item: &T,
    config: &PrintConfig,
) -> Result<Option<String>, AllocError>
where
    T: TreeItem,
    T::Child: TreeItem<Child = T::Child> + Drop,
    ensures some { IfOk result (λ o. IfSome o (λ s.
        IsDrawing (written_look config.now) (T.shape item.now) config.now.depth (string_bytes s))) }
    ensures none { IfOk result (λ o. IfNone o ((drawing : List ℕ)
        → IsDrawing (written_look config.now) (T.shape item.now) config.now.depth drawing
        → IsUtf8 drawing → ⊥)) }
    // If the items write UTF-8, the drawing is a text.
    ensures utf8 { HasUtf8Texts (written_look config.now) (T.shape item.now)
        → IfOk result IsSome }
{
    let bytes = tree_bytes(alloc, item, config)?;
    match String::from_utf8(bytes) {
        Ok(text) => Ok(Some(text)),
        Err(_) => Ok(None),
    }
}

impl StringItem {
    /// Returns the tree's drawing as a text, as [`write_tree_with`] writes it.
    ///
    /// # Errors
    ///
    /// Memory ran out.
    pub fn drawing(&self, alloc: Global, config: &PrintConfig) -> Result<String, AllocError>
        ensures { IfOk result (λ s. IsDrawing (written_look config.now)
            (shape_of_tree (tree_of self.now)) config.now.depth (string_bytes s)) }
    {
        let bytes = tree_bytes(alloc, self, config)?;
        // The texts and the pieces are UTF-8, so their drawing needs no check.
        Ok(unsafe { String::from_utf8_unchecked(bytes) })
    }
}
