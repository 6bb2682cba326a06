//! Callers that write and read indented text.
ghost use Rattle.std.specs.Prelude.{◌≡◌, ◌≤◌, ◌-◌, ℕ, List, ◌++◌, string_bytes};
ghost use Rattle.std.specs.Prelude.{IsTrue, IfOk, IfSome, IfNone, IsOkUnless, MatchBool};
ghost use Rattle.ptree.specs.Continuation.{first_lines, line_count};
ghost use Rattle.ptree.specs.Outline.{outline};
ghost use Rattle.ptree.specs.Tree.{Tree, tree_of};
ghost use Rattle.ptree_trees.specs.Indented.{IsUnit, IsLineText, AreLineTexts};
ghost use Rattle.ptree_trees.specs.Indented.{IsIndentedForm, HasContinuation};

use ptree::item::StringItem;
use ptree_trees::indented::{
    Form, IndentError, WriteError, indented_text, is_line_text, is_unit, read_indented,
    write_indented,
};
use std::alloc::{AllocError, Global};

/// Writes a tree and reads it back: what comes back is the tree. The result is `None` only if some
/// text cannot follow an indent.
pub fn there_and_back(
    alloc: Global,
    tree: &StringItem,
    form: &Form,
) -> Result<Option<StringItem>, IndentError>
    requires unit { IsUnit form.now.unit.now }
    requires bullet { IsLineText form.now.bullet.now }
    ensures tree { IfOk result (λ o. IfSome o (λ t. tree_of t ≡ tree_of tree.now)) }
    ensures none { IfOk result (λ o. IfNone o
        (AreLineTexts form.now (outline (tree_of tree.now)) → ⊥)) }
    ensures err { IsOkUnless result IndentError.Memory }
{
    match indented_text(alloc, tree, form) {
        Ok(text) => Ok(Some(read_indented(alloc, text.as_str(), form)?)),
        Err(WriteError::Text) => Ok(None),
        Err(WriteError::Memory) => Err(IndentError::Memory),
    }
}

/// Reads a text and writes what was read: that is the text.
pub fn written_anew(alloc: Global, text: &str, form: &Form) -> Result<String, IndentError>
    requires unit { IsUnit form.now.unit.now }
    requires bullet { IsLineText form.now.bullet.now }
    ensures { IfOk result (λ s. string_bytes s ≡ text.now) }
{
    let tree = read_indented(alloc, text, form)?;
    match indented_text(alloc, &tree, form) {
        Ok(again) => Ok(again),
        Err(_) => Err(IndentError::Memory),
    }
}

/// Returns the first wrong line of a text, if there is one. It is a line of the text, and no line
/// before it is wrong.
pub fn wrong_line(alloc: Global, text: &str, form: &Form) -> Result<Option<usize>, AllocError>
    requires unit { IsUnit form.now.unit.now }
    requires bullet { IsLineText form.now.bullet.now }
    ensures within { IfOk result (λ o. IfSome o (λ n. (1 ≤ n) × (n ≤ line_count text.now))) }
    ensures before { IfOk result (λ o. IfSome o (λ n.
        HasContinuation form.now (first_lines (n - 1) text.now))) }
    ensures wrong { IfOk result (λ o. IfSome o (λ n.
        HasContinuation form.now (first_lines n text.now) → ⊥)) }
{
    match read_indented(alloc, text, form) {
        Err(IndentError::Line(line)) => Ok(Some(line)),
        Err(IndentError::Memory) => Err(AllocError),
        _ => Ok(None),
    }
}

/// Whether a text has only right lines, but is incomplete.
pub fn is_cut_off(alloc: Global, text: &str, form: &Form) -> Result<bool, AllocError>
    requires unit { IsUnit form.now.unit.now }
    requires bullet { IsLineText form.now.bullet.now }
    ensures lines { IfOk result (λ b. IsTrue b
        → HasContinuation form.now (first_lines (line_count text.now) text.now)) }
    ensures none { IfOk result (λ b. IsTrue b
        → (t : Tree) → IsIndentedForm form.now text.now t → ⊥) }
{
    match read_indented(alloc, text, form) {
        Err(IndentError::End) => Ok(true),
        Err(IndentError::Memory) => Err(AllocError),
        _ => Ok(false),
    }
}

/// Reads a text in a form that comes from elsewhere, or returns `None` if that cannot be one.
pub fn read_by_form(
    alloc: Global,
    text: &str,
    form: &Form,
) -> Result<Option<StringItem>, IndentError>
    ensures some { IfOk result (λ o. IfSome o (λ t.
        IsIndentedForm form.now text.now (tree_of t))) }
    ensures none { IfOk result (λ o. IfNone o
        (IsUnit form.now.unit.now → IsLineText form.now.bullet.now → ⊥)) }
{
    if is_unit(form.unit) && is_line_text(form.bullet) {
        Ok(Some(read_indented(alloc, text, form)?))
    } else {
        Ok(None)
    }
}

/// Appends a tree to a text. Returns whether it was appended: else the text is as it was.
pub fn is_appended(alloc: Global, tree: &StringItem, form: &Form, out: &mut String) -> bool
    ensures { MatchBool result
        ((text : List ℕ) × IsIndentedForm form.now text (tree_of tree.now)
        × (string_bytes out.new ≡ string_bytes out.old ++ text))
        (string_bytes out.new ≡ string_bytes out.old) }
{
    write_indented(alloc, tree, form, out).is_ok()
}

/// Whether a tree is refused for its texts. Then not each of them can follow an indent.
pub fn is_refused(alloc: Global, tree: &StringItem, form: &Form, out: &mut String) -> bool
    ensures { IsTrue result → AreLineTexts form.now (outline (tree_of tree.now)) → ⊥ }
{
    matches!(
        write_indented(alloc, tree, form, out),
        Err(WriteError::Text)
    )
}
