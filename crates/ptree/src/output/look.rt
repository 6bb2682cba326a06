//! How drawings look.
ghost use Rattle.std.specs.Prelude.{◌≡◌, IfOk};
ghost use Rattle.ptree.specs.Drawing.{effective_style, config_look};
ghost use Rattle.ptree.specs.Looks.{look_of};
ghost use Rattle.ptree.specs.Style.{style_of};

use crate::output::indent::Indent;
use crate::print_config::{OutputKind, PrintConfig};
use crate::style::Style;
use std::alloc::{AllocError, Global};

/// How a drawing looks: the effective styles, the pieces, and the marker before an item's further
/// lines.
#[derive(Drop)]
pub(crate) struct Look<'a> {
    pub(crate) branch: Style,
    pub(crate) leaf: Style,
    pub(crate) pieces: Indent,
    pub(crate) marker: &'a str,
}

impl<'a> Look<'a> {
    /// Returns the look that a configuration gives output of a kind. `terminal` says whether
    /// standard output is a terminal. If the output is not styled, both styles are plain.
    pub(crate) fn of_config(
        alloc: Global,
        config: &'a PrintConfig,
        output_kind: OutputKind,
        terminal: bool,
    ) -> Result<Look<'a>, AllocError>
        ensures { IfOk result (λ look. look_of look ≡ config_look config.now output_kind terminal) }
    {
        let styled = config.should_style_output(output_kind, terminal);
        Ok(Look {
            pieces: Indent::from_config(alloc, config)?,
            branch: effective_style(&config.branch, styled)?,
            leaf: effective_style(&config.leaf, styled)?,
            marker: config.continued.as_str(),
        })
    }
}

// Returns a style if output is styled, else the plain one.
fn effective_style(style: &Style, styled: bool) -> Result<Style, AllocError>
    ensures { IfOk result (λ effective.
        style_of effective ≡ effective_style styled (style_of style.now)) }
{
    if styled {
        style.clone()
    } else {
        Ok(Style::default())
    }
}
