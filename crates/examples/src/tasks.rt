//! Tasks, each in a style of its own: an item that is implemented by hand.
ghost use Rattle.std.specs.Prelude.{◌≡◌, map, IfOk};
ghost use Rattle.ptree.specs.Children.{children_of};
ghost use Rattle.ptree.specs.Shape.{kids};
ghost use Rattle.examples.specs.Tasks.{task_shape};

use ptree::item::{Children, Shaped, TreeItem};
use ptree::style::{Color, DrawError, Sink, Style};
use std::alloc::{AllocError, Global};

/// A task: a text, the style in which it is written, and the tasks below it.
#[derive(Drop)]
pub struct Task {
    pub text: String,
    pub style: Style,
    pub tasks: Vec<Task>,
}

impl Shaped for Task {
    ghost use Rattle.examples.specs.Tasks.{task_shape};

    ghost shape = { task_shape };
}

impl TreeItem for Task {
    type Child = Task;

    /// Writes the text in the task's own style, whatever the style of leaves is.
    fn write_self<W: Sink>(&self, _: Global, f: &mut W, _: &Style) -> Result<(), DrawError> {
        self.style.write_painted(f, self.text.as_str())
    }

    /// Lends the tasks below.
    fn children(&self, _: Global) -> Result<Children<'_, Task>, AllocError>
        ensures { IfOk result (λ c. map task_shape (children_of c) ≡ kids (task_shape self.now)) }
    {
        Ok(Children::Lent(self.tasks.as_slice()))
    }
}

// A task without further ones below it.
fn single(alloc: Global, text: &str, style: Style) -> Result<Task, AllocError> {
    Ok(Task {
        text: String::from_str(alloc, text)?,
        style,
        tasks: Vec::new(alloc),
    })
}

/// A release: a task that is done and one that is urgent below one of no style.
pub fn release(alloc: Global) -> Result<Task, AllocError> {
    let mut done = Style::default();
    done.strikethrough = true;
    let mut urgent = Style::default();
    urgent.foreground = Some(Color::Red);

    let mut release = single(alloc, "release", Style::default())?;
    release.tasks.push(single(alloc, "changelog", done)?)?;
    release
        .tasks
        .push(single(alloc, "call the printers", urgent)?)?;
    Ok(release)
}
