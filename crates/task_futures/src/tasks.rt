ghost use Rattle.std.specs.Prelude.{◌≡◌, ◌↔◌, [], ◌∷◌, ◌++◌, List, length, IsTrue, IfOk, OnOk, OnErr};

use std::alloc::{AllocError, Global};
use std::marker::Model;
use task_kinds::Task;

/// A list of tasks, in the order in which they are to be added.
#[derive(Debug, Drop)]
pub struct Tasks {
    tasks: Vec<Task>,
}

impl Model for Tasks {
    ghost use Rattle.std.specs.Prelude.{List};
    ghost use Rattle.task_kinds.specs.Tasks.{SeenTask};

    ghost Value = { List SeenTask };

    ghost view = { λ t. t.tasks.items };
}

impl Tasks {
    /// No tasks. It takes no memory.
    pub fn new(alloc: Global) -> Self
        ensures { result ≡ [] }
    {
        Tasks {
            tasks: Vec::new(alloc),
        }
    }

    /// The same tasks, with no copy.
    pub fn from_vec(tasks: Vec<Task>) -> Self
        ensures { result ≡ tasks.items }
    {
        Tasks { tasks }
    }

    /// The same tasks, with no copy.
    pub fn into_vec(self) -> Vec<Task>
        ensures { result.items ≡ self }
    {
        let Tasks { tasks } = self;
        tasks
    }

    pub fn as_slice(&self) -> &[Task]
        ensures { result.now ≡ self.now }
    {
        &self.tasks
    }

    pub fn len(&self) -> usize
        ensures { result ≡ length self.now }
    {
        self.tasks.len()
    }

    pub fn is_empty(&self) -> bool
        ensures { IsTrue result ↔ (self.now ≡ []) }
    {
        self.tasks.is_empty()
    }

    /// Adds a task at the end. Without memory the task is let go.
    pub fn push(&mut self, task: Task) -> Result<(), AllocError>
        ensures ok { OnOk result (self.new ≡ self.old ++ task ∷ []) }
        ensures err { OnErr result (self.new ≡ self.old) }
    {
        self.tasks.push(task)?;
        Ok(())
    }

    /// Adds copies of tasks at the end. Without memory nothing changes.
    pub fn extend_from(&mut self, tasks: &[Task]) -> Result<(), AllocError>
        ensures ok { OnOk result (self.new ≡ self.old ++ tasks.now) }
        ensures err { OnErr result (self.new ≡ self.old) }
    {
        let mut more = copies(*self.tasks.allocator(), tasks)?;
        self.tasks.append(&mut more)?;
        Ok(())
    }

    /// An equal list with memory of its own.
    pub fn copy(&self) -> Result<Self, AllocError>
        ensures { IfOk result (λ tasks. tasks ≡ self.now) }
    {
        let tasks = copies(*self.tasks.allocator(), &self.tasks)?;
        Ok(Tasks { tasks })
    }
}

fn copies(alloc: Global, tasks: &[Task]) -> Result<Vec<Task>, AllocError>
    ensures { IfOk result (λ copies. copies.items ≡ tasks.now) }
{
    let mut copies = Vec::with_capacity(alloc, tasks.len())?;
    for task in tasks {
        let task = task.copy()?;
        copies.push(task)?;
    }
    Ok(copies)
}
