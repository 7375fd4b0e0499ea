// The names of the tasks.
ghost use Rattle.std.specs.Prelude.{◌≡◌, ◌<◌, [], ◌∷◌, ◌++◌, length, None, IfOk, IfSome, OnOk, OnErr};
ghost use Rattle.fb_calls.specs.Sessions.{task_of};

use fb_script::Names;
use fb_units::{KeyText, NoMemory};
use std::alloc::Global;
use std::collections::BTreeMap;
use std::marker::Model;

/// The names of the opened tasks, in order of opening.
// They are found by their order and not by a hash: who writes a script chooses the names, so that
// many of them could have one hash.
#[derive(Drop)]
pub struct TaskNames {
    // The names, in order of opening.
    names: Names,
    // The number of each task by its name.
    numbers: BTreeMap<Vec<u8>, usize>,
}

impl Model for TaskNames {
    ghost use Rattle.std.specs.Prelude.{ℕ, List};
    ghost use Rattle.fb_calls.specs.TaskNames.{AreNumbers};

    ghost Value = { List (List ℕ) };

    ghost view = { λ t. t.names };

    ghost invariant = { λ t. AreNumbers t.numbers t.names };
}

impl TaskNames {
    /// No names.
    pub fn new(alloc: Global) -> TaskNames
        ensures { result ≡ [] }
    {
        TaskNames {
            names: Names::new(alloc),
            numbers: BTreeMap::new(alloc),
        }
    }

    /// The number of names.
    pub fn len(&self) -> usize
        ensures { result ≡ length self.now }
    {
        self.names.len()
    }

    /// The number of the task with this name, if it is opened.
    pub fn task_of(&self, name: &[u8]) -> Option<usize>
        ensures value { result ≡ task_of self.now name.now }
        ensures within { IfSome result (λ task. task < length self.now) }
    {
        match self.numbers.get(name) {
            Some(number) => Some(*number),
            None => None,
        }
    }

    /// Adds a new name. Out of memory, it returns `NoMemory` and nothing has changed.
    pub fn add(&mut self, alloc: Global, name: &[u8]) -> Result<(), NoMemory>
        requires new { task_of self.old name.now ≡ None }
        ensures ok { OnOk result (self.new ≡ self.old ++ name.now ∷ []) }
        ensures err { OnErr result (self.new ≡ self.old) }
    {
        let number = self.names.len();
        let key = Vec::from_slice(alloc, name)?;
        self.names.push(key_text(alloc, name)?)?;
        match self.numbers.insert(key, number) {
            Ok(_) => Ok(()),
            Err(_) => {
                self.names.pop();
                Err(NoMemory)
            }
        }
    }

    /// All names.
    pub fn into_names(self) -> Names
        ensures { result ≡ self }
    {
        self.names
    }
}

// The text of a task's name.
fn key_text(alloc: Global, name: &[u8]) -> Result<KeyText, NoMemory>
    ensures { IfOk result (λ text. text ≡ name.now) }
{
    let mut text = KeyText::with_capacity(alloc, name.len())?;
    for byte in name {
        text.push(*byte)?;
    }
    Ok(text)
}
