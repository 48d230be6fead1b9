//! The names of a rank, with a way back to what they meant before a task.

ghost use Rattle.std.specs.Prelude.{◌≡◌, [], None, OnOk, OnErr};
ghost use Rattle.indexmap.specs.IndexMap.{set_value_at};
ghost use Rattle.task_names.specs.Undoing.{MeansNow};
ghost use Rattle.task_names.specs.Scopes.{meaning_of, with_meaning, as_variable, as_array, as_communicator, as_handle, may_be_set, may_be_posted, may_be_made};

use crate::log::{Change, Log};
use crate::meaning::Meaning;
use indexmap::IndexMap;
use rt_base::{FaultKind, Handle, Name};
use std::alloc::{AllocError, Global};
use std::marker::Model;

/// The names of a rank. Contracts see what they mean now, and what they meant when the open task began.
// Of the names, the first `mark` were known when the task began.
#[derive(Drop)]
pub struct Scope {
    names: IndexMap<Name, Meaning>,
    mark: usize,
    log: Log,
}

impl Model for Scope {
    ghost use Rattle.std.specs.Prelude.{◌≤◌, take, length};
    ghost use Rattle.task_names.specs.Scopes.{Scoped};
    ghost use Rattle.task_names.specs.Undoing.{undone};

    ghost Value = { Scoped };

    ghost view = { λ s. record { names = s.names.entries; before = undone s.log (take s.mark s.names.entries) } };

    ghost invariant = { λ s. s.mark ≤ length s.names.entries };
}

impl Scope {
    /// No names. Takes no memory.
    pub fn empty(alloc: Global) -> Scope
        ensures names { result.names ≡ [] }
        ensures before { result.before ≡ [] }
    {
        Scope {
            names: IndexMap::new(alloc),
            mark: 0,
            log: Log::empty(alloc),
        }
    }

    /// What a name means now.
    pub fn get(&self, name: &Name) -> Option<Meaning>
        ensures { result ≡ meaning_of self.now.names name.now }
    {
        self.names.get(name).copied()
    }

    /// The value of the variable of this name.
    pub fn variable(&self, name: &Name) -> Result<i64, FaultKind>
        ensures { result ≡ as_variable (meaning_of self.now.names name.now) }
    {
        match self.get(name) {
            Some(Meaning::Variable(value)) => Ok(value),
            _ => Err(FaultKind::UnknownName),
        }
    }

    /// The number of the array of this name.
    pub fn array(&self, name: &Name) -> Result<u16, FaultKind>
        ensures { result ≡ as_array (meaning_of self.now.names name.now) }
    {
        match self.get(name) {
            Some(Meaning::Array(number)) => Ok(number),
            _ => Err(FaultKind::UnknownName),
        }
    }

    /// The number of the communicator of this name.
    pub fn communicator(&self, name: &Name) -> Result<u16, FaultKind>
        ensures { result ≡ as_communicator (meaning_of self.now.names name.now) }
    {
        match self.get(name) {
            Some(Meaning::Communicator(number)) => Ok(number),
            _ => Err(FaultKind::UnknownName),
        }
    }

    /// The request that the handle of this name stands for, null once a wait has named it (MPI 4.0, 3.7.3).
    pub fn handle(&self, name: &Name) -> Result<Handle, FaultKind>
        ensures { result ≡ as_handle (meaning_of self.now.names name.now) }
    {
        match self.get(name) {
            Some(Meaning::Posted(nth)) => Ok(Handle::Nth(nth)),
            Some(Meaning::Idle) => Ok(Handle::Null),
            _ => Err(FaultKind::UnknownName),
        }
    }

    /// Whether the name may become a variable.
    pub fn may_be_set(&self, name: &Name) -> Result<(), FaultKind>
        ensures { result ≡ may_be_set (meaning_of self.now.names name.now) }
    {
        match self.get(name) {
            None => Ok(()),
            Some(Meaning::Variable(_)) => Ok(()),
            _ => Err(FaultKind::NameTaken),
        }
    }

    /// Whether the name may become a handle.
    pub fn may_be_posted(&self, name: &Name) -> Result<(), FaultKind>
        ensures { result ≡ may_be_posted (meaning_of self.now.names name.now) }
    {
        match self.get(name) {
            None => Ok(()),
            Some(Meaning::Posted(_)) => Ok(()),
            Some(Meaning::Idle) => Ok(()),
            _ => Err(FaultKind::NameTaken),
        }
    }

    /// Whether the name may become an array or a communicator.
    pub fn may_be_made(&self, name: &Name) -> Result<(), FaultKind>
        ensures { result ≡ may_be_made (meaning_of self.now.names name.now) }
    {
        match self.get(name) {
            None => Ok(()),
            Some(_) => Err(FaultKind::NameTaken),
        }
    }

    /// Gives a name a meaning. A name that is new is copied. An error is want of memory.
    #[tactic(auto, using(crate::proofs::Undone::inserted, crate::proofs::Undone::means_now))]
    pub fn set(&mut self, alloc: Global, name: &Name, meaning: Meaning) -> Result<(), AllocError>
        ensures names { OnOk result (self.new.names ≡ with_meaning self.old.names name.now meaning) }
        ensures err { OnErr result (self.new.names ≡ self.old.names) }
        ensures before { self.new.before ≡ self.old.before }
    {
        match self.names.get_full(name) {
            Some((place, _, meant)) => {
                let meant = *meant;
                self.change(Change { place, meant }, meaning)
            }
            None => self.add(name.copy(alloc)?, meaning),
        }
    }

    /// A task begins: what the names mean now is what they meant before it.
    pub fn begin(&mut self)
        ensures names { self.new.names ≡ self.old.names }
        ensures before { self.new.before ≡ self.old.names }
    {
        self.log.clear();
        self.mark = self.names.len();
    }

    /// The task ends: the names mean again what they meant before it. Its time grows with the names that changed.
    #[tactic(auto, using(crate::proofs::Undone::popped, crate::proofs::Undone::length_set))]
    pub fn undo(&mut self)
        ensures names { self.new.names ≡ self.old.before }
        ensures before { self.new.before ≡ self.old.before }
    {
        while let Some(change) = self.log.pop() {
            write(&mut self.names, change.place, change.meant);
        }
        self.names.truncate(self.mark);
        self.log.cut(self.mark);
    }

    // Another meaning for the name that has this meaning now.
    #[tactic(auto, using(crate::proofs::Undone::changed, crate::proofs::Undone::length_set))]
    fn change(&mut self, now: Change, meaning: Meaning) -> Result<(), AllocError>
        requires { MeansNow self.old.names now }
        ensures names { OnOk result (self.new.names ≡ set_value_at self.old.names now.place meaning) }
        ensures err { OnErr result (self.new.names ≡ self.old.names) }
        ensures before { self.new.before ≡ self.old.before }
    {
        self.log.note(now)?;
        write(&mut self.names, now.place, meaning);
        Ok(())
    }

    // A meaning for a name that is new.
    #[tactic(auto, using(crate::proofs::Undone::added))]
    fn add(&mut self, name: Name, meaning: Meaning) -> Result<(), AllocError>
        requires { meaning_of self.old.names name ≡ None }
        ensures names { OnOk result (self.new.names ≡ with_meaning self.old.names name meaning) }
        ensures err { OnErr result (self.new.names ≡ self.old.names) }
        ensures before { self.new.before ≡ self.old.before }
    {
        self.log.add_place()?;
        self.names.insert(name, meaning)?;
        Ok(())
    }
}

// Writes the meaning at a place, where there is one.
#[tactic(auto, using(crate::proofs::Undone::set_past))]
fn write(names: &mut IndexMap<Name, Meaning>, place: usize, meaning: Meaning)
    ensures { names.new.entries ≡ set_value_at names.old.entries place meaning }
{
    if let Some(meant) = names.get_index_mut(place) {
        *meant = meaning;
    }
}
