//! Names and instances that were told, each found by its hash.
ghost use Rattle.std.specs.Prelude.{◌≡◌, [], not, OnOk, IfOk, IfSome};
ghost use Rattle.std.specs.List.{list_any};
ghost use Rattle.indexmap.specs.IndexSet.{insert_key};
ghost use Rattle.dump_reader.specs.Lines.{is_same_name, is_same_instance};

use diego_names::{Key, Name, OutOfMemory};
use indexmap::IndexSet;
use std::alloc::Global;
use std::marker::Model;

/// Names in the order in which they were told, each once.
#[derive(Drop)]
pub(crate) struct Names {
    set: IndexSet<Name>,
}

impl Model for Names {
    ghost use Rattle.std.specs.Prelude as plain;

    ghost Value = { plain.List (plain.List plain.ℕ) };

    ghost view = { λ names. names.set.keys };
}

impl Names {
    pub fn new(alloc: Global) -> Names
        ensures { result ≡ [] }
    {
        Names {
            set: IndexSet::new(alloc),
        }
    }

    /// Adds a name at the end, if it isn't there. It returns whether it was added.
    pub fn add(&mut self, name: Name) -> Result<bool, OutOfMemory>
        ensures added { OnOk result (self.new ≡ insert_key is_same_name self.old name) }
        ensures new { IfOk result (λ is_new. is_new ≡ not (list_any (is_same_name name) self.old)) }
    {
        Ok(self.set.insert(name)?)
    }

    pub fn has(&self, name: Name) -> bool
        ensures { result ≡ list_any (is_same_name name) self.now }
    {
        self.set.contains(&name)
    }
}

/// Instances in the order in which they were told, each once.
#[derive(Drop)]
pub(crate) struct Instances {
    set: IndexSet<Key>,
}

impl Model for Instances {
    ghost use Rattle.std.specs.Prelude as plain;
    ghost use Rattle.diego_names.specs.declared.key.Key.{Key as AKey};

    ghost Value = { plain.List AKey };

    ghost view = { λ instances. instances.set.keys };
}

impl Instances {
    pub fn new(alloc: Global) -> Instances
        ensures { result ≡ [] }
    {
        Instances {
            set: IndexSet::new(alloc),
        }
    }

    /// Adds an instance at the end, if it isn't there. It returns whether it was added.
    pub fn add(&mut self, instance: Key) -> Result<bool, OutOfMemory>
        ensures added { OnOk result (self.new ≡ insert_key is_same_instance self.old instance) }
        ensures new { IfOk result
            (λ is_new. is_new ≡ not (list_any (is_same_instance instance) self.old)) }
    {
        Ok(self.set.insert(instance)?)
    }
}
