//! An agenda is a list of keys that rise. Below its capacity a put takes no memory.
ghost use Rattle.std.specs.Prelude.{◌≡◌, ◌+◌, ◌<◌, ◌≤◌, [], length, slice_get, IsOk, OnOk};
ghost use Rattle.std.specs.Option.{option_copied};
ghost use Rattle.row_tables.specs.Table.{put_row, without_row, IsKeyOrder};
ghost use Rattle.agendas.specs.Agendas.{IsPlace, those_before, those_since};

use std::alloc::{AllocError, Global};
use std::marker::Model;

/// Keys in their order, each once. A key is found by binary search, and a put or a removal moves the keys
/// behind it. So keep small keys in it, as numbers and moments. Clauses see the keys, and for how many more
/// there is room.
#[derive(Drop)]
pub struct Agenda<K: Copy + Ord> {
    keys: Vec<K>,
}

impl<K: Copy + Ord> Model for Agenda<K> {
    ghost use Rattle.std.specs.Prelude.{vec_capacity, vec_len, ◌-◌};
    ghost use Rattle.row_tables.specs.Table.{IsRising};
    ghost use Rattle.agendas.specs.Agendas.{Planned};

    ghost Value = { Planned K };

    ghost view = { λ a. record {
      keys = a.keys.items;
      spare = vec_capacity a.keys - vec_len a.keys;
    } };

    ghost invariant = { λ a. IsRising K.cmp (λ k. k) a.keys.items };
}

impl<K: Copy + Ord> Agenda<K> {
    /// An agenda without keys. It takes no memory.
    pub fn new(alloc: Global) -> Self
        ensures { result.keys ≡ [] }
    {
        Agenda {
            keys: Vec::new(alloc),
        }
    }

    /// Makes room for `n` keys more. It fails only for want of memory.
    pub fn reserve(&mut self, n: usize) -> Result<(), AllocError>
        ensures keys { self.new.keys ≡ self.old.keys }
        ensures room { OnOk result (n ≤ self.new.spare) }
        ensures kept { self.old.spare ≤ self.new.spare }
        ensures succeeds { n ≤ self.old.spare → IsOk result }
    {
        self.keys.try_reserve(n)
    }

    /// Puts the key in its place. A key that is there stays there.
    pub fn put(&mut self, key: K)
        requires order { IsKeyOrder K.cmp }
        requires room { 0 < self.old.spare }
        ensures keys { self.new.keys ≡ put_row K.cmp (λ k. k) key self.old.keys }
        ensures spare { self.old.spare ≤ self.new.spare + 1 }
    {
        match self.keys.as_slice().binary_search(&key) {
            Ok(_) => {}
            Err(at) => match self.keys.insert(at, key) {
                Ok(()) => {}
                Err(_) => unreachable!(),
            },
        }
    }

    /// Takes the key away, if it is there.
    pub fn remove(&mut self, key: &K)
        requires { IsKeyOrder K.cmp }
        ensures keys { self.new.keys ≡ without_row K.cmp (λ k. k) key.now self.old.keys }
        ensures spare { self.old.spare ≤ self.new.spare }
    {
        match self.keys.as_slice().binary_search(key) {
            Ok(at) => {
                self.keys.remove(at);
            }
            Err(_) => {}
        }
    }

    /// The first key.
    pub fn first(&self) -> Option<&K>
        ensures { option_copied result ≡ slice_get self.now.keys 0 }
    {
        self.keys.as_slice().get(0)
    }

    /// The place of the first key that isn't before this one.
    fn place(&self, key: &K) -> usize
        requires { IsKeyOrder K.cmp }
        ensures place { IsPlace K.cmp key.now self.now.keys result }
        ensures within { result ≤ length self.now.keys }
    {
        match self.keys.as_slice().binary_search(key) {
            Ok(at) => at,
            Err(at) => at,
        }
    }

    /// The keys before this one, in order.
    pub fn before(&self, key: &K) -> &[K]
        requires { IsKeyOrder K.cmp }
        ensures { result.now ≡ those_before K.cmp key.now self.now.keys }
    {
        let end = self.place(key);
        &self.keys.as_slice()[..end]
    }

    /// The keys from this one on, in order.
    pub fn since(&self, key: &K) -> &[K]
        requires { IsKeyOrder K.cmp }
        ensures { result.now ≡ those_since K.cmp key.now self.now.keys }
    {
        let start = self.place(key);
        &self.keys.as_slice()[start..]
    }
}
