//! The laws of the orders, which crates above cite.

ghost use Rattle.std.specs.Prelude.{◌≡◌, List, ℕ};
ghost use Rattle.row_tables.specs.Table.{IsKeyOrder};
ghost use Rattle.diego_names.specs.Order.{name_order};
ghost use Rattle.diego_names.specs.Key.{key_order};
ghost use Rattle.diego_names.specs.Instance.{instance_order};
ghost use Rattle.diego_names.specs.declared.key.Key.{Key as AKey};
ghost use Rattle.diego_names.specs.declared.instance.Instance.{Instance as AnInstance};

use crate::instance::Instance;
use crate::key::Key;
use crate::name::Name;

/// Names stand in a total order, and only equal names tie.
pub fn names_are_ordered()
    ensures compared { (a b : List ℕ) → ⟦<Name as Ord>⟧.cmp a b ≡ name_order a b }
    ensures order { IsKeyOrder name_order }
{}

/// Keys stand in a total order, and only equal keys tie.
pub fn keys_are_ordered()
    ensures compared { (a b : AKey) → ⟦<Key as Ord>⟧.cmp a b ≡ key_order a b }
    ensures order { IsKeyOrder key_order }
{}

/// Instances stand in a total order, and only equal instances tie.
pub fn instances_are_ordered()
    ensures compared { (a b : AnInstance) → ⟦<Instance as Ord>⟧.cmp a b ≡ instance_order a b }
    ensures order { IsKeyOrder instance_order }
{}
