//! How a desk is made, with its passes.
ghost use Rattle.std.specs.Prelude.{◌≡◌, ◌<◌, ◌≤◌, [], ◌∷◌, Some};
ghost use Rattle.std.specs.Prelude.{vec_len, vec_capacity, IfOk, IfErr};
ghost use Rattle.ticket_desk.specs.Rule.{IsIdle};
ghost use Rattle.ticket_desk.specs.Steps.{next_given, newly_given};
ghost use Rattle.ticket_desk.specs.Passes.{AreDealt, view_of};
ghost use Rattle.ticket_desk.specs.Tables.{IsDesk};
ghost use Rattle.ticket_desk.specs.Ends.{IsFirst, AreGiven};
ghost use Rattle.ticket_desk.specs.declared.pass.Pass.{Pass};

use crate::bells::Bells;
use crate::desk::Desk;
use crate::history::History;
use crate::pass::{Pass, PassOf};
use crate::plays::Give;
use crate::rule::{Board, Place, Top};
use crate::view::View;
use atomic_table::{Refused, Seat, Table};
use std::alloc::{AllocError, AllocFailed, Global};
use std::snapshot::Snapshot;

// A list with the value alone.
fn one_slot<V>(alloc: Global, value: V) -> Result<Vec<Option<V>>, (V, AllocError)>
    ensures ok { IfOk result (λ v. v.items ≡ Some value ∷ []) }
    ensures err { IfErr result (λ e. e.0 ≡ value) }
{
    let mut slots = Vec::new(alloc);
    match slots.push(Some(value)) {
        Ok(()) => Ok(slots),
        Err(AllocFailed { value: back }) => {
            slots.destroy_empty();
            Err((back.unwrap(), AllocError))
        }
    }
}

// The value of such a list.
fn value_of<V>(mut slots: Vec<Option<V>>) -> V
    requires { (x : V) × (slots.items ≡ Some x ∷ []) }
    ensures { slots.items ≡ Some result ∷ [] }
{
    let Some(Some(value)) = slots.pop() else {
        unreachable!()
    };
    slots.destroy_empty();
    value
}

// The board with the value at home and both words at `from`, and its first seat.
fn lay<V: History>(
    alloc: Global,
    value: V,
    from: u64,
) -> Result<(Board<V>, Place<V>), (V, AllocError)>
    ensures ok { IfOk result (λ t. IsDesk t.0.shared.table_id t.1.table_id
        × (t.0.shared.key.value ≡ value) × IsFirst V.items V.origin value 1 t.1.me) }
    ensures err { IfErr result (λ e. e.0 ≡ value) }
{
    let about = Snapshot::of(&value);
    let slots = match one_slot(alloc, value) {
        Ok(slots) => slots,
        Err(refused) => return Err(refused),
    };
    match Table::new(alloc, &[from, from], slots, &about) {
        Ok(laid) => Ok(laid),
        Err(Refused { slots }) => Err((value_of(slots), AllocError)),
    }
}

// A pass of the next number.
fn give<V: History>(top: &Top<V>, first: &mut Place<V>, number: u32) -> PassOf<V>
    requires board { IsDesk top.now.table_id first.old.table_id }
    requires number { (first.old.me.0.number ≡ Some 0) × (first.old.me.0.given ≡ number)
        × (number < 4096) }
    ensures first { (first.new.table_id ≡ first.old.table_id)
        × (first.new.me ≡ (next_given first.old.me.0, first.old.me.1)) }
    ensures given { (result.place.table_id ≡ first.old.table_id) × (result.number ≡ number)
        × (view_of result ≡ newly_given first.old.me.0) }
{
    let place = top.split_seat::<Give>(first);
    Pass { place, number }
}

// The passes of the numbers from 1 on.
fn deal<V: History>(top: &Top<V>, first: &mut Place<V>, passes: &mut Vec<PassOf<V>>, seats: u32)
    requires board { IsDesk top.now.table_id first.old.table_id }
    requires first { (first.old.me.0.number ≡ Some 0) × (first.old.me.0.given ≡ 1) }
    requires room { (passes.old.items ≡ []) × (0 < seats) × (seats ≤ 4096)
        × (seats ≤ vec_capacity passes.old) }
    ensures first { (first.new.table_id ≡ first.old.table_id)
        × (first.new.me ≡ (record first.old.me.0 { given = seats }, first.old.me.1)) }
    ensures dealt { AreGiven top.now.table_id first.old.me.0 seats passes.new.items }
    ensures room { vec_capacity passes.new ≡ vec_capacity passes.old }
{
    for number in 1..seats {
        let pass = give(top, first, number);
        passes.push_reserved(pass);
    }
}

// A desk whose words start at `from`.
pub(crate) fn start_at<V: History>(
    alloc: Global,
    value: V,
    seats: u32,
    from: u64,
) -> Result<(Desk<V>, Vec<PassOf<V>>), (V, AllocError)>
    requires { (0 < seats) × (seats ≤ 4096) }
    ensures ok { IfOk result (λ r. (r.0.table.shared.key.value ≡ value)
        × AreDealt V.items V.origin value r.0.table.shared.table_id seats r.1.items) }
    ensures err { IfErr result (λ e. e.0 ≡ value) }
{
    let Ok(mut passes) = Vec::with_capacity(alloc, seats as usize) else {
        return Err((value, AllocError));
    };
    let Ok(bells) = Bells::new(alloc, seats) else {
        return Err((value, AllocError));
    };
    let (table, mut first) = match lay(alloc, value, from) {
        Ok(laid) => laid,
        Err(refused) => return Err(refused),
    };
    deal(&table.shared, &mut first, &mut passes, seats);
    passes = with_first(passes, first);
    Ok((Desk { table, bells }, passes))
}

// The passes with that of number 0 in front.
fn with_first<V, T, O>(
    mut passes: Vec<Pass<V, T, O>>,
    first: Seat<Option<V>, View<T, O>>,
) -> Vec<Pass<V, T, O>>
    requires room { vec_len passes < vec_capacity passes }
    requires first { (first.me.0.number ≡ Some 0) × IsIdle first.me }
    ensures { (p : Pass V T O) × (result.items ≡ p ∷ passes.items) × (p.place ≡ first)
        × (p.number ≡ 0) }
{
    let Ok(()) = passes.insert(
        0,
        Pass {
            place: first,
            number: 0,
        },
    ) else {
        unreachable!()
    };
    passes
}

impl<V: History> Desk<V> {
    /// A desk for so many seats, 1 to 4,096, and a pass for each of them. The value comes back where
    /// memory runs out.
    pub fn start(
        alloc: Global,
        value: V,
        seats: u32,
    ) -> Result<(Desk<V>, Vec<PassOf<V>>), (V, AllocError)>
        requires { (0 < seats) × (seats ≤ 4096) }
        ensures ok { IfOk result (λ r. (r.0.table.shared.key.value ≡ value)
            × AreDealt V.items V.origin value r.0.table.shared.table_id seats r.1.items) }
        ensures err { IfErr result (λ e. e.0 ≡ value) }
    {
        start_at(alloc, value, seats, 0)
    }
}
