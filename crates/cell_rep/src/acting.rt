//! What a cell does, one thing after another.
ghost use Rattle.std.specs.Prelude.{◌≡◌, ◌+◌, ◌<◌, [], ◌∷◌, ◌++◌, vec_len, vec_capacity};
ghost use Rattle.byte_ports.specs.Cause.{HasCause};
ghost use Rattle.cell_rep.specs.Deliveries.{is_call_lost};
ghost use Rattle.cell_rep.specs.Follows.{answer_to, moved_by, stage, IsMade, Performs};

use crate::call_end::{CallEnd, Called};
use crate::calling::called;
use crate::rep::CellRep;
use crate::todo::Todo;
use crate::wire::Wire;
use bbs_model::Port;
use std::alloc::Global;

fn answer_to(todo: &Todo, end: CallEnd) -> Called
    ensures { result ≡ answer_to todo.now end }
{
    let command = match todo {
        Todo::Call(command) => Some(*command),
        _ => None,
    };
    Called { command, end }
}

/// An answer comes behind the others, for which there is room.
pub fn add_answer(out: &mut Vec<Called>, answer: &Called)
    requires { vec_len out.old < vec_capacity out.old }
    ensures { out.new.items ≡ out.old.items ++ answer.now ∷ [] }
{
    let command = match answer.command {
        None => None,
        Some(command) => Some(command),
    };
    out.push_reserved(Called {
        command,
        end: answer.end,
    });
}

// The answer to what was to be done comes behind the others.
fn add(out: &mut Vec<Called>, todo: &Todo, end: CallEnd)
    requires { vec_len out.old < vec_capacity out.old }
    ensures items { out.new.items ≡ out.old.items ++ answer_to todo.now end ∷ [] }
    ensures room { (vec_capacity out.new ≡ vec_capacity out.old)
        × (vec_len out.new ≡ vec_len out.old + 1) }
{
    match todo {
        Todo::Call(command) => out.push_reserved(Called {
            command: Some(*command),
            end,
        }),
        _ => out.push_reserved(Called { command: None, end }),
    }
}

impl CellRep {
    // A call, whose end the cell learns, or none.
    fn make<P: Port, W: Wire>(
        &mut self,
        alloc: Global,
        todo: &Todo,
        port: &mut P,
        wire: &mut W,
    ) -> CallEnd
        ensures keeps { P.keeps port.old port.new }
        ensures number { P.number port.new ≡ P.number port.old }
        ensures made { IsMade (P.number port.old) (W.ends wire.old) todo.now self.old self.new
            (P.view port.old) (P.view port.new) result }
        ensures later { W.ends wire.new ≡ moved_by todo.now (W.ends wire.old) }
        ensures cell { self.new.cell ≡ self.old.cell }
        ensures cause { HasCause (is_call_lost result) (W.losses wire.old) (W.losses wire.new) }
    {
        match todo {
            Todo::Idle => CallEnd::Idle,
            Todo::Local(why) => CallEnd::Local(*why),
            Todo::Call(command) => {
                let end = called(port, wire, self.cell, *command);
                self.learn(alloc, &command.op, &end);
                end
            }
        }
    }

    /// Does one thing, and adds its answer, for which there is room.
    pub(crate) fn perform<P: Port, W: Wire>(
        &mut self,
        alloc: Global,
        todo: &Todo,
        port: &mut P,
        wire: &mut W,
        out: &mut Vec<Called>,
    )
        requires { vec_len out.old < vec_capacity out.old }
        ensures keeps { P.keeps port.old port.new }
        ensures number { P.number port.new ≡ P.number port.old }
        ensures performs { Performs (P.number port.old) self.old.cell (todo.now ∷ [])
            (stage self.old (P.view port.old) (W.ends wire.old) (W.losses wire.old) out.old.items)
            (stage self.new (P.view port.new) (W.ends wire.new) (W.losses wire.new) out.new.items) }
        ensures room { (vec_capacity out.new ≡ vec_capacity out.old)
            × (vec_len out.new ≡ vec_len out.old + 1) }
        ensures cell { self.new.cell ≡ self.old.cell }
    {
        let end = self.make(alloc, todo, port, wire);
        add(out, todo, end);
    }

    /// Does one thing, and gives its answer.
    pub(crate) fn once<P: Port, W: Wire>(
        &mut self,
        alloc: Global,
        todo: &Todo,
        port: &mut P,
        wire: &mut W,
    ) -> Called
        ensures keeps { P.keeps port.old port.new }
        ensures number { P.number port.new ≡ P.number port.old }
        ensures performs { Performs (P.number port.old) self.old.cell (todo.now ∷ [])
            (stage self.old (P.view port.old) (W.ends wire.old) (W.losses wire.old) [])
            (stage self.new (P.view port.new) (W.ends wire.new) (W.losses wire.new) (result ∷ [])) }
        ensures cell { self.new.cell ≡ self.old.cell }
    {
        let end = self.make(alloc, todo, port, wire);
        answer_to(todo, end)
    }
}
