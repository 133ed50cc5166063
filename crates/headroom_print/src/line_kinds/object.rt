//! A line of output, and members of an object.
ghost use Rattle.std.specs.Prelude.{◌≡◌, ◌++◌, IfOk, OnOk, map};
ghost use Rattle.std.specs.List.{flat_map};
ghost use Rattle.line_writing.specs.Writing.{AddsMember, AddsTokens, AddsValue};
ghost use Rattle.headroom_print.specs.Members.{member_tokens, named};
ghost use Rattle.headroom_print.specs.Values.{line_of, object_of};

use crate::line_kinds::value::{Member, put_value};
use json::Writer;
use line_writing::{begin, end, line_begun, line_ended, put_key};
use std::alloc::{AllocError, Global};

/// The line of an object with these members, behind what `text` has.
pub(crate) fn add_line(
    text: &mut Vec<u8>,
    alloc: Global,
    members: &[Member],
) -> Result<(), AllocError>
    ensures { OnOk result (text.new.items ≡ text.old.items ++ line_of (map named members.now)) }
{
    let line = line(alloc, members)?;
    text.extend_from_slice(&line)
}

fn line(alloc: Global, members: &[Member]) -> Result<Vec<u8>, AllocError>
    ensures { IfOk result (λ text. text.items ≡ line_of (map named members.now)) }
{
    let mut line = line_begun(alloc)?;
    put_object(&mut line, alloc, members)?;
    line_ended(line)
}

fn put_object(line: &mut Writer, alloc: Global, members: &[Member]) -> Result<(), AllocError>
    ensures { OnOk result (AddsValue line.old line.new (object_of (map named members.now))) }
{
    begin(line)?;
    add_members(line, alloc, members)?;
    end(line)
}

fn add_members(line: &mut Writer, alloc: Global, members: &[Member]) -> Result<(), AllocError>
    ensures { OnOk result
        (AddsTokens line.old line.new (flat_map member_tokens (map named members.now))) }
{
    for member in members {
        put_member(line, alloc, member)?;
    }
    Ok(())
}

fn put_member(line: &mut Writer, alloc: Global, member: &Member) -> Result<(), AllocError>
    ensures { OnOk result (AddsTokens line.old line.new (member_tokens (named member.now))) }
{
    put_key(line, member.0)?;
    put_value(line, alloc, &member.1)
}
