//! The commands that requests ask for.
ghost use Rattle.std.specs.Prelude.{IfOk, OnErr};
ghost use Rattle.art_engine.specs.Commands.{AsksForCommand, IsCommandFor};

use crate::lines::Request;
use art_running::run::Command;
use std::alloc::{AllocError, Global};

/// Returns the command that a request asks for, if it asks for one. Fails only if the allocation of its key fails, and
/// never for a request that asks to see the tree.
pub fn command_of(
    alloc: Global,
    request: Request<'_>,
) -> Result<Option<Command<Vec<u8>, u32>>, AllocError>
    ensures command { IfOk result (IsCommandFor request.entry) }
    ensures refused { OnErr result (AsksForCommand request.entry) }
{
    Ok(Some(match request {
        Request::Insert(key, value) => Command::Insert(key.copy(alloc)?, value),
        Request::Prefix(key, value) => Command::InsertPrefix(key.copy(alloc)?, value),
        Request::Delete(key) => Command::Delete(key.copy(alloc)?),
        Request::First => Command::DeleteMin,
        Request::Last => Command::DeleteMax,
        Request::Clone => Command::Clone,
        Request::Find(key) => Command::Contains(key.copy(alloc)?),
        Request::Longest(key) => Command::LongestMatch(key.copy(alloc)?),
        Request::Walk | Request::Back | Request::Nodes | Request::Check => return Ok(None),
    }))
}
