//! An index of paths.
ghost use Rattle.std.specs.Prelude.{◌≡◌, IfErr, IfOk, OnErr, OnOk};
ghost use Rattle.art_operations.specs.Ended.{HasNoZero};
ghost use Rattle.art_operations.specs.MapItems.{keys_of};
ghost use Rattle.text_programs.specs.Paths.{AddsPath, IsFaultOf};

use art_operations::keys::Terminated;
use art_operations::tree_map::TreeMap;
use std::alloc::Global;
use thiserror::Error;

/// Paths in the order of their bytes.
pub type Index = TreeMap<Terminated, (), 16>;

/// Why a path was not added to an index.
#[derive(Clone, Copy, PartialEq, Eq, Debug, Drop, Error)]
pub enum PathError {
    #[error("a zero byte stands in the path")]
    Zero,
    #[error("no memory")]
    NoMemory,
}

/// Adds a path, unless it is stored already.
pub fn add_path(index: &mut Index, alloc: Global, path: &[u8]) -> Result<(), PathError>
    ensures added { OnOk result (AddsPath path.now (keys_of index.old) (keys_of index.new)) }
    ensures accepted { OnOk result (HasNoZero path.now) }
    ensures fault { IfErr result (IsFaultOf path.now) }
    ensures kept { OnErr result (index.new ≡ index.old) }
{
    let key = key_of(alloc, path)?;
    match index.insert(key, ()) {
        Ok(_) => Ok(()),
        Err(_refused) => Err(PathError::NoMemory),
    }
}

// Returns the key of a path.
fn key_of(alloc: Global, path: &[u8]) -> Result<Terminated, PathError>
    ensures key { IfOk result (λ key. key ≡ path.now) }
    ensures accepted { OnOk result (HasNoZero path.now) }
    ensures fault { IfErr result (IsFaultOf path.now) }
{
    match Terminated::encode(alloc, path) {
        Ok(Some(key)) => Ok(key),
        Ok(None) => Err(PathError::Zero),
        Err(_) => Err(PathError::NoMemory),
    }
}
