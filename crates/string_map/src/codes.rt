//! The codes that calls return.

/// The call succeeded. If it looks something up, that was found and is written.
pub const DONE: u32 = 0;
/// What was looked up is not stored.
pub const ABSENT: u32 = 1;
/// An allocation failed, and the map is unchanged.
pub const NO_MEMORY: u32 = 2;
/// A key is longer than the space for it. Its length is written, by `vokujin_first` and `vokujin_last` with its value.
pub const TOO_LONG: u32 = 3;
/// The space for pairs is full. More pairs may be left.
pub const FULL: u32 = 4;
/// The map has been freed.
pub const FREED: u32 = 5;
/// An insertion has replaced the value of a stored key, and has written it.
pub const REPLACED: u32 = 6;
/// The key is not after the last one, so the pair was not added.
pub const NOT_AFTER: u32 = 7;

/// The range has no bound on this side.
pub const UNBOUNDED: u32 = 0;
/// The bound is a key of the range, if it is stored.
pub const INCLUDED: u32 = 1;
/// The bound is not a key of the range.
pub const EXCLUDED: u32 = 2;
