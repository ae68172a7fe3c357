//! What a line asks of an index.
ghost use Rattle.std.specs.Prelude.{◌≡◌, ◌≢◌, IfNone, IfSome};
ghost use Rattle.text_programs.specs.Requests.{IsRequest, line_of};
ghost use Rattle.text_programs.specs.declared.path_indexes.request.Request.{Request};

use art_operations::keys::has_zero;
use text_lines::words::{split_word, strip};

/// What a line asks for.
#[derive(Clone, Copy)]
pub enum Request<'a> {
    Under(&'a [u8]),
    At(&'a [u8]),
    Between(&'a [u8], &'a [u8]),
    First,
    Last,
    Count(&'a [u8]),
}

impl<'a> Request<'a> {
    /// Returns what a line without its line feed asks for, or `None` if it is no valid request.
    pub fn parse(line: &'a [u8]) -> Option<Self>
        ensures line { IfSome result (λ request. line.now ≡ line_of request) }
        ensures is { IfSome result IsRequest }
        ensures none { IfNone result ((request : Request) →
            IsRequest request → line.now ≢ line_of request) }
    {
        if has_zero(line) {
            return None;
        }
        if line == b"first".as_slice() {
            return Some(Request::First);
        }
        if line == b"last".as_slice() {
            return Some(Request::Last);
        }
        if let Some(prefix) = strip(line, b"under ") {
            return Some(Request::Under(prefix));
        }
        if let Some(path) = strip(line, b"at ") {
            return Some(Request::At(path));
        }
        if let Some(prefix) = strip(line, b"count ") {
            return Some(Request::Count(prefix));
        }
        let ends = strip(line, b"between ")?;
        let (from, to) = split_word(ends)?;
        Some(Request::Between(from, to))
    }
}
