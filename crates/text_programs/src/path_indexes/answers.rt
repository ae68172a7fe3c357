//! What an index has of a text, and how it answers requests.
ghost use Rattle.std.specs.Prelude.{◌≡◌, ◌==◌, ◌++◌, IfOk, OnOk, Some, codes, is_some, not, option_copied};
ghost use Rattle.std.specs.Fmt.{decimal};
ghost use Rattle.std.specs.Io.KnownBytes.{Appends};
ghost use Rattle.art_operations.specs.MapItems.{keys_of};
ghost use Rattle.text_programs.specs.declared.path_indexes.index.PathError.TheVariants.{NoMemory};
ghost use Rattle.text_programs.specs.PathReplies.{finds, found_line, is_filled, path_line, path_lines, reply_to, told_line};
ghost use Rattle.text_programs.specs.PathReplies.{FindsPath, IsNoRequest, IsPathReply};
ghost use Rattle.text_programs.specs.Requests.{IsRequest};
ghost use Rattle.text_programs.specs.Paths.{ArePathsOf, IsIndexOf, IsPathFault, lines_of};

use crate::path_indexes::index::{Index, PathError, add_path};
use crate::path_indexes::parts::{
    Part, count_below, first, is_stored, last, part_below, part_between,
};
use crate::path_indexes::request::Request;
use art_operations::keys::Terminated;
use art_operations::tree_map::TreeMap;
use line_programs::line_tables::{LineTable, Outcome};
use std::alloc::Global;
use std::io;
use std::io::Write;

/// An index of paths that is read from lines.
#[derive(Drop)]
pub struct PathIndex {
    pub paths: Index,
}

/// A line of the index is a path. One that occurs again is stored once. A line that is a request gets its reply.
impl LineTable for PathIndex {
    type Fault = PathError;

    ghost entry_of = { Some };

    ghost HasLines = { λ index added. ArePathsOf (keys_of index.paths) (lines_of added) };

    ghost IsRead = { λ index added. IsIndexOf (lines_of added) (keys_of index.paths) };

    ghost IsFaultAfter = { λ before line fault. IsPathFault (lines_of before) line fault };

    ghost IsOutOfMemory = { λ fault. fault ≡ NoMemory };

    ghost IsReplyTo = { λ index. IsPathReply (keys_of index.paths) };

    ghost Finds = { λ index. FindsPath (keys_of index.paths) };

    ghost AsksForNothing = { IsNoRequest };

    fn entry(line: &[u8]) -> Option<&[u8]> {
        Some(line)
    }

    fn start(alloc: Global) -> Self {
        PathIndex {
            paths: TreeMap::new(alloc),
        }
    }

    fn add(&mut self, alloc: Global, line: &[u8], _number: u64) -> Result<(), PathError> {
        add_path(&mut self.paths, alloc, line)
    }

    fn finish(&mut self, _alloc: Global) -> Result<(), (u64, PathError)> {
        // `rises` says that the paths rise.
        self.paths.rises();
        Ok(())
    }

    fn answer<W: Write>(&self, line: &[u8], output: &mut W) -> io::Result<Outcome> {
        let Some(request) = Request::parse(line) else {
            return Ok(Outcome::Invalid);
        };
        if answer(&self.paths, request, output)? {
            Ok(Outcome::Found)
        } else {
            Ok(Outcome::NotFound)
        }
    }

    fn is_of_line(fault: &PathError) -> bool {
        match fault {
            PathError::Zero => true,
            PathError::NoMemory => false,
        }
    }
}

/// Writes the reply to a request, and returns whether something was found. It allocates nothing.
pub fn answer<W: Write>(index: &Index, request: Request<'_>, output: &mut W) -> io::Result<bool>
    requires { IsRequest request }
    ensures written { OnOk result (Appends (W.contents output.old) (W.contents output.new)
        (reply_to (keys_of index.now) request.entry)) }
    ensures found { IfOk result (λ found. found ≡ finds (keys_of index.now) request.entry) }
{
    match request {
        Request::Under(prefix) => write_paths(output, part_below(index, prefix)),
        Request::At(path) => write_told(output, is_stored(index, path)),
        Request::Between(from, to) => write_paths(output, part_between(index, from, to)),
        Request::First => write_found(output, first(index)),
        Request::Last => write_found(output, last(index)),
        Request::Count(prefix) => write_count(output, count_below(index, prefix)),
    }
}

// Writes paths, a line each. Returns whether there was one.
fn write_paths<W: Write>(output: &mut W, part: Part<'_>) -> io::Result<bool>
    ensures written { OnOk result (Appends (W.contents output.old) (W.contents output.new)
        (path_lines (keys_of part.entry))) }
    ensures found { IfOk result (λ found. found ≡ is_filled (keys_of part.entry)) }
{
    let mut is_found = false;
    for (path, _) in part {
        write_path(output, path)?;
        is_found = true;
    }
    Ok(is_found)
}

// Writes a path, as a line.
fn write_path<W: Write>(output: &mut W, path: &Terminated) -> io::Result<()>
    ensures { OnOk result (Appends (W.contents output.old) (W.contents output.new)
        (path_line path.now)) }
{
    output.write_all(path.as_bytes_without_end())?;
    output.write_all(b"\n")
}

// Writes a path as a line, if there is one, and returns whether there is.
fn write_found<W: Write>(output: &mut W, path: Option<&Terminated>) -> io::Result<bool>
    ensures written { OnOk result (Appends (W.contents output.old) (W.contents output.new)
        (found_line (option_copied path.entry))) }
    ensures found { IfOk result (λ found. found ≡ is_some path.entry) }
{
    let Some(path) = path else {
        return Ok(false);
    };
    write_path(output, path)?;
    Ok(true)
}

// Writes whether something is so, as a line, and returns it.
fn write_told<W: Write>(output: &mut W, is_so: bool) -> io::Result<bool>
    ensures written { OnOk result (Appends (W.contents output.old) (W.contents output.new)
        (told_line is_so)) }
    ensures told { IfOk result (λ told. told ≡ is_so) }
{
    output.write_all(if is_so { b"yes\n" } else { b"no\n" })?;
    Ok(is_so)
}

// Writes a count as a line, and returns whether it is more than zero.
fn write_count<W: Write>(output: &mut W, count: usize) -> io::Result<bool>
    ensures written { OnOk result (Appends (W.contents output.old) (W.contents output.new)
        (decimal count ++ codes "\n")) }
    ensures counted { IfOk result (λ counted. counted ≡ not (count == 0)) }
{
    writeln!(output, "{count}")?;
    Ok(count > 0)
}
