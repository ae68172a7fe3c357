//! Lines in, replies out.
ghost use Rattle.std.specs.Prelude.{◌≡◌, [], None, IfOk, IfSome, OnOk};
ghost use Rattle.std.specs.Io.Buffered.{reader_remaining, writer_buffer, writer_contents};
ghost use Rattle.art_parts.specs.LeafClones.{IsPairClone};
ghost use Rattle.art_engine.specs.Commands.{IsAnswered, IsCommandFor};
ghost use Rattle.art_engine.specs.KeptTrees.{IsKept};
ghost use Rattle.art_engine.specs.Served.{AllAsk, AreServed, AreServedAnew, OneAsksForNothing};
ghost use Rattle.art_engine.specs.Shown.{IsReplied, IsShown};
ghost use Rattle.art_engine.specs.declared.keeping.status.Ending.TheVariants.{Input, BadLine};
ghost use Rattle.text_lines.specs.Lines.{lines};

use crate::checks::write_check;
use crate::keeping::commands::command_of;
use crate::keeping::status::Ending;
use crate::keeping::tree::KeptTree;
use crate::lines::Request;
use crate::nodes::write_nodes;
use crate::pairs::{Order, write_pairs};
use crate::replies::{write_no_memory, write_reply};
use std::alloc::{AllocError, Global};
use std::io;
use std::io::{BufReader, BufWriter, ErrorKind, Read, Write};
use text_lines::lines::{next_line, write_out};

/// Answers each line of the input on the output, by commands on a new tree, and flushes the output. Returns why no further
/// line is read: the input is at its end, or a line is no valid request. Fails if the input can't be read, the output
/// can't be written, or the allocation of a line fails.
pub fn serve<R: Read, W: Write + Drop>(
    alloc: Global,
    input: &mut BufReader<R>,
    output: &mut BufWriter<W>,
) -> io::Result<Ending>
    ensures served { IfOk result (λ why. IfSome (reader_remaining R.remaining input.old) (λ text.
        AreServedAnew (lines text) why (writer_contents W.contents output.old)
        (writer_contents W.contents output.new))) }
    ensures flushed { OnOk result (writer_buffer output.new ≡ []) }
    ensures ended { IfOk result (λ why. why ≡ Input → IfSome (reader_remaining R.remaining input.old) (λ text.
        AllAsk (lines text))) }
    ensures refused { IfOk result (λ why. why ≡ BadLine → IfSome (reader_remaining R.remaining input.old) (λ text.
        OneAsksForNothing (lines text))) }
{
    let mut tree = KeptTree::new(alloc);
    let why = answer_lines(alloc, &mut tree, input, output)?;
    output.flush()?;
    Ok(why)
}

/// Answers each line of the input on the output, by commands on the tree. Returns why no further line is read. Fails if
/// the input can't be read, the output can't be written, or the allocation of a line fails.
///
/// Replies are written out before it waits for a line. While the next line is already available they are collected in
/// the output, which has a buffer for that.
pub fn answer_lines<R: Read, W: Write>(
    alloc: Global,
    tree: &mut KeptTree,
    input: &mut BufReader<R>,
    output: &mut W,
) -> io::Result<Ending>
    requires { IsKept tree.old }
    ensures kept { IsKept tree.new }
    ensures served { IfOk result (λ why. IfSome (reader_remaining R.remaining input.old) (λ text.
        AreServed (lines text) 1 tree.old tree.new (W.contents output.old) why (W.contents output.new))) }
{
    let mut line = Vec::new(alloc);
    for number in 1..u64::MAX {
        if !next_line(input, &mut line)? {
            return Ok(Ending::Input);
        }
        let Some(request) = Request::parse(&line) else {
            writeln!(output, "line {number}: refused")?;
            return Ok(Ending::BadLine);
        };
        answer(alloc, tree, request, output)?;
        write_out(input, output)?;
    }
    Err(io::Error::from(ErrorKind::FileTooLarge))
}

// Answers a request by a run of the command that it asks for, or by what it asks to see.
fn answer<W: Write>(
    alloc: Global,
    tree: &mut KeptTree,
    request: Request<'_>,
    output: &mut W,
) -> io::Result<()>
    requires { IsKept tree.old }
    ensures kept { IsKept tree.new }
    ensures answered { IsAnswered
        (IsPairClone ⟦<Vec<u8> as Clone>⟧.is_clone ⟦<u32 as Clone>⟧.is_clone)
        request.entry tree.old tree.new }
    ensures replied { OnOk result (IsReplied
        (IsPairClone ⟦<Vec<u8> as Clone>⟧.is_clone ⟦<u32 as Clone>⟧.is_clone)
        request.entry tree.old tree.new (W.contents output.old) (W.contents output.new)) }
{
    let command = match command_of(alloc, request) {
        Ok(Some(command)) => command,
        Ok(None) => return show(tree, request, output),
        Err(AllocError) => return write_no_memory(output),
    };
    match tree.answer(command) {
        Ok(reply) => write_reply(output, &reply),
        Err(AllocError) => write_no_memory(output),
    }
}

// Writes what a request that asks for no command asks to see.
fn show<W: Write>(tree: &KeptTree, request: Request<'_>, output: &mut W) -> io::Result<()>
    requires kept { IsKept tree.now }
    requires no_command { IsCommandFor request None }
    ensures { OnOk result (IsShown request.entry tree.now
        (W.contents output.old) (W.contents output.new)) }
{
    let (store, root) = tree.tree();
    match request {
        Request::Walk => write_pairs(output, store, root, Order::Rising),
        Request::Back => write_pairs(output, store, root, Order::Falling),
        Request::Nodes => write_nodes(output, store, root),
        Request::Check => write_check(output, &tree.check()),
        _ => unreachable!(),
    }
}
