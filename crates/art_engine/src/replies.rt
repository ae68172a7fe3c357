//! The texts of the replies to commands.
ghost use Rattle.std.specs.Prelude.{◌++◌, OnOk, codes};
ghost use Rattle.std.specs.Io.KnownBytes.{Appends};
ghost use Rattle.art_engine.specs.Texts.{pair_text, reply_text};

use crate::key::ShownKey;
use art_running::run::Reply;
use std::io;
use std::io::Write;

/// Writes the reply to a command, as a line.
pub fn write_reply<W: Write>(output: &mut W, reply: &Reply<Vec<u8>, u32>) -> io::Result<()>
    ensures { OnOk result (Appends (W.contents output.old) (W.contents output.new)
        (reply_text reply.now ++ codes "\n")) }
{
    let words = match reply {
        Reply::Inserted(Some(old)) | Reply::Overwrote(Some(old), _) => {
            return write_pair(output, "replaced", old);
        }
        Reply::Deleted(Some(old)) => return write_pair(output, "deleted", old),
        Reply::Inserted(None) | Reply::Overwrote(None, 0) => "inserted",
        Reply::Overwrote(None, count) => return writeln!(output, "removed {count}"),
        Reply::Conflict(_, _, error) => return writeln!(output, "conflict: {error}"),
        Reply::MatchLen(Some(len)) => return writeln!(output, "match {len}"),
        Reply::MatchLen(None) => "none",
        Reply::Deleted(None) => "absent",
        Reply::Cloned => "cloned",
        Reply::Found(true) => "yes",
        Reply::Found(false) => "no",
        Reply::NoMemory(_) => return write_no_memory(output),
    };
    writeln!(output, "{words}")
}

// Writes what became of a pair, and the pair.
fn write_pair<W: Write>(output: &mut W, outcome: &str, pair: &(Vec<u8>, u32)) -> io::Result<()>
    ensures { OnOk result (Appends (W.contents output.old) (W.contents output.new)
        (pair_text outcome.now pair.now ++ codes "\n")) }
{
    let (key, value) = pair;
    writeln!(output, "{outcome} {} {value}", ShownKey(key))
}

/// Writes that an allocation failed, as a line.
pub fn write_no_memory<W: Write>(output: &mut W) -> io::Result<()>
    ensures { OnOk result (Appends (W.contents output.old) (W.contents output.new)
        (codes "no memory\n")) }
{
    writeln!(output, "no memory")
}
