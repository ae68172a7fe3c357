//! Writes replies as JSON.
ghost use Rattle.std.specs.Prelude.{◌≡◌, ◌≢◌, ◌<◌, All, ◌∷◌, ◌++◌, flat_map, IfNone, IfSome, length, OnOk, true, false};
ghost use Rattle.std.specs.Char.{digit_char};
ghost use Rattle.std.specs.Io.KnownBytes.{Appends};
ghost use Rattle.std.specs.Str.{is_utf8};
ghost use Rattle.line_programs.specs.Json.{comma_before, escape, is_plain, json_bool, json_object, json_reply, json_string, json_strings, reply_lines, string_byte};

use crate::line_tables::Outcome;
use std::io;
use std::io::Write;
use std::str::from_utf8;
use text_lines::lines::split_at_feed;

/// Writes an object with a line, whether something was found for it, and the lines of its reply; then a line feed.
/// Writes nothing of a line that asks for nothing.
pub fn write_reply<W: Write>(
    output: &mut W,
    line: &[u8],
    outcome: Outcome,
    reply: &[u8],
) -> io::Result<()>
    ensures { OnOk result (Appends (W.contents output.old) (W.contents output.new)
        (json_reply line.now outcome reply.now)) }
{
    match outcome {
        Outcome::Found => write_object(output, line, true, reply),
        Outcome::NotFound => write_object(output, line, false, reply),
        Outcome::Invalid => Ok(()),
    }
}

fn write_object<W: Write>(
    output: &mut W,
    line: &[u8],
    is_found: bool,
    reply: &[u8],
) -> io::Result<()>
    ensures { OnOk result (Appends (W.contents output.old) (W.contents output.new)
        (json_object line.now is_found (reply_lines reply.now))) }
{
    output.write_all(b"{\"query\":")?;
    write_string(output, line)?;
    output.write_all(b",\"found\":")?;
    write_bool(output, is_found)?;
    output.write_all(b",\"lines\":[")?;
    write_lines(output, reply)?;
    output.write_all(b"]}\n")
}

fn write_bool<W: Write>(output: &mut W, value: bool) -> io::Result<()>
    ensures { OnOk result (Appends (W.contents output.old) (W.contents output.new) (json_bool value)) }
{
    if value {
        output.write_all(b"true")
    } else {
        output.write_all(b"false")
    }
}

// Writes the lines of a reply as strings with commas between them.
fn write_lines<W: Write>(output: &mut W, reply: &[u8]) -> io::Result<()>
    ensures { OnOk result (Appends (W.contents output.old) (W.contents output.new)
        (json_strings (reply_lines reply.now))) }
{
    let mut left = reply;
    while !left.is_empty() {
        let (line, others) = split_line(left);
        write_string(output, line)?;
        write_comma(output, others)?;
        left = others;
    }
    Ok(())
}

// Writes a comma, unless nothing is left.
fn write_comma<W: Write>(output: &mut W, left: &[u8]) -> io::Result<()>
    ensures { OnOk result (Appends (W.contents output.old) (W.contents output.new) (comma_before left.now)) }
{
    if left.is_empty() {
        return Ok(());
    }
    output.write_all(b",")
}

// Returns the first line, and what is after its line feed.
fn split_line(text: &[u8]) -> (&[u8], &[u8])
    requires { 0 < length text.now }
    ensures line { reply_lines text.now ≡ result.0.now ∷ reply_lines result.1.now }
    ensures shorter { length result.1.now < length text.now }
{
    match split_at_feed(text) {
        Some((line, others)) => (line, others),
        None => (text, b""),
    }
}

// Writes bytes as a string.
fn write_string<W: Write>(output: &mut W, bytes: &[u8]) -> io::Result<()>
    ensures { OnOk result (Appends (W.contents output.old) (W.contents output.new) (json_string bytes.now)) }
{
    output.write_all(b"\"")?;
    write_bytes(output, bytes, is_utf8(bytes))?;
    output.write_all(b"\"")
}

fn is_utf8(bytes: &[u8]) -> bool
    ensures { result ≡ is_utf8 bytes.now }
{
    from_utf8(bytes).is_ok()
}

fn write_bytes<W: Write>(output: &mut W, bytes: &[u8], in_utf8: bool) -> io::Result<()>
    ensures { OnOk result (Appends (W.contents output.old) (W.contents output.new)
        (flat_map (string_byte in_utf8) bytes.now)) }
{
    let mut left = bytes;
    while let Some((plain, byte, others)) = split_at_escape(left, in_utf8) {
        output.write_all(plain)?;
        write_escape(output, byte)?;
        left = others;
    }
    output.write_all(left)
}

// Returns the first byte that does not stand for itself, what is before it and what is after it; `None` if there is none.
fn split_at_escape(bytes: &[u8], in_utf8: bool) -> Option<(&[u8], u8, &[u8])>
    ensures parts { IfSome result (λ parts. bytes.now ≡ parts.0.now ++ parts.1 ∷ parts.2.now) }
    ensures plain { IfSome result (λ parts. All (λ byte. is_plain in_utf8 byte ≡ true) parts.0.now) }
    ensures escaped { IfSome result (λ parts. is_plain in_utf8 parts.1 ≡ false) }
    ensures none { IfNone result (All (λ byte. is_plain in_utf8 byte ≡ true) bytes.now) }
{
    let at = bytes.iter().position(|&byte| !is_plain(byte, in_utf8))?;
    let (plain, rest) = bytes.split_at(at);
    Some((plain, rest[0], &rest[1..]))
}

// Returns whether a byte stands for itself.
fn is_plain(byte: u8, in_utf8: bool) -> bool
    ensures { result ≡ is_plain in_utf8 byte }
{
    if byte < 128 {
        byte > 31 && byte < 127 && byte != b'"' && byte != b'\\'
    } else {
        in_utf8
    }
}

fn write_escape<W: Write>(output: &mut W, byte: u8) -> io::Result<()>
    ensures { OnOk result (Appends (W.contents output.old) (W.contents output.new) (escape byte)) }
{
    if byte == b'"' || byte == b'\\' {
        return output.write_all(&[b'\\', byte]);
    }
    if byte < 128 {
        output.write_all(b"\\u00")?;
    } else {
        output.write_all(b"\\udc")?;
    }
    output.write_all(&[hex_digit(byte / 16), hex_digit(byte % 16)])
}

fn hex_digit(digit: u8) -> u8
    requires { digit < 16 }
    ensures { result ≡ digit_char digit }
{
    if digit < 10 {
        b'0' + digit
    } else {
        b'a' - 10 + digit
    }
}
