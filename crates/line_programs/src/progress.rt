//! Shows how much of a file was read.
ghost use Rattle.std.specs.Prelude.{◌≡◌, None, OnErr, OnOk, IfOk, Some};
ghost use Rattle.std.specs.Io.{ReadsAtMost};
ghost use Rattle.std.specs.Io.KnownBytes.{Appends, ReadConsumes};
ghost use Rattle.line_programs.specs.Progress.{clearing, percentage, shown_percentage};

use crate::messages::Place;
use crate::running::flag;
use clap::Arg;
use std::alloc::Global;
use std::fs::File;
use std::io::{BufReader, IsTerminal, Read, Stderr, Write};
use std::{fs, io};

/// A line on an output that shows the percentage of a file that was read. It is cleared when the meter is dropped.
///
/// An error of the output is passed over: a file is read whether or not that is seen.
pub struct Meter<'a, E: Write + Drop> {
    output: E,
    place: Place<'a>,
    len: u64,
    read: u64,
    shown: Option<u64>,
}

impl<'a, E: Write + Drop> Meter<'a, E> {
    ghost use Rattle.line_programs.specs.Progress.{IsAfter, IsSameFile, bytes_read, file_len, meter_output, shown};

    /// Returns a meter of a file of this length that shows nothing so far.
    pub fn new(output: E, place: Place<'a>, len: u64) -> Self
        ensures output { meter_output result ≡ output }
        ensures len { file_len result ≡ len }
        ensures read { bytes_read result ≡ 0 }
        ensures shown { shown result ≡ None }
    {
        Meter {
            output,
            place,
            len,
            read: 0,
            shown: None,
        }
    }

    // Counts bytes that were read, and shows the percentage. After a read of none, at the end of the file, it clears the line.
    fn count(&mut self, count: usize)
        ensures { IsAfter self.old count self.new }
    {
        self.read = self.read.saturating_add(count as u64);
        if count == 0 {
            self.clear();
        } else {
            self.show();
        }
    }

    // Shows the percentage if the line doesn't show it already.
    fn show(&mut self)
        ensures file { IsSameFile self.old self.new }
        ensures read { bytes_read self.new ≡ bytes_read self.old }
        ensures shown { shown self.new ≡ Some (percentage (bytes_read self.old) (file_len self.old)) }
        ensures unchanged { shown self.new ≡ shown self.old → meter_output self.new ≡ meter_output self.old }
    {
        let percent = percent_of(self.read, self.len);
        if self.shown == Some(percent) {
            return;
        }
        let _ = write_percentage(&mut self.output, self.place, percent);
        self.shown = Some(percent);
    }

    // Clears the line if it shows something.
    fn clear(&mut self)
        ensures file { IsSameFile self.old self.new }
        ensures read { bytes_read self.new ≡ bytes_read self.old }
        ensures shown { shown self.new ≡ None }
        ensures unchanged { shown self.old ≡ None → meter_output self.new ≡ meter_output self.old }
    {
        if self.shown.is_none() {
            return;
        }
        let _ = write_clearing(&mut self.output);
        self.shown = None;
    }
}

impl<'a, E: Write + Drop> Drop for Meter<'a, E> {
    fn drop(mut self) {
        self.clear();
        let Meter {
            output: _output,
            place: _,
            len: _,
            read: _,
            shown: _,
        } = self;
    }
}

// Returns what percentage of a length these bytes are.
fn percent_of(read: u64, len: u64) -> u64
    ensures { result ≡ percentage read len }
{
    if len == 0 {
        return 100;
    }
    let percent = u128::from(read) * 100 / u128::from(len);
    percent.min(100) as u64
}

// Writes the percentage over what the line shows. What is written next stands over it.
fn write_percentage<E: Write>(output: &mut E, place: Place<'_>, percent: u64) -> io::Result<()>
    ensures { OnOk result (Appends (E.contents output.old) (E.contents output.new) (shown_percentage place.entry percent)) }
{
    write!(
        output,
        "\r{}: {}: {percent} %\r",
        place.program, place.source
    )
}

// Moves to the start of the line, and clears it.
fn write_clearing<E: Write>(output: &mut E) -> io::Result<()>
    ensures { OnOk result (Appends (E.contents output.old) (E.contents output.new) clearing) }
{
    output.write_all(b"\r\x1b[K")
}

/// Passes on what another reader gives, and shows how much that is of all, if it has a meter.
#[derive(Drop)]
pub struct Progress<'a, R, E: Write + Drop> {
    inner: R,
    meter: Option<Meter<'a, E>>,
}

impl<'a, R, E: Write + Drop> Progress<'a, R, E> {
    ghost use Rattle.line_programs.specs.Progress.{inner_reader, meter_of};

    /// Returns a reader of which nothing was read.
    pub fn new(inner: R, meter: Option<Meter<'a, E>>) -> Self
        ensures inner { inner_reader result ≡ inner }
        ensures meter { meter_of result ≡ meter.entry }
    {
        Progress { inner, meter }
    }
}

impl<'a, R: Read, E: Write + Drop> Read for Progress<'a, R, E> {
    ghost use Rattle.line_programs.specs.Progress.{Counts, inner_reader, meter_of};

    ghost remaining = { λ progress. R.remaining (inner_reader progress) };

    fn read(&mut self, buffer: &mut [u8]) -> io::Result<usize>
        ensures bound { ReadsAtMost result buffer.new }
        ensures bytes { ReadConsumes (R.remaining (inner_reader self.old)) (R.remaining (inner_reader self.new)) result buffer.new }
        ensures counted { IfOk result (Counts (meter_of self.old) (meter_of self.new)) }
        ensures failed { OnErr result (meter_of self.new ≡ meter_of self.old) }
    {
        let result = self.inner.read(buffer);
        if let (Ok(count), Some(meter)) = (&result, &mut self.meter) {
            meter.count(*count);
        }
        result
    }
}

/// Returns the option that asks for the progress.
pub fn option<'a>(alloc: Global) -> Arg<'a> {
    flag(
        alloc,
        "progress",
        "Show how much of a file was read, also where standard error is no terminal",
    )
}

/// Opens a file. Standard error shows how much of it was read, if that is asked for or is a terminal.
pub fn open<'a>(
    rt: &HostRuntime,
    place: Place<'a>,
    is_asked: bool,
) -> io::Result<BufReader<Progress<'a, File, Stderr>>> {
    let file = fs::open(rt, place.source)?;
    let meter = if is_asked || rt.stderr().is_terminal() {
        meter_of(rt, place, &file)
    } else {
        None
    };
    BufReader::new(rt.alloc(), Progress::new(file, meter))
}

// Returns a meter of a file, unless its length isn't known.
fn meter_of<'a>(rt: &HostRuntime, place: Place<'a>, file: &File) -> Option<Meter<'a, Stderr>> {
    let metadata = file.metadata().ok()?;
    if !metadata.is_file() {
        return None;
    }
    Some(Meter::new(rt.stderr(), place, metadata.len()))
}
