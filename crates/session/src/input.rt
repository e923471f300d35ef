//! Where the lines of a script come from.
ghost use Rattle.std.specs.Prelude.{◌≡◌, ◌↔◌, ◌+◌, false, true, IfOk, IsTrue, Contains, OnErr, if◌then◌else◌};
ghost use Rattle.std.specs.Io.BufRead.{strip_last};
ghost use Rattle.std.specs.Io.Buffered.{reader_buffer};
ghost use Rattle.session.specs.Lines.{Reads};
ghost use Rattle.session.specs.Streams.{text_left, last_line, lines_read, is_input_refused};

use crate::refused::Refused;
use std::alloc::{Allocator, Global};
use std::io;
use std::io::{BufRead, BufReader, Read};

/// A reader of lines that knows whether the next one is there.
pub trait LineInput: BufRead {
    /// Whether reading the next line may wait for whoever gives the input.
    fn may_wait(&self) -> bool;
}

impl<R: Read, A: Allocator> LineInput for BufReader<R, A> {
    /// Unless a line feed is among the bytes that were read ahead.
    fn may_wait(&self) -> bool
        ensures { IsTrue result ↔ (¬ Contains (reader_buffer self.now) 10) }
    {
        !self.buffer().contains(&b'\n')
    }
}

impl<'a> LineInput for &'a [u8] {
    /// Never: the whole text is there.
    fn may_wait(&self) -> bool
        ensures { ¬ IsTrue result }
    {
        false
    }
}

fn remove_feed(line: &mut Vec<u8>)
    ensures { line.new.items ≡ strip_last 10 line.old.items }
{
    if line.last().copied() == Some(b'\n') {
        line.pop();
    }
}

/// Reads the next line, without its line feed, and says whether there was one.
fn read_line<R: BufRead>(input: &mut R, line: &mut Vec<u8>) -> io::Result<bool>
    ensures { IfOk result (λ some. Reads (R.remaining input.old) (R.remaining input.new) some line.new.items) }
{
    line.clear();
    if input.read_until(b'\n', line)? == 0 {
        return Ok(false);
    }
    remove_feed(line);
    Ok(true)
}

/// The lines of a script: those that a reader gives, and whether one was refused.
#[derive(Drop)]
pub struct Lines<R> {
    reader: R,
    line: Vec<u8>,
    count: u64,
    refused: bool,
}

impl<R: LineInput> Lines<R> {
    /// The lines of a reader, of which none is read yet.
    pub fn new(alloc: Global, reader: R) -> Lines<R>
        ensures left { text_left R.remaining result ≡ R.remaining reader }
        ensures count { lines_read result ≡ 0 }
        ensures refused { is_input_refused result ≡ false }
    {
        Lines {
            reader,
            line: Vec::new(alloc),
            count: 0,
            refused: false,
        }
    }

    /// Whether reading the next line may wait for whoever gives the input.
    pub(crate) fn may_wait(&self) -> bool {
        self.reader.may_wait()
    }

    /// How many lines were read.
    pub(crate) fn count(&self) -> u64
        ensures { result ≡ lines_read self.now }
    {
        self.count
    }

    /// The line that was read last, without its line feed.
    pub(crate) fn line(&self) -> &[u8]
        ensures { result.now ≡ last_line self.now }
    {
        self.line.as_slice()
    }

    /// Reads the next line, and says whether there was one.
    ///
    /// # Errors
    ///
    /// Where the reader refuses or there is no memory for the line, and after 2^64 - 1 lines.
    pub(crate) fn next_line(&mut self) -> Result<bool, Refused>
        ensures read { IfOk result (λ some. Reads (text_left R.remaining self.old) (text_left R.remaining self.new) some (last_line self.new)) }
        ensures count { IfOk result (λ some. lines_read self.new ≡ (if some then lines_read self.old + 1 else lines_read self.old)) }
        ensures refused { OnErr result (is_input_refused self.new ≡ true) }
    {
        if self.count == u64::MAX {
            self.refused = true;
            return Err(Refused);
        }
        match read_line(&mut self.reader, &mut self.line) {
            Ok(true) => {
                self.count += 1;
                Ok(true)
            }
            Ok(false) => Ok(false),
            Err(_) => {
                self.refused = true;
                Err(Refused)
            }
        }
    }
}
