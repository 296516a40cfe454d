//! Lines of an input that comes in pieces.
ghost use Rattle.std.specs.Prelude.{◌≡◌, ◌++◌, ◌+◌, ◌<◌, ◌≤◌, [], None, length, take, drop, IsTrue, IfSome, OnOk, OnErr};
ghost use Rattle.api_serve.specs.Separated.{is_free_of};
ghost use Rattle.api_serve.specs.Lines.{IsLineLen};

use memchr::memchr;
use std::alloc::{AllocError, Global};
use std::marker::Model;

/// The bytes of an input that wait for the end of their line. Each byte is looked at once, however long the line is.
#[derive(Drop)]
pub struct Lines {
    bytes: Vec<u8>,
    at: usize,
    searched: usize,
}

impl Model for Lines {
    ghost use Rattle.std.specs.Prelude.{List, ℕ, ◌+◌, ◌≤◌, length, take, drop, IsTrue};
    ghost use Rattle.api_serve.specs.Separated.{is_free_of};

    ghost Value = { List ℕ };

    ghost view = { λ l. drop l.at l.bytes.items };

    ghost invariant = { λ l. (l.at + l.searched ≤ length l.bytes.items) × IsTrue (is_free_of 10 (take l.searched (drop l.at l.bytes.items))) };
}

// Where the first line ends, of bytes of which so many are known to hold no LF.
fn line_end(bytes: &[u8], searched: usize) -> Option<usize>
    requires within { searched ≤ length bytes.now }
    requires free { IsTrue (is_free_of 10 (take searched bytes.now)) }
    ensures some { IfSome result (IsLineLen bytes.now) }
    ensures none { result ≡ None → IsTrue (is_free_of 10 bytes.now) }
{
    match memchr(b'\n', &bytes[searched..]) {
        Some(place) => Some(searched + place),
        None => None,
    }
}

// Drops bytes from the front. A long line, of which nothing is dropped, isn't moved.
fn drop_front(bytes: &mut Vec<u8>, count: usize)
    requires { count ≤ length bytes.old.items }
    ensures { bytes.new.items ≡ drop count bytes.old.items }
{
    if count == 0 {
        return;
    }
    let rest = bytes.len() - count;
    bytes.as_mut_slice().copy_within(count.., 0);
    bytes.truncate(rest);
}

impl Lines {
    /// No byte waits.
    pub fn new(alloc: Global) -> Lines
        ensures { result ≡ [] }
    {
        Lines {
            bytes: Vec::new(alloc),
            at: 0,
            searched: 0,
        }
    }

    /// Takes the next piece of the input.
    pub fn feed(&mut self, piece: &[u8]) -> Result<(), AllocError>
        ensures fed { OnOk result (self.new ≡ self.old ++ piece.now) }
        ensures kept { OnErr result (self.new ≡ self.old) }
    {
        drop_front(&mut self.bytes, self.at);
        self.at = 0;
        self.bytes.extend_from_slice(piece)
    }

    /// How long the first line is, without its LF, where one has ended.
    pub fn line_len(&mut self) -> Option<usize>
        ensures some { IfSome result (IsLineLen self.old) }
        ensures none { result ≡ None → IsTrue (is_free_of 10 self.old) }
        ensures same { self.new ≡ self.old }
    {
        let len = line_end(&self.bytes.as_slice()[self.at..], self.searched);
        self.searched = match len {
            Some(len) => len,
            None => self.bytes.len() - self.at,
        };
        len
    }

    /// So many bytes from the front.
    pub fn front(&self, len: usize) -> &[u8]
        requires { len ≤ length self.now }
        ensures { result.now ≡ take len self.now }
    {
        &self.part()[..len]
    }

    /// Drops a line of this length, and its LF.
    pub fn pass(&mut self, len: usize)
        requires { len < length self.old }
        ensures { self.new ≡ drop (len + 1) self.old }
    {
        let end = self.at + len;
        self.at = end + 1;
        self.searched = 0;
    }

    /// The bytes that wait.
    pub fn part(&self) -> &[u8]
        ensures { result.now ≡ self.now }
    {
        &self.bytes.as_slice()[self.at..]
    }
}
