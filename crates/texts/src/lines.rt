//! The lines of a file, one after another.
ghost use Rattle.std.specs.Prelude.{◌≡◌, ◌==◌, ◌≤◌, ◌+◌, length};
ghost use Rattle.std.specs.List.{list_any, position_or_len};
ghost use Rattle.texts.specs.Lines as spec;
ghost use Rattle.texts.specs.declared.TheConstants.{MOST_BYTES};

use crate::parts::place_of;

/// A line of a file: its number, from 1, the place of its first byte, and its bytes without the line end.
#[derive(Clone, Copy, Debug)]
pub struct Line<'a> {
    pub number: u32,
    pub at: usize,
    pub text: &'a [u8],
}

/// A file that is read line by line.
#[derive(Drop)]
pub struct Lines<'a> {
    number: u32,
    at: usize,
    rest: &'a [u8],
    ghost fits: { at + length rest.now ≤ MOST_BYTES },
    ghost counts: { number ≤ at + 1 },
}

// So many bytes are compared at once.
const STRIDE: usize = 16;

// Whether the byte is among these. The loop has no early exit, so that it is compiled to vector code.
#[inline(always)]
fn is_among(byte: u8, bytes: &[u8; STRIDE]) -> bool
    ensures { result ≡ list_any (λ b. b == byte) bytes.now }
{
    let mut found = false;
    for b in bytes {
        found |= *b == byte;
    }
    found
}

// Where a byte first stands, or the length where it does not: as `place_of`, where that is far.
fn far_place_of(text: &[u8], byte: u8) -> usize
    ensures value { result ≡ position_or_len (λ b. b == byte) text.now }
    ensures within { result ≤ length text.now }
{
    let mut len = 0;
    let mut rest = text;
    while let Some((front, behind)) = rest.split_first_chunk::<STRIDE>() {
        if is_among(byte, front) {
            return len + place_of(rest, byte);
        }
        len += STRIDE;
        rest = behind;
    }
    len + place_of(rest, byte)
}

// The text without a carriage return at its end.
fn without_return(text: &[u8]) -> &[u8]
    ensures { result.now ≡ spec.without_return text.now }
{
    if text.ends_with(b"\r") {
        &text[..text.len() - 1]
    } else {
        text
    }
}

impl<'a> Lines<'a> {
    ghost use Rattle.texts.specs.Lines.{start};
    ghost use Rattle.texts.specs.Stepping.{Gives, Shortens, ahead};

    /// A file of at most `MOST_BYTES` bytes, before its first line.
    pub fn new(file: &'a [u8]) -> Lines<'a>
        requires { length file.now ≤ MOST_BYTES }
        ensures { ahead result ≡ start file.now }
    {
        Lines {
            number: 1,
            at: 0,
            rest: file,
        }
    }

    /// The number of the line that comes next, or that would come after the last.
    pub fn number(&self) -> u32
        ensures { result ≡ (ahead self.now).number }
    {
        self.number
    }

    /// The next line, or `None` after the last.
    pub fn next_line(&mut self) -> Option<Line<'a>>
        ensures next { Gives (ahead self.old) result (ahead self.new) }
        ensures shorter { Shortens (ahead self.old) result (ahead self.new) }
    {
        let number = self.number;
        let at = self.at;
        let rest = self.rest;
        if rest.is_empty() {
            return None;
        }
        let len = far_place_of(rest, b'\n');
        if len == rest.len() {
            *self = Lines {
                number: number + 1,
                at: at + len,
                rest: &[],
            };
            return Some(Line {
                number,
                at,
                text: rest,
            });
        }
        *self = Lines {
            number: number + 1,
            at: at + len + 1,
            rest: &rest[len + 1..],
        };
        Some(Line {
            number,
            at,
            text: without_return(&rest[..len]),
        })
    }
}
