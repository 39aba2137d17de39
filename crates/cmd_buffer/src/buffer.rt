// The buffer that command texts are taken from.
ghost use Rattle.std.specs.Prelude.{◌≡◌, ◌↔◌, ◌<◌, ◌≤◌, ◌+◌, ◌-◌, ◌++◌, ◌==◌, ◌&&◌, ◌||◌, List, [], length, take, drop, option_map, OnOk, OnErr, IsErr, is_ok, if◌then◌else◌};
ghost use Rattle.arrayvec.specs.ArrayVec.{array_vec_len};
ghost use Rattle.mem_model.specs.Laid.{IsText};
ghost use Rattle.cmd_buffer.specs.declared.buffer.TheConstants.{SPACE};
ghost use Rattle.cmd_buffer.specs.Buffer.{fits_in, input, cut, IsCut, first_command, taken_text, short_command};

use arrayvec::ArrayVec;
use base_fields::before_zero;
use std::marker::Model;
use thiserror::Error;

/// How many bytes a buffer holds.
pub const SPACE: usize = 8191;

/// How many bytes a command has at most.
pub const LONGEST: usize = 1023;

/// The bytes of a command that was taken from a buffer, without the byte that ended it.
pub type CommandText = ArrayVec<u8, LONGEST>;

/// What was taken from a buffer.
#[derive(Clone, Copy, Debug, PartialEq, Eq)]
pub enum Taken {
    /// A command.
    Text,
    /// A command of more than 1023 bytes, which are lost.
    TooLong,
}

/// A buffer has no room for a text: it would hold more than 8191 bytes.
#[derive(Clone, Copy, Debug, PartialEq, Eq, Error)]
#[error("overflow")]
pub struct Overflow;

/// Command texts to be taken, one after another, at most 8191 bytes. Contracts see the bytes that are
/// still to be taken.
#[derive(Debug, Drop)]
pub struct CmdBuffer {
    bytes: ArrayVec<u8, SPACE>,
    // how many of the bytes were taken
    taken: usize,
}

impl Model for CmdBuffer {
    ghost use Rattle.std.specs.Prelude.{ℕ, List, ◌≤◌, drop};
    ghost use Rattle.arrayvec.specs.ArrayVec.{array_vec_len};

    ghost Value = { List ℕ };

    ghost view = { λ b. drop b.taken b.bytes.items };

    ghost invariant = { λ b. b.taken ≤ array_vec_len b.bytes };
}

impl CmdBuffer {
    /// A buffer with no bytes.
    pub fn create() -> CmdBuffer
        ensures { result ≡ [] }
    {
        CmdBuffer {
            bytes: ArrayVec::new(),
            taken: 0,
        }
    }

    /// Adds the text at the end, or changes nothing where more than 8191 bytes would be used.
    pub fn add(&mut self, text: &[u8]) -> Result<(), Overflow>
        ensures full { IsErr result ↔ (SPACE < length self.old + length text.now) }
        ensures added { OnOk result (self.new ≡ self.old ++ text.now) }
        ensures same { OnErr result (self.new ≡ self.old) }
    {
        if SPACE < self.used() + text.len() {
            return Err(Overflow);
        }
        self.taken = make_room(&mut self.bytes, self.taken, text.len());
        self.bytes.try_extend_from_slice(text).unwrap();
        Ok(())
    }

    /// Adds a line up to its first zero byte, and a newline; or changes nothing where more than 8191 bytes would be used.
    pub fn add_line(&mut self, line: &[u8]) -> Result<(), Overflow>
        ensures full { is_ok result ≡ fits_in (input line.now) self.old }
        ensures added { self.new
            ≡ (if fits_in (input line.now) self.old then self.old ++ input line.now else self.old) }
        ensures text { IsText self.old → IsText self.new }
    {
        let text = before_zero(line);
        if SPACE <= self.used() + text.len() {
            return Err(Overflow);
        }
        self.add(text).unwrap();
        self.add(b"\n")
    }

    /// Puts the text in front, or changes nothing where more than 8191 bytes would be used.
    pub fn insert(&mut self, text: &[u8]) -> Result<(), Overflow>
        ensures full { IsErr result ↔ (SPACE < length self.old + length text.now) }
        ensures inserted { OnOk result (self.new ≡ text.now ++ self.old) }
        ensures same { OnErr result (self.new ≡ self.old) }
    {
        if SPACE < self.used() + text.len() {
            return Err(Overflow);
        }
        self.taken = put_before(&mut self.bytes, self.taken, text);
        Ok(())
    }

    /// Takes the first command with its end into `text`, in the place of what that held, and answers nothing where there are no
    /// bytes.
    ///
    /// A newline ends a command, and so does `;` behind an even number of `"` in the command; where neither
    /// comes, the command is all that is left. A command of more than 1023 bytes is taken, but too long.
    pub fn take(&mut self, text: &mut CommandText) -> Option<Taken>
        ensures command { option_map (taken_text text.new.items) result ≡ first_command self.old }
        ensures rest { self.new ≡ (cut self.old).rest }
        ensures shortest { IsCut self.old (cut self.old).command self.new }
    {
        let rest = &self.bytes[self.taken..];
        if rest.is_empty() {
            return None;
        }
        let length = command_length(rest);
        let taken = keep_command(&rest[..length], text);
        self.taken = (self.taken + length + 1).min(self.bytes.len());
        Some(taken)
    }

    /// Drops all bytes.
    pub fn clear(&mut self)
        ensures { self.new ≡ [] }
    {
        self.bytes.clear();
        self.taken = 0;
    }

    /// How many bytes are to be taken.
    pub fn used(&self) -> usize
        ensures value { result ≡ length self.now }
        ensures fits { result ≤ SPACE }
    {
        self.bytes.len() - self.taken
    }
}

// Makes room for so many bytes at the end, and answers the place where the bytes from this place on begin then.
// They are moved only where the room behind them is too small.
fn make_room(bytes: &mut ArrayVec<u8, SPACE>, place: usize, count: usize) -> usize
    requires inside { place ≤ array_vec_len bytes.old }
    requires fits { (array_vec_len bytes.old - place) + count ≤ SPACE }
    ensures kept { drop result bytes.new.items ≡ drop place bytes.old.items }
    ensures inside { result ≤ array_vec_len bytes.new }
    ensures room { array_vec_len bytes.new + count ≤ SPACE }
{
    if bytes.len() + count <= SPACE {
        return place;
    }
    drop_front(bytes, place);
    0
}

// Drops the bytes before this place.
fn drop_front(bytes: &mut ArrayVec<u8, SPACE>, place: usize)
    requires { place ≤ array_vec_len bytes.old }
    ensures { bytes.new.items ≡ drop place bytes.old.items }
{
    let left = bytes.len() - place;
    bytes.as_mut_slice().rotate_left(place);
    bytes.truncate(left);
}

// Puts the text in front of the bytes from this place on, and answers the place where the text begins.
// They are moved only where the room before them is too small.
fn put_before(bytes: &mut ArrayVec<u8, SPACE>, place: usize, text: &[u8]) -> usize
    requires inside { place ≤ array_vec_len bytes.old }
    requires room { (array_vec_len bytes.old - place) + length text.now ≤ SPACE }
    ensures put { drop result bytes.new.items ≡ text.now ++ drop place bytes.old.items }
    ensures inside { result ≤ array_vec_len bytes.new }
{
    if text.len() <= place {
        let start = place - text.len();
        bytes.as_mut_slice()[start..place].copy_from_slice(text);
        return start;
    }
    drop_front(bytes, place);
    bytes.try_extend_from_slice(text).unwrap();
    last_to_front(bytes.as_mut_slice(), text.len());
    0
}

// Moves the last `count` bytes to the front.
fn last_to_front(bytes: &mut [u8], count: usize)
    requires { count ≤ length bytes.old }
    ensures { let left = length bytes.old - count in
        bytes.new ≡ drop left bytes.old ++ take left bytes.old }
{
    bytes.rotate_right(count);
}

// How long the first command is.
fn command_length(text: &[u8]) -> usize
    ensures cut { cut text.now ≡
        record { command = take result text.now; rest = drop (result + 1) text.now } }
    ensures inside { result ≤ length text.now }
{
    let mut even_quotes = true;
    for (i, byte) in text.iter().enumerate() {
        if ends_command(even_quotes, *byte) {
            return i;
        }
        if *byte == b'"' {
            even_quotes = !even_quotes;
        }
    }
    text.len()
}

// Whether the byte ends a command, where an even number of quotes stands before it, or an odd one.
fn ends_command(even_quotes: bool, byte: u8) -> bool
    ensures { result ≡ (byte == 10) || ((byte == 59) && even_quotes) }
{
    byte == b'\n' || (byte == b';' && even_quotes)
}

// Keeps the text of a command, where it isn't too long.
fn keep_command(command: &[u8], text: &mut CommandText) -> Taken
    ensures { taken_text text.new.items result ≡ short_command command.now }
{
    if LONGEST < command.len() {
        return Taken::TooLong;
    }
    text.clear();
    text.try_extend_from_slice(command).unwrap();
    Taken::Text
}
