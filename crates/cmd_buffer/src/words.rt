// The words of a command text.
ghost use Rattle.std.specs.Prelude.{◌≡◌, ◌≤◌, ◌==◌, ℕ, List, not, length, drop, slice_get, slice_index_or, [], option_map, position};
ghost use Rattle.std.specs.Borrow.{Bor};
ghost use Rattle.std.specs.List.{position_or_len, AllByRecursion};
ghost use Rattle.mem_model.specs.Laid.{IsText};
ghost use Rattle.cmd_buffer.specs.Words.{is_blank, is_single, ends_word, first_word, word_at_front, words_of, letters_in, found_of};

use std::marker::Model;

// How many words behind the first are kept.
const MORE: usize = 79;

/// The words of a command text, as `tokenize` finds them. The first is found at once, and the others where they are asked for.
/// Contracts see them as the list of their bytes.
#[derive(Debug, Drop)]
pub struct Words<'a> {
    first: Option<Found<'a>>,
    // how many words behind the first are kept at most
    more: usize,
}

impl<'a> Model for Words<'a> {
    ghost use Rattle.std.specs.Prelude.{List, ℕ, ◌≤◌, option_map};

    ghost Value = { List (List ℕ) };

    ghost use Rattle.cmd_buffer.specs.Words.{words_behind, found_of};

    ghost view = { λ a. words_behind a.more (option_map found_of a.first) };

    ghost invariant = { λ a. a.more ≤ 79 };
}

// A word, and what follows it.
#[derive(Clone, Copy, Debug)]
struct Found<'a> {
    word: &'a [u8],
    rest: &'a [u8],
}

/// The words of the text, of which the first 80 are kept.
///
/// Bytes up to 32 separate words. Each of `{ } ( ) ' :` is a word by itself, and ends a word before it.
/// Where a word would begin, `"` opens one that runs to the next `"` or the end, and may be empty, and
/// `//` ends the text. Any other byte belongs to a word, those from 128 on and a `"` within it included.
#[tactic(auto, using(crate::proofs::WordLaws::word_laws))]
pub fn tokenize(text: &[u8]) -> Words<'_>
    ensures words { result ≡ words_of text.now }
    ensures texts { IsText text.now → AllByRecursion IsText result }
    ensures few { length result ≤ 80 }
    ensures sized { letters_in result ≤ length text.now }
{
    Words {
        first: next_word(text),
        more: MORE,
    }
}

impl<'a> Words<'a> {
    /// The first word, where there is one.
    #[inline(always)]
    pub fn first(&self) -> Option<&'a [u8]>
        ensures { option_map (λ (word : Bor (List ℕ)). word.now) result ≡ slice_get self.now 0 }
    {
        match self.first {
            Some(found) => Some(found.word),
            None => None,
        }
    }

    /// The words behind the first.
    #[inline(always)]
    pub fn rest(&self) -> Words<'a>
        ensures { result ≡ drop 1 self.now }
    {
        let Some(found) = self.first else {
            return Words {
                first: None,
                more: 0,
            };
        };
        if self.more == 0 {
            return Words {
                first: None,
                more: 0,
            };
        }
        Words {
            first: next_word(found.rest),
            more: self.more - 1,
        }
    }

    /// Whether there is one word.
    pub fn is_one(&self) -> bool
        ensures { result ≡ (length self.now == 1) }
    {
        self.first.is_some() && self.rest().first.is_none()
    }

    /// How many words there are, at most 80.
    pub fn count(&self) -> usize
        ensures value { result ≡ length self.now }
        ensures kept { result ≤ 80 }
    {
        let Some(found) = self.first else {
            return 0;
        };
        let more = self.more;
        let mut rest = found.rest;
        for count in 0..more {
            match next_word(rest) {
                Some(found) => rest = found.rest,
                None => return count + 1,
            }
        }
        more + 1
    }

    /// The word of this number, counted from 0, or no bytes past the last word.
    pub fn word(&self, number: usize) -> &'a [u8]
        ensures { result.now ≡ slice_index_or self.now number [] }
    {
        let Some(found) = self.first else {
            return &[];
        };
        if number == 0 {
            return found.word;
        }
        let more = self.more;
        if more < number {
            return &[];
        }
        let mut rest = found.rest;
        for _before in 1..number {
            match next_word(rest) {
                Some(found) => rest = found.rest,
                None => return &[],
            }
        }
        match next_word(rest) {
            Some(found) => found.word,
            None => &[],
        }
    }
}

// The first word of a text, and what follows it. Inlined, so that what it finds stays in registers.
#[inline(always)]
fn next_word(text: &[u8]) -> Option<Found<'_>>
    ensures { option_map found_of result ≡ first_word text.now }
{
    front_word(skip_blanks(text))
}

// The word that begins at the front of a text.
#[inline(always)]
fn front_word(text: &[u8]) -> Option<Found<'_>>
    ensures { option_map found_of result ≡ word_at_front text.now }
{
    if text.starts_with(b"//") {
        return None;
    }
    match text {
        [] => None,
        [b'"', rest @ ..] => {
            let end = end_of_quoted(rest);
            let after = (end + 1).min(rest.len());
            Some(Found {
                word: &rest[..end],
                rest: &rest[after..],
            })
        }
        [byte, rest @ ..] if is_single_byte(*byte) => Some(Found {
            word: &text[..1],
            rest,
        }),
        _ => {
            let end = end_of_word(text);
            Some(Found {
                word: &text[..end],
                rest: &text[end..],
            })
        }
    }
}

// The text from its first byte on that is no blank.
#[tactic(auto, using(crate::proofs::Counting::unwrap_position))]
fn skip_blanks(text: &[u8]) -> &[u8]
    ensures { result.now ≡ drop (position_or_len (λ byte. not (is_blank byte)) text.now) text.now }
{
    match first_letter(text) {
        Some(start) => &text[start..],
        None => &text[text.len()..],
    }
}

// Where a word that isn't quoted ends.
#[tactic(auto, using(crate::proofs::Counting::unwrap_position))]
fn end_of_word(text: &[u8]) -> usize
    ensures value { result ≡ position_or_len ends_word text.now }
    ensures inside { result ≤ length text.now }
{
    first_end(text).unwrap_or(text.len())
}

// Where a quoted word ends.
#[tactic(auto, using(crate::proofs::Counting::unwrap_position))]
fn end_of_quoted(text: &[u8]) -> usize
    ensures value { result ≡ position_or_len (λ byte. byte == 34) text.now }
    ensures inside { result ≤ length text.now }
{
    first_quote(text).unwrap_or(text.len())
}

fn first_letter(text: &[u8]) -> Option<usize>
    ensures { result ≡ position (λ byte. not (is_blank byte)) text.now }
{
    text.iter().position(|byte| !is_blank_byte(*byte))
}

fn first_end(text: &[u8]) -> Option<usize>
    ensures { result ≡ position ends_word text.now }
{
    text.iter()
        .position(|byte| is_blank_byte(*byte) || is_single_byte(*byte))
}

fn first_quote(text: &[u8]) -> Option<usize>
    ensures { result ≡ position (λ byte. byte == 34) text.now }
{
    text.iter().position(|byte| *byte == b'"')
}

fn is_blank_byte(byte: u8) -> bool
    ensures { result ≡ is_blank byte }
{
    byte <= b' '
}

// Whether the byte is a word by itself.
fn is_single_byte(byte: u8) -> bool
    ensures { result ≡ is_single byte }
{
    matches!(byte, b'{' | b'}' | b'(' | b')' | b'\'' | b':')
}
