// The names of game files.
ghost use Rattle.std.specs.Prelude.{◌≡◌, ◌≢◌, ◌<◌, ◌≤◌, ◌+◌, ℕ, false, IsTrue, MatchOption, OnOk, OnErr, All, EachIndex};
ghost use Rattle.std.specs.Prelude.{◌++◌, ◌∷◌, [], List, nat_eq, length, slice_index};
ghost use Rattle.std.proofs.Common.{ap};
ghost use Rattle.std.specs.Cmp.{partial_equiv_from_equiv};
ghost use Rattle.std.specs.Cmp.Lexicographic.{pointwise, bytes_decides, nat_list_eq_equiv};
ghost use Rattle.std.specs.Result.{result_ok};
ghost use Rattle.std.specs.List.{after_last, before_first, list_all};
ghost use Rattle.base_fields.specs.Names.{is_slash, is_dot, is_name_byte, is_game_name, steps_up, lawful_name, joined_name, base_of};

use arrayvec::ArrayVec;
use std::hash::{Hash, Hasher};
use std::marker::Model;
use thiserror::Error;

/// The bytes of a word are not the name of a game file.
#[derive(Clone, Copy, Debug, PartialEq, Eq, Error)]
#[error("bad name")]
pub struct BadName;

/// The lawful name of a game file, as `game_name` makes it. Contracts see it as its bytes.
#[derive(Debug, Drop)]
pub struct GameName {
    word: ArrayVec<u8, 63>,
}

impl Model for GameName {
    ghost use Rattle.std.specs.Prelude.{List, ℕ, IsTrue};
    ghost use Rattle.base_fields.specs.Names.{is_game_name};

    ghost Value = { List ℕ };

    ghost view = { λ a. a.word.items };

    ghost invariant = { λ a. IsTrue (is_game_name a.word.items) };
}

impl PartialEq for GameName {
    ghost eq = { pointwise nat_eq };

    ghost laws = { partial_equiv_from_equiv nat_list_eq_equiv };

    fn eq(&self, other: &Self) -> bool {
        self.bytes() == other.bytes()
    }
}

impl Eq for GameName {
    ghost laws = { nat_list_eq_equiv };
}

// A name is hashed in one write, where a slice would be byte by byte.
impl Hash for GameName {
    ghost hash_input = { λ name. name ∷ [] };

    ghost respects_eq = { λ x y same. ap (λ (bytes : List ℕ). bytes ∷ []) ((bytes_decides x y).0 same) };

    fn hash<H: Hasher>(&self, state: &mut H) {
        state.write(self.bytes());
    }
}

impl GameName {
    /// The same name once more.
    pub fn copied(&self) -> GameName
        ensures { result ≡ self.now }
    {
        let word = ArrayVec::try_from(self.bytes()).unwrap();
        GameName { word }
    }

    /// The bytes of the name.
    pub fn bytes(&self) -> &[u8]
        ensures value { result.now ≡ self.now }
        ensures lawful { IsTrue (is_game_name result.now) }
        ensures sized { (0 < length result.now) × (length result.now ≤ 63) }
        ensures text { All (λ c. c ≢ 0) result.now }
    {
        self.word.as_slice()
    }

    /// The part after the last slash, up to that part's first dot, or `?` where nothing stands there.
    #[tactic(auto, unfolding(crate::specs::Names::base_of))]
    pub fn base(&self) -> &[u8]
        ensures value { result.now ≡ base_of self.now }
        ensures sized { (0 < length result.now) × (length result.now ≤ 63) }
        ensures text { All (λ c. c ≢ 0) result.now }
    {
        let stem = stem(last_part(self.bytes()));
        if stem.is_empty() { b"?" } else { stem }
    }
}

/// The word as a name. It is refused where it is empty or longer than 63 bytes, where a byte is no
/// printable ASCII or is a backslash or a colon, where it begins with a slash, and where one of the
/// parts between its slashes is `..`.
#[tactic(auto, using(crate::proofs::NameLaws::length_from_name))]
pub fn game_name(word: &[u8]) -> Result<GameName, BadName>
    ensures { lawful_name word.now ≡ result_ok result }
{
    if !is_lawful(word) {
        return Err(BadName);
    }
    let word = ArrayVec::try_from(word).unwrap();
    Ok(GameName { word })
}

/// The word as a name, with what stands in front of it and behind it. It is refused where the word is empty, and where
/// the bytes together are no lawful name.
#[tactic(auto, using(crate::proofs::NameLaws::joining))]
pub fn joined(front: &[u8], word: &[u8], back: &[u8]) -> Result<GameName, BadName>
    ensures { joined_name front.now word.now back.now ≡ result_ok result }
{
    if word.is_empty() {
        return Err(BadName);
    }
    let mut bytes = ArrayVec::<u8, 63>::new();
    add(&mut bytes, front)?;
    add(&mut bytes, word)?;
    add(&mut bytes, back)?;
    if !is_lawful(bytes.as_slice()) {
        return Err(BadName);
    }
    Ok(GameName { word: bytes })
}

// Adds bytes to those of a name. They are refused where there are too many.
fn add(bytes: &mut ArrayVec<u8, 63>, part: &[u8]) -> Result<(), BadName>
    ensures added { OnOk result (bytes.new.items ≡ bytes.old.items ++ part.now) }
    ensures full { OnErr result (63 < length bytes.old.items + length part.now) }
{
    match bytes.try_extend_from_slice(part) {
        Ok(()) => Ok(()),
        Err(_) => Err(BadName),
    }
}

#[tactic(auto, unfolding(crate::specs::Names::is_game_name))]
fn is_lawful(word: &[u8]) -> bool
    ensures { result ≡ is_game_name word.now }
{
    (1..=63).contains(&word.len())
        && has_only_name_bytes(word)
        && !word.starts_with(b"/")
        && !has_step_up(word)
}

fn has_only_name_bytes(word: &[u8]) -> bool
    ensures { result ≡ list_all is_name_byte word.now }
{
    word.iter().all(|byte| (32..=126).contains(byte) && *byte != b'\\' && *byte != b':')
}

/// Whether one of the word's parts between slashes, the first and the last included, is `..`.
pub fn has_step_up(word: &[u8]) -> bool
    ensures { result ≡ steps_up word.now }
{
    word.split(|byte| *byte == b'/')
        .any(|part| part == b"..".as_slice())
}

// What stands after the last slash.
fn last_part(word: &[u8]) -> &[u8]
    ensures { result.now ≡ after_last is_slash word.now }
{
    match last_slash(word) {
        Some(at) => &word[at + 1..],
        None => word,
    }
}

fn last_slash(word: &[u8]) -> Option<usize>
    ensures { MatchOption result
        (EachIndex word.now (λ k. is_slash (slice_index word.now k) ≡ false))
        (λ at. (at < length word.now) × IsTrue (is_slash (slice_index word.now at))
        × ((k : ℕ) → at < k → k < length word.now → is_slash (slice_index word.now k) ≡ false)) }
{
    word.iter().rposition(|byte| *byte == b'/')
}

// What stands before the first dot.
fn stem(part: &[u8]) -> &[u8]
    ensures { result.now ≡ before_first is_dot part.now }
{
    match first_dot(part) {
        Some(at) => &part[..at],
        None => part,
    }
}

fn first_dot(part: &[u8]) -> Option<usize>
    ensures { MatchOption result
        (EachIndex part.now (λ k. is_dot (slice_index part.now k) ≡ false))
        (λ at. (at < length part.now) × IsTrue (is_dot (slice_index part.now at))
        × ((k : ℕ) → k < at → is_dot (slice_index part.now k) ≡ false)) }
{
    part.iter().position(|byte| *byte == b'.')
}
