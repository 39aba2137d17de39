// The numbers of commands and options.
ghost use Rattle.std.specs.Prelude.{◌≡◌};
ghost use Rattle.std.specs.Result.{result_ok};
ghost use Rattle.std.specs.List.{list_all};
ghost use Rattle.std.specs.Char.{is_ascii_digit};
ghost use Rattle.base_fields.specs.Numbers.{is_number_word, number_of};

use std::str;
use thiserror::Error;

/// The bytes of a word are not a number of 1 to 9 decimal digits.
#[derive(Clone, Copy, Debug, PartialEq, Eq, Error)]
#[error("bad number")]
pub struct BadNumber;

/// The number that 1 to 9 decimal digits write, with any leading zeros. Every other word is refused,
/// the empty one and one with a sign too.
#[tactic(auto, using(crate::proofs::NumberLaws::text_from_number, crate::proofs::NumberLaws::parse_from_number))]
pub fn decimal(word: &[u8]) -> Result<u32, BadNumber>
    ensures { number_of word.now ≡ result_ok result }
{
    if !is_number(word) {
        return Err(BadNumber);
    }
    let digits = str::from_utf8(word).unwrap();
    Ok(digits.parse::<u32>().unwrap())
}

#[tactic(auto, unfolding(crate::specs::Numbers::is_number_word))]
fn is_number(word: &[u8]) -> bool
    ensures { result ≡ is_number_word word.now }
{
    (1..=9).contains(&word.len()) && has_only_digits(word)
}

fn has_only_digits(word: &[u8]) -> bool
    ensures { result ≡ list_all is_ascii_digit word.now }
{
    word.iter().all(|byte| byte.is_ascii_digit())
}
