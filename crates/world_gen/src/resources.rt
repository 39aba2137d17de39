// The resources of a game.
ghost use Rattle.std.specs.Prelude.{◌≡◌, ◌++◌, ◌∷◌, [], ◌<◌, OnOk};
ghost use Rattle.world_gen.specs.Resources.{numbered, digit, two_digits, file_name, command, file_of, behind_file};

use crate::draws::Draws;
use crate::files::{append_map, append_sound, append_sprite};
use std::alloc::AllocError;

/// How many resources a game has.
pub const RESOURCES: u8 = 34;

/// A resource of a game, with its number among those of its kind.
#[derive(Clone, Copy)]
pub enum Resource {
    Sound(u8),
    Sprite(u8),
    Map(u8),
}

impl Resource {
    /// The resource of a number below `RESOURCES`: the sounds come first, then the sprites and the maps.
    #[tactic(auto, unfolding(crate::specs::Resources::numbered))]
    pub fn numbered(number: u8) -> Resource
        ensures { result ≡ numbered number }
    {
        if number < 24 {
            Resource::Sound(number)
        } else if number < 32 {
            Resource::Sprite(number - 24)
        } else {
            Resource::Map(number - 32)
        }
    }

    /// Appends the name of its file.
    pub fn append_name(self, text: &mut Vec<u8>) -> Result<(), AllocError>
        ensures { OnOk result (text.new.items ≡ text.old.items ++ file_name self) }
    {
        match self {
            Resource::Sound(number) => append_all(text, b"sound/s", &two_digits(number), b".wav"),
            Resource::Sprite(number) => append_all(text, b"p", &[digit(number)], b".spr"),
            Resource::Map(number) => append_all(text, b"maps/m", &[digit(number)], b".bsp"),
        }
    }

    /// Appends the line that asks for it.
    pub fn append_command(self, text: &mut Vec<u8>) -> Result<(), AllocError>
        ensures { OnOk result (text.new.items ≡ text.old.items ++ command self) }
    {
        match self {
            Resource::Sound(number) => append_all(text, b"sound s", &two_digits(number), b".wav\n"),
            Resource::Sprite(number) => append_all(text, b"model p", &[digit(number)], b".spr\n"),
            Resource::Map(number) => append_all(text, b"map m", &[digit(number)], b"\n"),
        }
    }

    /// Appends its file.
    pub fn append_file(self, file: &mut Vec<u8>, draws: &mut Draws) -> Result<(), AllocError>
        ensures bytes { OnOk result (file.new.items ≡ file.old.items ++ file_of self draws.old.state) }
        ensures state { OnOk result (draws.new.state ≡ behind_file self draws.old.state) }
    {
        match self {
            Resource::Sound(_) => append_sound(file, draws),
            Resource::Sprite(_) => append_sprite(file, draws),
            Resource::Map(_) => append_map(file),
        }
    }
}

fn digit(number: u8) -> u8
    ensures { result ∷ [] ≡ digit number }
{
    b'0' + number % 10
}

fn two_digits(number: u8) -> [u8; 2]
    ensures { result ≡ two_digits number }
{
    [digit(number / 10), digit(number)]
}

fn append_all(
    text: &mut Vec<u8>,
    front: &[u8],
    digits: &[u8],
    back: &[u8],
) -> Result<(), AllocError>
    ensures { OnOk result (text.new.items ≡ text.old.items ++ (front.now ++ digits.now ++ back.now)) }
{
    text.extend_from_slice(front)?;
    text.extend_from_slice(digits)?;
    text.extend_from_slice(back)?;
    Ok(())
}
