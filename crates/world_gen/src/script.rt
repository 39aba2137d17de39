// The script of a game.
ghost use Rattle.std.specs.Prelude.{◌≡◌, ◌++◌, ◌<◌, OnOk, IfOk, codes};
ghost use Rattle.world_gen.specs.Scripts.{commands};

use crate::draws::Draws;
use crate::resources::{RESOURCES, Resource};
use std::alloc::{AllocError, Global};

// How many resources the script asks for.
const LINES: u32 = 256;

/// The script of all lines, from the draws at hand.
#[tactic(auto, using(crate::proofs::ScriptLaws::script_laws))]
pub fn script(alloc: Global, draws: &mut Draws) -> Result<Vec<u8>, AllocError>
    ensures { IfOk result (λ text. text.items ≡ commands 256 draws.old.state ++ codes "report\n") }
{
    let mut text = Vec::new(alloc);
    for _line in 0..LINES {
        let number = draws.draw() % u32::from(RESOURCES);
        Resource::numbered(number as u8).append_command(&mut text)?;
    }
    text.extend_from_slice(b"report\n")?;
    Ok(text)
}
