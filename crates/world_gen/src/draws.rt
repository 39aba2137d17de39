// The draws of a game.
ghost use Rattle.std.specs.Prelude.{◌≡◌, ◌++◌, ◌<◌, OnOk};
ghost use Rattle.world_gen.specs.Draws.{stepped, drawn, bytes_drawn, state_after};

use std::alloc::AllocError;

/// A row of numbers of 16 bits that a number determines.
#[derive(Drop)]
pub struct Draws {
    state: u32,
}

impl Draws {
    /// The draws that begin with a number.
    pub fn new(number: u32) -> Draws
        ensures { result.state ≡ number }
    {
        Draws { state: number }
    }

    /// The next draw.
    pub fn draw(&mut self) -> u32
        ensures value { result ≡ drawn self.old.state }
        ensures state { self.new.state ≡ stepped self.old.state }
    {
        self.state = self
            .state
            .wrapping_mul(1_664_525)
            .wrapping_add(1_013_904_223);
        self.state / 65536
    }

    /// Appends the lowest bytes of so many draws.
    #[tactic(auto, using(crate::proofs::DrawLaws::draw_laws))]
    pub fn append_bytes(&mut self, bytes: &mut Vec<u8>, count: u32) -> Result<(), AllocError>
        ensures bytes { OnOk result (bytes.new.items ≡ bytes.old.items ++ bytes_drawn count self.old.state) }
        ensures state { OnOk result (self.new.state ≡ state_after count self.old.state) }
    {
        for _drawn in 0..count {
            bytes.push((self.draw() % 256) as u8)?;
        }
        Ok(())
    }
}
