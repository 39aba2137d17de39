// What makes an image of the bytes of a file.
ghost use Rattle.std.specs.Prelude.{◌≡◌, ◌≤◌, ◌^◌, ℕ, List, Result, Ok, IsOk, IsOkAnd, IfOk, length};
ghost use Rattle.mem_model.specs.Images.{image_size};

/// What makes a resource of the bytes of a file. Its image is what stands in memory.
pub trait Builder {
    /// Why bytes have no image.
    type Fault: Drop;

    /// The image of a source, or its first fault.
    ghost image_of: { Self → List ℕ → Result (List ℕ) Self.Fault };

    /// The length of the image in bytes, or the fault.
    fn size(&self, source: &[u8]) -> Result<u64, Self::Fault>
        requires { length source.now ≤ 2 ^ 26 }
        ensures { result ≡ image_size (image_of self.now source.now) };

    /// The length of the image in bytes, where there is one: a builder that tells it faster than by `size` says so here.
    fn length(&self, source: &[u8]) -> u64
        requires small { length source.now ≤ 2 ^ 26 }
        requires image { IsOk (image_of self.now source.now) }
        ensures { IfOk (image_of self.now source.now) (λ image. result ≡ length image) }
    {
        match self.size(source) {
            Ok(size) => size,
            Err(_) => unreachable!(),
        }
    }

    /// `block` becomes the image, whose length it has.
    fn build(&self, source: &[u8], block: &mut [u8])
        requires small { length source.now ≤ 2 ^ 26 }
        requires image { IsOkAnd (image_of self.now source.now) (λ image. length image ≡ length block.old) }
        ensures { image_of self.now source.now ≡ Ok block.new };
}
