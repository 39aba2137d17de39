// What the checks rest on.
ghost use Rattle.std.specs.Prelude.{◌≡◌, ◌↔◌, ℕ, List, Err};
ghost use Rattle.bsp29_tables.specs.declared.fault.BspFault.{BspFault};
ghost use Rattle.bsp29_tables.specs.declared.lumps.Lump.{Lump};
ghost use Rattle.bsp29_tables.specs.Checks.{fine};
ghost use Rattle.bsp29_tables.specs.Lumps.{all_lumps, rows_of, lump_check, lumps_check};
ghost use Rattle.bsp29_tables.specs.Textures.{texture_offsets, texture_check, textures_check};
ghost use Rattle.bsp29_tables.specs.Cycles.{animation_check, animations_check, frame_check, frames_check};
ghost use Rattle.bsp29_tables.specs.Rows.{counts_of, row_check, lump_rows_check};
ghost use Rattle.bsp29_tables.specs.Order.{check_of};
ghost use Rattle.bsp29_tables.specs.First.{IsFirst};
ghost use Rattle.bsp29_tables.specs.Sound.{IsSound};

/// Exactly the sound files have no fault: their lumps lie in them, their textures in their lump, no animation lacks a
/// frame, and what a row names is there.
pub fn sound_files()
    ensures { (bytes : List ℕ) → (check_of bytes ≡ fine) ↔ IsSound bytes }
{}

/// The fault of a list is that of its first lump, texture or row that has one.
pub fn first_faults()
    ensures lump { (bytes : List ℕ) (fault : BspFault) → lumps_check bytes ≡ Err fault
        → IsFirst (λ number lump. lump_check bytes lump) all_lumps fault }
    ensures texture { (lump : List ℕ) (fault : BspFault) → textures_check lump ≡ Err fault
        → IsFirst (texture_check lump) (texture_offsets lump) fault }
    ensures animation { (lump : List ℕ) (fault : BspFault) → animations_check lump ≡ Err fault
        → IsFirst (animation_check lump) (texture_offsets lump) fault }
    ensures frame { (lump : List ℕ) (fault : BspFault) → frames_check lump ≡ Err fault
        → IsFirst (frame_check lump) (texture_offsets lump) fault }
    ensures row { (bytes : List ℕ) (lump : Lump) (fault : BspFault) → lump_rows_check bytes lump ≡ Err fault
        → IsFirst (row_check (counts_of bytes) lump) (rows_of bytes lump) fault }
{}
