// The memory of a session, between steps.
ghost use Rattle.std.specs.Prelude.{◌≡◌, ◌≤◌, ◌^◌, Some, IfOk, IsSome};
ghost use Rattle.std.specs.Borrow.{sem, Lends, u8 as byte, Array};
ghost use Rattle.mem_model.specs.Answer.{Answers, Gives};
ghost use Rattle.mem_model.specs.Hunk.{low_bytes, high_bytes, temp_bytes, without_temp};
ghost use Rattle.mem_model.specs.Hunk.{with_low_bytes, with_high_bytes, with_temp_bytes};
ghost use Rattle.mem_model.specs.Zone.{zone_bytes, with_zone_bytes};
ghost use Rattle.mem_model.specs.Laid.{Laid, IsText};
ghost use Rattle.mem_model.specs.Operations.{low_alloc, high_alloc, high_mark, high_free, temp_alloc, z_alloc, z_free};
ghost use Rattle.mem_model.specs.Told.{room_answer, zone_answer, free_answer, mark_answer};
ghost use Rattle.res_table.specs.Held.{AreHeld};
ghost use Rattle.console_session.specs.Hosts.{with_memory, HasNoResource, HasNoValue, freed_low};
ghost use Rattle.console_session.specs.contracts.session.Session.{the_row as session_row};

use crate::session::Session;
use mem_model::{BadMark, FreeError, Place, RoomError, Store, ZoneError};
use outside_io::Folder;

// A caller keeps blocks of its own in the session's arena. Blocks in which a resource, a cvar or an alias is are out of its
// reach, and the cache has users for resources alone.
impl<M: Store, F: Folder> Session<M, F> {
    /// `low_alloc` of the store. No resource is in the new block.
    pub fn low_alloc(&mut self, size: u64, name: &[u8]) -> Result<Place, RoomError>
        requires size { size ≤ 2 ^ 62 }
        requires name { IsText name.now }
        ensures gives { Gives (low_alloc self.old.state.memory size name.now) M.frugal self.old.state.memory
            (room_answer result) self.new.state.memory }
        ensures own { IfOk result (λ place. HasNoResource self.new.state place.0) }
        ensures rest { self.new ≡ with_memory self.old self.new.state.memory }
        ensures was_laid { Laid self.old.state.memory }
        ensures laid { Laid self.new.state.memory }
        ensures resources { AreHeld self.new.state.path.mounts self.new.state.table self.new.state.memory }
    {
        self.console.low_alloc(size, name)
    }

    /// `high_alloc` of the store. The command `video` frees the whole high hunk.
    pub fn high_alloc(&mut self, size: u64, name: &[u8]) -> Result<Place, RoomError>
        requires size { size ≤ 2 ^ 62 }
        requires name { IsText name.now }
        ensures gives { Gives (high_alloc self.old.state.memory size name.now) M.frugal
            (without_temp self.old.state.memory) (room_answer result) self.new.state.memory }
        ensures rest { self.new ≡ with_memory self.old self.new.state.memory }
        ensures was_laid { Laid self.old.state.memory }
        ensures laid { Laid self.new.state.memory }
        ensures resources { AreHeld self.new.state.path.mounts self.new.state.table self.new.state.memory }
    {
        self.console.high_alloc(size, name)
    }

    /// `high_mark` of the store.
    pub fn high_mark(&mut self) -> u32
        ensures gives { Answers (high_mark self.old.state.memory) result self.new.state.memory }
        ensures rest { self.new ≡ with_memory self.old self.new.state.memory }
        ensures laid { Laid self.new.state.memory }
        ensures resources { AreHeld self.new.state.path.mounts self.new.state.table self.new.state.memory }
    {
        self.console.high_mark()
    }

    /// `high_free` of the store.
    pub fn high_free(&mut self, mark: u32) -> Result<(), BadMark>
        ensures gives { Answers (high_free self.old.state.memory mark) (mark_answer result) self.new.state.memory }
        ensures rest { self.new ≡ with_memory self.old self.new.state.memory }
        ensures laid { Laid self.new.state.memory }
        ensures resources { AreHeld self.new.state.path.mounts self.new.state.table self.new.state.memory }
    {
        self.console.high_free(mark)
    }

    /// `temp_alloc` of the store. A command that loads a file takes the temporary block.
    pub fn temp_alloc(&mut self, size: u64) -> Result<Place, RoomError>
        requires size { size ≤ 2 ^ 62 }
        ensures gives { Gives (temp_alloc self.old.state.memory size) M.frugal
            (without_temp self.old.state.memory) (room_answer result) self.new.state.memory }
        ensures rest { self.new ≡ with_memory self.old self.new.state.memory }
        ensures was_laid { Laid self.old.state.memory }
        ensures laid { Laid self.new.state.memory }
        ensures resources { AreHeld self.new.state.path.mounts self.new.state.table self.new.state.memory }
    {
        self.console.temp_alloc(size)
    }

    /// `z_alloc` of the store. The new block is neither a cvar's nor an alias's.
    pub fn z_alloc(&mut self, size: u64) -> Result<Place, ZoneError>
        requires size { size ≤ 2 ^ 62 }
        ensures gives { Gives (z_alloc self.old.state.memory size) M.frugal self.old.state.memory
            (zone_answer result) self.new.state.memory }
        ensures own { IfOk result (λ place. HasNoValue self.new.state place.0) }
        ensures rest { self.new ≡ with_memory self.old self.new.state.memory }
        ensures was_laid { Laid self.old.state.memory }
        ensures laid { Laid self.new.state.memory }
        ensures resources { AreHeld self.new.state.path.mounts self.new.state.table self.new.state.memory }
    {
        self.console.z_alloc(size)
    }

    /// `z_free` of the store, of a block that is neither a cvar's nor an alias's.
    pub fn z_free(&mut self, place: Place) -> Result<(), FreeError>
        requires own { HasNoValue self.old.state place.0 }
        ensures gives { Answers (z_free self.old.state.memory place.0) (free_answer result) self.new.state.memory }
        ensures rest { self.new ≡ with_memory self.old self.new.state.memory }
        ensures laid { Laid self.new.state.memory }
        ensures resources { AreHeld self.new.state.path.mounts self.new.state.table self.new.state.memory }
    {
        self.console.z_free(place)
    }

    /// Frees the blocks of the low hunk above a mark, and forgets the resources that lay there.
    ///
    /// A mark below the host level is a `BadMark` as those are that `low_free` of the store refuses; then all is as before.
    pub fn low_free(&mut self, mark: u32) -> Result<(), BadMark>
        ensures freed { (mark_answer result, self.new.state) ≡ freed_low mark self.old.state }
        ensures rest { self.new ≡ record self.old { state = self.new.state } }
        ensures laid { Laid self.new.state.memory }
        ensures resources { AreHeld self.new.state.path.mounts self.new.state.table self.new.state.memory }
    {
        self.console.low_free(mark)
    }

    /// The bytes of a low block above the zone in which no resource is, to be written.
    pub fn low_bytes_mut(&mut self, place: Place) -> &mut [u8]
        requires there { IsSome (low_bytes self.old.state.memory place.0) }
        requires own { HasNoResource self.old.state place.0 }
        ensures* writes_back { sem 𝓛 (Lends (session_row M.row F.row M.Store F.Folder) (Array byte 0) self.entry result
            (λ bytes. with_memory self.old (with_low_bytes self.old.state.memory place.0 bytes))) }
        ensures shows { low_bytes self.old.state.memory place.0 ≡ Some result.now }
    {
        self.console.low_bytes_mut(place)
    }

    /// The bytes of a high block, or of the active temporary block at its place, to be written.
    pub fn high_bytes_mut(&mut self, place: Place) -> &mut [u8]
        requires there { IsSome (high_bytes self.old.state.memory place.0) }
        ensures* writes_back { sem 𝓛 (Lends (session_row M.row F.row M.Store F.Folder) (Array byte 0) self.entry result
            (λ bytes. with_memory self.old (with_high_bytes self.old.state.memory place.0 bytes))) }
        ensures shows { high_bytes self.old.state.memory place.0 ≡ Some result.now }
    {
        self.console.high_bytes_mut(place)
    }

    /// The bytes of the active temporary block, to be written.
    pub fn temp_bytes_mut(&mut self) -> &mut [u8]
        requires there { IsSome (temp_bytes self.old.state.memory) }
        ensures* writes_back { sem 𝓛 (Lends (session_row M.row F.row M.Store F.Folder) (Array byte 0) self.entry result
            (λ bytes. with_memory self.old (with_temp_bytes self.old.state.memory bytes))) }
        ensures shows { temp_bytes self.old.state.memory ≡ Some result.now }
    {
        self.console.temp_bytes_mut()
    }

    /// The bytes of a used block of the zone that is neither a cvar's nor an alias's, to be written.
    pub fn zone_bytes_mut(&mut self, place: Place) -> &mut [u8]
        requires there { IsSome (zone_bytes self.old.state.memory place.0) }
        requires own { HasNoValue self.old.state place.0 }
        ensures* writes_back { sem 𝓛 (Lends (session_row M.row F.row M.Store F.Folder) (Array byte 0) self.entry result
            (λ bytes. with_memory self.old (with_zone_bytes self.old.state.memory place.0 bytes))) }
        ensures shows { zone_bytes self.old.state.memory place.0 ≡ Some result.now }
    {
        self.console.zone_bytes_mut(place)
    }
}
