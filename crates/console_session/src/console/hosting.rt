// Calls of the store, between commands.
ghost use Rattle.std.specs.Prelude.{◌≡◌, ◌≤◌, ◌^◌, Some, IfOk, IsSome};
ghost use Rattle.std.specs.Borrow.{sem, Lends, u8 as byte, Array};
ghost use Rattle.mem_model.specs.Answer.{Answers, Gives};
ghost use Rattle.mem_model.specs.Hunk.{low_bytes, high_bytes, temp_bytes, without_temp};
ghost use Rattle.mem_model.specs.Zone.{zone_bytes};
ghost use Rattle.mem_model.specs.Laid.{Laid, IsText};
ghost use Rattle.mem_model.specs.Operations.{low_alloc, low_free, high_alloc, high_mark, high_free, temp_alloc, z_alloc, z_free};
ghost use Rattle.mem_model.specs.Told.{room_answer, zone_answer, free_answer, mark_answer};
ghost use Rattle.console_session.specs.Holding.{Holds};
ghost use Rattle.console_session.specs.Hosts.{HasNoResource, HasNoValue, freed_low};
ghost use Rattle.console_session.specs.Serving.{seen};
ghost use Rattle.console_session.specs.contracts.console.Console.{the_row as console_row};

use crate::console::Console;
use mem_model::{BadMark, FreeError, Place, RoomError, Store, ZoneError};
use outside_io::Folder;

impl<M: Store, F: Folder> Console<M, F> {
    pub fn low_alloc(&mut self, size: u64, name: &[u8]) -> Result<Place, RoomError>
        requires holds { Holds (seen M.Store F.Folder self.old) }
        requires size { size ≤ 2 ^ 62 }
        requires name { IsText name.now }
        ensures gives { Gives (low_alloc (M.state self.old.store) size name.now) M.frugal (M.state self.old.store)
            (room_answer result) (M.state self.new.store) }
        ensures own { IfOk result (λ place. HasNoResource (seen M.Store F.Folder self.new) place.0) }
        ensures rest { self.new ≡ record self.old { store = self.new.store } }
        ensures holds { Holds (seen M.Store F.Folder self.new) }
    {
        self.store.low_alloc(size, name)
    }

    pub fn high_alloc(&mut self, size: u64, name: &[u8]) -> Result<Place, RoomError>
        requires holds { Holds (seen M.Store F.Folder self.old) }
        requires size { size ≤ 2 ^ 62 }
        requires name { IsText name.now }
        ensures gives { Gives (high_alloc (M.state self.old.store) size name.now) M.frugal
            (without_temp (M.state self.old.store)) (room_answer result) (M.state self.new.store) }
        ensures rest { self.new ≡ record self.old { store = self.new.store } }
        ensures holds { Holds (seen M.Store F.Folder self.new) }
    {
        self.store.high_alloc(size, name)
    }

    pub fn high_mark(&mut self) -> u32
        requires holds { Holds (seen M.Store F.Folder self.old) }
        ensures gives { Answers (high_mark (M.state self.old.store)) result (M.state self.new.store) }
        ensures rest { self.new ≡ record self.old { store = self.new.store } }
        ensures holds { Holds (seen M.Store F.Folder self.new) }
    {
        self.store.high_mark()
    }

    pub fn high_free(&mut self, mark: u32) -> Result<(), BadMark>
        requires holds { Holds (seen M.Store F.Folder self.old) }
        ensures gives { Answers (high_free (M.state self.old.store) mark) (mark_answer result) (M.state self.new.store) }
        ensures rest { self.new ≡ record self.old { store = self.new.store } }
        ensures holds { Holds (seen M.Store F.Folder self.new) }
    {
        self.store.high_free(mark)
    }

    pub fn temp_alloc(&mut self, size: u64) -> Result<Place, RoomError>
        requires holds { Holds (seen M.Store F.Folder self.old) }
        requires size { size ≤ 2 ^ 62 }
        ensures gives { Gives (temp_alloc (M.state self.old.store) size) M.frugal
            (without_temp (M.state self.old.store)) (room_answer result) (M.state self.new.store) }
        ensures rest { self.new ≡ record self.old { store = self.new.store } }
        ensures holds { Holds (seen M.Store F.Folder self.new) }
    {
        self.store.temp_alloc(size)
    }

    pub fn z_alloc(&mut self, size: u64) -> Result<Place, ZoneError>
        requires holds { Holds (seen M.Store F.Folder self.old) }
        requires size { size ≤ 2 ^ 62 }
        ensures gives { Gives (z_alloc (M.state self.old.store) size) M.frugal (M.state self.old.store)
            (zone_answer result) (M.state self.new.store) }
        ensures own { IfOk result (λ place. HasNoValue (seen M.Store F.Folder self.new) place.0) }
        ensures rest { self.new ≡ record self.old { store = self.new.store } }
        ensures holds { Holds (seen M.Store F.Folder self.new) }
    {
        self.store.z_alloc(size)
    }

    pub fn z_free(&mut self, place: Place) -> Result<(), FreeError>
        requires holds { Holds (seen M.Store F.Folder self.old) }
        requires own { HasNoValue (seen M.Store F.Folder self.old) place.0 }
        ensures gives { Answers (z_free (M.state self.old.store) place.0) (free_answer result) (M.state self.new.store) }
        ensures rest { self.new ≡ record self.old { store = self.new.store } }
        ensures holds { Holds (seen M.Store F.Folder self.new) }
    {
        self.store.z_free(place)
    }

    // Frees the low hunk to a mark that isn't below the host level, and forgets what lay behind it.
    pub fn low_free(&mut self, mark: u32) -> Result<(), BadMark>
        requires holds { Holds (seen M.Store F.Folder self.old) }
        ensures freed { (mark_answer result, seen M.Store F.Folder self.new)
            ≡ freed_low mark (seen M.Store F.Folder self.old) }
        ensures rest { self.new ≡ record self.old { store = self.new.store; table = self.new.table } }
        ensures holds { Holds (seen M.Store F.Folder self.new) }
    {
        if mark < self.level {
            return Err(BadMark { mark });
        }
        self.store.low_free(mark)?;
        self.table.forget_low(mark);
        Ok(())
    }

    pub fn low_bytes_mut(&mut self, place: Place) -> &mut [u8]
        requires there { IsSome (low_bytes (M.state self.old.store) place.0) }
        ensures* writes_back { sem 𝓛 (Lends (console_row M.row F.row F.Folder) (Array byte 0) self.entry result
            (λ bytes. record self.old { store = M.low_written self.old.store place.0 bytes })) }
        ensures shows { low_bytes (M.state self.old.store) place.0 ≡ Some result.now }
    {
        self.store.low_bytes_mut(place)
    }

    pub fn high_bytes_mut(&mut self, place: Place) -> &mut [u8]
        requires there { IsSome (high_bytes (M.state self.old.store) place.0) }
        ensures* writes_back { sem 𝓛 (Lends (console_row M.row F.row F.Folder) (Array byte 0) self.entry result
            (λ bytes. record self.old { store = M.high_written self.old.store place.0 bytes })) }
        ensures shows { high_bytes (M.state self.old.store) place.0 ≡ Some result.now }
    {
        self.store.high_bytes_mut(place)
    }

    pub fn temp_bytes_mut(&mut self) -> &mut [u8]
        requires there { IsSome (temp_bytes (M.state self.old.store)) }
        ensures* writes_back { sem 𝓛 (Lends (console_row M.row F.row F.Folder) (Array byte 0) self.entry result
            (λ bytes. record self.old { store = M.temp_written self.old.store bytes })) }
        ensures shows { temp_bytes (M.state self.old.store) ≡ Some result.now }
    {
        self.store.temp_bytes_mut()
    }

    pub fn zone_bytes_mut(&mut self, place: Place) -> &mut [u8]
        requires there { IsSome (zone_bytes (M.state self.old.store) place.0) }
        ensures* writes_back { sem 𝓛 (Lends (console_row M.row F.row F.Folder) (Array byte 0) self.entry result
            (λ bytes. record self.old { store = M.zone_written self.old.store place.0 bytes })) }
        ensures shows { zone_bytes (M.state self.old.store) place.0 ≡ Some result.now }
    {
        self.store.zone_bytes_mut(place)
    }
}
