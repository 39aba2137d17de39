// The memory of a level.
ghost use Rattle.std.specs.Prelude.{◌≡◌, ◌≤◌, ◌^◌, length, take, IfOk};
ghost use Rattle.mem_model.specs.Laid.{IsText};
ghost use Rattle.example_server.specs.Levels.{HoldsMap, HoldsScore};

use crate::errors::ServerError;
use base_fields::put_u32;
use console_session::Session;
use mem_model::{Place, Store};
use outside_io::Folder;

/// Where the blocks of a level are.
#[derive(Clone, Copy, Debug, PartialEq, Eq)]
pub struct Level {
    /// Its map, in the low hunk.
    pub map: Place,
    /// The score of its players, in the zone.
    pub score: Place,
}

// Writes these bytes over the front of others.
fn write_front(into: &mut [u8], front: &[u8])
    requires { length front.now ≤ length into.old }
    ensures front { take (length front.now) into.new ≡ front.now }
    ensures length { length into.new ≡ length into.old }
{
    into[..front.len()].copy_from_slice(front);
}

// Puts the bytes of a map into a new block of the low hunk.
#[tactic(auto, using(mem_model::proofs::Laws::store_laws, mem_model::proofs::ZoneLaws::apart_laws))]
fn put_map<M: Store, F: Folder>(
    session: &mut Session<M, F>,
    name: &[u8],
    map: &[u8],
) -> Result<Place, ServerError>
    requires name { IsText name.now }
    requires small { length map.now ≤ 2 ^ 62 }
    ensures map { IfOk result (λ place. HoldsMap session.new.state.memory place.0 map.now) }
    ensures zone { session.new.state.memory.zone ≡ session.old.state.memory.zone }
    ensures ended { session.new.ended ≡ session.old.ended }
{
    let place = session.low_alloc(map.len() as u64, name)?;
    write_front(session.low_bytes_mut(place), map);
    Ok(place)
}

// Puts a score into a new block of the zone.
#[tactic(auto, using(mem_model::proofs::ZoneLaws::zone_laws))]
fn put_score<M: Store, F: Folder>(
    session: &mut Session<M, F>,
    score: u32,
) -> Result<Place, ServerError>
    ensures score { IfOk result (λ place. HoldsScore session.new.state.memory place.0 score) }
    ensures ended { session.new.ended ≡ session.old.ended }
{
    let place = session.z_alloc(4)?;
    put_u32(session.zone_bytes_mut(place), 0, score);
    Ok(place)
}

/// Loads a level: the bytes of its map and its score are in blocks of the session's own arena, beside all that the console
/// keeps there.
#[tactic(auto, using(crate::proofs::Scores::score_stays))]
pub fn load_level<M: Store, F: Folder>(
    session: &mut Session<M, F>,
    name: &[u8],
    map: &[u8],
    score: u32,
) -> Result<Level, ServerError>
    requires name { IsText name.now }
    requires small { length map.now ≤ 2 ^ 62 }
    ensures map { IfOk result (λ level. HoldsMap session.new.state.memory level.map.0 map.now) }
    ensures score { IfOk result (λ level. HoldsScore session.new.state.memory level.score.0 score) }
    ensures ended { session.new.ended ≡ session.old.ended }
{
    let score = put_score(session, score)?;
    let map = put_map(session, name, map)?;
    Ok(Level { map, score })
}
