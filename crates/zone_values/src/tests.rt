//! What no clause says: that calls succeed, and places from outside.

ghost use Rattle.std.specs.Prelude.{◌<◌, ◌^◌, length};

use crate::{put_value, replace_value, value_at};
use mem_model::{Place, PlainStore, Store, ZoneError};
use std::test::Fail;

// Puts a value into any store and another in its place, reads both back, and answers their places.
#[tactic(auto, using(crate::proofs::ValueLaws::value_laws))]
fn reads_back<M: Store>(
    store: &mut M,
    first: &[u8],
    second: &[u8],
) -> Result<(Place, Place, bool), ZoneError>
    requires first { length first.now < 2 ^ 62 }
    requires second { length second.now < 2 ^ 62 }
{
    let old = put_value(store, first)?;
    let is_first = value_at(store, old) == first;
    let new = replace_value(store, old, second)?;
    Ok((old, new, is_first && value_at(store, new) == second))
}

#[test]
fn values_are_read_back(rt: HostRuntime) -> Result<(), Fail> {
    let mut store = PlainStore::create(rt.alloc(), 65_536, 49_152, 8)?;
    let answer = reads_back(&mut store, b"0.7", b"a value of more than thirty-two bytes");
    assert_eq!(rt; answer, Ok((Place(72), Place(104), true)));
    assert_eq!(rt;
        reads_back(&mut store, b"", b""),
        Ok((Place(176), Place(208), true))
    );
    Ok(())
}

#[test]
fn a_new_value_does_not_take_the_room_of_the_old_one(rt: HostRuntime) -> Result<(), Fail> {
    // The zone has 64 bytes for blocks, which the first value takes.
    let mut store = PlainStore::create(rt.alloc(), 65_536, 96, 8)?;
    let answer = reads_back(&mut store, b"old", b"new");
    assert_eq!(rt; answer, Err(ZoneError::Full { asked: 32 }));
    assert_eq!(rt; store.zone_row(0).map(|row| row.used), Some(true));
    Ok(())
}
