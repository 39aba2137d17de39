ghost use Rattle.std.specs.Prelude.{◌≡◌, ◌<◌, ◌≤◌, ◌^◌};
ghost use Rattle.mem_model.specs.Laid.{IsText};

use crate::report;
use mem_model::{PlainStore, Store};
use outside_io::MemSink;
use std::alloc::Global;
use std::test::Fail;

// Asks for a block in the cache.
#[tactic(auto, using(mem_model::proofs::CacheLaws::cache_laws))]
fn cache<M: Store>(store: &mut M, user: u32, size: u64, name: &[u8]) -> bool
    requires user { user < (M.state store.old).users }
    requires size { size ≤ 2 ^ 62 }
    requires name { IsText name.now }
    ensures { (M.state store.new).users ≡ (M.state store.old).users }
{
    store.cache_alloc(user, size, name).is_ok()
}

// Two blocks in the cache, over which blocks of the low hunk grow; blocks in both hunks, the newest of them temporary;
// and one in the zone.
fn filled(alloc: Global) -> Result<PlainStore, Fail> {
    let mut store = PlainStore::create(alloc, 65_536, 49_152, 8)?;
    cache(&mut store, 3, 56, b"one");
    cache(&mut store, 1, 8, b"fifteen_letters_");
    store.low_alloc(5, b"a")?;
    store.low_alloc(100, b"long_name")?;
    store.high_alloc(100, b"v")?;
    store.temp_alloc(0)?;
    store.z_alloc(10)?;
    Ok(store)
}

#[test]
fn each_block_has_its_line(rt: HostRuntime) -> Result<(), Fail> {
    let alloc = rt.alloc();
    let text = concat!(
        "hunk 65536 low 49328 high 144 room 16064 temp 1\n",
        "low 0 49168 zone\nlow 49168 32 a\nlow 49200 128 long_nam\n",
        "high 65392 16 temp\nhigh 65408 128 v\n",
        "zone 48 40 used\nzone 88 49080 free\nrover 88\n",
        "cache 49408 48 1 fifteen_letters\ncache 49456 96 3 one\nlru 3\nlru 1\n",
    );
    let store = filled(alloc)?;
    let mut out = MemSink::create(alloc, 1000, Vec::new(alloc))?;
    report(&store, &mut out)?;
    assert_eq!(rt; out.got(), text.as_bytes());
    for room in [0, 47, 100, 182, 209, 248] {
        let mut short = MemSink::create(alloc, room, Vec::new(alloc))?;
        assert!(rt; report(&store, &mut short).is_err());
        assert!(rt; text.as_bytes().starts_with(short.got()), "at {room}");
    }
    Ok(())
}
