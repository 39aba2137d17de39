//! What no clause says: that calls succeed, and the texts of the defaults.

use crate::Cvars;
use mem_model::{PlainStore, ZoneError};
use std::test::Fail;

#[test]
fn cvars_begin_with_their_defaults(rt: HostRuntime) -> Result<(), Fail> {
    let mut store = PlainStore::create(rt.alloc(), 65_536, 49_152, 8)?;
    let cvars = Cvars::create(&mut store)?;
    for (name, value) in [
        ("developer", Some("0")),
        ("volume", Some("0.7")),
        ("bgmvolume", Some("1")),
        ("sensitivity", Some("3")),
        ("viewsize", Some("100")),
        ("crosshair", Some("0")),
        ("gamma", Some("1")),
        ("fov", Some("90")),
        ("Volume", None),
        ("volum", None),
        ("", None),
    ] {
        let got = cvars.get(&store, name.as_bytes());
        assert_eq!(rt; got, value.map(|value| value.as_bytes()), "at {name}");
        assert_eq!(rt;
            cvars.contains(name.as_bytes()),
            value.is_some(),
            "at {name}"
        );
    }
    Ok(())
}

#[test]
fn a_value_that_is_set_is_read_back(rt: HostRuntime) -> Result<(), Fail> {
    let mut store = PlainStore::create(rt.alloc(), 65_536, 49_152, 8)?;
    let mut cvars = Cvars::create(&mut store)?;
    let volume = cvars.set(&mut store, b"volume", b"0.5")?;
    let fov = cvars.set(&mut store, b"fov", b"12345678")?;
    let other = cvars.set(&mut store, b"FOV", b"110")?;
    let gamma = cvars.set(&mut store, b"gamma", b"")?;
    assert_eq!(rt; (volume, fov, other, gamma), (true, true, false, true));
    for (name, value) in [
        ("volume", Some("0.5")),
        ("fov", Some("12345678")),
        ("FOV", None),
        ("gamma", Some("")),
        ("crosshair", Some("0")),
    ] {
        let got = cvars.get(&store, name.as_bytes());
        assert_eq!(rt; got, value.map(|value| value.as_bytes()), "at {name}");
    }
    Ok(())
}

#[test]
fn a_full_zone_refuses(rt: HostRuntime) -> Result<(), Fail> {
    // There are 288 bytes for blocks, of which the seventh value takes what is left.
    let mut small = PlainStore::create(rt.alloc(), 65_536, 320, 8)?;
    assert!(rt;
        matches!(
            Cvars::create(&mut small),
            Err(ZoneError::Full { asked: 32 })
        )
    );
    // There are 320, of which the eighth takes what is left.
    let mut store = PlainStore::create(rt.alloc(), 65_536, 352, 8)?;
    let mut cvars = Cvars::create(&mut store)?;
    let answer = cvars.set(&mut store, b"fov", b"110");
    assert_eq!(rt; answer, Err(ZoneError::Full { asked: 32 }));
    assert_eq!(rt; cvars.get(&store, b"fov"), Some(b"90".as_slice()));
    Ok(())
}
