use super::*;

// The bytes, each times its place from 1 on, summed up modulo 2^32.
fn checksum(bytes: &[u8]) -> u32 {
    let mut place = 0u32;
    let mut sum = 0u32;
    for byte in bytes {
        place = place.wrapping_add(1);
        sum = sum.wrapping_add(place.wrapping_mul(u32::from(*byte)));
    }
    sum
}

// The lengths and checksums were computed apart from this program.
#[test]
fn a_number_gives_its_game(rt: HostRuntime) {
    let cases = [
        (0, (997_349, 40_876_695), (3402, 491_419_686)),
        (7, (910_042, 2_016_932_051), (3443, 504_591_949)),
        (999_999_999, (986_788, 2_443_806_116), (3431, 500_204_193)),
    ];
    for (number, pack, script) in cases {
        match generate(rt.alloc(), number) {
            Ok(game) => {
                let found = (game.pack.len(), checksum(&game.pack));
                assert_eq!(rt; found, pack, "the pack of {number}");
                let found = (game.script.len(), checksum(&game.script));
                assert_eq!(rt; found, script, "the script of {number}");
            }
            Err(AllocError) => assert!(rt; false, "no memory at {number}"),
        }
    }
}

#[test]
fn a_script_asks_for_resources_and_reports(rt: HostRuntime) {
    match generate(rt.alloc(), 7) {
        Ok(game) => {
            assert!(rt;
                game.script
                    .starts_with(b"sound s02.wav\nmodel p1.spr\nsound s03.wav\n")
            );
            assert!(rt; game.script.ends_with(b"\nreport\n"));
        }
        Err(AllocError) => assert!(rt; false, "no memory"),
    }
}
