use crate::{draw_seed, read_flags};
use std::io;
use std::random::RandomSource;
use std::test::Fail;

// A source of bytes that count up from 1.
struct CountingSource;

impl RandomSource for CountingSource {
    fn fill_bytes(&self, bytes: &mut [u8]) -> io::Result<()> {
        let mut next = 1;
        for byte in bytes {
            *byte = next;
            next = next.wrapping_add(1);
        }
        Ok(())
    }
}

#[test]
fn each_byte_of_a_seed_is_drawn(rt: HostRuntime) -> Result<(), Fail> {
    let wanted = [
        1, 2, 3, 4, 5, 6, 7, 8, 9, 10, 11, 12, 13, 14, 15, 16, 17, 18, 19, 20, 21, 22, 23, 24, 25,
        26, 27, 28, 29, 30, 31, 32,
    ];
    assert_eq!(rt; draw_seed(&CountingSource)?, wanted);
    Ok(())
}

#[test]
fn each_processor_has_a_shard(rt: HostRuntime) -> Result<(), Fail> {
    for (processors, wanted) in [(0, 1), (1, 1), (5, 5), (64, 64), (65, 64)] {
        let settings = read_flags(rt.alloc(), &[], processors).map_err(|_| Fail::from(
            "the flags are wrong",
        ))?;
        assert_eq!(rt; settings.config.shards, wanted);
    }
    Ok(())
}
