//! The seed that ids are made from.
use std::io::Error;
use std::random::RandomSource;

/// 28 bytes of a source of random bytes, or its error. What the bytes are isn't promised.
pub fn seed_from<R: RandomSource>(source: &R) -> Result<[u8; 28], Error> {
    let mut seed = [0; 28];
    match source.fill_bytes(&mut seed) {
        Ok(()) => Ok(seed),
        Err(error) => Err(error),
    }
}
