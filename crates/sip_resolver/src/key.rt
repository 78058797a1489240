//! Keys from the system's entropy.
use std::io;
use std::random::RandomSource;

/// A key of 32 octets, from the system's source of random octets.
///
/// # Errors
///
/// Those of the system.
pub fn random_key<R: RandomSource>(rt: &R) -> io::Result<[u8; 32]> {
    let mut key = [0; 32];
    rt.fill_bytes(&mut key)?;
    Ok(key)
}
