//! The last bytes of a name as a number.

ghost use Rattle.std.specs.Prelude.{◌≡◌};
ghost use Rattle.name_ends.specs.Endings.{lower_bytes, ending};

/// Bytes as a number, the last the lowest. What is beyond 64 bits falls off.
fn lower_bytes(bytes: &[u8]) -> u64
    ensures { result ≡ lower_bytes 0 bytes.now }
{
    let mut number: u64 = 0;
    for byte in bytes {
        number = number.wrapping_mul(256).wrapping_add(u64::from(*byte));
    }
    number
}

/// The last eight bytes of a name as a number, the last byte the lowest; all of them where it has fewer.
///
/// Equal names have equal ends, so it may stand in front of a name in the key of a map: names are then compared byte by byte where
/// their ends are equal alone.
#[inline]
#[tactic(auto, unfolding(crate::specs::Endings::ending))]
pub fn ending(name: &str) -> u64
    ensures { result ≡ ending name.now }
{
    let bytes = name.as_bytes();
    lower_bytes(&bytes[bytes.len().saturating_sub(8)..])
}
