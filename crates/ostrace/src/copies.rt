//! Copies of bytes.

ghost use Rattle.std.specs.Prelude.{◌≡◌, ◌*◌, ◌≤◌, length};

/// Copies the bytes of `from` over those of `to`, which has as many. For 2 to 16 bytes it calls no library function.
#[inline(always)]
pub fn copy_bytes(to: &mut [u8], from: &[u8])
    requires { length to.old ≡ length from.now }
    ensures { to.new ≡ from.now }
{
    match from.len() {
        4..=8 => copy_ends::<4>(to, from),
        9..=16 => copy_ends::<8>(to, from),
        2..=3 => copy_ends::<2>(to, from),
        _ => to.copy_from_slice(from),
    }
}

// Copies the first `N` bytes and the last `N`, which may overlap and together are all.
#[inline(always)]
fn copy_ends<const N: usize>(to: &mut [u8], from: &[u8])
    requires same { length to.old ≡ length from.now }
    requires least { N ≤ length from.now }
    requires most { length from.now ≤ 2 * N }
    ensures { to.new ≡ from.now }
{
    let first = *from.first_chunk::<N>().unwrap();
    let last = *from.last_chunk::<N>().unwrap();
    *to.first_chunk_mut::<N>().unwrap() = first;
    *to.last_chunk_mut::<N>().unwrap() = last;
}
