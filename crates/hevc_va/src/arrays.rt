//! Arrays of a buffer, as long as its struct says.
ghost use Rattle.std.specs.Prelude.{◌≡◌, IsTrue, length};
ghost use Rattle.std.specs.List.{list_all};
ghost use Rattle.hevc_v4l2.specs.Arrays.{is_byte, is_signed_byte};
ghost use Rattle.hevc_va.specs.Arrays.{is_16_bits};

/// Whether each number fits a byte.
pub(crate) fn are_bytes(numbers: &[u32]) -> bool
    ensures { result ≡ list_all is_byte numbers.now }
{
    numbers.iter().all(|number| *number <= 255)
}

/// The same numbers, each as a byte.
pub(crate) fn bytes_of<const N: usize>(numbers: &[u32; N]) -> [u8; N]
    requires { IsTrue (list_all is_byte numbers.now) }
    ensures { result ≡ numbers.now }
{
    let mut bytes = [0; N];
    for i in 0..N {
        bytes[i] = numbers[i] as u8;
    }
    bytes
}

/// Whether each number fits a signed byte.
pub(crate) fn are_signed_bytes(numbers: &[i32]) -> bool
    ensures { result ≡ list_all is_signed_byte numbers.now }
{
    numbers
        .iter()
        .all(|number| -128 <= *number && *number <= 127)
}

/// The same numbers, each as a signed byte.
pub(crate) fn signed_bytes_of<const N: usize>(numbers: &[i32; N]) -> [i8; N]
    requires { IsTrue (list_all is_signed_byte numbers.now) }
    ensures { result ≡ numbers.now }
{
    let mut bytes = [0; N];
    for i in 0..N {
        bytes[i] = numbers[i] as i8;
    }
    bytes
}

/// Whether each number fits 16 bits.
pub(crate) fn are_16_bits(numbers: &[u32]) -> bool
    ensures { result ≡ list_all is_16_bits numbers.now }
{
    numbers.iter().all(|number| *number <= 65535)
}

/// The same numbers, each in 16 bits.
pub(crate) fn in_16_bits<const N: usize>(numbers: &[u32]) -> [u16; N]
    requires long { length numbers.now ≡ N }
    requires small { IsTrue (list_all is_16_bits numbers.now) }
    ensures { result ≡ numbers.now }
{
    let mut small = [0; N];
    for i in 0..N {
        small[i] = numbers[i] as u16;
    }
    small
}
