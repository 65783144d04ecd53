//! Arrays of a control, as long as its struct says.
ghost use Rattle.std.specs.Prelude.{◌≡◌, [], ◌∷◌, pos, IsTrue, List};
ghost use Rattle.std.specs.List.{list_all};
ghost use Rattle.hevc_v4l2.specs.Arrays.{is_byte, is_signed_byte, no_pair, padded};

/// Whether each number fits a byte.
pub(crate) fn are_bytes(numbers: &[u32]) -> bool
    ensures { result ≡ list_all is_byte numbers.now }
{
    numbers.iter().all(|number| *number <= 255)
}

/// The same numbers, each as a byte.
pub(crate) fn bytes_of<const N: usize>(numbers: &[u32; N]) -> [u8; N]
    requires { IsTrue (list_all is_byte numbers.now) }
    ensures { result ≡ numbers.now }
{
    let mut bytes = [0; N];
    for i in 0..N {
        bytes[i] = numbers[i] as u8;
    }
    bytes
}

/// Whether each number fits a signed byte.
pub(crate) fn are_signed_bytes(numbers: &[i16]) -> bool
    ensures { result ≡ list_all is_signed_byte numbers.now }
{
    numbers
        .iter()
        .all(|number| -128 <= *number && *number <= 127)
}

/// The same numbers, each as a signed byte.
pub(crate) fn signed_bytes_of<const N: usize>(numbers: &[i16; N]) -> [i8; N]
    requires { IsTrue (list_all is_signed_byte numbers.now) }
    ensures { result ≡ numbers.now }
{
    let mut bytes = [0; N];
    for i in 0..N {
        bytes[i] = numbers[i] as i8;
    }
    bytes
}

/// Whether each number of the pairs fits a signed byte.
pub(crate) fn are_signed_byte_pairs(pairs: &[[i16; 2]]) -> bool
    ensures { result ≡ list_all (list_all is_signed_byte) pairs.now }
{
    pairs.iter().all(|pair| are_signed_bytes(pair))
}

/// The same pairs, each number as a signed byte.
pub(crate) fn signed_byte_pairs_of<const N: usize>(pairs: &[[i16; 2]; N]) -> [[i8; 2]; N]
    requires { IsTrue (list_all (list_all is_signed_byte) pairs.now) }
    ensures { result ≡ pairs.now }
{
    let mut bytes = [[0; 2]; N];
    for i in 0..N {
        bytes[i] = signed_bytes_of(&pairs[i]);
    }
    bytes
}

/// Fifteen numbers in sixteen places.
pub(crate) fn padded_numbers(numbers: &[i8; 15]) -> [i8; 16]
    ensures { result ≡ padded (pos 0) numbers.now }
{
    let mut places = [0; 16];
    places[..15].copy_from_slice(numbers);
    places
}

/// Fifteen pairs in sixteen places.
pub(crate) fn padded_pairs(pairs: &[[i8; 2]; 15]) -> [[i8; 2]; 16]
    ensures { result ≡ padded no_pair pairs.now }
{
    let mut places = [[0; 2]; 16];
    places[..15].copy_from_slice(pairs);
    places
}
