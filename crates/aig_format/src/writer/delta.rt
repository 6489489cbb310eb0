//! Writing numbers in groups of seven bits.
ghost use Rattle.std.specs.Prelude.{◌≡◌, ◌^◌, ◌<◌, ◌≤◌, take};
ghost use Rattle.aig_format.specs.Delta.{delta};

/// The groups of a number below `2^28` in its shortest form, the least first, and how many there are (AIGER 1.0, binary
/// format). They are put into one word, where the seven bits of each group move up to its byte, and all but the last
/// get a mark.
pub(crate) fn groups(number: u32) -> ([u8; 4], usize)
    requires { number < 2 ^ 28 }
    ensures most { result.1 ≤ 4 }
    ensures groups { take result.1 result.0 ≡ delta number }
{
    if number < 128 {
        return (number.to_le_bytes(), 1);
    }
    let second = number / 128;
    let two = number + 128 * second;
    if second < 128 {
        return ((two + 0x80).to_le_bytes(), 2);
    }
    let third = second / 128;
    let three = two + 32_768 * third;
    if third < 128 {
        return ((three + 0x8080).to_le_bytes(), 3);
    }
    let fourth = third / 128;
    let four = three + 8_388_608 * fourth;
    ((four + 0x80_8080).to_le_bytes(), 4)
}
