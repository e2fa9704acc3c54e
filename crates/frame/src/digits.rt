// Hexadecimal digits, upper case, two for each byte: a line to its bytes, and bytes to their line.
ghost use Rattle.std.specs.Prelude.{◌≡◌, ℕ, ◌+◌, ◌≤◌, List, length, drop, IfSome, IfOk};
ghost use Rattle.frame.specs.Digits.{worth, prepend, front, bytes_of, line_of, with_byte};
ghost use Rattle.frame.specs.Prefix.{contents, cut};

use crate::fault::FrameFault;
use crate::prefix::Bytes;

const MOST_DIGITS: usize = 80;

pub(crate) const MOST_BYTES: usize = 40;

// What a byte is worth that is no digit: more than any eight digits.
const NONE: u64 = 4_294_967_296;

// What each byte is worth as a digit.
static WORTHS: [u64; 256] = [
    NONE, NONE, NONE, NONE, NONE, NONE, NONE, NONE, NONE, NONE, NONE, NONE, NONE, NONE, NONE, NONE,
    NONE, NONE, NONE, NONE, NONE, NONE, NONE, NONE, NONE, NONE, NONE, NONE, NONE, NONE, NONE, NONE,
    NONE, NONE, NONE, NONE, NONE, NONE, NONE, NONE, NONE, NONE, NONE, NONE, NONE, NONE, NONE, NONE,
    0, 1, 2, 3, 4, 5, 6, 7, 8, 9, NONE, NONE, NONE, NONE, NONE, NONE, NONE, 10, 11, 12, 13, 14, 15,
    NONE, NONE, NONE, NONE, NONE, NONE, NONE, NONE, NONE, NONE, NONE, NONE, NONE, NONE, NONE, NONE,
    NONE, NONE, NONE, NONE, NONE, NONE, NONE, NONE, NONE, NONE, NONE, NONE, NONE, NONE, NONE, NONE,
    NONE, NONE, NONE, NONE, NONE, NONE, NONE, NONE, NONE, NONE, NONE, NONE, NONE, NONE, NONE, NONE,
    NONE, NONE, NONE, NONE, NONE, NONE, NONE, NONE, NONE, NONE, NONE, NONE, NONE, NONE, NONE, NONE,
    NONE, NONE, NONE, NONE, NONE, NONE, NONE, NONE, NONE, NONE, NONE, NONE, NONE, NONE, NONE, NONE,
    NONE, NONE, NONE, NONE, NONE, NONE, NONE, NONE, NONE, NONE, NONE, NONE, NONE, NONE, NONE, NONE,
    NONE, NONE, NONE, NONE, NONE, NONE, NONE, NONE, NONE, NONE, NONE, NONE, NONE, NONE, NONE, NONE,
    NONE, NONE, NONE, NONE, NONE, NONE, NONE, NONE, NONE, NONE, NONE, NONE, NONE, NONE, NONE, NONE,
    NONE, NONE, NONE, NONE, NONE, NONE, NONE, NONE, NONE, NONE, NONE, NONE, NONE, NONE, NONE, NONE,
    NONE, NONE, NONE, NONE, NONE, NONE, NONE, NONE, NONE, NONE, NONE, NONE, NONE, NONE, NONE, NONE,
    NONE, NONE, NONE, NONE, NONE, NONE, NONE, NONE, NONE, NONE, NONE, NONE, NONE, NONE, NONE, NONE,
    NONE, NONE, NONE, NONE, NONE, NONE, NONE, NONE, NONE,
];

// The two digits of each byte, in order.
static PAIRS: [u8; 512] = *b"\
    000102030405060708090A0B0C0D0E0F101112131415161718191A1B1C1D1E1F\
    202122232425262728292A2B2C2D2E2F303132333435363738393A3B3C3D3E3F\
    404142434445464748494A4B4C4D4E4F505152535455565758595A5B5C5D5E5F\
    606162636465666768696A6B6C6D6E6F707172737475767778797A7B7C7D7E7F\
    808182838485868788898A8B8C8D8E8F909192939495969798999A9B9C9D9E9F\
    A0A1A2A3A4A5A6A7A8A9AAABACADAEAFB0B1B2B3B4B5B6B7B8B9BABBBCBDBEBF\
    C0C1C2C3C4C5C6C7C8C9CACBCCCDCECFD0D1D2D3D4D5D6D7D8D9DADBDCDDDEDF\
    E0E1E2E3E4E5E6E7E8E9EAEBECEDEEEFF0F1F2F3F4F5F6F7F8F9FAFBFCFDFEFF";

// The value of a digit, or NONE.
fn value(digit: u8) -> u64
    ensures result { result ≡ worth digit }
    ensures most { result ≤ 4294967296 }
{
    WORTHS[usize::from(digit)]
}

// The bytes of the first eight digits, where the digits that are left are eights, and these are digits.
fn four_bytes(digits: &[u8]) -> Option<[u8; 4]>
    ensures result { IfSome result (λ bs. (8 ≤ length digits.now) × (prepend bs (bytes_of (drop 8 digits.now)) ≡ bytes_of digits.now)) }
{
    let [a, b, c, d, e, f, g, h, ..] = digits else {
        return None;
    };
    if digits.len() % 8 != 0 {
        return None;
    }
    let n = value(*a) * 16 + value(*b);
    let n = n * 16 + value(*c);
    let n = n * 16 + value(*d);
    let n = n * 16 + value(*e);
    let n = n * 16 + value(*f);
    let n = n * 16 + value(*g);
    let n = n * 16 + value(*h);
    if n >= NONE {
        return None;
    }
    Some((n as u32).to_be_bytes())
}

// Writes the bytes of some digits over the front of an array, and tells how many they are. Most frames end in numbers
// of four bytes, which are written as such.
fn read_digits(digits: &[u8], array: &mut [u8; MOST_BYTES]) -> Result<usize, FrameFault>
    requires { length digits.now ≤ 80 }
    ensures result { front result array.new ≡ bytes_of digits.now }
    ensures within { IfOk result (λ n. n ≤ 40) }
{
    let mut len = 0;
    let mut rest = digits;
    while let [high, low, tail @ ..] = rest {
        if let Some(bytes) = four_bytes(rest) {
            let all = &mut array[..];
            all[len..len + 4].copy_from_slice(&bytes);
            len += 4;
            rest = &rest[8..];
        } else {
            let h = value(*high);
            let l = value(*low);
            if h > 15 || l > 15 {
                return Err(FrameFault::BadLine);
            }
            array[len] = (h * 16 + l) as u8;
            len += 1;
            rest = tail;
        }
    }
    if rest.is_empty() {
        Ok(len)
    } else {
        Err(FrameFault::BadLine)
    }
}

// The same of a line of 2 to 80 digits.
pub(crate) fn read_line(line: &[u8], array: &mut [u8; MOST_BYTES]) -> Result<usize, FrameFault>
    ensures result { front result array.new ≡ line_of line.now }
    ensures within { IfOk result (λ n. n ≤ 40) }
{
    if line.is_empty() || line.len() > MOST_DIGITS {
        return Err(FrameFault::BadLine);
    }
    read_digits(line, array)
}

// The bytes of a line of 2 to 80 digits; the first 81 bytes of a line tell as much as the whole of it.
pub fn decode(line: &[u8]) -> Result<Bytes, FrameFault>
    ensures result { contents result ≡ line_of line.now }
    ensures long { (xs : List ℕ) → line.now ≡ cut xs → contents result ≡ line_of xs }
{
    let mut array = [0; MOST_BYTES];
    match read_line(line, &mut array) {
        Ok(len) => Ok(Bytes::of_array(array, len)),
        Err(fault) => Err(fault),
    }
}

// Writes the two digits of a byte at a place.
pub(crate) fn put_byte(out: &mut [u8], at: usize, b: u8)
    requires { at + 2 ≤ length out.old }
    ensures after { out.new ≡ with_byte at b out.old }
{
    let place = 2 * usize::from(b);
    out[at] = PAIRS[place];
    out[at + 1] = PAIRS[place + 1];
}
