// Sequence numbers: that of a message, and which of two is newer (02 (xi)).
// Stays: a number is a u64; newer is no order (it is not transitive), so that a type of its own would derive nothing, and wrap what one caller unwraps.
ghost use Rattle.std.specs.Prelude.{◌≡◌, ◌^◌, ◌<◌, ◌≤◌, length};
ghost use Rattle.rules.specs.Message.{header_length};
ghost use Rattle.rules.specs.Repeats.{number_of, newer};

use format::header;

// The numbers of 24 bits, and the greatest difference that is newer.
const NUMBERS: u32 = 16777216;

const NEWER: u32 = 8388607;

// The sequence number of the message at the front of s, which has its whole header.
pub(crate) fn number_of(s: &[u8]) -> u64
    requires { header_length s.now ≤ length s.now }
    ensures { (result ≡ number_of s.now) × (result < 2 ^ 24) }
{
    if s[0] % 2 == 1 {
        return octets::read(s, header::SEQUENCE, 3);
    }
    octets::read(s, header::LIST_SEQUENCE, 3)
}

// Whether n is newer than m: their wrapping difference of 24 bits is 1 to 8,388,607.
pub(crate) fn is_newer(n: u64, m: u64) -> bool
    requires { (n < 2 ^ 24) × (m < 2 ^ 24) }
    ensures { result ≡ newer n m }
{
    let past = (n as u32).wrapping_sub(m as u32) % NUMBERS;
    past != 0 && past <= NEWER
}
