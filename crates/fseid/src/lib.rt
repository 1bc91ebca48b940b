// F-SEID (TS 29.244, clause 8.2.37): the value octets, read and written. V6 is bit 1 of the flags and V4 bit 2, the other
// way round than in an F-TEID.
#![tactic(auto)]

ghost use Rattle.std.specs.Prelude.{◌≡◌, not, [], ◌+◌, ◌≤◌, eqb, length};
ghost use Rattle.octets.specs.Octets.{put, be};
ghost use Rattle.rules.specs.Elements.{read_fseid, fseid_octets, write_if};
ghost use Rattle.element.specs.Answers.{left};
ghost use Rattle.fseid.specs.Meaning.{fseid_flags, fseid_answer};

use element::Refusal;

// Reads a value, of which only the SEID is kept. Octets after it and other flags are ignored.
pub fn read(s: &[u8]) -> Result<u64, Refusal>
    ensures { fseid_answer result ≡ read_fseid s.now }
{
    if s.len() == 0 {
        return Err(Refusal::TooShort);
    }
    let v6 = (s[0] % 2) as usize;
    let v4 = (s[0] / 2 % 2) as usize;
    if v4 + v6 == 0 {
        return Err(Refusal::Incorrect);
    }
    if s.len() < 9 + 4 * v4 + 16 * v6 {
        return Err(Refusal::TooShort);
    }
    let seid = octets::read(s, 1, 8);
    if seid == 0 {
        return Err(Refusal::Incorrect);
    }
    Ok(seid)
}

// The flags octet of a value with these addresses.
fn flags_of(ipv4: &[u8], ipv6: &[u8]) -> u8
    ensures { result ≡ fseid_flags ipv4.now ipv6.now }
{
    if ipv4.len() == 0 {
        if ipv6.len() == 0 {
            return 0;
        }
        return 1;
    }
    if ipv6.len() == 0 {
        return 2;
    }
    3
}

// Writes a value's octets from a place on; the answer is the place after them. An address of no octets is not there.
pub fn write_at(seid: u64, ipv4: &[u8], ipv6: &[u8], out: &mut [u8], at: usize) -> usize
    requires { at + 9 + length ipv4.now + length ipv6.now ≤ length out.old }
    ensures { (result ≡ at + 9 + length ipv4.now + length ipv6.now) × (out.new ≡ put at (fseid_octets seid ipv4.now ipv6.now) out.old) }
{
    let next = at + 9 + ipv4.len();
    out[at] = flags_of(ipv4, ipv6);
    octets::write(out, at + 1, 8, seid);
    octets::copy(out, at + 9, ipv4);
    octets::copy(out, next, ipv6);
    next + ipv6.len()
}

// Writes a value with an IPv4 address at the start of out, or refuses a SEID of 0, or too little space, and writes nothing.
// Octets after it stay.
pub fn write(seid: u64, ipv4: u32, out: &mut [u8]) -> Option<usize>
    ensures { left result out.new ≡ write_if (not (eqb seid 0)) (fseid_octets seid (be 4 ipv4) []) out.old }
{
    if seid == 0 {
        return None;
    }
    if 13 <= out.len() {
        let mut address = [0u8; 4];
        octets::write(&mut address, 0, 4, ipv4 as u64);
        let none = [0u8; 1];
        return Some(write_at(seid, &address, &none[0..0], out, 0));
    }
    None
}
