// UE IP Address (TS 29.244, clause 8.2.62), for IPv4: the value octets, read and written.
#![tactic(auto)]

ghost use Rattle.std.specs.Prelude.{◌≡◌, ◌+◌, ◌≤◌, length};
ghost use Rattle.octets.specs.Octets.{put};
ghost use Rattle.rules.specs.Elements.{ue_octets, ue_given, ue_choose, ue_unsupported, read_ue_ip, write_ue_ip};
ghost use Rattle.element.specs.Answers.{left};
ghost use Rattle.ue_ip.specs.Meaning.{ue_of, ue_answer};

use element::Refusal;

// An address; a CHOOSE; or a value with what the unit does not have, of which no more is read.
#[derive(Clone, Copy)]
pub enum UeIp {
    Given(u64),
    Choose,
    Other,
}

// Whether the flags ask for what the unit does not have: V6 (1), IPv6D (8), CHV6 (32) or IP6PL (64).
fn is_unsupported(flags: u64) -> bool
    ensures { result ≡ ue_unsupported flags }
{
    if flags % 2 + flags / 8 % 2 + flags / 32 % 2 + flags / 64 % 2 == 0 {
        return false;
    }
    true
}

// Reads a value. Octets after it are ignored, and so are S/D (4) and bit 8 of the flags.
pub fn read(s: &[u8]) -> Result<UeIp, Refusal>
    ensures { ue_answer result ≡ read_ue_ip s.now }
{
    if s.len() == 0 {
        return Err(Refusal::TooShort);
    }
    let flags = s[0] as u64;
    if is_unsupported(flags) {
        return Ok(UeIp::Other);
    }
    let v4 = flags / 2 % 2;
    let chv4 = flags / 16 % 2;
    if v4 == chv4 {
        return Err(Refusal::Incorrect);
    }
    if chv4 == 1 {
        return Ok(UeIp::Choose);
    }
    if s.len() < 5 {
        return Err(Refusal::TooShort);
    }
    Ok(UeIp::Given(octets::read(s, 1, 4)))
}

// Writes the octets of an address with V4 from a place on; the answer is the place after them.
pub fn write_at(address: u64, out: &mut [u8], at: usize) -> usize
    requires { at + 5 ≤ length out.old }
    ensures { (result ≡ at + 5) × (out.new ≡ put at (ue_octets (ue_given address)) out.old) }
{
    octets::write(out, at, 1, 2);
    octets::write(out, at + 1, 4, address);
    at + 5
}

// Writes an address with V4, or refuses one of more than four octets, or too little space.
fn write_given(address: u64, out: &mut [u8]) -> Option<usize>
    ensures { left result out.new ≡ write_ue_ip (ue_given address) out.old }
{
    if 4294967295 < address {
        return None;
    }
    if out.len() < 5 {
        return None;
    }
    Some(write_at(address, out, 0))
}

// Writes CHV4 alone, or refuses an empty space.
fn write_choose(out: &mut [u8]) -> Option<usize>
    ensures { left result out.new ≡ write_ue_ip ue_choose out.old }
{
    if out.len() < 1 {
        return None;
    }
    octets::write(out, 0, 1, 16);
    Some(1)
}

// Writes a value at the start of out, or refuses it, or too little space, and writes nothing. Octets after it stay.
pub fn write(v: UeIp, out: &mut [u8]) -> Option<usize>
    ensures { left result out.new ≡ write_ue_ip (ue_of v) out.old }
{
    match v {
        UeIp::Given(address) => write_given(address, out),
        UeIp::Choose => write_choose(out),
        UeIp::Other => None,
    }
}
