// F-TEID (TS 29.244, clause 8.2.3): the value octets, read and written.
#![tactic(auto)]

ghost use Rattle.std.specs.Prelude.{◌≡◌, false, ◌+◌, ◌≤◌, ◌<◌, length, drop};
ghost use Rattle.std.proofs.Math.Option.{some};
ghost use Rattle.octets.specs.Octets.{put};
ghost use Rattle.octets.specs.Fields.{width_of, field_octets};
ghost use Rattle.rules.specs.Elements.{wrong_flags, fteid_length, fteid_fields, read_fteid, fteid_allowed, write_fteid};
ghost use Rattle.element.specs.Answers.{left, write_meant, allowed_in};
ghost use Rattle.fteid.specs.Meaning.{fteid_widths, fteid_numbers, fteid_of, fteid_answer};

use element::Refusal;

// Flags (V4 1, V6 2, CH 4, CHID 8) and fields. A field that the flags leave out is 0. The IPv6 address is two numbers
// of 8 octets.
#[derive(Clone, Copy)]
pub struct FTeid {
    pub flags: u64,
    pub teid: u64,
    pub ipv4: u64,
    pub ipv6_high: u64,
    pub ipv6_low: u64,
    pub choose_id: u64,
}

// Whether the flags break a rule: no family, CHID without CH, and in a traffic endpoint any CHID.
fn wrong_flags(flags: u64, endpoint: bool) -> bool
    ensures { result ≡ wrong_flags endpoint flags }
{
    if flags % 2 + flags / 2 % 2 == 0 {
        return true;
    }
    if flags / 8 % 2 == 0 {
        return false;
    }
    if flags / 4 % 2 == 0 {
        return true;
    }
    endpoint
}

// How many octets the flags ask for after them.
fn length_of(flags: u64) -> usize
    ensures { result ≡ fteid_length flags }
{
    let f = flags as usize;
    if f / 4 % 2 == 1 {
        return f / 8 % 2;
    }
    4 + 4 * (f % 2) + 16 * (f / 2 % 2)
}

// The value with these flags, which are right, of octets that are enough.
fn fields(s: &[u8], flags: u64) -> FTeid
    requires { (flags < 16) × (wrong_flags false flags ≡ false) × (fteid_length flags < length s.now) }
    ensures { fteid_of result ≡ some (fteid_fields flags (drop 1 s.now)) }
{
    let f = flags as usize;
    if f / 4 % 2 == 1 {
        let id = octets::read(s, 1, f / 8 % 2);
        return FTeid {
            flags: flags,
            teid: 0,
            ipv4: 0,
            ipv6_high: 0,
            ipv6_low: 0,
            choose_id: id,
        };
    }
    let width = 4 * (f % 2);
    let half = 8 * (f / 2 % 2);
    let teid = octets::read(s, 1, 4);
    let ipv4 = octets::read(s, 5, width);
    let high = octets::read(s, 5 + width, half);
    let low = octets::read(s, 5 + width + half, half);
    FTeid {
        flags: flags,
        teid: teid,
        ipv4: ipv4,
        ipv6_high: high,
        ipv6_low: low,
        choose_id: 0,
    }
}

// Reads a value, in a traffic endpoint or not. Octets after it are ignored, and so are the high four bits of the flags.
pub fn read(s: &[u8], endpoint: bool) -> Result<FTeid, Refusal>
    ensures { fteid_answer result ≡ some (read_fteid endpoint s.now) }
{
    if s.len() == 0 {
        return Err(Refusal::TooShort);
    }
    let flags = (s[0] % 16) as u64;
    if wrong_flags(flags, endpoint) {
        return Err(Refusal::Incorrect);
    }
    if s.len() <= length_of(flags) {
        return Err(Refusal::TooShort);
    }
    Ok(fields(s, flags))
}

// How many octets the flags, the TEID, the IPv4 address, each half of the IPv6 address and the CHOOSE ID take.
fn widths_of(flags: u64) -> [usize; 6]
    ensures { result ≡ fteid_widths flags }
{
    let f = flags as usize;
    if f / 4 % 2 == 1 {
        return [1, 0, 0, 0, 0, f / 8 % 2];
    }
    let half = 8 * (f / 2 % 2);
    [1, 4, 4 * (f % 2), half, half, 0]
}

// The numbers that stand there.
fn numbers_of(v: FTeid) -> [u64; 6]
    ensures { result ≡ fteid_numbers v }
{
    [
        v.flags,
        v.teid,
        v.ipv4,
        v.ipv6_high,
        v.ipv6_low,
        v.choose_id,
    ]
}

// Whether the struct means a value that the rules allow.
fn is_allowed(v: FTeid, endpoint: bool) -> bool
    ensures { result ≡ allowed_in (fteid_allowed endpoint) (fteid_of v) }
{
    let flags = v.flags;
    if 15 < flags {
        return false;
    }
    if wrong_flags(flags, endpoint) {
        return false;
    }
    let ws = widths_of(flags);
    let vs = numbers_of(v);
    octets::fields::fit_fields(&ws, &vs)
}

// Writes a value's octets from a place on; the answer is the place after them.
pub fn write_at(v: FTeid, out: &mut [u8], at: usize) -> usize
    requires { at + width_of (fteid_widths v.flags) ≤ length out.old }
    ensures { (result ≡ at + width_of (fteid_widths v.flags)) × (out.new ≡ put at (field_octets (fteid_widths v.flags) (fteid_numbers v)) out.old) }
{
    let ws = widths_of(v.flags);
    let vs = numbers_of(v);
    element::write_fields_at(out, at, &ws, &vs)
}

// Writes a value at the start of out, or refuses it, or too little space, and writes nothing. Octets after it stay.
pub fn write(v: FTeid, endpoint: bool, out: &mut [u8]) -> Option<usize>
    ensures { left result out.new ≡ write_meant (write_fteid endpoint) (fteid_of v) out.old }
{
    if !is_allowed(v, endpoint) {
        return None;
    }
    let ws = widths_of(v.flags);
    let vs = numbers_of(v);
    element::write_fields(out, &ws, &vs)
}
