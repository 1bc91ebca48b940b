// What the readers and writers of element values share (fteid, ue_ip, fqcsid, fseid): why a value is refused, what a writer
// answers, and numbers written one after the other.
#![tactic(auto)]

ghost use Rattle.std.specs.Prelude.{◌≡◌, true, ◌+◌, ◌≤◌, length};
ghost use Rattle.octets.specs.Octets.{put};
ghost use Rattle.octets.specs.Fields.{width_of, narrow, field_octets};
ghost use Rattle.rules.specs.Elements.{cause_of, write_if};
ghost use Rattle.element.specs.Answers.{refusal_of, left};

// Why a reader refuses a value: it has too few octets, or it breaks a rule.
#[derive(Clone, Copy)]
pub enum Refusal {
    TooShort,
    Incorrect,
}

// The cause of the reply for a refusal.
pub fn cause_of(refusal: Refusal) -> u64
    ensures { result ≡ cause_of (refusal_of refusal) }
{
    match refusal {
        Refusal::TooShort => 68,
        Refusal::Incorrect => 69,
    }
}

// Writes the numbers vs at the widths ws from a place on; the answer is the place after them.
pub fn write_fields_at(out: &mut [u8], at: usize, ws: &[usize], vs: &[u64]) -> usize
    requires { (at + width_of ws.now ≤ length out.old) × (length ws.now ≡ length vs.now) × (narrow ws.now ≡ true) }
    ensures { (result ≡ at + width_of ws.now) × (out.new ≡ put at (field_octets ws.now vs.now) out.old) }
{
    octets::fields::write_fields(out, at, ws, vs);
    at + octets::fields::width(ws)
}

// Writes the numbers vs at the widths ws at the start of out: how many octets they take, or None where there is too little space, and nothing is written.
// Octets after them stay.
pub fn write_fields(out: &mut [u8], ws: &[usize], vs: &[u64]) -> Option<usize>
    requires { (length ws.now ≡ length vs.now) × (narrow ws.now ≡ true) }
    ensures { left result out.new ≡ write_if true (field_octets ws.now vs.now) out.old }
{
    if out.len() < octets::fields::width(ws) {
        return None;
    }
    Some(write_fields_at(out, 0, ws, vs))
}
