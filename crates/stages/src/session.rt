// The session at entry, in its slot: the IDs of its records, and of the PDRs that a request removes.
ghost use Rattle.std.specs.Prelude.{◌≡◌, false, map, ◌*◌, ◌≤◌, length};
ghost use Rattle.std.proofs.lemmas.List.Edits.{sets};
ghost use Rattle.octets.specs.Octets.{number_at};
ghost use Rattle.rules.specs.Limits.{max_pdrs};
ghost use Rattle.rules.specs.Layout.{view_pdr, view_session};
ghost use Rattle.rules.specs.Stages.{goes_pdr, removed_pdrs};
ghost use Rattle.plan.specs.Rows.{row_width, rows_of};
ghost use Rattle.plan.specs.RowRules.{request_of};
ghost use Rattle.stages.specs.Rules.{Slot};

use format::{Row, types, words};

// Writes to out the ID of each record, which is the first of its octets, so many.
pub fn ids<const WIDTH: usize>(records: &[[u8; WIDTH]], octets: usize, out: &mut [u64])
    requires { (octets ≤ WIDTH) × (octets ≤ 8) × (length records.now ≤ length out.old) }
    ensures { out.new ≡ sets out.old 0 (map (number_at 0 octets) records.now) }
{
    for (k, record) in records.iter().enumerate() {
        out[k] = octets::read(record, 0, octets);
    }
}

// Does a PDR go: is it named by Remove PDR, or its endpoint removed?
#[tactic(auto, using(crate::proofs::SlotLaws::goes_row))]
fn goes(pdr: &[u8; format::PDR], rows: &[Row]) -> bool
    ensures { result ≡ goes_pdr (request_of false rows.now) (view_pdr pdr.now) }
{
    plan::named(
        rows,
        types::REMOVE_PDR,
        words::PDR_ID,
        octets::read(pdr, 0, 2),
    ) || pdr[format::MATCH] == 2
        && plan::named(
            rows,
            types::REMOVE_ENDPOINT,
            words::ENDPOINT_ID,
            pdr[format::NAMED_ENDPOINT] as u64,
        )
}

// Writes to out the IDs of the PDRs that go, and says how many there are.
pub fn removed(slot: &[u8], plan: &[u64], n: usize, out: &mut [u64]) -> usize
    requires { Slot slot.now × (n * row_width ≤ length plan.now) × (max_pdrs ≤ length out.old) }
    ensures { (result ≡ length (removed_pdrs (request_of false (rows_of n plan.now)) (view_session slot.now).pdrs)) × (out.new ≡ sets out.old 0 (removed_pdrs (request_of false (rows_of n plan.now)) (view_session slot.now).pdrs)) }
{
    let rows = plan::rows(plan, n);
    let pdrs = plan::arrays(&slot[format::PDRS..], slot[format::PDR_COUNT] as usize);
    let mut k = 0;
    for pdr in pdrs {
        if goes(pdr, rows) {
            out[k] = octets::read(pdr, 0, 2);
            k += 1;
        }
    }
    k
}
