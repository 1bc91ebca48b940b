// The rules of cause 73 on one row: on its IDs, by the session's live IDs, those of its PDRs that go and the other rows; on its F-TEID, and on its
// address.
#![tactic(auto, unfolding(crate::specs::RowRules::creates_live, crate::specs::RowRules::names_dead, crate::specs::RowRules::updates_gone, crate::specs::RowRules::breaks_id, crate::specs::RowRules::breaks_fteid, crate::specs::RowRules::breaks_address, octets::specs::Rows::has_tag))]

ghost use Rattle.std.specs.Prelude.{◌≡◌, ◌*◌, ◌≤◌, length};
ghost use Rattle.plan.specs.RowRules.{held_in, marked_address};
ghost use Rattle.unit.specs.Meaning.{settings_of};
ghost use Rattle.stages.specs.RowRules.{creates_live, names_dead, updates_gone, pdi_names_both, pdi_names_absent, breaks_id, breaks_fteid, breaks_address};

use format::{Row, types, words};
use unit::Settings;

// The IDs of a session at entry: of its live PDRs and endpoints, and of those of its PDRs that the request removes.
#[derive(Clone, Copy)]
pub struct Ids<'a> {
    pub pdrs: &'a [u64],
    pub endpoints: &'a [u64],
    pub gone: &'a [u64],
}

// A created ID live at entry.
fn created_live(row: &Row, ids: &Ids) -> bool
    ensures { result ≡ creates_live ids.now.pdrs.now ids.now.endpoints.now row.now }
{
    match row[words::TAG] {
        types::CREATE_PDR => octets::is_in(row[words::PDR_ID], ids.pdrs),
        types::CREATE_ENDPOINT => octets::is_in(row[words::ENDPOINT_ID], ids.endpoints),
        _ => false,
    }
}

// A removed or updated ID not live at entry.
fn absent_id(row: &Row, ids: &Ids) -> bool
    ensures { result ≡ names_dead ids.now.pdrs.now ids.now.endpoints.now row.now }
{
    match row[words::TAG] {
        types::REMOVE_PDR | types::UPDATE_PDR => !octets::is_in(row[words::PDR_ID], ids.pdrs),
        types::REMOVE_ENDPOINT => !octets::is_in(row[words::ENDPOINT_ID], ids.endpoints),
        _ => false,
    }
}

// An update of a removed PDR.
fn updates_removed(row: &Row, ids: &Ids) -> bool
    ensures { result ≡ updates_gone ids.now.gone.now row.now }
{
    row[words::TAG] == types::UPDATE_PDR && octets::is_in(row[words::PDR_ID], ids.gone)
}

// F-TEID and endpoint ID in one PDI.
#[tactic(auto, using(crate::proofs::IdLaws::both_row), unfolding(octets::specs::Rows::has_tag))]
fn names_both(row: &Row) -> bool
    ensures { result ≡ pdi_names_both row.now }
{
    row[words::TAG] == types::CREATE_PDR
        && row[words::HAS_ENDPOINT_ID] == 1
        && row[words::FLAGS] != 0
}

// An endpoint ID not there afterwards: neither created nor live and not removed.
#[tactic(auto, using(crate::proofs::IdLaws::absent_row), unfolding(octets::specs::Rows::has_tag))]
fn names_absent(row: &Row, rows: &[Row], ids: &Ids) -> bool
    ensures { result ≡ pdi_names_absent ids.now.endpoints.now rows.now row.now }
{
    let id = row[words::ENDPOINT_ID];
    row[words::TAG] == types::CREATE_PDR
        && row[words::HAS_ENDPOINT_ID] == 1
        && !plan::named(rows, types::CREATE_ENDPOINT, words::ENDPOINT_ID, id)
        && (plan::named(rows, types::REMOVE_ENDPOINT, words::ENDPOINT_ID, id)
            || !octets::is_in(id, ids.endpoints))
}

// The rules on a row's IDs.
pub fn breaks_id(row: &Row, rows: &[Row], ids: &Ids) -> bool
    ensures { result ≡ breaks_id ids.now.pdrs.now ids.now.endpoints.now ids.now.gone.now rows.now row.now }
{
    created_live(row, ids)
        || absent_id(row, ids)
        || updates_removed(row, ids)
        || names_both(row)
        || names_absent(row, rows, ids)
}

// The rules on a row's F-TEID. Only a TEID of the pool is looked up in the map.
pub fn breaks_fteid(row: &Row, u: Settings, taken: &[u64]) -> bool
    requires { u.size ≤ 64 * length taken.now }
    ensures { result ≡ breaks_fteid (held_in (settings_of u) taken.now) (settings_of u) row.now }
{
    plan::tunnel::lacks_family(row, u)
        || plan::tunnel::strange(row, u)
        || plan::tunnel::is_held(row, u, taken)
}

// The rules on a row's address (02 (v)). Only an address of the pool is looked up in the map.
pub fn breaks_address(row: &Row, u: Settings, restoring: bool, taken: &[u64]) -> bool
    requires { u.addresses ≤ 64 * length taken.now }
    ensures { result ≡ breaks_address (marked_address (settings_of u) taken.now) (settings_of u) restoring row.now }
{
    plan::address::wrong(row, u, restoring) || plan::address::is_held(row, u, taken)
}
