// The F-TEID of one row: flags at word 12 (V4 1, V6 2, CH 4, CHID 8), then TEID, IPv4 address, IPv6 address in two words, CHOOSE ID.
#![tactic(auto, using(crate::proofs::TunnelLaws::fteid_rules), unfolding(crate::specs::RowRules::has_fteid, crate::specs::RowRules::held_in, octets::specs::Rows::has_tag, octets::specs::Octets::bit, rules::specs::Sound::in_pool, unit::specs::Meaning::settings_of))]

ghost use Rattle.std.specs.Prelude.{◌≡◌, ◌*◌, ◌≤◌, length};
ghost use Rattle.octets.specs.Choice.{is_some};
ghost use Rattle.rules.specs.Stages.{allocation_wrong, lacks_family, strange, other_address};
ghost use Rattle.plan.specs.RowRules.{has_fteid, of_fteid, row_ipv4, row_ipv6, row_holding, row_choice, restores, held_in};
ghost use Rattle.unit.specs.Meaning.{settings_of};

use crate::range;
use format::{Row, types, words};
use unit::{Ipv6, Settings};

// Has the row an F-TEID? A Create Traffic Endpoint has one, a Create PDR if its flags say so.
pub fn has_fteid(row: &Row) -> bool
    ensures { result ≡ has_fteid row.now }
{
    match row[words::TAG] {
        types::CREATE_ENDPOINT => true,
        types::CREATE_PDR => row[words::FLAGS] != 0,
        _ => false,
    }
}

// Is it a CHOOSE?
pub fn chooses(row: &Row) -> bool
    ensures { result ≡ is_some (row_choice row.now) }
{
    has_fteid(row) && row[words::FLAGS] / 4 % 2 == 1
}

// Is it one with a TEID, as a restoration carries it?
pub fn restored(row: &Row) -> bool
    ensures { result ≡ is_some (row_holding row.now) }
{
    has_fteid(row) && row[words::FLAGS] / 4 % 2 != 1
}

// Cause 71: without CH outside restoration, or with CH inside it.
pub fn wrong_allocation(row: &Row, restoring: bool) -> bool
    ensures { result ≡ of_fteid (allocation_wrong restoring) row.now }
{
    has_fteid(row) && (row[words::FLAGS] / 4 % 2 == 1) == restoring
}

// Cause 73: a family that the unit lacks.
pub fn lacks_family(row: &Row, u: Settings) -> bool
    ensures { result ≡ of_fteid (lacks_family (settings_of u)) row.now }
{
    u.ipv6.is_none() && has_fteid(row) && row[words::FLAGS] / 2 % 2 == 1
}

// Is there an IPv4 address, and another one than the unit's?
fn other_ipv4(row: &Row, u: Settings) -> bool
    ensures { result ≡ other_address (settings_of u).ipv4 (row_ipv4 row.now) }
{
    row[words::FLAGS] % 2 == 1 && row[words::IPV4] % 4294967296 != u.ipv4 % 4294967296
}

// The same for IPv6, of which the unit may have none.
fn other_ipv6(row: &Row, u: Settings) -> bool
    ensures { result ≡ other_address (settings_of u).ipv6 (row_ipv6 row.now) }
{
    let (high, low) = (row[words::IPV6_HIGH], row[words::IPV6_LOW]);
    row[words::FLAGS] / 2 % 2 == 1 && u.ipv6 != Some(Ipv6 { high, low })
}

// Cause 73: a restored F-TEID outside the pool, or with another address.
pub fn strange(row: &Row, u: Settings) -> bool
    ensures { result ≡ of_fteid (strange (settings_of u)) row.now }
{
    restored(row)
        && (range::outside(row[words::TEID], u.first, u.size)
            || other_ipv4(row, u)
            || other_ipv6(row, u))
}

// Cause 73: a restored TEID that a session holds. The map says so of the TEIDs in the pool.
pub fn is_held(row: &Row, u: Settings, taken: &[u64]) -> bool
    requires { u.size ≤ 64 * length taken.now }
    ensures { result ≡ restores (held_in (settings_of u) taken.now) (row_holding row.now) }
{
    restored(row) && range::is_taken(row[words::TEID], u.first, u.size, taken)
}
