// The UE IP Address of one row (02 (v)): its kind at word 18 (1 an address, 2 a CHOOSE, above 2 not supported), then the address.
#![tactic(auto, unfolding(crate::specs::RowRules::creates, crate::specs::RowRules::of_ue_kind, crate::specs::RowRules::of_address, crate::specs::RowRules::on_some, crate::specs::RowRules::takes_address, octets::specs::Rows::has_tag, crate::specs::Rows::row_ue, crate::specs::Rows::ue_from, rules::specs::Stages::wrong_address, rules::specs::Model::in_address_pool, unit::specs::Meaning::settings_of, rules::specs::Elements::ue_address_of))]

ghost use Rattle.std.specs.Prelude.{◌≡◌, ◌*◌, ◌≤◌, length};
ghost use Rattle.rules.specs.Stages.{wrong_address};
ghost use Rattle.unit.specs.Meaning.{settings_of};
ghost use Rattle.plan.specs.RowRules.{creates, of_address, of_ue_kind, takes_address, marked_address};

use crate::range;
use format::{Row, types, words};
use unit::Settings;

// Does the row create a record?
fn creates(row: &Row) -> bool
    ensures { result ≡ creates row.now }
{
    row[words::TAG] == types::CREATE_ENDPOINT || row[words::TAG] == types::CREATE_PDR
}

// Has it a CHOOSE, or else an address that is not supported?
pub fn is_kind(row: &Row, choose: bool) -> bool
    ensures { result ≡ of_ue_kind choose row.now }
{
    if choose {
        return creates(row) && row[words::UE_KIND] == words::UE_CHOOSE;
    }
    creates(row) && words::UE_CHOOSE < row[words::UE_KIND]
}

// Cause 73: an address of the pool outside restoration, or a CHOOSE inside it.
pub fn wrong(row: &Row, u: Settings, restoring: bool) -> bool
    ensures { result ≡ of_address (wrong_address (settings_of u) restoring) row.now }
{
    creates(row)
        && match row[words::UE_KIND] {
            words::UE_CHOOSE => restoring,
            words::UE_GIVEN => {
                !restoring && !range::outside(row[words::UE_ADDRESS], u.first_address, u.addresses)
            }
            _ => false,
        }
}

// Cause 73: an address of the pool that a session holds, by the map.
pub fn is_held(row: &Row, u: Settings, taken: &[u64]) -> bool
    requires { u.addresses ≤ 64 * length taken.now }
    ensures { result ≡ of_address (takes_address (settings_of u) (marked_address (settings_of u) taken.now)) row.now }
{
    creates(row)
        && row[words::UE_KIND] == words::UE_GIVEN
        && range::is_taken(row[words::UE_ADDRESS], u.first_address, u.addresses, taken)
}
