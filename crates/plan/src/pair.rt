// Two rows of a plan, a before b: the rules of cause 73 that speak of two elements, and CHOOSE IDs that are equal.
#![tactic(auto, using(crate::proofs::PairLaws::pair_rules), unfolding(crate::specs::RowRules::same_id, crate::specs::RowRules::repeats, crate::specs::RowRules::disagree, octets::specs::Rows::has_tag, octets::specs::Octets::bit))]

ghost use Rattle.std.specs.Prelude.{◌≡◌, not, ◌&&◌};
ghost use Rattle.octets.specs.Choice.{is_some};
ghost use Rattle.plan.specs.RowRules.{row_choose_id, row_holding, alike_rows, same_id, other_choice, other_hold, disagree, shares_choice, same_teid};

use crate::tunnel;
use format::{Row, types, words};

// An ID removed, created or updated twice.
pub fn same_id(a: &Row, b: &Row) -> bool
    ensures { result ≡ same_id a.now b.now }
{
    let tag = a[words::TAG];
    tag == b[words::TAG]
        && match tag {
            types::CREATE_PDR | types::UPDATE_PDR | types::REMOVE_PDR => {
                a[words::PDR_ID] == b[words::PDR_ID]
            }
            types::CREATE_ENDPOINT | types::REMOVE_ENDPOINT => {
                a[words::ENDPOINT_ID] == b[words::ENDPOINT_ID]
            }
            _ => false,
        }
}

// Have both a CHOOSE with the same CHOOSE ID?
pub fn shares_choice(a: &Row, b: &Row) -> bool
    ensures { result ≡ shares_choice a.now b.now }
{
    with_id(a) && with_id(b) && a[words::CHOOSE_ID] == b[words::CHOOSE_ID]
}

// A CHOOSE with a CHOOSE ID.
pub fn with_id(row: &Row) -> bool
    ensures { result ≡ is_some (row_choose_id row.now) }
{
    tunnel::chooses(row) && row[words::FLAGS] / 8 % 2 == 1
}

// Equal families and source interface.
fn alike(a: &Row, b: &Row) -> bool
    ensures { result ≡ alike_rows a.now b.now }
{
    a[words::FLAGS] % 4 == b[words::FLAGS] % 4 && a[words::SOURCE] == b[words::SOURCE]
}

// Equal CHOOSE IDs with other families or source interface.
fn other_choice(a: &Row, b: &Row) -> bool
    ensures { result ≡ other_choice a.now b.now }
{
    a[words::TAG] == types::CREATE_PDR
        && b[words::TAG] == types::CREATE_PDR
        && shares_choice(a, b)
        && !alike(a, b)
}

// Two restored F-TEIDs with one TEID that are not of PDRs with equal families and source interface.
fn other_hold(a: &Row, b: &Row) -> bool
    ensures { result ≡ other_hold a.now b.now }
{
    same_teid(a, b)
        && (a[words::TAG] == types::CREATE_ENDPOINT
            || b[words::TAG] == types::CREATE_ENDPOINT
            || !alike(a, b))
}

// Two restored F-TEIDs with one TEID.
pub fn same_teid(a: &Row, b: &Row) -> bool
    ensures { result ≡ same_teid a.now b.now }
{
    a[words::TEID] == b[words::TEID] && tunnel::restored(a) && tunnel::restored(b)
}

// Does a row share nothing with others, neither a CHOOSE ID nor a restored TEID? Then only its ID can disagree with theirs.
pub fn stands_alone(row: &Row) -> bool
    ensures { result ≡ (not (is_some (row_choose_id row.now)) && not (is_some (row_holding row.now))) }
{
    !with_id(row) && !tunnel::restored(row)
}

// The rules on two rows.
pub fn disagree(a: &Row, b: &Row) -> bool
    ensures { result ≡ disagree a.now b.now }
{
    same_id(a, b) || other_choice(a, b) || other_hold(a, b)
}
