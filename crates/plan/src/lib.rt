// Questions about a request's plan, which is rows of 20 words: what the causes 71, 76, 73, 75 and 79 ask of the rows alone.
// A rule on one row or on two rows is a function of its own, asked of every row.
#![tactic(auto)]

ghost use Rattle.std.specs.Prelude.{◌≡◌, false, ◌&&◌, ◌+◌, ◌*◌, ◌≤◌, ◌<◌, eqb, length};
ghost use Rattle.std.specs.Simd.{first_chunks};
ghost use Rattle.octets.specs.Octets.{part};
ghost use Rattle.octets.specs.Lists.{member, any};
ghost use Rattle.octets.specs.Rows.{has_tag, column};
ghost use Rattle.rules.specs.Stages.{invalid_allocation, needed};
ghost use Rattle.plan.specs.Rows.{row_width, word, tagged, rows_of, request_in};
ghost use Rattle.plan.specs.RowRules.{request_of, of_ue_kind, same_id, disagree, shares_choice, same_teid, counted};

use format::{Row, types, words};

pub mod address;
pub mod pair;
pub mod range;
pub mod tunnel;

// The first n arrays of N elements in a slice.
pub fn arrays<T, const N: usize>(s: &[T], n: usize) -> &[[T; N]]
    requires { (0 < N) × (n * N ≤ length s.now) }
    ensures { result.now ≡ first_chunks N n s.now }
{
    let (whole, _) = s.as_chunks::<N>();
    &whole[..n]
}

// The n rows of a plan.
pub fn rows(plan: &[u64], n: usize) -> &[Row]
    requires { n * row_width ≤ length plan.now }
    ensures { result.now ≡ rows_of n plan.now }
{
    arrays(plan, n)
}

// The row that begins at a place, which is counted in words.
pub fn row_at(plan: &[u64], place: usize) -> &Row
    requires { place + row_width ≤ length plan.now }
    ensures { result.now ≡ part place row_width plan.now }
{
    &rows(&plan[place..], 1)[0]
}

// Does a row have this tag, and x at place field?
#[tactic(auto, unfolding(octets::specs::Rows::has_tag))]
fn is_named(row: &Row, tag: u64, field: usize, x: u64) -> bool
    requires { field < row_width }
    ensures { result ≡ (has_tag tag row.now && eqb x (word field row.now)) }
{
    row[words::TAG] == tag && x == row[field]
}

// Does one of the rows with this tag have x at place field?
pub fn named(rows: &[Row], tag: u64, field: usize, x: u64) -> bool
    requires { field < row_width }
    ensures { result ≡ member x (column tag field rows.now) }
{
    rows.iter().any(|row| is_named(row, tag, field, x))
}

// How many of the rows have this tag?
#[tactic(auto, using(crate::proofs::ChainLaws::kept), unfolding(octets::specs::Rows::has_tag, crate::specs::Rows::tagged))]
pub fn count(rows: &[Row], tag: u64) -> usize
    ensures { result ≡ length (tagged tag rows.now) }
{
    rows.iter().filter(|row| row[words::TAG] == tag).count()
}

// Cause 71: an F-TEID without CH outside restoration, or with CH inside it.
pub fn invalid_allocation(rows: &[Row], restoring: bool) -> bool
    ensures { result ≡ invalid_allocation (request_of restoring rows.now) }
{
    rows.iter()
        .any(|row| tunnel::wrong_allocation(row, restoring))
}

// Has one of the rows a CHOOSE of an address, or else an address that is not supported?
pub fn some_address(rows: &[Row], choose: bool) -> bool
    ensures { result ≡ any (of_ue_kind choose) rows.now }
{
    rows.iter().any(|row| address::is_kind(row, choose))
}

// Cause 76: element 129, which the reading has noted, a PDI in an Update PDR, or an address that is not supported.
#[tactic(auto, using(crate::proofs::RequestLaws::unsupported_rows))]
pub fn unsupported(rows: &[Row], noted: bool) -> bool
    ensures { result ≡ (request_in 0 false noted rows.now).unsupported }
{
    noted || named(rows, types::UPDATE_PDR, words::HAS_PDI, 1) || some_address(rows, false)
}

// Cause 73: does a row disagree with one of the rows after it? Most rows share nothing with others, so that their IDs alone are compared.
pub fn disagrees(row: &Row, later: &[Row]) -> bool
    ensures { result ≡ any (disagree row.now) later.now }
{
    if pair::stands_alone(row) {
        return later.iter().any(|other| pair::same_id(row, other));
    }
    later.iter().any(|other| pair::disagree(row, other))
}

// Has one of the rows after it the CHOOSE ID of a row?
fn shared_later(row: &Row, later: &[Row]) -> bool
    ensures { result ≡ any (shares_choice row.now) later.now }
{
    pair::with_id(row) && later.iter().any(|other| pair::shares_choice(row, other))
}

// Is a row the last that chooses by its CHOOSE ID, or that names its TEID?
#[tactic(auto, unfolding(crate::specs::RowRules::counted))]
fn counts(row: &Row, later: &[Row]) -> bool
    ensures { result ≡ counted row.now later.now }
{
    if tunnel::chooses(row) {
        return !shared_later(row, later);
    }
    tunnel::restored(row) && !later.iter().any(|other| pair::same_teid(row, other))
}

// How many TEIDs the rows need: one for each CHOOSE without an ID and one for each different CHOOSE ID, or, in a restoration, one for each different
// TEID; counted at the last row that has it.
#[tactic(auto, using(crate::proofs::NeededLaws::needed_rows_lem, crate::proofs::NeededLaws::needed_none), unfolding(crate::proofs::NeededLaws::needed_rows))]
pub fn needed(rows: &[Row]) -> usize
    ensures { (result ≡ needed (request_of false rows.now)) × (result ≤ length rows.now) }
{
    let mut rest = rows;
    let mut teids: usize = 0;
    while let Some((row, later)) = rest.split_first() {
        if counts(row, later) {
            teids += 1;
        }
        rest = later;
    }
    teids
}
