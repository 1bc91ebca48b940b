// Created PDR and Created Traffic Endpoint: the groups that report the TEIDs and the address of a request's CHOOSEs, written from 01's list of
// grants.
// The list is made for each request: an array of 24 entries, lent as a slice to be filled and then lent to the writer of the groups.
#![tactic(auto)]

ghost use Rattle.std.specs.Prelude.{◌≡◌, true, [], ◌∷◌, ◌++◌, ◌+◌, ◌≤◌, ◌<◌, T, length};
ghost use Rattle.octets.specs.Octets.{be};
ghost use Rattle.octets.specs.Lists.{all};
ghost use Rattle.rules.specs.Reply.{element, tunnel_part, address_part, chosen_elements, created};
ghost use Rattle.unit.specs.Meaning.{settings_of};
ghost use Rattle.writing.specs.Placed.{Placed};
ghost use Rattle.created.specs.Groups.{kind_in, groups, id_fits};
ghost use Rattle.created.specs.Entries.{max_grants, granted_tunnel, granted_address, told_of, listed, row_id, row_entry, entry_at, tolds_at, reports_at, within, filled};

use format::{Row, types, words};
use unit::Settings;

// One entry of the list: a record's kind and ID; the flags of its F-TEID (V4 1, V6 2, CH 4) and the TEID, which it was granted where CH is
// there; the kind of its UE IP Address and the address, which it was granted where the kind is CHOOSE.
#[derive(Clone, Copy)]
pub struct Grant {
    pub kind: u64,
    pub id: u64,
    pub flags: u64,
    pub teid: u64,
    pub ue: u64,
    pub address: u64,
}

// What an entry holds before it is filled.
const NONE: Grant = Grant {
    kind: 0,
    id: 0,
    flags: 0,
    teid: 0,
    ue: 0,
    address: 0,
};

// The F-TEID that was granted, with the unit's addresses; nothing where none was.
fn write_tunnel(u: Settings, g: Grant, out: &mut [u8], at: usize) -> usize
    requires { at + length (tunnel_part (settings_of u) (granted_tunnel g)) ≤ length out.old }
    ensures { Placed out.old at (tunnel_part (settings_of u) (granted_tunnel g)) result out.new }
{
    if g.flags / 4 % 2 != 1 {
        return at;
    }
    writing::write_fteid(u, g.teid, g.flags, out, at)
}

// The address that was granted; nothing where none was.
fn write_address(g: Grant, out: &mut [u8], at: usize) -> usize
    requires { at + length (address_part (granted_address g)) ≤ length out.old }
    ensures { Placed out.old at (address_part (granted_address g)) result out.new }
{
    if g.ue != words::UE_CHOOSE {
        return at;
    }
    writing::write_ue_address(g.address, out, at)
}

// A group: the ID in an element of its own, then what was granted, and the group's head in front of them.
fn write_group(
    u: Settings,
    group: u64,
    member: u64,
    width: usize,
    g: Grant,
    out: &mut [u8],
    at: usize,
) -> usize
    requires { (width ≤ 8) × (at + 8 + width + length (tunnel_part (settings_of u) (granted_tunnel g)) + length (address_part (granted_address g)) ≤ length out.old) }
    ensures { Placed out.old at (element group (element member (be width g.id) ++ chosen_elements (settings_of u) (told_of g).report)) result out.new }
{
    let id = writing::write_number(member, width, g.id, out, at + 4);
    let next = write_tunnel(u, g, out, id);
    let end = write_address(g, out, next);
    writing::write_head(group, end - (at + 4), out, at);
    end
}

// The group of a grant of one kind; nothing for a grant of the other.
fn write_grant(u: Settings, kind: u64, g: Grant, out: &mut [u8], at: usize) -> usize
    requires { (id_fits (told_of g) ≡ true) × (at + length (groups (kind_in kind) (settings_of u) (told_of g ∷ [])) ≤ length out.old) }
    ensures { Placed out.old at (groups (kind_in kind) (settings_of u) (told_of g ∷ [])) result out.new }
{
    if kind == types::CREATE_PDR {
        if g.kind != types::CREATE_PDR {
            return at;
        }
        return write_group(u, types::CREATED_PDR, types::PDR_ID, 2, g, out, at);
    }
    if g.kind == types::CREATE_PDR {
        return at;
    }
    write_group(
        u,
        types::CREATED_ENDPOINT,
        types::ENDPOINT_ID,
        1,
        g,
        out,
        at,
    )
}

// The ID of the row's record.
#[tactic(auto, unfolding(crate::specs::Entries::row_id))]
fn row_id(row: &Row) -> u64
    ensures { result ≡ row_id row.now }
{
    if row[words::TAG] == types::CREATE_PDR {
        row[words::PDR_ID]
    } else {
        row[words::ENDPOINT_ID]
    }
}

// The entry of a row.
#[tactic(auto, unfolding(crate::specs::Entries::row_entry))]
fn entry_of(row: &Row) -> Grant
    ensures { result ≡ row_entry row.now }
{
    Grant {
        kind: row[words::TAG],
        id: row_id(row),
        flags: row[words::FLAGS],
        teid: row[words::TEID],
        ue: row[words::UE_KIND],
        address: row[words::UE_ADDRESS],
    }
}

// Fills the list from the rows at places, an entry for each.
fn fill(grants: &mut [Grant], plan: &[u64], places: &[usize])
    requires { (length places.now ≤ length grants.old) × T (within plan.now places.now) }
    ensures { grants.new ≡ filled (entry_at plan.now places.now) (length places.now) grants.old }
{
    for (i, place) in places.iter().enumerate() {
        grants[i] = entry_of(plan::row_at(plan, *place));
    }
}

// The groups of the grants of one kind, in their order.
fn write_groups(u: Settings, grants: &[Grant], kind: u64, out: &mut [u8], at: usize) -> usize
    requires { (all id_fits (listed (length grants.now) grants.now) ≡ true) × (at + length (groups (kind_in kind) (settings_of u) (listed (length grants.now) grants.now)) ≤ length out.old) }
    ensures { Placed out.old at (groups (kind_in kind) (settings_of u) (listed (length grants.now) grants.now)) result out.new }
{
    let mut next = at;
    for grant in grants {
        next = write_grant(u, kind, *grant, out, next);
    }
    next
}

// Created PDRs, then Created Traffic Endpoints, of the grants of the plan's rows at places.
pub fn write_created(
    u: Settings,
    plan: &[u64],
    places: &[usize],
    out: &mut [u8],
    at: usize,
) -> usize
    requires { (length places.now ≤ max_grants) × T (within plan.now places.now) × (all id_fits (tolds_at plan.now places.now) ≡ true) × (at + length (created (settings_of u) (reports_at plan.now places.now)) ≤ length out.old) }
    ensures { Placed out.old at (created (settings_of u) (reports_at plan.now places.now)) result out.new }
{
    let mut list = [NONE; format::GRANTS];
    fill(&mut list, plan, places);
    let grants = &list[..places.len()];
    let next = write_groups(u, grants, types::CREATE_PDR, out, at);
    write_groups(u, grants, types::CREATE_ENDPOINT, out, next)
}
