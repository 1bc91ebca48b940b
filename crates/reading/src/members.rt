// A group read once, straight into its row: the members of a PDI in a Create PDR with it. One reader for all six groups: which members
// have a place, which are required, and the word and the width of a plain member are tables.
ghost use Rattle.std.specs.Prelude.{◌≡◌, ◌+◌, ◌≤◌, ◌<◌, ◌^◌, eqb, length, true};
ghost use Rattle.octets.specs.Choice.{pick};
ghost use Rattle.octets.specs.Lists.{member};
ghost use Rattle.rules.specs.Elements.{read_fteid, read_ue_ip};
ghost use Rattle.rules.specs.Message.{number_width};
ghost use Rattle.rules.specs.Reading.{unopened, value_read};
ghost use Rattle.plan.specs.Rows.{word, row_width};
ghost use Rattle.reading.specs.Verdicts.{outcome, numbered, fault, fine};
ghost use Rattle.reading.specs.Rows.{member_types, plain_types, there_word, row_members, Tidy, Reads, plain_number, plain_read, fteid_read, ue_read, ue_kind_in, ue_address_in, own_read, is_null_far, closing, closed_read};

use crate::{Fault, answer_at};
use format::{causes, types, words};
use ue_ip::UeIp;

// The word of a row that says whether a member of type kind is there.
fn column_of(kind: u64) -> usize
    ensures { (result ≡ there_word kind) × (result < row_width) }
{
    match kind {
        types::PDR_ID => words::HAS_PDR_ID,
        types::PRECEDENCE => words::HAS_PRECEDENCE,
        types::FAR_ID => words::HAS_FAR_ID,
        types::SOURCE_INTERFACE => words::HAS_SOURCE,
        types::ENDPOINT_ID => words::HAS_ENDPOINT_ID,
        types::PDI => words::HAS_PDI,
        types::FTEID => words::FLAGS,
        types::UE_IP_ADDRESS => words::UE_KIND,
        _ => 0,
    }
}

// The number of a plain member of type kind, of a Source Interface the low four bits.
fn number_of(v: &[u8], kind: u64, width: usize) -> u64
    requires { (width ≡ number_width kind) × (width ≤ length v.now) }
    ensures { result ≡ plain_number kind v.now }
{
    let n = octets::read(v, 0, width);
    if kind == types::SOURCE_INTERFACE {
        return n % 16;
    }
    n
}

// A plain member at a place: its presence word, and its number six words on.
fn read_plain(v: &[u8], kind: u64, place: usize, row: &mut [u64]) -> Result<(), Fault>
    requires { Tidy row.old × (member kind plain_types ≡ true) }
    ensures { Reads (plain_read kind place v.now (row_members row.old)) row.new result }
{
    let width = crate::group::width_of(kind);
    if v.len() < width {
        return Err(Fault {
            cause: causes::WRONG_LENGTH,
            kind,
            place,
        });
    }
    let n = number_of(v, kind, width);
    let at = column_of(kind);
    row[at] = 1;
    row[at + 6] = n;
    Ok(())
}

// An F-TEID at a place: in a traffic endpoint (endpoint) or in a PDI.
fn read_fteid(v: &[u8], endpoint: bool, place: usize, row: &mut [u64]) -> Result<(), Fault>
    requires { Tidy row.old }
    ensures { Reads (fteid_read place (read_fteid endpoint v.now) (row_members row.old)) row.new result }
{
    let x = answer_at(fteid::read(v, endpoint), types::FTEID, place)?;
    row[words::FLAGS] = x.flags;
    row[words::TEID] = x.teid;
    row[words::IPV4] = x.ipv4;
    row[words::IPV6_HIGH] = x.ipv6_high;
    row[words::IPV6_LOW] = x.ipv6_low;
    row[words::CHOOSE_ID] = x.choose_id;
    Ok(())
}

// The kind of a UE IP Address, as its row has it: 1 an address, 2 a CHOOSE, 3 one that is not supported.
fn kind_of(x: UeIp) -> u64
    ensures { result ≡ ue_kind_in x }
{
    match x {
        UeIp::Given(_) => words::UE_GIVEN,
        UeIp::Choose => words::UE_CHOOSE,
        UeIp::Other => words::UE_OTHER,
    }
}

// The address that it gives, else 0.
fn address_of(x: UeIp) -> u64
    ensures { result ≡ ue_address_in x }
{
    match x {
        UeIp::Given(address) => address,
        UeIp::Choose => 0,
        UeIp::Other => 0,
    }
}

// A UE IP Address at a place.
fn read_ue(v: &[u8], place: usize, row: &mut [u64]) -> Result<(), Fault>
    requires { Tidy row.old }
    ensures { Reads (ue_read place (read_ue_ip v.now) (row_members row.old)) row.new result }
{
    let x = answer_at(ue_ip::read(v), types::UE_IP_ADDRESS, place)?;
    row[words::UE_KIND] = kind_of(x);
    row[words::UE_ADDRESS] = address_of(x);
    Ok(())
}

// Whether this is a FAR ID of null length in an Update PDR.
fn is_null_far(v: &[u8], group: u64, kind: u64) -> bool
    ensures { result ≡ is_null_far group kind v.now }
{
    if group != types::UPDATE_PDR {
        return false;
    }
    if kind != types::FAR_ID {
        return false;
    }
    v.len() == 0
}

// The value of a member of type kind at a place, in the group. The members of a PDI are read apart in a Create PDR, and not at all in an Update
// PDR, where a FAR ID of null length takes the FAR ID away.
fn read_value(v: &[u8], group: u64, kind: u64, place: usize, row: &mut [u64]) -> Result<(), Fault>
    requires { Tidy row.old × (member kind member_types ≡ true) }
    ensures { Reads (value_read unopened group kind place v.now (row_members row.old)) row.new result }
{
    if kind == types::FTEID {
        return read_fteid(v, group == types::CREATE_ENDPOINT, place, row);
    }
    if kind == types::UE_IP_ADDRESS {
        return read_ue(v, place, row);
    }
    if kind == types::PDI {
        row[words::HAS_PDI] = 1;
        return Ok(());
    }
    if is_null_far(v, group, kind) {
        row[words::HAS_FAR_ID] = 2;
        return Ok(());
    }
    read_plain(v, kind, place, row)
}

// An element of type kind and value v at a place in the group, by itself: skipped where it has no place, a repeat where its word is set.
fn read_own(v: &[u8], group: u64, kind: u64, place: usize, row: &mut [u64]) -> Result<(), Fault>
    requires { Tidy row.old }
    ensures { Reads (own_read group kind place v.now (row_members row.old)) row.new result }
{
    if !crate::group::is_member(group, kind) {
        return Ok(());
    }
    let at = column_of(kind);
    if row[at] != 0 {
        return Err(Fault {
            cause: causes::INCORRECT,
            kind,
            place,
        });
    }
    read_value(v, group, kind, place, row)
}

// Refuses the row of a group at a place without a member of type kind.
fn require(row: &[u64], cause: u64, kind: u64, place: usize) -> Result<(), Fault>
    requires { length row.now ≡ row_width }
    ensures { result ≡ pick (eqb (word (there_word kind) row.now) 0) (fault cause kind place) fine }
{
    if row[column_of(kind)] == 0 {
        return Err(Fault { cause, kind, place });
    }
    Ok(())
}

// The first member that the row of a group at a place lacks, the lowest type first.
fn lacking(row: &[u64], group: u64, place: usize) -> Result<(), Fault>
    requires { Tidy row.now }
    ensures { outcome result (row_members row.now) ≡ numbered (closing group place (row_members row.now)) }
{
    match group {
        types::CREATE_PDR => require(row, causes::MANDATORY_MISSING, types::PDI, place)
            .and(require(row, causes::MANDATORY_MISSING, types::PRECEDENCE, place))
            .and(require(row, causes::MANDATORY_MISSING, types::PDR_ID, place))
            .and(require(
                row,
                causes::MANDATORY_MISSING,
                types::SOURCE_INTERFACE,
                place,
            )),
        types::PDI => require(
            row,
            causes::MANDATORY_MISSING,
            types::SOURCE_INTERFACE,
            place,
        ),
        types::CREATE_ENDPOINT => require(
            row,
            causes::CONDITIONAL_MISSING,
            types::FTEID,
            place,
        ).and(require(row, causes::MANDATORY_MISSING, types::ENDPOINT_ID, place)),
        types::UPDATE_PDR | types::REMOVE_PDR => {
            require(row, causes::MANDATORY_MISSING, types::PDR_ID, place)
        }
        _ => require(row, causes::MANDATORY_MISSING, types::ENDPOINT_ID, place),
    }
}

// Reads the group s at a place into its row, up to the first fault. The members stand from the place plus 4 on.
pub fn read_group(s: &[u8], group: u64, place: usize, row: &mut [u64]) -> Result<(), Fault>
    requires { Tidy row.old × (place + 4 + length s.now < 2 ^ 64) }
    ensures { Reads (closed_read group place s.now (row_members row.old)) row.new result }
{
    let mut rest = s;
    let mut at = place + 4;
    while let Some(element) = frame::first_of(rest) {
        let kind = element.kind;
        let v = &rest[4..element.end];
        read_own(v, group, kind, at, row)?;
        if crate::group::is_pdi(group, kind) {
            read_group(v, types::PDI, at, row)?;
        }
        rest = &rest[element.end..];
        at += element.end;
    }
    lacking(row, group, place)
}
