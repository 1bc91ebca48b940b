// Tables of 01's Places: which members a group has, and how many octets a plain one takes.
ghost use Rattle.std.specs.Prelude.{◌≡◌};
ghost use Rattle.octets.specs.Lists.{member};
ghost use Rattle.rules.specs.Message.{places_of, number_width};
ghost use Rattle.reading.specs.Rows.{is_pdi};

use format::types;

// Whether an element of type kind has a place in the group.
pub(crate) fn is_member(group: u64, kind: u64) -> bool
    ensures { result ≡ member kind (places_of group) }
{
    match group {
        types::CREATE_PDR | types::UPDATE_PDR => match kind {
            types::PDR_ID | types::PRECEDENCE | types::PDI | types::FAR_ID => true,
            _ => false,
        },
        types::PDI => match kind {
            types::SOURCE_INTERFACE | types::ENDPOINT_ID | types::UE_IP_ADDRESS => true,
            types::FTEID => true,
            _ => false,
        },
        types::CREATE_ENDPOINT => match kind {
            types::ENDPOINT_ID | types::FTEID | types::UE_IP_ADDRESS => true,
            _ => false,
        },
        types::REMOVE_PDR => match kind {
            types::PDR_ID => true,
            _ => false,
        },
        _ => match kind {
            types::ENDPOINT_ID => true,
            _ => false,
        },
    }
}

// How many octets a plain member has.
pub fn width_of(kind: u64) -> usize
    ensures { result ≡ number_width kind }
{
    match kind {
        types::PDR_ID => 2,
        types::PRECEDENCE | types::FAR_ID => 4,
        _ => 1,
    }
}

// Whether an element of type kind in the group is a PDI whose members are read.
pub(crate) fn is_pdi(group: u64, kind: u64) -> bool
    ensures { result ≡ is_pdi group kind }
{
    if group != types::CREATE_PDR {
        return false;
    }
    kind == types::PDI
}
