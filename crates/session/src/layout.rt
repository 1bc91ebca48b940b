// Where records stand (docs/layout.md): the areas of a session slot, and the table's sessions.
ghost use Rattle.std.specs.Prelude.{◌≡◌, ◌+◌, ◌^◌, ◌<◌};
ghost use Rattle.session.specs.Areas.{area_of_pdrs, area_of_endpoints, area_of_csids, session_area};

use areas::Area;

pub fn pdrs() -> Area
    ensures { result ≡ area_of_pdrs }
{
    Area {
        count_at: format::PDR_COUNT,
        count_width: 1,
        at: format::PDRS,
        room: format::MAX_PDRS,
        width: format::PDR,
        key: 2,
    }
}

pub fn endpoints() -> Area
    ensures { result ≡ area_of_endpoints }
{
    Area {
        count_at: format::ENDPOINT_COUNT,
        count_width: 1,
        at: format::ENDPOINTS,
        room: format::MAX_ENDPOINTS,
        width: format::ENDPOINT,
        key: 1,
    }
}

pub fn csids() -> Area
    ensures { result ≡ area_of_csids }
{
    Area {
        count_at: format::CSID_COUNT,
        count_width: 1,
        at: format::CSIDS,
        room: format::MAX_CSIDS,
        width: format::CSID,
        key: 1,
    }
}

// Sessions: their number at the base, and room for so many after it.
pub fn sessions(room: usize, base: usize) -> Area
    requires { base + 2 < 2 ^ 64 }
    ensures { result ≡ session_area room base }
{
    Area {
        count_at: base,
        count_width: 2,
        at: base + 2,
        room: room,
        width: format::SLOT,
        key: 9,
    }
}
