// The calls for a host program in C: each is the library's function of the same name (pfcp_session), with the same clauses, exported. A library is not
// linked by C, so they stand in a static library of their own. include/pfcp_session.h says what a host must pass.
//
// A slice is passed as a pointer and then its length. Every call may be given any octets and any numbers.
#![tactic(auto)]

ghost use Rattle.std.specs.Prelude.{◌≡◌};
ghost use Rattle.rules.specs.Sound.{length_for};
ghost use Rattle.unit.specs.Meaning.{settings_given};
ghost use Rattle.rules.specs.Store.{store_length};
ghost use Rattle.pfcp_session.specs.Calls.{store_call, once_call, make_call, count_call, address_count_call, request_call, restoration_call, session_count_call, find_session_call, find_teid_call, peer_count_call, counts_call};

#[unsafe(no_mangle)]
pub extern "C" fn pfcp_table_length(session_limit: u32) -> usize
    ensures { result ≡ length_for session_limit }
{
    pfcp_session::pfcp_table_length(session_limit)
}

#[unsafe(no_mangle)]
pub extern "C" fn pfcp_make_table(
    table: &mut [u8],
    ipv4: u32,
    ipv6: &[u8],
    first: u32,
    size: u32,
    first_address: u32,
    address_count: u32,
    session_limit: u32,
    address1: u32,
    guarantee1: u32,
    limit1: u32,
    address2: u32,
    guarantee2: u32,
    limit2: u32,
) -> u32
    ensures { record { outcome = result; table = table.new }
        ≡ make_call
        (settings_given ipv4 ipv6.now first size first_address address_count session_limit
        (record { address = address1; guarantee = guarantee1; limit = limit1 })
        (record { address = address2; guarantee = guarantee2; limit = limit2 }))
        table.old }
{
    pfcp_session::pfcp_make_table(
        table,
        ipv4,
        ipv6,
        first,
        size,
        first_address,
        address_count,
        session_limit,
        address1,
        guarantee1,
        limit1,
        address2,
        guarantee2,
        limit2,
    )
}

#[unsafe(no_mangle)]
pub extern "C" fn pfcp_free_count(table: &[u8], count: &mut u32) -> u32
    ensures { record { outcome = result; count = count.new } ≡ count_call table.now }
{
    pfcp_session::pfcp_free_count(table, count)
}

#[unsafe(no_mangle)]
pub extern "C" fn pfcp_free_addresses(table: &[u8], count: &mut u32) -> u32
    ensures { record { outcome = result; count = count.new } ≡ address_count_call table.now }
{
    pfcp_session::pfcp_free_addresses(table, count)
}

#[unsafe(no_mangle)]
pub extern "C" fn pfcp_request(
    table: &mut [u8],
    peer: u32,
    message: &[u8],
    reply: &mut [u8],
    used: &mut usize,
    place: &mut usize,
) -> u32
    ensures { record { outcome = result; used = used.new; place = place.new; space = reply.new; table = table.new }
        ≡ request_call table.old peer message.now reply.old }
{
    pfcp_session::pfcp_request(table, peer, message, reply, used, place)
}

#[unsafe(no_mangle)]
pub extern "C" fn pfcp_store_length() -> usize
    ensures { result ≡ store_length }
{
    pfcp_session::pfcp_store_length()
}

#[unsafe(no_mangle)]
pub extern "C" fn pfcp_make_store(store: &mut [u8]) -> u32
    ensures { record { outcome = result; store = store.new } ≡ store_call store.old }
{
    pfcp_session::pfcp_make_store(store)
}

#[unsafe(no_mangle)]
pub extern "C" fn pfcp_request_once(
    table: &mut [u8],
    peer: u32,
    store: &mut [u8],
    message: &[u8],
    reply: &mut [u8],
    used: &mut usize,
    place: &mut usize,
) -> u32
    ensures { record { outcome = result; used = used.new; place = place.new; space = reply.new; table = table.new; store = store.new }
        ≡ once_call table.old peer store.old message.now reply.old }
{
    pfcp_session::pfcp_request_once(table, peer, store, message, reply, used, place)
}

#[unsafe(no_mangle)]
pub extern "C" fn pfcp_write_restoration(
    table: &[u8],
    place: usize,
    ipv4: &[u8],
    ipv6: &[u8],
    space: &mut [u8],
    used: &mut usize,
    peer: &mut u32,
) -> u32
    ensures { record { outcome = result; used = used.new; peer = peer.new; space = space.new }
        ≡ restoration_call table.now place ipv4.now ipv6.now space.old }
{
    pfcp_session::pfcp_write_restoration(table, place, ipv4, ipv6, space, used, peer)
}

#[unsafe(no_mangle)]
pub extern "C" fn pfcp_session_count(table: &[u8], count: &mut u32) -> u32
    ensures { record { outcome = result; number = count.new } ≡ session_count_call table.now }
{
    pfcp_session::pfcp_session_count(table, count)
}

#[unsafe(no_mangle)]
pub extern "C" fn pfcp_find_session(table: &[u8], peer: u32, seid: u64, place: &mut usize) -> u32
    ensures { record { outcome = result; number = place.new } ≡ find_session_call table.now peer seid }
{
    pfcp_session::pfcp_find_session(table, peer, seid, place)
}

#[unsafe(no_mangle)]
pub extern "C" fn pfcp_find_teid(table: &[u8], teid: u32, place: &mut usize) -> u32
    ensures { record { outcome = result; number = place.new } ≡ find_teid_call table.now teid }
{
    pfcp_session::pfcp_find_teid(table, teid, place)
}

#[unsafe(no_mangle)]
pub extern "C" fn pfcp_peer_count(
    table: &[u8],
    peer: u32,
    sessions: &mut u32,
    teids: &mut u32,
) -> u32
    ensures { record { outcome = result; sessions = sessions.new; teids = teids.new } ≡ peer_count_call table.now peer }
{
    pfcp_session::pfcp_peer_count(table, peer, sessions, teids)
}

#[unsafe(no_mangle)]
pub extern "C" fn pfcp_counts(
    table: &[u8],
    sessions1: &mut u32,
    teids1: &mut u32,
    sessions2: &mut u32,
    teids2: &mut u32,
    free: &mut u32,
    addresses: &mut u32,
) -> u32
    ensures { record { outcome = result; sessions1 = sessions1.new; teids1 = teids1.new; sessions2 = sessions2.new; teids2 = teids2.new; free = free.new; free_addresses = addresses.new } ≡ counts_call table.now }
{
    pfcp_session::pfcp_counts(table, sessions1, teids1, sessions2, teids2, free, addresses)
}
