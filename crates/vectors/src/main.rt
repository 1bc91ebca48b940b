// Runs document 01's worked values of the elements and more rows of the same kind: reads each, prints the numbers of the value and
// the octets written of it, or the cause; then writes values, allowed and not, into spaces of several lengths.
#![tactic(auto)]

mod rows;

ghost use Rattle.std.specs.Prelude.{◌≡◌, false};
ghost use Rattle.rules.specs.Elements.{read_fteid, read_fqcsid};
ghost use Rattle.vectors.specs.First.{first_cause};

use element::Refusal;
use fqcsid::FqCsid;
use fteid::FTeid;
use output::Hex;
use std::io;
use ue_ip::UeIp;

// The unit's address, 192.0.2.1.
const UNIT: u32 = 0xc0000201;

// The cause of the first refusal of an F-TEID and an FQ-CSID, 0 where there is none.
fn first_refusal(tunnel: &[u8], csid: &[u8]) -> u64
    ensures { result ≡ first_cause (read_fteid false tunnel.now) (read_fqcsid csid.now) }
{
    if let Err(refusal) = fteid::read(tunnel, false) {
        return element::cause_of(refusal);
    }
    if let Err(refusal) = fqcsid::read(csid) {
        return element::cause_of(refusal);
    }
    0
}

// The octets of a value that was read and is written again.
fn again(rt: &impl Print, written: Option<usize>, out: &[u8]) -> io::Result<()> {
    match written {
        Some(n) => println!(rt; "{}", Hex(&out[..n.min(out.len())])),
        None => println!(rt; "not written"),
    }
}

fn refused(rt: &impl Print, refusal: Refusal) -> io::Result<()> {
    println!(rt; "cause {}", element::cause_of(refusal))
}

fn tunnel(rt: &impl Print, s: &[u8], endpoint: bool) -> io::Result<()> {
    let v = match fteid::read(s, endpoint) {
        Ok(v) => v,
        Err(refusal) => return refused(rt, refusal),
    };
    print!(rt;
        "{} {} {} {} {} {} ",
        v.flags, v.teid, v.ipv4, v.ipv6_high, v.ipv6_low, v.choose_id
    )?;
    let mut out = [0xaau8; 26];
    again(rt, fteid::write(v, endpoint, &mut out), &out)
}

fn csid(rt: &impl Print, s: &[u8]) -> io::Result<()> {
    let v = match fqcsid::read(s) {
        Ok(v) => v,
        Err(refusal) => return refused(rt, refusal),
    };
    print!(rt;
        "{} {} {} {} ",
        v.id_type, v.count, v.address_high, v.address_low
    )?;
    print!(rt;
        "{} {} {} {} {} ",
        v.csids_1, v.csids_2, v.csids_3, v.csids_4, v.node_type
    )?;
    let mut out = [0xaau8; 48];
    again(rt, fqcsid::write(v, &mut out), &out)
}

// A SEID is written as a reply has it, with 192.0.2.1.
fn seid(rt: &impl Print, s: &[u8]) -> io::Result<()> {
    let n = match fseid::read(s) {
        Ok(n) => n,
        Err(refusal) => return refused(rt, refusal),
    };
    print!(rt; "{n} ")?;
    let mut out = [0xaau8; 16];
    again(rt, fseid::write(n, UNIT, &mut out), &out)
}

fn address(rt: &impl Print, s: &[u8]) -> io::Result<()> {
    let v = match ue_ip::read(s) {
        Ok(v) => v,
        Err(refusal) => return refused(rt, refusal),
    };
    match v {
        UeIp::Given(n) => print!(rt; "{n} ")?,
        UeIp::Choose => print!(rt; "choose ")?,
        UeIp::Other => print!(rt; "other ")?,
    }
    in_space(rt, &mut [0xaa; 8], |out| ue_ip::write(v, out))
}

// What a writer answers, and the space that it leaves.
fn in_space<F: FnOnce(&mut [u8]) -> Option<usize>>(
    rt: &impl Print,
    out: &mut [u8],
    write: F,
) -> io::Result<()>
    requires { F.IsAlwaysCallable write }
{
    match write(out) {
        Some(count) => print!(rt; "{count} ")?,
        None => print!(rt; "refused ")?,
    }
    println!(rt; "{}", Hex(out))
}

// An F-TEID without IPv6.
fn tunnel_of(flags: u64, teid: u64, ipv4: u64, choose_id: u64) -> FTeid {
    FTeid {
        flags,
        teid,
        ipv4,
        ipv6_high: 0,
        ipv6_low: 0,
        choose_id,
    }
}

// An FQ-CSID with an address of four octets and at most four CSIDs.
fn csid_of(id_type: u64, count: u64, address: u64, csids: u64, node_type: u64) -> FqCsid {
    FqCsid {
        id_type,
        count,
        address_high: 0,
        address_low: address,
        csids_1: csids,
        csids_2: 0,
        csids_3: 0,
        csids_4: 0,
        node_type,
    }
}

// An F-TEID of nine octets: space to spare, just enough, too little.
fn tunnel_spaces(rt: &impl Print) -> io::Result<()> {
    let nine = tunnel_of(1, 4096, UNIT as u64, 0);
    in_space(rt, &mut [0xaa; 16], |out| fteid::write(nine, false, out))?;
    in_space(rt, &mut [0xaa; 9], |out| fteid::write(nine, true, out))?;
    in_space(rt, &mut [0xaa; 8], |out| fteid::write(nine, false, out))
}

// An FQ-CSID of eight octets.
fn csid_spaces(rt: &impl Print) -> io::Result<()> {
    let eight = csid_of(0, 1, 0xc000020a, 5, 1);
    in_space(rt, &mut [0xaa; 16], |out| fqcsid::write(eight, out))?;
    in_space(rt, &mut [0xaa; 8], |out| fqcsid::write(eight, out))?;
    in_space(rt, &mut [0xaa; 7], |out| fqcsid::write(eight, out))
}

fn seid_spaces(rt: &impl Print) -> io::Result<()> {
    in_space(rt, &mut [0xaa; 16], |out| fseid::write(1, UNIT, out))?;
    in_space(rt, &mut [0xaa; 13], |out| fseid::write(1, UNIT, out))?;
    in_space(rt, &mut [0xaa; 12], |out| fseid::write(1, UNIT, out))?;
    in_space(rt, &mut [0xaa; 16], |out| fseid::write(0, UNIT, out))
}

// Likewise; then what is not written: an address of five octets, and a value that is not supported, where an address stands.
fn address_spaces(rt: &impl Print) -> io::Result<()> {
    let given = UeIp::Given(0x0a000001);
    let mut eight = [0xaau8; 8];
    in_space(rt, &mut eight, |out| ue_ip::write(given, out))?;
    in_space(rt, &mut [0xaa; 5], |out| ue_ip::write(given, out))?;
    in_space(rt, &mut [0xaa; 4], |out| ue_ip::write(given, out))?;
    in_space(rt, &mut [0xaa; 1], |out| ue_ip::write(UeIp::Choose, out))?;
    in_space(rt, &mut [], |out| ue_ip::write(UeIp::Choose, out))?;
    in_space(
        rt,
        &mut eight,
        |out| ue_ip::write(UeIp::Given(0x100000000), out),
    )?;
    in_space(rt, &mut eight, |out| ue_ip::write(UeIp::Other, out))
}

fn main(rt: HostRuntime) -> io::Result<()> {
    for (s, endpoint) in rows::TUNNELS {
        tunnel(&rt, s, endpoint)?;
    }
    for s in rows::CSIDS {
        csid(&rt, s)?;
    }
    for s in rows::SEIDS {
        seid(&rt, s)?;
    }
    tunnel_spaces(&rt)?;
    for (flags, teid, ipv4, id, endpoint) in rows::WRITTEN_TUNNELS {
        let v = tunnel_of(flags, teid, ipv4, id);
        in_space(&rt, &mut [0xaa; 16], |out| fteid::write(v, endpoint, out))?;
    }
    csid_spaces(&rt)?;
    for (id_type, count, address, csids, node_type) in rows::WRITTEN_CSIDS {
        let v = csid_of(id_type, count, address, csids, node_type);
        in_space(&rt, &mut [0xaa; 16], |out| fqcsid::write(v, out))?;
    }
    seid_spaces(&rt)?;
    for s in rows::ADDRESSES {
        address(&rt, s)?;
    }
    address_spaces(&rt)?;
    print!(&rt; "{} ", first_refusal(b"\x05", b"\x31"))?;
    print!(&rt; "{} ", first_refusal(b"\x0d", b"\x31"))?;
    print!(&rt;
        "{} ",
        first_refusal(b"\x05", b"\x01\xc0\x00\x02\x0a\x00\x05\x01")
    )?;
    println!(&rt)
}
