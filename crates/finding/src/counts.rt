// What a table holds and what is free, told at once: one check of the table, where the calls for each count make one each.
ghost use Rattle.std.specs.Prelude.{◌≡◌};
ghost use Rattle.rules.specs.Finding.{count_all};
ghost use Rattle.finding.specs.All.{counts_told};

use crate::{Share, Untold};

// What each peer has, and the free TEIDs and addresses.
#[derive(Clone, Copy, Debug, Default, PartialEq, Eq)]
pub struct Counts {
    pub peer1: Share,
    pub peer2: Share,
    pub free: u64,
    pub addresses: u64,
}

// All counts of a table.
pub fn all(t: &[u8]) -> Result<Counts, Untold>
    ensures { counts_told result ≡ count_all t.now }
{
    let Ok(held) = table::tally(t) else {
        return Err(Untold::Broken);
    };
    let u = unit::read(t);
    let n = octets::read(t, format::COUNT, 2) as usize;
    Ok(Counts {
        peer1: Share {
            sessions: held.first,
            teids: held.one,
        },
        peer2: Share {
            sessions: n - held.first,
            teids: held.two,
        },
        free: u.size - (held.one + held.two) as u64,
        addresses: u.addresses - held.taken as u64,
    })
}
