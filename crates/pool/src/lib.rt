// The map of taken TEIDs. An offset is a TEID less the pool's first TEID; its bit is bit offset % 64 of word offset / 64.
// A map is filled through a lent slice of words, so that no mark copies it, and made into the record `Taken` once.
#![tactic(auto)]

ghost use Rattle.std.specs.Prelude.{◌≡◌, ◌*◌, ◌≤◌, ◌<◌, length};
ghost use Rattle.pool.specs.Map.{mark, free_from};
ghost use Rattle.pool.specs.Answer.{lowest};
ghost use Rattle.rules.specs.Sound.{marked};

// The number of words in the map of TEIDs, and in that of addresses.
pub const WORDS: usize = 1024;

pub const ADDRESS_WORDS: usize = 16;

// A map of taken numbers: words of 64 bits, a bit for each offset.
#[derive(Clone, Copy)]
pub struct Taken<const N: usize> {
    pub words: [u64; N],
}

// Is offset i marked?
pub fn is_marked(words: &[u64], i: usize) -> bool
    requires { i < 64 * length words.now }
    ensures { result ≡ marked words.now i }
{
    let at = i / 64;
    let b = i % 64;
    (words[at] >> b) % 2 == 1
}

// Marks offset i, and says whether it was marked before.
pub fn mark(words: &mut [u64], i: usize) -> bool
    requires { i < 64 * length words.old }
    ensures { (result ≡ marked words.old i) × (words.new ≡ mark words.old i) }
{
    let at = i / 64;
    let b = i % 64;
    let w = words[at];
    words[at] = w | (1 << b);
    (w >> b) % 2 == 1
}

// The lowest free offset that is at least `at` and below size. A word's complement, shifted by b, has a bit for each free offset of the
// word from bit b on: its trailing zeros lead to the first, and a word that has none is passed over.
pub fn next_free(words: &[u64], at: usize, size: usize) -> Option<usize>
    requires { size ≤ 64 * length words.now }
    ensures { result ≡ lowest (free_from words.now at size) }
{
    if size <= at {
        return None;
    }
    let mut b = at % 64;
    for k in at / 64..(size - 1) / 64 + 1 {
        let open = !words[k] >> b;
        if open != 0 {
            let i = 64 * k + b + u64::trailing_zeros(open) as usize;
            if i < size {
                return Some(i);
            }
            return None;
        }
        b = 0;
    }
    None
}
