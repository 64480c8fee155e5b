// The board's regions, and the check of a layout's bytes.
#![tactic(auto)]

ghost use Rattle.std.specs.Prelude.{◌≡◌, ◌*◌, ◌<◌};
ghost use Rattle.notions.specs.First.{found};
ghost use Rattle.layout.specs.Regions as R;
ghost use Rattle.layout.specs.Layouts as S;
ghost use Rattle.layout.specs.Promises as P;

use refusal::{Reason, Refusal};

// A lowest and a highest address, both included.
#[derive(Clone, Copy)]
pub struct Region {
    pub lo: u16,
    pub hi: u16,
}

#[derive(Clone, Copy)]
pub struct Layout {
    pub cr: Region,
    pub kr: Region,
    pub xs: Region,
    pub mr: Region,
    pub ctr: Region,
    pub ar: Region,
}

// The bytes of a layout, how many regions they describe, and the bytes of each.
pub const LAYOUT_BYTES: usize = 24;

const REGIONS: usize = 6;

const REGION_BYTES: usize = 4;

// The bytes of KR and of CTR, and the fewest of MR.
const KEY_BYTES: usize = 64;

const COUNTER_BYTES: usize = 32;

const LEAST_MAILBOX: usize = 96;

// The bytes of a board's memory.
pub const MEMORY_BYTES: usize = 65_536;

// The regions' numbers. No enum: places and the numbers of pairs are worked out from them (`region`, `pair_collides`).
const CR: usize = 0;

const KR: usize = 1;

const XS: usize = 2;

const MR: usize = 3;

const CTR: usize = 4;

const AR: usize = 5;

impl Region {
    pub fn holds(self, a: u16) -> bool
        ensures { P.Holds self a result }
    {
        (self.lo <= a) & (a <= self.hi)
    }

    fn is_reversed(self) -> bool
        ensures { result ≡ R.reversed self }
    {
        self.hi < self.lo
    }

    fn size(self) -> usize
        ensures { result ≡ R.size self }
    {
        if self.is_reversed() {
            return 0;
        }
        (self.hi - self.lo) as usize + 1
    }
}

fn region_at(b: &[u8; LAYOUT_BYTES], k: usize) -> Region
    requires { k < S.regions }
    ensures { result ≡ S.region b.now k }
{
    let at = REGION_BYTES * k;
    Region {
        lo: octets::number_of_two(b[at], b[at + 1]),
        hi: octets::number_of_two(b[at + 2], b[at + 3]),
    }
}

// Three searches by `for`: with `find` and its closures a check took twice as long.
fn first_reversed(b: &[u8; LAYOUT_BYTES]) -> Option<usize>
    ensures { result ≡ found S.regions (λ k. R.reversed (S.region b.now k)) }
{
    for k in 0..REGIONS {
        if region_at(b, k).is_reversed() {
            return Some(k);
        }
    }
    None
}

fn wrong_size(k: usize, r: Region) -> bool
    ensures { result ≡ S.wrong_size k r }
{
    let n = r.size();
    ((k == KR) & (n != KEY_BYTES))
        | ((k == MR) & (n < LEAST_MAILBOX))
        | ((k == CTR) & (n != COUNTER_BYTES))
}

fn first_wrong_size(b: &[u8; LAYOUT_BYTES]) -> Option<usize>
    ensures { result ≡ found S.regions (λ k. S.wrong_size k (S.region b.now k)) }
{
    for k in 0..REGIONS {
        if wrong_size(k, region_at(b, k)) {
            return Some(k);
        }
    }
    None
}

// Two regions, the one with the lower number first, that share an address and may not: AR and CR may.
fn collide(b: &[u8; LAYOUT_BYTES], i: usize, j: usize) -> bool
    requires { (i < S.regions) × (j < S.regions) }
    ensures { result ≡ S.collide b.now i j }
{
    let x = region_at(b, i);
    let y = region_at(b, j);
    !((i == CR) & (j == AR)) & ((x.lo <= y.hi) & (y.lo <= x.hi))
}

// A pair of regions by its number, six times the one's plus the other's: they collide.
fn pair_collides(b: &[u8; LAYOUT_BYTES], n: usize) -> bool
    requires { n < S.regions * S.regions }
    ensures { result ≡ S.pair_collides b.now n }
{
    let i = n / REGIONS;
    let j = n % REGIONS;
    (i < j) & collide(b, i, j)
}

fn first_collision(b: &[u8; LAYOUT_BYTES]) -> Option<usize>
    ensures { result ≡ found (S.regions * S.regions) (S.pair_collides b.now) }
{
    for n in 0..REGIONS * REGIONS {
        if pair_collides(b, n) {
            return Some(n);
        }
    }
    None
}

// Refusals 3 to 6.
fn check_regions(b: &[u8; LAYOUT_BYTES]) -> Result<(), Refusal>
    ensures { result ≡ S.layout_check b.now }
{
    if let Some(k) = first_reversed(b) {
        return Err(Reason::RegionReversed.at(k));
    }
    if let Some(k) = first_wrong_size(b) {
        return Err(Reason::RegionSize.at(k));
    }
    if region_at(b, CR).holds(0) {
        return Err(Reason::ZeroInCode.into());
    }
    if let Some(_) = first_collision(b) {
        return Err(Reason::RegionsShare.into());
    }
    Ok(())
}

fn layout_of(b: &[u8; LAYOUT_BYTES]) -> Layout
    ensures { result ≡ S.layout_of b.now }
{
    Layout {
        cr: region_at(b, CR),
        kr: region_at(b, KR),
        xs: region_at(b, XS),
        mr: region_at(b, MR),
        ctr: region_at(b, CTR),
        ar: region_at(b, AR),
    }
}

// The layout that 24 bytes describe; refused as the rules page says.
pub fn check(layout: &[u8]) -> Result<Layout, Refusal>
    ensures { P.Checks layout.now result }
{
    let Ok(b) = <&[u8; LAYOUT_BYTES]>::try_from(layout) else {
        return Err(Reason::LayoutSize.into());
    };
    check_regions(b)?;
    Ok(layout_of(b))
}

// For a call on a board's memory: refusals 1 to 6, then those of `rest`; else the layout.
pub fn admit(memory: &[u8], layout: &[u8], rest: Result<(), Refusal>) -> Result<Layout, Refusal>
    ensures { P.Admits memory.now layout.now rest result }
{
    if memory.len() != MEMORY_BYTES {
        return Err(Reason::MemorySize.into());
    }
    let l = check(layout)?;
    rest?;
    Ok(l)
}
