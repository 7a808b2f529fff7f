// How many rays were answered, and how. A tally grows by one ray at a time up to a limit that 32 bits hold.
#![tactic(auto)]

ghost use Rattle.std.specs.Prelude.{true, ◌≡◌, is_some, unwrap_or};
ghost use Rattle.tally.specs.Tally.{kind_of, sum_of, can_grow, grown, after, counters_of, tally_of, counters_after};

// A tally with as many rays counts no more.
pub const MOST_RAYS: u32 = 4_000_000_000;

#[derive(Clone, Copy, Debug, PartialEq, Eq, Hash)]
pub enum Kind {
    Hit,
    Miss,
    Refusal,
}

// The kind of an answer from the number that curve_intersect returned.
impl From<u32> for Kind {
    ghost from_gives = { λ status kind. kind ≡ kind_of status };

    fn from(status: u32) -> Kind {
        match status {
            0 => Kind::Hit,
            1 => Kind::Miss,
            _ => Kind::Refusal,
        }
    }
}

// No invariant ties the counters: any four are an input, and one that does not add up counts no more.
#[derive(Clone, Copy, Debug, PartialEq, Eq, Hash, Default)]
pub struct Tally {
    pub rays: u32,
    pub hits: u32,
    pub misses: u32,
    pub refusals: u32,
}

// Callers in C have the counters in an array, in that order.
impl From<[u32; 4]> for Tally {
    ghost from_gives = { λ counters tally. tally ≡ tally_of counters };

    fn from([rays, hits, misses, refusals]: [u32; 4]) -> Tally {
        Tally {
            rays,
            hits,
            misses,
            refusals,
        }
    }
}

impl From<Tally> for [u32; 4] {
    ghost from_gives = { λ tally counters. counters ≡ counters_of tally };

    fn from(tally: Tally) -> [u32; 4] {
        [tally.rays, tally.hits, tally.misses, tally.refusals]
    }
}

impl Tally {
    // In 64 bits, where the sum of three counters cannot wrap.
    fn sum(self) -> u64
        ensures { result ≡ sum_of self }
    {
        u64::from(self.hits) + u64::from(self.misses) + u64::from(self.refusals)
    }

    // Whether one more answer is counted, of whatever kind.
    fn can_grow(self) -> bool
        ensures { result ≡ can_grow self }
    {
        self.rays < MOST_RAYS && u64::from(self.rays) == self.sum()
    }

    fn grown(mut self, kind: Kind) -> Tally
        requires { can_grow self ≡ true }
        ensures { result ≡ grown kind self }
    {
        self.rays += 1;
        // A match, since each kind has a counter of its own.
        match kind {
            Kind::Hit => self.hits += 1,
            Kind::Miss => self.misses += 1,
            Kind::Refusal => self.refusals += 1,
        }
        self
    }

    // The tally with one more answer, where it is counted.
    pub fn counted(self, kind: Kind) -> Option<Tally>
        ensures answer { is_some result ≡ can_grow self }
        ensures state { unwrap_or result self ≡ after kind self }
    {
        self.can_grow().then(|| self.grown(kind))
    }

    // Counts an answer: true where it is counted.
    pub fn add(&mut self, kind: Kind) -> bool
        ensures answer { result ≡ can_grow self.old }
        ensures state { self.new ≡ after kind self.old }
    {
        let counted = self.counted(kind);
        *self = counted.unwrap_or(*self);
        counted.is_some()
    }
}

// For callers with the counters in an array and the number that curve_intersect returned.
pub fn add_status(counters: &mut [u32; 4], status: u32) -> bool
    ensures answer { result ≡ can_grow (tally_of counters.old) }
    ensures state { counters.new ≡ counters_after status counters.old }
{
    let mut tally = Tally::from(*counters);
    let is_counted = tally.add(Kind::from(status));
    *counters = tally.into();
    is_counted
}
