// Numbered pairs of words, found through chains of pairs of one bucket.
#![tactic(auto)]

ghost use Rattle.std.specs.Prelude.{◌≡◌, ◌+◌, ◌<◌, length, replicate};
ghost use Rattle.pairs.specs.Pairs.{is_pair, found, buckets, bucket_of, Chain, lists, inserted};

// How many chains there are.
pub const BUCKETS: usize = 16384;

// At most N pairs, numbered from 0. A chain goes through the numbers of one bucket, from the last to the first: `head` and `next` hold one more
// than a number, and 0 ends the chain. A pair's words are in two lists, since the definitions (`is_pair`, `found`, `inserted`) speak of two. Not `Clone`:
// an index is never copied.
#[derive(Drop)]
pub struct Index<const N: usize> {
    pub first: [usize; N],
    pub second: [usize; N],
    pub head: [u16; BUCKETS],
    pub next: [u16; N],
    pub len: usize,
    pub ghost chained: { Chain first second head next len },
}

impl<const N: usize> Index<N> {
    // No pair.
    pub fn new() -> Self
        ensures lists { lists result.first result.second result.head result.next
            ≡ lists (replicate N 0) (replicate N 0) (replicate buckets 0) (replicate N 0) }
        ensures len { result.len ≡ 0 }
    {
        Index {
            first: [0; N],
            second: [0; N],
            head: [0; BUCKETS],
            next: [0; N],
            len: 0,
        }
    }

    // The last number whose pair is a, b.
    pub fn find(&self, a: usize, b: usize) -> Option<usize>
        ensures { result ≡ found (is_pair self.now.first self.now.second a b) self.now.len }
    {
        find(
            &self.first,
            &self.second,
            &self.head,
            &self.next,
            self.len,
            a,
            b,
        )
    }

    // The pair a, b becomes the next number, at the front of its chain.
    pub fn insert(&mut self, a: usize, b: usize)
        requires { (self.old.len < N) × (self.old.len < 65535) }
        ensures lists { lists self.new.first self.new.second self.new.head self.new.next
            ≡ inserted (lists self.old.first self.old.second self.old.head self.old.next) self.old.len a b }
        ensures len { self.new.len ≡ self.old.len + 1 }
    {
        let n = self.len;
        insert(
            &mut self.first,
            &mut self.second,
            &mut self.head,
            &mut self.next,
            n,
            a,
            b,
        );
        self.len = n + 1;
    }
}

// The last number below n whose pair is a, b. Along a chain, by no index.
pub fn find(
    first: &[usize],
    second: &[usize],
    head: &[u16],
    next: &[u16],
    n: usize,
    a: usize,
    b: usize,
) -> Option<usize>
    requires { Chain first.now second.now head.now next.now n }
    ensures { result ≡ found (is_pair first.now second.now a b) n }
{
    let mut at = usize::from(head[bucket(a, b)]);
    while at > 0 {
        let i = at - 1;
        if is_pair(first, second, i, a, b) {
            return Some(i);
        }
        at = usize::from(next[i]);
    }
    None
}

// The pair a, b becomes number n, at the front of its chain, in lists that need not hold chains.
pub fn insert(
    first: &mut [usize],
    second: &mut [usize],
    head: &mut [u16],
    next: &mut [u16],
    n: usize,
    a: usize,
    b: usize,
)
    requires { (length head.old ≡ buckets) × (n < length first.old) × (n < length second.old) × (n < length next.old) × (n < 65535) }
    ensures { lists first.new second.new head.new next.new
        ≡ inserted (lists first.old second.old head.old next.old) n a b }
{
    let h = bucket(a, b);
    first[n] = a;
    second[n] = b;
    next[n] = head[h];
    head[h] = (n + 1) as u16;
}

// The pair of number i is a, b.
#[tactic(auto, unfolding(crate::specs::Pairs::is_pair))]
fn is_pair(first: &[usize], second: &[usize], i: usize, a: usize, b: usize) -> bool
    requires { (i < length first.now) × (i < length second.now) }
    ensures { result ≡ is_pair first.now second.now a b i }
{
    first[i] == a && second[i] == b
}

#[tactic(auto, unfolding(crate::specs::Pairs::bucket_of))]
fn bucket(a: usize, b: usize) -> usize
    ensures value { result ≡ bucket_of a b }
    ensures low { result < buckets }
{
    (a % 65521 * 4099 + b % 65521) % BUCKETS
}
