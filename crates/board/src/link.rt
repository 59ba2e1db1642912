// Links of two sites, or of a site and the drain: the records of a link list and the entries of a cut.
ghost use Rattle.std.specs.Prelude.{◌≡◌, ℕ, ◌≤◌};
ghost use Rattle.board.specs.Links.{between, to_drain, far, alike, weight, Fitting};

// Where links of a site lead: to another site, or to the drain.
#[derive(Clone, Copy, PartialEq, Eq, Debug, Default)]
pub enum End {
    Site(usize),
    #[default]
    Drain,
}

// A number of links between a site and an end.
#[derive(Clone, Copy, Default)]
pub struct Link {
    pub site: usize,
    pub other: End,
    pub count: u32,
}

// The links of `l` between `u` and `v`.
pub fn links_of(l: Link, u: usize, v: usize) -> u32
    ensures { result ≡ between l u v }
{
    match l.other {
        End::Site(y) if l.site == u && y == v || l.site == v && y == u => l.count,
        _ => 0,
    }
}

// The links of `l` between `v` and the drain.
pub fn drain_of(l: Link, v: usize) -> u32
    ensures { result ≡ to_drain l v }
{
    match l.other {
        End::Drain if l.site == v => l.count,
        _ => 0,
    }
}

// The site at the other end of `l` from `v`.
pub fn far_end(l: Link, v: usize) -> Option<usize>
    ensures { result ≡ far l.site l.other v }
{
    match l.other {
        End::Site(y) if l.site == v => Some(y),
        End::Site(y) if y == v => Some(l.site),
        _ => None,
    }
}

// Whether `l` is of the ends `a` and `b`, either first. (No derived equality: the order of the ends does not count, nor does
// the number.)
pub fn is_alike(l: Link, a: usize, b: End) -> bool
    ensures { result ≡ alike l.site l.other a b }
{
    match (l.other, b) {
        (End::Site(y), End::Site(z)) => l.site == a && y == z || l.site == z && y == a,
        (End::Drain, End::Drain) => l.site == a,
        _ => false,
    }
}

// The first of the ends `a` and `b` that is not on a board of `n` sites, or `a` named again. (Two arguments, here and in calls
// that name a record: a struct of both would hold no fact.)
pub fn misfit(n: usize, a: usize, b: End) -> Option<usize>
    ensures { Fitting n a b result }
{
    match b {
        _ if a >= n => Some(a),
        End::Site(y) if y >= n || y == a => Some(y),
        _ => None,
    }
}

// What `k` links to `b` add to the total: links of two sites count from each.
pub(crate) fn weight_of(b: End, k: u32) -> u32
    requires { k ≤ 500000 }
    ensures { result ≡ weight b k }
{
    match b {
        End::Site(_) => 2 * k,
        End::Drain => k,
    }
}
