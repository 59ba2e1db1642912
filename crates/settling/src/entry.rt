// What a waiting list of sites holds: entries that name a site.
ghost use Rattle.std.specs.Prelude.{◌≡◌, ℕ};

pub trait Entry: Copy {
    ghost site: { Self → ℕ };

    // The entry of a site found by a search. (No `From`: a law ties it to the site, and a site does not say a round.)
    fn of_site(v: usize) -> Self
        ensures { site result ≡ v };

    // Its site.
    fn site_of(self) -> usize
        ensures { result ≡ site self };
}

// A site number is its own entry.
impl Entry for usize {
    ghost site = { λ v. v };

    fn of_site(v: usize) -> usize {
        v
    }

    fn site_of(self) -> usize {
        self
    }
}
