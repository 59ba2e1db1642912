// The laws of the subject, each the contract of a function of its own: there is nothing to run.
ghost use Rattle.firing.specs.Laws.{RunFollows, Conserves, LeastAction, FewerSettle, RunLeast, RunsAgree, MinSettles, LeastOnce, ReachLinked, SettlingExists, LeastExists, SettledOnce, IdentityOnce};
ghost use Rattle.firing.specs.SetLaws.{PlainHeights, CertificateLaw, UnionBack, LargestBack, RoundsOnce, BurningLaw};

// After a legal run the heights follow from the start by the counts.
pub fn run_follows()
    ensures { RunFollows }
{}

// Heights and what the counts drained are the start's grains.
pub fn conserves()
    ensures { Conserves }
{}

// No legal run fires a site more often than any settling list.
pub fn least_action()
    ensures { LeastAction }
{}

// What settles more grains settles fewer.
pub fn fewer_settle()
    ensures { FewerSettle }
{}

// A legal run that ends still has the least settling counts.
pub fn run_least()
    ensures { RunLeast }
{}

// Two legal runs that end still agree in counts and heights.
pub fn runs_agree()
    ensures { RunsAgree }
{}

// The smaller of two settling lists, site by site, settles.
pub fn min_settles()
    ensures { MinSettles }
{}

// There is at most one least list.
pub fn least_once()
    ensures { LeastOnce }
{}

// Where all sites reach the drain every degree is at least 1.
pub fn reach_linked()
    ensures { ReachLinked }
{}

// Where all sites reach the drain some list settles any heights.
pub fn settling_exists()
    ensures { SettlingExists }
{}

// Hence a least one, to which a legal run leads.
pub fn least_exists()
    ensures { LeastExists }
{}

// Settled heights exist, are still, and are unique.
pub fn settled_once()
    ensures { SettledOnce }
{}

// Where all sites reach the drain there is an identity, and only one.
pub fn identity_once()
    ensures { IdentityOnce }
{}

// Lower and as high, in plain numbers.
pub fn plain_heights()
    ensures { PlainHeights }
{}

// Counts whose end follows and is still are the least if and only if no nonempty set can be taken back.
pub fn certificate_law()
    ensures { CertificateLaw }
{}

// The union of two sets that can be taken back is one.
pub fn union_back()
    ensures { UnionBack }
{}

// There is a largest set that can be taken back.
pub fn largest_back()
    ensures { LargestBack }
{}

// Heights have rounds, and only one list of them.
pub fn rounds_once()
    ensures { RoundsOnce }
{}

// Every site burns if and only if no nonempty set stays.
pub fn burning_law()
    ensures { BurningLaw }
{}
