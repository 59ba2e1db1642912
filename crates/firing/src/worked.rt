// Worked results and checks on the definitions, each list the contract of one function.
ghost use Rattle.firing.specs.Worked.{Worked};
ghost use Rattle.firing.specs.Checks.{Checks};

// Small grids whose figures are known.
pub fn results()
    ensures { Worked }
{}

// An example for each definition that would fail if it said something else.
pub fn examples_hold()
    ensures { Checks }
{}
