// The worked results: small boards whose figures are known, as one list under one fact.
#![tactic(auto)]

ghost use Rattle.worked.specs.Results.{Results};

pub fn all_results()
    ensures { Results }
{}
