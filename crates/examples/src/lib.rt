// No code: the paper's examples that take seconds to compute. They stand here and not in `paper`, so that trying a wrong definition there stays
// quick.
#![tactic(auto)]
