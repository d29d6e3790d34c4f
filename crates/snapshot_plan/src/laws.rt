// Laws of plans. Each function does nothing; its contract is the law, and its proof the law's.
ghost use Rattle.snapshot_plan.specs.{PlansHaveHeaders};

/// The columns of a plan are those of a table: 1 to 64 of distinct names, each of numbers or of vectors.
pub fn plans_have_headers()
    ensures { PlansHaveHeaders }
{}
