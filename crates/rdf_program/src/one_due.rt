// The laws that an answer is due, with one status, and which status ends an accepted run.
ghost use Rattle.std.specs.Prelude.{◌≡◌, ℕ, List, Option};
ghost use Rattle.rdf_values.specs.{Function};
ghost use Rattle.input_files.specs.Due.{Due};
ghost use Rattle.rdf_program.specs.{AcceptedRunsEnd, IsDue};
ghost use Rattle.rdf_program.specs.declared.status.Status.{Status};

/// To all words and files an answer is due, and all that are due to the same ones have one status. Their bytes may differ in
/// partial lines, which name the clusters that a loop happened to finish first.
pub fn one_status_is_due()
    ensures some { (fns : List Function) (words : List (List ℕ)) (files : List ℕ → Option (List ℕ)) → (d : Due Status) × IsDue fns words files d }
    ensures one { (fns : List Function) (words : List (List ℕ)) (files : List ℕ → Option (List ℕ)) (d e : Due Status) → IsDue fns words files d → IsDue fns words files e → d.status ≡ e.status }
{}

/// Where the words, both texts and the script are accepted, the run ends at a fault exactly where the loop of some Print has one.
pub fn accepted_runs_end()
    ensures { AcceptedRunsEnd }
{}
