// Laws of printed lines. Each function does nothing; its contract is the law, and its proof the law's.
ghost use Rattle.merged_text.specs.{LinesPrintTheirPasses};

/// What is printed of the lines of passes is what the passes by themselves print.
pub fn lines_print_their_passes()
    ensures { LinesPrintTheirPasses }
{}
