// Laws of dropped Watch lines. Each function does nothing; its contract is the law, and its proof the law's.
ghost use Rattle.unwatched_scripts.specs.{DroppedWatchesChangeNoLoop, DroppedWatchesDropPartialLines};

/// The results that each loop fills, and the passes of results, are the same without the Watch lines.
pub fn dropped_watches_change_no_loop()
    ensures { DroppedWatchesChangeNoLoop }
{}

/// A script without its Watch lines prints what the script prints in a course in which nothing was noted.
pub fn dropped_watches_drop_partial_lines()
    ensures { DroppedWatchesDropPartialLines }
{}
