// The laws of the numbers.
ghost use Rattle.graph_numbers.specs.Laws.{
  SitesAreEvaluations,
  ColumnsAreVersions,
  SitesReadBelow,
  SitesAreApart,
  VariationsAreApart,
  ResultsAreBookings,
  ResultsByNumbers,
  LoopsAreTheScripts,
  PrintsRunTheirLoops,
  VersionsHaveSources,
  FiltersAreTheScripts,
  FiltersHaveSites,
  ActionsHaveSites,
  ReportsCoverFilters,
};

/// It does nothing: its contract is the laws, and its proof theirs.
pub fn laws_hold()
    ensures evaluations { SitesAreEvaluations }
    ensures columns { ColumnsAreVersions }
    ensures below { SitesReadBelow }
    ensures sites_apart { SitesAreApart }
    ensures variations_apart { VariationsAreApart }
    ensures bookings { ResultsAreBookings }
    ensures results { ResultsByNumbers }
    ensures loops { LoopsAreTheScripts }
    ensures prints { PrintsRunTheirLoops }
    ensures sources { VersionsHaveSources }
    ensures filters { FiltersAreTheScripts }
    ensures filter_sites { FiltersHaveSites }
    ensures action_sites { ActionsHaveSites }
    ensures covered { ReportsCoverFilters }
{}
