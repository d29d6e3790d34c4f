// Laws of unions of sets of numbers, which are rising lists.
ghost use Rattle.rdf_values.specs.clusters.Draws as law;

/// It does nothing: its contract is the laws, and its proof theirs.
pub fn unions_hold()
    ensures union_is_one { law.UnionIsOne }
    ensures none_is_neutral { law.NoneIsNeutral }
    ensures order_does_not_matter { law.OrderDoesNotMatter }
    ensures unite_from_either_side { law.UniteFromEitherSide }
    ensures drawn_lists_unite { law.DrawnListsUnite }
{}
