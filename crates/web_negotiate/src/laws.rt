//! What callers may rely on for rankings and preferences.
ghost use Rattle.web_negotiate.specs.ChoiceLaws.{RankingLaw};

/// What `ranked` gives is a rearrangement of the items, for Accept and Accept-Language; and the
/// preferred language is the first of the ranked ones where some quality is above zero, and `Any`
/// where none is. The preferred media type need not be the first of the ranked ones.
pub fn ranking_law()
    ensures { RankingLaw }
{}
