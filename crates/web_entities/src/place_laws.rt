//! What callers may rely on for where texts are cut, in words: the rules that decide it have modes.
ghost use Rattle.web_texts.specs.ParameterPlaces.{semicolons};
ghost use Rattle.web_entities.specs.CutPlaces.{CutsBehind, EndsUnkept, HasEvenQuotes};
ghost use Rattle.web_entities.specs.CutPlaces.{IsOutsideQuotes, IsWholeParameter};
ghost use Rattle.web_entities.specs.DispositionPlaces.{in_parameters, in_quotes};
ghost use Rattle.web_entities.specs.TagLists.{outside_quotes};

/// A comma in a list of tags cuts where an even number of double quotes stands before it.
///
/// The contract is a law, for callers to cite in proofs; a call of it has no effect.
pub fn tag_comma_law()
    ensures { CutsBehind outside_quotes HasEvenQuotes }
{}

/// A quote ends quoted text of a disposition where an even number of backslashes stands directly
/// before it.
///
/// The contract is a law, for callers to cite in proofs; a call of it has no effect.
pub fn disposition_quote_law()
    ensures { CutsBehind in_quotes EndsUnkept }
{}

/// A semicolon cuts the parameters of a media type where it stands outside of quoted text.
///
/// The contract is a law, for callers to cite in proofs; a call of it has no effect.
pub fn media_semicolon_law()
    ensures { CutsBehind semicolons IsOutsideQuotes }
{}

/// A semicolon ends a parameter of a disposition after a name and an equals sign, but not within
/// quoted text that is the value. After a name that ends in an asterisk no quote counts.
///
/// The contract is a law, for callers to cite in proofs; a call of it has no effect.
pub fn disposition_semicolon_law()
    ensures { CutsBehind in_parameters IsWholeParameter }
{}
