// The laws of NZB texts.
ghost use Rattle.nzb_index.specs.Reasons.{EndedAtEnd, IsOneOf, ReasonsAreTold};
ghost use Rattle.nzb_index.specs.declared.error.NzbReason.TheVariants.{BadId, BadNumber, BadReference, DoubleAttribute, NoNumber, Subset, Unexpected, WrongTag};
ghost use Rattle.nzb_index.specs.Refusal.{NzbReadsBack, IndexIsValid, KnownFirst, OneAnswer};

/// Each text has exactly one of an index, a refusal and a limit.
pub fn one_answer()
    ensures { OneAnswer }
{}

/// A refusal is by the text's end, or is known first at exactly one front of the text, with which no text with an index
/// begins.
pub fn known_first()
    ensures { KnownFirst }
{}

/// An index that a text has is valid.
pub fn index_is_valid()
    ensures { IndexIsValid }
{}

/// The canonical text of a valid index has that index, if it is no longer than a text may be.
pub fn nzb_reads_back()
    ensures { NzbReadsBack }
{}

/// A text that is refused for one of these reasons has it, by the table of them, at the place that is told; and one that
/// is refused by its end is told at its length.
pub fn reasons_are_had()
    ensures ended { EndedAtEnd }
    ensures unexpected { IsOneOf Unexpected }
    ensures bad_reference { IsOneOf BadReference }
    ensures wrong_tag { IsOneOf WrongTag }
    ensures double_attribute { IsOneOf DoubleAttribute }
    ensures bad_number { IsOneOf BadNumber }
    ensures no_number { IsOneOf NoNumber }
    ensures bad_id { IsOneOf BadId }
    ensures subset { IsOneOf Subset }
{}

/// A text that has a reason of the table at a place is refused for it there, if it passes no limit before; only what cannot
/// become a reference, and runs up to the text's end, is refused for that end.
pub fn reasons_are_told()
    ensures { ReasonsAreTold }
{}
