ghost use Rattle.pcf_codec.specs.SpellingLaw.{IsSpelling, IsPrefixFree};

/// What decoding has to do with the layout of a protocol control frame, as a law: octets decode to
/// a frame exactly where they spell it, and to a refusal exactly where that is their first fault.
/// No spelling is a proper prefix of another.
pub fn spelling_law()
    ensures agreement { IsSpelling }
    ensures prefixes { IsPrefixFree }
{}
