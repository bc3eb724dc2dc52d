ghost use Rattle.net_file.specs.Numbering.{MeansFirstBearer};

/// What a name means, as a law: the place of its first bearer.
pub fn names_law()
    ensures { MeansFirstBearer }
{}
