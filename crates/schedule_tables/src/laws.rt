ghost use Rattle.schedule_tables.specs.{Entries.{EntriesAreInRange, EntryIsOne}, Margins.RulesGiveMargins};

use net_plan::rules_give_trees;

/// What the numbers of an accepted network leave room for.
pub fn margins_law()
    ensures { RulesGiveMargins }
{
    rules_give_trees();
}

/// A row has one entry, whose numbers lie in their ranges.
pub fn entries_law()
    ensures range { EntriesAreInRange }
    ensures one { EntryIsOne }
{}
