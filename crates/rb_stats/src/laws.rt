//! Laws of statistics.
ghost use Rattle.rb_stats.specs.Statistics.{Note, Count};
ghost use Rattle.rb_stats.specs.Laws.{GreatestStays, ListsAreShort, KeysAreFew, StatisticsAreShort};

/// Counts stop at the greatest int, lists at 32 items, and so all statistics at 7,116 bytes.
pub fn statistics_laws()
    ensures greatest_of_notes { GreatestStays Note }
    ensures greatest_of_counts { GreatestStays Count }
    ensures lists_are_short { ListsAreShort }
    ensures keys_are_few { KeysAreFew }
    ensures statistics_are_short { StatisticsAreShort }
{}
