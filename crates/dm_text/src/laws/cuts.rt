//! Laws of texts that are cut between records, or between message lines: answered part by part, they are answered as a
//! whole.

ghost use Rattle.std.specs.Prelude.{◌≡◌, ◌≢◌, ◌++◌, ℕ, List, flat_map, map};
ghost use Rattle.std.specs.List.{concat};
ghost use Rattle.dm_text.specs.declared.task.Task.{Task};
ghost use Rattle.dm_text.specs.declared.task.Task.TheVariants.{Table};
ghost use Rattle.dm_text.specs.declared.task.Tally.{Tally};
ghost use Rattle.dm_text.specs.Runs.{AreMatched, IsOut};
ghost use Rattle.dm_text.specs.Cuts.{AreCutBetween, AreOuts, EndsBetween, PartOut, tally_sum, sum_of};

/// Where a text ends between records, or between message lines, what is written for it, followed by what is written
/// for a further text, is what is written for both together, and their counts add up.
pub fn two_parts_are_the_whole()
    ensures { (task : Task) (first second a b : List ℕ) (s t : Tally) → task ≢ Table
        → EndsBetween task first → IsOut task first a s → IsOut task second b t
        → IsOut task (first ++ second) (a ++ b) (tally_sum s t) }
{}

/// The same holds of any number of parts, where each but the last ends between records, or between message lines.
pub fn parts_are_the_whole()
    ensures { (task : Task) (parts : List (List ℕ)) (outs : List PartOut) → task ≢ Table
        → AreCutBetween task parts → AreOuts task parts outs
        → IsOut task (concat parts) (flat_map (λ given. given.out) outs)
        (sum_of (map (λ given. given.tally) outs)) }
{}
