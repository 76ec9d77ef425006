//! Laws of the definitions in `specs/`. Each function has an empty body: its contract is the law.

ghost use Rattle.std.specs.Prelude.{◌≡◌, ◌≢◌, ℕ, List, []};
ghost use Rattle.clap.specs.Faults.{fault_of};
ghost use Rattle.clap.specs.Simple.{subcommand_of};
ghost use Rattle.dm_text.specs.declared.Tally.{Tally};
ghost use Rattle.dm_text.specs.Runs.{AreMatched};
ghost use Rattle.dm_text.specs.Cuts.{sum_of};
ghost use Rattle.dm_command.specs.CommandLine.{NamesOneTask, dm_app};
ghost use Rattle.dm_command.specs.Statuses.{EndsWith, largest};

/// Words in which clap finds no fault name one task: a border among them is always the text of a limit.
pub fn faultless_words_name_one_task()
    ensures { (words : List (List ℕ)) → fault_of dm_app words ≡ []
        → NamesOneTask (subcommand_of dm_app words) }
{}

/// No words at all name no task: clap finds a fault in them.
pub fn no_words_name_no_task()
    ensures { fault_of dm_app [] ≢ [] }
{}

/// The program's status after the whole is the largest of those after its parts: 1 where something was refused in
/// any of them, else 0.
pub fn largest_status_is_the_whole()
    ensures { (tallies : List Tally) (statuses : List ℕ) → AreMatched EndsWith tallies statuses
        → EndsWith (sum_of tallies) (largest statuses) }
{}
