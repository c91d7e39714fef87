// Worked trials of the machine and of the history book.
#![tactic(auto)]

ghost use Rattle.trials.specs.Rows.{Every};
ghost use Rattle.trials.specs.Table.{table};

// Machine and book give the answers of each row of the table, and leave the registers that it lists.
pub fn worked_trials_hold()
    ensures { Every table }
{}
