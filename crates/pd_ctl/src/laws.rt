ghost use Rattle.std.specs.Prelude.{◌≡◌, ◌↔◌, ◌<◌, ◌≤◌, ◌/◌, ◌%◌, ◌++◌, ℕ, true, All, Contains, List, length, find, nat_eq, is_some, codes, decimal, Some, None, Ok, Err};
ghost use Rattle.json.specs.Print.{quoted};
ghost use Rattle.pd_types.specs.declared.region.RegionBeat.{RegionBeat};
ghost use Rattle.region_tree.specs.Ranges.{holds};
ghost use Rattle.store_table.specs.Entries.{entry_at};
ghost use Rattle.store_table.specs.Live.{state_name};
ghost use Rattle.store_table.specs.declared.entry.StoreEntry.{StoreEntry};
ghost use Rattle.op_control.specs.Life.{is_active};
ghost use Rattle.op_control.specs.Table.{active_at, state_of, IsListed, Table};
ghost use Rattle.op_control.specs.declared.operator.Operator.{Operator};
ghost use Rattle.op_control.specs.declared.operator.OpState.{OpState};
ghost use Rattle.pd_lines.specs.Numeral.{number_of};
ghost use Rattle.pd_ctl.specs.Causes.{Exceeds, Lacks, Misreads, Names, NamesNone};
ghost use Rattle.pd_ctl.specs.Commands.{command_by};
ghost use Rattle.pd_ctl.specs.Places.{rate_of};
ghost use Rattle.pd_ctl.specs.Printed.{command_words, IsWritable};
ghost use Rattle.pd_ctl.specs.Reports.{only_reads, report_of, shown};
ghost use Rattle.pd_ctl.specs.Table.{verb_of};
ghost use Rattle.pd_ctl.specs.Texts.{listed, operator_text, region_text, store_text, IsTold};
ghost use Rattle.op_control.specs.StateText.{op_state_text};
ghost use Rattle.pd_ctl.specs.declared.command.Command.{Command};
ghost use Rattle.pd_ctl.specs.declared.command.Command.TheVariants as commands;
ghost use Rattle.pd_ctl.specs.declared.fault.CtlFault.TheVariants as faults;
ghost use Rattle.pd_ctl.specs.declared.parts.Parts.{Parts};
ghost use Rattle.pd_ctl.specs.declared.verb.Verb.{Verb};

/// Words name the command of the table whose fixed words agree with the first words, of those the one
/// with the most of them.
pub fn the_most_fixed_words_decide()
    ensures named { (words : List (List ℕ)) (verb : Verb) → (verb_of words ≡ Some verb) ↔ Names words verb }
{}

/// When words are refused, and why. Each fault comes exactly where its own cause holds: no command's
/// fixed words agree; too few words stand behind them; too many; their number is right, and one of
/// them is none of its place.
pub fn each_fault_has_its_cause()
    ensures unknown { (words : List (List ℕ)) → (command_by words ≡ Err faults.Unknown) ↔ NamesNone words }
    ensures missing { (words : List (List ℕ)) → (command_by words ≡ Err faults.MissingWord) ↔ Lacks words }
    ensures extra { (words : List (List ℕ)) → (command_by words ≡ Err faults.ExtraWord) ↔ Exceeds words }
    ensures bad { (words : List (List ℕ)) → (command_by words ≡ Err faults.BadNumber) ↔ Misreads words }
{}

/// A rate is a number, and at most 1,000,000 peers a minute.
pub fn a_rate_is_at_most_a_million()
    ensures upto { (word : List ℕ) (rate : ℕ) → number_of word ≡ Some rate → rate ≤ 1000000 → rate_of word ≡ Some rate }
    ensures above { (word : List ℕ) (rate : ℕ) → number_of word ≡ Some rate → 1000000 < rate → rate_of word ≡ None }
{}

/// The words by which a command is written are read as that command.
pub fn what_is_printed_is_read()
    ensures again { (command : Command) → IsWritable command → command_by (command_words command) ≡ Ok command }
{}

/// What `operator show` tells: each operator that hasn't ended, and no other.
pub fn what_has_not_ended_is_shown()
    ensures each { (table : Table) (region : ℕ) (op : Operator) → IsListed table → active_at table region ≡ Some op → Contains (shown table) op }
    ensures ended { (table : Table) → All (λ (op : Operator). is_active op.state ≡ true) (shown table) }
{}

/// A command only reads exactly where it has a report.
pub fn what_only_reads_has_a_report()
    ensures reads { (command : Command) (parts : Parts) → only_reads command ≡ is_some (report_of command parts) }
{}

/// What each report is, byte by byte, by what the tables hold.
pub fn reports_are_written_so()
    ensures stores { (parts : Parts) → IsTold commands.Stores parts
        (codes "{\"count\":" ++ decimal (length parts.stores.now) ++ codes ",\"stores\":" ++ listed (λ (entry : StoreEntry). store_text entry.store (state_name entry parts.clock) parts.standing.now) parts.stores.now ++ codes "}") }
    ensures store { (parts : Parts) (id : ℕ) (entry : StoreEntry) → entry_at id parts.stores.now ≡ Some entry → IsTold (commands.Store id) parts (store_text entry.store (state_name entry parts.clock) parts.standing.now) }
    ensures region { (parts : Parts) (id : ℕ) (beat : RegionBeat) → find (λ (one : RegionBeat). nat_eq one.region.id id) parts.standing.now ≡ Some beat → IsTold (commands.Region id) parts (region_text beat) }
    ensures key { (parts : Parts) (key : List ℕ) (beat : RegionBeat) → find (λ (one : RegionBeat). holds one key) parts.standing.now ≡ Some beat → IsTold (commands.RegionKey key) parts (region_text beat) }
    ensures operators { (parts : Parts) → IsTold commands.OperatorShow parts (codes "{\"operators\":" ++ listed operator_text (shown parts.operators.now) ++ codes "}") }
    ensures check { (parts : Parts) (region : ℕ) (state : OpState) → state_of parts.operators.now region ≡ Some state → IsTold (commands.OperatorCheck region) parts
        (codes "{\"region\":" ++ decimal region ++ codes ",\"state\":" ++ quoted (op_state_text state) ++ codes "}") }
    ensures schedulers { (parts : Parts) → IsTold commands.SchedulerShow parts (codes "{\"schedulers\":" ++ listed quoted parts.names.now ++ codes "}") }
    ensures leader { (parts : Parts) → IsTold commands.LeaderShow parts (codes "{\"driver\":" ++ decimal parts.driver ++ codes ",\"term\":" ++ decimal parts.term ++ codes "}") }
    ensures tso { (parts : Parts) (ts : ℕ) → IsTold (commands.Tso ts) parts (codes "{\"logical\":" ++ decimal (ts % 262144) ++ codes ",\"physical\":" ++ decimal (ts / 262144) ++ codes "}") }

    // Of what isn't there.
    ensures unknown { (parts : Parts) (id : ℕ) → entry_at id parts.stores.now ≡ None → IsTold (commands.Store id) parts (codes "{\"fault\":\"unknown-store\"}") }
    ensures nowhere { (parts : Parts) (id : ℕ) → find (λ (one : RegionBeat). nat_eq one.region.id id) parts.standing.now ≡ None → IsTold (commands.Region id) parts (codes "{\"fault\":\"no-region\"}") }
    ensures unheld { (parts : Parts) (key : List ℕ) → find (λ (one : RegionBeat). holds one key) parts.standing.now ≡ None → IsTold (commands.RegionKey key) parts (codes "{\"fault\":\"no-region\"}") }
    ensures absent { (parts : Parts) (region : ℕ) → state_of parts.operators.now region ≡ None → IsTold (commands.OperatorCheck region) parts (codes "{\"fault\":\"absent\"}") }
{}
