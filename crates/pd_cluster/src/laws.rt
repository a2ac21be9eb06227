// What the definitions of an outcome give, by themselves.
ghost use Rattle.std.specs.Prelude.{◌≡◌, ◌<◌, ◌≤◌, ◌+◌, ◌^◌, ◌↔◌, List, [], ◌∷◌, ◌++◌, ℕ, codes, flat_map, length, map, Some, None, Ok, true, IsUtf8};
ghost use Rattle.std.specs.Fmt.{decimal};
ghost use Rattle.pd_types.specs.declared.oracle.Actor.TheVariants.{Driver, Client};
ghost use Rattle.pd_script.specs.declared.act.Act.TheVariants as acts;
ghost use Rattle.pd_script.specs.declared.act.Line.{Line};
ghost use Rattle.pd_script.specs.Lawful.{IsLawfulScript};
ghost use Rattle.pd_script.specs.declared.script.Mode.TheVariants.{Run as OnThreads};
ghost use Rattle.pd_script.specs.declared.script.Script.{Script};
ghost use Rattle.pd_cluster.specs.Answers.{Answer};
ghost use Rattle.pd_cluster.specs.Command.{command_of};
ghost use Rattle.pd_cluster.specs.Number.{status_number};
ghost use Rattle.pd_cluster.specs.Replay.{answers_of};
ghost use Rattle.pd_cluster.specs.RunLines.{AreActing, AreShared};
ghost use Rattle.pd_cluster.specs.RunText.{driver_line, entry_line, journal_section, meta_line, numbered, post_line, run_text, said_line, store_line, window_line};
ghost use Rattle.pd_cluster.specs.Streams.{waiting_for};
ghost use Rattle.pd_cluster.specs.Talks.{Talk};
ghost use Rattle.pd_cluster.specs.Taking.{AreByStreams, AreInOrder, Event, events_at, kept_for, taken_by};
ghost use Rattle.pd_cluster.specs.declared.command.Command.TheVariants.{Replay, Run, Tso};
ghost use Rattle.pd_cluster.specs.declared.said.Said.TheVariants.{ByOracle, Popped};
ghost use Rattle.pd_cluster.specs.declared.status.Status.TheVariants.{Done, Usage, Refused, ReadFault, WriteFault, NoMemory, Limit};
ghost use Rattle.meta_store.specs.declared.record.MetaCall.TheVariants as calls;
ghost use Rattle.meta_store.specs.declared.record.MetaEntry.{MetaEntry};
ghost use Rattle.meta_store.specs.declared.record.MetaVerdict.TheVariants as verdicts;
ghost use Rattle.pd_run.specs.Runs.{Journal};
ghost use Rattle.pd_run.specs.declared.answer.DriverSays.TheVariants as driver_says;
ghost use Rattle.pd_run.specs.declared.answer.StoreSays.TheVariants as store_says;
ghost use Rattle.pd_state.specs.declared.entry.Entry.{Entry};
ghost use Rattle.pd_state.specs.declared.reply.Reply.TheVariants as told;
ghost use Rattle.tso_core.specs.declared.reply.Due.TheVariants as dues;
ghost use Rattle.tso_core.specs.declared.reply.Reply.TheVariants as replies;
ghost use Rattle.tso_client.specs.declared.entry.PostWhat.TheVariants as posted;
ghost use Rattle.tso_model.specs.Moves.{numbers_from};
ghost use Rattle.tso_driver.specs.declared.reply.LeadReply.TheVariants as leads;
ghost use Rattle.tso_driver.specs.declared.said.DriverSaid.TheVariants.{Led};
ghost use Rattle.tso_outcome.specs.declared.said.ClientSaid.TheVariants.{Took};

/// The exit status of each end.
pub fn the_exit_statuses()
    ensures done { status_number Done ≡ 0 }
    ensures usage { status_number Usage ≡ 1 }
    ensures refused { status_number Refused ≡ 2 }
    ensures unread { status_number ReadFault ≡ 3 }
    ensures unwritten { status_number WriteFault ≡ 4 }
    ensures memory { status_number NoMemory ≡ 5 }
    ensures limit { status_number Limit ≡ 6 }
{}

/// The words of a command line: two commands of one word, and one of two. All else is no command.
pub fn the_commands()
    ensures replay { command_of (codes "replay" ∷ []) ≡ Some Replay }
    ensures run { command_of (codes "run" ∷ []) ≡ Some Run }
    ensures tso { (n : ℕ) → n < 2 ^ 64 → command_of (codes "tso" ∷ decimal n ∷ []) ≡ Some (Tso n) }
    ensures none { command_of [] ≡ None }
    ensures other { command_of (codes "gen" ∷ []) ≡ None }
    ensures alone { command_of (codes "tso" ∷ []) ≡ None }
    ensures more { command_of (codes "replay" ∷ codes "run" ∷ []) ≡ None }
{}

/// A lead, a draw of three timestamps, a second driver, a note that outdates the client that hears it,
/// and the first driver's tick, by which it learns that its term is over.
pub fn an_outdated_driver_is_answered()
    ensures answers { map (λ (answer : Answer). answer.said) (answers_of [] (record {
      drivers = 2;
      clients = 2;
      lines =
          record { number = 1; actor = Some (Driver 1); act = acts.Lead 1 1000 }
          ∷ record { number = 2; actor = Some (Client 1); act = acts.Take 1 1 3 }
          ∷ record { number = 3; actor = Some (Driver 2); act = acts.Lead 2 500 }
          ∷ record { number = 4; actor = Some (Client 2); act = acts.Take 2 2 1 }
          ∷ record { number = 5; actor = Some (Client 1); act = acts.Take 1 1 2 }
          ∷ record { number = 6; actor = Some (Client 1); act = acts.Hear 1 }
          ∷ record { number = 7; actor = Some (Client 2); act = acts.Tell 2 1 }
          ∷ record { number = 8; actor = Some (Client 1); act = acts.Hear 1 }
          ∷ record { number = 9; actor = Some (Client 1); act = acts.Take 1 1 1 }
          ∷ record { number = 10; actor = Some (Driver 1); act = acts.Tick 1 3999 }
          ∷ record { number = 11; actor = Some (Client 2); act = acts.Take 2 1 1 } ∷ [];
    }))
        ≡ ByOracle (replies.Won 1 1000 4000)
        ∷ ByOracle (replies.Got (record { term = 1; driver = 1; last = 262144003; count = 3 }))
        ∷ ByOracle (replies.Won 2 4001 7001)
        ∷ ByOracle (replies.Got (record { term = 2; driver = 2; last = 1048838145; count = 1 }))
        ∷ ByOracle (replies.Got (record { term = 1; driver = 1; last = 262144005; count = 2 }))
        ∷ ByOracle replies.Nothing
        ∷ ByOracle replies.Told
        ∷ ByOracle (replies.Heard (record { term = 2; last = 1048838145 }))
        ∷ ByOracle (replies.Stale 2)
        ∷ ByOracle (replies.Lost (record { saved = 7001; term = 2 }))
        ∷ ByOracle replies.NotLeader ∷ [] }
{}

/// Each single step is the step that its line names: a race of two drivers, and a draw.
pub fn single_steps_are_answered()
    ensures answers { map (λ (answer : Answer). answer.said) (answers_of [] (record {
      drivers = 2;
      clients = 1;
      lines =
          record { number = 1; actor = Some (Driver 1); act = acts.Read 1 1000 }
          ∷ record { number = 2; actor = Some (Driver 2); act = acts.Read 2 2000 }
          ∷ record { number = 3; actor = Some (Driver 2); act = acts.Campaign 2 }
          ∷ record { number = 4; actor = Some (Driver 1); act = acts.Campaign 1 }
          ∷ record { number = 5; actor = Some (Driver 1); act = acts.Read 1 1000 }
          ∷ record { number = 6; actor = Some (Driver 1); act = acts.Campaign 1 }
          ∷ record { number = 7; actor = Some (Driver 2); act = acts.Save 2 }
          ∷ record { number = 8; actor = Some (Driver 2); act = acts.Publish 2 }
          ∷ record { number = 9; actor = Some (Driver 1); act = acts.Save 1 }
          ∷ record { number = 10; actor = Some (Driver 1); act = acts.Raise 1 }
          ∷ record { number = 11; actor = Some (Driver 1); act = acts.Publish 1 }
          ∷ record { number = 12; actor = Some (Driver 1); act = acts.Raise 1 }
          ∷ record { number = 13; actor = Some (Client 1); act = acts.Look 1 1 }
          ∷ record { number = 14; actor = Some (Client 1); act = acts.Arm 1 100 }
          ∷ record { number = 15; actor = Some (Client 1); act = acts.Draw 1 } ∷ [];
    }))
        ≡ ByOracle (replies.CellRead (record { saved = 0; term = 0 }))
        ∷ ByOracle (replies.CellRead (record { saved = 0; term = 0 }))
        ∷ ByOracle (replies.Claimed 1)
        ∷ ByOracle (replies.Beaten (record { saved = 0; term = 1 }))
        ∷ ByOracle (replies.CellRead (record { saved = 0; term = 1 }))
        ∷ ByOracle (replies.Claimed 2)
        ∷ ByOracle (replies.Lost (record { saved = 0; term = 2 }))
        ∷ ByOracle (replies.Published 0)
        ∷ ByOracle (replies.Saved 4000)
        ∷ ByOracle (replies.Raised 262144000)
        ∷ ByOracle (replies.Published 4000)
        ∷ ByOracle (replies.OutOfTurn dues.Rest)
        ∷ ByOracle (replies.Looked 2 4000)
        ∷ ByOracle (replies.Armed 262144000)
        ∷ ByOracle (replies.Got (record { term = 2; driver = 1; last = 262144100; count = 100 })) ∷ [] }
{}

/// The text of a run by two drivers, a client and a store: the windows that were saved, the answers of
/// each driver that has some behind its head, then each client's, then each store's, then the journal of
/// each driver's cluster, also where it has no entries, that of the metadata, and that of the post.
pub fn the_sections_of_a_run()
    ensures sections { (entry : Entry) → (call : MetaEntry) → run_text (record {
      oracle = record {
        setup = record { drivers = 2; clients = 1; cell = record { saved = 0; term = 0 } };
        drivers = [];
        clients = record { number = 1; answers = record { line = 2; said = Took 1 3 (Ok (record { term = 1; driver = 1; last = 262144003; count = 3 })) } ∷ [] } ∷ [];
        post = record { client = 1; line = 3; what = posted.Told 1 (record { term = 1; last = 262144003 }) }
            ∷ record { client = 1; line = 4; what = posted.Heard (record { term = 1; last = 262144003 }) } ∷ [];
        windows = record { term = 0; driver = 0; lo = 0; hi = 0 } ∷ record { term = 1; driver = 1; lo = 1000; hi = 4000 } ∷ [];
        batches = record { term = 1; driver = 1; last = 262144003; count = 3 } ∷ [];
      };
      drivers =
          record { number = 1; answers = record { line = 1; says = driver_says.Oracle (Led 1000 (leads.Won 1 1000 4000)) } ∷ [] }
          ∷ record { number = 2; answers = [] } ∷ [];
      stores = record { store = 7; answers = record { line = 5; driver = 1; says = store_says.Popped None } ∷ [] } ∷ [];
      journals = record { driver = 1; entries = entry ∷ [] } ∷ record { driver = 2; entries = [] } ∷ [];
      metadata = call ∷ [];
    })
        ≡ window_line (record { term = 1; driver = 1; lo = 1000; hi = 4000 })
        ++ (codes "driver " ++ decimal 1 ++ codes "\n" ++ said_line 1 (ByOracle (replies.Won 1 1000 4000)))
        ++ (codes "client " ++ decimal 1 ++ codes "\n" ++ said_line 2 (ByOracle (replies.Got (record { term = 1; driver = 1; last = 262144003; count = 3 }))))
        ++ (codes "store " ++ decimal 7 ++ codes "\n" ++ said_line 5 (Popped None))
        ++ (codes "journal " ++ decimal 1 ++ codes "\n" ++ entry_line 1 entry ++ (codes "journal " ++ decimal 2 ++ codes "\n"))
        ++ (codes "meta\n" ++ meta_line 1 call)
        ++ (codes "post\n" ++ (post_line 1 (record { client = 1; line = 3; what = posted.Told 1 (record { term = 1; last = 262144003 }) })
        ++ post_line 2 (record { client = 1; line = 4; what = posted.Heard (record { term = 1; last = 262144003 }) }))) }
{}

/// Each journal of a run stands behind the number of its driver, where they are those of the drivers from
/// one on.
pub fn each_journal_stands_behind_its_driver()
    ensures heads { (first : ℕ) → (journals : List Journal) → map (λ (journal : Journal). journal.driver) journals ≡ numbers_from first (length journals)
        → numbered journal_section first journals ≡ flat_map (λ (journal : Journal). journal_section journal.driver journal) journals }
{}

/// The lines of a run's text: a window; what a driver's cluster replied, also where its term was given up
/// by that, and that nothing waited for a store; calls to the metadata, and entries of the post, by their numbers in
/// the journals.
pub fn the_lines_of_a_run()
    ensures window { window_line (record { term = 1; driver = 2; lo = 1000; hi = 4000 })
        ≡ codes "window " ++ decimal 1 ++ codes " " ++ decimal 2 ++ codes " " ++ decimal 1000 ++ codes " " ++ decimal 4000 ++ codes "\n" }
    ensures replied { driver_line (record { line = 3; says = driver_says.Cluster told.RulePut }) ≡ decimal 3 ++ codes " rule set\n" }
    ensures resigned { driver_line (record { line = 4; says = driver_says.Resigned told.Retired true }) ≡ decimal 4 ++ codes " retired\n" }
    ensures empty { store_line (record { line = 8; driver = 1; says = store_says.Popped None }) ≡ decimal 8 ++ codes " empty\n" }
    ensures lead { meta_line 1 (record { driver = 2; call = calls.Lead 3; verdict = verdicts.Accepted 0 }) ≡ decimal 1 ++ codes " driver " ++ decimal 2 ++ codes " lead " ++ decimal 3 ++ codes " accepted " ++ decimal 0 ++ codes "\n" }
    ensures put { (key bytes : List ℕ) → IsUtf8 key → meta_line 2 (record { driver = 1; call = calls.Put 3 key 4 bytes; verdict = verdicts.OldTerm 5 })
        ≡ decimal 2 ++ codes " driver " ++ decimal 1 ++ codes " put " ++ decimal 3 ++ codes " " ++ key ++ codes " old-term " ++ decimal 5 ++ codes "\n" }
    ensures delete { (key : List ℕ) → IsUtf8 key → meta_line 3 (record { driver = 1; call = calls.Delete 5 key 4; verdict = verdicts.Conflict 6 })
        ≡ decimal 3 ++ codes " driver " ++ decimal 1 ++ codes " delete " ++ decimal 5 ++ codes " " ++ key ++ codes " conflict " ++ decimal 6 ++ codes "\n" }
    ensures limit { (key : List ℕ) → IsUtf8 key → meta_line 4 (record { driver = 1; call = calls.Delete 5 key 4; verdict = verdicts.Limit })
        ≡ decimal 4 ++ codes " driver " ++ decimal 1 ++ codes " delete " ++ decimal 5 ++ codes " " ++ key ++ codes " meta-limit\n" }
    ensures told { post_line 1 (record { client = 7; line = 3; what = posted.Told 2 (record { term = 5; last = 9 }) })
        ≡ decimal 1 ++ codes " line " ++ decimal 3 ++ codes " told\n" }
    ensures heard { post_line 2 (record { client = 7; line = 4; what = posted.Heard (record { term = 5; last = 9 }) })
        ≡ decimal 2 ++ codes " line " ++ decimal 4 ++ codes " heard " ++ decimal 5 ++ codes " " ++ decimal 9 ++ codes "\n" }
    ensures nothing { post_line 3 (record { client = 7; line = 6; what = posted.Nothing })
        ≡ decimal 3 ++ codes " line " ++ decimal 6 ++ codes " nothing\n" }
{}

/// In which order stores take what a driver's cluster sends, for every list of sends and answers: the
/// streams answer what is due and nothing else, and at most 64 messages wait. So do the answers of a
/// replay, at each of its drivers, whatever its benches say.
pub fn stores_take_the_oldest_message()
    ensures order { (lines : List Line) → (events : List Event) → AreByStreams (waiting_for lines) events ↔ AreInOrder lines events }
    ensures most { (lines : List Line) → (store : ℕ) → (events : List Event) → length (kept_for lines store events) ≤ length (taken_by store events) + 64 }
    ensures replayed { (talks : List Talk) → (script : Script) → (driver : ℕ) → driver ≤ script.drivers → AreInOrder script.lines (events_at talks script driver) }
{}

/// Each line of a script that threads serve is exactly one actor's, a `cell` line nobody's: the lines that
/// are given to a driver, a client or a store are, in their order, those of the script in which it acts.
pub fn each_line_is_one_actors()
    ensures shared { (script : Script) → (stores : List ℕ) → IsLawfulScript OnThreads script → AreActing script.lines stores → AreShared script stores }
{}
