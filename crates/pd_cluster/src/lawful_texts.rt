// Scripts, and what `run` prints of them where their lines are answered in their order.

/// A script, and what is printed of it.
pub type Played = (&'static str, &'static str);

/// A driver's term is moved, and given up.
pub const TERM: Played = (
    "\
lead 1 1000
tick 1 1001
resign 1
tick 1 1002
",
    "\
window 1 1 1000 4000
driver 1
1 won term 1 lo 1000 hi 4000
2 idle
3 resigned
4 not-leading
journal 1
1 line 1 term 1 stores 0 rules 1
2 line 3 retired
meta
1 driver 1 lead 1 accepted 0
post
",
);

/// A store and rules are written, and a second driver is handed them.
pub const WRITES: Played = (
    "\
lead 1 1000
hello 1 1 1000 a
rule 1 1000 {\"group_id\":\"pd\",\"id\":\"x\",\"role\":\"voter\",\"count\":1}
unrule 1 1000 pd default
ctl 1 1000 store delete 1
unrule 1 1000 pd x
lead 2 500
rule 1 1001 {\"group_id\":\"pd\",\"id\":\"y\",\"role\":\"voter\",\"count\":1}
alive 1 2 500
alive 2 2 500
ctl 2 500 store
ctl 2 500 store limit 2 5 add-peer
",
    "\
window 1 1 1000 4000
window 2 2 4001 7001
driver 1
1 won term 1 lo 1000 hi 4000
3 rule set
4 rule removed
5 {\"done\":\"Offline\"}
6 last-rule
8 old-term 2
driver 2
7 won term 2 lo 4001 hi 7001
11 {\"count\":1,\"stores\":[{\"address\":\"a\",\"id\":1,\"labels\":[],\"leader_count\":0,\"region_count\":0,\"state_name\":\"Offline\"}]}
12 {\"fault\":\"unknown-store\"}
store 1
2 store put
9 alive
store 2
10 unknown-store
journal 1
1 line 1 term 1 stores 0 rules 1
2 line 2 store put
3 line 3 rule set
4 line 4 rule removed
5 line 5 {\"done\":\"Offline\"}
6 line 6 last-rule
7 line 8 old-term 2
journal 2
1 line 7 term 2 stores 1 rules 1
2 line 9 alive
3 line 10 unknown-store
4 line 11 {\"count\":1,\"stores\":[{\"address\":\"a\",\"id\":1,\"labels\":[],\"leader_count\":0,\"region_count\":0,\"state_name\":\"Offline\"}]}
5 line 12 {\"fault\":\"unknown-store\"}
meta
1 driver 1 lead 1 accepted 0
2 driver 1 put 1 store/00000000000000000001 accepted 1
3 driver 1 put 1 rule/7064/64656661756c74 accepted 2
4 driver 1 put 1 rule/7064/78 accepted 3
5 driver 1 delete 1 rule/7064/64656661756c74 accepted 4
6 driver 1 put 1 store/00000000000000000001 accepted 5
7 driver 2 lead 2 accepted 5
8 driver 1 put 1 rule/7064/79 old-term 2
post
",
);

/// The turn goes round the schedulers, of which one is removed.
pub const TURNS: Played = (
    "\
lead 1 1000
schedule 1 1000
schedule 1 1000
ctl 1 1000 scheduler remove balance-leader-scheduler
schedule 1 1000
ctl 1 1000 scheduler show
ctl 1 1000 scheduler remove balance-leader-scheduler
",
    "\
window 1 1 1000 4000
driver 1
1 won term 1 lo 1000 hi 4000
2 scheduler balance-leader-scheduler none
3 scheduler balance-region-scheduler none
4 {\"done\":\"Removed\"}
5 scheduler balance-region-scheduler none
6 {\"schedulers\":[\"balance-region-scheduler\"]}
7 {\"fault\":\"absent\"}
journal 1
1 line 1 term 1 stores 0 rules 1
2 line 2 scheduler balance-leader-scheduler none
3 line 3 scheduler balance-region-scheduler none
4 line 4 {\"done\":\"Removed\"}
5 line 5 scheduler balance-region-scheduler none
6 line 6 {\"schedulers\":[\"balance-region-scheduler\"]}
7 line 7 {\"fault\":\"absent\"}
meta
1 driver 1 lead 1 accepted 0
post
",
);

/// Heartbeats are stale, overlap and are bad.
pub const REGIONS: Played = (
    "\
lead 1 1000
hello 1 1 1000 a
beat 1 1 1000 7 - 80 1 2 11 11:1:v
beat 1 1 1000 8 - - 1 1 21 21:1:v
beat 1 1 1000 8 - - 1 3 21 21:1:v
check 1 1000 7
ctl 1 1000 region 8
beat 1 1 1000 9 - - 1 4 32 31:1:v
",
    "\
window 1 1 1000 4000
driver 1
1 won term 1 lo 1000 hi 4000
6 no-region
7 {\"conf_ver\":1,\"end_key\":\"\",\"id\":8,\"leader\":21,\"peers\":[{\"id\":21,\"role\":\"Voter\",\"store_id\":1}],\"start_key\":\"\",\"version\":3}
store 1
2 store put
3 accepted removed 0 none
4 stale conf 1 version 2
5 accepted removed 1 none
8 bad 5
journal 1
1 line 1 term 1 stores 0 rules 1
2 line 2 store put
3 line 3 accepted removed 0 none
4 line 4 stale conf 1 version 2
5 line 5 accepted removed 1 none
6 line 6 no-region
7 line 7 {\"conf_ver\":1,\"end_key\":\"\",\"id\":8,\"leader\":21,\"peers\":[{\"id\":21,\"role\":\"Voter\",\"store_id\":1}],\"start_key\":\"\",\"version\":3}
8 line 8 bad 5
meta
1 driver 1 lead 1 accepted 0
2 driver 1 put 1 store/00000000000000000001 accepted 1
post
",
);

/// A region's operator is refused, replaced and canceled, and another one is held.
pub const OPERATORS: Played = (
    "\
lead 1 1000
hello 1 1 1000 a
hello 2 1 1000 b
beat 1 1 1000 7 - - 1 1 11 11:1:v
check 1 1000 7
check 1 1000 7
ctl 1 1000 operator add add-peer 7 2
beat 1 1 1001 7 - - 1 1 11 11:1:v
ctl 1 1001 operator remove 7
ctl 1 1001 operator remove 7
beat 1 1 1002 7 - - 1 1 11 11:1:v
ctl 1 1002 operator add add-peer 7 1
beat 1 1 30000 7 - - 1 1 11 11:1:v
ctl 1 30000 operator add add-peer 7 2
pop 2 1
",
    "\
window 1 1 1000 4000
driver 1
1 won term 1 lo 1000 hi 4000
5 plan add-voter from 2 to 1 send add-learner peer 1000001 store 2
6 plan add-voter from 2 to 1 busy 2
7 {\"added\":2,\"now\":\"send add-learner peer 1000002 store 2\"}
9 {\"done\":\"Canceled\"}
10 {\"fault\":\"absent\"}
12 {\"fault\":\"has-peer\"}
14 {\"added\":2,\"now\":\"held before live 0 of 1\"}
store 1
2 store put
4 accepted removed 0 none
8 accepted removed 0 send add-learner peer 1000002 store 2
11 accepted removed 0 none
13 accepted removed 0 none
store 2
3 store put
15 empty
journal 1
1 line 1 term 1 stores 0 rules 1
2 line 2 store put
3 line 3 store put
4 line 4 accepted removed 0 none
5 line 5 plan add-voter from 2 to 1 send add-learner peer 1000001 store 2
6 line 6 plan add-voter from 2 to 1 busy 2
7 line 7 {\"added\":2,\"now\":\"send add-learner peer 1000002 store 2\"}
8 line 8 accepted removed 0 send add-learner peer 1000002 store 2
9 line 9 {\"done\":\"Canceled\"}
10 line 10 {\"fault\":\"absent\"}
11 line 11 accepted removed 0 none
12 line 12 {\"fault\":\"has-peer\"}
13 line 13 accepted removed 0 none
14 line 14 {\"added\":2,\"now\":\"held before live 0 of 1\"}
meta
1 driver 1 lead 1 accepted 0
2 driver 1 put 1 store/00000000000000000001 accepted 1
3 driver 1 put 1 store/00000000000000000002 accepted 2
4 driver 1 put 1 id accepted 3
post
",
);

/// A patrol sends two steps, which it doesn't tell, and buries a store.
pub const PATROL: Played = (
    "\
lead 1 1000
hello 1 1 1000 a
hello 2 1 1000 b
hello 3 1 1000 c
ctl 1 1000 store delete 3
beat 1 1 1000 7 - 80 1 1 11 11:1:v
beat 1 1 1000 8 80 - 1 1 21 21:1:v
patrol 1 1000 2
pop 1 1
pop 1 1
pop 1 1
alive 3 1 1000
hello 3 1 1000 c
",
    "\
window 1 1 1000 4000
driver 1
1 won term 1 lo 1000 hi 4000
5 {\"done\":\"Offline\"}
8 patrol regions 2 ok 0 split 0 plan 2 no-plan 0 added 2 buried 1
store 1
2 store put
6 accepted removed 0 none
7 accepted removed 0 none
9 popped term 1 entry 8 region 7 add-learner peer 1000001 store 2
10 popped term 1 entry 8 region 8 add-learner peer 1000002 store 2
11 empty
store 2
3 store put
store 3
4 store put
12 tombstone
13 tombstone
journal 1
1 line 1 term 1 stores 0 rules 1
2 line 2 store put
3 line 3 store put
4 line 4 store put
5 line 5 {\"done\":\"Offline\"}
6 line 6 accepted removed 0 none
7 line 7 accepted removed 0 none
8 line 8 patrol regions 2 ok 0 split 0 plan 2 no-plan 0 added 2 buried 1
9 line 12 tombstone
10 line 13 tombstone
meta
1 driver 1 lead 1 accepted 0
2 driver 1 put 1 store/00000000000000000001 accepted 1
3 driver 1 put 1 store/00000000000000000002 accepted 2
4 driver 1 put 1 store/00000000000000000003 accepted 3
5 driver 1 put 1 store/00000000000000000003 accepted 4
6 driver 1 put 1 id accepted 5
7 driver 1 put 1 store/00000000000000000003 accepted 6
post
",
);
