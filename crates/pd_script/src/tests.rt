// Lines with the reason for which they are at fault, 0 where they are events.
use crate::{Act, Limited, Line, Mode, Reason, ScriptRefusal, read_script};
use pd_types::{Actor, Request};
use std::alloc::Global;
use std::process::Abort;
use std::test::Fail;

const REPLAY: &str = "\
0 cell 0 0
0 cell 35184372088831 262143
7 cell 35184372088832 0
7 cell 0 262144
6 cell x 0
4 cell 1
5 cell 1 2 3
0 lead 1 0
0 lead 1 70368744177663
7 lead 1 70368744177664
7 lead 0 1
6 lead 01 1
6 lead +1 1
6 lead 1 1.0
6 lead 1 18446744073709551616
7 lead 0 x
6 lead x 70368744177664
4 lead
4 lead 1
5 lead 1 2 3
5 lead x y z
4 lead x
0 tick 7 1
7 tick 0 1
6 tick 1 -1
4 tick 1
5 tick 1 1 1
0 resign 1
7 resign 0
4 resign
5 resign 1 1
0 take 64 7 262143
0 take 1 1 1
7 take 1 1 0
7 take 1 1 262144
7 take 0 1 1
7 take 1 0 1
6 take 1 1 0x1
4 take 1 1
5 take 1 1 1 1
0 tell 1 1
0 tell 64 1
7 tell 1 0
6 tell a 1
4 tell 1
5 tell 1 2 3
0 hear 1
7 hear 0
4 hear
5 hear 1 1
0 read 1 0
0 read 1 70368744177663
7 read 1 70368744177664
4 read 1
0 campaign 1
7 campaign 0
5 campaign 1 1
0 save 1
6 save one
4 save
0 raise 1
5 raise 1 1
0 publish 7
7 publish 0
0 probe 1 5
6 probe 1 5s
4 probe 1
0 look 1 1
7 look 1 0
5 look 1 1 1
0 arm 1 262143
7 arm 1 262144
7 arm 1 0
4 arm 1
0 draw 1
5 draw 1 2
0 hello 1 1 1 a
0 hello 1 1 1 a zone=z1
0 hello 9223372036854775807 7 70368744177663 A-Z.a_z:0/9- a=1,b=2,c=3,d=4
0 hello 1 1 1 aaaaaaaaaaaaaaaaaaaaaaaaaaaaaaaaaaaaaaaaaaaaaaaaaaaaaaaaaaaaaaaa
8 hello 1 1 1 aaaaaaaaaaaaaaaaaaaaaaaaaaaaaaaaaaaaaaaaaaaaaaaaaaaaaaaaaaaaaaaaa
8 hello 1 1 1 a+b
7 hello 0 1 1 a
7 hello 9223372036854775808 1 1 a
7 hello 1 0 1 a
7 hello 1 1 70368744177664 a
6 hello x 1 1 a+b
6 hello 1 1 x a+b
8 hello 1 1 1 a zone
8 hello 1 1 1 a zone=
8 hello 1 1 1 a =z1
8 hello 1 1 1 a zone=z1,
8 hello 1 1 1 a zone=z1=z2
8 hello 1 1 1 a zone=z1,zone=z2
8 hello 1 1 1 a a=1,b=2,c=3,d=4,e=5
0 hello 1 1 1 a kkkkkkkkkkkkkkkkkkkkkkkkkkkkkkkk=vvvvvvvvvvvvvvvvvvvvvvvvvvvvvvvv
8 hello 1 1 1 a kkkkkkkkkkkkkkkkkkkkkkkkkkkkkkkkk=v
8 hello 1 1 1 a k=vvvvvvvvvvvvvvvvvvvvvvvvvvvvvvvvv
4 hello
4 hello x x x
5 hello 1 1 1 a zone=z1 x
5 hello x x x x x x
0 alive 1 1 0
4 alive 1 1
5 alive 1 1 0 0
6 alive 1 1 a
7 alive 0 1 x
0 beat 1 1 1000 7 - - 1 1 11 11:1:v,12:2:v,13:3:v
0 beat 1 1 1000 7 - 40 1 6 11 -
0 beat 1 1 1000 7 7480 74fF 0 0 11 11:1:l,11:1:v down=11:0
0 beat 1 1 1000 7 - - 1 1 11 11:1:v pending=11
0 beat 1 1 1000 7 - - 1 1 11 11:1:v down=11:4294967295,12:0 pending=11,12
0 beat 1 1 1 7 - - 9223372036854775807 9223372036854775807 9223372036854775807 -
4 beat 1 1 1 7 - - 1 1 11
4 beat x
5 beat 1 1 1 7 - - 1 1 11 - down=1:1 pending=1 x
7 beat 1 1 1 0 x - 1 1 11 -
7 beat 1 1 1 9223372036854775808 - - 1 1 11 -
8 beat 1 1 1 7 6 - x 1 11 -
8 beat 1 1 1 7 - 0x61 1 1 11 -
7 beat 1 1 1 7 - - 9223372036854775808 1 11 -
6 beat 1 1 1 7 - - 1 v 11 -
7 beat 1 1 1 7 - - 1 1 0 -
6 beat 1 1 1 7 - - 1 1 11 x:1
6 beat 1 1 1 7 - - 1 1 11 11;1:v
7 beat 1 1 1 7 - - 1 1 11 0:1
8 beat 1 1 1 7 - - 1 1 11 11,1,v
8 beat 1 1 1 7 - - 1 1 11 11:1
8 beat 1 1 1 7 - - 1 1 11 11
8 beat 1 1 1 7 - - 1 1 11 11:1:v:
8 beat 1 1 1 7 - - 1 1 11 11:1:i
8 beat 1 1 1 7 - - 1 1 11 11:1:
7 beat 1 1 1 7 - - 1 1 11 11:0:v
6 beat 1 1 1 7 - - 1 1 11 11:1:v,
6 beat 1 1 1 7 - - 1 1 11 ::v
6 beat 1 1 1 7 - - 1 1 11 --
8 beat 1 1 1 7 - - 1 1 11 - pending=11:12
6 beat 1 1 1 7 - - 1 1 11 - pending=11;12
6 beat 1 1 1 7 - - 1 1 11 - pending=
6 beat 1 1 1 7 - - 1 1 11 - down=
8 beat 1 1 1 7 - - 1 1 11 - down=1
8 beat 1 1 1 7 - - 1 1 11 - down=1,1
7 beat 1 1 1 7 - - 1 1 11 - down=1:4294967296
8 beat 1 1 1 7 - - 1 1 11 - pending=0 down=1:1
8 beat 1 1 1 7 - - 1 1 11 - down=1:1 down=1:1
8 beat 1 1 1 7 - - 1 1 11 - x=1
0 rule 1 1000 {}
0 rule 7 70368744177663 {\"group_id\":\"pd\",\"id\":\"x\"}
0 rule 1 1000 not a rule at all
0   rule  1  1000   { \"a\":  1 }  
4 rule
4 rule 1
4 rule 1 1000
4 rule x y
7 rule 0 x {}
6 rule x 70368744177664 {}
7 rule 1 70368744177664 {}
6 rule 1 -1 {}
0 schedule 1 1000
0 schedule 7 70368744177663
4 schedule
4 schedule 1
4 schedule x
5 schedule 1 1000 x
5 schedule x x x
7 schedule 0 x
6 schedule 1 x
7 schedule 1 70368744177664
0 ctl 1 1000 store
0 ctl 7 70368744177663 no command at all
0   ctl  1  1000   store   1  
4 ctl
4 ctl 1
4 ctl 1 1000
4 ctl x y
7 ctl 0 x store
6 ctl 1 x store
7 ctl 1 70368744177664 store
0 unrule 1 1000 pd default
0 unrule 7 0 ! ~
0 unrule 1 1000 gggggggggggggggggggggggggggggggggggggggggggggggggggggggggggggggg i
0 unrule 1 1000 g iiiiiiiiiiiiiiiiiiiiiiiiiiiiiiiiiiiiiiiiiiiiiiiiiiiiiiiiiiiiiiii
8 unrule 1 1000 ggggggggggggggggggggggggggggggggggggggggggggggggggggggggggggggggg i
8 unrule 1 1000 g iiiiiiiiiiiiiiiiiiiiiiiiiiiiiiiiiiiiiiiiiiiiiiiiiiiiiiiiiiiiiiiii
7 unrule 0 x pd default
6 unrule x 0 pd default
7 unrule 1 70368744177664 pd default
4 unrule 1 1000 pd
4 unrule x
5 unrule 1 1000 pd default x
5 unrule x x x x x
0 check 1 1000 7
0 check 7 70368744177663 9223372036854775807
4 check
4 check 1 1000
5 check 1 1000 7 7
5 check x x x x
7 check 0 x 7
6 check x 70368744177664 7
7 check 1 70368744177664 x
7 check 1 1000 0
7 check 1 1000 9223372036854775808
6 check 1 1000 r
0 patrol 1 1000 1
0 patrol 7 0 16
4 patrol
4 patrol 1 1000
5 patrol 1 1000 1 1
7 patrol 0 x 1
6 patrol 1 now 17
7 patrol 1 1000 0
7 patrol 1 1000 17
6 patrol 1 1000 all
0 pop 1 1
0 pop 9223372036854775807 7
4 pop
4 pop 1
5 pop 1 1 1
5 pop x x x
7 pop 0 x
6 pop x 0
7 pop 9223372036854775808 1
7 pop 1 0
6 pop 1 d
3 pops 1 1
3 run
3 Lead 1 1
3 lea 1 1
3 leads 1 1
3 lead1 1
0    lead   1   1
0 # lead
0    # a comment of any kind: 0 x
";

const RUN: &str = "\
0 lead 1 1
9 read 1 1
9 read
9 campaign 1
9 save
9 raise 1 1 1
9 publish x
9 probe 1 1
9 look 0 0
9 arm 1 0
9 draw
4 lead 1
0 take 1 1 1
0 hello 1 1 1 a
4 alive
0 pop 1 1
4 pop
4 beat x
4 rule
0 rule 1 1000 {}
4 unrule 1
0 unrule 1 1000 pd default
0 schedule 1 1000
0 ctl 1 1000 store
4 check
0 check 1 1000 7
0 patrol 1 1000 1
";

// The number of the reason of the first line, 0 where the text is a script.
fn reason_of(alloc: Global, text: &[u8], mode: Mode) -> u8 {
    if text.len() > 100 {
        return 255;
    }
    match read_script(alloc, text, mode) {
        Ok(_) => 0,
        Err(ScriptRefusal::Fault { line: 1, reason }) => reason.number(),
        Err(_) => 255,
    }
}

// Reads each case, a reason and a line, as a text of its own.
fn expect_all(rt: &impl Abort, alloc: Global, cases: &str, mode: Mode) -> Result<(), Fail> {
    for case in cases.lines() {
        let Some((wanted, line)) = case.split_once(' ') else {
            return Err(Fail::new("a case without a reason"));
        };
        let text = format!(in alloc; "{line}\n")?;
        let got = format!(in alloc; "{}", reason_of(alloc, text.as_bytes(), mode))?;
        assert_eq!(rt; got.as_str(), wanted, "{line}");
    }
    Ok(())
}

#[test]
fn lines_are_events_or_at_fault_with_their_reason(rt: HostRuntime) -> Result<(), Fail> {
    expect_all(&rt, rt.alloc(), REPLAY, Mode::Replay)?;
    expect_all(&rt, rt.alloc(), RUN, Mode::Run)
}

fn expect(rt: &impl Abort, alloc: Global, text: &[u8], refusal: ScriptRefusal) {
    assert!(rt; text.len() <= 16_777_216);
    match read_script(alloc, text, Mode::Replay) {
        Ok(_) => assert!(rt; false, "no refusal"),
        Err(found) => assert_eq!(rt; found, refusal),
    }
}

#[test]
fn the_first_line_at_fault_is_named(rt: HostRuntime) {
    let at = |line: u32, reason: Reason| ScriptRefusal::Fault { line, reason };
    let rows: [(&[u8], u32, Reason); 9] = [
        (b"lead 1 10", 1, Reason::NoNewline),
        (b"hear 1\n# a comment", 2, Reason::NoNewline),
        (b"hear 1\n\n  ", 3, Reason::NoNewline),
        (b"lead\t1 1\n", 1, Reason::BadByte),
        (b"\t# lead\n", 1, Reason::BadByte),
        (b"\r\n", 1, Reason::BadByte),
        (b"# \t\x7f\nhear 1\x7f\n", 2, Reason::BadByte),
        (b"\n# x\nhear 0\nhear x\n", 3, Reason::OutOfRange),
        (b"# x\ncell 1 1\nhear 1\ncell 1\n", 4, Reason::Misplaced),
    ];
    for (text, line, reason) in rows {
        expect(&rt, rt.alloc(), text, at(line, reason));
    }
}

#[test]
fn limits_are_tested_behind_the_grammar(rt: HostRuntime) -> Result<(), Fail> {
    let alloc = rt.alloc();
    let limit = |what: Limited, count: u64| ScriptRefusal::Limit { what, count };
    expect(&rt, alloc, b"take 1 8 1\n", limit(Limited::Drivers, 8));
    expect(&rt, alloc, b"look 65 7\n", limit(Limited::Clients, 65));
    expect(&rt, alloc, b"tell 1 256\n", limit(Limited::Clients, 256));
    expect(
        &rt,
        alloc,
        b"take 18446744073709551615 18446744073709551615 1\n",
        limit(Limited::Drivers, u64::MAX),
    );
    let mut text = String::new(alloc);
    for _ in 0..65536 {
        text.push_str("tick 1 1\n")?;
    }
    assert!(rt; text.len() <= 16_777_216);
    assert!(rt; read_script(alloc, text.as_bytes(), Mode::Replay).is_ok());
    text.push_str("\ntick 8 1\n")?;
    let events = limit(Limited::Events, 65537);
    expect(&rt, alloc, text.as_bytes(), events);
    let mut text = String::new(alloc);
    for store in 1..257u64 {
        let line = format!(in alloc; "alive {store} 1 1\n")?;
        text.push_str(line.as_str())?;
    }
    assert!(rt; text.len() <= 16_777_216);
    assert!(rt; read_script(alloc, text.as_bytes(), Mode::Replay).is_ok());
    text.push_str("alive 256 1 1\nhello 257 1 1 a\n")?;
    let stores = limit(Limited::Stores, 257);
    expect(&rt, alloc, text.as_bytes(), stores);
    Ok(())
}

#[test]
fn a_script_has_its_lines_and_the_greatest_numbers(rt: HostRuntime) -> Result<(), Fail> {
    let text = b"cell 5 3\n\n# x\n  take 2 3 4\n";
    let script = read_script(rt.alloc(), text, Mode::Replay)?;
    assert_eq!(rt; (script.drivers, script.clients), (3, 2));
    let lines = script.lines.as_slice();
    assert_eq!(rt; lines.len(), 2);
    for line in lines {
        match line.number {
            1 => {
                assert_eq!(rt; line.actor, None);
                assert_eq!(rt; line.act, Act::Cell { saved: 5, term: 3 });
            }
            _ => {
                assert_eq!(rt; (line.number, line.actor), (4, Some(Actor::Client(2))));
                let take = Act::Take {
                    client: 2,
                    driver: 3,
                    n: 4,
                };
                assert_eq!(rt; line.act, take);
            }
        }
    }
    Ok(())
}

// What a line asks of this driver's cluster.
fn asked(driver: u8, line: &Line) -> Option<&Request> {
    match &line.act {
        Act::Ask {
            driver: one,
            request,
        } if *one == driver => Some(request.value()),
        _ => None,
    }
}

// A line `rule` whose JSON text has so many bytes, with spaces around and inside it.
fn rule_line(alloc: Global, count: u64) -> Result<String, Fail> {
    let mut text = String::new(alloc);
    text.push_str("rule 1 1000   {  ")?;
    for _ in 4..count {
        text.push_str("x")?;
    }
    text.push_str("}   \n")?;
    Ok(text)
}

#[test]
fn a_rule_is_the_rest_of_its_line(rt: HostRuntime) -> Result<(), Fail> {
    let alloc = rt.alloc();
    for count in [4u64, 5, 4095, 4096] {
        let text = rule_line(alloc, count)?;
        assert!(rt; text.len() <= 16_777_216);
        let script = read_script(alloc, text.as_bytes(), Mode::Replay)?;
        for line in script.lines.as_slice() {
            assert_eq!(rt; line.actor, Some(Actor::Driver(1)));
            match asked(1, line) {
                Some(Request::Rule { moment: 1000, json }) => {
                    assert_eq!(rt; json.len() as u64, count);
                    assert!(rt; json.as_slice().starts_with(b"{  "));
                    assert!(rt; json.as_slice().ends_with(b"}"));
                }
                _ => assert!(rt; false, "another act"),
            }
        }
    }
    let long = ScriptRefusal::Fault {
        line: 1,
        reason: Reason::BadWord,
    };
    let text = rule_line(alloc, 4097)?;
    expect(&rt, alloc, text.as_bytes(), long);
    Ok(())
}

#[test]
fn a_rule_is_removed_by_its_group_and_id(rt: HostRuntime) -> Result<(), Fail> {
    let script = read_script(rt.alloc(), b"unrule 2 7 pd x/1\n", Mode::Replay)?;
    assert_eq!(rt; (script.drivers, script.lines.len()), (2, 1));
    for line in script.lines.as_slice() {
        assert_eq!(rt; line.actor, Some(Actor::Driver(2)));
        match asked(2, line) {
            Some(
                Request::Unrule {
                    moment: 7,
                    group,
                    id,
                },
            ) => {
                assert_eq!(rt; group.as_str(), "pd");
                assert_eq!(rt; id.as_str(), "x/1");
            }
            _ => assert!(rt; false, "another act"),
        }
    }
    Ok(())
}

#[test]
fn a_driver_has_its_regions_checked(rt: HostRuntime) -> Result<(), Fail> {
    let script = read_script(rt.alloc(), b"check 3 9 7\npatrol 3 10 16\n", Mode::Replay)?;
    assert_eq!(rt; (script.drivers, script.lines.len()), (3, 2));
    for line in script.lines.as_slice() {
        assert_eq!(rt; line.actor, Some(Actor::Driver(3)));
        match asked(3, line) {
            Some(
                Request::Check {
                    moment: 9,
                    region: 7,
                },
            ) => assert_eq!(rt; line.number, 1),
            Some(
                Request::Patrol {
                    moment: 10,
                    workers: 16,
                },
            ) => assert_eq!(rt; line.number, 2),
            _ => assert!(rt; false, "another act"),
        }
    }
    Ok(())
}

// The words of a command begin at the first of them and end with the last, and inner spaces stay.
#[test]
fn a_driver_schedules_and_is_commanded(rt: HostRuntime) -> Result<(), Fail> {
    let text = b"schedule 3 9\nctl 3 10   store  1  \n";
    let script = read_script(rt.alloc(), text, Mode::Replay)?;
    assert_eq!(rt; (script.drivers, script.lines.len()), (3, 2));
    for line in script.lines.as_slice() {
        assert_eq!(rt; line.actor, Some(Actor::Driver(3)));
        match asked(3, line) {
            Some(Request::Schedule { moment: 9 }) => assert_eq!(rt; line.number, 1),
            Some(Request::Ctl { moment: 10, words }) => {
                assert_eq!(rt; line.number, 2);
                assert_eq!(rt; words.as_slice(), b"store  1".as_slice());
            }
            _ => assert!(rt; false, "another act"),
        }
    }
    Ok(())
}

#[test]
fn reports_are_tested_before_leads(rt: HostRuntime) -> Result<(), Fail> {
    let alloc = rt.alloc();
    let mut text = String::new(alloc);
    for _ in 0..512 {
        text.push_str("ctl 1 1 store\nschedule 1 1\npatrol 1 1 1\nlead 1 1\n")?;
    }
    assert!(rt; text.len() <= 16_777_216);
    assert!(rt; read_script(alloc, text.as_bytes(), Mode::Replay).is_ok());
    for _ in 0..513 {
        text.push_str("publish 1\n")?;
    }
    text.push_str("ctl 1 1 x\n")?;
    let reports = ScriptRefusal::Limit {
        what: Limited::Reports,
        count: 1025,
    };
    expect(&rt, alloc, text.as_bytes(), reports);
    Ok(())
}

#[test]
fn a_store_that_pops_acts(rt: HostRuntime) -> Result<(), Fail> {
    let script = read_script(rt.alloc(), b"pop 9 3\n", Mode::Replay)?;
    assert_eq!(rt;
        (script.drivers, script.clients, script.lines.len()),
        (3, 1, 1)
    );
    for line in script.lines.as_slice() {
        assert_eq!(rt; line.actor, Some(Actor::Store(9)));
        assert_eq!(rt;
            line.act,
            Act::Pop {
                store: 9,
                driver: 3
            }
        );
    }
    Ok(())
}

#[test]
fn leads_are_tested_behind_stores(rt: HostRuntime) -> Result<(), Fail> {
    let alloc = rt.alloc();
    let mut text = String::new(alloc);
    for _ in 0..512 {
        text.push_str("lead 1 1\ntick 1 1\npublish 1\nraise 1\n")?;
    }
    assert!(rt; text.len() <= 16_777_216);
    assert!(rt; read_script(alloc, text.as_bytes(), Mode::Replay).is_ok());
    text.push_str("publish 2\n")?;
    let leads = |count: u64| ScriptRefusal::Limit {
        what: Limited::Leads,
        count,
    };
    expect(&rt, alloc, text.as_bytes(), leads(1025));
    text.push_str("lead 3 1\n")?;
    expect(&rt, alloc, text.as_bytes(), leads(1026));
    for store in 1..258u64 {
        let word = if store % 2 == 0 { "pop" } else { "alive" };
        let end = if store % 2 == 0 { "" } else { " 1" };
        let line = format!(in alloc; "{word} {store} 1{end}\n")?;
        text.push_str(line.as_str())?;
    }
    let stores = ScriptRefusal::Limit {
        what: Limited::Stores,
        count: 257,
    };
    expect(&rt, alloc, text.as_bytes(), stores);
    Ok(())
}
