use crate::{RuleFault, print_rule, read_rule};
use pd_types::Bytes;
use std::alloc::Global;
use std::test::Fail;

// Texts that are read, first the default rule (PD documentation, "Placement Rules").
const READ: &str =
    r#"{"role":"voter","id":"default","group_id":"pd","count":3,"index":null,"override":null,"start_key":null,"end_key":null,"label_constraints":null,"location_labels":null,"isolation_level":null}
{"group_id":"pd","id":"x","role":"voter","count":1,"start_key":"40","color":"red"}
{"group_id":"pd","id":"f","index":4294967295,"override":true,"start_key":"4A","end_key":"4b00","role":"follower","count":15,"location_labels":["zone","rack","host","zone"],"isolation_level":""}
{"group_id":"\u0070d","id":"q\"","role":"learner","count":2,"count":1,"label_constraints":[{"key":"engine","op":"in","values":["tiflash","x"]},{"op":"notIn","key":"disk","values":null}]}
{"group_id":"pd","id":"l","role":"leader","count":1,"label_constraints":[{"key":"a","op":"exists"},{"key":"b","op":"notExists"}]}"#;

// What is printed of each.
const PRINTED: &str =
    r#"{"count":3,"end_key":"","group_id":"pd","id":"default","index":0,"label_constraints":[],"location_labels":[],"override":false,"role":"voter","start_key":""}
{"count":1,"end_key":"","group_id":"pd","id":"x","index":0,"label_constraints":[],"location_labels":[],"override":false,"role":"voter","start_key":"40"}
{"count":15,"end_key":"4b00","group_id":"pd","id":"f","index":4294967295,"label_constraints":[],"location_labels":["zone","rack","host","zone"],"override":true,"role":"follower","start_key":"4a"}
{"count":1,"end_key":"","group_id":"pd","id":"q\"","index":0,"label_constraints":[{"key":"engine","op":"in","values":["tiflash","x"]},{"key":"disk","op":"notIn","values":[]}],"location_labels":[],"override":false,"role":"learner","start_key":""}
{"count":1,"end_key":"","group_id":"pd","id":"l","index":0,"label_constraints":[{"key":"a","op":"exists","values":[]},{"key":"b","op":"notExists","values":[]}],"location_labels":[],"override":false,"role":"leader","start_key":""}"#;

// The number of the first test that each text fails, 0 where it fails none. The first ten fail one
// test alone; of the next nine each would fail a later test too.
const FAULTS: &str = r#"1 {
2 []
3 {"group_id":"pd","id":"x","role":"voter"}
4 {"group_id":"pd","id":"x","role":"voter","count":"3"}
5 {"group_id":"pd","id":"x","role":"voter","count":1,"start_key":"4"}
6 {"group_id":"pd","id":"x","role":"king","count":1}
7 {"group_id":"pd","id":"x","role":"voter","count":1,"label_constraints":[{"key":"zone","op":"eq"}]}
8 {"group_id":"pd","id":"x","role":"leader","count":2}
9 {"group_id":"pd","id":"x","role":"voter","count":1,"start_key":"40","end_key":"40"}
10 {"group_id":"pd","id":"x","role":"voter","count":1,"isolation_level":"zone"}
10 {"group_id":"pd","id":"x","role":"voter","count":1,"start_key":"40","color":"red","isolation_level":"zone"}
1 [] {"count":0}
2 [{"group_id":7}]
3 {"group_id":"","id":"x","role":"voter","label_constraints":[7,{"key":"zone"}]}
4 {"group_id":"pd","id":"","role":"voter","count":1,"end_key":"g0"}
5 {"group_id":"pd","id":"x","role":"king","count":0,"end_key":"g0"}
6 {"group_id":"pd","id":"x","role":"king","count":0,"label_constraints":[{"key":"zone","op":"eq"}]}
7 {"group_id":"pd","id":"x","role":"leader","count":2,"label_constraints":[{"key":"zone","op":"eq"}]}
8 {"group_id":"pd","id":"x","role":"voter","count":16,"start_key":"40","end_key":"40"}
9 {"group_id":"pd","id":"x","role":"voter","count":1,"start_key":"40","end_key":"3f","isolation_level":"zone"}
0 {"group_id":"pd","id":"x","role":"voter","count":1}
4 {"group_id":"pd","id":"x","role":"voter","count":1.0}
4 {"group_id":"pd","id":"x","role":"voter","count":1,"index":-0}
4 {"group_id":"pd","id":"x","role":"voter","count":1,"index":4294967296}
4 {"group_id":null,"id":"x","role":"voter","count":1}
4 {"group_id":"pd","id":"x","role":"voter","count":1,"location_labels":["a","b","c","d","e"]}
4 {"group_id":"pd","id":"x","role":"voter","count":1,"label_constraints":[{"key":"zone","op":null}]}
3 {"group_id":"pd","id":"x","role":"voter","count":1,"label_constraints":[7,{"key":"zone"}]}
4 {"group_id":"pd","id":"x","role":"voter","count":1,"label_constraints":{"key":"zone"}}
1 {"group_id":"pd","id":"x","role":"voter","count":1,"more":"\ud800"}
1 {"group_id":"pd","id":"x","role":"voter","count":1,"more":1e999}
"#;

// The number of the first test that the text fails, 0 where it fails none.
fn first_failing(alloc: Global, text: &str) -> u32 {
    match read_rule(alloc, text.as_bytes()) {
        Ok(_) => 0,
        Err(RuleFault::NotJson) => 1,
        Err(RuleFault::NotObject) => 2,
        Err(RuleFault::Missing) => 3,
        Err(RuleFault::WrongKind) => 4,
        Err(RuleFault::BadHex) => 5,
        Err(RuleFault::BadRole) => 6,
        Err(RuleFault::BadOp) => 7,
        Err(RuleFault::BadCount) => 8,
        Err(RuleFault::EmptyRange) => 9,
        Err(RuleFault::IsolationLevel) => 10,
        Err(RuleFault::NoMemory) => 11,
    }
}

#[test]
fn names_the_first_failing_test(rt: HostRuntime) -> Result<(), Fail> {
    let alloc = rt.alloc();
    for case in FAULTS.lines() {
        let Some((want, text)) = case.split_once(' ') else {
            return Err(Fail::new("a case without a number"));
        };
        let got = format!(in alloc; "{}", first_failing(alloc, text))?;
        assert_eq!(rt; got.as_str(), want, "{text}");
    }
    Ok(())
}

// What is printed of the rule that the text is read as.
fn printed(alloc: Global, text: &str) -> Result<Bytes, Fail> {
    let rule = read_rule(alloc, text.as_bytes())?;
    Ok(print_rule(alloc, &rule)?)
}

#[test]
fn prints_the_ten_fields_of_what_it_reads(rt: HostRuntime) -> Result<(), Fail> {
    let alloc = rt.alloc();
    for (text, want) in READ.lines().zip(PRINTED.lines()) {
        let first = printed(alloc, text)?;
        assert_eq!(rt; first.as_slice(), want.as_bytes(), "{text}");
        let again = printed(alloc, want)?;
        assert_eq!(rt; again.as_slice(), want.as_bytes(), "{want}");
    }
    Ok(())
}

// A rule's text with a further field that nests so deep.
fn nested(alloc: Global, depth: usize) -> Result<String, Fail> {
    let open = "[".repeat(alloc, depth)?;
    let close = "]".repeat(alloc, depth)?;
    Ok(format!(in alloc;
        "{{\"group_id\":\"pd\",\"id\":\"x\",\"role\":\"voter\",\"count\":1,\"more\":{open}{close}}}"
    )?)
}

// The text nests one deeper than the field.
#[test]
fn nesting_ends_at_127(rt: HostRuntime) -> Result<(), Fail> {
    let alloc = rt.alloc();
    for (depth, want) in [(126, 0), (127, 1)] {
        let text = nested(alloc, depth)?;
        assert_eq!(rt; first_failing(alloc, text.as_str()), want, "at {depth}");
    }
    Ok(())
}
