//! The gateway's desk: what enters it, and what it answers.

use crate::session_steps::{Turn, push_reply, push_request};
use std::alloc::Global;
use std::fmt::Write;
use std::test::Fail;

/// What enters the gateway, its suppliers' declarations and what the law asks of it, in order.
const ENTERED: &[&str] = &[
    r#"POST /edit {"edit":"substance","ticket":"g1","code":"lead-oxide","name":"Lead monoxide","cas":"1317-36-8"}"#,
    r#"POST /edit {"edit":"member","ticket":"g2","substance":"lead-oxide","rule":"lead","factor":928320}"#,
    r#"POST /edit {"edit":"exemption","ticket":"g3","row":"III-6C","annex":3,"number":"6(c)","rule":"lead","kinds":["3","4"],"application":"Copper alloy","from":"2014-07-22","until":"2026-06-30","cap":40000}"#,
    r#"POST /edit {"edit":"candidate","ticket":"g4","substance":"dehp","day":"2008-10-28"}"#,
    r#"POST /edit {"edit":"candidate","ticket":"g5","substance":"lead","day":"2018-06-27"}"#,
    "POST /declare D,1,BRASSCO,11,2024-01-23\nM,BRASS,Brass for pins,2000000\nS,BRASS,lead,60000\nE,BRASS,lead,6(c)\n",
    "POST /declare D,1,CABLECO,3,2024-01-23\nM,COPPER,Copper strand,3000000\nM,PVC,PVC sheath,5000000\nS,PVC,dehp,15000\n",
    r#"POST /edit {"edit":"part","ticket":"g6","code":"PIN","kind":"article","name":"Contact pin"}"#,
    r#"POST /edit {"edit":"part","ticket":"g7","code":"CABLE","kind":"article","name":"Cable"}"#,
    r#"POST /edit {"edit":"part","ticket":"g8","code":"BOARD","kind":"assembly","name":"Main board"}"#,
    r#"POST /edit {"edit":"part","ticket":"g9","code":"GATEWAY","kind":"assembly","name":"Gateway"}"#,
    r#"POST /edit {"edit":"line","ticket":"g10","parent":"PIN","child":"BRASS","count":1}"#,
    r#"POST /edit {"edit":"line","ticket":"g11","parent":"CABLE","child":"PVC","count":1}"#,
    r#"POST /edit {"edit":"line","ticket":"g12","parent":"CABLE","child":"COPPER","count":2}"#,
    r#"POST /edit {"edit":"line","ticket":"g13","parent":"BOARD","child":"PIN","count":40}"#,
    r#"POST /edit {"edit":"line","ticket":"g14","parent":"GATEWAY","child":"BOARD","count":1}"#,
    r#"POST /edit {"edit":"line","ticket":"g15","parent":"GATEWAY","child":"CABLE","count":2}"#,
    r#"POST /edit {"edit":"product","ticket":"g16","part":"GATEWAY","kind":"3"}"#,
    r#"POST /edit {"edit":"ship","ticket":"g17","product":"GATEWAY","year":2024,"units":500000}"#,
];

/// What is asked of it then.
const ASKED: &[Turn] = &[
    Turn {
        ask: "GET /rohs/GATEWAY?day=2024-07-22",
        status: "200 OK",
        said: "version 19\nproduct GATEWAY kind 3 day 2024-07-22 mass 102000000\nover BRASS lead share 60000000000 limit 2000000000 exempt 6(c) row III-6C\nover PVC dehp share 15000000000 limit 5000000000 breach\nchain GATEWAY CABLE PVC\nnot-compliant\n",
    },
    Turn {
        ask: "GET /article33/GATEWAY?day=2024-07-22",
        status: "200 OK",
        said: "version 19\npart GATEWAY day 2024-07-22\nduty CABLE dehp mass 15000 of 11000000 included 2008-10-28\nname Bis(2-ethylhexyl) phthalate (DEHP)\nchain GATEWAY CABLE\nduty PIN lead mass 60000 of 2000000 included 2018-06-27\nname Lead\nchain GATEWAY BOARD PIN\nduties 2\n",
    },
    Turn {
        ask: "GET /article7/2024?day=2024-12-31",
        status: "200 OK",
        said: "version 19\nyear 2024 day 2024-12-31\nnotice lead tonnage 1200000000000 included 2018-06-27 due 2018-12-27\nnotices 1\n",
    },
    Turn {
        ask: "GET /part/CABLE",
        status: "200 OK",
        said: "version 19\npart CABLE article mass 11000000\nname Cable\nline COPPER 2\nline PVC 1\ncarried dehp 15000\n",
    },
    Turn {
        ask: "GET /uses/PIN",
        status: "200 OK",
        said: "version 19\nuses PIN\nuser BOARD 40\nproduct GATEWAY kind 3\n",
    },
];

/// Appends a request that is the next accepted edit, and its reply, where so many edits were accepted before.
fn push_edit(
    stream: &mut String,
    replies: &mut String,
    ask: &'static str,
    before: usize,
    said: &mut String,
) -> Result<(), Fail> {
    let number = before.saturating_add(1);
    write!(said, "version {number}\nseen {before}\naccepted {number}\n")?;
    let (status, said) = ("200 OK", said.as_str());
    push_request(stream, ask)?;
    push_reply(replies, status, said)
}

/// The requests that enter the gateway and ask for it, and their replies.
pub(crate) fn gateway(alloc: Global) -> Result<(String, String), Fail> {
    let mut stream = String::new(alloc);
    let mut replies = String::new(alloc);
    for (before, &ask) in ENTERED.iter().enumerate() {
        let mut said = String::new(alloc);
        push_edit(&mut stream, &mut replies, ask, before, &mut said)?;
    }
    for turn in ASKED {
        push_request(&mut stream, turn.ask)?;
        push_reply(&mut replies, turn.status, turn.said)?;
    }
    Ok((stream, replies))
}

/// Appends the requests that enter the gateway, but for the one of this place.
fn push_entered(stream: &mut String, but: usize) -> Result<(), Fail> {
    for (place, &ask) in ENTERED.iter().enumerate() {
        if place != but {
            push_request(stream, ask)?;
        }
    }
    Ok(())
}

/// The first of the requests that enter the gateway, so many.
pub(crate) fn first_entered(alloc: Global, count: usize) -> Result<String, Fail> {
    let mut stream = String::new(alloc);
    for &ask in ENTERED.iter().take(count) {
        push_request(&mut stream, ask)?;
    }
    Ok(stream)
}

/// The requests that enter the gateway, but for the one of this place; then all of them, and the questions.
pub(crate) fn entered_twice(alloc: Global, but: usize) -> Result<String, Fail> {
    let mut stream = String::new(alloc);
    push_entered(&mut stream, but)?;
    push_entered(&mut stream, ENTERED.len())?;
    for turn in ASKED {
        push_request(&mut stream, turn.ask)?;
    }
    Ok(stream)
}

/// How many requests enter the gateway.
pub(crate) fn entered_count() -> usize {
    ENTERED.len()
}
