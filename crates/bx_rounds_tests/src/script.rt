//! Tests of reading the lines of a script.
use crate::same::same;
use bx_cut::Bodies;
use bx_entry::Input;
use bx_script::{Dialect, Line, Lines, ScriptFault};
use std::alloc::{AllocError, Global};
use std::test::Fail;

// Appends a description of `line` to `text`: its kind, and its status, number or request.
fn push_told(alloc: Global, line: &Line, text: &mut String) -> Result<(), AllocError> {
    match line {
        Line::Bad => text.push_str("bad"),
        Line::Rejected { status } => write!(text, "turned {}", status.code()),
        Line::Resharded { shards } => write!(text, "shards {}", shards.get()),
        Line::Announced { nonce } => write!(text, "nonce {nonce}"),
        Line::Noted => text.push_str("note"),
        Line::Accepted { callback, input } => {
            let name = match callback {
                Some(name) => name.as_str(),
                None => "-",
            };
            push_input(alloc, name, input, text)
        }
    }
}

fn push_input(
    alloc: Global,
    name: &str,
    input: &Input,
    text: &mut String,
) -> Result<(), AllocError> {
    match input {
        Input::Tick(moment) => write!(text, "tick {moment}"),
        Input::Post(arrival) => {
            write!(text, "post {} {name}", arrival.moment)?;
            push_bodies(alloc, &arrival.bodies, text)
        }
    }
}

fn push_bodies(alloc: Global, bodies: &Bodies, text: &mut String) -> Result<(), AllocError> {
    for i in 0..bodies.len() {
        let body = String::from_utf8_lossy(alloc, bodies.get(i))?;
        write!(text, " |{body}|")?;
    }
    Ok(())
}

// Returns the descriptions of the lines of `SCRIPT`, each followed by a semicolon. Fails with
// `Read` if there are 100 lines or more.
fn all_told(alloc: Global, dialect: Dialect) -> Result<String, ScriptFault> {
    let mut lines = Lines::new(alloc, dialect, SCRIPT);
    let mut text = String::new(alloc);
    for _ in 0..100 {
        match lines.next_line(alloc)? {
            Some(line) => {
                push_told(alloc, &line, &mut text)?;
                text.push(';')?;
            }
            None => return Ok(text),
        }
    }
    Err(ScriptFault::Read)
}

// Lines of all kinds that a record may have, and bad lines.
const SCRIPT: &[u8] =
    b"0 P []\r\n0 T\r\n\0\n0 P \0\n\n000000000000000000000000000007 T\n100000000000000000000000000007 T\n T\n00 T\n1 G jsonp=cb&message=%5B%5D\n0 G \n0 S 0\n0 S 64\n0 S 65\n0 S 00000000000000000000000000001\n0 T\n2 F message=%5B%5D&jsonp=cb&message=+\n0 F \n0 F jsonp=cb\n0 F\n3 N 000000000000000000000000000000fF\n0 N 00000000000000000000000000000ff\n0 N 0000000000000000000000000000000ff\n0 N +00000000000000000000000000000ff\n0 N 000000000000000000000000000000fg\n0 N ffffffffffffffffffffffffffffffff\nA 7 4f53cda18c2baa0c0354bb5f9a3ecbe5ed12ab4d8e11ba873c2f11161202b945\nA 18446744073709551615 4F53CDA18C2BAA0C0354BB5F9A3ECBE5ED12AB4D8E11BA873C2F11161202B945\nA 007 4f53cda18c2baa0c0354bb5f9a3ecbe5ed12ab4d8e11ba873c2f11161202b945\nA 18446744073709551616 4f53cda18c2baa0c0354bb5f9a3ecbe5ed12ab4d8e11ba873c2f11161202b945\nA 7 4f53cda18c2baa0c0354bb5f9a3ecbe5ed12ab4d8e11ba873c2f11161202b94\nA 7 4f53cda18c2baa0c0354bb5f9a3ecbe5ed12ab4d8e11ba873c2f11161202b9450\nA 7 4f53cda18c2baa0c0354bb5f9a3ecbe5ed12ab4d8e11ba873c2f11161202b94g\nA 7\nA\nA  4f53cda18c2baa0c0354bb5f9a3ecbe5ed12ab4d8e11ba873c2f11161202b945\nA 4f53cda18c2baa0c0354bb5f9a3ecbe5ed12ab4d8e11ba873c2f11161202b945\nA 7  4f53cda18c2baa0c0354bb5f9a3ecbe5ed12ab4d8e11ba873c2f11161202b945\nA -7 4f53cda18c2baa0c0354bb5f9a3ecbe5ed12ab4d8e11ba873c2f11161202b945\n5 A 7 4f53cda18c2baa0c0354bb5f9a3ecbe5ed12ab4d8e11ba873c2f11161202b945\n0A 7 4f53cda18c2baa0c0354bb5f9a3ecbe5ed12ab4d8e11ba873c2f11161202b945";

const TOLD: &str =
    "post 0 - |[]\r|;bad;bad;post 0 - |\0|;bad;tick 7;bad;bad;tick 0;post 1 cb |[]|;turned 400;bad;shards 64;bad;shards 1;tick 0;post 2 - |[]| | |;turned 400;turned 400;bad;nonce 255;bad;bad;bad;bad;nonce 340282366920938463463374607431768211455;note;note;note;bad;bad;bad;bad;bad;bad;bad;bad;bad;bad;bad;bad;";

// The descriptions of the lines of `SCRIPT`, read as a script. Lines that only a record may have
// are bad in a script.
const TOLD_AS_SCRIPT: &str =
    "post 0 - |[]\r|;bad;bad;post 0 - |\0|;bad;tick 7;bad;bad;tick 0;post 1 cb |[]|;turned 400;bad;shards 64;bad;shards 1;tick 0;bad;bad;bad;bad;bad;bad;bad;bad;bad;bad;bad;bad;bad;bad;bad;bad;bad;bad;bad;bad;bad;bad;bad;bad;bad;";

// Checks how the lines of `SCRIPT` are read, as a record and as a script.
#[test]
fn lines_say_what_they_say(rt: HostRuntime) -> Result<(), Fail> {
    for (dialect, wanted) in [(Dialect::Recorded, TOLD), (Dialect::Script, TOLD_AS_SCRIPT)] {
        let told = all_told(rt.alloc(), dialect)?;
        same(&rt, told.as_str(), wanted, "a script");
    }
    Ok(())
}

// Checks the texts of the three faults of reading and answering a script.
#[test]
fn faults_have_texts(rt: HostRuntime) -> Result<(), Fail> {
    let text = format!(in rt.alloc();
        "{}, {}, {}",
        ScriptFault::Memory,
        ScriptFault::Read,
        ScriptFault::Write
    )?;
    let wanted = "out of memory, read fault, write fault";
    same(&rt, text.as_str(), wanted, "faults");
    Ok(())
}
