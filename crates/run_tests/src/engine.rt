//! The plain engine where no id is left for another row, and what it counts.
ghost use Rattle.std.specs.Prelude.{◌≡◌, ◌≢◌};
ghost use Rattle.param_flow.specs.declared.command.Command.TheVariants.{Print};

use cell_value::{Cell, Steps};
use opened_charts::{is_replied, opened_without_ids};
use param_flow::{Command, Reply};
use plain_engine::PlainEngine;
use play_script::Engine;
use std::alloc::Global;
use std::marker::Brand;
use std::sync::ledger::{Blank, Ledger};
use std::test::Fail;
use text_kit::Text;

/// Values of three bars.
const THREE_VALUES: &str = r#"{"a":"A","b":28},{"a":"B","b":55},{"a":"C","b":43}"#;

/// Their picture.
const THREE_BARS: &str = concat!(
    "<svg xmlns=\"http://www.w3.org/2000/svg\" version=\"1.1\" width=\"70\" height=\"210\" viewBox=\"0 0 70 210\">\n",
    "<g transform=\"translate(5,5)\">\n",
    "<rect x=\"1\" y=\"98.181818\" width=\"18\" height=\"101.818182\" fill=\"#4c78a8\"/>\n",
    "<rect x=\"21\" y=\"0\" width=\"18\" height=\"200\" fill=\"#4c78a8\"/>\n",
    "<rect x=\"41\" y=\"43.636364\" width=\"18\" height=\"156.363636\" fill=\"#4c78a8\"/>\n",
    "</g>\n</svg>\n",
);

/// Changes of a chart that has no id left for another row, each with the reply to it: the first cause that holds. None changes the chart.
const REPLIES: [(&str, &str); 8] = [
    (
        r#"["change","u",{"remove":"datum.b * 100000000000000 > 0","insert":[[1]]}]"#,
        "refused name",
    ),
    (
        r#"["change","t",{"remove":"k > datum.b * 100000000000000","insert":[[1]]}]"#,
        "refused name",
    ),
    (
        r#"["change","t",{"remove":"datum.b * 100000000000000 > 0","insert":[{"a":"D","b":1},[1]]}]"#,
        r#"refused row 1 """#,
    ),
    (
        r#"["change","t",{"insert":[{"a":1e16,"b":1e16},[1]]}]"#,
        r#"refused row 0 "a""#,
    ),
    (
        concat!(
            r#"["change","t",{"modify":[{"where":"true","field":"b","set":"datum.b * 100000000000000"}],"#,
            r#""insert":[{"a":"D","b":1}]}]"#
        ),
        "refused limit",
    ),
    (
        r#"["change","t",{"remove":"true","insert":[{"a":"D","b":1}]}]"#,
        "refused limit",
    ),
    (
        r#"["change","t",{"modify":[{"where":"true","field":"b","set":"datum.b * 100000000000000"}]}]"#,
        "refused overflow",
    ),
    (r#"["change","t",{"insert":[]}]"#, "ok"),
];

// Whether each is replied to so. The first that isn't is told.
fn is_kept(alloc: Global, engine: &mut PlainEngine) -> Result<(), Fail> {
    for (line, reply) in REPLIES {
        if !is_replied(alloc, engine, line, reply, THREE_BARS)? {
            return Err(Fail::new(line));
        }
    }
    Ok(())
}

// The reply to a command that is no print, where no step of it is counted.
fn applied<L: Ledger>(
    alloc: Global,
    engine: &mut PlainEngine,
    command: &Command,
    blank: Blank,
) -> Result<Reply, Fail>
    requires name { blank.name ≡ L.name }
    requires parts { blank.parts ≡ L.parts }
    requires no_print { command.now ≢ Print }
{
    let mut steps = Steps::<L>::open(blank);
    let reply = engine.apply(alloc, command, &mut steps)?;
    if steps.count() != 0 {
        return Err(Fail::new("no step is counted"));
    }
    Ok(reply)
}

// The same with a counter of one part.
fn reply(alloc: Global, engine: &mut PlainEngine, command: &Command) -> Result<Reply, Fail>
    requires { command.now ≢ Print }
{
    applied::<Brand>(alloc, engine, command, Blank::new(1))
}

// Whether a command is refused.
fn is_refused(alloc: Global, engine: &mut PlainEngine, command: &Command) -> Result<bool, Fail>
    requires { command.now ≢ Print }
{
    Ok(matches!(reply(alloc, engine, command)?, Reply::Refused(_)))
}

// Whether a parameter that isn't there can't be set, and nothing is counted.
fn counts_nothing(alloc: Global, engine: &mut PlainEngine) -> Result<bool, Fail> {
    let name = Text::of(alloc, "k")?;
    let value = Cell::Null;
    let command = Command::Set { name, value };
    let refused = is_refused(alloc, engine, &command);
    drop(command);
    Ok(refused? && engine.last_reads() == 0)
}

// Whether each change is replied to so, and nothing is counted.
fn is_all_kept(alloc: Global, engine: &mut PlainEngine) -> Result<bool, Fail> {
    is_kept(alloc, engine)?;
    counts_nothing(alloc, engine)
}

// Whether both hold of the chart without ids.
fn all_stays(alloc: Global) -> Result<bool, Fail> {
    let mut engine = opened_without_ids(alloc, THREE_VALUES, "a", "b")?;
    let stays = is_all_kept(alloc, &mut engine);
    drop(engine);
    stays
}

#[test]
fn without_ids_the_first_cause_is_told_and_all_stays(rt: HostRuntime) -> Result<(), Fail> {
    assert!(rt; all_stays(rt.alloc())?);
    Ok(())
}
