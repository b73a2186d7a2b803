ghost use Rattle.std.specs.Prelude.{◌≡◌, ◌≢◌, ℕ, take, fold, OnOk, OnErr};
ghost use Rattle.bx_names.specs.Globs.{Glob};
ghost use Rattle.bx_names.specs.InForce.{with_pattern};
ghost use Rattle.bx_tree.specs.Lists.{IsIndexAt, KeepsOthers};

use crate::arrivals::Arrivals;
use crate::nodes::Nodes;
use bx_names::Pattern;
use std::alloc::{AllocError, Global};

/// Adds `pattern` for session `number`, unless it is active. On error, nothing has changed.
fn put(
    alloc: Global,
    nodes: &mut Nodes,
    arrivals: &mut Arrivals,
    pattern: &Pattern,
    number: u64,
) -> Result<(), AllocError>
    requires { IsIndexAt nodes.old number arrivals.old }
    ensures index { IsIndexAt nodes.new number arrivals.new }
    ensures others { KeepsOthers number nodes.old nodes.new }
    ensures ok { OnOk result (arrivals.new ≡ with_pattern arrivals.old pattern.now) }
    ensures err { OnErr result (arrivals.new ≡ arrivals.old) }
{
    if nodes.has(pattern, number) {
        return Ok(());
    }
    let stamp = arrivals.push(pattern.clone()?)?;
    if let Err(error) = nodes.add(alloc, pattern, number, stamp) {
        drop(arrivals.pop());
        return Err(error);
    }
    Ok(())
}

/// Removes the patterns of session `number` after its first `len`.
pub(crate) fn shorten(nodes: &mut Nodes, arrivals: &mut Arrivals, len: usize, number: u64)
    requires { IsIndexAt nodes.old number arrivals.old }
    ensures index { IsIndexAt nodes.new number arrivals.new }
    ensures others { KeepsOthers number nodes.old nodes.new }
    ensures first { arrivals.new ≡ take len arrivals.old }
{
    while arrivals.len() > len {
        let Some(pattern) = arrivals.pop() else {
            return;
        };
        nodes.remove(&pattern, number);
    }
}

/// Adds `patterns` for session `number`, in order. On error, nothing has changed.
#[tactic(auto, using(crate::proofs::ChangeLemmas::first_stay))]
pub(crate) fn add_all(
    alloc: Global,
    nodes: &mut Nodes,
    arrivals: &mut Arrivals,
    patterns: &[Pattern],
    number: u64,
) -> Result<(), AllocError>
    requires { IsIndexAt nodes.old number arrivals.old }
    ensures index { IsIndexAt nodes.new number arrivals.new }
    ensures others { KeepsOthers number nodes.old nodes.new }
    ensures ok { OnOk result (arrivals.new ≡ fold with_pattern arrivals.old patterns.now) }
    ensures err { OnErr result (arrivals.new ≡ arrivals.old) }
{
    let before = arrivals.len();
    for pattern in patterns {
        if let Err(error) = put(alloc, nodes, arrivals, pattern, number) {
            shorten(nodes, arrivals, before, number);
            return Err(error);
        }
    }
    Ok(())
}
