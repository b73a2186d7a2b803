//! Workloads of the pattern tree and of a plain list of patterns.
use anyhow::Result;
use bx_names::{ChannelName, Pattern, matches};
use bx_tree::Tree;
use std::alloc::Global;

const SESSIONS: u64 = 10_000;

const ROOMS: u64 = 1_000;

const STOCKS: u64 = 5_000;

// Number of stocks that a session subscribes to. It has three more patterns: two for its own
// channels, and one for its room.
const STOCKS_OF_ONE: u64 = 7;

// The names to look up. A stock has 14 subscribers, a room ten, a user's channel one, and the last
// name none.
const NAMES: [&str; 4] = [
    "/stock/4711",
    "/room/17/talk",
    "/user/4711/inbox",
    "/nobody/asks/for/this",
];

/// Builds the tree of 10,000 sessions with ten patterns each.
///
/// Returns how many patterns the first session has.
///
/// # Errors
///
/// If memory runs out.
pub fn build(alloc: Global) -> Result<usize> {
    let mut tree = Tree::new(alloc);
    put_all(alloc, &mut tree)
}

/// Builds the tree of 10,000 sessions with ten patterns each, and looks up each name `times` times.
///
/// Returns the number of sessions found in all look-ups.
///
/// # Errors
///
/// If memory runs out.
pub fn find(alloc: Global, times: u64) -> Result<usize> {
    let mut tree = Tree::new(alloc);
    put_all(alloc, &mut tree)?;
    find_all(alloc, &tree, &names(alloc, &NAMES)?, times)
}

// Looks up each of `names` `times` times, and returns the number of sessions found in all.
fn find_all(alloc: Global, tree: &Tree, names: &[ChannelName], times: u64) -> Result<usize> {
    let mut total = 0usize;
    for _ in 0..times {
        for name in names {
            total = total.saturating_add(tree.nodes().find(alloc, name)?.numbers.len());
        }
    }
    Ok(total)
}

/// Builds a list of the patterns of 10,000 sessions, ten each, and returns its length.
///
/// # Errors
///
/// If memory runs out.
pub fn plain_build(alloc: Global) -> Result<usize> {
    Ok(pairs(alloc)?.len())
}

/// Builds a list of the patterns of 10,000 sessions, ten each, and compares names with them all.
///
/// Each name is compared `times` times. Returns the number of matches.
///
/// # Errors
///
/// If memory runs out.
pub fn plain_find(alloc: Global, times: u64) -> Result<usize> {
    let (pairs, names) = (pairs(alloc)?, names(alloc, &NAMES)?);
    let mut total = 0usize;
    for _ in 0..times {
        for name in &names {
            let found = pairs.iter().filter(|pair| matches(&pair.1, name)).count();
            total = total.saturating_add(found);
        }
    }
    Ok(total)
}

/// Builds a tree of `sessions` sessions with a pattern each, and looks up a name `finds` times.
///
/// Each look-up finds one session. Returns the number of sessions found in all.
///
/// # Errors
///
/// If memory runs out.
pub fn grown(alloc: Global, sessions: u64, finds: u64) -> Result<usize> {
    let mut tree = Tree::new(alloc);
    for number in 0..sessions {
        tree.add(alloc, &pattern(alloc, "/x/", number, "")?, number)?;
    }
    find_all(alloc, &tree, &names(alloc, &["/x/7"])?, finds)
}

fn names(alloc: Global, texts: &[&str]) -> Result<Vec<ChannelName>> {
    let mut names = Vec::new(alloc);
    for text in texts {
        names.push(ChannelName::read(alloc, *text)?)?;
    }
    Ok(names)
}

// Adds the patterns of all sessions to `tree`, and returns how many the first session has.
fn put_all(alloc: Global, tree: &mut Tree) -> Result<usize> {
    for number in 0..SESSIONS {
        for pattern in patterns(alloc, number)? {
            tree.add(alloc, &pattern, number)?;
        }
    }
    Ok(tree.count(0))
}

fn pairs(alloc: Global) -> Result<Vec<(u64, Pattern)>> {
    let mut pairs = Vec::new(alloc);
    for number in 0..SESSIONS {
        for pattern in patterns(alloc, number)? {
            pairs.push((number, pattern))?;
        }
    }
    Ok(pairs)
}

// Creates the patterns of session `number`.
fn patterns(alloc: Global, number: u64) -> Result<Vec<Pattern>> {
    let mut patterns = Vec::new(alloc);
    patterns.push(pattern(alloc, "/user/", number, "")?)?;
    patterns.push(pattern(alloc, "/user/", number, "/*")?)?;
    patterns.push(pattern(alloc, "/room/", number % ROOMS, "/**")?)?;
    for k in 0..STOCKS_OF_ONE {
        let stock = number.wrapping_mul(STOCKS_OF_ONE).wrapping_add(k) % STOCKS;
        patterns.push(pattern(alloc, "/stock/", stock, "")?)?;
    }
    Ok(patterns)
}

fn pattern(alloc: Global, before: &str, number: u64, behind: &str) -> Result<Pattern> {
    let text = format!(in alloc; "{before}{number}{behind}")?;
    Ok(Pattern::read(alloc, text.as_str())?)
}
