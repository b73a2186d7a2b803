//! Tests of channel names, patterns and their limits, and of matching names against patterns.
use crate::same::same;
use bx_names::{
    ChannelKind, ChannelName, NameError, Pattern, kind_of, matches, name_fault, pattern_fault,
};
use std::alloc::Global;
use std::test::Fail;

const NO_SLASH: Option<NameError> = Some(NameError::NoSlash);

const EMPTY_SEGMENT: Option<NameError> = Some(NameError::EmptySegment);

const BAD_BYTE: Option<NameError> = Some(NameError::BadByte);

const WILD: Option<NameError> = Some(NameError::Wild);

const TOO_LONG: Option<NameError> = Some(NameError::TooLong);

const TOO_DEEP: Option<NameError> = Some(NameError::TooDeep);

// Texts, each with why it is not a channel name, and why it is not a pattern.
const TEXTS: [(&str, Option<NameError>, Option<NameError>); 22] = [
    ("/a/b", None, None),
    ("/meta", None, None),
    ("/\u{21}", None, None),
    ("/\u{7E}", None, None),
    ("/\u{80}", None, None),
    ("", NO_SLASH, NO_SLASH),
    ("a//", NO_SLASH, NO_SLASH),
    ("a/*", NO_SLASH, NO_SLASH),
    ("/", EMPTY_SEGMENT, EMPTY_SEGMENT),
    ("/a/", EMPTY_SEGMENT, EMPTY_SEGMENT),
    ("//\u{1}", EMPTY_SEGMENT, EMPTY_SEGMENT),
    ("/a/*/", EMPTY_SEGMENT, EMPTY_SEGMENT),
    ("/a /*x", BAD_BYTE, BAD_BYTE),
    ("/\u{20}", BAD_BYTE, BAD_BYTE),
    ("/\u{7F}", BAD_BYTE, BAD_BYTE),
    ("/a*", WILD, WILD),
    ("/***", WILD, WILD),
    ("/*/b", WILD, WILD),
    ("/**/*", WILD, WILD),
    ("/a/*", WILD, None),
    ("/*", WILD, None),
    ("/**", WILD, None),
];

// Texts at the limits: a part, how often it follows a slash, and an end, with its faults.
const EDGES: [(&str, usize, &str, Option<NameError>, Option<NameError>); 8] = [
    ("a", 255, "", None, None),
    ("a", 256, "", TOO_LONG, TOO_LONG),
    ("a/", 31, "a", None, None),
    ("a/", 32, "a", TOO_DEEP, TOO_DEEP),
    ("a/", 31, "**", WILD, None),
    ("a/", 32, "*", WILD, TOO_DEEP),
    ("aaaaaaaaa/", 25, "aaaaaaaaa", TOO_LONG, TOO_LONG),
    ("a", 255, "*", WILD, WILD),
];

// Checks which texts are channel names and patterns, and the faults of the others.
#[test]
fn names_and_patterns(rt: HostRuntime) -> Result<(), Fail> {
    for (text, name, pattern) in &TEXTS {
        same(
            &rt,
            (name_fault(*text), pattern_fault(*text)),
            (*name, *pattern),
            *text,
        );
    }
    for (part, count, end, name, pattern) in &EDGES {
        let parts = part.repeat(rt.alloc(), *count)?;
        let text = format!(in rt.alloc(); "/{parts}{end}")?;
        let faults = (name_fault(text.as_str()), pattern_fault(text.as_str()));
        same(&rt, faults, (*name, *pattern), (*part, *count));
    }
    Ok(())
}

// Returns `true` if `pattern` matches `name`.
fn is_match(alloc: Global, pattern: &str, name: &str) -> Result<bool, NameError> {
    let name = ChannelName::read(alloc, name)?;
    let pattern = Pattern::read(alloc, pattern)?;
    Ok(matches(&pattern, &name))
}

// Patterns and names, each with whether the pattern matches the name.
const MATCHES: [(&str, &str, bool); 14] = [
    ("/foo/*", "/foo/bar", true),
    ("/foo/*", "/foo", false),
    ("/foo/*", "/foobar", false),
    ("/foo/*", "/foo/bar/boo", false),
    ("/foo/**", "/foo/bar", true),
    ("/foo/**", "/foo/bar/boo", true),
    ("/foo/**", "/foo", false),
    ("/foo/**", "/foobar/x", false),
    ("/**", "/a", true),
    ("/**", "/a/b", true),
    ("/*", "/a/b", false),
    ("/a", "/a", true),
    ("/a", "/a/b", false),
    ("/a/b", "/a", false),
];

// Checks which patterns match which names.
#[test]
fn matching(rt: HostRuntime) -> Result<(), Fail> {
    for (pattern, name, answer) in &MATCHES {
        let is_match = is_match(rt.alloc(), *pattern, *name)?;
        same(&rt, is_match, *answer, (*pattern, *name));
    }
    Ok(())
}

// Checks which channels are meta, service and broadcast channels.
#[test]
fn kinds(rt: HostRuntime) {
    for (text, kind) in [
        ("/meta/x", ChannelKind::Meta),
        ("/meta/", ChannelKind::Meta),
        ("/meta/*", ChannelKind::Meta),
        ("/service/x", ChannelKind::Service),
        ("/meta", ChannelKind::Broadcast),
        ("/service", ChannelKind::Broadcast),
        ("/metal/x", ChannelKind::Broadcast),
        ("/a/meta/x", ChannelKind::Broadcast),
    ] {
        same(&rt, kind_of(text), kind, text);
    }
}

// Checks the text of the fault of a name with a star.
#[test]
fn faults_have_texts(rt: HostRuntime) -> Result<(), Fail> {
    let shown = format!(in rt.alloc(); "{}", NameError::Wild)?;
    let wanted = "the name has a star out of place";
    same(&rt, shown.as_str(), wanted, "a star");
    Ok(())
}
