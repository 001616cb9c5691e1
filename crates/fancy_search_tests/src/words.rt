//! What the words on the command line ask for, or why they are refused.

use fancy_search_words::{Arguments, Options, Refusal, Subcommand, read_words};
use std::alloc::Global;

/// Words with all options.
static ALL: [&str; 11] = [
    "captures",
    "-im",
    "--limit",
    "7",
    "(a)",
    "-s",
    "-x",
    "--ascii",
    "--oniguruma",
    "--not-empty",
    "--longest",
];

/// What these ask for.
const ALL_OPTIONS: Options = Options {
    case_insensitive: true,
    multi_line: true,
    dot_matches_new_line: true,
    ignore_whitespace: true,
    ascii: true,
    oniguruma: true,
    not_empty: true,
    longest: true,
    limit: Some(7),
};

/// Whether the arguments are a pattern for `captures` with all options.
fn are_all(asked: &Arguments<'_>) -> bool {
    asked.options == ALL_OPTIONS && matches!(&asked.subcommand, Subcommand::Captures("(a)"))
}

#[test]
fn all_options(rt: HostRuntime) {
    match read_words(rt.alloc(), &ALL) {
        Ok(asked) => assert!(rt; are_all(&asked)),
        Err(_) => panic!(rt; "refused"),
    }
}

/// Words, whether they call for help, and the usage and other parts of the text that tells so or why they are refused.
static TEXTS: [(&[&str], bool, &str, &[&str]); 7] = [
    (
        &["--help"],
        true,
        "Usage: fancy_search <COMMAND>\n",
        &[
            "find",
            "captures",
            "split",
            "replace",
            "print",
            "set",
            "Status:",
            "Examples:",
        ],
    ),
    (
        &["find", "-h"],
        true,
        "Usage: fancy_search find [OPTIONS] <PATTERN>\n",
        &[],
    ),
    (
        &["replace", "-h"],
        true,
        "Usage: fancy_search replace [OPTIONS] <PATTERN> <TEMPLATE>\n",
        &[],
    ),
    (
        &["help", "captures"],
        true,
        "Usage: fancy_search captures [OPTIONS] <PATTERN>\n",
        &[],
    ),
    (
        &["captures", "--help"],
        true,
        "Usage: fancy_search captures [OPTIONS] <PATTERN>\n",
        &[
            "<PATTERN>",
            "-i",
            "-m",
            "-s",
            "-x",
            "--ascii",
            "--oniguruma",
            "--not-empty",
            "--longest",
            "--limit <N>",
            "Example: captures",
        ],
    ),
    (
        &["captures"],
        false,
        "Usage: fancy_search captures <PATTERN>\n",
        &[],
    ),
    (&["seek"], false, "Usage: fancy_search <COMMAND>\n", &[]),
];

/// Whether a text has the usage and all of these parts.
fn has_all(text: &str, usage: &str, parts: &[&str]) -> bool {
    for part in parts {
        if !text.contains(*part) {
            return false;
        }
    }
    text.contains(usage)
}

/// Whether words get such a text.
fn tells(alloc: Global, words: &[&str], is_help: bool, usage: &str, parts: &[&str]) -> bool {
    match read_words(alloc, words) {
        Err(Refusal::Help(text)) => is_help && has_all(&text, usage, parts),
        Err(Refusal::Words(text)) => !is_help && has_all(&text, usage, parts),
        _ => false,
    }
}

#[test]
fn texts_name_the_program_and_tell_all(rt: HostRuntime) {
    for (words, is_help, usage, parts) in TEXTS.iter() {
        assert!(rt; tells(rt.alloc(), words, *is_help, usage, parts), "{usage}");
    }
}
