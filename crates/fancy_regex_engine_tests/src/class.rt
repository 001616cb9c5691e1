//! Tests of class matchers, folding and counted reads.

use fancy_regex_class::{CaseiLiteral, CharClassMatcher, Counted, Steps, is_word};
use std::alloc::Global;

/// A pattern, an ASCII character, and whether it is a member of what the pattern matches. The second pattern is another than a class.
struct Member(&'static str, u8, bool);

static MEMBERS: [Member; 4] = [
    Member("ab|c", b'c', true),
    Member("ab|c", b'a', false),
    Member("[0-9é]", b'0', true),
    Member("[0-9é]", b'/', false),
];

/// Whether the matcher and its table say this of the character.
fn has_member(alloc: Global, row: &Member) -> bool {
    match CharClassMatcher::new(alloc, row.0, false, true) {
        Ok(matcher) => {
            matcher.contains(char::from(row.1)) == row.2
                && matcher.ascii().get(usize::from(row.1)) == Some(&row.2)
        }
        Err(_) => false,
    }
}

#[test]
fn classes_have_members(rt: HostRuntime) {
    let wrong = MEMBERS.iter().position(|row| !has_member(rt.alloc(), row));
    assert_eq!(rt; wrong, None);
}

#[test]
fn characters_fold_and_are_of_words(rt: HostRuntime) {
    let folds = CaseiLiteral::new('ſ', true).matches('S')
        && !CaseiLiteral::new('ſ', false).matches('S')
        && CaseiLiteral::new('s', false).matches('S');
    assert!(rt; folds);
    assert!(rt; is_word('é', true) && !is_word('é', false) && is_word('_', false));
}

#[test]
fn looks_are_counted(rt: HostRuntime) {
    let mut steps = Steps::new();
    let mut text = Counted::new("aé", &mut steps);
    let looks = [text.look(0), text.look(1), text.look(3)];
    let wanted = [(None, Some('a')), (Some('a'), Some('é')), (Some('é'), None)];
    assert!(rt; looks == wanted && steps.count() == 3);
}
