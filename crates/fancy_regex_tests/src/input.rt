//! Inputs, character boundaries and matches.

use fancy_regex_input::{Input, Match, RegexInput, next_boundary, previous_boundary};
use std::alloc::{AllocError, Global};
use std::ops::Range;
use std::test::Fail;

/// The match of the first character of an input; `None` where the input is empty.
fn first_character<S: Input>(input: S) -> Option<S::Match> {
    if input.is_empty() {
        return None;
    }
    if !input.is_char_boundary(0) {
        return None;
    }
    let end = input.advance_position(0);
    if end > input.len() {
        return None;
    }
    Some(input.make_match(0, end))
}

/// Whether a match of `é` tells its text and its place, which are these.
fn tells_its_place(found: Match<'_>) -> bool {
    let text: &str = found.into();
    let range: Range<usize> = found.into();
    let is_placed = found.start() == 1 && found.end() == 3 && range == found.range();
    is_placed && found.as_str() == "é" && text == "é"
}

#[test]
fn matches_lie_between_boundaries(rt: HostRuntime) {
    let is_walked = next_boundary("aé", 1) == 3 && next_boundary("aé", 3) == 4;
    let is_walked_back = previous_boundary("aé", 3) == 1;
    assert!(rt; is_walked && is_walked_back && tells_its_place(Match::new("aéb", 1, 3)));
}

/// Whether a borrowed text and a borrowed string are inputs.
fn are_inputs(alloc: Global) -> Result<bool, AllocError> {
    let is_found = first_character("éa") == Some(Match::new("éa", 0, 2));
    let text = String::from_str(alloc, "éa")?;
    let input = &text;
    Ok(is_found && input.prev_codepoint_ix(2) == 0 && !Input::is_ascii(&input))
}

/// Whether the setters of an input change one thing each.
fn sets_one_thing() -> Result<bool, AllocError> {
    let input = RegexInput::from("aéb")
        .from_pos(1)
        .range(0..3)
        .anchored(true);
    let is_placed = input.start() == 1 && input.get_range() == (0..3);
    let is_begun = input.effective_start() == 1 && !input.is_done() && input.haystack() == "aéb";
    let input = input
        .start_text(false)
        .end_text(false)
        .continue_from_previous_match_end(false);
    let copy = input.clone()?;
    let config = copy.run_input();
    let is_cut = config.no_start_text && config.no_end_text && config.continue_at.is_none();
    Ok(is_placed && is_begun && config.anchored && is_cut)
}

#[test]
fn inputs_are_texts_with_setters(rt: HostRuntime) -> Result<(), Fail> {
    let are_inputs = are_inputs(rt.alloc())?;
    assert!(rt; are_inputs && sets_one_thing()?);
    Ok(())
}
