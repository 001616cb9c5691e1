//! What a run reads.

use fancy_regex_class::RunInput;
use fancy_regex_plan::Plan;
use fancy_regex_program::Insn;
use fancy_regex_shapes::shapes::Shapes;

/// What a run reads: the program, the text, where a match may start and end, and which matches are admitted. Offsets are byte
/// offsets. It does not change while the run lasts.
#[derive(Clone, Copy)]
pub struct RunContext<'r> {
    /// The instructions.
    pub body: &'r [Insn],
    /// For each ASCII character, whether a match may start before it.
    pub ascii_starts: &'r [bool; 128],
    /// What is known of the program, by the characters around a place.
    pub plan: &'r Plan,
    /// What the program is.
    pub shapes: &'r Shapes,
    /// The first start from which it pays to walk.
    pub walks_from: usize,
    /// The whole text.
    pub text: &'r str,
    /// Where a match may start and end, and what assertions see of the text.
    pub input: &'r RunInput,
    /// A prefilter: the entry of a byte says whether a match may start before it; `None` for no prefilter.
    pub seek: Option<&'r [bool; 256]>,
    /// Whether a match may start at the first start only.
    pub anchored: bool,
    /// Whether word characters and case folding follow Unicode, instead of ASCII.
    pub unicode: bool,
    /// Whether leftmost-longest matching is wanted, instead of leftmost-first.
    pub longest: bool,
    /// Whether empty matches are refused.
    pub find_not_empty: bool,
}
