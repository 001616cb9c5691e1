//! The flags of a search.

/// The flags that a search follows.
#[derive(Clone, Copy)]
pub struct Rules {
    /// Whether word characters and case folding follow Unicode, instead of ASCII.
    pub unicode: bool,
    /// Whether the start-of-text assertion fails at the start of the text.
    pub no_start_text: bool,
    /// Whether the end-of-text assertion fails at the end of the text.
    pub no_end_text: bool,
    /// Whether leftmost-longest matching is wanted, instead of leftmost-first.
    pub longest: bool,
    /// The byte offset at which `\G` holds; `None` where it holds nowhere.
    pub continue_at: Option<usize>,
}
