//! Options of compilation and analysis.

ghost use Rattle.std.specs.Prelude.{◌≡◌};

/// How the bytes of a haystack are interpreted.
///
/// ```
/// let mut builder = RegexBuilder::new(alloc, "a")?;
/// assert!(rt; builder.bytes_mode(BytesMode::Unicode).build(alloc).is_ok());
/// assert!(rt; builder.bytes_mode(BytesMode::Ascii).build(alloc).is_err());
/// ```
#[derive(Clone, Copy, Debug, PartialEq, Eq)]
pub enum BytesMode {
    /// Haystacks are UTF-8.
    Unicode,
    /// Kept for compatibility; compilation refuses it.
    Ascii,
    /// Kept for compatibility; compilation refuses it.
    UnicodeBytes,
}

impl Default for BytesMode {
    ghost use Rattle.fancy_regex_info.specs.declared.options.BytesMode.TheVariants.{Unicode};

    ghost is_default = { λ mode. mode ≡ Unicode };

    /// Haystacks are UTF-8.
    fn default() -> BytesMode {
        BytesMode::Unicode
    }
}

/// Options of compilation.
#[derive(Clone, Copy, Debug, PartialEq, Eq)]
pub struct CompileOptions {
    /// A match must start where the search starts.
    pub anchored: bool,
    /// The pattern contains subroutine calls.
    pub contains_subroutines: bool,
    /// How the bytes of a haystack are interpreted.
    pub bytes_mode: BytesMode,
    /// Classes and case folding are those of Unicode; without, those of ASCII.
    pub unicode: bool,
    /// The greatest number of instructions of a program; `None` means no limit.
    pub max_prog_size: Option<usize>,
    /// Report the longest match at the leftmost start, and not the first by preference.
    pub leftmost_longest: bool,
}

impl Default for CompileOptions {
    ghost use Rattle.fancy_regex_info.specs.Defaults.{default_compile_options};

    ghost is_default = { λ options. options ≡ default_compile_options };

    /// Not anchored, no calls, Unicode, no program limit, leftmost-first matches.
    fn default() -> CompileOptions {
        CompileOptions {
            anchored: false,
            contains_subroutines: false,
            bytes_mode: BytesMode::Unicode,
            unicode: true,
            max_prog_size: None,
            leftmost_longest: false,
        }
    }
}

/// Options of the analysis. The default is neither; a caller of the analysis may ask for one of them, and not for both.
#[derive(Clone, Copy, Debug, PartialEq, Eq, Default)]
pub struct AnalyzeContext {
    /// The first capture group written in the pattern is group 0; no group stands for the whole match.
    pub explicit_capture_group_0: bool,
    /// Empty matches are excluded; a pattern that has no other is refused.
    pub find_not_empty: bool,
}
