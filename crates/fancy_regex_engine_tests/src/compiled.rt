//! The programs that are tested.

use fancy_regex_analysis::analyze;
use fancy_regex_compiled::Prog;
use fancy_regex_compiler::compile;
use fancy_regex_info::{AnalyzeContext, CompileOptions};
use fancy_regex_tree::Expr;
use std::alloc::Global;

/// A pattern or a text of a table.
pub type Text = &'static str;

/// Compiles a pattern with these options. With `explicit` the first capture group that is written is group 0. `None` for a pattern
/// that is refused.
pub fn program(
    alloc: Global,
    pattern: &str,
    explicit: bool,
    options: &CompileOptions,
) -> Option<Prog> {
    let context = AnalyzeContext {
        explicit_capture_group_0: explicit,
        find_not_empty: false,
    };
    let tree = Expr::parse_tree(alloc, pattern).ok()?;
    let info = analyze(alloc, &tree, context).ok()?;
    compile(alloc, &info, options).ok()
}
