//! The syntax tree of a regular expression: its type `Expr`, the parser, the printer and traversals.
//!
//! A pattern is parsed into an `ExprTree` with `Expr::parse_tree` or `Expr::parse_tree_with_flags`. The answer is the tree that the
//! grammar gives for the text, or the first error with its byte offset, or want of memory. `Expr::to_str` prints a tree.
//!
//! The examples use the names that `fancy_regex` gives these items: its `ExprError` is `Error` here. In them `alloc` is the allocator, and
//! `rt` the runtime.

#![tactic(auto)]

mod child;
mod copy;
mod equal;
mod error;
mod expr;
mod expr_tree;
mod flag_bits;
mod group_names;
mod normal_form_kind;
mod parse;
mod parse_atoms;
mod parse_options;
mod parser;
mod parser_config;
mod print;
mod print_text;
mod print_tokens;
mod printable;
mod quantifiers;
mod reference_summary;
mod resolve;
mod traversal;
mod tree_builders;

pub use error::{Error, ParseErrorPosition, Result};
pub use expr::{
    Absent, Assertion, AstNode, BacktrackingControlVerb, CaptureGroupTarget, Expr, LookAround,
};
pub use expr_tree::{ExprTree, NamedGroups};
pub use fancy_regex_lex::{Flags, ParseError};
pub use flag_bits::{
    FLAG_CASEI, FLAG_CRLF, FLAG_DOTNL, FLAG_IGNORE_NUMBERED_GROUPS_WHEN_NAMED_GROUPS_EXIST,
    FLAG_IGNORE_SPACE, FLAG_MULTI, FLAG_ONIGURUMA_MODE, FLAG_SWAP_GREED, FLAG_UNICODE,
};
pub use parse_options::ParseOptions;
pub use traversal::ExprChildrenIter;
