//! The flags that a pattern is parsed with, each one bit of a `u32`; all other bits are ignored.

/// Letters match in either case from the start on, as after `(?i)`.
///
/// ```
/// let tree = Expr::parse_tree_with_flags(alloc, "a", FLAG_CASEI)?;
/// assert!(rt; matches!(&tree.expr, Expr::Literal { casei: true, .. }));
/// ```
pub const FLAG_CASEI: u32 = 1;
/// `^` and `$` match at the start and the end of each line, as after `(?m)`.
///
/// ```
/// let tree = Expr::parse_tree_with_flags(alloc, "^", FLAG_MULTI)?;
/// assert!(rt; matches!(&tree.expr, Expr::Assertion(Assertion::StartLine { .. })));
/// ```
pub const FLAG_MULTI: u32 = 1 << 1;
/// A dot also matches a newline, as after `(?s)`.
///
/// ```
/// let tree = Expr::parse_tree_with_flags(alloc, ".", FLAG_DOTNL)?;
/// assert!(rt; matches!(&tree.expr, Expr::Any { newline: true, .. }));
/// ```
pub const FLAG_DOTNL: u32 = 1 << 2;
/// Quantifiers are lazy by default and greedy with a `?` after them, as after `(?U)`.
///
/// ```
/// let tree = Expr::parse_tree_with_flags(alloc, "a+", FLAG_SWAP_GREED)?;
/// assert!(rt; matches!(&tree.expr, Expr::Repeat { greedy: false, .. }));
/// ```
pub const FLAG_SWAP_GREED: u32 = 1 << 3;
/// White space and comments from `#` to the end of the line are skipped, as after `(?x)`.
///
/// ```
/// let tree = Expr::parse_tree_with_flags(alloc, " a ", FLAG_IGNORE_SPACE)?;
/// assert!(rt; matches!(&tree.expr, Expr::Literal { .. }));
/// ```
pub const FLAG_IGNORE_SPACE: u32 = 1 << 4;
/// Character classes are those of Unicode, as with the flag `u`; a pattern cannot change it.
///
/// ```
/// let tree = Expr::parse_tree_with_flags(alloc, r"\R", FLAG_UNICODE)?;
/// assert!(rt; matches!(&tree.expr, Expr::GeneralNewline { unicode: true }));
/// ```
pub const FLAG_UNICODE: u32 = 1 << 5;
/// `\r\n` also ends a line, as after `(?R)`.
///
/// ```
/// let tree = Expr::parse_tree_with_flags(alloc, ".", FLAG_CRLF)?;
/// assert!(rt; matches!(&tree.expr, Expr::Any { crlf: true, .. }));
/// ```
pub const FLAG_CRLF: u32 = 1 << 6;
/// Oniguruma mode: a dialect that is close to Oniguruma's, in which `\<`, `\>`, counts and repeated quantifiers are read as it does.
///
/// ```
/// let tree = Expr::parse_tree_with_flags(alloc, r"\<", FLAG_ONIGURUMA_MODE)?;
/// assert!(rt; matches!(&tree.expr, Expr::Literal { .. }));
/// ```
pub const FLAG_ONIGURUMA_MODE: u32 = 1 << 7;
/// Unnamed groups do not capture if the pattern has a named group.
///
/// ```
/// let flags = FLAG_IGNORE_NUMBERED_GROUPS_WHEN_NAMED_GROUPS_EXIST;
/// let tree = Expr::parse_tree_with_flags(alloc, "(a)(?<b>b)", flags)?;
/// assert!(rt; tree.total_groups == 1);
/// ```
pub const FLAG_IGNORE_NUMBERED_GROUPS_WHEN_NAMED_GROUPS_EXIST: u32 = 1 << 8;
