//! Equality of trees: structural, so that two values are equal exactly if they are the same tree.

ghost use Rattle.std.specs.Prelude.{◌≡◌, ◌↔◌, IsTrue, map, chars, string_bytes, option_map, ◌&&◌, nat_eq, ℕ};
ghost use Rattle.std.specs.Cmp.{on_per, on_equiv, partial_equiv_from_equiv};
ghost use Rattle.fancy_regex_tree.specs.Tree.{tree_of, absent_tree_of, ast_tree_of, target_of, trees};
ghost use Rattle.fancy_regex_tree.specs.Equal.{same_list, same_look, same_verb, same_assertion, same_target, same_name, same_tree, same_trees};
ghost use Rattle.fancy_regex_tree.specs.EqualLaws.{targets_equiv, trees_equiv};

use crate::expr::{
    Absent, Assertion, AstNode, BacktrackingControlVerb, CaptureGroupTarget, Expr, LookAround,
};

impl PartialEq for CaptureGroupTarget {
    ghost eq = { λ a b. same_target (target_of a) (target_of b) };

    ghost laws = { on_per target_of (partial_equiv_from_equiv targets_equiv) };

    /// Whether both name a group by the same number, the same name or the same distance.
    fn eq(&self, other: &CaptureGroupTarget) -> bool
        ensures value { result ≡ same_target (target_of self.now) (target_of other.now) }
        ensures exact { IsTrue result ↔ (target_of self.now ≡ target_of other.now) }
    {
        same_target(self, other)
    }
}

impl Eq for CaptureGroupTarget {
    ghost laws = { on_equiv target_of targets_equiv };
}

/// Whether two texts are equal.
fn same_text(a: &str, b: &str) -> bool
    ensures { result ≡ same_list (chars a.now) (chars b.now) }
{
    a.as_bytes() == b.as_bytes()
}

/// Whether two groups have equal names, or both none.
fn same_name(a: &Option<String>, b: &Option<String>) -> bool
    ensures { result ≡ same_name (option_map (λ s. chars (string_bytes s)) a.now) (option_map (λ s. chars (string_bytes s)) b.now) }
{
    match (a, b) {
        (Some(a), Some(b)) => same_text(a, b),
        (None, None) => true,
        _ => false,
    }
}

/// Whether two look-arounds are of the same kind.
fn same_look(a: LookAround, b: LookAround) -> bool
    ensures { result ≡ same_look a b }
{
    a == b
}

/// Whether two control verbs are the same.
fn same_verb(a: BacktrackingControlVerb, b: BacktrackingControlVerb) -> bool
    ensures { result ≡ same_verb a b }
{
    a == b
}

/// Whether two assertions are the same, with the same flags.
fn same_assertion(a: Assertion, b: Assertion) -> bool
    ensures { result ≡ same_assertion a b }
{
    a == b
}

/// Whether two targets are equal.
fn same_target(a: &CaptureGroupTarget, b: &CaptureGroupTarget) -> bool
    ensures { result ≡ same_target (target_of a.now) (target_of b.now) }
{
    match a {
        CaptureGroupTarget::ByNumber(number) => match b {
            CaptureGroupTarget::ByNumber(other) => number == other,
            _ => false,
        },
        CaptureGroupTarget::ByName(name) => match b {
            CaptureGroupTarget::ByName(other) => same_text(name, other),
            _ => false,
        },
        CaptureGroupTarget::Relative(distance) => match b {
            CaptureGroupTarget::Relative(other) => distance == other,
            _ => false,
        },
    }
}

impl PartialEq for Absent {
    ghost eq = { λ a b. same_tree (absent_tree_of a) (absent_tree_of b) };

    ghost laws = { on_per absent_tree_of (partial_equiv_from_equiv trees_equiv) };

    /// Whether both are the same operator over equal trees.
    fn eq(&self, other: &Absent) -> bool
        ensures value { result ≡ same_tree (absent_tree_of self.now) (absent_tree_of other.now) }
        ensures exact { IsTrue result ↔ (absent_tree_of self.now ≡ absent_tree_of other.now) }
    {
        same_absent(self, other)
    }
}

impl Eq for Absent {
    ghost laws = { on_equiv absent_tree_of trees_equiv };
}

impl PartialEq for AstNode {
    ghost eq = { λ a b. same_tree (ast_tree_of a 0) (ast_tree_of b 0) };

    ghost laws = { on_per (λ a. ast_tree_of a 0) (partial_equiv_from_equiv trees_equiv) };

    /// Whether both are equal but for their byte offsets, which `Expr::AstNode` holds.
    fn eq(&self, other: &AstNode) -> bool
        ensures value { result ≡ same_tree (ast_tree_of self.now 0) (ast_tree_of other.now 0) }
        ensures exact { IsTrue result ↔ (ast_tree_of self.now 0 ≡ ast_tree_of other.now 0) }
    {
        same_node(self, other)
    }
}

impl Eq for AstNode {
    ghost laws = { on_equiv (λ a. ast_tree_of a 0) trees_equiv };
}

impl PartialEq for Expr {
    ghost eq = { λ a b. same_tree (tree_of a) (tree_of b) };

    ghost laws = { on_per tree_of (partial_equiv_from_equiv trees_equiv) };

    /// Whether both trees have the same nodes, with equal fields; byte offsets of unresolved nodes included.
    fn eq(&self, other: &Expr) -> bool
        ensures value { result ≡ same_tree (tree_of self.now) (tree_of other.now) }
        ensures exact { IsTrue result ↔ (tree_of self.now ≡ tree_of other.now) }
    {
        same_expr(self, other)
    }
}

impl Eq for Expr {
    ghost laws = { on_equiv tree_of trees_equiv };
}

/// Whether two lists of trees are equal.
#[cycle(equal)]
fn same_exprs(a: &[Expr], b: &[Expr]) -> bool
    ensures { result ≡ same_trees (trees (map tree_of a.now)) (trees (map tree_of b.now)) }
{
    if a.len() != b.len() {
        return false;
    }
    for i in 0..a.len() {
        if !same_expr(&a[i], &b[i]) {
            return false;
        }
    }
    true
}

/// Whether two absent operators are equal.
#[cycle(equal)]
fn same_absent(a: &Absent, b: &Absent) -> bool
    ensures { result ≡ same_tree (absent_tree_of a.now) (absent_tree_of b.now) }
{
    match a {
        Absent::Repeater(child) => match b {
            Absent::Repeater(other) => same_expr(child, other),
            Absent::Expression { .. } | Absent::Stopper(_) | Absent::Clear => false,
        },
        Absent::Expression { absent, exp } => match b {
            Absent::Expression {
                absent: other,
                exp: other_exp,
            } => same_expr(absent, other) && same_expr(exp, other_exp),
            Absent::Repeater(_) | Absent::Stopper(_) | Absent::Clear => false,
        },
        Absent::Stopper(child) => match b {
            Absent::Stopper(other) => same_expr(child, other),
            Absent::Repeater(_) | Absent::Expression { .. } | Absent::Clear => false,
        },
        Absent::Clear => matches!(b, Absent::Clear),
    }
}

/// Whether two unresolved nodes are equal, whatever their byte offsets.
#[cycle(equal)]
fn same_node(a: &AstNode, b: &AstNode) -> bool
    ensures { (p q : ℕ) → (result && nat_eq p q) ≡ same_tree (ast_tree_of a.now p) (ast_tree_of b.now q) }
{
    match a {
        AstNode::AstGroup { name, inner } => match b {
            AstNode::AstGroup {
                name: other_name,
                inner: other,
            } => same_name(name, other_name) && same_expr(inner, other),
            AstNode::Backref { .. }
            | AstNode::SubroutineCall(_)
            | AstNode::BackrefExistsCondition { .. } => false,
        },
        AstNode::Backref {
            target,
            casei,
            relative_recursion_level,
        } => match b {
            AstNode::Backref {
                target: other,
                casei: other_casei,
                relative_recursion_level: other_level,
            } => {
                same_target(target, other)
                    && casei == other_casei
                    && relative_recursion_level == other_level
            }
            AstNode::AstGroup { .. }
            | AstNode::SubroutineCall(_)
            | AstNode::BackrefExistsCondition { .. } => false,
        },
        AstNode::SubroutineCall(target) => match b {
            AstNode::SubroutineCall(other) => same_target(target, other),
            AstNode::AstGroup { .. }
            | AstNode::Backref { .. }
            | AstNode::BackrefExistsCondition { .. } => false,
        },
        AstNode::BackrefExistsCondition {
            target,
            relative_recursion_level,
        } => match b {
            AstNode::BackrefExistsCondition {
                target: other,
                relative_recursion_level: other_level,
            } => same_target(target, other) && relative_recursion_level == other_level,
            AstNode::AstGroup { .. } | AstNode::Backref { .. } | AstNode::SubroutineCall(_) =>
                false,
        },
    }
}

/// Whether two trees are equal.
#[cycle(equal)]
fn same_expr(a: &Expr, b: &Expr) -> bool
    ensures { result ≡ same_tree (tree_of a.now) (tree_of b.now) }
{
    match a {
        Expr::Empty => matches!(b, Expr::Empty),
        Expr::Any { newline, crlf } => match b {
            Expr::Any {
                newline: other_newline,
                crlf: other_crlf,
            } => newline == other_newline && crlf == other_crlf,
            _ => false,
        },
        Expr::Assertion(assertion) => match b {
            Expr::Assertion(other) => same_assertion(*assertion, *other),
            _ => false,
        },
        Expr::GeneralNewline { unicode } => match b {
            Expr::GeneralNewline { unicode: other } => unicode == other,
            _ => false,
        },
        Expr::Literal { val, casei } => match b {
            Expr::Literal {
                val: other,
                casei: other_casei,
            } => same_text(val, other) && casei == other_casei,
            _ => false,
        },
        Expr::LiteralBytes { bytes } => match b {
            Expr::LiteralBytes { bytes: other } => bytes == other,
            _ => false,
        },
        Expr::Concat(children) => match b {
            Expr::Concat(others) => same_exprs(children, others),
            _ => false,
        },
        Expr::Alt(children) => match b {
            Expr::Alt(others) => same_exprs(children, others),
            _ => false,
        },
        Expr::Group(child) => match b {
            Expr::Group(other) => same_expr(child, other),
            _ => false,
        },
        Expr::LookAround(child, look) => match b {
            Expr::LookAround(other, other_look) => {
                same_expr(child, other) && same_look(*look, *other_look)
            }
            _ => false,
        },
        Expr::Repeat {
            child,
            lo,
            hi,
            greedy,
        } => match b {
            Expr::Repeat {
                child: other,
                lo: other_lo,
                hi: other_hi,
                greedy: other_greedy,
            } => {
                same_expr(child, other)
                    && lo == other_lo
                    && hi == other_hi
                    && greedy == other_greedy
            }
            _ => false,
        },
        Expr::Delegate { inner, casei } => match b {
            Expr::Delegate {
                inner: other,
                casei: other_casei,
            } => same_text(inner, other) && casei == other_casei,
            _ => false,
        },
        Expr::Backref { group, casei } => match b {
            Expr::Backref {
                group: other,
                casei: other_casei,
            } => group == other && casei == other_casei,
            _ => false,
        },
        Expr::BackrefWithRelativeRecursionLevel {
            group,
            relative_level,
            casei,
        } => match b {
            Expr::BackrefWithRelativeRecursionLevel {
                group: other,
                relative_level: other_level,
                casei: other_casei,
            } => group == other && relative_level == other_level && casei == other_casei,
            _ => false,
        },
        Expr::AtomicGroup(child) => match b {
            Expr::AtomicGroup(other) => same_expr(child, other),
            _ => false,
        },
        Expr::KeepOut => matches!(b, Expr::KeepOut),
        Expr::ContinueFromPreviousMatchEnd => matches!(b, Expr::ContinueFromPreviousMatchEnd),
        Expr::BackrefExistsCondition {
            group,
            relative_recursion_level,
        } => match b {
            Expr::BackrefExistsCondition {
                group: other,
                relative_recursion_level: other_level,
            } => group == other && relative_recursion_level == other_level,
            _ => false,
        },
        Expr::Conditional {
            condition,
            true_branch,
            false_branch,
        } => match b {
            Expr::Conditional {
                condition: other,
                true_branch: other_true,
                false_branch: other_false,
            } => {
                same_expr(condition, other)
                    && same_expr(true_branch, other_true)
                    && same_expr(false_branch, other_false)
            }
            _ => false,
        },
        Expr::SubroutineCall(group) => match b {
            Expr::SubroutineCall(other) => group == other,
            _ => false,
        },
        Expr::BacktrackingControlVerb(verb) => match b {
            Expr::BacktrackingControlVerb(other) => same_verb(*verb, *other),
            _ => false,
        },
        Expr::Absent(absent) => match b {
            Expr::Absent(other) => same_absent(absent, other),
            _ => false,
        },
        Expr::DefineGroup { definitions } => match b {
            Expr::DefineGroup { definitions: other } => same_expr(definitions, other),
            _ => false,
        },
        Expr::AstNode(node, position) => match b {
            Expr::AstNode(other, other_position) => {
                same_node(node, other) && position == other_position
            }
            _ => false,
        },
    }
}
