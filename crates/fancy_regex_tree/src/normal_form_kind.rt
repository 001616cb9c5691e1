//! The kind of the tree that a printed tree is parsed as: whether a quantifier may follow it.

ghost use Rattle.std.specs.Prelude.{◌≡◌, map};
ghost use Rattle.fancy_regex_tree.specs.Tree.{tree_of, trees};
ghost use Rattle.fancy_regex_tree.specs.NormalForm.{node_kind, normal_form, normal_pieces, row_of};
ghost use Rattle.fancy_regex_tree.specs.NormalFormKinds.{followed_by};

use crate::expr::Expr;

/// The kind of node that the printed text of a tree is parsed as, as far as concatenation and quantifiers need it.
#[derive(Clone, Copy, Debug, PartialEq, Eq)]
pub enum NormalFormKind {
    /// `Expr::Empty`, which a concatenation leaves out and no quantifier may follow.
    Empty,
    /// An assertion, which no quantifier may follow.
    Anchor,
    /// Any other node; a quantifier may follow it.
    Repeatable,
}

impl NormalFormKind {
    /// The kind of a concatenation of a node of this kind and one of the kind `next`.
    #[tactic(auto, unfolding(crate::specs::NormalFormKinds::followed_by))]
    fn followed_by(self, next: NormalFormKind) -> NormalFormKind
        ensures { result ≡ followed_by self next }
    {
        match (self, next) {
            (NormalFormKind::Empty, _) => next,
            (NormalFormKind::Anchor, NormalFormKind::Empty) => NormalFormKind::Anchor,
            (NormalFormKind::Anchor, _) => NormalFormKind::Repeatable,
            (NormalFormKind::Repeatable, _) => NormalFormKind::Repeatable,
        }
    }
}

/// The kind of the tree that the printed text of `expr` is parsed as.
#[cycle(form)]
#[tactic(auto, unfolding(crate::specs::NormalForm::node_kind, crate::specs::NormalForm::normal_form))]
pub fn normal_form_kind(expr: &Expr) -> NormalFormKind
    ensures { result ≡ node_kind (normal_form (tree_of expr.now)) }
{
    match expr {
        Expr::Empty => NormalFormKind::Empty,
        Expr::Assertion(_) => NormalFormKind::Anchor,
        Expr::Concat(pieces) => concat_kind(pieces),
        _ => NormalFormKind::Repeatable,
    }
}

/// The kind of the concatenation that the printed pieces are parsed as.
#[cycle(form)]
fn concat_kind(pieces: &[Expr]) -> NormalFormKind
    ensures { result ≡ node_kind (row_of (normal_pieces (trees (map tree_of pieces.now)))) }
{
    let mut row = NormalFormKind::Empty;
    for i in 0..pieces.len() {
        row = row.followed_by(normal_form_kind(&pieces[i]));
    }
    row
}
