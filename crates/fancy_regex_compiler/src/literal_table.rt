//! The literals of a program. Instructions of equal ones share their text.

ghost use Rattle.std.specs.Prelude.{◌≡◌, string_bytes, IfOk};

use std::alloc::{AllocError, Global};
use std::sync::Arc;

/// The literals so far, in the order of their texts, no two of them equal.
#[derive(Drop)]
pub(crate) struct LiteralTable {
    literals: Vec<Arc<String>>,
}

impl LiteralTable {
    /// The table without literals.
    pub fn new(alloc: Global) -> LiteralTable {
        LiteralTable {
            literals: Vec::new(alloc),
        }
    }

    /// The literal with this text: the one that is there, or a new one.
    pub fn share(&mut self, alloc: Global, text: String) -> Result<Arc<String>, AllocError>
        ensures { IfOk result (λ literal. string_bytes literal.value ≡ string_bytes text) }
    {
        let wanted = text.as_str();
        let at = self
            .literals
            .partition_point(|known: &Arc<String>| known.as_str() < wanted);
        if let Some(known) = self.literals.get(at) {
            if known.as_str() == wanted {
                return known.clone();
            }
        }
        let literal = Arc::new(alloc, text)?;
        let shared = literal.clone()?;
        self.literals.insert(at, shared)?;
        Ok(literal)
    }
}
