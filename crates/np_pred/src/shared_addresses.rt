//! Addresses that predicates share.

ghost use Rattle.std.specs.Prelude.{◌≡◌, IfOk};

use np_space::Ternary;
use sqlite_items::Items;
use std::alloc::{AllocError, Global};
use std::marker::Model;
use std::sync::Arc;

/// Patterns of addresses. Each predicate that names an area has a share of the same patterns, so that none is copied.
#[derive(Debug, Drop)]
pub struct Addresses {
    patterns: Arc<Items<Ternary>>,
}

impl Model for Addresses {
    ghost use Rattle.std.specs.Prelude.{List};
    ghost use Rattle.np_space.specs.declared.patterns.Ternary.{Ternary};

    ghost Value = { List Ternary };

    ghost view = { λ addresses. addresses.patterns.value };
}

impl Addresses {
    /// These patterns. Fails only for want of memory.
    pub fn of(alloc: Global, patterns: Items<Ternary>) -> Result<Addresses, AllocError>
        ensures { IfOk result (λ addresses. addresses ≡ patterns) }
    {
        let patterns = Arc::new(alloc, patterns)?;
        Ok(Addresses { patterns })
    }

    /// A share of the same patterns. Fails only where there are 2^63 shares.
    pub fn share(&self) -> Result<Addresses, AllocError>
        ensures { IfOk result (λ addresses. addresses ≡ self.now) }
    {
        let patterns = self.patterns.clone()?;
        Ok(Addresses { patterns })
    }

    /// The patterns, in their order.
    pub fn as_slice(&self) -> &[Ternary]
        ensures { result.now ≡ self.now }
    {
        self.patterns.as_slice()
    }
}
