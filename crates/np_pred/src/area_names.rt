//! The areas that predicates name.

ghost use Rattle.std.specs.Prelude.{◌≡◌, ◌++◌, ◌∷◌, [], None, IfOk, IfSome, OnOk, OnErr, IsTrue};
ghost use Rattle.np_pred.specs.Patterns.{are_prefixes};
ghost use Rattle.np_pred.specs.Areas.{sources_named};

use crate::shared_addresses::Addresses;
use indexmap::IndexMap;
use np_space::Ternary;
use np_text::Name;
use sqlite_items::Items;
use std::alloc::{AllocError, Global};
use std::marker::Model;

/// The names of areas, each with its source addresses, in the order in which they were added.
/// Each pattern is a prefix.
#[derive(Drop)]
pub struct Areas {
    sources: IndexMap<Name, Addresses>,
}

impl Model for Areas {
    ghost use Rattle.std.specs.Prelude.{List, ℕ};
    ghost use Rattle.np_space.specs.declared.patterns.Ternary.{Ternary};
    ghost use Rattle.np_pred.specs.Areas.{AreSourcesPrefixes};

    ghost Value = { List (List ℕ × List Ternary) };

    ghost view = { λ areas. areas.sources.entries };

    ghost invariant = { λ areas. AreSourcesPrefixes areas.sources.entries };
}

impl Areas {
    /// No areas.
    pub fn new(alloc: Global) -> Areas
        ensures { result ≡ [] }
    {
        Areas {
            sources: IndexMap::new(alloc),
        }
    }

    /// Adds an area. Where memory runs out, the areas stay as they were.
    pub fn add(
        &mut self,
        alloc: Global,
        name: Name,
        sources: Items<Ternary>,
    ) -> Result<(), AllocError>
        requires new { sources_named self.old name ≡ None }
        requires prefixes { IsTrue (are_prefixes sources) }
        ensures ok { OnOk result (self.new ≡ self.old ++ (name, sources) ∷ []) }
        ensures err { OnErr result (self.new ≡ self.old) }
    {
        let sources = Addresses::of(alloc, sources)?;
        self.sources.insert(name, sources)?;
        Ok(())
    }

    /// A share of the sources of the area with this name. `Ok(None)` where there is none.
    pub fn sources(&self, alloc: Global, name: &[u8]) -> Result<Option<Addresses>, AllocError>
        ensures sources { IfOk result (λ found. found ≡ sources_named self.now name.now) }
        ensures prefixes { IfOk result (λ found. IfSome found (λ patterns. IsTrue (are_prefixes patterns))) }
    {
        let name = Name::of(alloc, name)?;
        match self.sources.get(&name) {
            Some(sources) => Ok(Some(sources.share()?)),
            None => Ok(None),
        }
    }
}
