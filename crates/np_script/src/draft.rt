//! What is kept while a script's text is read.

ghost use Rattle.std.specs.Prelude.{◌≡◌, [], OnOk};
ghost use Rattle.np_script.specs.Saying.{added, draft_of};

use crate::statement::{Start, Statement};
use np_ipsec::Motion;
use sqlite_items::Items;
use std::alloc::{AllocError, Global};

/// What the lines so far say.
#[derive(Debug, Drop)]
pub struct Draft {
    /// The start, once its line is read.
    pub start: Option<Start>,
    pub moves: Items<Motion>,
}

impl Draft {
    /// Before any line is read.
    #[tactic(auto, unfolding(crate::specs::Saying::draft_of))]
    pub fn new(alloc: Global) -> Draft
        ensures { result ≡ draft_of [] }
    {
        Draft {
            start: None,
            moves: Items::new(alloc),
        }
    }

    /// Adds what a statement says.
    pub fn add(&mut self, statement: Statement) -> Result<(), AllocError>
        ensures { OnOk result (self.new ≡ added self.old statement) }
    {
        match statement {
            Statement::Begin(start) => self.start = Some(start),
            Statement::Move(motion) => self.moves.push(motion)?,
        }
        Ok(())
    }
}
