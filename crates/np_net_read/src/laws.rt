//! Laws of the definitions that the contracts of this crate cite. A function here does nothing:
//! its contract is the law.

ghost use Rattle.std.specs.Prelude.{◌≡◌, ℕ, List, Ok};
ghost use Rattle.np_net.specs.Plan.{Plan};
ghost use Rattle.np_net_read.specs.Reading.{net_of};
ghost use Rattle.np_net_read.specs.Statements.{TablesAreFilters};

/// The table of each interface is the filter of all statements of the text that is read: its pop
/// rules are those of the `pop` lines that name the interface, in their order, its inward rules
/// those of the `inrule` lines, and its outward rules those of the `outrule` lines.
#[tactic(auto, using(crate::proofs::FilterLaws::all_filtered))]
pub fn tables_are_filters()
    ensures { (text : List ℕ) (net : Plan) → net_of text ≡ Ok net → TablesAreFilters text net }
{}
