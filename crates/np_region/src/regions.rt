//! What a store of regions owes.

ghost use Rattle.std.specs.Prelude.{◌≡◌, ◌↔◌, Bool, false, ◌&&◌, ◌||◌, not, IsTrue, IsNone, IfSome, IfOk};
ghost use Rattle.np_space.specs.Header.{is_valid_header, IsValid, IsLeast};
ghost use Rattle.np_space.specs.Block.{address_number, block_has};
ghost use Rattle.np_space.specs.Patterns.{any_pattern_has};
ghost use Rattle.np_space.specs.declared.headers.Header.{Header};
ghost use Rattle.np_region.specs.Keeping.{KeepsRegions};

use np_space::{AddressField, Block, Header, Ternary};
use std::alloc::AllocError;

/// A store of regions: sets of valid headers that are made of blocks and of one another (Guttman and
/// Herzog 2005, where a set of packets is a union of such blocks).
///
/// A region means something together with the store that gave it. Every call, one that fails
/// included, leaves each region that fitted the store fitting it, with the headers that it had. A
/// region may be dropped at any time. The calls that may fail do so only for want of memory.
pub trait Regions {
    /// A region.
    type R: Drop;

    /// Whether the region belongs to the store.
    ghost fits: { Self → Self.R → Type 0 };

    /// Whether the region has the header, as the store keeps it.
    ghost has_header: { Self → Self.R → Header → Bool };

    /// The region without headers.
    fn none(&mut self) -> Self::R
        ensures kept { KeepsRegions fits has_header self.old self.new }
        ensures fits { fits self.new result }
        ensures exact { (h : Header) → has_header self.new result h ≡ false };

    /// The region of all valid headers.
    fn whole(&mut self) -> Result<Self::R, AllocError>
        ensures kept { KeepsRegions fits has_header self.old self.new }
        ensures fits { IfOk result (λ x. fits self.new x) }
        ensures exact { IfOk result (λ x. (h : Header) → has_header self.new x h ≡ is_valid_header h) };

    /// The valid headers that the block has.
    fn of_block(&mut self, block: &Block) -> Result<Self::R, AllocError>
        ensures kept { KeepsRegions fits has_header self.old self.new }
        ensures fits { IfOk result (λ x. fits self.new x) }
        ensures exact { IfOk result (λ x. (h : Header) → has_header self.new x h ≡ (is_valid_header h && block_has block.now h)) };

    /// The valid headers whose address of this kind is in one of the patterns, which may be many: as an
    /// area's sources are. The patterns may stand in any order, overlap and be repeated; of no pattern it
    /// is the region without headers.
    fn of_addresses(
        &mut self,
        field: AddressField,
        patterns: &[Ternary],
    ) -> Result<Self::R, AllocError>
        ensures kept { KeepsRegions fits has_header self.old self.new }
        ensures fits { IfOk result (λ x. fits self.new x) }
        ensures exact { IfOk result (λ x. (h : Header) → has_header self.new x h ≡ (is_valid_header h && any_pattern_has patterns.now (address_number field h))) };

    /// The headers that both regions have.
    fn meet(&mut self, x: &Self::R, y: &Self::R) -> Result<Self::R, AllocError>
        requires first { fits self.old x.now }
        requires second { fits self.old y.now }
        ensures kept { KeepsRegions fits has_header self.old self.new }
        ensures fits { IfOk result (λ z. fits self.new z) }
        ensures exact { IfOk result (λ z. (h : Header) → has_header self.new z h ≡ (has_header self.old x.now h && has_header self.old y.now h)) };

    /// The headers that the first region has and the second hasn't.
    fn minus(&mut self, x: &Self::R, y: &Self::R) -> Result<Self::R, AllocError>
        requires first { fits self.old x.now }
        requires second { fits self.old y.now }
        ensures kept { KeepsRegions fits has_header self.old self.new }
        ensures fits { IfOk result (λ z. fits self.new z) }
        ensures exact { IfOk result (λ z. (h : Header) → has_header self.new z h ≡ (has_header self.old x.now h && not (has_header self.old y.now h))) };

    /// The headers that one of the regions has, or both.
    fn join(&mut self, x: &Self::R, y: &Self::R) -> Result<Self::R, AllocError>
        requires first { fits self.old x.now }
        requires second { fits self.old y.now }
        ensures kept { KeepsRegions fits has_header self.old self.new }
        ensures fits { IfOk result (λ z. fits self.new z) }
        ensures exact { IfOk result (λ z. (h : Header) → has_header self.new z h ≡ (has_header self.old x.now h || has_header self.old y.now h)) };

    /// Another region with the same headers.
    fn copy(&mut self, x: &Self::R) -> Result<Self::R, AllocError>
        requires { fits self.old x.now }
        ensures kept { KeepsRegions fits has_header self.old self.new }
        ensures fits { IfOk result (λ z. fits self.new z) }
        ensures exact { IfOk result (λ z. (h : Header) → has_header self.new z h ≡ has_header self.old x.now h) };

    /// Whether the region has no header.
    fn is_empty(&self, x: &Self::R) -> bool
        requires { fits self.now x.now }
        ensures { IsTrue result ↔ ((h : Header) → has_header self.now x.now h ≡ false) };

    /// The least header of the region by `order`; `None` exactly where it has none.
    fn least(&self, x: &Self::R) -> Option<Header>
        requires { fits self.now x.now }
        ensures none { IsNone result ↔ ((h : Header) → has_header self.now x.now h ≡ false) }
        ensures some { IfSome result (λ h. IsLeast (has_header self.now x.now) h) };

    /// Whether the region has the header; false for a header that isn't valid.
    fn has(&self, x: &Self::R, h: &Header) -> bool
        requires { fits self.now x.now }
        ensures { result ≡ has_header self.now x.now h.now };

    /// A region has no header but valid ones.
    ghost only_valid: { (s : Self) (x : Self.R) (h : Header) → fits s x → IsTrue (has_header s x h) → IsValid h };
}
