//! The statements of a network's text.

use np_net::{Area, Device, Goal, IfId, InRule, Interface, IpGoal, OutRule, Sa, SaId};

/// What a line declares. Each name that it uses stands for its place among the declarations.
#[derive(Debug, Drop)]
pub enum Statement {
    /// `depth D`
    Depth(u8),
    /// `area NAME ADDRS [trusted]`
    Area(Area),
    /// `device NAME [config FILE] [trusted]`
    Device(Device),
    /// `interface DEV IF AREA`
    Interface(Interface),
    /// `free DEV IF in` or `free DEV IF out`, by the slot.
    Free(u16),
    /// `goal AREA AREA never PRED` or `goal AREA AREA only PRED`
    Goal(Goal),
    /// `sa NAME KIND DEV DEV`
    Sa(Sa),
    /// `pop DEV IF SA`
    Pop { interface: IfId, sa: SaId },
    /// `inrule DEV IF ACTION MARK MATCH`
    InRule { interface: IfId, rule: InRule },
    /// `outrule DEV IF ACTION MATCH`
    OutRule { interface: IfId, rule: OutRule },
    /// `auth AREA AREA PRED` or `conf AREA PRED`
    IpGoal(IpGoal),
}
