//! Laws of the definitions that the contracts of this crate cite. A function here does nothing:
//! its contract is the law.

ghost use Rattle.std.specs.Prelude.{◌≡◌};
ghost use Rattle.np_net.specs.Limits.{declaration_limit, depth_limit, interface_limit, name_limit, nesting_limit, rule_limit};
ghost use Rattle.np_net.specs.Network.{IsNetwork};
ghost use Rattle.np_net.specs.Naming.{NamesAreFound};
ghost use Rattle.np_net.specs.Plan.{Plan};

/// In each network the name of an item is found, and its number is the item's.
#[tactic(auto, using(crate::proofs::NamingLaws::names_found))]
pub fn names_are_found()
    ensures { (net : Plan) → IsNetwork net → NamesAreFound net }
{}

/// The limits: 256 areas, devices, goals, associations and IPsec goals, each; 1,024 interfaces; 4,096
/// rules; predicates that nest 64 deep; 16 associations on one packet; 64 bytes of a name.
pub fn limits_are_these()
    ensures declarations { declaration_limit ≡ 256 }
    ensures interfaces { interface_limit ≡ 1024 }
    ensures rules { rule_limit ≡ 4096 }
    ensures nesting { nesting_limit ≡ 64 }
    ensures depth { depth_limit ≡ 16 }
    ensures names { name_limit ≡ 64 }
{}
