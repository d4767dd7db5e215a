//! Laws of generated texts: they are read as the network and the configurations meant. A function
//! here does nothing: its contract is the law.

ghost use Rattle.std.specs.Prelude.{◌≡◌, ℕ, Ok, length, map};
ghost use Rattle.np_acl_read.specs.Reading.{config_of};
ghost use Rattle.np_generate.specs.Generated.{drawn, generated_configs, generated_net};
ghost use Rattle.np_net.specs.Network.{IsNetwork};
ghost use Rattle.np_net_text.specs.Canonical.{net_text};
ghost use Rattle.np_net_read.specs.Reading.{net_of};
ghost use Rattle.np_generated.specs.Configs.{config_meant};
ghost use Rattle.np_generated.specs.Network.{HasGeneratedSizes, network_meant};

/// The configurations of every seed are read as those meant, one for each of the 24 devices: the
/// list 100 has the entries drawn, in their order, and is applied inward at the interface e0.

#[tactic(auto, using(crate::proofs::ConfigLaws::configs_counted, crate::proofs::ConfigLaws::configs_read))]
pub fn configurations_are_read()
    ensures count { (seed : ℕ) → length (generated_configs seed) ≡ 24 }
    ensures configs { (seed : ℕ) → map config_of (generated_configs seed) ≡ map (λ entries. Ok (config_meant entries)) (drawn seed).0.entries }
{}

/// The network's text of every seed is the canonical text of the network meant, and is read as it:
/// 16 areas, 24 devices with the names of their configurations, 48 interfaces and 16 goals.
#[tactic(auto, using(crate::proofs::NetLaws::net_canonical, crate::proofs::NetLaws::net_read))]
pub fn networks_are_read()
    ensures read { (seed : ℕ) → net_of (generated_net seed) ≡ Ok (network_meant (drawn seed).0.net) }
    ensures canonical { (seed : ℕ) → generated_net seed ≡ net_text (network_meant (drawn seed).0.net) }
    ensures network { (seed : ℕ) → IsNetwork (network_meant (drawn seed).0.net) }
    ensures sizes { (seed : ℕ) → HasGeneratedSizes (network_meant (drawn seed).0.net) }
{}
