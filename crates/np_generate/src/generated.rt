//! The texts of a seed's network and configurations.

ghost use Rattle.std.specs.Prelude.{◌≡◌, map, IfOk, OnOk};
ghost use Rattle.np_generate.specs.Drawing.{in_turn};
ghost use Rattle.np_generate.specs.Drawn.{some_entries};
ghost use Rattle.np_generate.specs.Generated.{config_text, generated_configs, generated_net};

use crate::config_lines::put_config;
use crate::drawing::Draws;
use crate::net_lines::put_net;
use sqlite_items::Items;
use std::alloc::{AllocError, Global};

/// A generated network.
#[derive(Debug, Drop)]
pub struct Generated {
    /// The network's text.
    pub net: Vec<u8>,
    /// The text of each device's configuration, in the order of the devices.
    pub configs: Items<Items<u8>>,
}

// The text of the next configuration.
fn config(alloc: Global, draws: &mut Draws) -> Result<Items<u8>, AllocError>
    ensures text { IfOk result (λ text. text ≡ config_text (some_entries draws.old.state).0) }
    ensures state { OnOk result (draws.new.state ≡ (some_entries draws.old.state).1) }
{
    let mut text = Vec::new(alloc);
    put_config(&mut text, draws)?;
    Ok(Items::from_vec(text))
}

// The texts of the configurations.
fn configs(alloc: Global, draws: &mut Draws) -> Result<Items<Items<u8>>, AllocError>
    ensures { IfOk result (λ configs. configs ≡ map config_text (in_turn (λ k. some_entries) 0 24 draws.old.state).0) }
{
    let mut configs = Items::new(alloc);
    for _number in 0..24u32 {
        configs.push(config(alloc, draws)?)?;
    }
    Ok(configs)
}

/// The texts of the network of a seed: 16 areas in a ring of 16 devices, 8 devices across the ring,
/// 16 goals, and for each device a configuration whose list of 40 entries is applied inward at its
/// first interface. What is drawn is drawn in the order of the texts, from the seed as the first
/// state, and equal seeds have equal texts.
///
/// An error comes only where memory runs out.
#[tactic(auto, unfolding(crate::specs::Generated::drawn))]
pub fn generate(alloc: Global, seed: u32) -> Result<Generated, AllocError>
    ensures net { IfOk result (λ generated. generated.net.items ≡ generated_net seed) }
    ensures configs { IfOk result (λ generated. generated.configs ≡ generated_configs seed) }
{
    let mut draws = Draws { state: seed };
    let mut net = Vec::new(alloc);
    put_net(&mut net, &mut draws)?;
    let configs = configs(alloc, &mut draws)?;
    Ok(Generated { net, configs })
}
