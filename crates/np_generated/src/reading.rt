//! Reading the texts of a seed.

ghost use Rattle.std.specs.Prelude.{◌≡◌, Ok, IfOk, IsOk, map};
ghost use Rattle.std.specs.List.{All};
ghost use Rattle.np_acl_read.specs.Reading.{config_of};
ghost use Rattle.np_generate.specs.Generated.{generated_configs, generated_net};
ghost use Rattle.np_net_read.specs.Reading.{net_of};

use np_acl_read::{ConfigError, SharedConfig, read_config};
use np_generate::generate;
use np_net::Network;
use np_net_read::{NetError, read_net};
use sqlite_items::Items;
use std::alloc::{AllocError, Global};

/// What the texts of a seed declare.
#[derive(Drop)]
pub struct GeneratedInputs {
    /// The network.
    pub net: Network,
    /// The configuration of each device, in the order of the devices.
    pub configs: Vec<SharedConfig>,
}

// The network that a text declares, where its lines have no fault.
fn net(alloc: Global, text: &[u8]) -> Result<Network, AllocError>
    requires { IsOk (net_of text.now) }
    ensures { IfOk result (λ net. net_of text.now ≡ Ok net) }
{
    match read_net(alloc, text) {
        Ok(net) => Ok(net),
        Err(NetError::Memory(error)) => Err(error),
        Err(NetError::Fault(_)) => unreachable!(),
    }
}

// The configuration that a text declares, where its lines have no fault.
fn config(alloc: Global, text: &[u8]) -> Result<SharedConfig, AllocError>
    requires { IsOk (config_of text.now) }
    ensures { IfOk result (λ config. config_of text.now ≡ Ok config) }
{
    match read_config(alloc, text) {
        Ok(config) => SharedConfig::of(alloc, config),
        Err(ConfigError::Memory(error)) => Err(error),
        Err(ConfigError::Fault(_)) => unreachable!(),
    }
}

// The configurations that texts declare, in their order.
fn configs(alloc: Global, texts: &[Items<u8>]) -> Result<Vec<SharedConfig>, AllocError>
    requires { All (λ text. IsOk (config_of text)) texts.now }
    ensures { IfOk result (λ configs. map config_of texts.now ≡ map (λ config. Ok config) configs.items) }
{
    let mut configs = Vec::new(alloc);
    for n in 0..texts.len() {
        let config = config(alloc, texts[n].as_slice())?;
        configs.push(config)?;
    }
    Ok(configs)
}

/// The network and the configurations that the texts of a seed ([`generate`]) are read as: 16 areas, 24
/// devices, 48 interfaces and 16 goals, and a configuration for each device. The texts of no seed have a
/// faulty line.
///
/// An error comes only where memory runs out.
pub fn read_generated(alloc: Global, seed: u32) -> Result<GeneratedInputs, AllocError>
    ensures net { IfOk result (λ read. net_of (generated_net seed) ≡ Ok read.net) }
    ensures configs { IfOk result (λ read. map config_of (generated_configs seed) ≡ map (λ config. Ok config) read.configs.items) }
{
    let generated = generate(alloc, seed)?;
    let net = net(alloc, generated.net.as_slice())?;
    let configs = configs(alloc, generated.configs.as_slice())?;
    Ok(GeneratedInputs { net, configs })
}
