//! `atom_bench NET..`: the atoms of networks' filter cuts, over decision diagrams. It writes a line for each network: how many
//! atoms there are, how many nodes once they are found, and how many places the partition of header space has. It is there
//! to be timed. The configurations are read from the current folder.
#![tactic(auto)]

use np_acl_read::{Config, SharedConfig, empty_config, read_config};
use np_atomizer::Atomizer;
use np_bdd::Diagrams;
use np_cut::{apply, filter_cuts};
use np_net::Network;
use np_net_read::read_net;
use std::alloc::{AllocError, Global};
use std::string::String;
use std::{env, fs, io, str};

/// The text of a file in the current folder, or nothing where it can't be read.
fn text(rt: &HostRuntime, alloc: Global, file: &[u8]) -> Result<String, io::Error> {
    match str::from_utf8(file) {
        Ok(file) => fs::read_to_string(rt, file),
        Err(_) => Ok(String::new(alloc)),
    }
}

/// The configuration of a device by its file's text; an empty one where that isn't read.
fn config(alloc: Global, bytes: &[u8]) -> Result<Config, AllocError> {
    match read_config(alloc, bytes) {
        Ok(config) => Ok(config),
        Err(_) => Ok(empty_config(alloc)),
    }
}

/// The line of a network with these configurations.
fn line(alloc: Global, net: &Network, configs: &[SharedConfig]) -> Result<String, AllocError> {
    let mut store = Diagrams::new(alloc)?;
    let applied = apply(alloc, net, configs)?;
    let cuts = filter_cuts(alloc, &mut store, net, &applied)?;
    let found = store.atomize(alloc, cuts.as_slice())?;
    format!(in alloc;
        "{} atoms, {} nodes, {} places\n",
        found.atoms.leasts.len(),
        store.count(),
        found.classes.places()
    )
}

/// The configurations of a network's devices.
fn configs(rt: &HostRuntime, alloc: Global, net: &Network) -> Result<Vec<SharedConfig>, io::Error> {
    let mut configs = Vec::new(alloc);
    for device in net.devices.as_slice() {
        let config = match &device.config {
            Some(name) => config(alloc, text(rt, alloc, name.bytes())?.as_bytes())?,
            None => empty_config(alloc),
        };
        configs.push(SharedConfig::of(alloc, config)?)?;
    }
    Ok(configs)
}

fn main(rt: HostRuntime) -> Result<(), io::Error> {
    let alloc = rt.alloc();
    for file in env::args(&rt)?.skip(1) {
        let text = fs::read_to_string(&rt, file.as_str())?;
        if let Ok(net) = read_net(alloc, text.as_bytes()) {
            let configs = configs(&rt, alloc, &net)?;
            print!(&rt; "{}", line(alloc, &net, configs.as_slice())?)?;
        }
    }
    Ok(())
}
