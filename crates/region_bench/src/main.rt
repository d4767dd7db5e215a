//! `region_bench FILE`: the regions of a configuration's access lists, as decision diagrams. It writes a line for each
//! list: its name, how many nodes there are once its region is made, and the least header that it permits. It is there
//! to be timed.
#![tactic(auto)]

use np_acl::List;
use np_acl_read::{Config, read_config};
use np_bdd::Diagrams;
use np_cut::list_region;
use np_region::Regions;
use np_text::Name;
use std::alloc::{AllocError, Global};
use std::string::String;
use std::{env, fs, io};

/// A list's line.
fn put_list(
    alloc: Global,
    store: &mut Diagrams,
    name: &Name,
    list: &List,
    text: &mut String,
) -> Result<(), AllocError> {
    let region = list_region(alloc, store, list)?;
    let nodes = store.count();
    let line = match store.least(&region) {
        Some(h) => format!(in alloc;
            "{nodes} nodes, {} {} {} {} {}\n",
            h.src, h.dst, h.proto, h.a, h.b
        )?,
        None => format!(in alloc; "{nodes} nodes, nothing\n")?,
    };
    text.push_str(line.as_str())
}

/// The lines of all lists.
fn lines(alloc: Global, config: &Config) -> Result<String, AllocError> {
    let mut text = String::new(alloc);
    let mut store = Diagrams::new(alloc)?;
    for place in 0..config.lists.count() {
        if let Some((name, list)) = config.lists.at(place) {
            put_list(alloc, &mut store, name, list, &mut text)?;
        }
    }
    Ok(text)
}

/// What is said of the file's text.
fn answer(alloc: Global, bytes: &[u8]) -> Result<String, AllocError> {
    match read_config(alloc, bytes) {
        Ok(config) => lines(alloc, &config),
        Err(_) => String::from_str(alloc, "not read\n"),
    }
}

fn main(rt: HostRuntime) -> Result<(), io::Error> {
    let alloc = rt.alloc();
    for file in env::args(&rt)?.skip(1) {
        let text = fs::read_to_string(&rt, file.as_str())?;
        print!(&rt; "{}", answer(alloc, text.as_bytes())?)?;
    }
    Ok(())
}
