//! A configuration from its text.

ghost use Rattle.std.specs.Prelude.{◌≡◌, Ok, IfOk, IfErr};
ghost use Rattle.np_lines.specs.Answers.{IsFaultOf};
ghost use Rattle.np_acl_read.specs.Declaring.{config_with};
ghost use Rattle.np_acl_read.specs.Reading.{config_of};

use crate::config::Config;
use crate::declared::Declared;
use crate::fault::ConfigError;
use crate::lines::read_line;
use np_text::lines;
use std::alloc::{AllocError, Global};

/// The configuration of what is declared.
fn config(alloc: Global, declared: Declared) -> Result<Config, AllocError>
    ensures { IfOk result (λ config. config ≡ config_with declared) }
{
    let lists = declared.lists.into_lists(alloc)?;
    Ok(Config {
        lists,
        groups: declared.groups,
    })
}

/// The configuration that a text declares. Lines that are none of lists and groups are skipped, in
/// any bytes.
///
/// The lines are those of a running configuration of Cisco IOS (Security Command Reference,
/// `access-list`, `ip access-list`, `ip access-group`). The first faulty line is an error, with its
/// number and its first fault in the order of its words: beside the faults of an entry
/// `DuplicateSequence`, `Negated` and `TooManyEntries`. Sequence numbers are 1 to 2,147,483,647, and
/// all lists together have `ENTRY_LIMIT` entries at most. Want of memory may come at any time.
#[tactic(auto, using(crate::proofs::LineReading::config_of_numbered))]
pub fn read_config(alloc: Global, bytes: &[u8]) -> Result<Config, ConfigError>
    ensures config { IfOk result (λ config. config_of bytes.now ≡ Ok config) }
    ensures fault { IfErr result (λ error. IsFaultOf (config_of bytes.now) error) }
{
    let mut declared = Declared::new(alloc);
    for line in lines(bytes) {
        read_line(alloc, &mut declared, line.number, line.bytes)?;
    }
    Ok(config(alloc, declared)?)
}
