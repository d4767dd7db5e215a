//! Lines that apply lists at interfaces.

use crate::shared_name::SharedName;
use np_acl::Way;
use np_text::Name;

/// A line that applies a list at an interface in one way.
#[derive(Drop)]
pub struct GroupLine {
    /// Its number, from 1 on.
    pub line: u64,
    pub interface: SharedName,
    pub way: Way,
    pub list: Name,
}
