//! What is drawn of a network and its configurations.

ghost use Rattle.std.specs.Prelude.{◌≡◌, ◌<◌, ◌≤◌, not, ◌==◌};
ghost use Rattle.np_generate.specs.Drawn as drawn;

use crate::drawing::Draws;

/// What is drawn of a goal.
#[derive(Clone, Copy, Debug, PartialEq, Eq)]
pub struct DrawnGoal {
    /// The number of the second area, below 16.
    pub to: u32,
    /// The TCP port that is forbidden.
    pub port: u16,
}

/// The protocol of an entry.
#[derive(Clone, Copy, Debug, PartialEq, Eq)]
pub enum Protocol {
    Ip,
    Tcp,
    Udp,
    Icmp,
}

/// What is drawn of an entry of an access list.
#[derive(Clone, Copy, Debug, PartialEq, Eq)]
pub struct DrawnEntry {
    pub permit: bool,
    pub protocol: Protocol,
    /// The number of the area, below 16, whose addresses are the sources. Without one, all are.
    pub source: Option<u32>,
    /// The same of the destinations.
    pub destination: Option<u32>,
    /// The destination port, for TCP and UDP alone. Without one, all are meant.
    pub port: Option<u16>,
}

fn port_at(place: u32) -> u16
    ensures { result ≡ drawn.port_at place }
{
    match place {
        0 => 22,
        1 => 23,
        2 => 80,
        3 => 443,
        _ => 0,
    }
}

fn protocol_at(place: u32) -> Protocol
    ensures { result ≡ drawn.protocol_at place }
{
    match place {
        0 => Protocol::Ip,
        1 => Protocol::Tcp,
        2 => Protocol::Udp,
        _ => Protocol::Icmp,
    }
}

/// The number of the first area that a device across the ring joins, by the device's number.
pub fn near_area(k: u32) -> u32
    requires from { 16 ≤ k }
    requires to { k < 24 }
    ensures { result ≡ drawn.near_area k }
{
    2 * (k - 16)
}

impl Draws {
    /// One of the four ports.
    #[tactic(auto, unfolding(crate::specs::Drawn::a_port))]
    fn port(&mut self) -> u16
        ensures value { result ≡ (drawn.a_port self.old.state).0 }
        ensures state { self.new.state ≡ (drawn.a_port self.old.state).1 }
    {
        port_at(self.draw(4))
    }

    /// The number of the second area that a device across the ring joins, by the device's number.
    #[tactic(auto, unfolding(crate::specs::Drawn::far_area))]
    pub fn far_area(&mut self, k: u32) -> u32
        requires from { 16 ≤ k }
        requires to { k < 24 }
        ensures value { result ≡ (drawn.far_area k self.old.state).0 }
        ensures state { self.new.state ≡ (drawn.far_area k self.old.state).1 }
    {
        (near_area(k) + 2 + self.draw(12)) % 16
    }

    /// The second area and the port of the goal whose first area has this number.
    #[tactic(auto, unfolding(crate::specs::Drawn::a_goal))]
    pub fn goal(&mut self, k: u32) -> DrawnGoal
        requires { k < 16 }
        ensures value { result ≡ (drawn.a_goal k self.old.state).0 }
        ensures state { self.new.state ≡ (drawn.a_goal k self.old.state).1 }
    {
        let to = (k + 1 + self.draw(15)) % 16;
        let port = self.port();
        DrawnGoal { to, port }
    }

    /// The number of the area whose addresses an entry tests.
    #[tactic(auto, unfolding(crate::specs::Drawn::an_area))]
    fn area(&mut self) -> Option<u32>
        ensures value { result ≡ (drawn.an_area self.old.state).0 }
        ensures state { self.new.state ≡ (drawn.an_area self.old.state).1 }
    {
        if self.draw(2) == 0 {
            None
        } else {
            Some(self.draw(16))
        }
    }

    /// A port or none, where an entry may test one.
    #[tactic(auto, unfolding(crate::specs::Drawn::maybe_port))]
    fn maybe_port(&mut self) -> Option<u16>
        ensures value { result ≡ (drawn.maybe_port self.old.state).0 }
        ensures state { self.new.state ≡ (drawn.maybe_port self.old.state).1 }
    {
        if self.draw(2) == 1 {
            Some(self.port())
        } else {
            None
        }
    }

    /// A port or none, by the protocol of the entry.
    fn port_for(&mut self, protocol: Protocol) -> Option<u16>
        ensures value { result ≡ (drawn.port_for protocol self.old.state).0 }
        ensures state { self.new.state ≡ (drawn.port_for protocol self.old.state).1 }
    {
        match protocol {
            Protocol::Ip => None,
            Protocol::Tcp => self.maybe_port(),
            Protocol::Udp => self.maybe_port(),
            Protocol::Icmp => None,
        }
    }

    /// An entry.
    #[tactic(auto, unfolding(crate::specs::Drawn::an_entry))]
    pub fn entry(&mut self) -> DrawnEntry
        ensures value { result ≡ (drawn.an_entry self.old.state).0 }
        ensures state { self.new.state ≡ (drawn.an_entry self.old.state).1 }
    {
        let permit = self.draw(4) != 0;
        let protocol = protocol_at(self.draw(4));
        let source = self.area();
        let destination = self.area();
        let port = self.port_for(protocol);
        DrawnEntry {
            permit,
            protocol,
            source,
            destination,
            port,
        }
    }
}
