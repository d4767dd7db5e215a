//! The networks and configurations of the cases.

ghost use Rattle.std.specs.Prelude.{◌<◌};

use std::alloc::{AllocError, Global};

/// Two areas and a device between them without a configuration.
pub(crate) const OPEN: &str = "area out 0.0.0.0/0
area lan 10.0.0.0/8
device r
interface r e0 out
interface r e1 lan
goal out lan never tcp
";

/// The same with a configuration for the device, and without a goal.
const FILTERED: &str = "area out 0.0.0.0/0
area lan 10.0.0.0/8
device r config r.cfg
interface r e0 out
interface r e1 lan
";

/// What applies list 100 to what comes in at `e0`.
const APPLIED: &str = "interface e0
 ip access-group 100 in
";

/// Entries that deny TCP alone.
pub(crate) const TCP_DENIED: &str = "access-list 100 deny tcp any any
access-list 100 permit ip any any
";

/// Three areas around a device, and a goal from each to the next one.
pub(crate) const RING: &str = "area a none
area b none
area c none
device r
interface r e0 a
interface r e1 b
interface r e2 c
goal a b never tcp
goal b c never udp
goal c a only any
";

/// Two devices between the same areas: the interfaces of `r2` are declared first.
pub(crate) const SIDE_BY_SIDE: &str = "area out 0.0.0.0/0
area lan 10.0.0.0/8
device r1
device r2
interface r2 e0 out
interface r2 e1 lan
interface r1 e0 out
interface r1 e1 lan
goal out lan never tcp
";

/// A device with a configuration, and a way of three devices around it.
pub(crate) const AROUND: &str = "area a 10.1.0.0/16
area m 10.2.0.0/16
area s 10.3.0.0/16
area b 10.4.0.0/16
device d1
device d2
device d3
device d4 config d4.cfg
interface d1 e0 a
interface d1 e1 m
interface d2 e0 m
interface d2 e1 s
interface d3 e0 s
interface d3 e1 b
interface d4 e0 m
interface d4 e1 b
goal a b never udp
";

/// A configuration by which nothing comes in at `e0`.
pub(crate) const SHUT: &str = "interface e0
 ip access-group 100 in
access-list 100 deny ip any any
";

/// A branch office between its provider and its servers.
pub(crate) const BRANCH: &str = "area inet 0.0.0.0/0
area office 10.20.0.0/24
area dmz 192.0.2.0/28
device br1 config br1.cfg
interface br1 GigabitEthernet0/0 inet
interface br1 GigabitEthernet0/1 office
interface br1 GigabitEthernet0/2 dmz
goal inet office never and tcp and dport 23 not established
goal inet office never src 10.0.0.0/8
goal inet office never udp
goal office inet never and tcp dport 23
goal office inet only src office
goal inet dmz never and tcp and dport 22 not established
";

/// The configuration of its router.
pub(crate) const BRANCH_CONFIG: &str = "version 15.2
service timestamps log datetime msec
hostname br1
!
ip domain-name example.net
!
interface Loopback0
 ip address 10.255.0.1 255.255.255.255
!
interface GigabitEthernet0/0
 description to provider
 ip address 198.51.100.2 255.255.255.252
 ip access-group FROM-INET in
 no ip proxy-arp
 duplex auto
 speed auto
!
interface GigabitEthernet0/1
 ip address 10.20.0.1 255.255.255.0
 ip access-group FROM-OFFICE in
!
interface GigabitEthernet0/2
 ip address 192.0.2.1 255.255.255.240
!
router ospf 1
 network 10.20.0.0 0.0.0.255 area 0
!
no ip http server
ip route 0.0.0.0 0.0.0.0 198.51.100.1
!
ip access-list extended FROM-INET
 10 deny   ip 10.0.0.0 0.255.255.255 any
 20 permit tcp any any established
 30 permit tcp any host 192.0.2.3 eq www 443
 40 permit udp any any eq domain
 50 permit icmp any any echo-reply
 60 deny   ip any any log
ip access-list extended FROM-OFFICE
 remark the office may go anywhere but to telnet
 5 deny   tcp any any eq telnet
 permit ip 10.20.0.0 0.0.0.255 any
!
access-list 10 permit 10.20.0.0 0.0.0.255
!
ntp server 10.20.0.8
banner motd ^C
Authorised use only.
^C
line vty 0 4
 access-class 10 in
 transport input ssh
!
end
";

/// A trusted area, the network around it, and another area, whose line may go on.
const AREAS: &str = "area x 10.1.0.0/16 trusted
area net 0.0.0.0/0
area y 10.2.0.0/16";

/// A guard before each of the two areas, and a device of the network between them that isn't trusted.
const GUARDED: &str = "device gx trusted
device gy trusted
device w
interface gx e0 x
interface gx e1 net
interface gy e0 net
interface gy e1 y
";

/// What the guards do with the association between them, and goals that its packets are authentic and confidential.
const GUARDS: &str = "sa u ah w gy
pop gy e0 t
inrule gx e0 bypass unmarked plain and src x dst y
outrule gx e1 protect t plain and src x dst y
outrule gx e1 bypass under t
inrule gy e0 bypass popped t plain and src x dst y
outrule gy e1 bypass plain and src x dst y
auth x y src x
conf x dst y
";

/// The two guarded areas, both trusted, with these lines before all others, and an association of this kind between the guards.
pub(crate) fn guarded(alloc: Global, first: &str, kind: &str) -> Result<String, AllocError> {
    format!(in alloc; "{first}{AREAS} trusted\n{GUARDED}sa t {kind} gx gy\n{GUARDS}")
}

/// The same with this line after all others.
pub(crate) fn guarded_and(alloc: Global, kind: &str, last: &str) -> Result<String, AllocError> {
    format!(in alloc; "{AREAS} trusted\n{GUARDED}sa t {kind} gx gy\n{GUARDS}{last}")
}

/// The two guarded areas where the second one isn't trusted.
pub(crate) fn half_trusted(alloc: Global) -> Result<String, AllocError> {
    format!(in alloc; "{AREAS}\n{GUARDED}sa t esp gx gy\n{GUARDS}")
}

/// The two areas with a configuration for the device, and this goal from the first area to the second.
pub(crate) fn filtered(alloc: Global, goal: &str) -> Result<String, AllocError> {
    format!(in alloc; "{FILTERED}goal out lan {goal}\n")
}

/// A configuration that applies list 100 to what comes in at `e0`, and then has these lines.
pub(crate) fn applied(alloc: Global, lines: &str) -> Result<String, AllocError> {
    format!(in alloc; "{APPLIED}{lines}")
}

/// Two areas, an open device between them, and a goal for each of the 70 lowest protocols.
pub(crate) fn protocols(alloc: Global) -> Result<String, AllocError> {
    let mut text = String::from_str(
        alloc,
        "area a none
area b none
device r
interface r e0 a
interface r e1 b
",
    )?;
    for protocol in 0..70 {
        text.push_str(format!(in alloc;
            "goal a b never proto {protocol}
"
        )?
        .as_str())?;
    }
    Ok(text)
}

/// The devices of a ladder.
const RUNGS: u32 = 101;

/// The areas of the ladder, two before each device and two behind the last one.
fn put_areas(alloc: Global, text: &mut String) -> Result<(), AllocError> {
    for rung in 0..RUNGS + 1 {
        text.push_str(format!(in alloc; "area a{rung} none\narea b{rung} none\n")?.as_str())?;
    }
    Ok(())
}

/// A device of the ladder: the one halfway has a configuration.
fn device(alloc: Global, rung: u32) -> Result<String, AllocError> {
    if rung == RUNGS / 2 {
        format!(in alloc; "device d{rung} config half.cfg\n")
    } else {
        format!(in alloc; "device d{rung}\n")
    }
}

/// The devices of the ladder.
fn put_devices(alloc: Global, text: &mut String) -> Result<(), AllocError> {
    for rung in 0..RUNGS {
        text.push_str(device(alloc, rung)?.as_str())?;
    }
    Ok(())
}

/// The interfaces of a device of the ladder: on both areas before it, and on both behind it.
fn interfaces(alloc: Global, rung: u32) -> Result<String, AllocError>
    requires { rung < 1000 }
{
    let next = rung + 1;
    format!(in alloc;
        "interface d{rung} e0 a{rung}\ninterface d{rung} e1 b{rung}\ninterface d{rung} e2 a{next}\ninterface d{rung} e3 b{next}\n"
    )
}

/// The interfaces of the ladder.
fn put_interfaces(alloc: Global, text: &mut String) -> Result<(), AllocError> {
    for rung in 0..RUNGS {
        text.push_str(interfaces(alloc, rung)?.as_str())?;
    }
    Ok(())
}

/// A ladder of 101 devices in a row, each on the two areas before it and the two behind it, and a goal from the one end
/// to the other. The shortest paths between its ends are 2 ^ 100.
pub(crate) fn ladder(alloc: Global) -> Result<String, AllocError> {
    let mut text = String::new(alloc);
    put_areas(alloc, &mut text)?;
    put_devices(alloc, &mut text)?;
    put_interfaces(alloc, &mut text)?;
    text.push_str("goal a0 a101 never any\n")?;
    Ok(text)
}

/// The report where each packet may cross the ladder: the hops stay on the areas that are declared first.
pub(crate) fn crossed(alloc: Global) -> Result<String, AllocError> {
    let mut text = String::from_str(alloc, "goal 1 violated 0.0.0.0 0.0.0.0 0 0 0 0\n")?;
    for rung in 0..RUNGS {
        text.push_str(format!(in alloc; "hop d{rung} e0 e2\n")?.as_str())?;
    }
    text.push_str("fails\n")?;
    Ok(text)
}

/// An address in its four numbers.
fn dotted(alloc: Global, address: u32) -> Result<String, AllocError> {
    let [first, second, third, fourth] = address.to_be_bytes();
    format!(in alloc; "{first}.{second}.{third}.{fourth}")
}

/// An entry that permits the addresses of which two neighbouring bits are both set, with these words around them.
fn entry(alloc: Global, pair: u32, before: &str, after: &str) -> Result<String, AllocError>
    requires { pair < 16 }
{
    let bits = 3u32 << (2 * pair);
    let address = dotted(alloc, bits)?;
    let wildcard = dotted(alloc, !bits)?;
    format!(in alloc; "access-list 100 permit ip {before}{address} {wildcard}{after}\n")
}

/// Such an entry for each pair of bits of an address.
fn put_entries(
    alloc: Global,
    text: &mut String,
    before: &str,
    after: &str,
) -> Result<(), AllocError> {
    for pair in 0..16 {
        text.push_str(entry(alloc, pair, before, after)?.as_str())?;
    }
    Ok(())
}

/// Entries that permit each packet of whose source or destination some two neighbouring bits, from an even one on, are
/// both set. Cut into blocks entry by entry, what they leave is 2 ^ 32 blocks.
pub(crate) fn pairs(alloc: Global) -> Result<String, AllocError> {
    let mut text = String::new(alloc);
    put_entries(alloc, &mut text, "", " any")?;
    put_entries(alloc, &mut text, "any ", "")?;
    Ok(text)
}
