//! What the security associations of a network give, by their kinds and by whom their ends trust.

ghost use Rattle.std.specs.Prelude.{◌≡◌, ◌<◌, length};
ghost use Rattle.np_net.specs.Network.{sa_at};
ghost use Rattle.np_ipsec.specs.Tables.{has_integrity, has_secrecy, is_good, is_secret, is_sound};

use crate::places::is_trusted_device;
use np_net::{DevId, Kind, Network, SaId};

/// Whether a packet under a header of this kind can't be forged: all but encryption alone have integrity (RFC 4302, RFC 4303).
fn has_integrity(kind: Kind) -> bool
    ensures { result ≡ has_integrity kind }
{
    match kind {
        Kind::Esp | Kind::EspNull | Kind::Ah => true,
        Kind::EspEnc => false,
    }
}

/// Whether a packet under a header of this kind can't be read: the payload's encapsulation encrypts (RFC 4303), but not by the
/// null algorithm (RFC 2410), and the authentication header doesn't (RFC 4302).
fn has_secrecy(kind: Kind) -> bool
    ensures { result ≡ has_secrecy kind }
{
    match kind {
        Kind::Esp | Kind::EspEnc => true,
        Kind::EspNull | Kind::Ah => false,
    }
}

/// The kind of an association.
fn kind_of(net: &Network, sa: SaId) -> Kind
    requires { sa < length net.now.sas }
    ensures { result ≡ (sa_at net.now.sas sa).kind }
{
    net.sas.as_slice()[sa as usize].kind
}

/// The device that puts an association's headers around packets.
#[tactic(auto, using(crate::proofs::RangeLaws::from_in_range))]
fn from_of(net: &Network, sa: SaId) -> DevId
    requires { sa < length net.now.sas }
    ensures value { result ≡ (sa_at net.now.sas sa).from }
    ensures within { result < length net.now.devices }
{
    net.sas.as_slice()[sa as usize].from
}

/// The device that removes an association's headers.
#[tactic(auto, using(crate::proofs::RangeLaws::to_in_range))]
fn to_of(net: &Network, sa: SaId) -> DevId
    requires { sa < length net.now.sas }
    ensures value { result ≡ (sa_at net.now.sas sa).to }
    ensures within { result < length net.now.devices }
{
    net.sas.as_slice()[sa as usize].to
}

/// Whether both ends of an association are trusted, so that nobody else has its keys (RFC 4301; Guttman and Herzog 2005).
pub fn good(net: &Network, sa: SaId) -> bool
    requires { sa < length net.now.sas }
    ensures { result ≡ is_good net.now sa }
{
    is_trusted_device(net, from_of(net, sa)) && is_trusted_device(net, to_of(net, sa))
}

/// Whether both ends of an association are trusted, and a packet under its header can't be forged: it is of a kind with
/// integrity (RFC 4302, RFC 4303; Guttman and Herzog 2005).
pub fn sound(net: &Network, sa: SaId) -> bool
    requires { sa < length net.now.sas }
    ensures { result ≡ is_sound net.now sa }
{
    good(net, sa) && has_integrity(kind_of(net, sa))
}

/// Whether both ends of an association are trusted, and a packet under its header can't be read: it is of a kind that encrypts,
/// and not by the null algorithm (RFC 4303, RFC 2410; Guttman and Herzog 2005).
pub fn secret(net: &Network, sa: SaId) -> bool
    requires { sa < length net.now.sas }
    ensures { result ≡ is_secret net.now sa }
{
    good(net, sa) && has_secrecy(kind_of(net, sa))
}
