//! The digest of a group's hosts.

ghost use Rattle.std.specs.Prelude.{◌≡◌, ◌∷◌};
ghost use Rattle.sha2.specs.Sha256.{sha256};
ghost use Rattle.hk_hello.specs.Mac.{joined, hosts_digest};

use crate::hello::HostsDigest;
use hk_base::Sequence;
use sha2::{Digest, Sha256};

// The digest of a text, and of others behind it, each behind a comma.
fn digest_of(first: &[u8], others: &[Sequence<u8>]) -> [u8; 32]
    ensures { result ≡ sha256 (joined (first.now ∷ others.now)) }
{
    let mut hasher = Sha256::new();
    hasher.update(first);
    for host in others {
        hasher.update(b",");
        hasher.update(host.as_slice());
    }
    hasher.finalize()
}

// The digest of texts with a comma between each two.
fn joined_digest(hosts: &[Sequence<u8>]) -> [u8; 32]
    ensures { result ≡ sha256 (joined hosts.now) }
{
    match hosts.split_first() {
        Some((first, others)) => digest_of(first.as_slice(), others),
        None => Sha256::digest(b""),
    }
}

/// The digest of a group's hosts, each as `HOST:PORT`, in their order: the first 8 bytes of the SHA-256 of all, with a
/// comma between each two.
pub fn hosts_digest(hosts: &[Sequence<u8>]) -> HostsDigest
    ensures { result.0 ≡ hosts_digest hosts.now }
{
    let digest = joined_digest(hosts);
    match digest.split_first_chunk::<8>() {
        Some((front, _)) => HostsDigest(*front),
        None => unreachable!(),
    }
}
