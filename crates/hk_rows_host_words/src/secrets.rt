//! Files that hold a secret, and files that hold none.

use hk_host_words::{SecretFault, read_secret};
use std::alloc::Global;

// Whether a file of these bytes holds this secret.
fn holds(alloc: Global, bytes: &[u8], secret: &[u8]) -> bool {
    match read_secret(alloc, bytes) {
        Ok(read) => read.as_slice() == secret,
        Err(_) => false,
    }
}

fn is_refused(alloc: Global, bytes: &[u8], why: SecretFault) -> bool {
    match read_secret(alloc, bytes) {
        Ok(_) => false,
        Err(fault) => fault == why,
    }
}

#[test]
fn first_lines_of_16_to_128_bytes_are_secrets(rt: HostRuntime) {
    let alloc = rt.alloc();
    let sixteen = b"0123456789abcdef";
    let most = [b'x'; 128];
    assert!(rt; holds(alloc, b"correct horse battery\n", b"correct horse battery"));
    assert!(rt; holds(alloc, b"0123456789abcdef", sixteen));
    assert!(rt; holds(alloc, b"0123456789abcdef\nand more\n", sixteen));
    assert!(rt; holds(alloc, b"0123456789abcdef\r\n", b"0123456789abcdef\r"));
    assert!(rt; holds(alloc, &most, &most));
}

#[test]
fn others_are_too_short_or_too_long(rt: HostRuntime) {
    let alloc = rt.alloc();
    let more = [b'x'; 129];
    assert!(rt; is_refused(alloc, b"", SecretFault::Short));
    assert!(rt;
        is_refused(
            alloc,
            b"0123456789abcde\nf0123456789abcdef\n",
            SecretFault::Short
        )
    );
    assert!(rt; is_refused(alloc, b"\n0123456789abcdef\n", SecretFault::Short));
    assert!(rt; is_refused(alloc, &more, SecretFault::Long));
}
